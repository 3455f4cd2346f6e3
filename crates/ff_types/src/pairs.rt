//! The pairs of overlapping faces, numbered.
ghost use Rattle.std.specs.Prelude.{◌≡◌, ◌<◌, ◌↔◌, ◌^◌, length, slice_get, IsTrue, Some, IfSome, IsSome};
ghost use Rattle.ff_types.specs.Pairs.{is_before as pair_before, AreSorted, ArePairs, IsNext, in_order as pair_in_order, number_of, StandsIn};

use ff_tables::Items;
use std::marker::Model;

/// The pairs (f, g) of overlapping faces with f < g, in order of f and then of g. A pair's place is its number, and the
/// number of its variable. Contracts see the list.
#[derive(Drop)]
pub struct Pairs {
    list: Items<(u32, u32)>,
}

impl Model for Pairs {
    ghost use Rattle.std.specs.Prelude.{ℕ, List};
    ghost use Rattle.ff_types.specs.Pairs.{ArePairs};

    ghost Value = { List (ℕ × ℕ) };

    ghost view = { λ a. a.list };

    ghost invariant = { λ a. ArePairs a.list };
}

fn in_order(f: u32, g: u32) -> (u32, u32)
    ensures { result ≡ pair_in_order f g }
{
    if f < g { (f, g) } else { (g, f) }
}

// Where the pair stands in the list, found by halving.
fn place_of(list: &[(u32, u32)], pair: (u32, u32)) -> Option<usize>
    requires sorted { AreSorted list.now }
    ensures { StandsIn list.now pair result }
{
    list.binary_search(&pair).ok()
}

fn is_before(p: (u32, u32), q: (u32, u32)) -> bool
    ensures { result ≡ pair_before p q }
{
    p.0 < q.0 || (p.0 == q.0 && p.1 < q.1)
}

// Whether the pair at the place has its lesser face first, and comes after the one before.
fn is_next(list: &[(u32, u32)], n: usize) -> bool
    requires { n < length list.now }
    ensures { IsTrue result ↔ IsNext list.now n }
{
    let pair = list[n];
    if pair.1 <= pair.0 {
        return false;
    }
    n == 0 || is_before(list[n - 1], pair)
}

fn are_sorted(list: &[(u32, u32)]) -> bool
    ensures { IsTrue result ↔ AreSorted list.now }
{
    for n in 0..list.len() {
        if !is_next(list, n) {
            return false;
        }
    }
    true
}

/// The pairs of this list. None exactly where it isn't strictly in order with the lesser face first in each pair, or is
/// longer than 32 bits number. It takes no memory.
pub fn pairs_of(list: Items<(u32, u32)>) -> Option<Pairs>
    ensures made { IfSome result (λ pairs. pairs ≡ list) }
    ensures exact { IsSome result ↔ ArePairs list }
{
    if list.as_slice().len() > u32::MAX as usize || !are_sorted(list.as_slice()) {
        return None;
    }
    Some(Pairs::of(list))
}

impl Pairs {
    /// The pairs of this list, each with its lesser face first, strictly in order. It takes no memory.
    pub fn of(list: Items<(u32, u32)>) -> Pairs
        requires sorted { AreSorted list }
        requires few { length list < 2 ^ 32 }
        ensures { result ≡ list }
    {
        Pairs { list }
    }

    /// How many pairs there are. It takes no memory.
    pub fn count(&self) -> usize
        ensures value { result ≡ length self.now }
        ensures few { result < 2 ^ 32 }
        ensures pairs { ArePairs self.now }
    {
        self.list.as_slice().len()
    }

    /// The number of the pair of `f` and `g`, in either order. None exactly where the two faces don't overlap, are one or
    /// are no faces. Takes logarithmic time and no memory.
    pub fn number(&self, f: u32, g: u32) -> Option<u32>
        ensures value { result ≡ number_of self.now f g }
        ensures place { StandsIn self.now (pair_in_order f g) result }
    {
        match place_of(self.list.as_slice(), in_order(f, g)) {
            Some(n) => Some(n as u32),
            None => None,
        }
    }

    /// The two faces of the pair with this number, the lesser first. Takes no memory.
    pub fn faces(&self, n: u32) -> (u32, u32)
        requires { n < length self.now }
        ensures value { slice_get self.now n ≡ Some result }
        ensures rising { result.0 < result.1 }
        ensures number { number_of self.now result.0 result.1 ≡ Some n }
    {
        self.list.as_slice()[n as usize]
    }
}
