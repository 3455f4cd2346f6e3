//! What two ways from point to point have in common.
ghost use Rattle.std.specs.Prelude.{pos, ◌≡◌, ◌≢◌, ◌↔◌, ◌<ℤ◌, IsTrue, MatchOption};
ghost use Rattle.ff_whole.specs.Points.{IsNear, turn};
ghost use Rattle.ff_whole.specs.Turning.{rank};
ghost use Rattle.ff_edges.specs.Ways.{IsCommonWay, HaveNoWay, IsEarlier, IsLater};

use ff_whole::{Pt, orient};

/// Whether `p` comes before `q` in the order of x and then of y.
pub fn is_before(p: Pt, q: Pt) -> bool
    requires p_near { IsNear p }
    requires q_near { IsNear q }
    ensures { IsTrue result ↔ (rank p <ℤ rank q) }
{
    p < q
}

/// The one of the two points that comes before the other in the order of x and then of y.
pub fn earlier(p: Pt, q: Pt) -> Pt
    requires p_near { IsNear p }
    requires q_near { IsNear q }
    ensures { IsEarlier p q result }
{
    if is_before(p, q) { p } else { q }
}

/// The other one.
pub fn later(p: Pt, q: Pt) -> Pt
    requires p_near { IsNear p }
    requires q_near { IsNear q }
    ensures { IsLater p q result }
{
    if is_before(p, q) { q } else { p }
}

fn are_on_line(a: Pt, b: Pt, c: Pt, d: Pt) -> bool
    requires a_near { IsNear a }
    requires b_near { IsNear b }
    requires c_near { IsNear c }
    requires d_near { IsNear d }
    ensures { IsTrue result ↔ ((turn a b c ≡ pos 0) × (turn a b d ≡ pos 0)) }
{
    orient(a, b, d) == 0 && orient(a, b, c) == 0
}

/// The ends of what the ways from `a` to `b` and from `c` to `d` have in common, in the order of x and then of y. None
/// exactly where they have one place in common at most.
pub fn common_way(a: Pt, b: Pt, c: Pt, d: Pt) -> Option<(Pt, Pt)>
    requires a_near { IsNear a }
    requires b_near { IsNear b }
    requires c_near { IsNear c }
    requires d_near { IsNear d }
    requires apart { a ≢ b }
    requires other_apart { c ≢ d }
    ensures { MatchOption result (HaveNoWay a b c d) (λ ends. IsCommonWay a b c d ends.0 ends.1) }
{
    if !are_on_line(a, b, c, d) {
        return None;
    }
    let p = later(earlier(a, b), earlier(c, d));
    let q = earlier(later(a, b), later(c, d));
    if is_before(p, q) { Some((p, q)) } else { None }
}
