//! What each value of a pair's variable adds to a cost.
ghost use Rattle.std.specs.Prelude.{◌≡◌, ℕ, ◌+◌, ◌≤◌, ◌<◌, ◌^◌, [], length, List, slice_index, slice_set, take, None, IfOk};
ghost use Rattle.ff_types.specs.declared.pins.Pin.{Pin as PinSpec};
ghost use Rattle.ff_near.specs.Distance.{against, cost};
ghost use Rattle.ff_near.specs.Wishes.{order_against, AreWishes};
ghost use Rattle.ff_near.specs.Weights.{AreWeights, IsRising, AreWithin, weight_in};

use ff_tables::{NoMemory, Order};
use ff_types::{Case, Pin};
use std::alloc::Global;

/// For each variable how many given orders of its pair its two values are against.
#[derive(Drop)]
pub(crate) struct Weights {
    pub(crate) below: Vec<u32>,
    pub(crate) above: Vec<u32>,
}

// The order that the item is against, of the lesser face of its pair to the greater.
pub(crate) fn against_order(pin: Pin) -> Order
    ensures { result ≡ order_against pin }
{
    if pin.f < pin.g {
        match pin.value {
            Order::Below => Order::Above,
            Order::Above => Order::Below,
        }
    } else {
        pin.value
    }
}

// One more at the place.
fn add(counts: &mut Vec<u32>, n: u32)
    requires within { n < length counts.old.items }
    requires room { slice_index counts.old.items n + 1 < 2 ^ 32 }
    ensures { counts.new.items ≡ slice_set counts.old.items n (slice_index counts.old.items n + 1) }
{
    counts[n as usize] += 1;
}

impl Weights {
    // No given order.
    fn none(alloc: Global, case: &Case) -> Result<Weights, NoMemory>
        ensures { IfOk result (λ w. AreWeights case.now.pairs [] w.below.items w.above.items) }
    {
        Ok(Weights {
            below: vec![in alloc; 0u32; case.pairs.count()]?,
            above: vec![in alloc; 0u32; case.pairs.count()]?,
        })
    }

    // One given order more.
    fn weigh(&mut self, case: &Case, list: &[Pin], i: usize)
        requires wishes { AreWishes case.now.pairs list.now }
        requires few { length list.now < 2 ^ 32 }
        requires there { i < length list.now }
        requires weights { AreWeights case.now.pairs (take i list.now) self.old.below.items self.old.above.items }
        ensures { AreWeights case.now.pairs (take (i + 1) list.now) self.new.below.items self.new.above.items }
    {
        let pin = list[i];
        // the two faces of a pair are different
        let _count = case.pairs.count();
        if let Some(n) = case.pairs.number(pin.f, pin.g) {
            match against_order(pin) {
                Order::Below => add(&mut self.below, n),
                Order::Above => add(&mut self.above, n),
            }
        }
    }

    // What the variable's value adds to a cost.
    fn of(&self, var: u32, value: Order) -> u32
        requires below { var < length self.now.below.items }
        requires above { var < length self.now.above.items }
        ensures { result ≡ weight_in self.now.below.items self.now.above.items value var }
    {
        match value {
            Order::Below => self.below[var as usize],
            Order::Above => self.above[var as usize],
        }
    }

    /// What the values of a part's variables cost, by the weights of these given orders.
    pub(crate) fn cost(&self, case: &Case, list: &[Pin], part: &[u32], values: &[Order]) -> u32
        requires weights { AreWeights case.now.pairs list.now self.now.below.items self.now.above.items }
        requires few { length list.now < 2 ^ 32 }
        requires rising { IsRising part.now }
        requires within { AreWithin (length case.now.pairs) part.now }
        requires as_many { length values.now ≡ length part.now }
        ensures { result ≡ cost case.now.pairs list.now part.now values.now }
    {
        let _ = case;
        let _ = list;
        let mut total = 0u32;
        let mut k = part.len();
        while k > 0 {
            k -= 1;
            total += self.of(part[k], values[k]);
        }
        total
    }
}

/// The weights of the given orders.
pub(crate) fn weights_of(alloc: Global, case: &Case, list: &[Pin]) -> Result<Weights, NoMemory>
    requires wishes { AreWishes case.now.pairs list.now }
    requires few { length list.now < 2 ^ 32 }
    ensures { IfOk result (λ w. AreWeights case.now.pairs list.now w.below.items w.above.items) }
{
    let mut weights = Weights::none(alloc, case)?;
    for i in 0..list.len() {
        weights.weigh(case, list, i);
    }
    Ok(weights)
}
