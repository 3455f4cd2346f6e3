//! How many given orders the closure decides otherwise, and what best solutions cost together.
ghost use Rattle.std.specs.Prelude.{◌≡◌, ◌+◌, ◌≤◌, ◌<◌, ◌^◌, length, None, sum_by};
ghost use Rattle.ff_types.specs.Pairs.{number_of};
ghost use Rattle.ff_propagate.specs.Facts.{value_at};
ghost use Rattle.ff_near.specs.Distance.{decides_otherwise, share};
ghost use Rattle.ff_near.specs.Weights.{count_of};
ghost use Rattle.ff_near.specs.Wishes.{says, AreWishes};

use crate::parts::PartBest;
use crate::weighing::against_order;
use ff_propagate::Facts;
use ff_tables::{Known, Order};
use ff_types::{Case, Pin};

// Whether the value is there, and is this one.
fn is_value(order: Order, value: Option<Order>) -> bool
    ensures { result ≡ says order value }
{
    match (order, value) {
        (Order::Above, Some(Order::Above)) => true,
        (Order::Below, Some(Order::Below)) => true,
        _ => false,
    }
}

// Whether the facts decide the item's pair otherwise.
fn is_otherwise(case: &Case, facts: &Facts, pin: Pin) -> bool
    requires listed { number_of case.now.pairs pin.f pin.g ≡ None → ⊥ }
    requires wide { length facts.now ≡ length case.now.pairs }
    ensures { result ≡ decides_otherwise case.now.pairs (value_at facts.now) pin }
{
    // the two faces of a pair are different
    let _count = case.pairs.count();
    match case.pairs.number(pin.f, pin.g) {
        Some(n) => is_value(against_order(pin), facts.value(n)),
        None => false,
    }
}

// One more where it is so.
fn one_more(count: u32, is: bool) -> u32
    requires { count + 1 < 2 ^ 32 }
    ensures { result ≡ count + count_of is }
{
    if is { count + 1 } else { count }
}

/// How many given orders the facts decide otherwise.
pub(crate) fn decided(case: &Case, facts: &Facts, list: &[Pin]) -> u32
    requires wishes { AreWishes case.now.pairs list.now }
    requires wide { length facts.now ≡ length case.now.pairs }
    requires few { length list.now + 1 < 2 ^ 32 }
    ensures { result ≡ share case.now.pairs list.now (value_at facts.now) }
{
    let mut count = 0u32;
    for i in 0..list.len() {
        count = one_more(count, is_otherwise(case, facts, list[i]));
    }
    count
}

/// What the best solutions of all parts cost together.
pub(crate) fn total_cost(bests: &[PartBest]) -> u64
    requires { length bests.now < 2 ^ 32 }
    ensures { result ≡ sum_by (λ b. b.cost) bests.now }
{
    let mut total = 0u64;
    for k in 0..bests.len() {
        total += bests[k].cost as u64;
    }
    total
}
