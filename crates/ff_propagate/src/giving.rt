//! The facts of the givens.
ghost use Rattle.std.specs.Prelude.{◌≡◌, ℕ, ◌+◌, ◌<◌, ◌≤◌, ◌^◌, length, None, Some, slice_get};
ghost use Rattle.ff_propagate.specs.Closing.{GivensFit};
ghost use Rattle.ff_propagate.specs.RuleLaws.{HasFacts};
ghost use Rattle.ff_propagate.specs.Giving.{HasGivens, GaveOne, GaveAll, Agreed};

use crate::facts::{ClashAt, Fact, Reason};
use ff_tables::Given;

// Sets the i-th given, where its variable has no fact. The first given that it contradicts.
fn give_one(facts: &mut [Option<Fact>], givens: &[Given], given: Given, i: u32) -> Option<u32>
    requires given { slice_get givens.now i ≡ Some given }
    requires var { given.var < length facts.old }
    requires gives { HasGivens givens.now i facts.old }
    ensures wide { length facts.new ≡ length facts.old }
    ensures more { HasFacts facts.new facts.old }
    ensures gives { HasGivens givens.now (i + 1) facts.new }
    ensures gave { GaveOne givens.now given i facts.new result }
{
    let _ = givens.len();
    match facts[given.var as usize] {
        None => {
            facts[given.var as usize] = Some(Fact {
                value: given.value,
                level: 0,
                reason: Reason::Given(i),
            });
            None
        }
        Some(h) => {
            if h.value == given.value {
                return None;
            }
            match h.reason {
                Reason::Given(j) => Some(j),
                Reason::Forced(_) => unreachable!(),
            }
        }
    }
}

// Sets the givens from the n-th on.
fn give_rest(facts: &mut [Option<Fact>], givens: &[Given], n: u32)
    requires fit { GivensFit (length facts.old) givens.now }
    requires few { length givens.now < 2 ^ 32 }
    requires n { n ≤ length givens.now }
    requires gives { HasGivens givens.now n facts.old }
    ensures wide { length facts.new ≡ length facts.old }
    ensures gives { HasGivens givens.now (length givens.now) facts.new }
{
    for i in n..givens.len() as u32 {
        give_one(facts, givens, givens[i as usize], i);
    }
}

/// Sets all givens. The first that contradicts an earlier one, with the first that it contradicts.
pub fn give(facts: &mut [Option<Fact>], givens: &[Given]) -> Option<ClashAt>
    requires fit { GivensFit (length facts.old) givens.now }
    requires few { length givens.now < 2 ^ 32 }
    requires gives { HasGivens givens.now 0 facts.old }
    ensures wide { length facts.new ≡ length facts.old }
    ensures gives { HasGivens givens.now (length givens.now) facts.new }
    ensures gave { GaveAll givens.now (length givens.now) facts.new result }
{
    for i in 0..givens.len() as u32 {
        if let Some(first) = give_one(facts, givens, givens[i as usize], i) {
            give_rest(facts, givens, i + 1);
            return Some(ClashAt::Givens { first, second: i });
        }
    }
    None
}
