//! The closure.
ghost use Rattle.std.specs.Prelude.{◌≡◌, ℕ, ◌+◌, ◌<◌, ◌≤◌, ◌^◌, IsTrue, false, length, None, Some, slice_get, IfOk};
ghost use Rattle.ff_propagate.specs.Closing.{GivensFit, ClosesTo};
ghost use Rattle.ff_propagate.specs.Giving.{HasGivens, Agreed};

use crate::facts::{ClashAt, Closed, Fact, Facts};
use crate::giving::give;
use crate::telling::{tell, values_of};
use crate::trail::Trail;
use ff_tables::{Given, Items, NoMemory, System};
use std::alloc::Global;

// The closure where no two givens contradict each other, from the facts of the givens.
fn closed(
    alloc: Global,
    mut facts: Vec<Option<Fact>>,
    system: &System,
    givens: &[Given],
) -> Result<Closed, NoMemory>
    requires vars { system.now.vars < 2 ^ 32 }
    requires wide { length facts.items ≡ system.now.vars }
    requires gives { HasGivens givens.now (length givens.now) facts.items }
    requires agreed { Agreed givens.now (length givens.now) facts.items }
    requires few { length system.now.constraints < 2 ^ 32 }
    ensures { IfOk result (λ r. ClosesTo system.now.vars system.now.constraints givens.now r) }
{
    let values = values_of(alloc, facts.as_slice())?;
    let mut trail = Trail::of(alloc, values)?;
    let dead = trail.settle(alloc, system)?;
    tell(facts.as_mut_slice(), system, givens, &trail);
    let facts = Facts::of(Items::of(facts));
    match dead {
        Some(c) => Ok(Closed::Clash {
            facts,
            at: ClashAt::Dead(c),
        }),
        None => Ok(Closed::Board(facts)),
    }
}

/// The closure of the givens under the constraints of the system: the least set that holds them and all that
/// some constraint forces from the set. It clashes exactly where this set has both values of some variable.
pub fn close(alloc: Global, system: &System, givens: &Items<Given>) -> Result<Closed, NoMemory>
    requires givens { GivensFit system.now.vars givens.now }
    requires few { (length givens.now < 2 ^ 32) × (length system.now.constraints < 2 ^ 32) }
    ensures { IfOk result (λ r. ClosesTo system.now.vars system.now.constraints givens.now r) }
{
    let mut facts = vec![in alloc; None; system.vars as usize]?;
    let givens = givens.as_slice();
    if let Some(at) = give(facts.as_mut_slice(), givens) {
        return Ok(Closed::Clash {
            facts: Facts::of(Items::of(facts)),
            at,
        });
    }
    closed(alloc, facts, system, givens)
}

/// Whether each given is of a variable below `vars`.
pub fn givens_fit(vars: u32, givens: &[Given]) -> bool
    ensures holds { IsTrue result → GivensFit vars givens.now }
    ensures fails { result ≡ false → GivensFit vars givens.now → ⊥ }
{
    for i in 0..givens.len() {
        if givens[i].var >= vars {
            return false;
        }
    }
    true
}
