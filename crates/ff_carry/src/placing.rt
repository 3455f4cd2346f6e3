//! Facts in order of their levels.
ghost use Rattle.std.specs.Prelude.{◌≡◌, ◌+◌, ◌<◌, ◌≤◌, length, IfOk};
ghost use Rattle.std.specs.List.Sorted.{IsPermutation};
ghost use Rattle.ff_carry.specs.Placing.{ArePlaced, IsOrder, AreByLevel};

use ff_propagate::Facts;
use ff_tables::NoMemory;
use std::alloc::Global;

/// Where a fact stands: its level, and its variable.
#[derive(Clone, Copy, Debug, PartialEq, Eq, PartialOrd, Ord)]
pub struct Placed {
    pub level: u32,
    pub var: u32,
}

// Puts the place of the variable's fact, if it has one, at the end.
fn place(list: &mut Vec<Placed>, old: &Facts, var: u32) -> Result<(), NoMemory>
    requires var { var < length old.now }
    requires placed { ArePlaced old.now var list.old.items }
    ensures { IfOk result (λ _. ArePlaced old.now (var + 1) list.new.items) }
{
    match old.fact(var) {
        None => Ok(()),
        Some(fact) => {
            list.push(Placed {
                level: fact.level,
                var,
            })?;
            Ok(())
        }
    }
}

// The places of all facts.
fn places(alloc: Global, old: &Facts, vars: u32) -> Result<Vec<Placed>, NoMemory>
    requires { length old.now ≡ vars }
    ensures { IfOk result (λ list. ArePlaced old.now vars list.items) }
{
    let mut list = Vec::with_capacity(alloc, vars as usize)?;
    for var in 0..vars {
        place(&mut list, old, var)?;
    }
    Ok(list)
}

fn sort(list: &mut [Placed])
    ensures len { length list.new ≡ length list.old }
    ensures same { IsPermutation list.old list.new }
    ensures sorted { AreByLevel list.new }
{
    list.sort_unstable();
}

/// The places of the facts, in order of level.
pub fn order_of(alloc: Global, old: &Facts, vars: u32) -> Result<Vec<Placed>, NoMemory>
    requires { length old.now ≡ vars }
    ensures { IfOk result (λ order. IsOrder old.now order.items) }
{
    let mut order = places(alloc, old, vars)?;
    sort(order.as_mut_slice());
    Ok(order)
}
