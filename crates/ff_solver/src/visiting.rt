//! A node is visited.
ghost use Rattle.std.specs.Prelude.{◌≡◌, ℕ, ◌<◌, ◌≤◌, ◌^◌, IsTrue, false, length, None, Some, Option, slice_index};
ghost use Rattle.ff_tables.specs.declared.orders.Order.{Order as OrderSpec};
ghost use Rattle.ff_propagate.specs.Uses.{AreUses};
ghost use Rattle.ff_propagate.specs.Trails.{known};
ghost use Rattle.ff_solver.specs.Paths.{IsPath, IsReady, AreNext, IsPassed, IsSolved, AreDecided, AreWithin, FirstOpen, Nodes};

use crate::path::Path;
use ff_propagate::{Trail, Uses};
use ff_tables::{Known, System};

/// The first variable of the part that has no value.
pub(crate) fn first_open(part: &[u32], trail: &Trail, vars: u32) -> Option<u32>
    requires within { AreWithin vars part.now }
    requires wide { length trail.now.values.list.items ≡ vars }
    ensures { FirstOpen part.now trail.now result }
{
    let _ = vars;
    for k in 0..part.len() {
        if trail.value(part[k]).is_none() {
            return Some(part[k]);
        }
    }
    None
}

impl Path {
    /// Closes the next node, and goes on from it: to the last branch that is left where a constraint is dead, to the first of two
    /// branches where a variable of the part is open. Whether it is a solution instead; the path then stays.
    pub(crate) fn visit(&mut self, system: &System, uses: &Uses, part: &[u32], head: u32) -> bool
        requires few { length system.now.constraints < 2 ^ 32 }
        requires uses { AreUses system.now.vars system.now.constraints uses.now }
        requires part { AreWithin system.now.vars part.now }
        requires path { IsPath system.now.vars system.now.constraints self.old }
        requires ready { IsReady system.now.constraints self.old.trail (Some head) }
        ensures path { IsPath system.now.vars system.now.constraints self.new }
        ensures ready { result ≡ false → IsReady system.now.constraints self.new.trail self.new.next }
        ensures decided { IsTrue result → AreDecided part.now self.new.trail }
        ensures passed { result ≡ false → (value : ℕ → Option OrderSpec) (nodes : Nodes) → AreNext system.now.constraints value part.now self.old nodes
            → IsPassed system.now.constraints value part.now self.new nodes }
        ensures solved { IsTrue result → (value : ℕ → Option OrderSpec) (nodes : Nodes) → AreNext system.now.constraints value part.now self.old nodes
            → IsSolved system.now.constraints value part.now self.new nodes }
    {
        match self.trail.close(system, uses, head as usize) {
            Some(_dead) => {
                self.backtrack(system);
                false
            }
            None => match first_open(part, &self.trail, system.vars) {
                None => true,
                Some(var) => {
                    self.branch(system, var);
                    false
                }
            },
        }
    }
}
