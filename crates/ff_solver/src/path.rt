//! The way to the present node of a decision tree, and the branches that are left.
ghost use Rattle.std.specs.Prelude.{◌≡◌, ℕ, ◌<◌, ◌≤◌, ◌^◌, ◌++◌, ◌∷◌, ◌⊎◌, IsTrue, false, List, length, None, Some, Option, slice_get, slice_index};
ghost use Rattle.ff_tables.specs.declared.orders.Order.{Order as OrderSpec};
ghost use Rattle.ff_tables.specs.declared.orders.Order.TheVariants.{Below, Above};
ghost use Rattle.ff_tables.specs.Forces.{Knows};
ghost use Rattle.ff_propagate.specs.Trees.{Tree, IsTreeAt, visits};
ghost use Rattle.ff_propagate.specs.Trails.{known};
ghost use Rattle.ff_solver.specs.Moves.{IsBranched, GoesBack};
ghost use Rattle.ff_solver.specs.Paths.{IsPath, IsReady, ArePending, AreNext, AreLeft, IsAtNode, IsPassed, IsSolved, AreDecided, AreSilent, Nodes};

use ff_propagate::Trail;
use ff_tables::{Order, System};

/// The values at a node, how many steps the trail had at the branches that are left, and the number of the step from which on the
/// next node is to be closed.
#[derive(Drop)]
pub(crate) struct Path {
    pub(crate) trail: Trail,
    pub(crate) branches: Vec<u32>,
    pub(crate) next: Option<u32>,
}

impl Path {
    /// Goes to the last branch that is left.
    pub(crate) fn backtrack(&mut self, system: &System)
        requires path { IsPath system.now.vars system.now.constraints self.old }
        ensures path { IsPath system.now.vars system.now.constraints self.new }
        ensures ready { IsReady system.now.constraints self.new.trail self.new.next }
        ensures left { (value : ℕ → Option OrderSpec) (part : List ℕ) (nodes : Nodes) → ArePending system.now.constraints value part self.old nodes
            → AreLeft system.now.constraints value part self.new self.new.next nodes }
        ensures back { GoesBack system.now.vars self.old self.new }
    {
        match self.branches.pop() {
            None => self.next = None,
            Some(mark) => {
                let var = self.trail.step(mark as usize).var;
                self.trail.undo(system.vars, mark as usize);
                self.trail.assume(system.vars, var, Order::Above);
                self.next = Some(mark);
            }
        }
    }

    /// Tries Below of the variable, and leaves Above for later.
    pub(crate) fn branch(&mut self, system: &System, var: u32)
        requires path { IsPath system.now.vars system.now.constraints self.old }
        requires var { var < system.now.vars }
        requires open { known self.old.trail var ≡ None }
        requires silent { AreSilent system.now.constraints (known self.old.trail) }
        ensures path { IsPath system.now.vars system.now.constraints self.new }
        ensures ready { IsReady system.now.constraints self.new.trail self.new.next }
        ensures left { (value : ℕ → Option OrderSpec) (part : List ℕ) (tried : List (ℕ × OrderSpec)) (below above : Tree) (nodes : Nodes)
            → IsAtNode system.now.constraints value tried (known self.old.trail)
            → IsTreeAt system.now.constraints (Knows value) part ((var, Below) ∷ tried) below
            → IsTreeAt system.now.constraints (Knows value) part ((var, Above) ∷ tried) above
            → ArePending system.now.constraints value part self.old nodes
            → AreLeft system.now.constraints value part self.new self.new.next (visits below ++ (visits above ++ nodes)) }
        ensures branched { IsBranched system.now.vars self.old var self.new }
    {
        let steps = self.trail.len();
        self.trail.assume(system.vars, var, Order::Below);
        let mark = steps as u32;
        self.branches.push_reserved(mark);
        self.next = Some(mark);
    }
}
