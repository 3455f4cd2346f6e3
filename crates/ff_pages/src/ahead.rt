//! Pages go on ahead of what is asked for.
ghost use Rattle.std.specs.Prelude.{◌≡◌, ℕ, ◌+◌, ◌*◌, ◌<◌, ◌≤◌, ◌^◌, IfOk, length, min};
ghost use Rattle.ff_pages.specs.Paging.{StandsIn, IsSamePages, visited_of, RunsTo, TellsClosed};

use crate::pages::{Gone, Pages};
use ff_tables::NoMemory;
use ff_types::Case;
use std::alloc::Global;

impl Pages {
    /// The variables of the part. It takes no memory.
    pub fn vars(&self) -> &[u32]
        ensures { result.now ≡ self.now.part.vars }
    {
        self.part.vars.as_slice()
    }

    /// The turns of the nodes that were visited. It takes no memory.
    pub fn used(&self) -> u64
        ensures { (vars : ℕ) (cons : _) → StandsIn vars cons self.now → result ≡ length self.now.part.vars * visited_of self.now }
    {
        self.spent()
    }

    // Visits nodes while these turns in all cover the next.
    fn run_to(&mut self, alloc: Global, case: &Case, target: u64) -> Result<(), NoMemory>
        requires stands { StandsIn case.now.system.vars case.now.system.constraints self.old }
        requires few { length case.now.system.constraints < 2 ^ 32 }
        requires spent { length self.old.part.vars * visited_of self.old ≤ target }
        requires target { target ≤ self.old.budget }
        ensures stands { StandsIn case.now.system.vars case.now.system.constraints self.new }
        ensures same { IsSamePages self.old self.new }
        ensures ran { IfOk result (λ _. RunsTo case.now.system.constraints target self.new) }
    {
        'nodes: loop {
            let left = target - self.spent();
            match self.go_on(alloc, case, left)? {
                Gone::Found => (),
                _ => return Ok(()),
            }
        }
    }

    // What a node costs.
    fn cost(&self) -> u64
        ensures { result ≡ length self.now.part.vars }
    {
        self.part.vars.as_slice().len() as u64
    }

    /// Whether all nodes are visited, or the rest of the budget doesn't cover the next. It takes no memory.
    pub fn is_closed(&self, case: &Case) -> bool
        requires stands { StandsIn case.now.system.vars case.now.system.constraints self.now }
        ensures { TellsClosed case.now.system.constraints self.now result }
    {
        let _ = case;
        let left = self.budget - self.spent();
        if left < self.cost() {
            return true;
        }
        match &self.search {
            Some(search) => search.is_finished(),
            None => false,
        }
    }

    // Visits nodes while so many more turns cover the next. Where they don't cover one it takes no memory.
    fn run_for(&mut self, alloc: Global, case: &Case, more: u64) -> Result<(), NoMemory>
        requires stands { StandsIn case.now.system.vars case.now.system.constraints self.old }
        requires few { length case.now.system.constraints < 2 ^ 32 }
        requires more { length self.old.part.vars * visited_of self.old + more ≤ self.old.budget }
        ensures stands { StandsIn case.now.system.vars case.now.system.constraints self.new }
        ensures same { IsSamePages self.old self.new }
        ensures ran { IfOk result (λ _. RunsTo case.now.system.constraints (length self.old.part.vars * visited_of self.old + more) self.new) }
    {
        if more < self.cost() {
            return Ok(());
        }
        let target = self.spent() + more;
        self.run_to(alloc, case, target)
    }

    /// Visits nodes in tree order while these turns, and the rest of the budget, cover the next. Whether none is left then that the
    /// budget covers. Where the turns don't cover a node it takes no memory; after want of memory the nodes that it visited stay
    /// visited.
    pub fn ahead(&mut self, alloc: Global, case: &Case, turns: u64) -> Result<bool, NoMemory>
        requires stands { StandsIn case.now.system.vars case.now.system.constraints self.old }
        requires few { length case.now.system.constraints < 2 ^ 32 }
        ensures stands { StandsIn case.now.system.vars case.now.system.constraints self.new }
        ensures same { IsSamePages self.old self.new }
        ensures ran { IfOk result (λ _. RunsTo case.now.system.constraints (min (length self.old.part.vars * visited_of self.old + turns) self.old.budget) self.new) }
        ensures closed { IfOk result (λ closed. TellsClosed case.now.system.constraints self.new closed) }
    {
        let left = self.budget - self.spent();
        let more = turns.min(left);
        self.run_for(alloc, case, more)?;
        Ok(self.is_closed(case))
    }
}
