//! A trail goes on by what constraints force.
ghost use Rattle.std.specs.Prelude.{◌≡◌, ℕ, ◌+◌, ◌<◌, ◌≤◌, ◌^◌, length, slice_get, slice_index, None, Some, IfOk};
ghost use Rattle.ff_propagate.specs.Uses.{AreUses};
ghost use Rattle.ff_propagate.specs.Trails.{step_at, IsTrail, Grows, AreReady, IsDead, Ends, PassesEnd};

use crate::trail::Trail;
use crate::uses::Uses;
use ff_tables::{NoMemory, System};
use std::alloc::Global;

/// How the passes end.
pub(crate) enum Passed {
    /// A constraint without a row that agrees.
    Dead(u32),
    /// Each constraint has all that it forces, or has a variable of this step or a later one.
    Waiting(usize),
}

impl Trail {
    // Examines the constraints that have the variable of the head-th step. One that is dead.
    fn follow(&mut self, system: &System, uses: &Uses, head: usize, var: u32) -> Option<u32>
        requires trail { IsTrail system.now.vars self.old }
        requires few { length system.now.constraints < 2 ^ 32 }
        requires uses { AreUses system.now.vars system.now.constraints uses.now }
        requires head { head < length self.old.steps.items }
        requires var { (var < system.now.vars) × ((step_at self.old head).var ≡ var) }
        requires ready { AreReady system.now.constraints self.old head }
        ensures trail { IsTrail system.now.vars self.new }
        ensures grows { Grows system.now.constraints self.old self.new }
        ensures ends { Ends system.now.constraints (head + 1) self.new result }
    {
        let constraints = system.constraints.as_slice();
        let list = uses.of(system.vars, constraints, var);
        for k in 0..list.len() {
            let number = list[k];
            if self.examine(system, &constraints[number as usize], number) {
                return Some(number);
            }
        }
        None
    }

    // Examines each constraint once. One that is dead.
    fn pass(&mut self, system: &System) -> Option<u32>
        requires trail { IsTrail system.now.vars self.old }
        requires few { length system.now.constraints < 2 ^ 32 }
        ensures trail { IsTrail system.now.vars self.new }
        ensures grows { Grows system.now.constraints self.old self.new }
        ensures ends { Ends system.now.constraints (length self.old.steps.items) self.new result }
    {
        let constraints = system.constraints.as_slice();
        for number in 0..constraints.len() as u32 {
            if self.examine(system, &constraints[number as usize], number) {
                return Some(number);
            }
        }
        None
    }

    /// Sets all that constraints force, from the head-th step on, where each constraint that has no variable of these steps has all
    /// that it forces. The number of a constraint that is dead, where there is one; some values may then be left out.
    ///
    /// Each of the new steps has the constraint that forced it from what was known before.
    pub fn close(&mut self, system: &System, uses: &Uses, head: usize) -> Option<u32>
        requires trail { IsTrail system.now.vars self.old }
        requires few { length system.now.constraints < 2 ^ 32 }
        requires uses { AreUses system.now.vars system.now.constraints uses.now }
        requires head { head ≤ length self.old.steps.items }
        requires ready { AreReady system.now.constraints self.old head }
        ensures trail { IsTrail system.now.vars self.new }
        ensures grows { Grows system.now.constraints self.old self.new }
        ensures ends { Ends system.now.constraints (length self.new.steps.items) self.new result }
    {
        let mut at = head;
        while at < self.steps.len() {
            let var = self.steps[at].var;
            match self.follow(system, uses, at, var) {
                Some(number) => return Some(number),
                None => at += 1,
            }
        }
        None
    }

    // Passes over all constraints, while they pay.
    fn passes(&mut self, system: &System) -> Passed
        requires trail { IsTrail system.now.vars self.old }
        requires few { length system.now.constraints < 2 ^ 32 }
        ensures trail { IsTrail system.now.vars self.new }
        ensures grows { Grows system.now.constraints self.old self.new }
        ensures ends { PassesEnd system.now.constraints self.new result }
    {
        'passes: loop {
            let head = self.steps.len();
            if let Some(number) = self.pass(system) {
                return Passed::Dead(number);
            }
            if self.steps.len() - head <= system.vars as usize / 16 {
                return Passed::Waiting(head);
            }
        }
    }

    /// Sets all that constraints force from what is known, whatever was examined before. The number of a constraint that is dead,
    /// where there is one.
    pub fn settle(&mut self, alloc: Global, system: &System) -> Result<Option<u32>, NoMemory>
        requires trail { IsTrail system.now.vars self.old }
        requires few { length system.now.constraints < 2 ^ 32 }
        ensures trail { IsTrail system.now.vars self.new }
        ensures grows { Grows system.now.constraints self.old self.new }
        ensures ends { IfOk result (λ r. Ends system.now.constraints (length self.new.steps.items) self.new r) }
    {
        match self.passes(system) {
            Passed::Dead(number) => Ok(Some(number)),
            Passed::Waiting(head) => {
                if head == self.steps.len() {
                    return Ok(None);
                }
                let uses = Uses::new(alloc, system.vars, system.constraints.as_slice())?;
                Ok(self.close(system, &uses, head))
            }
        }
    }
}
