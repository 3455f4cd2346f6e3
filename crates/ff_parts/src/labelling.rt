//! All undecided variables are labelled.
ghost use Rattle.std.specs.Prelude.{◌≡◌, ℕ, ◌+◌, ◌<◌, ◌≤◌, ◌^◌, IfOk, length, None};
ghost use Rattle.ff_propagate.specs.Uses.{AreUses};
ghost use Rattle.ff_propagate.specs.Facts.{value_at};
ghost use Rattle.ff_parts.specs.Labels.{label, IsBelow};

use crate::labels::Labels;
use ff_propagate::{Facts, Uses};
use ff_tables::{NoMemory, System};
use std::alloc::Global;

impl Labels {
    // No variable has a label.
    fn new(alloc: Global, system: &System, facts: &Facts) -> Result<Labels, NoMemory>
        ensures { IfOk result (λ l. IsBelow system.now.vars system.now.constraints (value_at facts.now) 0 l) }
    {
        let _ = facts;
        let vars = system.vars as usize;
        let part_of = vec![in alloc; 0u32; vars]?;
        let queue = Vec::with_capacity(alloc, vars)?;
        let firsts = Vec::with_capacity(alloc, vars)?;
        Ok(Labels {
            part_of,
            queue,
            firsts,
        })
    }

    // Begins a part with the variable, and follows constraints from it.
    fn begin(&mut self, system: &System, facts: &Facts, uses: &Uses, var: u32)
        requires facts { length facts.now ≡ system.now.vars }
        requires few { length system.now.constraints < 2 ^ 32 }
        requires uses { AreUses system.now.vars system.now.constraints uses.now }
        requires var { var < system.now.vars }
        requires open { value_at facts.now var ≡ None }
        requires unlabelled { label self.old var ≡ 0 }
        requires below { IsBelow system.now.vars system.now.constraints (value_at facts.now) var self.old }
        ensures { IsBelow system.now.vars system.now.constraints (value_at facts.now) (var + 1) self.new }
    {
        let from = self.queue.len();
        self.firsts.push_reserved(var);
        let part = self.firsts.len() as u32;
        self.part_of[var as usize] = part;
        self.queue.push_reserved(var);
        self.spread(system, facts, uses, from, part);
    }

    // Labels the variable, and those that are connected to it, where it is undecided and has no label.
    fn take(&mut self, system: &System, facts: &Facts, uses: &Uses, var: u32)
        requires facts { length facts.now ≡ system.now.vars }
        requires few { length system.now.constraints < 2 ^ 32 }
        requires uses { AreUses system.now.vars system.now.constraints uses.now }
        requires var { var < system.now.vars }
        requires below { IsBelow system.now.vars system.now.constraints (value_at facts.now) var self.old }
        ensures { IsBelow system.now.vars system.now.constraints (value_at facts.now) (var + 1) self.new }
    {
        if facts.fact(var).is_none() && self.part_of[var as usize] == 0 {
            self.begin(system, facts, uses, var);
        }
    }

    /// Labels all undecided variables.
    pub(crate) fn all(alloc: Global, system: &System, facts: &Facts) -> Result<Labels, NoMemory>
        requires facts { length facts.now ≡ system.now.vars }
        requires few { length system.now.constraints < 2 ^ 32 }
        ensures { IfOk result (λ l. IsBelow system.now.vars system.now.constraints (value_at facts.now) system.now.vars l) }
    {
        let uses = Uses::new(alloc, system.vars, system.constraints.as_slice())?;
        let mut labels = Labels::new(alloc, system, facts)?;
        for var in 0..system.vars {
            labels.take(system, facts, &uses, var);
        }
        Ok(labels)
    }
}
