//! A core is made, and events happen to it.
ghost use Rattle.std.specs.Prelude.{◌≡◌, ◌+◌, ◌-◌, ◌<◌, ◌≤◌, ◌^◌, [], IfOk, OnErr, length};
ghost use Rattle.ff_core.specs.States.{StandsFor, IsSameButPages};
ghost use Rattle.ff_core.specs.Steps.{IsNew, IsStep};
ghost use Rattle.ff_journal.specs.Journals.{IsLegal};
ghost use Rattle.ff_core.specs.Runs.{HasRun};

use crate::opening::opened;
use crate::{Core, Event, Step};
use ff_tables::{Items, NoMemory};
use ff_types::Case;
use ff_viewer::Command;
use std::alloc::Global;

impl Core {
    // A core with an empty journal, with the facts of epoch 0.
    fn begin(alloc: Global, case: &Case, budget: u64) -> Result<Core, NoMemory>
        requires few { length case.now.starts < 2 ^ 32 }
        ensures { IfOk result (λ core. IsNew case.now budget core) }
    {
        let journal = Items::of(Vec::new(alloc));
        let working = opened(alloc, case, &journal, 0)?;
        let core = Core {
            journal,
            budget,
            working,
            shown: None,
            pages: None,
        };
        Ok(core)
    }

    /// A core with an empty journal, which works on epoch 0. A budget is 1 to 1000000000 turns.
    pub fn new(alloc: Global, case: &Case, budget: u64) -> Result<Core, NoMemory>
        requires turns { budget ≤ 1000000000 }
        requires few { length case.now.starts < 2 ^ 32 }
        ensures stands { IfOk result (λ core. StandsFor case.now core) }
        ensures new { IfOk result (λ core. IsNew case.now budget core) }
    {
        let core = Core::begin(alloc, case, budget)?;
        Ok(core)
    }

    /// An event happens: its answer, and what it changes. It needs a case for which the core stands. After want of memory the core is
    /// as before, but for solutions of pages that were found, which stay found.
    pub fn step(&mut self, alloc: Global, case: &Case, event: &Event) -> Result<Step, NoMemory>
        requires stands { StandsFor case.now self.old }
        requires room { length self.old.journal < 2 ^ 32 - 1 }
        requires few { length case.now.starts + length self.old.journal < 2 ^ 32 }
        requires constraints { length case.now.system.constraints < 2 ^ 32 }
        ensures stands { StandsFor case.now self.new }
        ensures step { IfOk result (λ answer. IsStep case.now self.old event.now self.new answer) }
        ensures kept { OnErr result (IsSameButPages self.old self.new) }
    {
        match event {
            Event::Deduce { var, fact } => Ok(self.deduce(case, *var, *fact)),
            Event::Pin {
                viewer,
                f,
                g,
                value,
            } => {
                let command = Command::Pin {
                    f: *f,
                    g: *g,
                    value: *value,
                };
                let answer = self.say(alloc, case, *viewer, command)?;
                Ok(answer)
            }
            Event::Unpin { viewer, f, g } => {
                let command = Command::Unpin { f: *f, g: *g };
                let answer = self.say(alloc, case, *viewer, command)?;
                Ok(answer)
            }
            Event::Ask { viewer, question } => {
                let command = Command::Ask(question.copy(alloc)?);
                let answer = self.say(alloc, case, *viewer, command)?;
                Ok(answer)
            }
            Event::Publish => {
                let answer = self.publish(alloc, case)?;
                Ok(answer)
            }
        }
    }
}

/// A new core to which these events happen in order. Its journal is legal for the scripts that it shows, whatever the events
/// are; each answer and each change is that of `step`.
pub fn run(alloc: Global, case: &Case, budget: u64, events: &Items<Event>) -> Result<Core, NoMemory>
    requires turns { budget ≤ 1000000000 }
    requires few { length case.now.starts + length events.now < 2 ^ 32 }
    requires constraints { length case.now.system.constraints < 2 ^ 32 }
    ensures stands { IfOk result (λ core. StandsFor case.now core) }
    ensures ran { IfOk result (λ core. HasRun case.now budget events.now core) }
    ensures legal { IfOk result (λ core. IsLegal case.now budget core.journal) }
{
    let mut core = Core::new(alloc, case, budget)?;
    let list = events.as_slice();
    for i in 0..list.len() {
        core.step(alloc, case, &list[i])?;
    }
    Ok(core)
}
