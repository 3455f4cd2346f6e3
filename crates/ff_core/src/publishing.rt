//! Publications.
ghost use Rattle.std.specs.Prelude.{◌≡◌, ℕ, ◌+◌, ◌-◌, ◌<◌, ◌≤◌, ◌^◌, ◌++◌, ◌∷◌, [], IfOk, OnOk, OnErr, length, Some, None};
ghost use Rattle.ff_journal.specs.declared.entries.Entry.TheVariants.{Published};
ghost use Rattle.ff_journal.specs.Publications.{published as epochs_published, IsOutcome};
ghost use Rattle.ff_journal.specs.Shown.{AreOfBoard};
ghost use Rattle.ff_core.specs.States.{State, StandsFor};
ghost use Rattle.ff_core.specs.Steps.{WorkNext, Publishes, IsNotClosedAny};

use crate::opening::opened;
use crate::refuting::{Ended, outcome_of};
use crate::{Core, Left, Step};
use ff_journal::{Entry, Outcome, published};
use ff_propagate::Facts;
use ff_tables::{Items, NoMemory};
use ff_types::Case;
use std::alloc::Global;

impl Core {
    // The epoch worked on is published with this outcome.
    fn append(
        &mut self,
        alloc: Global,
        case: &Case,
        epoch: u32,
        outcome: Outcome,
        facts: Facts,
    ) -> Result<(), NoMemory>
        requires stands { StandsFor case.now self.old }
        requires room { length self.old.journal < 2 ^ 32 - 1 }
        requires few { length case.now.starts + length self.old.journal < 2 ^ 32 }
        requires working { self.old.working ≡ Some facts }
        requires epoch { epoch ≡ epochs_published self.old.journal }
        requires number { epoch < 2 ^ 32 - 1 }
        requires right { IsOutcome case.now self.old.journal epoch outcome }
        requires board { AreOfBoard outcome facts }
        ensures stands { StandsFor case.now self.new }
        ensures appended { OnOk result ((self.new.journal ≡ self.old.journal ++ Published epoch outcome ∷ []) × (self.new.budget ≡ self.old.budget)
            × (self.new.shown ≡ Some facts) × WorkNext case.now self.new.journal (epoch + 1) self.new.working) }
        ensures kept { OnErr result (self.new ≡ self.old) }
    {
        let next = opened(alloc, case, &self.journal, epoch + 1)?;
        self.journal.push(Entry::Published { epoch, outcome })?;
        self.working = next;
        self.shown = Some(facts);
        self.pages = None;
        Ok(())
    }

    // The epoch worked on is published where nothing more is forced.
    fn conclude(&mut self, alloc: Global, case: &Case, facts: Facts) -> Result<Step, NoMemory>
        requires stands { StandsFor case.now self.old }
        requires room { length self.old.journal < 2 ^ 32 - 1 }
        requires few { length case.now.starts + length self.old.journal < 2 ^ 32 }
        requires constraints { length case.now.system.constraints < 2 ^ 32 }
        requires working { self.old.working ≡ Some facts }
        ensures stands { StandsFor case.now self.new }
        ensures publishes { IfOk result (λ answer. Publishes case.now self.old self.new answer) }
        ensures kept { OnErr result (self.new ≡ self.old) }
    {
        let epoch = published(self.journal.as_slice());
        let found = outcome_of(alloc, case, &self.journal, epoch, &facts)?;
        match found {
            Ended::More(constraint) => Ok(Step::Left(Left::NotClosed { constraint })),
            Ended::With(outcome) => {
                self.append(alloc, case, epoch, outcome, facts)?;
                Ok(Step::Took)
            }
        }
    }

    // The facts worked on.
    fn worked_on(&self, alloc: Global) -> Result<Option<Facts>, NoMemory>
        ensures { IfOk result (λ facts. facts ≡ self.now.working) }
    {
        match &self.working {
            None => Ok(None),
            Some(facts) => Ok(Some(Facts::of(Items::of(Vec::from_slice(
                alloc,
                facts.as_slice(),
            )?)))),
        }
    }

    // A publication.
    pub(crate) fn publish(&mut self, alloc: Global, case: &Case) -> Result<Step, NoMemory>
        requires stands { StandsFor case.now self.old }
        requires room { length self.old.journal < 2 ^ 32 - 1 }
        requires few { length case.now.starts + length self.old.journal < 2 ^ 32 }
        requires constraints { length case.now.system.constraints < 2 ^ 32 }
        ensures stands { StandsFor case.now self.new }
        ensures publishes { IfOk result (λ answer. Publishes case.now self.old self.new answer) }
        ensures kept { OnErr result (self.new ≡ self.old) }
    {
        let facts = self.worked_on(alloc)?;
        match facts {
            None => Ok(Step::Left(Left::NoEpoch)),
            Some(facts) => {
                let answer = self.conclude(alloc, case, facts)?;
                Ok(answer)
            }
        }
    }
}
