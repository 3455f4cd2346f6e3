//! Entries of viewers.
ghost use Rattle.std.specs.Prelude.{◌≡◌, ℕ, ◌+◌, ◌-◌, ◌<◌, ◌≤◌, ◌^◌, ◌++◌, ◌∷◌, [], IfOk, OnOk, OnErr, length};
ghost use Rattle.ff_viewer.specs.declared.commands.Command.TheVariants.{Ask};
ghost use Rattle.ff_journal.specs.declared.entries.Entry.TheVariants.{Said};
ghost use Rattle.ff_journal.specs.Publications.{published as epochs_published};
ghost use Rattle.ff_journal.specs.Journals.{IsSaid, commands_of};
ghost use Rattle.ff_journal.specs.Shown.{NamesFit};
ghost use Rattle.ff_journal.specs.Epochs.{last_begun};
ghost use Rattle.ff_journal.specs.Waiting.{IsBoardCommand, IsNotPublished};
ghost use Rattle.ff_journal.specs.Answering.{IsPlain};
ghost use Rattle.ff_core.specs.States.{StandsFor, IsSameButPages};
ghost use Rattle.ff_core.specs.Steps.{Says, WorksOnAfter, IsReopened};

use crate::opening::opened;
use crate::{Core, Left, Step};
use ff_journal::{Entry, entries_of, published, reply, waits_for};
use ff_tables::NoMemory;
use ff_types::Case;
use ff_viewer::{Command, Question, Reply};
use std::alloc::Global;

impl Core {
    // Where no epoch is worked on and one that is unpublished has begun, opens it.
    fn reopen(&mut self, alloc: Global, case: &Case) -> Result<(), NoMemory>
        requires room { length self.old.journal < 2 ^ 32 }
        requires few { length case.now.starts + last_begun self.old.journal < 2 ^ 32 }
        ensures opened { OnOk result (IsReopened case.now self.old self.new) }
        ensures kept { OnErr result (self.new ≡ self.old) }
    {
        match &self.working {
            Some(_) => Ok(()),
            None => {
                let epoch = published(self.journal.as_slice());
                let next = opened(alloc, case, &self.journal, epoch)?;
                self.working = next;
                Ok(())
            }
        }
    }

    // An entry of a viewer.
    fn enter(
        &mut self,
        alloc: Global,
        case: &Case,
        viewer: u32,
        command: Command,
        told: Reply,
    ) -> Result<(), NoMemory>
        requires stands { StandsFor case.now self.old }
        requires room { length self.old.journal < 2 ^ 32 - 1 }
        requires few { length case.now.starts + length self.old.journal < 2 ^ 32 }
        requires said { IsSaid case.now self.old.budget self.old.journal viewer (length (commands_of viewer self.old.journal)) command told }
        requires names { NamesFit case.now self.old.shown (Said viewer (length (commands_of viewer self.old.journal)) command told) }
        ensures stands { OnOk result (StandsFor case.now self.new) }
        ensures entered { OnOk result ((self.new.journal ≡ self.old.journal ++ Said viewer (length (commands_of viewer self.old.journal)) command told ∷ [])
            × (self.new.budget ≡ self.old.budget) × (self.new.shown ≡ self.old.shown) × WorksOnAfter case.now self.old self.new) }
        ensures kept { OnErr result (self.new ≡ self.old) }
    {
        let index = entries_of(self.journal.as_slice(), viewer);
        self.journal.push(Entry::Said {
            viewer,
            index,
            command,
            reply: told,
        })?;
        match self.reopen(alloc, case) {
            Ok(()) => Ok(()),
            Err(refused) => {
                let _ = self.journal.pop();
                Err(refused)
            }
        }
    }

    // The reply to a command that is neither `page` nor `stack`.
    fn plain(
        &self,
        alloc: Global,
        case: &Case,
        viewer: u32,
        command: &Command,
    ) -> Result<Reply, NoMemory>
        requires stands { StandsFor case.now self.now }
        requires room { length self.now.journal < 2 ^ 32 - 1 }
        requires constraints { length case.now.system.constraints < 2 ^ 32 }
        requires published { 0 < epochs_published self.now.journal }
        requires begun { IsBoardCommand command.now → epochs_published self.now.journal ≡ last_begun self.now.journal + 1 }
        requires plain { IsPlain command.now }
        ensures said { IfOk result (λ told. IsSaid case.now self.now.budget self.now.journal viewer (length (commands_of viewer self.now.journal)) command.now told) }
        ensures names { IfOk result (λ told. NamesFit case.now self.now.shown (Said viewer (length (commands_of viewer self.now.journal)) command.now told)) }
    {
        match &self.shown {
            Some(facts) => {
                let told = reply(alloc, case, &self.journal, facts, viewer, command)?;
                Ok(told)
            }
            None => unreachable!(),
        }
    }

    // The reply to a question.
    fn answer(
        &mut self,
        alloc: Global,
        case: &Case,
        viewer: u32,
        command: &Command,
        question: &Question,
    ) -> Result<Reply, NoMemory>
        requires stands { StandsFor case.now self.old }
        requires room { length self.old.journal < 2 ^ 32 - 1 }
        requires constraints { length case.now.system.constraints < 2 ^ 32 }
        requires published { 0 < epochs_published self.old.journal }
        requires begun { IsBoardCommand command.now → epochs_published self.old.journal ≡ last_begun self.old.journal + 1 }
        requires asks { command.now ≡ Ask question.now }
        ensures stands { StandsFor case.now self.new }
        ensures same { IsSameButPages self.old self.new }
        ensures said { IfOk result (λ told. IsSaid case.now self.old.budget self.old.journal viewer (length (commands_of viewer self.old.journal)) command.now told) }
        ensures names { IfOk result (λ told. NamesFit case.now self.old.shown (Said viewer (length (commands_of viewer self.old.journal)) command.now told)) }
    {
        match question {
            Question::Page { part, page } => {
                let told = self.page(alloc, case, *part, *page)?;
                Ok(told)
            }
            Question::Stack { choice } => {
                let told = self.stack(alloc, case, choice)?;
                Ok(told)
            }
            _ => {
                let told = self.plain(alloc, case, viewer, command)?;
                Ok(told)
            }
        }
    }

    // The reply to a command.
    fn told(
        &mut self,
        alloc: Global,
        case: &Case,
        viewer: u32,
        command: &Command,
    ) -> Result<Reply, NoMemory>
        requires stands { StandsFor case.now self.old }
        requires room { length self.old.journal < 2 ^ 32 - 1 }
        requires constraints { length case.now.system.constraints < 2 ^ 32 }
        requires published { 0 < epochs_published self.old.journal }
        requires begun { IsBoardCommand command.now → epochs_published self.old.journal ≡ last_begun self.old.journal + 1 }
        ensures stands { StandsFor case.now self.new }
        ensures same { IsSameButPages self.old self.new }
        ensures said { IfOk result (λ told. IsSaid case.now self.old.budget self.old.journal viewer (length (commands_of viewer self.old.journal)) command.now told) }
        ensures names { IfOk result (λ told. NamesFit case.now self.old.shown (Said viewer (length (commands_of viewer self.old.journal)) command.now told)) }
    {
        match command {
            Command::Ask(question) => {
                let told = self.answer(alloc, case, viewer, command, question)?;
                Ok(told)
            }
            _ => {
                let told = self.plain(alloc, case, viewer, command)?;
                Ok(told)
            }
        }
    }

    // A command that waits for no publication.
    fn hear(
        &mut self,
        alloc: Global,
        case: &Case,
        viewer: u32,
        command: Command,
    ) -> Result<Step, NoMemory>
        requires stands { StandsFor case.now self.old }
        requires room { length self.old.journal < 2 ^ 32 - 1 }
        requires few { length case.now.starts + length self.old.journal < 2 ^ 32 }
        requires constraints { length case.now.system.constraints < 2 ^ 32 }
        requires waits { (e : ℕ) → IsNotPublished self.old.journal command e → ⊥ }
        ensures stands { StandsFor case.now self.new }
        ensures says { IfOk result (λ answer. Says case.now self.old viewer command self.new answer) }
        ensures kept { OnErr result (IsSameButPages self.old self.new) }
    {
        let told = self.told(alloc, case, viewer, &command)?;
        let entered = told.copy(alloc)?;
        self.enter(alloc, case, viewer, command, entered)?;
        Ok(Step::Said(told))
    }

    // A viewer's command.
    pub(crate) fn say(
        &mut self,
        alloc: Global,
        case: &Case,
        viewer: u32,
        command: Command,
    ) -> Result<Step, NoMemory>
        requires stands { StandsFor case.now self.old }
        requires room { length self.old.journal < 2 ^ 32 - 1 }
        requires few { length case.now.starts + length self.old.journal < 2 ^ 32 }
        requires constraints { length case.now.system.constraints < 2 ^ 32 }
        ensures stands { StandsFor case.now self.new }
        ensures says { IfOk result (λ answer. Says case.now self.old viewer command self.new answer) }
        ensures kept { OnErr result (IsSameButPages self.old self.new) }
    {
        match waits_for(self.journal.as_slice(), &command) {
            Some(epoch) => Ok(Step::Left(Left::NotPublished { epoch })),
            None => {
                let answer = self.hear(alloc, case, viewer, command)?;
                Ok(answer)
            }
        }
    }
}
