//! Entries of viewers.
ghost use Rattle.std.specs.Prelude.{◌≡◌, ℕ, ◌+◌, ◌-◌, ◌<◌, ◌≤◌, ◌^◌, ◌++◌, ◌∷◌, [], IfOk, OnOk, OnErr, length, slice_index, Some, None};
ghost use Rattle.ff_viewer.specs.declared.commands.Command.TheVariants.{Ask};
ghost use Rattle.ff_viewer.specs.declared.commands.Question.TheVariants.{Page as AskPage, Stack as AskStack};
ghost use Rattle.ff_journal.specs.declared.entries.Entry.TheVariants.{Said};
ghost use Rattle.ff_journal.specs.Epochs.{last_begun};
ghost use Rattle.ff_journal.specs.Publications.{published as epochs_published};
ghost use Rattle.ff_journal.specs.Journals.{IsSaid, commands_of};
ghost use Rattle.ff_journal.specs.Shown.{NamesFit};
ghost use Rattle.ff_journal.specs.Waiting.{IsBoardCommand, IsNotPublished};
ghost use Rattle.ff_journal.specs.Answering.{IsPlain};
ghost use Rattle.ff_told.specs.Paged.{ShowsBoard, AnswersLast};
ghost use Rattle.ff_desk.specs.Demands.{demand_of as demanded_by};
ghost use Rattle.ff_desk.specs.Prepared.{IsLaid, IsLaidFor};
ghost use Rattle.ff_desk.specs.Steps.{IsSameButPages, SaidIs, AreLaidAfter, turns_of};

use crate::demands::{demand_of, mark};
use crate::desk::Desk;
use crate::laid::Laid;
use ff_journal::{Entry, entries_of, reply, shows_board, waits_for};
use ff_tables::{Items, NoMemory};
use ff_told::all_pages;
use ff_viewer::{Command, Question, Reply};
use std::alloc::Global;

impl Desk {
    // The pages of all parts are made. What those of an earlier board found is kept where it can be.
    fn lay_all(&mut self, alloc: Global) -> Result<(), NoMemory>
        requires board { ShowsBoard self.old.journal }
        requires none { self.old.pages ≡ None }
        ensures same { IsSameButPages self.old self.new }
        ensures laid { OnOk result (IsLaid self.new.pages) }
        ensures kept { OnOk result (AreLaidAfter self.old.base.case.system.constraints self.old.earlier.pages self.new.pages) }
        ensures turns { turns_of self.new ≡ turns_of self.old }
    {
        let list = all_pages(
            alloc,
            self.base.case(),
            &self.journal,
            self.base.budget(),
            &self.facts,
        )?;
        let marks = vec![in alloc; false; list.len()]?;
        let case = self.base.case();
        let mut laid = Laid::of(list);
        self.earlier.move_to(case, &mut laid);
        self.pages = Some(laid);
        self.demanded = marks;
        Ok(())
    }

    // The same where they aren't there.
    fn lay(&mut self, alloc: Global) -> Result<(), NoMemory>
        requires board { ShowsBoard self.old.journal }
        ensures same { IsSameButPages self.old self.new }
        ensures laid { OnOk result (IsLaid self.new.pages) }
        ensures turns { turns_of self.new ≡ turns_of self.old }
    {
        match &self.pages {
            Some(_) => Ok(()),
            None => self.lay_all(alloc),
        }
    }

    // The reply to `page` where the pages are there.
    fn page_laid(&mut self, alloc: Global, part: u32, page: u32) -> Result<Reply, NoMemory>
        requires laid { IsLaid self.old.pages }
        ensures same { IsSameButPages self.old self.new }
        ensures laid { IsLaid self.new.pages }
        ensures answers { IfOk result (λ told. AnswersLast self.old.base.case self.old.base.budget self.old.journal (AskPage part page) told) }
    {
        let case = self.base.case();
        // the pairs are in order
        let _ = case.pairs.count();
        match &mut self.pages {
            None => unreachable!(),
            Some(pages) => {
                let told = pages.page(alloc, case, part, page)?;
                Ok(told)
            }
        }
    }

    // The reply to `page`.
    fn page(&mut self, alloc: Global, part: u32, page: u32) -> Result<Reply, NoMemory>
        requires published { 0 < epochs_published self.old.journal }
        ensures same { IsSameButPages self.old self.new }
        ensures answers { IfOk result (λ told. AnswersLast self.old.base.case self.old.base.budget self.old.journal (AskPage part page) told) }
        ensures laid { IfOk result (λ told. IsLaidFor (demanded_by (Ask (AskPage part page)) told) self.new.pages) }
    {
        if !shows_board(self.journal.as_slice()) {
            return Ok(Reply::Impossible);
        }
        self.lay(alloc)?;
        let told = self.page_laid(alloc, part, page)?;
        Ok(told)
    }

    // The reply to `stack` where the pages are there.
    fn stack_laid(&mut self, alloc: Global, choice: &Items<u32>) -> Result<Reply, NoMemory>
        requires laid { IsLaid self.old.pages }
        ensures same { IsSameButPages self.old self.new }
        ensures laid { IsLaid self.new.pages }
        ensures answers { IfOk result (λ told. AnswersLast self.old.base.case self.old.base.budget self.old.journal (AskStack choice.now) told) }
    {
        let case = self.base.case();
        match &mut self.pages {
            None => unreachable!(),
            Some(pages) => {
                let list = choice.as_slice();
                let told = pages.stack(alloc, case, &self.facts, list)?;
                Ok(told)
            }
        }
    }

    // The reply to `stack`.
    fn stack(&mut self, alloc: Global, choice: &Items<u32>) -> Result<Reply, NoMemory>
        requires published { 0 < epochs_published self.old.journal }
        ensures same { IsSameButPages self.old self.new }
        ensures answers { IfOk result (λ told. AnswersLast self.old.base.case self.old.base.budget self.old.journal (AskStack choice.now) told) }
        ensures laid { IfOk result (λ told. IsLaidFor (demanded_by (Ask (AskStack choice.now)) told) self.new.pages) }
    {
        if !shows_board(self.journal.as_slice()) {
            return Ok(Reply::Impossible);
        }
        self.lay(alloc)?;
        let told = self.stack_laid(alloc, choice)?;
        Ok(told)
    }

    // The reply to a command that is neither `page` nor `stack`.
    fn plain(&self, alloc: Global, viewer: u32, command: &Command) -> Result<Reply, NoMemory>
        requires published { 0 < epochs_published self.now.journal }
        requires begun { IsBoardCommand command.now → epochs_published self.now.journal ≡ last_begun self.now.journal + 1 }
        requires plain { IsPlain command.now }
        ensures said { IfOk result (λ told. IsSaid self.now.base.case self.now.base.budget self.now.journal viewer (length (commands_of viewer self.now.journal)) command.now told) }
        ensures names { IfOk result (λ told. NamesFit self.now.base.case (Some self.now.facts) (Said viewer (length (commands_of viewer self.now.journal)) command.now told)) }
    {
        let told = reply(
            alloc,
            self.base.case(),
            &self.journal,
            &self.facts,
            viewer,
            command,
        )?;
        Ok(told)
    }

    // The reply to a question.
    fn answer(
        &mut self,
        alloc: Global,
        viewer: u32,
        command: &Command,
        question: &Question,
    ) -> Result<Reply, NoMemory>
        requires published { 0 < epochs_published self.old.journal }
        requires begun { IsBoardCommand command.now → epochs_published self.old.journal ≡ last_begun self.old.journal + 1 }
        requires asks { command.now ≡ Ask question.now }
        ensures same { IsSameButPages self.old self.new }
        ensures said { IfOk result (λ told. IsSaid self.old.base.case self.old.base.budget self.old.journal viewer (length (commands_of viewer self.old.journal)) command.now told) }
        ensures names { IfOk result (λ told. NamesFit self.old.base.case (Some self.old.facts) (Said viewer (length (commands_of viewer self.old.journal)) command.now told)) }
        ensures laid { IfOk result (λ told. IsLaidFor (demanded_by command.now told) self.new.pages) }
    {
        match question {
            Question::Page { part, page } => {
                let told = self.page(alloc, *part, *page)?;
                Ok(told)
            }
            Question::Stack { choice } => {
                let told = self.stack(alloc, choice)?;
                Ok(told)
            }
            _ => {
                let told = self.plain(alloc, viewer, command)?;
                Ok(told)
            }
        }
    }

    // The reply to a command.
    fn told(&mut self, alloc: Global, viewer: u32, command: &Command) -> Result<Reply, NoMemory>
        requires published { 0 < epochs_published self.old.journal }
        requires begun { IsBoardCommand command.now → epochs_published self.old.journal ≡ last_begun self.old.journal + 1 }
        ensures same { IsSameButPages self.old self.new }
        ensures said { IfOk result (λ told. IsSaid self.old.base.case self.old.base.budget self.old.journal viewer (length (commands_of viewer self.old.journal)) command.now told) }
        ensures names { IfOk result (λ told. NamesFit self.old.base.case (Some self.old.facts) (Said viewer (length (commands_of viewer self.old.journal)) command.now told)) }
        ensures laid { IfOk result (λ told. IsLaidFor (demanded_by command.now told) self.new.pages) }
    {
        match command {
            Command::Ask(question) => {
                let told = self.answer(alloc, viewer, command, question)?;
                Ok(told)
            }
            _ => {
                let told = self.plain(alloc, viewer, command)?;
                Ok(told)
            }
        }
    }

    // The entry is made. The parts that it demands are marked.
    fn enter(&mut self, viewer: u32, command: Command, told: Reply) -> Result<(), NoMemory>
        requires said { IsSaid self.old.base.case self.old.base.budget self.old.journal viewer (length (commands_of viewer self.old.journal)) command told }
        requires names { NamesFit self.old.base.case (Some self.old.facts) (Said viewer (length (commands_of viewer self.old.journal)) command told) }
        requires left { length (commands_of viewer self.old.journal) < slice_index self.old.base.lengths viewer }
        requires laid { IsLaidFor (demanded_by command told) self.old.pages }
        ensures base { self.new.base ≡ self.old.base }
        ensures entered { OnOk result ((self.new.journal ≡ self.old.journal ++ Said viewer (length (commands_of viewer self.old.journal)) command told ∷ [])
            × (self.new.givens ≡ self.old.givens) × (self.new.facts ≡ self.old.facts) × (self.new.home ≡ self.old.home) × (self.new.present ≡ self.old.present)) }
        ensures kept { OnErr result (self.new ≡ self.old) }
    {
        let index = entries_of(self.journal.as_slice(), viewer);
        let demand = demand_of(&command, &told);
        self.journal.push(Entry::Said {
            viewer,
            index,
            command,
            reply: told,
        })?;
        mark(&mut self.demanded, demand);
        Ok(())
    }

    // A command that waits for no publication.
    fn hear(&mut self, alloc: Global, viewer: u32, command: &Command) -> Result<Reply, NoMemory>
        requires waits { (e : ℕ) → IsNotPublished self.old.journal command.now e → ⊥ }
        requires left { length (commands_of viewer self.old.journal) < slice_index self.old.base.lengths viewer }
        ensures base { self.new.base ≡ self.old.base }
        ensures said { SaidIs viewer command.now self.old self.new (Some result) }
    {
        // no more epochs are published than have begun
        self.is_desk();
        let told = self.told(alloc, viewer, command)?;
        let entered = told.copy(alloc)?;
        let said = command.copy(alloc)?;
        self.enter(viewer, said, entered)?;
        Ok(told)
    }

    /// Makes the viewer's next entry, with its reply, unless it waits for a publication: None then, and nothing has changed. After want of
    /// memory no entry is made, and nothing has changed but that solutions of pages that were found stay found.
    pub fn try_say(
        &mut self,
        alloc: Global,
        viewer: u32,
        command: &Command,
    ) -> Option<Result<Reply, NoMemory>>
        requires left { length (commands_of viewer self.old.journal) < slice_index self.old.base.lengths viewer }
        ensures base { self.new.base ≡ self.old.base }
        ensures said { SaidIs viewer command.now self.old self.new result }
    {
        match waits_for(self.journal.as_slice(), command) {
            Some(_) => None,
            None => Some(self.hear(alloc, viewer, command)),
        }
    }
}
