//! Pages of the parts of the last published board.
ghost use Rattle.std.specs.Prelude.{◌≡◌, ◌<◌, ◌^◌, IfOk, length};
ghost use Rattle.ff_viewer.specs.declared.commands.Question.TheVariants.{Page as AskPage};
ghost use Rattle.ff_journal.specs.Publications.{published as epochs_published};
ghost use Rattle.ff_told.specs.Paged.{ShowsBoard, AnswersLast};
ghost use Rattle.ff_core.specs.States.{StandsFor, IsSameButPages, IsLaid};

use crate::Core;
use ff_journal::shows_board;
use ff_tables::NoMemory;
use ff_told::{all_pages, page_told};
use ff_types::Case;
use ff_viewer::Reply;
use std::alloc::Global;

impl Core {
    // Makes the pages of all parts.
    fn lay_all(&mut self, alloc: Global, case: &Case) -> Result<(), NoMemory>
        requires stands { StandsFor case.now self.old }
        requires room { length self.old.journal < 2 ^ 32 }
        requires constraints { length case.now.system.constraints < 2 ^ 32 }
        requires board { ShowsBoard self.old.journal }
        ensures stands { StandsFor case.now self.new }
        ensures same { IsSameButPages self.old self.new }
        ensures laid { IfOk result (λ _. IsLaid self.new) }
    {
        match &self.shown {
            Some(facts) => {
                let pages = all_pages(alloc, case, &self.journal, self.budget, facts)?;
                self.pages = Some(pages);
                Ok(())
            }
            None => unreachable!(),
        }
    }

    // The same where they aren't there.
    pub(crate) fn lay(&mut self, alloc: Global, case: &Case) -> Result<(), NoMemory>
        requires stands { StandsFor case.now self.old }
        requires room { length self.old.journal < 2 ^ 32 }
        requires constraints { length case.now.system.constraints < 2 ^ 32 }
        requires board { ShowsBoard self.old.journal }
        ensures stands { StandsFor case.now self.new }
        ensures same { IsSameButPages self.old self.new }
        ensures laid { IfOk result (λ _. IsLaid self.new) }
    {
        match &self.pages {
            Some(_) => Ok(()),
            None => self.lay_all(alloc, case),
        }
    }
}

impl Core {
    // The reply to `page` where the pages are there.
    fn page_laid(
        &mut self,
        alloc: Global,
        case: &Case,
        part: u32,
        page: u32,
    ) -> Result<Reply, NoMemory>
        requires stands { StandsFor case.now self.old }
        requires constraints { length case.now.system.constraints < 2 ^ 32 }
        requires laid { IsLaid self.old }
        ensures stands { StandsFor case.now self.new }
        ensures same { IsSameButPages self.old self.new }
        ensures answers { IfOk result (λ told. AnswersLast case.now self.old.budget self.old.journal (AskPage part page) told) }
    {
        // the pairs are in order
        let _ = case.pairs.count();
        match &mut self.pages {
            None => unreachable!(),
            Some(pages) => {
                let told = page_told(alloc, case, pages.as_mut_slice(), part, page)?;
                Ok(told)
            }
        }
    }

    // The reply to `page`.
    pub(crate) fn page(
        &mut self,
        alloc: Global,
        case: &Case,
        part: u32,
        page: u32,
    ) -> Result<Reply, NoMemory>
        requires stands { StandsFor case.now self.old }
        requires room { length self.old.journal < 2 ^ 32 }
        requires constraints { length case.now.system.constraints < 2 ^ 32 }
        requires published { 0 < epochs_published self.old.journal }
        ensures stands { StandsFor case.now self.new }
        ensures same { IsSameButPages self.old self.new }
        ensures answers { IfOk result (λ told. AnswersLast case.now self.old.budget self.old.journal (AskPage part page) told) }
    {
        if !shows_board(self.journal.as_slice()) {
            return Ok(Reply::Impossible);
        }
        self.lay(alloc, case)?;
        let told = self.page_laid(alloc, case, part, page)?;
        Ok(told)
    }
}
