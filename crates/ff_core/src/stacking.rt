//! The replies to `stack`.
ghost use Rattle.std.specs.Prelude.{◌≡◌, ◌<◌, ◌^◌, IfOk, length};
ghost use Rattle.ff_viewer.specs.declared.commands.Question.TheVariants.{Stack as AskStack};
ghost use Rattle.ff_journal.specs.Publications.{published as epochs_published};
ghost use Rattle.ff_told.specs.Paged.{AnswersLast};
ghost use Rattle.ff_core.specs.States.{StandsFor, IsSameButPages, IsLaid};

use crate::Core;
use ff_journal::shows_board;
use ff_tables::{Items, NoMemory};
use ff_told::stack_told;
use ff_types::Case;
use ff_viewer::Reply;
use std::alloc::Global;

impl Core {
    // The reply to `stack` where the pages are there.
    fn stack_laid(
        &mut self,
        alloc: Global,
        case: &Case,
        choice: &Items<u32>,
    ) -> Result<Reply, NoMemory>
        requires stands { StandsFor case.now self.old }
        requires constraints { length case.now.system.constraints < 2 ^ 32 }
        requires laid { IsLaid self.old }
        ensures stands { StandsFor case.now self.new }
        ensures same { IsSameButPages self.old self.new }
        ensures answers { IfOk result (λ told. AnswersLast case.now self.old.budget self.old.journal (AskStack choice.now) told) }
    {
        match &self.shown {
            None => unreachable!(),
            Some(facts) => match &mut self.pages {
                None => unreachable!(),
                Some(pages) => {
                    let list = choice.as_slice();
                    let told = stack_told(alloc, case, facts, pages.as_mut_slice(), list)?;
                    Ok(told)
                }
            },
        }
    }

    // The reply to `stack`.
    pub(crate) fn stack(
        &mut self,
        alloc: Global,
        case: &Case,
        choice: &Items<u32>,
    ) -> Result<Reply, NoMemory>
        requires stands { StandsFor case.now self.old }
        requires room { length self.old.journal < 2 ^ 32 }
        requires constraints { length case.now.system.constraints < 2 ^ 32 }
        requires published { 0 < epochs_published self.old.journal }
        ensures stands { StandsFor case.now self.new }
        ensures same { IsSameButPages self.old self.new }
        ensures answers { IfOk result (λ told. AnswersLast case.now self.old.budget self.old.journal (AskStack choice.now) told) }
    {
        if !shows_board(self.journal.as_slice()) {
            return Ok(Reply::Impossible);
        }
        self.lay(alloc, case)?;
        let told = self.stack_laid(alloc, case, choice)?;
        Ok(told)
    }
}
