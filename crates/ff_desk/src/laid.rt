//! The pages of all parts of a board.
ghost use Rattle.std.specs.Prelude.{◌≡◌, ℕ, ◌<◌, ◌^◌, IfOk, length};
ghost use Rattle.ff_told.specs.Paged.{HavePages, KeepAllPages, IsPageToldAt};
ghost use Rattle.ff_told.specs.Earlier.{AreOrdered, turns_in};
ghost use Rattle.ff_told.specs.Stacked.{AreFactsIn, IsStackTold};

use ff_pages::Pages;
use ff_propagate::Facts;
use ff_tables::NoMemory;
use ff_told::{page_told, stack_told, turns_of};
use ff_types::Case;
use ff_viewer::Reply;
use std::alloc::Global;
use std::marker::Model;

/// The pages of all parts of a board, in order of the parts. Contracts see the list.
#[derive(Drop)]
pub struct Laid {
    pub(crate) list: Vec<Pages>,
}

impl Model for Laid {
    ghost use Rattle.std.specs.Prelude.{List};
    ghost use Rattle.ff_pages.specs.declared.pages.Pages.{Pages as PagesSpec};

    ghost Value = { List PagesSpec };

    ghost view = { λ l. l.list.items };
}

impl Laid {
    pub(crate) fn of(list: Vec<Pages>) -> Laid
        ensures { result ≡ list.items }
    {
        Laid { list }
    }

    /// How many parts there are.
    pub(crate) fn count(&self) -> usize
        ensures { result ≡ length self.now }
    {
        self.list.len()
    }

    /// The turns that the searches have visited.
    pub(crate) fn turns(&self, case: &Case) -> u64
        requires ordered { (budget : ℕ) × AreOrdered case.now budget self.now }
        requires few { length self.now < 2 ^ 32 }
        ensures { result ≡ turns_in self.now }
    {
        turns_of(case, self.list.as_slice())
    }

    /// The list.
    pub(crate) fn into_list(self) -> Vec<Pages>
        ensures { result.items ≡ self }
    {
        self.list
    }

    /// The reply to `page`.
    pub(crate) fn page(
        &mut self,
        alloc: Global,
        case: &Case,
        part: u32,
        k: u32,
    ) -> Result<Reply, NoMemory>
        requires constraints { length case.now.system.constraints < 2 ^ 32 }
        requires pages { HavePages case.now self.old }
        ensures pages { KeepAllPages case.now self.old self.new }
        ensures told { IfOk result (λ told. IsPageToldAt case.now self.old part k told) }
    {
        let told = page_told(alloc, case, self.list.as_mut_slice(), part, k)?;
        Ok(told)
    }

    /// The reply to `stack`.
    pub(crate) fn stack(
        &mut self,
        alloc: Global,
        case: &Case,
        facts: &Facts,
        choice: &[u32],
    ) -> Result<Reply, NoMemory>
        requires constraints { length case.now.system.constraints < 2 ^ 32 }
        requires pages { HavePages case.now self.old }
        requires facts { AreFactsIn case.now facts.now self.old }
        requires wide { length facts.now ≡ case.now.system.vars }
        ensures pages { KeepAllPages case.now self.old self.new }
        ensures told { IfOk result (λ told. IsStackTold case.now facts.now self.old choice.now told) }
    {
        let told = stack_told(alloc, case, facts, self.list.as_mut_slice(), choice)?;
        Ok(told)
    }
}
