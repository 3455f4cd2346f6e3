//! Reads pages.
ghost use Rattle.std.specs.Prelude.{◌≡◌, ℕ, ◌+◌, ◌*◌, ◌<◌, ◌≤◌, ◌^◌, [], IfOk, OnErr, length, take, drop};
ghost use Rattle.ff_propagate.specs.FactRule.{MeetsFactRule};
ghost use Rattle.ff_refute.specs.Givens.{AreGivens};
ghost use Rattle.ff_pages.specs.Paging.{StandsIn, IsSamePages, visited_of, IsPage, HasLog, HasEnded, IsEndOf};

use crate::pages::{Gone, PageAnswer, Pages};
use ff_refute::log_of_part;
use ff_tables::{Items, NoMemory, Order};
use ff_types::Case;
use std::alloc::Global;

// How many solutions a page has.
const PAGE: usize = 64;

// The end of the page that begins there.
fn end_of(count: usize, first: usize) -> usize
    requires first { first ≤ count }
    requires room { first + 64 < 2 ^ 64 }
    ensures { IsEndOf count first result }
{
    if count <= first + PAGE {
        count
    } else {
        first + PAGE
    }
}

// Up to 64 solutions from a place on.
fn read_page(
    alloc: Global,
    found: &[Items<Order>],
    first: usize,
) -> Result<Items<Items<Order>>, NoMemory>
    requires first { first ≤ length found.now }
    requires room { first + 64 < 2 ^ 64 }
    ensures { IfOk result (λ page. page ≡ take 64 (drop first found.now)) }
{
    let end = end_of(found.len(), first);
    let mut page = Vec::with_capacity(alloc, end - first)?;
    for i in first..end {
        page.push_reserved(found[i].copy(alloc)?);
    }
    Ok(Items::of(page))
}

impl Pages {
    // The page, where the tree has ended.
    fn last_page(&self, alloc: Global, case: &Case, k: u32) -> Result<PageAnswer, NoMemory>
        requires stands { StandsIn case.now.system.vars case.now.system.constraints self.now }
        requires few { length case.now.system.constraints < 2 ^ 32 }
        requires givens { AreGivens case.now self.now.givens.value }
        requires rule { MeetsFactRule case.now.system.vars case.now.system.constraints self.now.givens.value self.now.facts.value }
        requires ended { HasEnded case.now.system.constraints self.now }
        ensures page { IfOk result (λ a. IsPage case.now.system.constraints self.now.facts.value self.now.part.vars self.now.budget k a) }
        ensures log { IfOk result (λ a. HasLog case.now self.now.givens.value a) }
    {
        let count = self.found.len();
        let first = PAGE * k as usize;
        if count == 0 {
            let log = log_of_part(alloc, case, &self.givens, &self.facts, &self.part)?;
            return Ok(PageAnswer::None(log));
        }
        if count <= first {
            return Ok(PageAnswer::Past {
                count: count as u32,
            });
        }
        Ok(PageAnswer::Page(read_page(alloc, self.found.as_slice(), first)?))
    }

    /// The page with this number, of 64 solutions each. Solutions that were found stay found, and nodes that were visited stay visited,
    /// also after want of memory.
    pub fn page(&mut self, alloc: Global, case: &Case, k: u32) -> Result<PageAnswer, NoMemory>
        requires stands { StandsIn case.now.system.vars case.now.system.constraints self.old }
        requires few { length case.now.system.constraints < 2 ^ 32 }
        requires givens { AreGivens case.now self.old.givens.value }
        requires rule { MeetsFactRule case.now.system.vars case.now.system.constraints self.old.givens.value self.old.facts.value }
        ensures stands { StandsIn case.now.system.vars case.now.system.constraints self.new }
        ensures same { IsSamePages self.old self.new }
        ensures page { IfOk result (λ a. IsPage case.now.system.constraints self.old.facts.value self.old.part.vars self.old.budget k a) }
        ensures log { IfOk result (λ a. HasLog case.now self.old.givens.value a) }
    {
        let first = PAGE * k as usize;
        match self.find(alloc, case, first + PAGE)? {
            Gone::Found => Ok(PageAnswer::Page(read_page(alloc, self.found.as_slice(), first)?)),
            Gone::Finished => self.last_page(alloc, case, k),
            Gone::Spent => Ok(PageAnswer::Unfinished),
        }
    }
}
