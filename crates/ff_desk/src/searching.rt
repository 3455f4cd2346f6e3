//! The search of demanded parts.
ghost use Rattle.std.specs.Prelude.{◌≡◌, ℕ, ◌<◌, ◌↔◌, ◌^◌, IfOk, IfErr, IsTrue, MatchOption, length, slice_get, Some};
ghost use Rattle.ff_pages.specs.declared.pages.Pages.{Pages as PagesSpec};
ghost use Rattle.ff_told.specs.Paged.{KeepAllPages};
ghost use Rattle.ff_desk.specs.Demands.{IsClosed};
ghost use Rattle.ff_desk.specs.Searched.{AllStand, IsOpenMarked, IsLeastMarked, HasWentOn, SearchesIn};
ghost use Rattle.ff_desk.specs.Prepared.{IsLaid};
ghost use Rattle.ff_desk.specs.Steps.{AllPublished, SearchIs, IsSameButPages};

use crate::desk::Desk;
use crate::laid::Laid;
use crate::loans::Turn;
use ff_pages::Pages;
use ff_tables::NoMemory;
use ff_types::Case;
use std::alloc::Global;

/// The turns of a search.
const TURNS: u64 = 4096;

impl Laid {
    // Whether the part at the place is marked and open.
    fn is_open(&self, case: &Case, marks: &[bool], p: usize) -> bool
        requires there { p < length self.now }
        requires long { length marks.now ≡ length self.now }
        requires stands { AllStand case.now self.now }
        ensures { IsTrue result ↔ IsOpenMarked case.now.system.constraints self.now marks.now p }
    {
        marks[p] && !self.list[p].is_closed(case)
    }

    // The first part that is marked and open.
    fn first_open(&self, case: &Case, marks: &[bool]) -> Option<usize>
        requires long { length marks.now ≡ length self.now }
        requires stands { AllStand case.now self.now }
        ensures { MatchOption result ((q : ℕ) → IsOpenMarked case.now.system.constraints self.now marks.now q → ⊥) (λ p. IsLeastMarked case.now.system.constraints self.now marks.now p) }
    {
        for p in 0..self.list.len() {
            if self.is_open(case, marks, p) {
                return Some(p);
            }
        }
        None
    }

    // A search of the marked parts.
    fn search(&mut self, alloc: Global, case: &Case, marks: &[bool]) -> Result<Turn, NoMemory>
        requires constraints { length case.now.system.constraints < 2 ^ 32 }
        requires long { length marks.now ≡ length self.old }
        requires stands { AllStand case.now self.old }
        ensures pages { KeepAllPages case.now self.old self.new }
        ensures search { IfOk result (λ t. SearchesIn case.now.system.constraints self.old marks.now self.new t) }
    {
        match self.first_open(case, marks) {
            None => Ok(Turn::Idle),
            Some(p) => {
                go_on(self.list.as_mut_slice(), alloc, case, p)?;
                Ok(Turn::Did)
            }
        }
    }
}

// The pages of the part at the place go on.
fn go_on(list: &mut [Pages], alloc: Global, case: &Case, p: usize) -> Result<(), NoMemory>
    requires there { p < length list.old }
    requires constraints { length case.now.system.constraints < 2 ^ 32 }
    requires stands { AllStand case.now list.old }
    requires unfinished { (pages : PagesSpec) → slice_get list.old p ≡ Some pages → IsClosed case.now.system.constraints pages → ⊥ }
    ensures pages { KeepAllPages case.now list.old list.new }
    ensures went { IfOk result (λ _. HasWentOn case.now.system.constraints p list.old list.new) }
{
    let pages = &mut list[p];
    let cost = pages.vars().len() as u64;
    pages.ahead(alloc, case, TURNS.max(cost))?;
    Ok(())
}

impl Desk {
    /// Where a demanded part is open, the least such goes on for 4096 turns, or for those of one node where that costs more. After want
    /// of memory the nodes that it visited stay visited.
    pub fn search(&mut self, alloc: Global) -> Result<Turn, NoMemory>
        requires all { AllPublished self.old.journal }
        ensures search { IfOk result (λ t. SearchIs self.old self.new t) }
        ensures err { IfErr result (λ _. IsSameButPages self.old self.new) }
        ensures demanded { self.new.demanded ≡ self.old.demanded }
    {
        match &self.pages {
            None => Ok(Turn::Idle),
            Some(_) => self.search_laid(alloc),
        }
    }

    // The same where pages are there.
    fn search_laid(&mut self, alloc: Global) -> Result<Turn, NoMemory>
        requires laid { IsLaid self.old.pages }
        ensures search { IfOk result (λ t. SearchIs self.old self.new t) }
        ensures err { IfErr result (λ _. IsSameButPages self.old self.new) }
        ensures demanded { self.new.demanded ≡ self.old.demanded }
    {
        let case = self.base.case();
        match &mut self.pages {
            None => unreachable!(),
            Some(pages) => {
                let turn = pages.search(alloc, case, self.demanded.as_slice())?;
                Ok(turn)
            }
        }
    }
}
