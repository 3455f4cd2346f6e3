//! Pages are kept for other facts.
ghost use Rattle.std.specs.Prelude.{◌≡◌, ◌↔◌, ◌*◌, IsTrue, length, slice_index};
ghost use Rattle.ff_propagate.specs.Boards.{IsBoardOf};
ghost use Rattle.ff_propagate.specs.Facts.{value_at};
ghost use Rattle.ff_propagate.specs.Parts.{IsPart};
ghost use Rattle.ff_alike.specs.Alike.{HaveSameRim};
ghost use Rattle.ff_pages.specs.Paging.{StandsIn, CanKeep, IsSamePages, visited_of};

use crate::pages::Pages;
use crate::rims::same_rim;
use ff_propagate::{Facts, Part};
use ff_tables::{Given, Items};
use ff_types::Case;
use std::alloc::Global;
use std::sync::Arc;

impl Pages {
    /// Whether the pages can be kept for a part of another board: it has the same variables, and the constraints that touch it have
    /// the same values on their other variables. It takes no memory.
    pub fn same(&self, case: &Case, facts: &Facts, part: &Part) -> bool
        requires stands { StandsIn case.now.system.vars case.now.system.constraints self.now }
        requires board { IsBoardOf case.now.system.vars case.now.system.constraints facts.now }
        requires part { IsPart case.now.system.vars case.now.system.constraints (value_at facts.now) part.now.vars }
        ensures { IsTrue result ↔ CanKeep case.now.system.constraints self.now (value_at facts.now) part.now.vars }
    {
        if self.part.vars.as_slice() == part.vars.as_slice() {
            return same_rim(case, &self.part, &self.facts, facts);
        }
        false
    }

    /// The same pages under other givens, whose board leaves the part open and has the same values round it. The solutions found
    /// stay found. It takes no memory.
    pub fn moved(
        self,
        case: &Case,
        givens: Arc<Items<Given>, Global>,
        facts: Arc<Facts, Global>,
    ) -> Pages
        requires stands { StandsIn case.now.system.vars case.now.system.constraints self }
        requires board { IsBoardOf case.now.system.vars case.now.system.constraints facts.value }
        requires part { IsPart case.now.system.vars case.now.system.constraints (value_at facts.value) self.part.vars }
        requires same { HaveSameRim case.now.system.constraints (value_at self.facts.value) (value_at facts.value) self.part.vars }
        ensures stands { StandsIn case.now.system.vars case.now.system.constraints result }
        ensures givens { result.givens ≡ givens }
        ensures facts { result.facts ≡ facts }
        ensures part { result.part ≡ self.part }
        ensures budget { result.budget ≡ self.budget }
        ensures found { result.found.items ≡ self.found.items }
        ensures visited { visited_of result ≡ visited_of self }
    {
        let _ = case;
        Pages {
            givens,
            facts,
            part: self.part,
            budget: self.budget,
            search: self.search,
            found: self.found,
        }
    }

    /// What pages that can be kept for this part have found and visited is taken over, and what these have is dropped: the turns of the
    /// nodes that it visited. Givens and facts stay. It takes no memory.
    pub fn take_over(&mut self, case: &Case, earlier: Pages) -> u64
        requires stands { StandsIn case.now.system.vars case.now.system.constraints self.old }
        requires earlier { StandsIn case.now.system.vars case.now.system.constraints earlier }
        requires budget { earlier.budget ≡ self.old.budget }
        requires same { CanKeep case.now.system.constraints earlier (value_at self.old.facts.value) self.old.part.vars }
        ensures stands { StandsIn case.now.system.vars case.now.system.constraints self.new }
        ensures same { IsSamePages self.old self.new }
        ensures found { self.new.found.items ≡ earlier.found.items }
        ensures visited { visited_of self.new ≡ visited_of earlier }
        ensures dropped { result ≡ length self.old.part.vars * visited_of self.old }
    {
        let _ = case;
        let dropped = self.spent();
        let Pages { search, found, .. } = earlier;
        self.search = search;
        self.found = found;
        dropped
    }

    /// The facts. It takes no memory.
    pub fn facts(&self) -> &Facts
        ensures { result.now ≡ self.now.facts.value }
    {
        &self.facts
    }

    /// The part. It takes no memory.
    pub fn part(&self) -> &Part
        ensures { result.now ≡ self.now.part }
    {
        &self.part
    }

    /// The least variable of the part. It takes no memory.
    pub fn least(&self) -> u32
        ensures { result ≡ slice_index self.now.part.vars 0 }
    {
        match self.part.vars.as_slice().first() {
            Some(var) => *var,
            None => 0,
        }
    }
}
