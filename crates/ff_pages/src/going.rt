//! The search of a part goes on.
ghost use Rattle.std.specs.Prelude.{◌≡◌, ℕ, ◌+◌, ◌*◌, ◌<◌, ◌≤◌, ◌^◌, IfOk, OnErr, length, Some, vec_len, vec_capacity};
ghost use Rattle.ff_propagate.specs.Boards.{IsBoardOf};
ghost use Rattle.ff_propagate.specs.Facts.{value_at};
ghost use Rattle.ff_propagate.specs.Parts.{IsPart, AreTouching};
ghost use Rattle.ff_propagate.specs.Trees.{IsTree, visits};
ghost use Rattle.ff_tables.specs.Systems.{AreFit};
ghost use Rattle.ff_solver.specs.Searches.{IsSearch, IsSameSearch, GoesOn as SearchGoesOn};
ghost use Rattle.ff_pages.specs.Paging.{StandsIn, IsSamePages, visited_of, visited_by, HasGone, GoesOn, Finds, IsBegun};

use crate::pages::{Gone, Pages};
use ff_propagate::{Facts, Part};
use ff_solver::{Advance, Search, start};
use ff_tables::{Given, Items, NoMemory, Order};
use ff_types::Case;
use std::alloc::Global;
use std::sync::Arc;

// Visits nodes up to the next solution, while the turns cover one, and puts the solution to those found. The room for it is there
// before a node is visited.
fn advance_into(
    alloc: Global,
    case: &Case,
    search: &mut Search,
    found: &mut Vec<Items<Order>>,
    turns: u64,
) -> Result<Gone, NoMemory>
    requires search { IsSearch search.old }
    requires turns { length search.old.part.vars * search.old.visited + turns < 2 ^ 64 }
    ensures stands { SearchGoesOn case.now.system.constraints search.old search.new }
    ensures same { IsSameSearch search.old search.new }
    ensures gone { IfOk result (λ g. HasGone case.now.system.constraints search.old found.old.items turns search.new found.new.items g) }
    ensures kept { OnErr result (search.new ≡ search.old) }
    ensures kept_found { OnErr result (found.new.items ≡ found.old.items) }
{
    found.reserve(1)?;
    match search.advance(alloc, case, turns)? {
        Advance::Found(values) => {
            found.push_reserved(values);
            Ok(Gone::Found)
        }
        Advance::Finished => Ok(Gone::Finished),
        Advance::Spent => Ok(Gone::Spent),
    }
}

impl Pages {
    /// Pages that have visited no node. It takes no memory.
    pub fn new(
        alloc: Global,
        givens: Arc<Items<Given>, Global>,
        facts: Arc<Facts, Global>,
        part: Part,
        budget: u64,
    ) -> Pages
        requires budget { budget ≤ 1000000000 }
        ensures stands { (vars : ℕ) (cons : _) → AreFit vars cons → IsBoardOf vars cons facts.value → IsPart vars cons (value_at facts.value) part.vars
            → AreTouching cons part.vars part.touching → StandsIn vars cons result }
        ensures unvisited { visited_of result ≡ 0 }
        ensures givens { result.givens ≡ givens }
        ensures facts { result.facts ≡ facts }
        ensures part { result.part ≡ part }
        ensures budget { result.budget ≡ budget }
    {
        Pages {
            givens,
            facts,
            part,
            budget,
            search: None,
            found: Vec::new(alloc),
        }
    }

    /// The turns of the visited nodes.
    pub(crate) fn spent(&self) -> u64
        ensures { (vars : ℕ) (cons : _) → StandsIn vars cons self.now → result ≡ length self.now.part.vars * visited_of self.now }
    {
        match &self.search {
            Some(search) => search.used(),
            None => 0,
        }
    }

    // Makes the search, where there is none.
    fn begin(&mut self, alloc: Global, case: &Case) -> Result<(), NoMemory>
        requires stands { StandsIn case.now.system.vars case.now.system.constraints self.old }
        requires few { length case.now.system.constraints < 2 ^ 32 }
        ensures stands { StandsIn case.now.system.vars case.now.system.constraints self.new }
        ensures same { IsSamePages self.old self.new }
        ensures visited { visited_of self.new ≡ visited_of self.old }
        ensures found { self.new.found ≡ self.old.found }
        ensures begun { IfOk result (λ _. IsBegun self.new) }
    {
        if self.search.is_none() {
            self.search = Some(start(alloc, case, &self.facts, &self.part)?);
        }
        Ok(())
    }

    /// Visits nodes up to the next solution, while the turns cover one.
    pub(crate) fn go_on(&mut self, alloc: Global, case: &Case, turns: u64) -> Result<Gone, NoMemory>
        requires stands { StandsIn case.now.system.vars case.now.system.constraints self.old }
        requires few { length case.now.system.constraints < 2 ^ 32 }
        requires turns { length self.old.part.vars * visited_of self.old + turns ≤ self.old.budget }
        ensures stands { StandsIn case.now.system.vars case.now.system.constraints self.new }
        ensures same { IsSamePages self.old self.new }
        ensures gone { IfOk result (λ g. GoesOn case.now.system.constraints self.old.facts.value self.old.part.vars turns (visited_of self.old) (visited_of self.new) g) }
        ensures kept { OnErr result (visited_of self.new ≡ visited_of self.old) }
        ensures kept_found { OnErr result (self.new.found.items ≡ self.old.found.items) }
    {
        self.begin(alloc, case)?;
        match &mut self.search {
            Some(search) => advance_into(alloc, case, search, &mut self.found, turns),
            None => unreachable!(),
        }
    }

    /// Goes on until so many solutions are found, the tree has ended, or the budget doesn't cover the next node.
    pub(crate) fn find(
        &mut self,
        alloc: Global,
        case: &Case,
        wanted: usize,
    ) -> Result<Gone, NoMemory>
        requires stands { StandsIn case.now.system.vars case.now.system.constraints self.old }
        requires few { length case.now.system.constraints < 2 ^ 32 }
        ensures stands { StandsIn case.now.system.vars case.now.system.constraints self.new }
        ensures same { IsSamePages self.old self.new }
        ensures finds { IfOk result (λ g. Finds case.now.system.constraints wanted self.new g) }
    {
        while self.found.len() < wanted {
            let left = self.budget - self.spent();
            match self.go_on(alloc, case, left)? {
                Gone::Found => (),
                other => return Ok(other),
            }
        }
        Ok(Gone::Found)
    }
}
