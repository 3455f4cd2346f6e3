//! A search goes on.
ghost use Rattle.std.specs.Prelude.{◌≡◌, ℕ, ◌+◌, ◌*◌, ◌<◌, ◌≤◌, ◌^◌, ◌++◌, [], IsTrue, IfOk, OnErr, List, false, length, None, Some, Option, slice_index, slice_index_or, vec_len, vec_capacity};
ghost use Rattle.ff_tables.specs.declared.orders.Order.{Order as OrderSpec};
ghost use Rattle.ff_propagate.specs.Trails.{known, IsTrail};
ghost use Rattle.ff_solver.specs.Paths.{AreDecided, AreValues, AreWithin, AreLeft, AreNext, ArePending, IsPassed, IsSolved, Nodes};
ghost use Rattle.ff_solver.specs.Searches.{IsSearch, IsSameSearch, IsAtSolution, AreLeftIn, IsRun, GoesOn, AnswersIn, TellsFinished};

use crate::state::{Advance, Search};
use ff_propagate::Trail;
use ff_tables::{Items, Known, NoMemory, Order};
use ff_types::Case;
use std::alloc::Global;

// Reads the values of the part's variables.
fn read_values(part: &[u32], trail: &Trail, vars: u32, values: &mut Vec<Order>)
    requires within { AreWithin vars part.now }
    requires wide { length trail.now.values.list.items ≡ vars }
    requires decided { AreDecided part.now trail.now }
    requires empty { values.old.items ≡ [] }
    requires room { length part.now ≤ vec_capacity values.old }
    ensures { AreValues part.now trail.now values.new.items }
{
    let _ = vars;
    for k in 0..part.len() {
        values.push_reserved(trail.value(part[k]).unwrap_or(Order::Below));
    }
}

impl Search {
    // What a node costs.
    fn cost(&self) -> u64
        ensures { result ≡ length self.now.part.vars }
    {
        self.part.vars.as_slice().len() as u64
    }

    // Visits the next node. Whether it is a solution.
    fn step(&mut self, head: u32) -> bool
        requires search { IsSearch self.old }
        requires next { self.old.path.next ≡ Some head }
        requires room { length self.old.part.vars * (self.old.visited + 1) < 2 ^ 64 }
        ensures same { IsSameSearch self.old self.new }
        ensures visited { self.new.visited ≡ self.old.visited + 1 }
        ensures search { result ≡ false → IsSearch self.new }
        ensures solution { IsTrue result → IsAtSolution self.new }
        ensures passed { result ≡ false → (value : ℕ → Option OrderSpec) (nodes : Nodes) → AreNext self.old.system.constraints value self.old.places self.old.path nodes
            → IsPassed self.old.system.constraints value self.old.places self.new.path nodes }
        ensures solved { IsTrue result → (value : ℕ → Option OrderSpec) (nodes : Nodes) → AreNext self.old.system.constraints value self.old.places self.old.path nodes
            → IsSolved self.old.system.constraints value self.old.places self.new.path nodes }
    {
        self.visited += 1;
        self.path
            .visit(&self.system, &self.uses, self.places.as_slice(), head)
    }

    // Reads the solution, and goes to the last branch that is left.
    fn answer(&mut self, mut values: Vec<Order>) -> Items<Order>
        requires search { IsAtSolution self.old }
        requires empty { values.items ≡ [] }
        requires room { length self.old.part.vars ≤ vec_capacity values }
        ensures same { IsSameSearch self.old self.new }
        ensures visited { self.new.visited ≡ self.old.visited }
        ensures search { IsSearch self.new }
        ensures values { AreValues self.old.places self.old.path.trail result }
        ensures left { (value : ℕ → Option OrderSpec) (part : List ℕ) (nodes : Nodes) → ArePending self.old.system.constraints value part self.old.path nodes
            → AreLeft self.old.system.constraints value part self.new.path self.new.path.next nodes }
    {
        read_values(
            self.places.as_slice(),
            &self.path.trail,
            self.system.vars,
            &mut values,
        );
        self.path.backtrack(&self.system);
        Items::of(values)
    }

    // Goes on from the next node, with the memory of an answer.
    fn run(&mut self, turns: u64, values: Vec<Order>) -> Advance
        requires search { IsSearch self.old }
        requires turns { length self.old.part.vars * self.old.visited + turns < 2 ^ 64 }
        requires empty { values.items ≡ [] }
        requires room { length self.old.part.vars ≤ vec_capacity values }
        ensures search { IsSearch self.new }
        ensures same { IsSameSearch self.old self.new }
        ensures run { (value : ℕ → Option OrderSpec) (nodes : Nodes) → AreLeftIn value self.old nodes
            → IsRun value turns self.old self.new nodes result }
    {
        let cost = self.cost();
        let mut left = turns;
        'nodes: while let Some(head) = self.path.next {
            if left < cost {
                return Advance::Spent;
            }
            left -= cost;
            if self.step(head) {
                return Advance::Found(self.answer(values));
            }
        }
        Advance::Finished
    }

    /// Visits nodes in tree order while the turns that are left in this call cover one, up to the next solution.
    pub fn advance(&mut self, alloc: Global, case: &Case, turns: u64) -> Result<Advance, NoMemory>
        requires search { IsSearch self.old }
        requires turns { length self.old.part.vars * self.old.visited + turns < 2 ^ 64 }
        ensures search { IsSearch self.new }
        ensures stands { GoesOn case.now.system.constraints self.old self.new }
        ensures same { IsSameSearch self.old self.new }
        ensures advances { IfOk result (λ r. AnswersIn case.now.system.constraints self.old turns self.new r) }
        ensures kept { OnErr result (self.new ≡ self.old) }
    {
        let _ = case;
        if self.path.next.is_none() {
            return Ok(Advance::Finished);
        }
        let cost = self.cost();
        if turns < cost {
            return Ok(Advance::Spent);
        }
        let values = Vec::with_capacity(alloc, cost as usize)?;
        Ok(self.run(turns, values))
    }

    /// The turns of all nodes that were visited. It takes no memory.
    pub fn used(&self) -> u64
        ensures { result ≡ length self.now.part.vars * self.now.visited }
    {
        self.cost() * self.visited
    }

    /// Whether all nodes of the tree are visited. It takes no memory.
    pub fn is_finished(&self) -> bool
        requires search { IsSearch self.now }
        ensures { TellsFinished self.now result }
    {
        self.path.next.is_none()
    }
}
