//! The best solutions among those that a search has found.
ghost use Rattle.std.specs.Prelude.{◌≡◌, ℕ, ◌+◌, ◌<◌, ◌^◌, ◌++◌, ◌∷◌, [], List, length, IfOk};
ghost use Rattle.ff_tables.specs.declared.orders.Order.{Order as OrderSpec};
ghost use Rattle.ff_near.specs.Best.{AreLeast};

use ff_tables::{Items, NoMemory, Order};
use std::alloc::Global;

/// Of the solutions found so far, the numbers of those of least cost, that cost, the first of them, and how many there are in all.
#[derive(Drop)]
pub(crate) struct Least {
    pub(crate) cost: u32,
    pub(crate) best: Vec<u32>,
    pub(crate) first: Items<Order>,
    pub(crate) count: u32,
}

impl Least {
    /// None is found.
    pub(crate) fn none(alloc: Global) -> Least
        ensures least { (cost_of : List OrderSpec → ℕ) → AreLeast cost_of [] result.cost result.best.items result.first }
        ensures count { result.count ≡ 0 }
    {
        Least {
            cost: 0,
            best: Vec::new(alloc),
            first: Items::of(Vec::new(alloc)),
            count: 0,
        }
    }

    // A solution that costs less than all before.
    fn take(&mut self, number: u32, cost: u32, values: Items<Order>) -> Result<(), NoMemory>
        ensures best { IfOk result (λ _. self.new.best.items ≡ number ∷ []) }
        ensures cost { IfOk result (λ _. self.new.cost ≡ cost) }
        ensures first { IfOk result (λ _. self.new.first ≡ values) }
        ensures count { self.new.count ≡ self.old.count }
    {
        self.best.clear();
        self.cost = cost;
        self.first = values;
        self.best.push(number)?;
        Ok(())
    }

    /// A solution is found.
    pub(crate) fn note(&mut self, cost: u32, values: Items<Order>) -> Result<(), NoMemory>
        requires room { self.old.count + 1 < 2 ^ 32 }
        ensures least { IfOk result (λ _. (cost_of : List OrderSpec → ℕ) (solutions : List (List OrderSpec)) → self.old.count ≡ length solutions
            → cost ≡ cost_of values → AreLeast cost_of solutions self.old.cost self.old.best.items self.old.first
            → AreLeast cost_of (solutions ++ values ∷ []) self.new.cost self.new.best.items self.new.first) }
        ensures count { self.new.count ≡ self.old.count + 1 }
    {
        let number = self.count;
        self.count += 1;
        if self.best.is_empty() || cost < self.cost {
            return self.take(number, cost, values);
        }
        if cost == self.cost {
            self.best.push(number)?;
            return Ok(());
        }
        Ok(())
    }
}
