//! Facts with their levels and reasons, and what a closure comes to.
ghost use Rattle.std.specs.Prelude.{◌≡◌, ◌<◌, length, IfOk};
ghost use Rattle.ff_propagate.specs.Facts.{fact_at, value_at};

use ff_tables::{Items, Known, NoMemory, Order};
use std::alloc::Global;
use std::marker::Model;

/// Why a fact stands.
#[derive(Clone, Copy, Debug, PartialEq, Eq)]
pub enum Reason {
    /// The given with this number.
    Given(u32),
    /// The constraint with this number forces it from facts of lower levels.
    Forced(u32),
}

/// A value with its level: 0 for a given, else above the levels that it is forced from.
#[derive(Clone, Copy, Debug, PartialEq, Eq)]
pub struct Fact {
    pub value: Order,
    pub level: u32,
    pub reason: Reason,
}

/// For each variable its fact, if it has one. Contracts see the list of them.
#[derive(Drop)]
pub struct Facts {
    list: Items<Option<Fact>>,
}

impl Model for Facts {
    ghost use Rattle.std.specs.Prelude.{List, Option};
    ghost use Rattle.ff_propagate.specs.declared.facts.Fact.{Fact};

    ghost Value = { List (Option Fact) };

    ghost view = { λ a. a.list };
}

impl Facts {
    /// The facts of this list, one item per variable. It takes no memory.
    pub fn of(list: Items<Option<Fact>>) -> Facts
        ensures { result ≡ list }
    {
        Facts { list }
    }

    /// The fact of the variable.
    #[inline]
    pub fn fact(&self, var: u32) -> Option<Fact>
        requires { var < length self.now }
        ensures { result ≡ fact_at self.now var }
    {
        self.list.as_slice()[var as usize]
    }

    /// Equal facts.
    pub fn copy(&self, alloc: Global) -> Result<Facts, NoMemory>
        ensures { IfOk result (λ copied. copied ≡ self.now) }
    {
        Ok(Facts::of(self.list.copy(alloc)?))
    }
}

/// The values that the facts give.
impl Known for Facts {
    ghost count = { λ fs. length fs };

    ghost known = { λ fs v. value_at fs v };

    #[inline]
    fn value(&self, var: u32) -> Option<Order> {
        self.fact(var).map(|fact| fact.value)
    }
}

/// Where a closure clashes.
#[derive(Clone, Copy, Debug, PartialEq, Eq)]
pub enum ClashAt {
    /// Two givens that contradict each other: the second is the first given that contradicts an earlier one,
    /// and the first is the first that it contradicts.
    Givens { first: u32, second: u32 },
    /// A constraint with no row that agrees with the facts.
    Dead(u32),
}

/// What closing gives.
#[derive(Drop)]
pub enum Closed {
    /// Exactly the closure.
    Board(Facts),
    /// The closure clashes; the facts show where.
    Clash { facts: Facts, at: ClashAt },
}
