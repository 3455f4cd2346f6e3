//! Examines a constraint.
ghost use Rattle.std.specs.Prelude.{◌≡◌, ℕ, ◌+◌, ◌<◌, ◌≤◌, ◌⊎◌, ◌^◌, Some, None, length, slice_get};
ghost use Rattle.std.specs.Arc.{arc_value};
ghost use Rattle.ff_tables.specs.declared.orders.Order.{Order as OrderSpec};
ghost use Rattle.ff_tables.specs.Orders.{term_at};
ghost use Rattle.ff_propagate.specs.declared.words.Held.{Held as HeldSpec};
ghost use Rattle.ff_propagate.specs.Words.{held};
ghost use Rattle.ff_board.specs.Facts.{vars_in, cons_in};
ghost use Rattle.ff_board.specs.Found.{value_in};
ghost use Rattle.ff_board.specs.Standing.{top_level};
ghost use Rattle.ff_board.specs.Swept.{Base, Examines};
ghost use Rattle.ff_board.specs.Views.{IsAt, GoesOn};

use crate::board::EpochBoard;
use crate::offering::Offer;
use crate::reading::Found;
use crate::seats::BoardSeat;
use ff_propagate::{Fact, Reason};
use ff_tables::{Forced, Order, Term, forced};

/// What examining a constraint came to.
#[derive(Clone, Copy, PartialEq, Eq)]
pub enum Look {
    /// All that it forces was seen.
    Quiet,
    /// The fact of this variable was set.
    Set(u32),
    /// A fact was found that others had set.
    Moved,
    /// No row of it agrees.
    Dead,
}

impl EpochBoard {
    // What is found at a variable, and the greatest level so far.
    #[inline(always)]
    fn one_term(&self, seat: &mut BoardSeat, var: u32, top: u32) -> (Option<Order>, u32)
        requires seat { IsAt self.now seat.old }
        requires var { var < vars_in self.now.opening }
        requires top { top ≤ top_level self.now.opening.facts + vars_in self.now.opening }
        ensures seat { GoesOn seat.old seat.new }
        ensures before { (s : OrderSpec) → Base self.now.opening seat.old.view.seen var s → result.0 ≡ Some s }
        ensures after { (s : OrderSpec) → result.0 ≡ Some s → (h : HeldSpec) × (held seat.new.view.seen var ≡ Some h) × (h.fact.value ≡ s) × (h.fact.level ≤ result.1) }
        ensures top { (top ≤ result.1) × (result.1 ≤ top_level self.now.opening.facts + vars_in self.now.opening) }
        ensures level { (result.1 ≡ top) ⊎ ((h : HeldSpec) × (held seat.new.view.seen var ≡ Some h) × (h.fact.level ≡ result.1)) }
    {
        match self.value(seat, var) {
            Some(fact) => (
                Some(fact.value),
                if fact.level > top { fact.level } else { top },
            ),
            None => (None, top),
        }
    }

    // What is found of each term, and the greatest level found.
    #[inline(always)]
    fn terms(&self, seat: &mut BoardSeat, terms: &[Term], values: &mut [Option<Order>]) -> u32
        requires seat { IsAt self.now seat.old }
        requires within { (j : ℕ) → j < length terms.now → (term_at terms.now j).var < vars_in self.now.opening }
        requires wide { length terms.now ≤ length values.old }
        ensures seat { GoesOn seat.old seat.new }
        ensures wide { length values.new ≡ length values.old }
        ensures before { (j : ℕ) (s : OrderSpec) → j < length terms.now → Base self.now.opening seat.old.view.seen (term_at terms.now j).var s → value_in values.new j ≡ Some s }
        ensures after { (j : ℕ) (s : OrderSpec) → j < length terms.now → value_in values.new j ≡ Some s → (h : HeldSpec) × (held seat.new.view.seen (term_at terms.now j).var ≡ Some h) × (h.fact.value ≡ s) × (h.fact.level ≤ result) }
        ensures top { result ≤ top_level self.now.opening.facts + vars_in self.now.opening }
        ensures level { (result ≡ 0) ⊎ ((u : ℕ) × (h : HeldSpec) × (held seat.new.view.seen u ≡ Some h) × (h.fact.level ≡ result)) }
    {
        let mut top = 0;
        for j in 0..terms.len() {
            let (value, next) = self.one_term(seat, terms[j].var, top);
            values[j] = value;
            top = next;
        }
        top
    }

    /// Looks at the terms of a constraint, and offers the first value that it forces. It takes no memory.
    pub fn examine(&self, seat: &mut BoardSeat, index: u32) -> Look
        requires seat { IsAt self.now seat.old }
        requires index { index < length (cons_in self.now.opening) }
        ensures seat { GoesOn seat.old seat.new }
        ensures look { Examines self.now.opening index seat.old.view.seen seat.new.view.seen result }
    {
        let con = self.constraint(index);
        let terms = con.terms.as_slice();
        let mut values = [None; 6];
        let top = self.terms(seat, terms, &mut values);
        match forced(
            con,
            &Found {
                terms,
                values: &values,
            },
        ) {
            Forced::Nothing => Look::Quiet,
            Forced::Value { var, value } => {
                let fact = Fact {
                    value,
                    level: top + 1,
                    reason: Reason::Forced(index),
                };
                match self.offer(seat, var, fact) {
                    Offer::Set => Look::Set(var),
                    Offer::Same(_) => Look::Moved,
                    Offer::Other(_) => Look::Moved,
                }
            }
            Forced::Dead => Look::Dead,
        }
    }
}
