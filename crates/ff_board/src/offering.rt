//! Offers facts to a board.
ghost use Rattle.std.specs.Prelude.{◌≢◌, ◌≡◌, ℕ, ◌<◌, ◌≤◌, ◌^◌, IsTrue, true, length, Some};
ghost use Rattle.ff_tables.specs.Orders.{term_at};
ghost use Rattle.ff_propagate.specs.declared.words.Held.{Held as HeldSpec};
ghost use Rattle.ff_propagate.specs.Words.{held};
ghost use Rattle.ff_board.specs.Facts.{vars_in, Reaches, Lower, is_marked, IsForcedSeen};
ghost use Rattle.ff_board.specs.Answer.{Answers};
ghost use Rattle.ff_board.specs.Rule.{Looked, MayPut, word_after};
ghost use Rattle.ff_board.specs.Views.{IsAt, GoesOn};

use crate::board::EpochBoard;
use crate::seats::{BoardSeat, Looks};
use ff_propagate::{Fact, Held, Reason, read_word, write_word};
use ff_tables::Term;

/// What an offer came to.
#[derive(Drop)]
pub enum Offer {
    /// The fact was set.
    Set,
    /// A fact with the same value stood.
    Same(Fact),
    /// A fact with the other value stood.
    Other(Fact),
}

impl EpochBoard {
    // Whether another variable is found with a level below `level`.
    fn is_lower(&self, seat: &mut BoardSeat, other: u32, var: u32, level: u32) -> bool
        requires seat { IsAt self.now seat.old }
        requires var { other < vars_in self.now.opening }
        ensures seat { GoesOn seat.old seat.new }
        ensures lower { IsTrue result → Lower seat.new.view.seen level other }
        ensures all { (g : HeldSpec) → other ≢ var → held seat.old.view.seen other ≡ Some g → g.fact.level < level → IsTrue result }
    {
        if other == var {
            return false;
        }
        match read_word(self.look(seat, other)) {
            Some(held) => held.fact.level < level,
            None => false,
        }
    }

    // The marks of the terms that are found with a level below `level`.
    fn marks(&self, seat: &mut BoardSeat, terms: &[Term], var: u32, level: u32) -> u8
        requires seat { IsAt self.now seat.old }
        requires few { length terms.now ≤ 6 }
        requires terms { (j : ℕ) → j < length terms.now → (term_at terms.now j).var < vars_in self.now.opening }
        ensures seat { GoesOn seat.old seat.new }
        ensures few { result < 64 }
        ensures marked { (j : ℕ) → j < length terms.now → is_marked result j ≡ true → Lower seat.new.view.seen level (term_at terms.now j).var }
        ensures all { (j : ℕ) (g : HeldSpec) → j < length terms.now → (term_at terms.now j).var ≢ var → held seat.old.view.seen (term_at terms.now j).var ≡ Some g → g.fact.level < level → is_marked result j ≡ true }
    {
        let mut marks = 0;
        let mut left = terms.len();
        while left > 0 {
            left -= 1;
            let lower = self.is_lower(seat, terms[left].var, var, level);
            marks = 2 * marks + u8::from(lower);
        }
        marks
    }

    // One look at a word, which sets it where it is 0.
    fn put(&self, seat: &mut BoardSeat, var: u32, word: u64) -> u64
        requires seat { IsAt self.now seat.old }
        requires var { var < vars_in self.now.opening }
        requires word { MayPut seat.old.view var word }
        ensures seat { GoesOn seat.old seat.new }
        ensures look { Looked seat.old.view var result (word_after word result) seat.new.view }
    {
        self.table
            .shared
            .compare_exchange::<Looks>(&mut seat.seat, var as usize, 0, word)
    }

    /// Offers a fact that its reason's constraint forces from what the seat has seen of lower levels. The word that is
    /// offered marks the other terms that are then found with a lower level. It takes no memory.
    pub fn offer(&self, seat: &mut BoardSeat, var: u32, fact: Fact) -> Offer
        requires seat { IsAt self.now seat.old }
        requires var { var < vars_in self.now.opening }
        requires level { (0 < fact.level) × (fact.level < 2 ^ 30) × Reaches seat.old.view.seen fact.level }
        requires forced { IsForcedSeen self.now.opening seat.old.view.seen var fact fact.reason }
        ensures seat { GoesOn seat.old seat.new }
        ensures answers { Answers seat.old.view var fact seat.new.view result }
    {
        let Reason::Forced(index) = fact.reason else {
            unreachable!()
        };
        let con = self.constraint(index);
        let marks = self.marks(seat, con.terms.as_slice(), var, fact.level);
        let word = write_word(Held { fact, marks });
        match read_word(self.put(seat, var, word)) {
            None => Offer::Set,
            Some(held) => {
                if held.fact.value == fact.value {
                    Offer::Same(held.fact)
                } else {
                    Offer::Other(held.fact)
                }
            }
        }
    }
}
