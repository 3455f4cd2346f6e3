//! The board.
ghost use Rattle.std.specs.Prelude.{◌≡◌, ◌+◌, ◌<◌, ◌≤◌, Some, None, length, slice_get};
ghost use Rattle.ff_propagate.specs.Words.{held_of};
ghost use Rattle.ff_board.specs.Due.{AreDue};
ghost use Rattle.ff_board.specs.Facts.{vars_in, cons_in};
ghost use Rattle.ff_board.specs.Answer.{fact_of, IsLook};
ghost use Rattle.ff_board.specs.Rule.{Looked};
ghost use Rattle.ff_board.specs.Views.{IsAt, GoesOn};

use crate::opening::{Key, Opening};
use crate::seats::{BoardSeat, Copies, Law, Looks, View};
use atomic_table::Table;
use ff_propagate::{Fact, Uses, read_word};
use ff_tables::Constraint;
use std::alloc::Global;
use std::marker::Model;
use std::sync::Arc;

/// The board of an epoch: a word for each variable, and one that stays 0. Contracts see what it was opened with.
#[derive(Drop)]
pub struct EpochBoard {
    pub(crate) table: Table<u8, View, Key, Law, Global>,
    pub(crate) opening: Opening,
    /// For each variable the constraints that have it. Nothing is promised of them.
    pub(crate) uses: Arc<Uses>,
    /// The constraints that the opening facts don't settle.
    pub(crate) due: Vec<u32>,
}

impl Model for EpochBoard {
    ghost use Rattle.std.specs.Prelude.{◌≡◌, ◌+◌};
    ghost use Rattle.std.specs.Prelude.{length};
    ghost use Rattle.ff_board.specs.Due.{AreDue};
    ghost use Rattle.ff_board.specs.Facts.{vars_in, cons_in};
    ghost use Rattle.ff_board.specs.Views.{BoardView};

    ghost Value = { BoardView };

    ghost view = { λ b. record { table = b.table.shared.table_id; opening = b.opening } };

    ghost invariant = { λ b. (b.table.shared.key.value ≡ b.opening) × (b.table.shared.table_id.words ≡ vars_in b.opening + 1) × (b.table.shared.table_id.slots ≡ 0) × AreDue (cons_in b.opening) b.opening.facts (length (cons_in b.opening)) b.due.items };
}

impl EpochBoard {
    /// What the board was opened with.
    #[inline(always)]
    pub fn opening(&self) -> &Opening
        ensures { result.now ≡ self.now.opening }
    {
        &self.opening
    }

    /// How many variables there are.
    #[inline(always)]
    pub fn vars(&self) -> u32
        ensures { result ≡ vars_in self.now.opening }
    {
        self.opening.case.system.vars
    }

    /// How many constraints there are.
    #[inline(always)]
    pub fn count(&self) -> u32
        ensures { result ≡ length (cons_in self.now.opening) }
    {
        self.opening.case.system.constraints.as_slice().len() as u32
    }

    /// The constraints that are to be examined, in increasing order. The opening facts settle the others: they give
    /// each of their terms a value, and some row agrees, so that they force nothing more as long as they stand.
    #[inline(always)]
    pub fn due(&self) -> &[u32]
        ensures { AreDue (cons_in self.now.opening) self.now.opening.facts (length (cons_in self.now.opening)) result.now }
    {
        self.due.as_slice()
    }

    /// The constraints that are listed for a variable. Nothing is promised of them.
    pub fn listed(&self, var: u32) -> &[u32] {
        self.uses.listed(var)
    }

    // The constraint with this number.
    #[inline(always)]
    pub(crate) fn constraint(&self, index: u32) -> &Constraint
        requires { index < length (cons_in self.now.opening) }
        ensures { slice_get (cons_in self.now.opening) index ≡ Some result.now }
    {
        let constraints = self.opening.case.system.constraints.as_slice();
        &constraints[index as usize]
    }

    /// The fact of the variable, where its word is found to keep one. It takes no memory.
    pub fn value(&self, seat: &mut BoardSeat, var: u32) -> Option<Fact>
        requires seat { IsAt self.now seat.old }
        requires var { var < vars_in self.now.opening }
        ensures seat { GoesOn seat.old seat.new }
        ensures look { IsLook seat.old.view var result seat.new.view }
    {
        match read_word(self.look(seat, var)) {
            Some(held) => Some(held.fact),
            None => None,
        }
    }

    /// A second seat that has seen the same. It takes no memory.
    pub fn split(&self, seat: &mut BoardSeat) -> BoardSeat
        requires { IsAt self.now seat.old }
        ensures old { seat.new ≡ seat.old }
        ensures new { result ≡ seat.old }
    {
        BoardSeat {
            seat: self.table.shared.split_seat::<Copies>(&mut seat.seat),
        }
    }

    // One look at a word.
    pub(crate) fn look(&self, seat: &mut BoardSeat, var: u32) -> u64
        requires seat { IsAt self.now seat.old }
        requires var { var < vars_in self.now.opening }
        ensures seat { GoesOn seat.old seat.new }
        ensures look { Looked seat.old.view var result result seat.new.view }
    {
        self.table
            .shared
            .load::<Looks>(&mut seat.seat, var as usize)
    }
}
