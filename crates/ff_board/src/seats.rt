//! What a seat knows.
ghost use Rattle.std.specs.Prelude.{◌≡◌};
ghost use Rattle.ff_board.specs.Rule.{IsLearned};

use crate::opening::{Key, Opening};
use atomic_table::{Play, Seat, Split, TableRule};
use std::marker::Model;

/// What a seat has seen. No value of it is made. A clause reads an array as a list, of any length.
pub struct View {
    /// What the board was opened with.
    pub opening: Opening,
    /// The words that were found, 0 where none was.
    pub seen: [u64; 0],
    /// How many looks there were.
    pub looks: u64,
    /// The variable of the last look, and the word found.
    pub last: Option<(u64, u64)>,
}

/// The rule of a board.
pub struct Law;

impl TableRule<u8, View, Key> for Law {
    ghost use Rattle.ff_board.specs.Rule.{Kept, starting};

    ghost holds = { λ key. Kept key.value };

    ghost first = { λ key. starting key.value };
}

/// What a look tells.
pub struct Looks;

impl Play<u8, View> for Looks {
    ghost use Rattle.ff_board.specs.Rule.{told};

    ghost then = { told };
}

/// A seat whose two halves have both seen what it saw.
pub struct Copies;

impl Split<View> for Copies {
    ghost left = { λ v. v };

    ghost right = { λ v. v };
}

/// A seat at a board. It has no bytes: contracts see at which board it is, what it has seen, the number of its looks
/// and its last look.
#[derive(Drop)]
pub struct BoardSeat {
    pub(crate) seat: Seat<u8, View>,
}

impl Model for BoardSeat {
    ghost use Rattle.ff_board.specs.Views.{SeatView};
    ghost use Rattle.ff_board.specs.Rule.{IsLearned};

    ghost Value = { SeatView };

    ghost view = { λ s. record { table = s.seat.table_id; view = s.seat.me.0 } };

    ghost invariant = { λ s. IsLearned s.seat.me.0 };
}

impl BoardSeat {
    /// What a seat has seen is of the board's variables, in the closure of its givens, and of low levels.
    pub fn is_learned(&self)
        ensures { IsLearned self.now.view }
    {
        // opening the seat gives what its type keeps
        let _ = &self.seat;
    }
}
