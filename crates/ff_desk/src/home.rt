//! A board with a seat of it that stays at home.
ghost use Rattle.std.specs.Prelude.{◌≡◌, IfOk};
ghost use Rattle.std.specs.Arc.{arc_value};
ghost use Rattle.ff_board.specs.Views.{IsAt};

use ff_board::{BoardSeat, EpochBoard};
use ff_tables::NoMemory;
use std::marker::Model;
use std::sync::Arc;

/// A board with a seat of it.
#[derive(Drop)]
pub struct Home {
    board: Arc<EpochBoard>,
    seat: BoardSeat,
}

impl Model for Home {
    ghost use Rattle.std.specs.Arc.{arc_value};
    ghost use Rattle.ff_board.specs.Views.{IsAt};
    ghost use Rattle.ff_desk.specs.Views.{HomeView};

    ghost Value = { HomeView };

    ghost view = { λ h. record { board = arc_value h.board; seat = h.seat } };

    ghost invariant = { λ h. IsAt (arc_value h.board) h.seat };
}

impl Home {
    pub(crate) fn of(board: Arc<EpochBoard>, seat: BoardSeat) -> Home
        requires { IsAt (arc_value board) seat }
        ensures board { result.board ≡ arc_value board }
        ensures seat { result.seat ≡ seat }
    {
        Home { board, seat }
    }

    /// The board.
    pub(crate) fn board(&self) -> &EpochBoard
        ensures { result.now ≡ self.now.board }
    {
        &self.board
    }

    /// The board, and a seat that is split from the one at home.
    pub(crate) fn lend(&mut self) -> Result<(Arc<EpochBoard>, BoardSeat), NoMemory>
        ensures same { self.new ≡ self.old }
        ensures board { IfOk result (λ r. arc_value r.0 ≡ self.old.board) }
        ensures seat { IfOk result (λ r. IsAt (arc_value r.0) r.1) }
    {
        let board = Arc::try_clone(&self.board)?;
        let seat = board.split(&mut self.seat);
        Ok((board, seat))
    }
}
