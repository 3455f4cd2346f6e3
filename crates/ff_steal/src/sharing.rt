//! The share of a hand.
ghost use Rattle.std.specs.Prelude.{◌≡◌, ℕ, ◌+◌, ◌%◌, ◌<◌, ◌≤◌, ◌^◌, length, slice_get, Some};
ghost use Rattle.ff_board.specs.Facts.{vars_in, cons_in};
ghost use Rattle.ff_board.specs.Views.{IsAt, GoesOn};
ghost use Rattle.ff_steal.specs.Shares.{IsDone, AreDone};

use crate::members::Member;
use ff_board::{BoardSeat, EpochBoard, Look};
use ff_outside::{Gate, GateAt};

/// Examines a constraint until it forces nothing more.
pub(crate) fn settle<M: Member>(board: &EpochBoard, seat: &mut BoardSeat, member: &mut M, c: u32)
    requires seat { IsAt board.now seat.old }
    requires c { c < length (cons_in board.now.opening) }
    ensures seat { GoesOn seat.old seat.new }
    ensures member { M.who member.new ≡ M.who member.old }
    ensures done { IsDone board.now.opening c seat.old.view.seen seat.new.view.seen }
{
    'again: loop {
        match board.examine(seat, c) {
            Look::Quiet => return,
            Look::Set(var) => member.note(var),
            Look::Moved => {}
            Look::Dead => return,
        }
    }
}

// Settles the constraint, where it is of the share.
fn settle_own<G: Gate, M: Member>(
    board: &EpochBoard,
    seat: &mut BoardSeat,
    member: &mut M,
    hand: (u32, u32),
    c: u32,
    gate: &G,
)
    requires seat { IsAt board.now seat.old }
    requires c { (c < length (cons_in board.now.opening)) × (0 < hand.1) }
    ensures seat { GoesOn seat.old seat.new }
    ensures member { M.who member.new ≡ M.who member.old }
    ensures done { c % hand.1 ≡ hand.0 → IsDone board.now.opening c seat.old.view.seen seat.new.view.seen }
{
    if c % hand.1 == hand.0 {
        gate.pass(GateAt::Task);
        settle(board, seat, member, c);
    }
}

/// Settles each constraint that is due and whose number, divided by `of`, leaves `number`, in increasing order. The
/// others are settled by the opening facts, at which it looks first.
pub(crate) fn share<G: Gate, M: Member>(
    board: &EpochBoard,
    seat: &mut BoardSeat,
    member: &mut M,
    number: u32,
    of: u32,
    gate: &G,
)
    requires seat { IsAt board.now seat.old }
    requires of { 0 < of }
    ensures seat { GoesOn seat.old seat.new }
    ensures member { M.who member.new ≡ M.who member.old }
    ensures done { AreDone board.now.opening number of (length (cons_in board.now.opening)) seat.old.view.seen seat.new.view.seen }
{
    board.words_set(seat);
    let due = board.due();
    for k in 0..due.len() {
        settle_own(board, seat, member, (number, of), due[k], gate);
    }
}
