//! Work on a board.
ghost use Rattle.std.specs.Prelude.{◌≡◌, ℕ, ◌+◌, ◌<◌, ◌≤◌, ◌^◌, length, Some, IfSome};
ghost use Rattle.ff_board.specs.Facts.{vars_in, cons_in};
ghost use Rattle.ff_board.specs.Views.{IsAt, GoesOn};
ghost use Rattle.ff_steal.specs.Shares.{AreDone};

use crate::crews::{Crew, Hand};
use crate::members::Helper;
use crate::sharing::share;
use crate::tasks::tasks;
use ff_board::{BoardSeat, EpochBoard};
use ff_outside::Gate;

/// The work of a hand, which stays the hand that it is.
pub fn work_with<G: Gate + Sync>(
    board: &EpochBoard,
    mut seat: BoardSeat,
    crew: &Crew,
    hand: &mut Hand,
    gate: &G,
) -> BoardSeat
    requires seat { IsAt board.now seat }
    requires hand { (hand.old.of ≡ crew.now.hands) × (hand.old.number < hand.old.of) }
    ensures seat { GoesOn seat result }
    ensures hand { (hand.new.number ≡ hand.old.number) × (hand.new.of ≡ hand.old.of) }
    ensures share { AreDone board.now.opening hand.old.number hand.old.of (length (cons_in board.now.opening)) seat.view.seen result.view.seen }
{
    let (number, of) = (hand.number, hand.of);
    share(board, &mut seat, hand, number, of, gate);
    tasks(board, &mut seat, hand, crew, gate);
    seat
}

/// Examines the share of the hand, and then what tasks name. Sets what constraints force.
pub fn work<G: Gate + Sync>(
    board: &EpochBoard,
    mut seat: BoardSeat,
    crew: &Crew,
    hand: Option<&mut Hand>,
    gate: &G,
) -> BoardSeat
    requires seat { IsAt board.now seat }
    requires hand { IfSome hand (λ h. (h.now.of ≡ crew.now.hands) × (h.now.number < h.now.of)) }
    ensures seat { GoesOn seat result }
    ensures share { IfSome hand.entry (λ h. AreDone board.now.opening h.now.number h.now.of (length (cons_in board.now.opening)) seat.view.seen result.view.seen) }
{
    match hand {
        Some(hand) => work_with(board, seat, crew, hand, gate),
        None => {
            tasks(board, &mut seat, &mut Helper, crew, gate);
            seat
        }
    }
}
