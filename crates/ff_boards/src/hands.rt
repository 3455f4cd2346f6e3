//! The work of hands.
ghost use Rattle.std.specs.Prelude.{◌≡◌, ◌<◌};
ghost use Rattle.ff_board.specs.Views.{IsAt, GoesOn};

use ff_board::{BoardSeat, EpochBoard};
use ff_outside::NoGate;
use ff_steal::{Crew, Hand, work};
use std::thread::{Threads, join};

/// The work of a hand.
pub fn hand_works(board: &EpochBoard, seat: BoardSeat, crew: &Crew, mut hand: Hand) -> BoardSeat
    requires seat { IsAt board.now seat }
    requires hand { (hand.of ≡ crew.now.hands) × (hand.number < hand.of) }
    ensures { GoesOn seat result }
{
    work(board, seat, crew, Some(&mut hand), &NoGate)
}

/// The work of two hands, each on its thread. The seat of the first.
pub fn both_work<R: Threads + Sync>(
    rt: &R,
    board: &EpochBoard,
    mut seat: BoardSeat,
    crew: &Crew,
    first: Hand,
    second: Hand,
) -> BoardSeat
    requires seat { IsAt board.now seat }
    requires first { (first.of ≡ crew.now.hands) × (first.number < first.of) }
    requires second { (second.of ≡ crew.now.hands) × (second.number < second.of) }
    ensures { IsAt board.now result }
{
    let other = board.split(&mut seat);
    let (one, _two) = join(
        rt,
        move || -> BoardSeat
            requires { IsAt board.now seat × (first.of ≡ crew.now.hands) × (first.number < first.of) }
            ensures { IsAt board.entry.now result }
        { hand_works(board, seat, crew, first) },
        move || -> BoardSeat
            requires { IsAt board.now other × (second.of ≡ crew.now.hands) × (second.number < second.of) }
            ensures { IsAt board.entry.now result }
        { hand_works(board, other, crew, second) },
    );
    one
}
