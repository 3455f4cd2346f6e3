//! Tasks: variables whose constraints are to be examined.
ghost use Rattle.std.specs.Prelude.{◌≡◌, ℕ, ◌+◌, ◌<◌, ◌≤◌, ◌^◌, length};
ghost use Rattle.ff_board.specs.Facts.{vars_in, cons_in};
ghost use Rattle.ff_board.specs.Views.{IsAt, GoesOn};

use crate::crews::Crew;
use crate::members::Member;
use crate::sharing::settle;
use ff_board::{BoardSeat, EpochBoard};
use ff_outside::{Gate, GateAt};

// Settles the listed constraints, at most `left` of them. How many are left then.
fn visit<G: Gate, M: Member>(
    board: &EpochBoard,
    seat: &mut BoardSeat,
    member: &mut M,
    list: &[u32],
    left: u32,
    gate: &G,
) -> u32
    requires seat { IsAt board.now seat.old }
    ensures seat { GoesOn seat.old seat.new }
    ensures member { M.who member.new ≡ M.who member.old }
    ensures left { result ≤ left }
{
    let count = board.count();
    let mut more = left;
    for k in 0..list.len() {
        if more == 0 {
            return 0;
        }
        let c = list[k];
        if c < count {
            more -= 1;
            gate.pass(GateAt::Task);
            settle(board, seat, member, c);
        }
    }
    more
}

/// Takes tasks until there is none, or as many constraints were examined as there are.
pub(crate) fn tasks<G: Gate, M: Member>(
    board: &EpochBoard,
    seat: &mut BoardSeat,
    member: &mut M,
    crew: &Crew,
    gate: &G,
)
    requires seat { IsAt board.now seat.old }
    ensures seat { GoesOn seat.old seat.new }
    ensures member { M.who member.new ≡ M.who member.old }
{
    let mut left = board.count();
    for _ in 0..board.count() {
        if left == 0 {
            return;
        }
        let Some(var) = member.task(crew) else {
            return;
        };
        left = visit(board, seat, member, board.listed(var), left, gate);
    }
}
