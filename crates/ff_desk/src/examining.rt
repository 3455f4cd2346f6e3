//! What is done outside the door after the work: a board is swept, and its facts are collected.
ghost use Rattle.std.specs.Prelude.{◌≡◌, ◌<◌, ◌^◌, IfOk, length};
ghost use Rattle.ff_propagate.specs.FactRule.{MeetsFactRule};
ghost use Rattle.ff_refute.specs.Givens.{AreGivens};
ghost use Rattle.ff_journal.specs.Shown.{AreOfBoard};
ghost use Rattle.ff_told.specs.Ends.{IsEndOf};
ghost use Rattle.ff_desk.specs.Ends.{SweptTo};

use crate::loans::{Found, Loan};
use ff_board::Sweep;
use ff_journal::{Outcome, board_of};
use ff_propagate::{ClashAt, Facts, facts_are_in_the_closure};
use ff_tables::{Given, Items, NoMemory};
use ff_told::refutation;
use ff_types::Case;
use std::alloc::Global;

// What the facts of a board that was swept come to.
fn ended(
    alloc: Global,
    case: &Case,
    givens: &Items<Given>,
    facts: &Facts,
    swept: Sweep,
) -> Result<Outcome, NoMemory>
    requires givens { AreGivens case.now givens.now }
    requires rule { MeetsFactRule case.now.system.vars case.now.system.constraints givens.now facts.now }
    requires swept { SweptTo case.now givens.now facts.now swept }
    ensures end { IfOk result (λ o. IsEndOf case.now givens.now o) }
    ensures shown { IfOk result (λ o. AreOfBoard o facts.now) }
{
    match swept {
        Sweep::Closed => {
            let board = board_of(alloc, case.system.vars, facts)?;
            Ok(Outcome::Board(board))
        }
        Sweep::Dead(c) => {
            let outcome = refutation(alloc, case, givens, facts, ClashAt::Dead(c))?;
            Ok(outcome)
        }
    }
}

/// Sweeps the board, collects its facts, and makes the outcome that they come to.
pub fn examine(alloc: Global, loan: Loan) -> Result<Found, NoMemory>
    ensures epoch { IfOk result (λ f. f.epoch ≡ loan.epoch) }
    ensures opening { IfOk result (λ f. f.opening ≡ loan.board.opening) }
{
    facts_are_in_the_closure();
    let Loan {
        epoch,
        board,
        mut seat,
    } = loan;
    let swept = board.sweep(&mut seat);
    let facts = board.collect(alloc, &mut seat)?;
    // what the seat has seen is of the board's variables
    seat.is_learned();
    let opening = board.opening();
    let givens = opening.givens.copy(alloc)?;
    let outcome = ended(alloc, &opening.case, &opening.givens, &facts, swept)?;
    Ok(Found {
        epoch,
        board,
        seat,
        givens,
        facts,
        outcome,
    })
}
