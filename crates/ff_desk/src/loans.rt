//! What a turn at the desk gives, and what is brought back to it.
ghost use Rattle.std.specs.Prelude.{◌≡◌, ◌<◌};
ghost use Rattle.std.specs.Arc.{arc_value};
ghost use Rattle.ff_board.specs.Views.{GoesOn};

use ff_board::{BoardSeat, EpochBoard};
use ff_journal::Outcome;
use ff_outside::Gate;
use ff_propagate::Facts;
use ff_steal::{Crew, Hand, work, work_with};
use ff_tables::{Given, Items};
use std::marker::Model;
use std::sync::Arc;

/// Whether a turn found something to do.
#[derive(Clone, Copy, Debug, PartialEq, Eq)]
pub enum Turn {
    Did,
    Idle,
}

/// A board of an epoch, with a seat of it, to be worked on outside the door. Its type keeps that the seat is of the board, and that
/// the board's givens are the case's starts followed by pins, and agree.
#[derive(Drop)]
pub struct Loan {
    pub(crate) epoch: u32,
    pub(crate) board: Arc<EpochBoard>,
    pub(crate) seat: BoardSeat,
}

impl Model for Loan {
    ghost use Rattle.std.specs.Arc.{arc_value};
    ghost use Rattle.ff_desk.specs.Views.{LoanView};
    ghost use Rattle.ff_desk.specs.Loans.{IsLoan};

    ghost Value = { LoanView };

    ghost view = { λ l. record { epoch = l.epoch; board = arc_value l.board; seat = l.seat } };

    ghost invariant = { λ l. IsLoan (arc_value l.board) l.seat };
}

/// What is done next.
#[derive(Drop)]
pub enum Lent {
    /// Nothing outside: every epoch is published, and a search went on, or none is open.
    Searched(Turn),
    /// Nothing outside: an epoch whose givens contradict each other was published at once.
    Published,
    /// To work on this board.
    Board(Loan),
}

/// What was found on the board of an epoch: its facts, with the seat that has seen them, and the outcome that they come to. Its type
/// keeps all this.
#[derive(Drop)]
pub struct Found {
    pub(crate) epoch: u32,
    pub(crate) board: Arc<EpochBoard>,
    pub(crate) seat: BoardSeat,
    pub(crate) givens: Items<Given>,
    pub(crate) facts: Facts,
    pub(crate) outcome: Outcome,
}

impl Model for Found {
    ghost use Rattle.std.specs.Arc.{arc_value};
    ghost use Rattle.ff_desk.specs.Views.{FoundView};
    ghost use Rattle.ff_desk.specs.Loans.{IsFound};

    ghost Value = { FoundView };

    ghost view = { λ f. record { epoch = f.epoch; opening = (arc_value f.board).opening } };

    ghost invariant = { λ f. IsFound (arc_value f.board) f.seat f.givens f.facts f.outcome };
}

impl Loan {
    /// The work of nobody's hand.
    pub fn work<G: Gate + Sync>(self, crew: &Crew, gate: &G) -> Loan
        ensures epoch { result.epoch ≡ self.epoch }
        ensures board { result.board ≡ self.board }
        ensures seat { GoesOn self.seat result.seat }
    {
        let Loan { epoch, board, seat } = self;
        let seat = work(&board, seat, crew, None, gate);
        Loan { epoch, board, seat }
    }

    /// The work of this hand of the crew, which stays the hand that it is.
    pub fn work_with<G: Gate + Sync>(self, crew: &Crew, hand: &mut Hand, gate: &G) -> Loan
        requires hand { (hand.old.of ≡ crew.now.hands) × (hand.old.number < hand.old.of) }
        ensures epoch { result.epoch ≡ self.epoch }
        ensures board { result.board ≡ self.board }
        ensures seat { GoesOn self.seat result.seat }
        ensures hand { (hand.new.number ≡ hand.old.number) × (hand.new.of ≡ hand.old.of) }
    {
        let Loan { epoch, board, seat } = self;
        let seat = work_with(&board, seat, crew, hand, gate);
        Loan { epoch, board, seat }
    }
}
