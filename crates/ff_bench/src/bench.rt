//! The workbench.
ghost use Rattle.std.specs.Prelude.{◌≡◌, ◌+◌, length};

use ff_desk::Desk;
use ff_door::Door;
use ff_steal::Crew;
use std::marker::Model;

/// A desk behind a door, and a crew. Contracts see the door, whose base is the case, the budget and the lengths of the scripts,
/// and how many hands the crew has.
#[derive(Drop)]
pub struct Bench {
    pub(crate) door: Door<Desk>,
    pub(crate) crew: Crew,
}

impl Model for Bench {
    ghost use Rattle.std.specs.Prelude.{◌≡◌, ◌+◌, length};
    ghost use Rattle.ff_bench.specs.Views.{BenchView};

    ghost Value = { BenchView };

    ghost view = { λ b. record { door = b.door; hands = b.crew.hands } };

    ghost invariant = { λ b. b.door.seats ≡ length b.door.base.lengths + b.crew.hands };
}
