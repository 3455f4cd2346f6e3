//! Passes of viewers and workers.
ghost use Rattle.std.specs.Prelude.{◌≡◌, ◌-◌, ◌<◌, Some, length};
ghost use Rattle.ff_journal.specs.Journals.{commands_of};
ghost use Rattle.ff_bench.specs.Views.{left_of, IsPass};

use crate::places::Place;
use ff_steal::Hand;
use std::marker::Model;

/// A viewer's pass. Contracts see its bench by the door's table and base, the viewer, the length of its script and the entries that
/// it has seen.
#[derive(Drop)]
pub struct Pass {
    pub(crate) place: Place,
    pub(crate) viewer: u32,
    pub(crate) commands: u32,
    /// How many entries the viewer has made.
    pub(crate) made: u32,
}

impl Model for Pass {
    ghost use Rattle.ff_bench.specs.Views.{PassView, IsPass};

    ghost Value = { PassView };

    ghost view = { λ p. record { table = p.place.table; base = p.place.base; viewer = p.viewer; commands = p.commands; seen = p.place.seen } };

    ghost invariant = { λ p. IsPass p.place p.viewer p.commands p.made };
}

impl Pass {
    // How many commands the viewer's script has.
    pub(crate) fn commands(&self) -> u32
        ensures { result ≡ self.now.commands }
    {
        self.commands
    }

    /// How many commands of the viewer's script are left. It takes no memory.
    pub fn left(&self) -> u32
        ensures { result ≡ left_of self.now }
    {
        self.commands - self.made
    }

    /// How many entries the viewer has seen. It takes no memory.
    pub fn seen(&self) -> u64
        ensures { result ≡ length self.now.seen }
    {
        self.place.entries
    }
}

/// A worker's pass, with its hand of the crew. Contracts see its bench by the door's table and base, the number of its seat, its hand,
/// the entries that it has seen and how many turns at the door it has had.
#[derive(Drop)]
pub struct WorkerPass {
    pub(crate) place: Place,
    pub(crate) hand: Hand,
}

impl Model for WorkerPass {
    ghost use Rattle.ff_bench.specs.Views.{WorkerView};

    ghost Value = { WorkerView };

    ghost view = { λ w. record { table = w.place.table; base = w.place.base; number = w.place.number; hand = w.hand.number; of = w.hand.of; seen = w.place.seen; turns = w.place.turns } };
}
