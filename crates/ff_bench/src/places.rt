//! A seat at the door of a workbench.
ghost use Rattle.std.specs.Prelude.{◌≡◌, false, length};

use ff_desk::Desk;
use ff_door::DoorSeat;
use std::marker::Model;

/// A seat that is outside, and counts the entries that it has seen. Contracts see the seat.
#[derive(Drop)]
pub(crate) struct Place {
    pub(crate) seat: DoorSeat<Desk>,
    pub(crate) entries: u64,
}

impl Model for Place {
    ghost use Rattle.std.specs.Prelude.{◌≡◌, false, length};
    ghost use Rattle.ff_journal.specs.declared.entries.Entry.{Entry};
    ghost use Rattle.ff_door.specs.Views.{SeatView};
    ghost use Rattle.ff_desk.specs.Views.{BaseView};

    ghost Value = { SeatView Entry BaseView };

    ghost view = { λ p. p.seat };

    ghost invariant = { λ p. (p.seat.inside ≡ false) × (p.entries ≡ length p.seat.seen) };
}
