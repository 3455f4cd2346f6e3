//! The door.
ghost use Rattle.std.specs.Prelude.{◌≡◌, ◌+◌, ◌<◌, ◌^◌, ◌%◌, ℕ, true, false, Some, None, [], ◌∷◌};
ghost use Rattle.ff_door.specs.Entries.{Follows, Adds};
ghost use Rattle.ff_door.specs.Rule.{Out, Queued, gathered, with_ticket, let_in};
ghost use Rattle.ff_door.specs.Views.{IsAt, came_in, gone_out};

use crate::kept::Kept;
use crate::waiter::{Arrive, Draw, Gather, Plan, Serve, Turns, Waiter};
use atomic_table::{Seat, Table};
use std::alloc::Global;
use std::marker::Model;
use std::sync::Wait;
use std::thread;

/// A seat at a door. It has no bytes: contracts see its door and the door's base, its number, the entries that it has
/// seen, the number of its turns and whether it is in a turn.
#[derive(Drop)]
pub struct DoorSeat<T: Kept> {
    pub(crate) seat: Seat<Option<T>, Waiter<T::Entry, T::Base>>,
}

impl<T: Kept> Model for DoorSeat<T> {
    ghost use Rattle.ff_door.specs.Views.{SeatView, seat_view, IsSound};

    ghost Value = { SeatView T.Entry T.Base };

    ghost view = { λ s. seat_view s.seat.table_id s.seat.me.0 };

    ghost invariant = { λ s. IsSound s.seat.me };
}

/// A door with a value behind it: two words, the next ticket and the one that is served, and a slot for the value. Contracts
/// see its base and the count of its seats.
#[derive(Drop)]
pub struct Door<T: Kept> {
    pub(crate) table: Table<Option<T>, Waiter<T::Entry, T::Base>, Plan<T>, Turns<T>, Global>,
}

impl<T: Kept> Model for Door<T> {
    ghost use Rattle.std.specs.Prelude.{◌≡◌, ◌<◌};
    ghost use Rattle.ff_door.specs.Views.{DoorView};

    ghost Value = { DoorView T.Base };

    ghost view = { λ d. record { table = d.table.shared.table_id; base = T.base d.table.shared.key.first.value; seats = d.table.shared.key.seats } };

    ghost invariant = { λ d. (d.table.shared.table_id.words ≡ 2) × (d.table.shared.table_id.slots ≡ 1) × (0 < d.table.shared.key.seats) };
}

impl<T: Kept> Door<T> {
    // Draws a ticket.
    fn draw(&self, seat: &mut Seat<Option<T>, Waiter<T::Entry, T::Base>>) -> u64
        requires door { seat.old.table_id ≡ self.now.table }
        requires out { Out seat.old.me }
        ensures door { seat.new.table_id ≡ seat.old.table_id }
        ensures ticket { (t : ℕ) × (t % 2 ^ 64 ≡ result) × (seat.new.me ≡ (with_ticket t seat.old.me.0, [])) }
    {
        self.table.shared.fetch_add::<Draw>(seat, 0, 1)
    }

    // Waits for the turn of the ticket.
    fn wait<R: Wait>(
        &self,
        rt: &R,
        seat: &mut Seat<Option<T>, Waiter<T::Entry, T::Base>>,
        ticket: u64,
    ) -> T
        requires door { seat.old.table_id ≡ self.now.table }
        requires queued { Queued seat.old.me × (seat.old.me.0.ticket % 2 ^ 64 ≡ ticket) }
        ensures door { seat.new.table_id ≡ seat.old.table_id }
        ensures taken { seat.new.me ≡ (let_in (T.listed result) seat.old.me.0, (0, None) ∷ []) }
        ensures seen { Follows T.names seat.old.me.0.number seat.old.me.0.seen (T.listed result) }
        ensures base { Some (T.base result) ≡ seat.old.me.0.base }
    {
        for _ in rt.forever() {
            if self.table.shared.load::<Arrive<T>>(seat, 1) == ticket {
                return self.table.shared.exchange(seat, 0, None).unwrap();
            }
            thread::yield_now();
        }
        unreachable!()
    }

    /// Waits for the seat's turn, and gives the value. Turns come in the order of tickets, which count modulo 2^64. It takes no
    /// memory.
    pub fn enter<R: Wait>(&self, rt: &R, seat: &mut DoorSeat<T>) -> T
        requires door { IsAt self.now seat.old }
        requires out { seat.old.inside ≡ false }
        ensures inside { seat.new ≡ came_in (T.listed result) seat.old }
        ensures seen { Follows T.names seat.old.number seat.old.seen (T.listed result) }
        ensures base { T.base result ≡ self.now.base }
    {
        let ticket = self.draw(&mut seat.seat);
        self.wait(rt, &mut seat.seat, ticket)
    }

    /// Puts the value back, with its entries or one more, and lets the next one in. It can't be refused, and takes no memory.
    pub fn leave(&self, seat: &mut DoorSeat<T>, value: T)
        requires door { IsAt self.now seat.old }
        requires inside { seat.old.inside ≡ true }
        requires adds { Adds T.names seat.old.number seat.old.seen (T.listed value) }
        requires base { T.base value ≡ self.now.base }
        ensures out { seat.new ≡ gone_out (T.listed value) seat.old }
    {
        let empty = self.table.shared.exchange(&mut seat.seat, 0, Some(value));
        let None = empty else { unreachable!() };
        self.table
            .shared
            .fetch_add::<Serve<T>>(&mut seat.seat, 1, 1);
    }

    // Takes in another seat. What it has seen is kept under its number.
    pub(crate) fn gather(
        &self,
        seat: &mut Seat<Option<T>, Waiter<T::Entry, T::Base>>,
        other: Seat<Option<T>, Waiter<T::Entry, T::Base>>,
    )
        requires door { seat.old.table_id ≡ self.now.table }
        requires other_door { other.table_id ≡ self.now.table }
        requires out { Out seat.old.me × Out other.me }
        ensures door { seat.new.table_id ≡ seat.old.table_id }
        ensures gathered { seat.new.me ≡ (gathered seat.old.me.0 other.me.0, []) }
    {
        self.table.shared.join_seat::<Gather>(seat, other);
    }
}
