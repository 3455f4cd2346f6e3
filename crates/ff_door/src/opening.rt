//! The start of a door.
ghost use Rattle.std.specs.Prelude.{◌≡◌, ℕ, ◌+◌, ◌<◌, true, [], length, IfOk};
ghost use Rattle.ff_door.specs.Entries.{Silent};
ghost use Rattle.ff_door.specs.Rule.{Out, maker, left_over, cut_off};
ghost use Rattle.ff_door.specs.Views.{AreNew};

use crate::door::{Door, DoorSeat};
use crate::kept::Kept;
use crate::waiter::{Parts, Plan, Waiter};
use atomic_table::{Seat, Table};
use ff_tables::NoMemory;
use std::alloc::Global;
use std::snapshot::Snapshot;

impl<T: Kept> Door<T> {
    // Cuts off the next seat. It makes the seats after it.
    fn split(
        &self,
        seat: &mut Seat<Option<T>, Waiter<T::Entry, T::Base>>,
    ) -> Seat<Option<T>, Waiter<T::Entry, T::Base>>
        requires door { seat.old.table_id ≡ self.now.table }
        requires out { Out seat.old.me × (seat.old.me.0.makes ≡ true) × (1 < seat.old.me.0.parts) }
        ensures door { (seat.new.table_id ≡ seat.old.table_id) × (result.table_id ≡ seat.old.table_id) }
        ensures old { seat.new.me ≡ (left_over seat.old.me.0, []) }
        ensures new { result.me ≡ (cut_off seat.old.me.0, []) }
    {
        self.table.shared.split_seat::<Parts>(seat)
    }
}

// A door, and the seat that makes the others.
fn make<T: Kept + Drop>(
    alloc: Global,
    value: T,
    seats: u32,
) -> Result<(Door<T>, Seat<Option<T>, Waiter<T::Entry, T::Base>>), NoMemory>
    requires some { 0 < seats }
    requires silent { (k : ℕ) → Silent T.names k (T.listed value) }
    ensures { IfOk result (λ r. (r.0.base ≡ T.base value) × (r.0.seats ≡ seats) × (r.1.table_id ≡ r.0.table)
        × (r.1.me ≡ (maker (T.base value) seats, []))) }
{
    let key = Plan {
        first: Snapshot::of(&value),
        seats,
    };
    let mut slots = Vec::new(alloc);
    slots.push(Some(value))?;
    match Table::new(alloc, &[0, 0], slots, &key) {
        Ok((table, seat)) => Ok((Door { table }, seat)),
        Err(_refused) => Err(NoMemory),
    }
}

/// A door with the value behind it, and its seats, numbered from 0 in the order of the list. They have seen no entry and have
/// had no turn. No entry of the value names a seat.
pub fn new_door<T: Kept + Drop>(
    alloc: Global,
    value: T,
    seats: u32,
) -> Result<(Door<T>, Vec<DoorSeat<T>>), NoMemory>
    requires some { 0 < seats }
    requires silent { (k : ℕ) → Silent T.names k (T.listed value) }
    ensures { IfOk result (λ r. (r.0.base ≡ T.base value) × (r.0.seats ≡ seats) × AreNew r.0 r.1.items) }
{
    let mut all = Vec::with_capacity(alloc, seats as usize)?;
    let (door, mut seat) = make(alloc, value, seats)?;
    for _i in 1..seats {
        let next = door.split(&mut seat);
        all.push_reserved(DoorSeat { seat });
        seat = next;
    }
    all.push_reserved(DoorSeat { seat });
    Ok((door, all))
}
