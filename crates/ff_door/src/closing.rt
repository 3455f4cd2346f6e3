//! The end of a door.
ghost use Rattle.std.specs.Prelude.{◌≡◌, ℕ, ◌+◌, ◌<◌, Some, slice_get, length};
ghost use Rattle.ff_door.specs.Entries.{Follows};
ghost use Rattle.ff_door.specs.Rule.{Out};
ghost use Rattle.ff_door.specs.Views.{AreOutside, AreJoined, SeatView};

use crate::door::{Door, DoorSeat};
use crate::kept::Kept;
use crate::waiter::Waiter;
use atomic_table::Seat;

impl<T: Kept> Door<T> {
    // Takes in all seats, the last first.
    fn gather_all(
        &self,
        head: &mut Seat<Option<T>, Waiter<T::Entry, T::Base>>,
        mut seats: Vec<DoorSeat<T>>,
    )
        requires door { head.old.table_id ≡ self.now.table }
        requires out { Out head.old.me }
        requires seats { AreOutside self.now seats.items }
        ensures door { head.new.table_id ≡ head.old.table_id }
        ensures out { Out head.new.me }
        ensures number { head.new.me.0.number ≡ head.old.me.0.number }
        ensures seen { head.new.me.0.seen ≡ head.old.me.0.seen }
        ensures parts { head.new.me.0.parts ≡ head.old.me.0.parts + length seats.items }
        ensures joined { AreJoined seats.items head.new.me.0.joined }
    {
        while let Some(other) = seats.pop() {
            let DoorSeat { seat } = other;
            self.gather(head, seat);
        }
    }

    /// Ends the door, all of whose seats are outside, and gives its value: its entries begin with all that each seat had
    /// seen, and past these none names that seat. It takes no memory.
    pub fn close(self, mut seats: Vec<DoorSeat<T>>) -> T
        requires seats { AreOutside self seats.items }
        requires all { length seats.items ≡ self.seats }
        ensures seen { (k : ℕ) (s : SeatView T.Entry T.Base) → slice_get seats.items k ≡ Some s
            → Follows T.names s.number s.seen (T.listed result) }
        ensures base { T.base result ≡ self.base }
    {
        let Some(last) = seats.pop() else {
            unreachable!()
        };
        let DoorSeat { seat: mut head } = last;
        self.gather_all(&mut head, seats);
        let Door { table } = self;
        let mut closed = table.close_with(head);
        let value = closed.take(0);
        closed.free();
        value.unwrap()
    }
}
