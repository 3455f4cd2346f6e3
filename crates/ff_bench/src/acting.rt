//! Entries of viewers.
ghost use Rattle.std.specs.Prelude.{◌≡◌, ◌<◌, IfOk, IfErr, length, slice_index};
ghost use Rattle.ff_journal.specs.Epochs.{viewer_in};
ghost use Rattle.ff_journal.specs.Journals.{commands_of};
ghost use Rattle.ff_door.specs.Entries.{Follows};
ghost use Rattle.ff_bench.specs.Views.{IsPlaceOf};
ghost use Rattle.ff_bench.specs.Turns.{ActIs, EndsWith};

use crate::bench::Bench;
use crate::places::Place;
use ff_door::Kept;
use ff_outside::Gate;
use ff_tables::NoMemory;
use ff_viewer::{Command, Reply};
use std::alloc::Global;
use std::sync::Wait;

impl Bench {
    // One turn at the door: the entry, where no publication is waited for.
    fn try_enter<R: Wait>(
        &self,
        rt: &R,
        alloc: Global,
        place: &mut Place,
        viewer: u32,
        command: &Command,
    ) -> Option<Result<Reply, NoMemory>>
        requires place { IsPlaceOf self.now place.old }
        requires viewer { place.old.number ≡ viewer }
        requires left { length (commands_of viewer place.old.seen) < slice_index self.now.door.base.lengths viewer }
        ensures place { IsPlaceOf self.now place.new }
        ensures number { place.new.number ≡ place.old.number }
        ensures said { ActIs viewer command.now place.old.seen place.new.seen result }
    {
        let mut desk = self.door.enter(rt, &mut place.seat);
        let said = desk.try_say(alloc, viewer, command);
        desk.is_desk();
        place.entries = desk.entries();
        self.door.leave(&mut place.seat, desk);
        said
    }

    /// The viewer's next entry. While a publication is waited for, turns of a worker are done.
    pub(crate) fn enter<R: Wait, G: Gate + Sync>(
        &self,
        rt: &R,
        alloc: Global,
        place: &mut Place,
        viewer: u32,
        command: &Command,
        gate: &G,
    ) -> Result<Reply, NoMemory>
        requires place { IsPlaceOf self.now place.old }
        requires viewer { place.old.number ≡ viewer }
        requires left { length (commands_of viewer place.old.seen) < slice_index self.now.door.base.lengths viewer }
        ensures place { IsPlaceOf self.now place.new }
        ensures number { place.new.number ≡ place.old.number }
        ensures done { IfOk result (λ told. EndsWith viewer command.now place.old.seen place.new.seen told) }
        ensures none { IfErr result (λ _. Follows viewer_in viewer place.old.seen place.new.seen) }
    {
        for _ in rt.forever() {
            if let Some(said) = self.try_enter(rt, alloc, place, viewer, command) {
                return said;
            }
            self.turn(rt, alloc, place, gate)?;
        }
        unreachable!()
    }
}
