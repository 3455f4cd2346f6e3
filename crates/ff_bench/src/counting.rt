//! Turns of searches are counted.
ghost use Rattle.std.specs.Prelude.{◌≡◌};
ghost use Rattle.ff_journal.specs.Epochs.{viewer_in};
ghost use Rattle.ff_door.specs.Entries.{Follows};
ghost use Rattle.ff_bench.specs.Views.{IsPlaceOf, IsPassOf, left_of};
ghost use Rattle.ff_bench.specs.Turns.{HasGone, IsSamePass, TellsTurns};

use crate::bench::Bench;
use crate::passes::Pass;
use crate::places::Place;
use ff_door::Kept;
use std::sync::Wait;

impl Bench {
    // One turn at the door: the turns of all searches.
    fn count<R: Wait>(&self, rt: &R, place: &mut Place) -> u64
        requires place { IsPlaceOf self.now place.old }
        ensures place { IsPlaceOf self.now place.new }
        ensures gone { HasGone place.old place.new }
        ensures told { TellsTurns self.now.door.base place.old.number place.old.seen place.new.seen result }
    {
        let desk = self.door.enter(rt, &mut place.seat);
        desk.is_desk();
        let visited = desk.turns();
        place.entries = desk.entries();
        self.door.leave(&mut place.seat, desk);
        visited
    }

    /// The turns of the nodes that all searches of this bench have visited, those whose pages were dropped included, at its turn at the
    /// door. It makes no entry, and takes no memory.
    pub fn turns<R: Wait>(&self, rt: &R, pass: &mut Pass) -> u64
        requires pass { IsPassOf self.now pass.old }
        ensures pass { IsPassOf self.now pass.new }
        ensures same { IsSamePass pass.old pass.new }
        ensures left { left_of pass.new ≡ left_of pass.old }
        ensures seen { Follows viewer_in pass.old.viewer pass.old.seen pass.new.seen }
        ensures turns { TellsTurns self.now.door.base pass.old.viewer pass.old.seen pass.new.seen result }
    {
        self.count(rt, &mut pass.place)
    }
}
