//! What viewers and workers do.
ghost use Rattle.std.specs.Prelude.{◌≡◌, ◌<◌, IfOk, IfErr};
ghost use Rattle.ff_journal.specs.Epochs.{viewer_in};
ghost use Rattle.ff_door.specs.Entries.{Follows};
ghost use Rattle.ff_bench.specs.Views.{IsPassOf, IsWorkerOf, left_of};
ghost use Rattle.ff_bench.specs.Turns.{EndsWith, TurnIs, IsSamePass, IsSameWorker};

use crate::bench::Bench;
use crate::passes::{Pass, WorkerPass};
use ff_desk::Turn;
use ff_outside::Gate;
use ff_tables::NoMemory;
use ff_viewer::{Command, Reply};
use std::alloc::Global;
use std::sync::Wait;

impl Bench {
    /// Makes the viewer's next entry, and answers its reply. While epoch 0 isn't published, and for `board` while the last epoch isn't,
    /// it does turns of a worker and tries again. After want of memory no entry was made; publications that its turns made stand.
    pub fn act<R: Wait, G: Gate + Sync>(
        &self,
        rt: &R,
        alloc: Global,
        pass: &mut Pass,
        command: &Command,
        gate: &G,
    ) -> Result<Reply, NoMemory>
        requires pass { IsPassOf self.now pass.old }
        requires left { 0 < left_of pass.old }
        ensures pass { IsPassOf self.now pass.new }
        ensures same { IsSamePass pass.old pass.new }
        ensures done { IfOk result (λ told. EndsWith pass.old.viewer command.now pass.old.seen pass.new.seen told) }
        ensures none { IfErr result (λ _. Follows viewer_in pass.old.viewer pass.old.seen pass.new.seen) }
    {
        let said = self.enter(rt, alloc, &mut pass.place, pass.viewer, command, gate);
        if said.is_ok() {
            pass.made += 1;
        }
        said
    }

    /// A worker's turn. Where an epoch is unpublished it works on a board of the least such, outside the door, and publishes what it
    /// found where that epoch is still unpublished then. Else the search of a demanded part goes on. After want of memory this call
    /// has published nothing.
    pub fn worker_turn<R: Wait, G: Gate + Sync>(
        &self,
        rt: &R,
        alloc: Global,
        pass: &mut WorkerPass,
        gate: &G,
    ) -> Result<Turn, NoMemory>
        requires pass { IsWorkerOf self.now pass.old }
        ensures pass { IsWorkerOf self.now pass.new }
        ensures same { IsSameWorker pass.old pass.new }
        ensures seen { Follows viewer_in pass.old.number pass.old.seen pass.new.seen }
        ensures turns { pass.old.turns < pass.new.turns }
        ensures turn { IfOk result (λ t. TurnIs self.now.door.base pass.old.number pass.old.seen pass.new.seen t) }
    {
        self.turn_with(rt, alloc, &mut pass.place, &mut pass.hand, gate)
    }
}
