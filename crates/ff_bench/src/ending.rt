//! The end of a workbench.
ghost use Rattle.std.specs.Prelude.{◌≡◌, ◌+◌, ◌<◌, ◌≤◌, ℕ, IfOk, length, slice_get, Some, vec_capacity};
ghost use Rattle.ff_door.specs.Views.{AreOutside};
ghost use Rattle.ff_bench.specs.Runs.{ArePasses, AreWorkers, IsSeatOf, IsWorkerSeat, HaveSeats, AreKept, HoldsAll, HoldsSeen, HoldsSeats, IsEnded};

use crate::bench::Bench;
use crate::passes::{Pass, WorkerPass};
use crate::places::Place;
use ff_desk::Desk;
use ff_door::DoorSeat;
use ff_journal::Entry;
use ff_tables::{Items, NoMemory};
use std::alloc::Global;

// The seat of a viewer's pass.
fn seat_of(pass: Pass) -> DoorSeat<Desk>
    ensures { IsSeatOf pass result }
{
    let Pass { place, .. } = pass;
    let Place { seat, .. } = place;
    seat
}

// The seat of a worker's pass.
fn worker_seat_of(pass: WorkerPass) -> DoorSeat<Desk>
    ensures { IsWorkerSeat pass result }
{
    let WorkerPass { place, .. } = pass;
    let Place { seat, .. } = place;
    seat
}

impl Bench {
    // Puts the seats of all passes into the list.
    fn gather_passes(&self, seats: &mut Vec<DoorSeat<Desk>>, mut passes: Vec<Pass>)
        requires passes { ArePasses self.now passes.items }
        requires seats { AreOutside self.now.door seats.old.items }
        requires room { length seats.old.items + length passes.items ≤ vec_capacity seats.old }
        ensures seats { AreOutside self.now.door seats.new.items }
        ensures all { HaveSeats IsSeatOf passes.items seats.new.items }
        ensures kept { AreKept seats.old.items seats.new.items }
        ensures count { length seats.new.items ≡ length seats.old.items + length passes.items }
        ensures room { vec_capacity seats.new ≡ vec_capacity seats.old }
    {
        while let Some(pass) = passes.pop() {
            seats.push_reserved(seat_of(pass));
        }
    }

    // The same of workers.
    fn gather_workers(&self, seats: &mut Vec<DoorSeat<Desk>>, mut workers: Vec<WorkerPass>)
        requires workers { AreWorkers self.now workers.items }
        requires seats { AreOutside self.now.door seats.old.items }
        requires room { length seats.old.items + length workers.items ≤ vec_capacity seats.old }
        ensures seats { AreOutside self.now.door seats.new.items }
        ensures all { HaveSeats IsWorkerSeat workers.items seats.new.items }
        ensures kept { AreKept seats.old.items seats.new.items }
        ensures count { length seats.new.items ≡ length seats.old.items + length workers.items }
    {
        while let Some(worker) = workers.pop() {
            seats.push_reserved(worker_seat_of(worker));
        }
    }

    // Closes the door with all seats, publishes what is left and gives the journal.
    fn close(self, alloc: Global, seats: Vec<DoorSeat<Desk>>) -> Result<Items<Entry>, NoMemory>
        requires seats { AreOutside self.door seats.items }
        requires all { length seats.items ≡ length self.door.base.lengths + self.hands }
        ensures holds { IfOk result (λ journal. HoldsSeats seats.items journal) }
        ensures ended { IfOk result (λ journal. IsEnded self journal) }
    {
        let Bench { door, .. } = self;
        let mut desk = door.close(seats);
        desk.publish_all(alloc)?;
        desk.is_desk();
        Ok(desk.into_journal())
    }

    /// Publishes what is left and gives the journal. It needs all passes that `open_bench` gave.
    pub fn finish(
        self,
        alloc: Global,
        passes: Vec<Pass>,
        workers: Vec<WorkerPass>,
    ) -> Result<Items<Entry>, NoMemory>
        requires passes { ArePasses self passes.items × (length passes.items ≡ length self.door.base.lengths) }
        requires workers { AreWorkers self workers.items × (length workers.items ≡ self.hands) }
        ensures passes { IfOk result (λ journal. HoldsAll passes.items journal) }
        ensures workers { IfOk result (λ journal. HoldsSeen workers.items journal) }
        ensures ended { IfOk result (λ journal. IsEnded self journal) }
    {
        let mut seats = Vec::with_capacity(alloc, passes.len() + workers.len())?;
        self.gather_passes(&mut seats, passes);
        self.gather_workers(&mut seats, workers);
        self.close(alloc, seats)
    }
}
