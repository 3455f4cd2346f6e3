//! Opens a workbench.
ghost use Rattle.std.specs.Prelude.{◌≡◌, ◌+◌, ◌<◌, ◌≤◌, IfOk, length, slice_index};
ghost use Rattle.ff_door.specs.Views.{IsNew};
ghost use Rattle.ff_desk.specs.Desks.{IsFew};
ghost use Rattle.ff_bench.specs.Runs.{IsNewPass, IsNewWorker, AreNewPasses, AreNewWorkers};
ghost use Rattle.ff_bench.specs.Dealt.{AreBackward, AreHandsBackward};

use crate::bench::Bench;
use crate::passes::{Pass, WorkerPass};
use crate::places::Place;
use ff_desk::Desk;
use ff_door::{DoorSeat, new_door};
use ff_steal::{Hand, crew};
use ff_tables::{Items, NoMemory};
use ff_types::Case;
use std::alloc::Global;

impl Bench {
    // A viewer's pass with a new seat.
    fn pass_of(&self, seat: DoorSeat<Desk>, viewer: u32, commands: u32) -> Pass
        requires seat { IsNew self.now.door viewer seat }
        requires commands { commands ≡ slice_index self.now.door.base.lengths viewer }
        ensures { IsNewPass self.now viewer result }
    {
        Pass {
            place: Place { seat, entries: 0 },
            viewer,
            commands,
            made: 0,
        }
    }

    // A worker's pass with a new seat.
    fn worker_of(&self, seat: DoorSeat<Desk>, hand: Hand) -> WorkerPass
        requires seat { IsNew self.now.door seat.number seat }
        requires hand { (hand.of ≡ self.now.hands) × (hand.number < hand.of) }
        ensures { IsNewWorker self.now hand.number result }
    {
        WorkerPass {
            place: Place { seat, entries: 0 },
            hand,
        }
    }

    // The passes of all viewers, with the seats at the end of the list.
    fn deal_passes(
        &self,
        alloc: Global,
        seats: &mut Vec<DoorSeat<Desk>>,
        lengths: &[u32],
    ) -> Result<Vec<Pass>, NoMemory>
        requires lengths { lengths.now ≡ self.now.door.base.lengths }
        requires seats { AreBackward self.now.door self.now.door.seats seats.old.items × (length seats.old.items ≡ self.now.door.seats) }
        requires few { (length lengths.now ≤ self.now.door.seats) × (length lengths.now ≤ 64) }
        ensures passes { IfOk result (λ passes. AreNewPasses self.now passes.items) }
        ensures seats { IfOk result (λ _. AreBackward self.now.door self.now.door.seats seats.new.items × (length seats.new.items + length lengths.now ≡ self.now.door.seats)) }
    {
        let mut passes = Vec::with_capacity(alloc, lengths.len())?;
        for viewer in 0..lengths.len() as u32 {
            let Some(seat) = seats.pop() else {
                unreachable!()
            };
            passes.push_reserved(self.pass_of(seat, viewer, lengths[viewer as usize]));
        }
        Ok(passes)
    }

    // The passes of all workers, with the seats and the hands at the ends of the lists.
    fn deal_workers(
        &self,
        alloc: Global,
        seats: &mut Vec<DoorSeat<Desk>>,
        hands: &mut Vec<Hand>,
        count: u32,
    ) -> Result<Vec<WorkerPass>, NoMemory>
        requires count { count ≡ self.now.hands }
        requires seats { AreBackward self.now.door self.now.door.seats seats.old.items × (length seats.old.items ≡ count) }
        requires hands { AreHandsBackward count hands.old.items × (length hands.old.items ≡ count) }
        ensures { IfOk result (λ workers. AreNewWorkers self.now workers.items) }
    {
        let mut workers = Vec::with_capacity(alloc, count as usize)?;
        for worker in 0..count {
            let Some(seat) = seats.pop() else {
                unreachable!()
            };
            let Some(hand) = hands.pop() else {
                unreachable!()
            };
            let _ = worker;
            workers.push_reserved(self.worker_of(seat, hand));
        }
        Ok(workers)
    }
}

/// A workbench over the case, with a pass for each viewer, whose script has as many commands as its length says, and one for each worker,
/// each list numbered from 0 in its order. Epoch 0 is opened, and nothing is published. It has room for all entries. After want of memory
/// nothing is kept.
pub fn open_bench(
    alloc: Global,
    case: Case,
    lengths: Items<u32>,
    workers: u32,
    budget: u64,
) -> Result<(Bench, Vec<Pass>, Vec<WorkerPass>), NoMemory>
    requires few { IsFew record { case = case; budget = budget; lengths = lengths } }
    requires workers { (0 < workers) × (workers ≤ 16) }
    ensures base { IfOk result (λ r. r.0.door.base ≡ record { case = case; budget = budget; lengths = lengths }) }
    ensures hands { IfOk result (λ r. r.0.hands ≡ workers) }
    ensures passes { IfOk result (λ r. AreNewPasses r.0 r.1.items) }
    ensures workers_passes { IfOk result (λ r. AreNewWorkers r.0 r.2.items) }
{
    let sizes = lengths.copy(alloc)?;
    let count = sizes.as_slice().len() as u32;
    let desk = Desk::open(alloc, case, lengths, budget)?;
    let (door, mut seats) = new_door(alloc, desk, count + workers)?;
    let (crew, mut hands) = crew(alloc, workers)?;
    let bench = Bench { door, crew };
    // the lists are taken from their ends
    seats.reverse();
    hands.reverse();
    let passes = bench.deal_passes(alloc, &mut seats, sizes.as_slice())?;
    let all = bench.deal_workers(alloc, &mut seats, &mut hands, workers)?;
    Ok((bench, passes, all))
}
