//! The stops of the trials.
use crate::orders::Comes;
use ff_outside::GateAt;
use ff_signal::{Stop, Stops};
use ff_tables::NoMemory;
use std::alloc::Global;

// How often what is held looks before it goes on.
const LOOKS: u32 = 5_000_000;

// The first turn of worker 0.
const TURN: GateAt = GateAt::WorkerTurn { worker: 0 };

// After this answer of this viewer.
fn answered(viewer: u32, index: u32) -> Stop {
    Stop::new(GateAt::Answered { viewer, index }, 0)
}

/// Worker 0 is held at its first turn until viewer 0 has its first answer.
pub fn beside_a_worker(alloc: Global) -> Result<Stops, NoMemory> {
    let mut list = Vec::new(alloc);
    list.push(Stop::new(TURN, 0).until(1))?;
    list.push(answered(0, 0))?;
    Ok(Stops { list, looks: LOOKS })
}

/// Each of two viewers is held after its first answer until the other has its first one.
pub fn two_viewers(alloc: Global) -> Result<Stops, NoMemory> {
    let mut list = Vec::new(alloc);
    list.push(answered(0, 0).until(1))?;
    list.push(answered(1, 0).until(0))?;
    Ok(Stops { list, looks: LOOKS })
}

/// Worker 0 is held at its first turn until viewer 0 has its first answer; then the viewer until the next task, and that task until
/// the viewer has its second answer.
pub fn during_a_task(alloc: Global) -> Result<Stops, NoMemory> {
    let mut list = Vec::new(alloc);
    list.push(Stop::new(TURN, 0).until(1))?;
    list.push(answered(0, 0).until(2))?;
    list.push(Stop::new(GateAt::Task, 0).after(1).until(3))?;
    list.push(answered(0, 1))?;
    Ok(Stops { list, looks: LOOKS })
}

/// The two viewers make their entries in this order: the first looks, pins and unpins, the second looks and pins.
pub fn in_order(alloc: Global, order: Comes) -> Result<Stops, NoMemory> {
    let mut list = Vec::new(alloc);
    match order {
        Comes::Before => {
            list.push(answered(0, 0).until(2))?;
            list.push(answered(1, 0).until(0))?;
            list.push(answered(1, 1))?;
        }
        Comes::Between => {
            list.push(answered(0, 0).until(1))?;
            list.push(answered(1, 0).until(2))?;
            list.push(answered(0, 1).until(3))?;
            list.push(answered(1, 1))?;
        }
        Comes::After => {
            list.push(answered(0, 0).until(1))?;
            list.push(answered(1, 0).until(2))?;
            list.push(answered(0, 2))?;
        }
    }
    Ok(Stops { list, looks: LOOKS })
}
