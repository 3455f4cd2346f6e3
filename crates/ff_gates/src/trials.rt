//! The trials. The case is that of three panels over one place, folded at each of two creases that may fold either way.
ghost use Rattle.std.specs.Prelude.{◌<◌, ◌≤◌};

use crate::orders::Comes;
use crate::runs::told;
use crate::scripts::{Said, Script, of_one, of_two, script};
use crate::stops;
use ff_signal::Stops;
use ff_tables::{NoMemory, Order};
use ff_trials::strip;
use std::alloc::Global;
use std::sync::Wait;
use std::thread::Threads;

// The most commands of a script.
const MOST: usize = 16;

// A trial of one viewer and one worker.
fn one_viewer<R: Threads + Wait + Sync>(
    rt: &R,
    alloc: Global,
    only: Script,
    stops: &Stops,
) -> Result<String, NoMemory> {
    if only.as_slice().len() > MOST {
        return Ok(String::from_str(alloc, "no room")?);
    }
    let scripts = of_one(alloc, only)?;
    told(rt, alloc, strip(alloc, 3)?, &scripts, 1, stops)
}

// A trial of two viewers.
fn both_viewers<R: Threads + Wait + Sync>(
    rt: &R,
    alloc: Global,
    first: Script,
    second: Script,
    workers: u32,
    stops: &Stops,
) -> Result<String, NoMemory> {
    let long = first.as_slice().len() > MOST || second.as_slice().len() > MOST;
    if long || workers == 0 || workers > 16 {
        return Ok(String::from_str(alloc, "no room")?);
    }
    let scripts = of_two(alloc, first, second)?;
    told(rt, alloc, strip(alloc, 3)?, &scripts, workers, stops)
}

/// A worker is held at its first turn until a viewer has looked: the viewer doesn't wait for it, since it publishes epoch 0 itself.
pub fn look_beside_a_worker<R: Threads + Wait + Sync>(
    rt: &R,
    alloc: Global,
) -> Result<String, NoMemory> {
    let only = script(alloc, &[Said::Look])?;
    one_viewer(rt, alloc, only, &stops::beside_a_worker(alloc)?)
}

/// Two viewers are each held after a look until the other has looked: neither waits for the other's end.
pub fn two_viewers<R: Threads + Wait + Sync>(rt: &R, alloc: Global) -> Result<String, NoMemory> {
    let first = script(alloc, &[Said::Look])?;
    let second = script(alloc, &[Said::Look])?;
    both_viewers(rt, alloc, first, second, 1, &stops::two_viewers(alloc)?)
}

/// A worker that deduces is held at a task until a viewer has looked: what it deduces is done outside the door, and the viewer still
/// sees the epoch before.
pub fn look_during_a_task<R: Threads + Wait + Sync>(
    rt: &R,
    alloc: Global,
) -> Result<String, NoMemory> {
    let only = script(alloc, &[Said::Pin(0, 1, Order::Below), Said::Look])?;
    one_viewer(rt, alloc, only, &stops::during_a_task(alloc)?)
}

/// One viewer looks, pins and unpins a pair, and another looks and pins it the other way, in this order.
pub fn in_order<R: Threads + Wait + Sync>(
    rt: &R,
    alloc: Global,
    order: Comes,
    workers: u32,
) -> Result<String, NoMemory> {
    let pin = Said::Pin(0, 2, Order::Above);
    let first = script(alloc, &[Said::Look, pin, Said::Unpin(0, 2)])?;
    let second = script(alloc, &[Said::Look, Said::Pin(0, 2, Order::Below)])?;
    both_viewers(
        rt,
        alloc,
        first,
        second,
        workers,
        &stops::in_order(alloc, order)?,
    )
}
