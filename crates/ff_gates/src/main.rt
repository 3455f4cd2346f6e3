//! Trials of a workbench on threads that are held at gates. Prints for each what became of its stops, and then the entries of each
//! viewer.
#![tactic(auto)]

mod orders;
mod runs;
mod scripts;
mod stops;
mod telling;
mod trials;

use anyhow::Result;
use std::alloc::Global;
use std::io::Print;
use std::sync::Wait;
use std::thread::Threads;

// How many workers the trials of orders are run with.
const CREWS: [u32; 3] = [1, 2, 16];

// The three trials of what doesn't wait for what.
fn try_gates<R: Threads + Wait + Sync + Print>(rt: &R, alloc: Global) -> Result<()> {
    let looked = trials::look_beside_a_worker(rt, alloc)?;
    println!(rt;
        "a worker is held until a viewer has looked: {}",
        looked.as_str()
    )?;
    let both = trials::two_viewers(rt, alloc)?;
    println!(rt;
        "two viewers are held until both have looked: {}",
        both.as_str()
    )?;
    let outside = trials::look_during_a_task(rt, alloc)?;
    println!(rt;
        "a task is held until a viewer has looked: {}",
        outside.as_str()
    )?;
    Ok(())
}

// The trials of orders in which entries come, with so many workers.
fn try_orders<R: Threads + Wait + Sync + Print>(rt: &R, alloc: Global, workers: u32) -> Result<()> {
    for order in orders::ALL {
        let told = trials::in_order(rt, alloc, order, workers)?;
        println!(rt; "{order}, workers {workers}: {}", told.as_str())?;
    }
    Ok(())
}

fn main(rt: HostRuntime) -> Result<()> {
    let alloc = rt.alloc();
    try_gates(&rt, alloc)?;
    for workers in CREWS {
        try_orders(&rt, alloc, workers)?;
    }
    Ok(())
}
