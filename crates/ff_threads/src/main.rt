//! Trials on threads: two hands that work on one board, a hand that steals from one that is held, and turns at a door. Prints a
//! line for each, with what it came to.
#![tactic(auto)]

mod boards;
mod doors;
mod hands;
mod systems;

use anyhow::Result;
use ff_tables::{NoMemory, Order};
use std::alloc::Global;
use std::io::Print;
use std::sync::Wait;
use std::thread::Threads;

const BELOW: Order = Order::Below;

// How many threads enter the door, and how often each.
const SEATS: u32 = 2;

const TIMES: u32 = 1000;

// Four panels, each below the next one: all six pairs are below.
fn two_hands<R: Threads + Sync>(rt: &R, alloc: Global) -> Result<String, NoMemory> {
    let given = boards::pins(alloc, &[(0, BELOW), (3, BELOW), (5, BELOW)])?;
    match systems::four_panels(alloc)? {
        Some(case) => hands::closed_by_two(rt, alloc, case, &given),
        None => Ok(String::from_str(alloc, "no case")?),
    }
}

// The first hand sets variable 1 and is held before it examines the third constraint, which is of its share. The second one's own
// share forces nothing, so where it finds variable 2, it has stolen the task of variable 1.
fn stolen<R: Threads + Sync>(rt: &R, alloc: Global) -> Result<String, NoMemory> {
    let given = boards::pins(alloc, &[(0, BELOW)])?;
    match systems::chain(alloc)? {
        Some(case) => hands::stolen(rt, alloc, case, &given, 2),
        None => Ok(String::from_str(alloc, "no case")?),
    }
}

// Two threads that each leave a mark in each of their turns.
fn turns<R: Threads + Wait + Sync>(rt: &R, alloc: Global) -> Result<String, NoMemory> {
    let marks = doors::marked(rt, alloc, SEATS, TIMES)?;
    doors::counted(alloc, marks.as_slice(), SEATS)
}

fn main(rt: HostRuntime) -> Result<()> {
    let alloc = rt.alloc();
    let closed = two_hands(&rt, alloc)?;
    println!(rt; "two hands on one board: {}", closed.as_str())?;
    let found = stolen(&rt, alloc)?;
    println!(rt; "a hand beside one that is held: {}", found.as_str())?;
    let counts = turns(&rt, alloc)?;
    println!(rt; "two threads at a door: {}", counts.as_str())?;
    Ok(())
}
