//! Times what the crates do: `ff_timing WORK`. What was done goes to standard output, the times to standard error.
//!
//! `close N` closes the system of an accordion of N panels, in two orders. `faces` and `layers` take FOLD on standard input and
//! time the calls from it to the folding, and from the folding to the constraints. `epochs` takes what `bench` reads, and times the
//! session on one thread and with workers beside one closure. `orient` and `side_of` make that call 10^8 times, and `crossing` tests each two of 8192
//! segments by `orient`; these print what they count, and are timed from outside.
#![tactic(auto)]

mod accordion;
mod closing;
mod folding;
mod layering;
mod loops;
mod plane;
mod reading;
mod serving;
mod telling;

use anyhow::Result;
use loops::{crossings, lefts, lefts_of_lines};
use plane::{places_of, points_of};
use std::alloc::{AllocError, Global};
use std::env;
use std::io::{Input, Read};

const COUNT: u64 = 10_000;

const SEGMENTS: u64 = 8192;

// What the calls of plane geometry count.
fn counted(alloc: Global, work: &str) -> Result<u64, AllocError> {
    match work {
        "orient" => Ok(lefts(points_of(alloc, COUNT)?.as_slice())),
        "crossing" => Ok(crossings(points_of(alloc, SEGMENTS + 1)?.as_slice())),
        "side_of" => {
            let points = points_of(alloc, COUNT)?;
            let places = places_of(alloc, points.as_slice())?;
            Ok(lefts_of_lines(points.as_slice(), places.as_slice()))
        }
        _ => Ok(0),
    }
}

// All of standard input.
fn input(rt: &(impl Input + AllocGlobal)) -> Result<Vec<u8>> {
    let mut bytes = Vec::new(rt.alloc());
    rt.reader().read_to_end(&mut bytes)?;
    Ok(bytes)
}

fn main(rt: HostRuntime) -> Result<()> {
    let alloc = rt.alloc();
    let words: Vec<String> = env::args(&rt)?.skip(1).collect(alloc)?;
    match words.as_slice() {
        [work, count] if work.as_str() == "close" => {
            closing::time(&rt, alloc, count.parse::<u32>().unwrap_or(2))
        }
        [work] if work.as_str() == "faces" => {
            let bytes = input(&rt)?;
            folding::time(&rt, alloc, bytes.as_slice())
        }
        [work] if work.as_str() == "layers" => {
            let bytes = input(&rt)?;
            layering::time(&rt, alloc, bytes.as_slice())
        }
        [work] if work.as_str() == "epochs" => {
            let bytes = input(&rt)?;
            serving::time(&rt, alloc, bytes.as_slice())
        }
        [work] => {
            println!(rt; "{}", counted(alloc, work.as_str())?)?;
            Ok(())
        }
        _ => Ok(println!(rt; "close N, faces, layers, epochs, orient, side_of or crossing")?),
    }
}
