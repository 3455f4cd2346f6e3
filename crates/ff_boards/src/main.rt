//! Times what is done on a shared board: `ff_boards WORK`. What was done goes to standard output, the times to standard error.
//!
//! `one N` opens a board of an accordion of N panels with its givens, and times one worker beside one closure. `two N` times the work
//! of one hand and that of two hands on two threads. `epoch` takes FOLD on standard input, and times the epochs of its case in which one
//! pin comes and goes, beside one closure.
#![tactic(auto)]

mod accordion;
mod boards;
mod crews;
mod epochs;
mod hands;
mod one;
mod pinning;
mod reading;
mod telling;
mod two;

use anyhow::Result;
use std::alloc::Global;
use std::env;
use std::io::{Input, Print, Read};

// All of standard input.
fn input(rt: &(impl Input + AllocGlobal)) -> Result<Vec<u8>> {
    let mut bytes = Vec::new(rt.alloc());
    rt.reader().read_to_end(&mut bytes)?;
    Ok(bytes)
}

fn main(rt: HostRuntime) -> Result<()> {
    let alloc = rt.alloc();
    let words: Vec<String> = env::args(&rt)?.skip(1).collect(alloc)?;
    match words.as_slice() {
        [work, count] if work.as_str() == "one" => {
            one::time(&rt, alloc, count.parse::<u32>().unwrap_or(2))
        }
        [work, count] if work.as_str() == "two" => {
            two::time(&rt, alloc, count.parse::<u32>().unwrap_or(2))
        }
        [work] if work.as_str() == "epoch" => {
            let bytes = input(&rt)?;
            epochs::time(&rt, alloc, bytes.as_slice())
        }
        _ => Ok(println!(rt; "one N, two N or epoch")?),
    }
}
