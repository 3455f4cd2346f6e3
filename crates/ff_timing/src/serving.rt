//! The epochs of a workbench, on one thread and with workers.
ghost use Rattle.std.specs.Prelude.{◌<◌, ◌≤◌, ◌^◌, length};

use crate::telling::{tell, tell_no, tell_time};
use anyhow::Result;
use ff_outside::NoGate;
use ff_problem::problem;
use ff_propagate::{close, givens_fit};
use ff_read::read_bench;
use ff_session::{session_alone, session_of};
use ff_types::{Case, Pattern};
use std::alloc::Global;
use std::io::{Eprint, Print};
use std::rt::Clock;
use std::sync::Wait;
use std::thread::Threads;
use std::time::Instant;

// The turns of each part.
const BUDGET: u64 = 1_000_000;

// The closure of the creases.
fn time_close(rt: &(impl Clock + Eprint), alloc: Global, case: &Case) -> Result<()> {
    let system = &case.system;
    let starts = case.starts.as_slice();
    let count = system.constraints.as_slice().len();
    if !givens_fit(system.vars, starts) || count >= 1 << 32 || starts.len() >= 1 << 32 {
        return Ok(());
    }
    let start = Instant::now(rt)?;
    let closed = close(alloc, system, &case.starts);
    tell_time(rt, "close", start.elapsed(rt)?.as_micros())?;
    closed?;
    Ok(())
}

// What comes before the first epoch, and one closure.
fn time_before(rt: &(impl Clock + Print + Eprint), alloc: Global, pattern: &Pattern) -> Result<()>
    requires { 1 ≤ length pattern.now.points }
{
    let start = Instant::now(rt)?;
    let found = problem(alloc, pattern);
    tell_time(rt, "problem", start.elapsed(rt)?.as_micros())?;
    match found {
        Ok(found) => time_close(rt, alloc, &found.case),
        Err(no) => tell_no(rt, "problem", no),
    }
}

// The whole on one thread, from bytes to the journal.
fn time_alone(rt: &(impl Clock + Print + Eprint), alloc: Global, bytes: &[u8]) -> Result<()>
    requires { length bytes.now < 2 ^ 32 }
{
    let start = Instant::now(rt)?;
    let found = session_alone(alloc, bytes, BUDGET, &NoGate);
    tell_time(rt, "session", start.elapsed(rt)?.as_micros())?;
    match found {
        Ok(core) => tell(rt, "entries", core.journal().as_slice().len()),
        Err(no) => tell_no(rt, "session", no),
    }
}

// The same with workers.
fn time_workers<R: Clock + Print + Eprint + Threads + Wait + Sync>(
    rt: &R,
    alloc: Global,
    bytes: &[u8],
    workers: u32,
    name: &str,
) -> Result<()>
    requires few { length bytes.now < 2 ^ 32 }
    requires workers { (0 < workers) × (workers ≤ 16) }
{
    let start = Instant::now(rt)?;
    let found = session_of(rt, alloc, bytes, BUDGET, workers, &NoGate);
    tell_time(rt, name, start.elapsed(rt)?.as_micros())?;
    match found {
        Ok(journal) => tell(rt, name, journal.as_slice().len()),
        Err(no) => tell_no(rt, name, no),
    }
}

/// Times the session of a `bench` input on one thread and with 1, 2 and 4 workers, and of its parts reading, the pattern's case and one
/// closure of its creases.
pub fn time<R: Clock + Print + Eprint + Threads + Wait + Sync>(
    rt: &R,
    alloc: Global,
    bytes: &[u8],
) -> Result<()> {
    if bytes.len() >= 1 << 32 {
        return Ok(());
    }
    time_alone(rt, alloc, bytes)?;
    time_workers(rt, alloc, bytes, 1, "workers 1")?;
    time_workers(rt, alloc, bytes, 2, "workers 2")?;
    time_workers(rt, alloc, bytes, 4, "workers 4")?;
    let start = Instant::now(rt)?;
    let read = read_bench(alloc, bytes);
    tell_time(rt, "read", start.elapsed(rt)?.as_micros())?;
    match read {
        Ok(input) if input.pattern.points.as_slice().len() > 0 => {
            time_before(rt, alloc, &input.pattern)
        }
        Ok(_) => Ok(()),
        Err(no) => tell_no(rt, "read", no),
    }
}
