//! What is told: how long a call took on standard error, what was done on standard output.
use anyhow::Result;
use ff_tables::System;
use std::io::{Eprint, Print};
use std::rt::Clock;
use std::time::Instant;

/// How long ago a call began.
pub fn tell_since(rt: &(impl Clock + Eprint), call: &str, start: &Instant) -> Result<()> {
    let micros = start.elapsed(rt)?.as_micros();
    eprintln!(rt; "{call} {micros} us")?;
    Ok(())
}

/// How large a system is.
pub fn tell_system(rt: &impl Print, system: &System) -> Result<()> {
    let count = system.constraints.as_slice().len();
    println!(rt; "variables {} constraints {count}", system.vars)?;
    Ok(())
}
