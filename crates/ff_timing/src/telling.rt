//! What is told of a call: its time on standard error, what it came to on standard output.
use anyhow::Result;
use ff_types::No;
use std::fmt::Display;
use std::io::{Eprint, Print};

/// How long a call took.
pub fn tell_time(rt: &impl Eprint, call: &str, micros: u128) -> Result<()> {
    eprintln!(rt; "{call} {micros} us")?;
    Ok(())
}

/// What a call came to.
pub fn tell(rt: &impl Print, what: &str, found: impl Display + Drop) -> Result<()> {
    println!(rt; "{what} {found}")?;
    Ok(())
}

/// Why a call came to nothing.
pub fn tell_no(rt: &impl Print, what: &str, no: No) -> Result<()> {
    println!(rt; "{what} {no}")?;
    Ok(())
}
