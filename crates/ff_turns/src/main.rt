//! Trials of how far the searches of a workbench have come. Prints a line for each, with what it came to.
#![tactic(auto)]

mod opening;
mod trying;
mod turning;

use anyhow::Result;
use std::io::Print;

fn main(rt: HostRuntime) -> Result<()> {
    let alloc = rt.alloc();
    let kept = trying::kept(&rt, alloc)?;
    println!(rt; "the same page twice: {}", kept.as_str())?;
    let searched = trying::searched(&rt, alloc)?;
    println!(rt; "a page, and then all of a part: {}", searched.as_str())?;
    Ok(())
}
