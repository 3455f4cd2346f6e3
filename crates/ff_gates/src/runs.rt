//! Runs of a workbench.
ghost use Rattle.std.specs.Prelude.{◌≡◌, ◌<◌, ◌≤◌, ◌^◌, IsTrue, length};
ghost use Rattle.ff_bench.specs.Runs.{lengths_in};
ghost use Rattle.ff_desk.specs.Views.{total};

use crate::scripts::Script;
use crate::telling::by_viewers;
use ff_bench::run;
use ff_signal::Stops;
use ff_tables::{Items, NoMemory};
use ff_types::Case;
use std::alloc::Global;
use std::sync::Wait;
use std::thread::Threads;

// The turns that a search may take.
const BUDGET: u64 = 1 << 20;

// Whether a workbench has room for the case.
fn is_small(case: &Case) -> bool
    ensures vars { IsTrue result → case.now.system.vars ≤ 2 ^ 18 }
    ensures constraints { IsTrue result → length case.now.system.constraints ≤ 2 ^ 22 }
    ensures starts { IsTrue result → length case.now.starts < 2 ^ 21 }
{
    case.system.vars <= 1 << 18
        && case.system.constraints.as_slice().len() <= 1 << 22
        && case.starts.as_slice().len() < 1 << 21
}

/// What became of the stops of a run, and the entries of each viewer.
pub fn told<R: Threads + Wait + Sync>(
    rt: &R,
    alloc: Global,
    case: Option<Case>,
    scripts: &Items<Script>,
    workers: u32,
    stops: &Stops,
) -> Result<String, NoMemory>
    requires viewers { length (lengths_in scripts.now) ≤ 2 }
    requires commands { total (lengths_in scripts.now) ≤ 32 }
    requires workers { (0 < workers) × (workers ≤ 16) }
{
    let Some(case) = case else {
        return Ok(String::from_str(alloc, "no case")?);
    };
    if !is_small(&case) {
        return Ok(String::from_str(alloc, "no room")?);
    }
    let journal = run(rt, alloc, case, BUDGET, scripts, workers, stops)?;
    let entries = by_viewers(alloc, journal.as_slice())?;
    Ok(format!(in alloc; "{}\n{}", stops.told(), entries.as_str())?)
}
