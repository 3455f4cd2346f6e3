//! The workbenches of the trials, each with one viewer and one worker.
ghost use Rattle.std.specs.Prelude.{◌≡◌, ◌<◌, ◌≤◌, IfOk, IfSome};
ghost use Rattle.ff_bench.specs.Views.{IsPassOf, IsWorkerOf};

use ff_bench::{Bench, Pass, WorkerPass, open_bench};
use ff_tables::{Items, NoMemory};
use ff_trials::case;
use ff_types::Case;
use std::alloc::Global;

/// The turns that a search may take.
pub const BUDGET: u64 = 1_000_000_000;

// The most commands of a viewer here.
const COMMANDS: u32 = 4;

/// A workbench with a pass of a viewer and one of a worker.
pub fn opened(alloc: Global, case: Case) -> Result<Option<(Bench, Pass, WorkerPass)>, NoMemory>
    ensures { IfOk result (λ r. IfSome r (λ t. IsPassOf t.0 t.1 × IsWorkerOf t.0 t.2)) }
{
    let system = &case.system;
    if system.vars > 1 << 18
        || system.constraints.as_slice().len() > 1 << 22
        || case.starts.as_slice().len() >= 1 << 21
    {
        return Ok(None);
    }
    let mut lengths = Vec::new(alloc);
    lengths.push(COMMANDS)?;
    let (bench, mut passes, mut workers) = open_bench(alloc, case, Items::of(lengths), 1, BUDGET)?;
    match (passes.pop(), workers.pop()) {
        (Some(pass), Some(worker)) => Ok(Some((bench, pass, worker))),
        _ => Ok(None),
    }
}

/// Three faces, of which the second overlaps the first and the third: two parts of one pair each.
pub fn corners(alloc: Global) -> Result<Option<Case>, NoMemory> {
    let mut pairs = Vec::new(alloc);
    pairs.push((0, 1))?;
    pairs.push((1, 2))?;
    case(alloc, pairs, &[])
}
