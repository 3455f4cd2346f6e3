//! A session: from bytes to a journal.
ghost use Rattle.std.specs.Prelude.{◌≡◌, ◌<◌, ◌≤◌, ◌^◌, IfOk, IfErr, MatchResult, length};
ghost use Rattle.ff_problem.specs.Problems.{IsProblem};
ghost use Rattle.ff_read.specs.Benches.{IsBench, AreFew};
ghost use Rattle.ff_session.specs.Sessions.{IsSession, WhyNoSession};

use ff_bench::run;
use ff_core::Core;
use ff_epochs::epochs_are_stackings;
use ff_journal::Entry;
use ff_outside::Gate;
use ff_problem::{Problem, problem};
use ff_read::{BenchInput, read_bench};
use ff_serve::serve;
use ff_tables::{Items, NoMemory};
use ff_types::No;
use std::alloc::Global;
use std::sync::Wait;
use std::thread::Threads;

// The input that the bytes spell.
fn read_input(alloc: Global, bytes: &[u8]) -> Result<BenchInput, No>
    requires { length bytes.now < 2 ^ 32 }
    ensures read { IfOk result (IsBench bytes.now) }
    ensures few { IfOk result (λ input. AreFew input.scripts) }
    ensures refused { IfErr result (WhyNoSession bytes.now) }
{
    read_bench(alloc, bytes)
}

// What the pattern of the input comes to.
fn read_problem(alloc: Global, bytes: &[u8], input: &BenchInput) -> Result<Problem, No>
    requires { IsBench bytes.now input.now }
    ensures made { IfOk result (λ p. IsProblem input.now.pattern p.faces p.folded p.case) }
    ensures refused { IfErr result (WhyNoSession bytes.now) }
{
    let _ = bytes;
    problem(alloc, &input.pattern)
}

// The journal of the scripts at a workbench on the pattern's case.
fn run_on<R: Threads + Wait + Sync, G: Gate + Sync>(
    rt: &R,
    alloc: Global,
    bytes: &[u8],
    input: &BenchInput,
    found: Problem,
    budget: u64,
    workers: u32,
    gate: &G,
) -> Result<Items<Entry>, NoMemory>
    requires turns { budget ≤ 1000000000 }
    requires workers { (0 < workers) × (workers ≤ 16) }
    requires read { IsBench bytes.now input.now }
    requires few { AreFew input.now.scripts }
    requires problem { IsProblem input.now.pattern found.faces found.folded found.case }
    ensures { IfOk result (λ journal. IsSession bytes.now budget journal) }
{
    let _ = bytes;
    epochs_are_stackings();
    let Problem { case, .. } = found;
    run(rt, alloc, case, budget, &input.scripts, workers, gate)
}

// The journal of the scripts, served one viewer after the other on the pattern's case.
fn serve_on<G: Gate>(
    alloc: Global,
    bytes: &[u8],
    input: &BenchInput,
    found: &Problem,
    budget: u64,
    gate: &G,
) -> Result<Core, NoMemory>
    requires turns { budget ≤ 1000000000 }
    requires read { IsBench bytes.now input.now }
    requires few { AreFew input.now.scripts }
    requires problem { IsProblem input.now.pattern found.now.faces found.now.folded found.now.case }
    ensures { IfOk result (λ core. IsSession bytes.now budget core.journal) }
{
    let _ = bytes;
    epochs_are_stackings();
    let core = serve(alloc, &found.case, budget, &input.scripts, gate)?;
    Ok(core)
}

/// The journal of the workbench that the bytes ask for, `{"fold": {..}, "viewers": [[..], ..]}`: viewers and workers run on the crease
/// pattern's case, each in a thread of its own where one can be made. The journal is right in whatever order they come. Refused as
/// `read_bench` and `problem` are. The gate is passed before each turn of a worker, after each reply, and before each constraint that is
/// examined.
pub fn session_of<R: Threads + Wait + Sync, G: Gate + Sync>(
    rt: &R,
    alloc: Global,
    bytes: &[u8],
    budget: u64,
    workers: u32,
    gate: &G,
) -> Result<Items<Entry>, No>
    requires few { length bytes.now < 2 ^ 32 }
    requires turns { budget ≤ 1000000000 }
    requires workers { (0 < workers) × (workers ≤ 16) }
    ensures { MatchResult result (λ journal. IsSession bytes.now budget journal) (WhyNoSession bytes.now) }
{
    let input = read_input(alloc, bytes)?;
    let found = read_problem(alloc, bytes, &input)?;
    match run_on(rt, alloc, bytes, &input, found, budget, workers, gate) {
        Ok(journal) => Ok(journal),
        Err(NoMemory) => Err(No::NoMemory),
    }
}

/// The plain program for the same, on one thread: the viewers are served one after the other, and what they begin is published at once.
/// Refused as `session_of` is. The gate is passed after each reply.
pub fn session_alone<G: Gate>(
    alloc: Global,
    bytes: &[u8],
    budget: u64,
    gate: &G,
) -> Result<Core, No>
    requires few { length bytes.now < 2 ^ 32 }
    requires turns { budget ≤ 1000000000 }
    ensures { MatchResult result (λ core. IsSession bytes.now budget core.journal) (WhyNoSession bytes.now) }
{
    let input = read_input(alloc, bytes)?;
    let found = read_problem(alloc, bytes, &input)?;
    match serve_on(alloc, bytes, &input, &found, budget, gate) {
        Ok(core) => Ok(core),
        Err(NoMemory) => Err(No::NoMemory),
    }
}
