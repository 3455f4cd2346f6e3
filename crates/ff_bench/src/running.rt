//! Runs scripts at a workbench.
ghost use Rattle.std.specs.Prelude.{◌≡◌, ◌<◌, ◌≤◌, ◌^◌, ℕ, IfOk, IsTrue, length, slice_get, Some};
ghost use Rattle.ff_journal.specs.Journals.{IsLegalFor, IsComplete};
ghost use Rattle.ff_desk.specs.Desks.{IsFew};
ghost use Rattle.ff_bench.specs.Views.{left_of, PassView};
ghost use Rattle.ff_bench.specs.Runs.{lengths_in, AreShort, AreSpent, AllReady, AllPlayed, AllWork};

use crate::bench::Bench;
use crate::opening::open_bench;
use crate::passes::{Pass, WorkerPass};
use crate::serving::run_all;
use ff_journal::{Entry, legal_for_its_scripts};
use ff_outside::Gate;
use ff_tables::{Items, NoMemory};
use ff_types::Case;
use ff_viewer::Command;
use std::alloc::Global;
use std::sync::Wait;
use std::thread::Threads;

// The length of the k-th script.
fn length_of(scripts: &[Items<Command>], k: usize) -> u32
    requires there { k < length scripts.now }
    requires short { AreShort scripts.now }
    ensures { slice_get (lengths_in scripts.now) k ≡ Some result }
{
    let script = script_at(scripts, k);
    script.as_slice().len() as u32
}

// The k-th script.
fn script_at(scripts: &[Items<Command>], k: usize) -> &Items<Command>
    requires { k < length scripts.now }
    ensures { slice_get scripts.now k ≡ Some result.now }
{
    &scripts[k]
}

// The length of each script.
fn lengths_of(alloc: Global, scripts: &[Items<Command>]) -> Result<Items<u32>, NoMemory>
    requires { AreShort scripts.now }
    ensures { IfOk result (λ lengths. lengths ≡ lengths_in scripts.now) }
{
    let mut lengths = Vec::with_capacity(alloc, scripts.len())?;
    for k in 0..scripts.len() {
        lengths.push_reserved(length_of(scripts, k));
    }
    Ok(Items::of(lengths))
}

// The k-th pass.
fn pass_at(passes: &[Pass], k: usize) -> &Pass
    requires { k < length passes.now }
    ensures { slice_get passes.now k ≡ Some result.now }
{
    &passes[k]
}

// Whether no viewer has a command left.
fn are_spent(passes: &[Pass]) -> bool
    ensures { IsTrue result → AreSpent passes.now }
{
    for k in 0..passes.len() {
        if pass_at(passes, k).left() > 0 {
            return false;
        }
    }
    true
}

// Runs the passes of the lists.
fn run_on<R: Threads + Wait + Sync, G: Gate + Sync>(
    bench: &Bench,
    rt: &R,
    alloc: Global,
    scripts: &[Items<Command>],
    passes: &mut Vec<Pass>,
    crew: &mut Vec<WorkerPass>,
    gate: &G,
)
    requires few { length scripts.now < 2 ^ 32 }
    requires ready { AllReady bench.now scripts.now passes.old.items }
    requires workers { AllWork bench.now crew.old.items }
    ensures played { length passes.new.items ≡ length passes.old.items × AllPlayed bench.now scripts.now passes.new.items }
    ensures workers { length crew.new.items ≡ length crew.old.items × AllWork bench.now crew.new.items }
{
    run_all(
        bench,
        rt,
        alloc,
        scripts,
        passes.as_mut_slice(),
        crew.as_mut_slice(),
        gate,
    );
}

/// Runs the scripts of all viewers at a workbench with this many workers: viewers and workers each in a thread of its own, where one can be
/// made. The journal is legal for the scripts and complete, in whatever order the threads came. The gate is passed before each turn of a
/// worker, after each answer of a viewer, and before each constraint that is examined.
pub fn run<R: Threads + Wait + Sync, G: Gate + Sync>(
    rt: &R,
    alloc: Global,
    case: Case,
    budget: u64,
    scripts: &Items<Items<Command>>,
    workers: u32,
    gate: &G,
) -> Result<Items<Entry>, NoMemory>
    requires few { IsFew record { case = case; budget = budget; lengths = lengths_in scripts.now } }
    requires workers { (0 < workers) × (workers ≤ 16) }
    ensures legal { IfOk result (λ journal. IsLegalFor case budget scripts.now journal) }
    ensures complete { IfOk result (λ journal. IsComplete scripts.now journal) }
{
    // a legal journal that has all commands is legal for the scripts
    legal_for_its_scripts();
    let all = scripts.as_slice();
    let lengths = lengths_of(alloc, all)?;
    let (bench, mut passes, mut crew) = open_bench(alloc, case, lengths, workers, budget)?;
    run_on(&bench, rt, alloc, all, &mut passes, &mut crew, gate);
    if !are_spent(passes.as_slice()) {
        return Err(NoMemory);
    }
    bench.finish(alloc, passes, crew)
}
