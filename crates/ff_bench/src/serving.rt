//! Viewers and workers on threads, by join in halves.
ghost use Rattle.std.specs.Prelude.{◌≡◌, ◌<◌, ◌≤◌, ◌^◌, length};
ghost use Rattle.ff_bench.specs.Views.{IsWorkerOf};
ghost use Rattle.ff_bench.specs.Runs.{IsReady, IsPlayed, AllReady, AllPlayed, AllWork};

use crate::bench::Bench;
use crate::passes::{Pass, WorkerPass};
use crate::playing::{play, serve};
use ff_outside::Gate;
use ff_tables::Items;
use ff_viewer::Command;
use std::alloc::Global;
use std::sync::Wait;
use std::sync::atomic::{AtomicBool, Ordering};
use std::thread::{Threads, for_each_mut, join_mut};

// Each viewer in a thread of its own, where one can be made.
fn play_all<R: Threads + Wait + Sync, G: Gate + Sync>(
    bench: &Bench,
    rt: &R,
    alloc: Global,
    scripts: &[Items<Command>],
    passes: &mut [Pass],
    gate: &G,
)
    requires few { length scripts.now < 2 ^ 32 }
    requires ready { AllReady bench.now scripts.now passes.old }
    ensures { length passes.new ≡ length passes.old × AllPlayed bench.now scripts.now passes.new }
{
    let count = passes.len();
    if count == 0 {
        return;
    }
    let one = move |at: usize, pass: &mut Pass|
        requires { (at < length scripts.now) × (length scripts.now < 2 ^ 32) × IsReady bench.now scripts.now at pass.now }
        ensures { IsPlayed bench.entry.now scripts.entry.now at pass.exit.now }
    { play(bench, rt, alloc, scripts, at as u32, pass, gate) };
    for_each_mut(rt, passes, count, &one);
}

// Each worker in a thread of its own, where one can be made.
fn serve_all<R: Threads + Wait + Sync, G: Gate + Sync>(
    bench: &Bench,
    rt: &R,
    alloc: Global,
    workers: &mut [WorkerPass],
    gate: &G,
    returned: &AtomicBool,
)
    requires { AllWork bench.now workers.old }
    ensures { length workers.new ≡ length workers.old × AllWork bench.now workers.new }
{
    let count = workers.len();
    if count == 0 {
        return;
    }
    let one = move |_at: usize, worker: &mut WorkerPass|
        requires { IsWorkerOf bench.now worker.now }
        ensures { IsWorkerOf bench.entry.now worker.exit.now }
    { serve(bench, rt, alloc, worker, gate, returned) };
    for_each_mut(rt, workers, count, &one);
}

/// Runs all, the viewers in the first half. Where no thread can be made they run one after another.
pub(crate) fn run_all<R: Threads + Wait + Sync, G: Gate + Sync>(
    bench: &Bench,
    rt: &R,
    alloc: Global,
    scripts: &[Items<Command>],
    passes: &mut [Pass],
    workers: &mut [WorkerPass],
    gate: &G,
)
    requires few { length scripts.now < 2 ^ 32 }
    requires ready { AllReady bench.now scripts.now passes.old }
    requires workers { AllWork bench.now workers.old }
    ensures played { length passes.new ≡ length passes.old × AllPlayed bench.now scripts.now passes.new }
    ensures workers { length workers.new ≡ length workers.old × AllWork bench.now workers.new }
{
    let flag = AtomicBool::new(false);
    let returned = &flag;
    join_mut(
        rt,
        &mut ||
            requires { (length scripts.now < 2 ^ 32) × AllReady bench.now scripts.now passes.now }
            ensures { length passes.exit.now ≡ length passes.entry.now × AllPlayed bench.entry.now scripts.entry.now passes.exit.now }
        {
            play_all(bench, rt, alloc, scripts, passes, gate);
            returned.store(true, Ordering::SeqCst);
        },
        &mut ||
            requires { AllWork bench.now workers.now }
            ensures { length workers.exit.now ≡ length workers.entry.now × AllWork bench.entry.now workers.exit.now }
        { serve_all(bench, rt, alloc, workers, gate, returned) },
    );
}
