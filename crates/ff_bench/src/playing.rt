//! A viewer that plays its script, and a worker that serves until the viewers have returned.
ghost use Rattle.std.specs.Prelude.{◌≡◌, ◌<◌, length, is_ok};
ghost use Rattle.ff_journal.specs.Epochs.{viewer_in};
ghost use Rattle.ff_journal.specs.Journals.{script_of};
ghost use Rattle.ff_bench.specs.Views.{IsWorkerOf};
ghost use Rattle.ff_bench.specs.Runs.{IsReady, IsPlayed};

use crate::bench::Bench;
use crate::passes::{Pass, WorkerPass};
use ff_desk::Turn;
use ff_outside::{Gate, GateAt};
use ff_tables::{Items, NoMemory};
use ff_viewer::{Command, Reply};
use std::alloc::Global;
use std::sync::Wait;
use std::sync::atomic::{AtomicBool, Ordering};

// Whether there was a reply.
fn is_told(told: Result<Reply, NoMemory>) -> bool
    ensures { result ≡ is_ok told }
{
    told.is_ok()
}

/// Makes the entries of the viewer's script, command by command, until memory is refused. The gate is passed after each answer.
pub(crate) fn play<R: Wait, G: Gate + Sync>(
    bench: &Bench,
    rt: &R,
    alloc: Global,
    scripts: &[Items<Command>],
    viewer: u32,
    pass: &mut Pass,
    gate: &G,
)
    requires there { viewer < length scripts.now }
    requires ready { IsReady bench.now scripts.now viewer pass.old }
    ensures { IsPlayed bench.now scripts.now viewer pass.new }
{
    let script = scripts[viewer as usize].as_slice();
    let count = pass.commands();
    for index in 0..count {
        let told = bench.act(rt, alloc, pass, &script[index as usize], gate);
        if !is_told(told) {
            return;
        }
        gate.pass(GateAt::Answered { viewer, index });
    }
}

/// Takes turns until the viewers have returned and nothing is left to do, or memory is refused. The gate is passed before each turn.
pub(crate) fn serve<R: Wait, G: Gate + Sync>(
    bench: &Bench,
    rt: &R,
    alloc: Global,
    pass: &mut WorkerPass,
    gate: &G,
    returned: &AtomicBool,
)
    requires { IsWorkerOf bench.now pass.old }
    ensures { IsWorkerOf bench.now pass.new }
{
    for _ in rt.forever() {
        // looked at before the turn: an entry of a viewer that returned later may begin an epoch
        let last = returned.load(Ordering::SeqCst);
        gate.pass(GateAt::WorkerTurn {
            worker: pass.hand.number,
        });
        match bench.worker_turn(rt, alloc, pass, gate) {
            Ok(Turn::Did) => {}
            Ok(Turn::Idle) => {
                if last {
                    return;
                }
            }
            Err(_) => return,
        }
    }
}
