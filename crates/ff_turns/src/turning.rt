//! What the searches of a workbench have visited: one viewer and one worker, by turns.
ghost use Rattle.std.specs.Prelude.{◌≡◌, ◌<◌, ◌≤◌, IfOk, IfSome};
ghost use Rattle.ff_bench.specs.Views.{IsPassOf, IsWorkerOf};

use ff_bench::{Bench, Pass, Turn, WorkerPass};
use ff_outside::NoGate;
use ff_tables::{NoMemory, Order};
use ff_viewer::{Command, Question};
use std::alloc::Global;
use std::sync::Wait;

// The most turns of a worker that are waited for.
const MOST: u32 = 1_000_000;

// The viewer says this, if it has a command left.
fn say<R: Wait>(
    bench: &Bench,
    rt: &R,
    alloc: Global,
    pass: &mut Pass,
    command: &Command,
) -> Result<(), NoMemory>
    requires { IsPassOf bench.now pass.old }
    ensures { IsPassOf bench.now pass.new }
{
    if pass.left() > 0 {
        bench.act(rt, alloc, pass, command, &NoGate)?;
    }
    Ok(())
}

// The turns of all searches once the viewer has asked for the first page of the first part.
fn after_page<R: Wait>(
    bench: &Bench,
    rt: &R,
    alloc: Global,
    pass: &mut Pass,
) -> Result<u64, NoMemory>
    requires { IsPassOf bench.now pass.old }
    ensures { IsPassOf bench.now pass.new }
{
    let page = Command::Ask(Question::Page { part: 0, page: 0 });
    say(bench, rt, alloc, pass, &page)?;
    Ok(bench.turns(rt, pass))
}

// Pins the pair of the second and third faces, and asks for the board of that epoch.
fn pin<R: Wait>(bench: &Bench, rt: &R, alloc: Global, pass: &mut Pass) -> Result<(), NoMemory>
    requires { IsPassOf bench.now pass.old }
    ensures { IsPassOf bench.now pass.new }
{
    let pin = Command::Pin {
        f: 1,
        g: 2,
        value: Order::Above,
    };
    say(bench, rt, alloc, pass, &pin)?;
    say(bench, rt, alloc, pass, &Command::Ask(Question::Board))
}

/// The turns of all searches after the first page of a part, and after the same page of the next epoch, which pins a pair.
pub fn kept<R: Wait>(
    bench: &Bench,
    rt: &R,
    alloc: Global,
    pass: &mut Pass,
) -> Result<(u64, u64), NoMemory>
    requires { IsPassOf bench.now pass.old }
{
    let before = after_page(bench, rt, alloc, pass)?;
    pin(bench, rt, alloc, pass)?;
    let after = after_page(bench, rt, alloc, pass)?;
    Ok((before, after))
}

// Takes turns until there is nothing to do. Whether that came within the limit.
fn serve<R: Wait>(
    bench: &Bench,
    rt: &R,
    alloc: Global,
    worker: &mut WorkerPass,
) -> Result<bool, NoMemory>
    requires { IsWorkerOf bench.now worker.old }
{
    for _ in 0..MOST {
        match bench.worker_turn(rt, alloc, worker, &NoGate)? {
            Turn::Did => {}
            Turn::Idle => return Ok(true),
        }
    }
    Ok(false)
}

/// The turns of all searches after the first page of a part, and once the worker has nothing to do; and whether it came to that.
pub fn searched<R: Wait>(
    bench: &Bench,
    rt: &R,
    alloc: Global,
    pass: &mut Pass,
    worker: &mut WorkerPass,
) -> Result<(u64, u64, bool), NoMemory>
    requires pass { IsPassOf bench.now pass.old }
    requires worker { IsWorkerOf bench.now worker.old }
{
    let before = after_page(bench, rt, alloc, pass)?;
    let is_idle = serve(bench, rt, alloc, worker)?;
    Ok((before, bench.turns(rt, pass), is_idle))
}
