//! Times the closure of an accordion.
use crate::accordion;
use anyhow::Result;
use ff_propagate::{Closed, close, givens_fit};
use ff_tables::{Given, Items, System, system_of};
use std::alloc::Global;
use std::io::{Eprint, Print};
use std::rt::Clock;
use std::time::Instant;

// How often each closure is timed.
const TURNS: u32 = 9;

fn time_one(
    rt: &(impl Clock + Print + Eprint),
    alloc: Global,
    name: &str,
    system: &System,
    givens: &Items<Given>,
) -> Result<()> {
    let count = system.constraints.as_slice().len();
    let given = givens.as_slice();
    if !givens_fit(system.vars, given) || count >= 1 << 32 || given.len() >= 1 << 32 {
        return Ok(());
    }
    for turn in 0..TURNS {
        let start = Instant::now(rt)?;
        let closed = close(alloc, system, givens)?;
        let micros = start.elapsed(rt)?.as_micros();
        let is_board = matches!(&closed, Closed::Board(_));
        println!(rt;
            "{name} turn {turn} variables {} constraints {count} board {is_board}",
            system.vars
        )?;
        eprintln!(rt; "{name} {micros} us")?;
    }
    Ok(())
}

/// Closes the accordion of so many panels, with its constraints in their order, and then in another order.
pub fn time(rt: &(impl Clock + Print + Eprint), alloc: Global, panels: u32) -> Result<()> {
    let givens = accordion::givens(alloc, panels)?;
    if let Some(system) = system_of(
        accordion::pairs(panels),
        accordion::constraints(alloc, panels)?,
    ) {
        time_one(rt, alloc, "ordered", &system, &givens)?;
    }
    if let Some(system) = system_of(
        accordion::pairs(panels),
        accordion::shuffled(alloc, panels)?,
    ) {
        time_one(rt, alloc, "shuffled", &system, &givens)?;
    }
    Ok(())
}
