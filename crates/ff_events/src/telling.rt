//! What a journal says.
use ff_core::{Entry, Event, Outcome, run};
use ff_log::Log;
use ff_tables::{Items, NoMemory, Order};
use ff_types::{Case, Pin};
use ff_viewer::{Premise, Reply, Why};
use std::alloc::Global;

fn sign(value: Option<Order>) -> char {
    match value {
        Some(Order::Below) => '-',
        Some(Order::Above) => '+',
        None => '.',
    }
}

fn push_board(text: &mut String, board: &[Option<Order>]) -> Result<(), NoMemory> {
    for &value in board {
        text.push(sign(value))?;
    }
    Ok(())
}

fn push_page(text: &mut String, solutions: &[Items<Order>]) -> Result<(), NoMemory> {
    for solution in solutions {
        text.push(' ')?;
        for &value in solution.as_slice() {
            text.push(sign(Some(value)))?;
        }
    }
    Ok(())
}

fn push_premises(alloc: Global, text: &mut String, premises: &[Premise]) -> Result<(), NoMemory> {
    for premise in premises {
        let f = premise.f;
        let g = premise.g;
        let value = sign(Some(premise.value));
        let level = premise.level;
        text.push_str(format!(in alloc; " {f} {g} {value} {level}")?.as_str())?;
    }
    Ok(())
}

fn push_why(alloc: Global, text: &mut String, why: &Why) -> Result<(), NoMemory> {
    match why {
        Why::Crease(e) => text.push_str(format!(in alloc; "crease {e}")?.as_str())?,
        Why::Pin => text.push_str("pin")?,
        Why::Forced {
            level,
            premises,
            ..
        } => {
            text.push_str(format!(in alloc; "level {level} from")?.as_str())?;
            push_premises(alloc, text, premises.as_slice())?;
        }
    }
    Ok(())
}

fn push_shown(
    alloc: Global,
    text: &mut String,
    epoch: u32,
    board: &Option<Items<Option<Order>>>,
) -> Result<(), NoMemory> {
    text.push_str(format!(in alloc; "epoch {epoch} ")?.as_str())?;
    match board {
        Some(board) => push_board(text, board.as_slice()),
        None => Ok(text.push_str("impossible")?),
    }
}

fn push_reply(alloc: Global, text: &mut String, reply: &Reply) -> Result<(), NoMemory> {
    match reply {
        Reply::NoPair => text.push_str("no pair")?,
        Reply::Held(value) => {
            text.push_str("held ")?;
            text.push(sign(Some(*value)))?;
        }
        Reply::NotHeld => text.push_str("not held")?,
        Reply::Epoch(e) => text.push_str(format!(in alloc; "epoch {e}")?.as_str())?,
        Reply::Shown { epoch, board } => push_shown(alloc, text, *epoch, board)?,
        Reply::Impossible => text.push_str("impossible")?,
        Reply::Value(value) => text.push(sign(*value))?,
        Reply::Parts(parts) => {
            let count = parts.as_slice().len();
            text.push_str(format!(in alloc; "parts {count}")?.as_str())?;
        }
        Reply::NoPart => text.push_str("no part")?,
        Reply::Unfinished => text.push_str("unfinished")?,
        Reply::None(_) => text.push_str("none")?,
        Reply::Past(count) => text.push_str(format!(in alloc; "past {count}")?.as_str())?,
        Reply::Page(solutions) => {
            text.push_str("page")?;
            push_page(text, solutions.as_slice())?;
        }
        Reply::Undecided => text.push_str("undecided")?,
        Reply::Because(why) => push_why(alloc, text, why)?,
        Reply::Count(count) => text.push_str(format!(in alloc; "count {count}")?.as_str())?,
        Reply::PartUnfinished(p) => {
            text.push_str(format!(in alloc; "part {p} unfinished")?.as_str())?;
        }
        Reply::PartNone(p) => text.push_str(format!(in alloc; "part {p} none")?.as_str())?,
        Reply::PartPast(p) => text.push_str(format!(in alloc; "part {p} past")?.as_str())?,
        Reply::Stack(values) => {
            text.push_str("stack ")?;
            push_board(text, values.as_slice())?;
        }
    }
    Ok(())
}

fn push_refuted(alloc: Global, text: &mut String, pins: &[Pin], log: &Log) -> Result<(), NoMemory> {
    text.push_str("impossible")?;
    for pin in pins {
        let f = pin.f;
        let g = pin.g;
        let value = sign(Some(pin.value));
        text.push_str(format!(in alloc; ", with {f} {g} {value}")?.as_str())?;
    }
    let count = log.lines.as_slice().len();
    text.push_str(format!(in alloc; ", lines {count}")?.as_str())?;
    Ok(())
}

fn push_outcome(alloc: Global, text: &mut String, outcome: &Outcome) -> Result<(), NoMemory> {
    match outcome {
        Outcome::Board(board) => push_board(text, board.as_slice()),
        Outcome::Impossible { pins, log } => push_refuted(alloc, text, pins.as_slice(), log),
    }
}

fn push_entry(alloc: Global, text: &mut String, entry: &Entry) -> Result<(), NoMemory> {
    match entry {
        Entry::Said {
            viewer,
            index,
            reply,
            ..
        } => {
            text.push_str(format!(in alloc; "{viewer}.{index} ")?.as_str())?;
            push_reply(alloc, text, reply)?;
        }
        Entry::Published { epoch, outcome } => {
            text.push_str(format!(in alloc; "publish {epoch} ")?.as_str())?;
            push_outcome(alloc, text, outcome)?;
        }
    }
    text.push('\n')?;
    Ok(())
}

/// A line for each entry of the journal, after these events, of a core with a budget of a thousand turns. For at most a thousand starts,
/// constraints and events each.
pub fn journal_text(alloc: Global, case: &Case, events: &Items<Event>) -> Result<String, NoMemory> {
    let mut text = String::new(alloc);
    if case.starts.as_slice().len() > 1000
        || case.system.constraints.as_slice().len() > 1000
        || events.as_slice().len() > 1000
    {
        return Ok(text);
    }
    let core = run(alloc, case, 1000, events)?;
    for entry in core.journal().as_slice() {
        push_entry(alloc, &mut text, entry)?;
    }
    Ok(text)
}
