//! Tries worked rows: each line of the file `rows` says what is run on which input, and which text has to come out.
//! Prints the rows that differ, and how many there are.
#![tactic(auto)]

mod calls;
mod comparing;
mod rows;
mod runs;
mod stages;

use rows::{Kind, Row, row_of};
use std::alloc::Global;
use std::sync::Wait;
use std::thread::Threads;
use std::{fs, io};

// The text of a file, or that there is none.
fn text_of<R: std::rt::Files + AllocGlobal>(rt: &R, name: &str, end: &str) -> io::Result<String> {
    let path = format!(in rt.alloc(); "{name}{end}")?;
    fs::read_to_string(rt, path.as_str())
}

// The text that a row wants.
fn wanted_by<R: std::rt::Files + AllocGlobal>(rt: &R, row: &Row) -> io::Result<String> {
    if row.kind == Kind::Refused {
        return Ok(format!(in rt.alloc(); "status 2\n{}\n", row.wanted)?);
    }
    text_of(rt, row.wanted.as_str(), ".out")
}

// The input of a row.
fn input_of<R: std::rt::Files + AllocGlobal>(rt: &R, row: &Row) -> io::Result<String> {
    if row.kind == Kind::Refused {
        return Ok(String::from_str(rt.alloc(), row.input.as_str())?);
    }
    text_of(rt, row.input.as_str(), ".fold")
}

// What a row gets and what it wants.
#[derive(Drop)]
struct Tried {
    got: String,
    wanted: String,
}

// Tries a row.
fn try_row<R: std::rt::Files + AllocGlobal + Threads + Wait + Sync>(
    rt: &R,
    row: &Row,
) -> io::Result<Tried> {
    let alloc: Global = rt.alloc();
    let input = input_of(rt, row)?;
    let wanted = wanted_by(rt, row)?;
    let got = runs::answer(rt, alloc, row, input.as_str(), wanted.as_str())?;
    Ok(Tried { got, wanted })
}

fn main(rt: HostRuntime) -> io::Result<()> {
    let alloc = rt.alloc();
    let list = fs::read_to_string(&rt, "rows")?;
    let (mut count, mut differ) = (0u64, 0u64);
    for line in list.as_str().lines() {
        let Some(row) = row_of(alloc, line)? else {
            continue;
        };
        count = count.saturating_add(1);
        let tried = try_row(&rt, &row)?;
        if !comparing::fits(tried.got.as_str(), tried.wanted.as_str()) {
            differ = differ.saturating_add(1);
            println!(rt; "differs: {line}\n{}", tried.got)?;
        }
    }
    println!(rt; "{count} rows, {differ} differ")
}
