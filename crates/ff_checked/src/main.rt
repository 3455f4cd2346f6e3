//! Tries worked logs: each line of the file `rows` says what `check` has to answer to which input.
//! Prints the rows that differ, and how many there are.
#![tactic(auto)]

mod answers;

use answers::answer_to;
use std::{fs, io};

// A row: what has to be answered, and the input, or the name of the file that holds it behind an `@`.
fn row_of(line: &str) -> Option<(&str, &str)> {
    if line.starts_with('#') {
        return None;
    }
    line.split_once('\t')
}

// The input of a row.
fn input_of<R: std::rt::Files + AllocGlobal>(rt: &R, input: &str) -> io::Result<String> {
    match input.strip_prefix('@') {
        Some(name) => fs::read_to_string(rt, name),
        None => Ok(String::from_str(rt.alloc(), input)?),
    }
}

fn main(rt: HostRuntime) -> io::Result<()> {
    let alloc = rt.alloc();
    let list = fs::read_to_string(&rt, "rows")?;
    let (mut count, mut differ) = (0u64, 0u64);
    for line in list.as_str().lines() {
        let Some((wanted, input)) = row_of(line) else {
            continue;
        };
        count = count.saturating_add(1);
        let input = input_of(&rt, input)?;
        let got = answer_to(alloc, input.as_str())?;
        if got.as_str() != wanted {
            differ = differ.saturating_add(1);
            println!(rt; "differs: {line}\n{got}")?;
        }
    }
    println!(rt; "{count} rows, {differ} differ")
}
