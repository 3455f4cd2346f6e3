//! The lines of a report besides its head and its parts.
ghost use Rattle.std.specs.Prelude.{◌≡◌, ◌++◌, IfOk, OnOk, string_bytes};
ghost use Rattle.ff_report.specs.Lines.{clash_lines, parts_line, last_line};

use crate::logs::push_log;
use ff_log::Log;
use ff_tables::{NoMemory, Text};
use std::alloc::{AllocError, Global};

/// How a report ends: all parts are finished, no stacking keeps the creases, or some part isn't finished.
#[derive(Clone, Copy, Debug, PartialEq, Eq)]
pub enum Last {
    Done,
    Impossible,
    Unfinished,
}

fn push_parts(text: &mut String, count: u32) -> Result<(), AllocError>
    ensures { OnOk result (string_bytes text.new ≡ string_bytes text.old ++ parts_line count) }
{
    write!(text, "parts {count}\n")
}

/// The line that counts the independent parts.
pub fn parts_text(alloc: Global, count: u32) -> Result<Text, NoMemory>
    ensures { IfOk result (λ text. text ≡ parts_line count) }
{
    let mut text = String::new(alloc);
    push_parts(&mut text, count)?;
    Ok(Text::of(text))
}

/// The lines where the closure clashes: `clash`, a log that shows it, and `impossible`.
pub fn clash_text(alloc: Global, log: &Log) -> Result<Text, NoMemory>
    ensures { IfOk result (λ text. text ≡ clash_lines log.now.lines) }
{
    let mut text = String::from_str(alloc, "clash\n")?;
    push_log(alloc, &mut text, log)?;
    text.push_str("impossible\n")?;
    Ok(Text::of(text))
}

/// The last line of a report.
pub fn last_text(alloc: Global, last: Last) -> Result<Text, NoMemory>
    ensures { IfOk result (λ text. text ≡ last_line last) }
{
    let line = match last {
        Last::Done => "done\n",
        Last::Impossible => "impossible\n",
        Last::Unfinished => "unfinished\n",
    };
    Ok(Text::of(String::from_str(alloc, line)?))
}
