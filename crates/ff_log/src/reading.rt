//! The log that texts spell.
ghost use Rattle.std.specs.Prelude.{◌≡◌, ◌<◌, ◌^◌, IfErr, IfOk, List, Some, length, map};
ghost use Rattle.std.specs.List.{All};
ghost use Rattle.ff_log.specs.declared.logs.LogLine.{LogLine as Line};
ghost use Rattle.ff_log.specs.Logs.{HasSmallLine};
ghost use Rattle.ff_log.specs.Reading.{line_of};
ghost use Rattle.ff_log.specs.Spelling.{IsLine, spelling};
ghost use Rattle.ff_log.specs.Texts.{AreNoLog, Gives, SpellLines};

use crate::lines::read_line;
use crate::logs::Log;
use ff_tables::{Items, Text};
use std::alloc::{AllocError, AllocFailed, Global};
use thiserror::Error;

/// Why texts are no log: the first that isn't a line, or want of memory.
#[derive(Clone, Copy, Debug, PartialEq, Eq, Error)]
pub enum LogNo {
    #[error("line {line} isn't a line of a log")]
    BadLog { line: u32 },
    #[error("out of memory")]
    NoMemory,
}

impl From<AllocError> for LogNo {
    ghost use Rattle.std.specs.Prelude.{◌≡◌};
    ghost use Rattle.ff_log.specs.declared.reading.LogNo.TheVariants.{NoMemory as out_of_memory};

    ghost from_gives = { λ _ e. e ≡ out_of_memory };

    fn from(_refused: AllocError) -> Self {
        LogNo::NoMemory
    }
}

impl<T: Drop> From<AllocFailed<T>> for LogNo {
    ghost use Rattle.std.specs.Prelude.{◌≡◌};
    ghost use Rattle.ff_log.specs.declared.reading.LogNo.TheVariants.{NoMemory as out_of_memory};

    ghost from_gives = { λ _ e. e ≡ out_of_memory };

    fn from(_refused: AllocFailed<T>) -> Self {
        LogNo::NoMemory
    }
}

// The lines, each as its text is read.
fn lines_of(alloc: Global, lines: &[Text]) -> Result<Log, LogNo>
    requires { length lines.now < 2 ^ 32 }
    ensures read { IfOk result (λ log. map (λ t. line_of t) lines.now ≡ map (λ l. Some l) log.lines) }
    ensures bad { IfErr result (λ no. AreNoLog lines.now no) }
{
    let mut log = Vec::new(alloc);
    for i in 0..lines.len() {
        match read_line(alloc, lines[i].as_str())? {
            Some(line) => log.push(line)?,
            None => return Err(LogNo::BadLog { line: i as u32 }),
        }
    }
    Ok(Log {
        lines: Items::of(log),
    })
}

/// The log that the texts spell, one line each, or the number of the first that isn't a line. Numbers are below 2^32, places
/// `X,Y,W` have X and Y below `PLACE_SIZE` in size and W from 1 to below `PLACE_WEIGHT`, and words stand apart by single spaces.
pub fn read_log(alloc: Global, lines: &Items<Text>) -> Result<Log, LogNo>
    requires few { length lines.now < 2 ^ 32 }
    ensures read { IfOk result (λ log. SpellLines lines.now log.lines) }
    ensures whole { (list : List Line) → All IsLine list → lines.now ≡ map spelling list → Gives list result }
    ensures bad { IfErr result (λ no. AreNoLog lines.now no) }
    ensures small { IfOk result (λ log. All HasSmallLine log.lines) }
    ensures count { IfOk result (λ log. length log.lines ≡ length lines.now) }
{
    lines_of(alloc, lines.as_slice())
}
