//! The lines of a log in a report.
ghost use Rattle.std.specs.Prelude.{◌≡◌, ◌++◌, OnOk, string_bytes};
ghost use Rattle.ff_report.specs.Logs.{log_line, log_lines};

use ff_log::{Log, LogLine, line_text};
use ff_tables::NoMemory;
use std::alloc::Global;

fn push_line(alloc: Global, text: &mut String, line: &LogLine) -> Result<(), NoMemory>
    ensures { OnOk result (string_bytes text.new ≡ string_bytes text.old ++ log_line line.now) }
{
    let spelled = line_text(alloc, line)?;
    write!(text, "log {}\n", spelled.as_str())?;
    Ok(())
}

// The log, each line after `log `.
pub(crate) fn push_log(alloc: Global, text: &mut String, log: &Log) -> Result<(), NoMemory>
    ensures { OnOk result (string_bytes text.new ≡ string_bytes text.old ++ log_lines log.now.lines) }
{
    for line in log.lines.as_slice() {
        push_line(alloc, text, line)?;
    }
    Ok(())
}
