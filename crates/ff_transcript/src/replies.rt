//! Replies in texts.
ghost use Rattle.std.specs.Prelude.{◌≡◌, ◌++◌, OnOk, codes, string_bytes};
ghost use Rattle.ff_log.specs.Spelling.{order_word, spelling};
ghost use Rattle.ff_transcript.specs.Replies.{below_reply, log_lines, reply_text, value_text};

use crate::boards::{push_board, push_page, push_parts, push_shown};
use crate::reasons::push_why;
use ff_log::{LogLine, line_text};
use ff_tables::{NoMemory, Order};
use ff_viewer::{Reply, order_name};
use std::alloc::{AllocError, Global};

fn push_value(text: &mut String, value: Option<Order>) -> Result<(), AllocError>
    ensures { OnOk result (string_bytes text.new ≡ string_bytes text.old ++ value_text value) }
{
    match value {
        None => text.push_str("undecided"),
        Some(value) => text.push_str(order_name(value)),
    }
}

fn push_held(text: &mut String, value: Order) -> Result<(), AllocError>
    ensures { OnOk result (string_bytes text.new ≡ string_bytes text.old ++ codes "held " ++ order_word value) }
{
    text.push_str("held ")?;
    text.push_str(order_name(value))
}

/// The reply, without its line feed and without its log.
pub(crate) fn push_reply(text: &mut String, reply: &Reply) -> Result<(), AllocError>
    ensures { OnOk result (string_bytes text.new ≡ string_bytes text.old ++ reply_text reply.now) }
{
    match reply {
        Reply::NoPair => text.push_str("no pair"),
        Reply::Held(value) => push_held(text, *value),
        Reply::NotHeld => text.push_str("not held"),
        Reply::Epoch(epoch) => write!(text, "epoch {epoch}"),
        Reply::Shown { epoch, board } => {
            write!(text, "epoch {epoch} ")?;
            push_shown(text, board)
        }
        Reply::Impossible => text.push_str("impossible"),
        Reply::Value(value) => push_value(text, *value),
        Reply::Parts(parts) => push_parts(text, parts.as_slice()),
        Reply::NoPart => text.push_str("no part"),
        Reply::Unfinished => text.push_str("unfinished"),
        Reply::None(_) => text.push_str("none"),
        Reply::Past(count) => write!(text, "past {count}"),
        Reply::Page(page) => push_page(text, page.as_slice()),
        Reply::Undecided => text.push_str("undecided"),
        Reply::Because(why) => push_why(text, why),
        Reply::Count(count) => write!(text, "count {count}"),
        Reply::PartUnfinished(part) => write!(text, "unfinished {part}"),
        Reply::PartNone(part) => write!(text, "none {part}"),
        Reply::PartPast(part) => write!(text, "past {part}"),
        Reply::Stack(values) => {
            text.push_str("stack ")?;
            push_board(text, values.as_slice())
        }
    }
}

fn push_line(alloc: Global, text: &mut String, line: &LogLine) -> Result<(), NoMemory>
    ensures { OnOk result (string_bytes text.new ≡ string_bytes text.old ++ codes "log " ++ spelling line.now ++ codes "\n") }
{
    let line = line_text(alloc, line)?;
    text.push_str("log ")?;
    text.push_str(line.as_str())?;
    text.push_str("\n")?;
    Ok(())
}

/// The lines of a log, each behind `log`.
pub(crate) fn push_log(alloc: Global, text: &mut String, lines: &[LogLine]) -> Result<(), NoMemory>
    ensures { OnOk result (string_bytes text.new ≡ string_bytes text.old ++ log_lines lines.now) }
{
    for i in 0..lines.len() {
        push_line(alloc, text, &lines[i])?;
    }
    Ok(())
}

/// The log of a reply, if it has one.
pub(crate) fn push_below(alloc: Global, text: &mut String, reply: &Reply) -> Result<(), NoMemory>
    ensures { OnOk result (string_bytes text.new ≡ string_bytes text.old ++ below_reply reply.now) }
{
    match reply {
        Reply::None(log) => push_log(alloc, text, log.lines.as_slice()),
        _ => Ok(()),
    }
}
