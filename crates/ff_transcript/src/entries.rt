//! Entries of a journal in texts.
ghost use Rattle.std.specs.Prelude.{◌≡◌, ◌++◌, IfOk, OnOk, string_bytes};
ghost use Rattle.std.specs.List.{flat_map};
ghost use Rattle.ff_transcript.specs.Entries.{end_line, entry_text as text_of, impossible_lines, outcome_text, place_text, said_text, told_text, with_line};

use crate::boards::push_board;
use crate::replies::{push_below, push_log, push_reply};
use ff_journal::{Entry, Outcome};
use ff_tables::{NoMemory, Text};
use ff_types::Pin;
use ff_viewer::{Command, Reply, command_text, order_name};
use std::alloc::{AllocError, Global};

fn push_pin(text: &mut String, pin: Pin) -> Result<(), AllocError>
    ensures { OnOk result (string_bytes text.new ≡ string_bytes text.old ++ with_line pin) }
{
    let Pin { f, g, .. } = pin;
    let value = order_name(pin.value);
    write!(text, "with {f} {g} {value}\n")
}

fn push_pins(text: &mut String, pins: &[Pin]) -> Result<(), AllocError>
    ensures { OnOk result (string_bytes text.new ≡ string_bytes text.old ++ flat_map with_line pins.now) }
{
    for i in 0..pins.len() {
        push_pin(text, pins[i])?;
    }
    Ok(())
}

fn push_impossible(text: &mut String, pins: &[Pin]) -> Result<(), AllocError>
    ensures { OnOk result (string_bytes text.new ≡ string_bytes text.old ++ impossible_lines pins.now) }
{
    text.push_str("impossible\n")?;
    push_pins(text, pins)?;
    Ok(())
}

fn push_outcome(alloc: Global, text: &mut String, outcome: &Outcome) -> Result<(), NoMemory>
    ensures { OnOk result (string_bytes text.new ≡ string_bytes text.old ++ outcome_text outcome.now) }
{
    match outcome {
        Outcome::Board(board) => {
            push_board(text, board.as_slice())?;
            text.push_str("\n")?;
            Ok(())
        }
        Outcome::Impossible { pins, log } => {
            push_impossible(text, pins.as_slice())?;
            push_log(alloc, text, log.lines.as_slice())
        }
    }
}

fn push_place(text: &mut String, viewer: u32, index: u32) -> Result<(), AllocError>
    ensures { OnOk result (string_bytes text.new ≡ string_bytes text.old ++ place_text viewer index) }
{
    write!(text, "{viewer}.{index} ")
}

fn push_told(alloc: Global, text: &mut String, reply: &Reply) -> Result<(), NoMemory>
    ensures { OnOk result (string_bytes text.new ≡ string_bytes text.old ++ told_text reply.now) }
{
    text.push_str(" -> ")?;
    push_reply(text, reply)?;
    text.push_str("\n")?;
    push_below(alloc, text, reply)?;
    Ok(())
}

fn push_said(
    alloc: Global,
    text: &mut String,
    viewer: u32,
    index: u32,
    command: &Command,
    reply: &Reply,
) -> Result<(), NoMemory>
    ensures { OnOk result (string_bytes text.new ≡ string_bytes text.old ++ said_text viewer index command.now reply.now) }
{
    let command = command_text(alloc, command)?;
    push_place(text, viewer, index)?;
    text.push_str(command.as_str())?;
    push_told(alloc, text, reply)?;
    Ok(())
}

fn push_entry(alloc: Global, text: &mut String, entry: &Entry) -> Result<(), NoMemory>
    ensures { OnOk result (string_bytes text.new ≡ string_bytes text.old ++ text_of entry.now) }
{
    match entry {
        Entry::Said {
            viewer,
            index,
            command,
            reply,
        } => push_said(alloc, text, *viewer, *index, command, reply),
        Entry::Published { epoch, outcome } => {
            write!(text, "publish {epoch} ")?;
            push_outcome(alloc, text, outcome)
        }
    }
}

/// The lines of an entry of a journal: `publish E` and a board of `-`, `+` and `.`, or `impossible` with the pins in force and the log
/// that refutes them; or the viewer and the line of its script, the command and its reply, with the log of a part without solutions
/// below.
pub fn entry_text(alloc: Global, entry: &Entry) -> Result<Text, NoMemory>
    ensures { IfOk result (λ text. text ≡ text_of entry.now) }
{
    let mut text = String::new(alloc);
    push_entry(alloc, &mut text, entry)?;
    Ok(Text::of(text))
}

/// The last line of a transcript.
pub fn end_text(alloc: Global) -> Result<Text, NoMemory>
    ensures { IfOk result (λ text. text ≡ end_line) }
{
    Ok(Text::of(String::from_str(alloc, "end\n")?))
}
