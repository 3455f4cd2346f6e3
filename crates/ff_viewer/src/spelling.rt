//! How a command is written.
ghost use Rattle.std.specs.Prelude.{◌≡◌, ◌++◌, IfOk, OnOk, codes, string_bytes};
ghost use Rattle.std.specs.Fmt.{decimal};
ghost use Rattle.std.specs.List.{flat_map};
ghost use Rattle.ff_viewer.specs.Spelling.{question_text, spelling};

use crate::commands::{Command, Question};
use crate::orders::order_name;
use ff_tables::{NoMemory, Text};
use std::alloc::{AllocError, Global};

fn push_numbers(text: &mut String, list: &[u32]) -> Result<(), AllocError>
    ensures { OnOk result (string_bytes text.new ≡ string_bytes text.old ++ flat_map (λ n. codes " " ++ decimal n) list.now) }
{
    for n in list {
        let n = *n;
        write!(text, " {n}")?;
    }
    Ok(())
}

fn push_question(text: &mut String, question: &Question) -> Result<(), AllocError>
    ensures { OnOk result (string_bytes text.new ≡ string_bytes text.old ++ question_text question.now) }
{
    match question {
        Question::Board => text.push_str("board"),
        Question::Peek => text.push_str("peek"),
        Question::Order { f, g } => write!(text, "order {f} {g}"),
        Question::Parts => text.push_str("parts"),
        Question::Page { part, page } => write!(text, "page {part} {page}"),
        Question::Why { f, g } => write!(text, "why {f} {g}"),
        Question::Stack { choice } => {
            text.push_str("stack")?;
            push_numbers(text, choice.as_slice())
        }
    }
}

fn push_command(text: &mut String, command: &Command) -> Result<(), AllocError>
    ensures { OnOk result (string_bytes text.new ≡ string_bytes text.old ++ spelling command.now) }
{
    match command {
        Command::Pin { f, g, value } => {
            let value = order_name(*value);
            write!(text, "pin {f} {g} {value}")
        }
        Command::Unpin { f, g } => write!(text, "unpin {f} {g}"),
        Command::Ask(question) => push_question(text, question),
    }
}

/// The text of the command, its numbers without leading zeros.
pub fn command_text(alloc: Global, command: &Command) -> Result<Text, NoMemory>
    ensures { IfOk result (λ text. text ≡ spelling command.now) }
{
    let mut text = String::new(alloc);
    push_command(&mut text, command)?;
    Ok(Text::of(text))
}
