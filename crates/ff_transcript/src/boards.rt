//! Boards, parts and solutions in texts.
ghost use Rattle.std.specs.Prelude.{◌≡◌, ◌++◌, OnOk, string_bytes};
ghost use Rattle.std.specs.List.{flat_map};
ghost use Rattle.ff_report.specs.Parts.{sign};
ghost use Rattle.ff_transcript.specs.Boards.{board_text, page_text, part_text, parts_text, shown_text, solution_text, spaced, value_sign, variables_text};

use ff_tables::{Items, Order};
use std::alloc::AllocError;

fn push_sign(text: &mut String, value: Order) -> Result<(), AllocError>
    ensures { OnOk result (string_bytes text.new ≡ string_bytes text.old ++ sign value) }
{
    text.push(match value {
        Order::Below => '-',
        Order::Above => '+',
    })
}

fn push_value(text: &mut String, value: Option<Order>) -> Result<(), AllocError>
    ensures { OnOk result (string_bytes text.new ≡ string_bytes text.old ++ value_sign value) }
{
    match value {
        None => text.push('.'),
        Some(value) => push_sign(text, value),
    }
}

fn push_values(text: &mut String, values: &[Option<Order>]) -> Result<(), AllocError>
    ensures { OnOk result (string_bytes text.new ≡ string_bytes text.old ++ flat_map value_sign values.now) }
{
    for i in 0..values.len() {
        push_value(text, values[i])?;
    }
    Ok(())
}

/// A sign for each pair.
pub(crate) fn push_board(text: &mut String, board: &[Option<Order>]) -> Result<(), AllocError>
    ensures { OnOk result (string_bytes text.new ≡ string_bytes text.old ++ board_text board.now) }
{
    if board.is_empty() {
        return text.push('=');
    }
    push_values(text, board)
}

/// A sign for each pair, or that there is no board.
pub(crate) fn push_shown(
    text: &mut String,
    board: &Option<Items<Option<Order>>>,
) -> Result<(), AllocError>
    ensures { OnOk result (string_bytes text.new ≡ string_bytes text.old ++ shown_text board.now) }
{
    match board {
        None => text.push_str("impossible"),
        Some(board) => push_board(text, board.as_slice()),
    }
}

// A space before each number.
fn push_more(text: &mut String, vars: &[u32]) -> Result<(), AllocError>
    ensures { OnOk result (string_bytes text.new ≡ string_bytes text.old ++ flat_map spaced vars.now) }
{
    for i in 0..vars.len() {
        let v = vars[i];
        write!(text, " {v}")?;
    }
    Ok(())
}

fn push_variables(text: &mut String, vars: &[u32]) -> Result<(), AllocError>
    ensures { OnOk result (string_bytes text.new ≡ string_bytes text.old ++ variables_text vars.now) }
{
    match vars {
        [] => Ok(()),
        [first, rest @ ..] => {
            write!(text, "{first}")?;
            push_more(text, rest)
        }
    }
}

fn push_part(text: &mut String, vars: &[u32]) -> Result<(), AllocError>
    ensures { OnOk result (string_bytes text.new ≡ string_bytes text.old ++ part_text vars.now) }
{
    text.push_str(" (")?;
    push_variables(text, vars)?;
    text.push(')')
}

/// How many parts there are, and the variables of each.
pub(crate) fn push_parts(text: &mut String, parts: &[Items<u32>]) -> Result<(), AllocError>
    ensures { OnOk result (string_bytes text.new ≡ string_bytes text.old ++ parts_text parts.now) }
{
    let count = parts.len();
    write!(text, "parts {count}")?;
    for i in 0..parts.len() {
        push_part(text, parts[i].as_slice())?;
    }
    Ok(())
}

fn push_solution(text: &mut String, values: &[Order]) -> Result<(), AllocError>
    ensures { OnOk result (string_bytes text.new ≡ string_bytes text.old ++ solution_text values.now) }
{
    text.push(' ')?;
    for i in 0..values.len() {
        push_sign(text, values[i])?;
    }
    Ok(())
}

/// The solutions of a page.
pub(crate) fn push_page(text: &mut String, page: &[Items<Order>]) -> Result<(), AllocError>
    ensures { OnOk result (string_bytes text.new ≡ string_bytes text.old ++ page_text page.now) }
{
    text.push_str("page")?;
    for i in 0..page.len() {
        push_solution(text, page[i].as_slice())?;
    }
    Ok(())
}
