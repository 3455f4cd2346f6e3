//! A part of a report.
ghost use Rattle.std.specs.Prelude.{◌≡◌, ◌++◌, codes, length, IfOk, OnOk, string_bytes};
ghost use Rattle.std.specs.Fmt.{decimal};
ghost use Rattle.std.specs.List.{flat_map};
ghost use Rattle.ff_report.specs.Heads.{lines_of};
ghost use Rattle.ff_report.specs.Refusals.{spaced};
ghost use Rattle.ff_report.specs.Logs.{log_lines};
ghost use Rattle.ff_report.specs.Parts.{part_line, sign, solution_line, solution_of, outcome_lines, part_lines};

use crate::logs::push_log;
use ff_log::Log;
use ff_propagate::Part;
use ff_tables::{Items, NoMemory, Order, Text};
use std::alloc::{AllocError, Global};

/// What the search of a part comes to: all its solutions in order; none, and a log that shows it; or no end within the budget.
#[derive(Drop)]
pub enum PartOutcome {
    Solutions(Items<Items<Order>>),
    None(Log),
    Unfinished,
}

fn push_variables(text: &mut String, vars: &[u32]) -> Result<(), AllocError>
    ensures { OnOk result (string_bytes text.new ≡ string_bytes text.old ++ flat_map (λ v. spaced (decimal v)) vars.now) }
{
    for v in vars {
        let v = *v;
        write!(text, " {v}")?;
    }
    Ok(())
}

fn push_part(text: &mut String, number: u32, vars: &[u32]) -> Result<(), AllocError>
    ensures { OnOk result (string_bytes text.new ≡ string_bytes text.old ++ part_line number vars.now) }
{
    write!(text, "part {number} variables")?;
    push_variables(text, vars)?;
    text.push_str("\n")
}

fn push_sign(text: &mut String, value: Order) -> Result<(), AllocError>
    ensures { OnOk result (string_bytes text.new ≡ string_bytes text.old ++ sign value) }
{
    text.push(match value {
        Order::Below => '-',
        Order::Above => '+',
    })
}

fn push_signs(text: &mut String, values: &[Order]) -> Result<(), AllocError>
    ensures { OnOk result (string_bytes text.new ≡ string_bytes text.old ++ flat_map sign values.now) }
{
    for value in values {
        push_sign(text, *value)?;
    }
    Ok(())
}

fn push_solution(text: &mut String, i: usize, values: &[Order]) -> Result<(), AllocError>
    ensures { OnOk result (string_bytes text.new ≡ string_bytes text.old ++ solution_line i values.now) }
{
    write!(text, "solution {i} ")?;
    push_signs(text, values)?;
    text.push_str("\n")
}

fn push_solutions(text: &mut String, solutions: &[Items<Order>]) -> Result<(), AllocError>
    ensures { OnOk result (string_bytes text.new ≡ string_bytes text.old ++ lines_of (solution_of solutions.now) (length solutions.now)) }
{
    for i in 0..solutions.len() {
        push_solution(text, i, solutions[i].as_slice())?;
    }
    Ok(())
}

fn push_all(text: &mut String, solutions: &[Items<Order>]) -> Result<(), AllocError>
    ensures { OnOk result (string_bytes text.new ≡ string_bytes text.old ++ codes "solutions " ++ decimal (length solutions.now) ++ codes "\n" ++ lines_of (solution_of solutions.now) (length solutions.now)) }
{
    let count = solutions.len();
    write!(text, "solutions {count}\n")?;
    push_solutions(text, solutions)
}

fn push_none(alloc: Global, text: &mut String, log: &Log) -> Result<(), NoMemory>
    ensures { OnOk result (string_bytes text.new ≡ string_bytes text.old ++ codes "none\n" ++ log_lines log.now.lines) }
{
    text.push_str("none\n")?;
    push_log(alloc, text, log)
}

fn push_outcome(alloc: Global, text: &mut String, outcome: &PartOutcome) -> Result<(), NoMemory>
    ensures { OnOk result (string_bytes text.new ≡ string_bytes text.old ++ outcome_lines outcome.now) }
{
    match outcome {
        PartOutcome::Solutions(solutions) => push_all(text, solutions.as_slice())?,
        PartOutcome::None(log) => push_none(alloc, text, log)?,
        PartOutcome::Unfinished => text.push_str("unfinished\n")?,
    }
    Ok(())
}

/// The lines of a part: its number and variables, and then its solutions, `none` and a log, or `unfinished`.
pub fn part_text(
    alloc: Global,
    number: u32,
    part: &Part,
    outcome: &PartOutcome,
) -> Result<Text, NoMemory>
    ensures { IfOk result (λ text. text ≡ part_lines number part.now.vars outcome.now) }
{
    let mut text = String::new(alloc);
    push_part(&mut text, number, part.vars.as_slice())?;
    push_outcome(alloc, &mut text, outcome)?;
    Ok(Text::of(text))
}
