//! An accordion, what it comes to, and its summary.
ghost use Rattle.std.specs.Prelude.{◌<◌, ◌≤◌, IfErr, IfOk, length};
ghost use Rattle.ff_make.specs.Laws.{IsMade};
ghost use Rattle.ff_made.specs.Making.{IsMadeSolved, MakesProblem, WhyNoneMade};

use ff_make::make;
use ff_problem::{Problem, problem};
use ff_solve::{Summary, summary_of};
use ff_tables::NoMemory;
use ff_types::{No, Pattern};
use std::alloc::Global;

// The accordion of so many panels.
fn accordion(alloc: Global, count: u32) -> Result<Pattern, NoMemory>
    requires { (0 < count) × (count ≤ 400) }
    ensures made { IfOk result (IsMade count) }
    ensures some { IfOk result (λ p. 1 ≤ length p.points) }
{
    make(alloc, count)
}

// What it comes to.
fn problem_of(alloc: Global, count: u32, pattern: &Pattern) -> Result<Problem, No>
    requires made { IsMade count pattern.now }
    requires some { 1 ≤ length pattern.now.points }
    ensures made { IfOk result (λ p. MakesProblem count p.faces p.folded p.case) }
    ensures refused { IfErr result (WhyNoneMade count) }
{
    let _ = count;
    problem(alloc, pattern)
}

// What the accordion of so many panels comes to.
pub(crate) fn made_problem(alloc: Global, count: u32) -> Result<Problem, No>
    requires { (0 < count) × (count ≤ 400) }
    ensures made { IfOk result (λ p. MakesProblem count p.faces p.folded p.case) }
    ensures refused { IfErr result (WhyNoneMade count) }
{
    let pattern = accordion(alloc, count)?;
    problem_of(alloc, count, &pattern)
}

// Its summary.
pub(crate) fn made_summary(
    alloc: Global,
    count: u32,
    problem: &Problem,
    budget: u64,
) -> Result<Summary, NoMemory>
    requires { MakesProblem count problem.now.faces problem.now.folded problem.now.case }
    ensures { IfOk result (λ s. IsMadeSolved count budget s.last s.text) }
{
    summary_of(
        alloc,
        count,
        &problem.faces,
        &problem.folded,
        &problem.case,
        budget,
    )
}
