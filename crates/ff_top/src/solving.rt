//! The answer to `solve`.
ghost use Rattle.std.specs.Prelude.{◌≡◌, ◌≤◌, IfOk, IfErr, MatchResult, length};
ghost use Rattle.ff_types.specs.declared.limits.TheConstants.{MOST_BYTES as most_bytes};
ghost use Rattle.ff_read.specs.Read.{IsReadAs};
ghost use Rattle.ff_solve.specs.Written.{report_text};
ghost use Rattle.ff_top.specs.Solving.{WhyNoReport, ReadsProblem, IsSolved, AnswersSolve, status_of};
ghost use Rattle.ff_top.specs.Writings.{text_of};

use crate::outcome::{Outcome, refuse};
use crate::status::Status;
use crate::writing::Writing;
use ff_problem::{Problem, problem};
use ff_read::read_fold;
use ff_report::Last;
use ff_solve::{Report, report_of};
use ff_tables::NoMemory;
use ff_types::{No, Pattern};
use std::alloc::Global;

// How a report ends, as a status.
pub(crate) fn status_at(last: Last) -> Status
    ensures { result ≡ status_of last }
{
    match last {
        Last::Done => Status::Done,
        Last::Impossible => Status::Impossible,
        Last::Unfinished => Status::Unfinished,
    }
}

// The pattern that the bytes spell.
fn read_pattern(alloc: Global, bytes: &[u8]) -> Result<Pattern, No>
    requires { length bytes.now ≤ most_bytes }
    ensures made { IfOk result (IsReadAs bytes.now) }
    ensures some { IfOk result (λ p. 1 ≤ length p.points) }
    ensures refused { IfErr result (WhyNoReport bytes.now) }
{
    read_fold(alloc, bytes)
}

// What the pattern comes to.
fn read_as_problem(alloc: Global, bytes: &[u8], pattern: &Pattern) -> Result<Problem, No>
    requires few { length bytes.now ≤ most_bytes }
    requires read { IsReadAs bytes.now pattern.now }
    requires some { 1 ≤ length pattern.now.points }
    ensures made { IfOk result (λ p. ReadsProblem bytes.now p.faces p.folded p.case) }
    ensures refused { IfErr result (WhyNoReport bytes.now) }
{
    let _ = bytes;
    problem(alloc, pattern)
}

// What the bytes come to.
fn read_problem(alloc: Global, bytes: &[u8]) -> Result<Problem, No>
    requires { length bytes.now ≤ most_bytes }
    ensures made { IfOk result (λ p. ReadsProblem bytes.now p.faces p.folded p.case) }
    ensures refused { IfErr result (WhyNoReport bytes.now) }
{
    let pattern = read_pattern(alloc, bytes)?;
    read_as_problem(alloc, bytes, &pattern)
}

// The report of what the bytes come to.
fn report_on(
    alloc: Global,
    bytes: &[u8],
    problem: &Problem,
    budget: u64,
) -> Result<Report, NoMemory>
    requires { ReadsProblem bytes.now problem.now.faces problem.now.folded problem.now.case }
    ensures { IfOk result (λ r. IsSolved bytes.now budget r.last (report_text r.head r.parts r.outcomes r.end)) }
{
    let _ = bytes;
    report_of(
        alloc,
        &problem.faces,
        &problem.folded,
        &problem.case,
        budget,
    )
}

// The answer to `solve` on these bytes.
pub(crate) fn solve(alloc: Global, bytes: &[u8], budget: u64) -> Result<Outcome, NoMemory>
    requires { length bytes.now ≤ most_bytes }
    ensures { IfOk result (λ o. AnswersSolve budget bytes.now o.status (text_of o.writing)) }
{
    match read_problem(alloc, bytes) {
        Ok(problem) => {
            let report = report_on(alloc, bytes, &problem, budget)?;
            Ok(Outcome {
                status: status_at(report.last),
                writing: Writing::Report(report),
            })
        }
        Err(No::Refused(refusal)) => refuse(alloc, refusal),
        Err(No::NoMemory) => Err(NoMemory),
    }
}
