//! The report of a case.
ghost use Rattle.std.specs.Prelude.{◌≡◌, suc, ◌<◌, ◌++◌, ◌^◌, IfOk, [], length};
ghost use Rattle.ff_propagate.specs.Facts.{value_at};
ghost use Rattle.ff_propagate.specs.Closing.{ClosesTo};
ghost use Rattle.ff_propagate.specs.declared.facts.Closed.TheVariants.{Board, Clash};
ghost use Rattle.ff_parts.specs.Lists.{vars_of};
ghost use Rattle.ff_report.specs.Heads.{FitFolding};
ghost use Rattle.ff_report.specs.Lines.{part_at};
ghost use Rattle.ff_solve.specs.Reports.{IsClashReport, IsReport};
ghost use Rattle.ff_solve.specs.Written.{AreReported, piece_at, report_text};

use crate::outcomes::{ending, outcomes_of};
use crate::refuting::clash_log;
use ff_parts::parts;
use ff_propagate::{ClashAt, Closed, Facts, Part, close};
use ff_report::{Last, PartOutcome, clash_text, head_text, last_text, part_text, parts_text};
use ff_tables::{Items, NoMemory, Text};
use ff_types::{Case, Faces, Folded};
use std::alloc::{AllocError, Global};

/// A report, to be written part by part: the lines before the parts, each part with what its search came to, the lines that end it,
/// and how it ends.
#[derive(Drop)]
pub struct Report {
    pub head: Text,
    pub parts: Items<Part>,
    pub outcomes: Items<PartOutcome>,
    pub end: Text,
    pub last: Last,
    pub ghost valid: { AreReported parts outcomes },
}

impl Report {
    /// How many pieces the text has.
    pub fn pieces(&self) -> usize
        ensures { result ≡ suc (suc (length self.now.parts)) }
    {
        self.parts.as_slice().len() + 2
    }

    // The lines of a part.
    fn part(&self, alloc: Global, k: usize) -> Result<Text, NoMemory>
        requires { k < length self.now.parts }
        ensures { IfOk result (λ text. text ≡ part_at (vars_of self.now.parts) self.now.outcomes k) }
    {
        part_text(
            alloc,
            k as u32,
            &self.parts.as_slice()[k],
            &self.outcomes.as_slice()[k],
        )
    }

    /// A piece of the text.
    pub fn piece(&self, alloc: Global, n: usize) -> Result<Text, NoMemory>
        requires { n < suc (suc (length self.now.parts)) }
        ensures { IfOk result (λ text. text ≡ piece_at self.now.head self.now.parts self.now.outcomes self.now.end n) }
    {
        if n == 0 {
            return self.head.copy(alloc);
        }
        if n - 1 == self.parts.as_slice().len() {
            return self.end.copy(alloc);
        }
        self.part(alloc, n - 1)
    }
}

fn joined(alloc: Global, first: &Text, second: &Text) -> Result<Text, NoMemory>
    ensures { IfOk result (λ text. text ≡ first.now ++ second.now) }
{
    let mut text = String::from_str(alloc, first.as_str())?;
    text.push_str(second.as_str())?;
    Ok(Text::of(text))
}

// The report of a board.
fn report_board(
    alloc: Global,
    faces: &Faces,
    folded: &Folded,
    case: &Case,
    facts: &Facts,
    budget: u64,
) -> Result<Report, NoMemory>
    requires folding { FitFolding faces.now folded.now }
    requires board { ClosesTo case.now.system.vars case.now.system.constraints case.now.starts (Board facts.now) }
    requires few { length case.now.system.constraints < 2 ^ 32 }
    ensures { IfOk result (λ r. IsReport faces.now folded.now case.now budget r.last (report_text r.head r.parts r.outcomes r.end)) }
{
    let _vars = case.system.vars;
    let head = head_text(alloc, faces, folded, case, Some(facts))?;
    let parts = parts(alloc, &case.system, facts)?;
    let outcomes = outcomes_of(alloc, case, facts, parts.as_slice(), budget)?;
    let count = parts_text(alloc, parts.as_slice().len() as u32)?;
    let last = ending(outcomes.as_slice());
    let end = last_text(alloc, last)?;
    Ok(Report {
        head: joined(alloc, &head, &count)?,
        parts,
        outcomes,
        end,
        last,
    })
}

fn no_parts(alloc: Global) -> Items<Part>
    ensures { result ≡ [] }
{
    Items::of(Vec::new(alloc))
}

fn no_outcomes(alloc: Global) -> Items<PartOutcome>
    ensures { result ≡ [] }
{
    Items::of(Vec::new(alloc))
}

// The report where the closure clashes.
fn report_clash(
    alloc: Global,
    faces: &Faces,
    folded: &Folded,
    case: &Case,
    facts: &Facts,
    at: ClashAt,
) -> Result<Report, NoMemory>
    requires folding { FitFolding faces.now folded.now }
    requires clash { ClosesTo case.now.system.vars case.now.system.constraints case.now.starts (Clash facts.now at) }
    ensures { IfOk result (λ r. IsClashReport faces.now folded.now case.now r.last (report_text r.head r.parts r.outcomes r.end)) }
{
    let log = clash_log(alloc, case, facts, at)?;
    let head = head_text(alloc, faces, folded, case, None)?;
    let end = clash_text(alloc, &log)?;
    let parts = no_parts(alloc);
    let outcomes = no_outcomes(alloc);
    Ok(Report {
        head,
        parts,
        outcomes,
        end,
        last: Last::Impossible,
    })
}

/// The report of a case on its faces and their folding, each part searched within `budget` turns.
pub fn report_of(
    alloc: Global,
    faces: &Faces,
    folded: &Folded,
    case: &Case,
    budget: u64,
) -> Result<Report, NoMemory>
    requires folding { FitFolding faces.now folded.now }
    requires few { (length case.now.system.constraints < 2 ^ 32) × (length case.now.starts < 2 ^ 32) }
    ensures { IfOk result (λ r. IsReport faces.now folded.now case.now budget r.last (report_text r.head r.parts r.outcomes r.end)) }
{
    match close(alloc, &case.system, &case.starts)? {
        Closed::Board(facts) => report_board(alloc, faces, folded, case, &facts, budget),
        Closed::Clash { facts, at } => report_clash(alloc, faces, folded, case, &facts, at),
    }
}
