//! The summary of a case that is made and solved.
ghost use Rattle.std.specs.Prelude.{◌≡◌, ◌<◌, ◌≤◌, ◌^◌, IfOk, length};
ghost use Rattle.ff_propagate.specs.Closing.{ClosesTo};
ghost use Rattle.ff_propagate.specs.declared.facts.Closed.TheVariants.{Board, Clash};
ghost use Rattle.ff_solve.specs.Summaries.{IsBoardSummary, IsClashSummary, IsSummary};

use crate::outcomes::{ending, outcomes_of};
use ff_parts::parts;
use ff_propagate::{ClashAt, Closed, Facts, close};
use ff_report::{Last, summary_text};
use ff_tables::{NoMemory, Text};
use ff_types::{Case, Faces, Folded};
use std::alloc::Global;

/// A summary and how it ends.
#[derive(Drop)]
pub struct Summary {
    pub text: Text,
    pub last: Last,
}

// The summary of a board.
fn board_summary(
    alloc: Global,
    count: u32,
    faces: &Faces,
    folded: &Folded,
    case: &Case,
    facts: &Facts,
    budget: u64,
) -> Result<Summary, NoMemory>
    requires board { ClosesTo case.now.system.vars case.now.system.constraints case.now.starts (Board facts.now) }
    requires few { length case.now.system.constraints < 2 ^ 32 }
    ensures { IfOk result (λ s. IsBoardSummary count faces.now folded.now case.now budget s.last s.text) }
{
    let _vars = case.system.vars;
    let parts = parts(alloc, &case.system, facts)?;
    let outcomes = outcomes_of(alloc, case, facts, parts.as_slice(), budget)?;
    let last = ending(outcomes.as_slice());
    let text = summary_text(
        alloc,
        count,
        faces,
        folded,
        case,
        Some(facts),
        parts.as_slice().len() as u32,
        last,
    )?;
    Ok(Summary { text, last })
}

// The summary where the closure clashes.
fn clash_summary(
    alloc: Global,
    count: u32,
    faces: &Faces,
    folded: &Folded,
    case: &Case,
    facts: &Facts,
    at: ClashAt,
) -> Result<Summary, NoMemory>
    requires { ClosesTo case.now.system.vars case.now.system.constraints case.now.starts (Clash facts.now at) }
    ensures { IfOk result (λ s. IsClashSummary count faces.now folded.now case.now s.last s.text) }
{
    let _ = facts;
    let _ = at;
    let last = Last::Impossible;
    Ok(Summary {
        text: summary_text(alloc, count, faces, folded, case, None, 0, last)?,
        last,
    })
}

/// The summary of a case on its faces and their folding, made with this count, each part searched within `budget` turns.
pub fn summary_of(
    alloc: Global,
    count: u32,
    faces: &Faces,
    folded: &Folded,
    case: &Case,
    budget: u64,
) -> Result<Summary, NoMemory>
    requires few { (length case.now.system.constraints < 2 ^ 32) × (length case.now.starts < 2 ^ 32) }
    ensures { IfOk result (λ s. IsSummary count faces.now folded.now case.now budget s.last s.text) }
{
    match close(alloc, &case.system, &case.starts)? {
        Closed::Board(facts) => board_summary(alloc, count, faces, folded, case, &facts, budget),
        Closed::Clash { facts, at } => {
            clash_summary(alloc, count, faces, folded, case, &facts, at)
        },
    }
}
