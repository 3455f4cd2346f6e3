//! The summary of a pattern that is made and solved.
ghost use Rattle.std.specs.Prelude.{◌≡◌, ℕ, ◌<◌, ◌≤◌, ◌^◌, ◌++◌, List, length, Option, Some, IfOk, OnOk, string_bytes};
ghost use Rattle.ff_propagate.specs.declared.facts.Fact.{Fact};
ghost use Rattle.ff_propagate.specs.Facts.{value_at};
ghost use Rattle.ff_report.specs.Heads.{seen_facts};
ghost use Rattle.ff_report.specs.Summaries.{decided_below, decided_by, decided_line, decided_one, made_line, summary_lines};

use crate::heads::push_counts;
use crate::lines::{Last, last_text};
use ff_propagate::Facts;
use ff_tables::{NoMemory, Text};
use ff_types::{Case, Faces, Folded};
use std::alloc::{AllocError, Global};

fn push_made(text: &mut String, count: u32) -> Result<(), AllocError>
    ensures { OnOk result (string_bytes text.new ≡ string_bytes text.old ++ made_line count) }
{
    write!(text, "make {count}\n")
}

fn push_decided(text: &mut String, decided: usize, parts: u32) -> Result<(), AllocError>
    ensures { OnOk result (string_bytes text.new ≡ string_bytes text.old ++ decided_line decided parts) }
{
    write!(text, "decided {decided} parts {parts}\n")
}

fn count_of(facts: &Facts, var: u32) -> usize
    requires { var < length facts.now }
    ensures is { result ≡ decided_one (value_at facts.now var) }
    ensures few { result ≤ 1 }
{
    match facts.fact(var) {
        Some(_) => 1,
        None => 0,
    }
}

// How many of the variables have a fact.
fn facts_below(facts: &Facts, vars: usize) -> usize
    requires { (length facts.now ≡ vars) × (vars < 2 ^ 32) }
    ensures { result ≡ decided_below (value_at facts.now) vars }
{
    let mut count = 0;
    for var in 0..vars as u32 {
        count += count_of(facts, var);
    }
    count
}

fn decided_pairs(case: &Case, facts: Option<&Facts>) -> usize
    requires { (fs : List (Option Fact)) → seen_facts facts ≡ Some fs → length fs ≡ length case.now.pairs }
    ensures { result ≡ decided_by (seen_facts facts.entry) (length case.now.pairs) }
{
    match facts {
        Some(facts) => facts_below(facts, case.pairs.count()),
        None => 0,
    }
}

/// The summary of the pattern that is made with this count: how many pairs are decided before any search, how many independent parts
/// the rest has, and how the report ends. There are no facts where the closure clashes.
pub fn summary_text(
    alloc: Global,
    count: u32,
    faces: &Faces,
    folded: &Folded,
    case: &Case,
    facts: Option<&Facts>,
    parts: u32,
    last: Last,
) -> Result<Text, NoMemory>
    requires { (fs : List (Option Fact)) → seen_facts facts ≡ Some fs → length fs ≡ length case.now.pairs }
    ensures { IfOk result (λ text. text ≡ summary_lines count faces.now folded.now case.now (seen_facts facts.entry) parts last) }
{
    let decided = decided_pairs(case, facts);
    let mut text = String::new(alloc);
    push_made(&mut text, count)?;
    push_counts(
        &mut text,
        faces.rings.as_slice().len(),
        folded.scale,
        case.pairs.count(),
        case.system.constraints.as_slice().len(),
    )?;
    push_decided(&mut text, decided, parts)?;
    let last = last_text(alloc, last)?;
    text.push_str(last.as_str())?;
    Ok(Text::of(text))
}
