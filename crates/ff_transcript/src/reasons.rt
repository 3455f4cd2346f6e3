//! Why a pair has its value, in texts.
ghost use Rattle.std.specs.Prelude.{◌≡◌, ◌++◌, OnOk, codes, string_bytes};
ghost use Rattle.std.specs.Fmt.{decimal};
ghost use Rattle.ff_transcript.specs.Reasons.{beside_text, cite_text, more_premises, premise_text, premises_text, why_text};

use ff_types::Cite;
use ff_viewer::{Premise, Why, order_name};
use std::alloc::AllocError;

fn push_beside(
    text: &mut String,
    name: &str,
    e: u32,
    word: &str,
    other: u32,
) -> Result<(), AllocError>
    ensures { OnOk result (string_bytes text.new ≡ string_bytes text.old ++ beside_text name.now e word.now other) }
{
    write!(text, "{name} {e} {word} {other}")
}

fn push_cite(text: &mut String, cite: &Cite) -> Result<(), AllocError>
    ensures { OnOk result (string_bytes text.new ≡ string_bytes text.old ++ cite_text cite.now) }
{
    match cite {
        Cite::Transitivity { f, g, h, .. } => write!(text, "transitivity {f} {g} {h}"),
        Cite::TacoTaco { e, e2 } => write!(text, "taco-taco {e} {e2}"),
        Cite::TacoFace { e, face, .. } => { push_beside(text, "taco-tortilla", *e, "face", *face) },
        Cite::TacoEdge { e, flat } => { push_beside(text, "taco-tortilla", *e, "edge", *flat) },
        Cite::FlatFace { flat, face, .. } => {
            push_beside(text, "tortilla-tortilla", *flat, "face", *face)
        },
        Cite::FlatEdge { flat, flat2 } => {
            push_beside(text, "tortilla-tortilla", *flat, "edge", *flat2)
        },
    }
}

fn push_premise(text: &mut String, premise: Premise) -> Result<(), AllocError>
    ensures { OnOk result (string_bytes text.new ≡ string_bytes text.old ++ premise_text premise) }
{
    let Premise { f, g, level, .. } = premise;
    let value = order_name(premise.value);
    write!(text, "{f} {g} {value} {level}")
}

// A comma and a space before each premise.
fn push_more(text: &mut String, premises: &[Premise]) -> Result<(), AllocError>
    ensures { OnOk result (string_bytes text.new ≡ string_bytes text.old ++ more_premises premises.now) }
{
    for i in 0..premises.len() {
        text.push_str(", ")?;
        push_premise(text, premises[i])?;
    }
    Ok(())
}

fn push_premises(text: &mut String, premises: &[Premise]) -> Result<(), AllocError>
    ensures { OnOk result (string_bytes text.new ≡ string_bytes text.old ++ premises_text premises.now) }
{
    match premises {
        [] => Ok(()),
        [first, rest @ ..] => {
            push_premise(text, *first)?;
            push_more(text, rest)
        }
    }
}

fn push_forced(
    text: &mut String,
    level: u32,
    cite: &Cite,
    premises: &[Premise],
) -> Result<(), AllocError>
    ensures { OnOk result (string_bytes text.new ≡ string_bytes text.old ++ codes "level " ++ decimal level ++ codes " by " ++ cite_text cite.now ++ codes " from " ++ premises_text premises.now) }
{
    write!(text, "level {level} by ")?;
    push_cite(text, cite)?;
    text.push_str(" from ")?;
    push_premises(text, premises)
}

/// Why a pair has its value.
pub(crate) fn push_why(text: &mut String, why: &Why) -> Result<(), AllocError>
    ensures { OnOk result (string_bytes text.new ≡ string_bytes text.old ++ why_text why.now) }
{
    match why {
        Why::Crease(e) => write!(text, "crease {e}"),
        Why::Pin => text.push_str("pin"),
        Why::Forced {
            level,
            cite,
            premises,
        } => push_forced(text, *level, cite, premises.as_slice()),
    }
}
