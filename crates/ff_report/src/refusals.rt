//! The line of a refusal.
ghost use Rattle.std.specs.Prelude.{◌≡◌, ◌++◌, IfOk, OnOk, string_bytes};
ghost use Rattle.std.specs.Fmt.{decimal};
ghost use Rattle.ff_report.specs.Refusals.{key_name, what_name, spaced, refusal_name, refusal_place, refusal_line};

use ff_tables::{NoMemory, Text};
use ff_types::{Key, Refusal, What};
use std::alloc::{AllocError, Global};

fn name_of_key(key: Key) -> &'static str
    ensures { result.now ≡ key_name key }
{
    match key {
        Key::Fold => "fold",
        Key::VerticesCoords => "vertices_coords",
        Key::EdgesVertices => "edges_vertices",
        Key::EdgesAssignment => "edges_assignment",
        Key::Pins => "pins",
        Key::Log => "log",
        Key::Viewers => "viewers",
        Key::FacesVertices => "faces_vertices",
        Key::FaceOrders => "faceOrders",
        Key::Choice => "choice",
        Key::Near => "near",
        Key::Lines => "lines",
    }
}

fn name_of_what(what: What) -> &'static str
    ensures { result.now ≡ what_name what }
{
    match what {
        What::Vertices => "vertices",
        What::Edges => "edges",
        What::Pins => "pins",
        What::Viewers => "viewers",
        What::Commands => "commands",
        What::Faces => "faces",
        What::Cells => "cells",
        What::Entries => "entries",
        What::Pairs => "pairs",
        What::Constraints => "constraints",
        What::Lines => "lines",
    }
}

// The number and the name of a refusal.
fn name_of_refusal(refusal: Refusal) -> &'static str
    ensures { result.now ≡ refusal_name refusal }
{
    match refusal {
        Refusal::TooLong => "1 too long",
        Refusal::NotJson => "2 not json",
        Refusal::BadKey { .. } => "3 bad key",
        Refusal::BadVertex { .. } => "4 bad vertex",
        Refusal::FarVertex { .. } => "5 far vertex",
        Refusal::BadEdge { .. } => "6 bad edge",
        Refusal::BadMark { .. } => "7 bad mark",
        Refusal::SamePoint { .. } => "8 same point",
        Refusal::Crossing { .. } => "9 crossing",
        Refusal::Loose { .. } => "10 loose",
        Refusal::Rim { .. } => "11 rim",
        Refusal::Pinch { .. } => "12 pinch",
        Refusal::Reflex { .. } => "13 reflex",
        Refusal::Enclosed { .. } => "14 enclosed",
        Refusal::Apart { .. } => "15 apart",
        Refusal::Parity { .. } => "16 parity",
        Refusal::Inconsistent { .. } => "17 inconsistent",
        Refusal::Oversized { .. } => "18 oversized",
        Refusal::TooMany { .. } => "19 too many",
        Refusal::BadScript { .. } => "20 bad script",
        Refusal::BadFaces { .. } => "21 bad faces",
        Refusal::BadOrder { .. } => "22 bad order",
        Refusal::BadChoice { .. } => "23 bad choice",
        Refusal::BadNear { .. } => "24 bad near",
        Refusal::BadLine { .. } => "25 bad line",
        Refusal::OffGrid { .. } => "26 off grid",
        Refusal::Overlap { .. } => "27 overlap",
    }
}

fn push_number(text: &mut String, n: u32) -> Result<(), AllocError>
    ensures { OnOk result (string_bytes text.new ≡ string_bytes text.old ++ spaced (decimal n)) }
{
    write!(text, " {n}")
}

fn push_two(text: &mut String, m: u32, n: u32) -> Result<(), AllocError>
    ensures { OnOk result (string_bytes text.new ≡ string_bytes text.old ++ spaced (decimal m) ++ spaced (decimal n)) }
{
    write!(text, " {m} {n}")
}

// Where a refusal comes.
fn push_place(text: &mut String, refusal: Refusal) -> Result<(), AllocError>
    ensures { OnOk result (string_bytes text.new ≡ string_bytes text.old ++ refusal_place refusal) }
{
    match refusal {
        Refusal::TooLong | Refusal::NotJson => Ok(()),
        Refusal::BadKey { key } => write!(text, " {}", name_of_key(key)),
        Refusal::TooMany { what, limit } => write!(text, " {} {limit}", name_of_what(what)),
        Refusal::Crossing { e, e2 } => push_two(text, e, e2),
        Refusal::BadScript { viewer, line } => push_two(text, viewer, line),
        Refusal::OffGrid { line, line2 } | Refusal::Overlap { line, line2 } => push_two(
            text, line, line2,
        ),
        Refusal::BadVertex { v }
        | Refusal::FarVertex { v }
        | Refusal::SamePoint { v }
        | Refusal::Loose { v }
        | Refusal::Pinch { v }
        | Refusal::Reflex { v }
        | Refusal::Enclosed { v }
        | Refusal::Inconsistent { v }
        | Refusal::Oversized { v } => push_number(text, v),
        Refusal::BadEdge { e }
        | Refusal::BadMark { e }
        | Refusal::Rim { e }
        | Refusal::Parity { e } => push_number(text, e),
        Refusal::Apart { face } => push_number(text, face),
        Refusal::BadFaces { item } | Refusal::BadOrder { item } | Refusal::BadNear { item } =>
            push_number(text, item),
        Refusal::BadChoice { part } => push_number(text, part),
        Refusal::BadLine { line } => push_number(text, line),
    }
}

/// The one line for a refused input: its number, its name, and where it comes.
pub fn refusal_text(alloc: Global, refusal: &Refusal) -> Result<Text, NoMemory>
    ensures { IfOk result (λ text. text ≡ refusal_line refusal.now) }
{
    let mut text = String::new(alloc);
    write!(text, "refused {}", name_of_refusal(*refusal))?;
    push_place(&mut text, *refusal)?;
    text.push_str("\n")?;
    Ok(Text::of(text))
}
