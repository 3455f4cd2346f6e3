//! How a line is written.
ghost use Rattle.std.specs.Prelude.{◌≡◌, [], ◌∷◌, ◌++◌, IfOk, OnOk, string_bytes, codes};
ghost use Rattle.std.specs.List.{flat_map, join_with_byte};
ghost use Rattle.ff_log.specs.declared.logs.LogLine.TheVariants.{Use as use_of};
ghost use Rattle.ff_types.specs.declared.cites.Cite.TheVariants.{Transitivity as transitivity};
ghost use Rattle.ff_log.specs.Spelling.{order_word, with_edge, with_face, spelling};
ghost use Rattle.ff_log.specs.Reading.{spaced};

use crate::logs::LogLine;
use ff_tables::{NoMemory, Order, Text};
use ff_types::Cite;
use ff_whole::Place;
use std::alloc::{AllocError, Global};

// A space, and then `X,Y,W`.
fn push_place(text: &mut String, place: &Place) -> Result<(), AllocError>
    ensures { OnOk result (string_bytes text.new ≡ string_bytes text.old ++ spaced place.now) }
{
    let Place { x, y, w } = *place;
    write!(text, " {x},{y},{w}")
}

fn push_places(text: &mut String, at: &[Place]) -> Result<(), AllocError>
    ensures { OnOk result (string_bytes text.new ≡ string_bytes text.old ++ flat_map spaced at.now) }
{
    for i in 0..at.len() {
        push_place(text, &at[i])?;
    }
    Ok(())
}

fn order_text(value: Order) -> &'static str
    ensures { result.now ≡ order_word value }
{
    match value {
        Order::Above => "above",
        Order::Below => "below",
    }
}

// The words of an edge and a face before the places.
fn face_front(alloc: Global, name: &str, e: u32, face: u32) -> Result<String, AllocError>
    ensures { IfOk result (λ t. string_bytes t ≡ join_with_byte 32 (codes "use" ∷ name.now ∷ with_face e face [])) }
{
    format!(in alloc; "use {name} {e} face {face} at")
}

// A cite of an edge and a face, with places.
fn face_text(
    alloc: Global,
    name: &str,
    e: u32,
    face: u32,
    at: &[Place],
) -> Result<String, AllocError>
    ensures { IfOk result (λ t. string_bytes t ≡ join_with_byte 32 (codes "use" ∷ name.now ∷ with_face e face at.now)) }
{
    let mut text = face_front(alloc, name, e, face)?;
    push_places(&mut text, at)?;
    Ok(text)
}

// A cite of two edges.
fn edge_text(alloc: Global, name: &str, e: u32, other: u32) -> Result<String, AllocError>
    ensures { IfOk result (λ t. string_bytes t ≡ join_with_byte 32 (codes "use" ∷ name.now ∷ with_edge e other)) }
{
    format!(in alloc; "use {name} {e} edge {other}")
}

// The words of three faces before the places.
fn three_front(alloc: Global, f: u32, g: u32, h: u32) -> Result<String, AllocError>
    ensures { IfOk result (λ t. string_bytes t ≡ spelling (use_of (transitivity f g h []))) }
{
    format!(in alloc; "use transitivity {f} {g} {h} at")
}

// A cite of three faces, with places.
fn three_text(alloc: Global, f: u32, g: u32, h: u32, at: &[Place]) -> Result<String, AllocError>
    ensures { IfOk result (λ t. string_bytes t ≡ spelling (use_of (transitivity f g h at.now))) }
{
    let mut text = three_front(alloc, f, g, h)?;
    push_places(&mut text, at)?;
    Ok(text)
}

fn use_text(alloc: Global, cite: &Cite) -> Result<String, AllocError>
    ensures { IfOk result (λ t. string_bytes t ≡ spelling (use_of cite.now)) }
{
    match cite {
        Cite::Transitivity { f, g, h, at } => { three_text(alloc, *f, *g, *h, at) },
        Cite::TacoTaco { e, e2 } => format!(in alloc; "use taco-taco {e} {e2}"),
        Cite::TacoFace { e, face, at } => { face_text(alloc, "taco-tortilla", *e, *face, at) },
        Cite::TacoEdge { e, flat } => edge_text(alloc, "taco-tortilla", *e, *flat),
        Cite::FlatFace { flat, face, at } => {
            face_text(alloc, "tortilla-tortilla", *flat, *face, at)
        },
        Cite::FlatEdge { flat, flat2 } => edge_text(alloc, "tortilla-tortilla", *flat, *flat2),
    }
}

fn spelled(alloc: Global, line: &LogLine) -> Result<String, AllocError>
    ensures { IfOk result (λ t. string_bytes t ≡ spelling line.now) }
{
    match line {
        LogLine::Use(cite) => use_text(alloc, cite),
        LogLine::Crease(e) => format!(in alloc; "crease {e}"),
        LogLine::Pin(i) => format!(in alloc; "pin {i}"),
        LogLine::Force { f, g, value, by } => {
            let value = order_text(*value);
            format!(in alloc; "force {f} {g} {value} {by}")
        },
        LogLine::Try { f, g, value } => {
            let value = order_text(*value);
            format!(in alloc; "try {f} {g} {value}")
        },
        LogLine::Dead(k) => format!(in alloc; "dead {k}"),
        LogLine::Clash { f, g } => format!(in alloc; "clash {f} {g}"),
    }
}

/// The text of the line. Reading it gives the line again, if its places have the size of places whose side may be asked.
pub fn line_text(alloc: Global, line: &LogLine) -> Result<Text, NoMemory>
    ensures spelled { IfOk result (λ t. t ≡ spelling line.now) }
{
    Ok(Text::of(spelled(alloc, line)?))
}
