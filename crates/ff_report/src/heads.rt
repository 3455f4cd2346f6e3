//! The head of a report.
ghost use Rattle.std.specs.Prelude.{◌≡◌, ℕ, ◌<◌, ◌++◌, List, length, map, slice_index, slice_index_or, Option, Some, option_map, IfOk, OnOk, string_bytes};
ghost use Rattle.std.specs.List.{flat_map};
ghost use Rattle.ff_whole.specs.Convex.{point_at};
ghost use Rattle.ff_types.specs.Faces.{ring_at};
ghost use Rattle.ff_propagate.specs.declared.facts.Fact.{Fact};
ghost use Rattle.ff_propagate.specs.Facts.{value_at};
ghost use Rattle.ff_report.specs.Heads.{lines_of, counts_line, corner_text, face_line, face_of, order_name, pair_line, pair_of, head, seen_facts, FitFolding};

use ff_propagate::Facts;
use ff_tables::{NoMemory, Order, Text};
use ff_types::{Case, Faces, Folded, Pairs};
use ff_whole::Pt;
use std::alloc::{AllocError, Global};

pub(crate) fn push_counts(
    text: &mut String,
    faces: usize,
    scale: i64,
    pairs: usize,
    constraints: usize,
) -> Result<(), AllocError>
    ensures { OnOk result (string_bytes text.new ≡ string_bytes text.old ++ counts_line faces scale pairs constraints) }
{
    write!(
        text,
        "faces {faces} scale {scale} pairs {pairs} constraints {constraints}\n"
    )
}

fn push_corner(text: &mut String, p: Pt) -> Result<(), AllocError>
    ensures { OnOk result (string_bytes text.new ≡ string_bytes text.old ++ corner_text p) }
{
    let x = p.x;
    let y = p.y;
    write!(text, " {x},{y}")
}

fn push_corners(text: &mut String, points: &[Pt], ring: &[u32]) -> Result<(), AllocError>
    requires { (i : ℕ) → i < length ring.now → slice_index ring.now i < length points.now }
    ensures { OnOk result (string_bytes text.new ≡ string_bytes text.old ++ flat_map corner_text (map (point_at points.now) ring.now)) }
{
    for i in 0..ring.len() {
        push_corner(text, points[ring[i] as usize])?;
    }
    Ok(())
}

fn push_face(
    text: &mut String,
    face: usize,
    up: bool,
    points: &[Pt],
    ring: &[u32],
) -> Result<(), AllocError>
    requires { (i : ℕ) → i < length ring.now → slice_index ring.now i < length points.now }
    ensures { OnOk result (string_bytes text.new ≡ string_bytes text.old ++ face_line face up (map (point_at points.now) ring.now)) }
{
    let side = if up { "up" } else { "down" };
    write!(text, "face {face} {side}")?;
    push_corners(text, points, ring)?;
    text.push_str("\n")
}

fn push_face_at(
    text: &mut String,
    faces: &Faces,
    folded: &Folded,
    f: usize,
) -> Result<(), AllocError>
    requires fit { FitFolding faces.now folded.now }
    requires face { f < length faces.now.rings }
    ensures { OnOk result (string_bytes text.new ≡ string_bytes text.old ++ face_of faces.now folded.now f) }
{
    let up = folded.up.as_slice()[f];
    let ring = faces.rings.as_slice()[f].as_slice();
    push_face(text, f, up, folded.points.as_slice(), ring)
}

fn push_faces(text: &mut String, faces: &Faces, folded: &Folded) -> Result<(), AllocError>
    requires { FitFolding faces.now folded.now }
    ensures { OnOk result (string_bytes text.new ≡ string_bytes text.old ++ lines_of (face_of faces.now folded.now) (length faces.now.rings)) }
{
    for f in 0..faces.rings.as_slice().len() {
        push_face_at(text, faces, folded, f)?;
    }
    Ok(())
}

fn name_of_order(order: Option<Order>) -> &'static str
    ensures { result.now ≡ order_name order }
{
    match order {
        None => "undecided",
        Some(Order::Below) => "below",
        Some(Order::Above) => "above",
    }
}

fn push_pair(
    text: &mut String,
    n: u32,
    f: u32,
    g: u32,
    order: Option<Order>,
) -> Result<(), AllocError>
    ensures { OnOk result (string_bytes text.new ≡ string_bytes text.old ++ pair_line n (f, g) order) }
{
    write!(text, "pair {n} {f} {g} {}\n", name_of_order(order))
}

fn value_of(facts: &Facts, var: u32) -> Option<Order>
    requires { var < length facts.now }
    ensures { result ≡ value_at facts.now var }
{
    Some(facts.fact(var)?.value)
}

fn push_pair_at(text: &mut String, pairs: &Pairs, facts: &Facts, n: u32) -> Result<(), AllocError>
    requires { (length facts.now ≡ length pairs.now) × (n < length pairs.now) }
    ensures { OnOk result (string_bytes text.new ≡ string_bytes text.old ++ pair_of pairs.now facts.now n) }
{
    let (f, g) = pairs.faces(n);
    push_pair(text, n, f, g, value_of(facts, n))
}

fn push_pairs(text: &mut String, pairs: &Pairs, facts: &Facts) -> Result<(), AllocError>
    requires { length facts.now ≡ length pairs.now }
    ensures { OnOk result (string_bytes text.new ≡ string_bytes text.old ++ lines_of (pair_of pairs.now facts.now) (length pairs.now)) }
{
    for n in 0..pairs.count() as u32 {
        push_pair_at(text, pairs, facts, n)?;
    }
    Ok(())
}

/// The head of a report: its counts, a line for each face with its scaled folded points, and, where there are facts, a
/// line for each pair with its order. There are no facts where the closure clashes.
pub fn head_text(
    alloc: Global,
    faces: &Faces,
    folded: &Folded,
    case: &Case,
    facts: Option<&Facts>,
) -> Result<Text, NoMemory>
    requires folding { FitFolding faces.now folded.now }
    requires facts { (fs : List (Option Fact)) → seen_facts facts ≡ Some fs → length fs ≡ length case.now.pairs }
    ensures { IfOk result (λ text. text ≡ head faces.now folded.now case.now (seen_facts facts.entry)) }
{
    let mut text = String::new(alloc);
    push_counts(
        &mut text,
        faces.rings.as_slice().len(),
        folded.scale,
        case.pairs.count(),
        case.system.constraints.as_slice().len(),
    )?;
    push_faces(&mut text, faces, folded)?;
    if let Some(facts) = facts {
        push_pairs(&mut text, &case.pairs, facts)?;
    }
    Ok(Text::of(text))
}
