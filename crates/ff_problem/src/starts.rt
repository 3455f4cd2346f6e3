//! The facts of the creases.
ghost use Rattle.std.specs.Prelude.{◌≡◌, ◌<◌, ◌++◌, [], IfOk, OnOk, length};
ghost use Rattle.std.specs.List.{filter_map, cons_option};
ghost use Rattle.ff_types.specs.declared.patterns.Pattern.{Pattern as PatternRow};
ghost use Rattle.ff_types.specs.Foldings.{is_up};
ghost use Rattle.ff_types.specs.Faces.{mark_at};
ghost use Rattle.ff_types.specs.Sides.{sides_at};
ghost use Rattle.ff_types.specs.Sheets.{sheet_of, edges_of};
ghost use Rattle.ff_types.specs.Cites.{face_or};
ghost use Rattle.ff_types.specs.Cases.{crease_order, start_of};

use ff_tables::{Given, GivenBy, Items, NoMemory, Order};
use ff_types::{Faces, Folded, Mark, Pairs, Pattern};
use std::alloc::Global;

// The order of the lesser face to the greater one that keeps a crease with this mark.
fn order_of(mark: Mark, up: bool) -> Option<Order>
    ensures { result ≡ crease_order mark up }
{
    match (mark, up) {
        (Mark::V, true) | (Mark::M, false) => Some(Order::Below),
        (Mark::V, false) | (Mark::M, true) => Some(Order::Above),
        _ => None,
    }
}

fn face_in(side: Option<u32>) -> u32
    ensures { result ≡ face_or side }
{
    side.unwrap_or(0)
}

// Whether the face lies with its first side up.
fn lies_up(up: &[bool], f: u32) -> bool
    ensures { result ≡ is_up up.now f }
{
    match up.get(f as usize) {
        Some(up) => *up,
        None => true,
    }
}

// The fact of the edge, where it is marked M or V.
fn start_at(
    pattern: &Pattern,
    faces: &Faces,
    folded: &Folded,
    pairs: &Pairs,
    e: u32,
) -> Option<Given>
    requires sides { e < length faces.now.sides }
    requires marks { e < length faces.now.marks }
    ensures { result ≡ start_of (sheet_of pattern.now faces.now folded.now) pairs.now e }
{
    // The contract alone names what isn't used.
    let _ = pattern;
    let sides = faces.sides.as_slice()[e as usize];
    let left = face_in(sides.left);
    let right = face_in(sides.right);
    let low = left.min(right);
    let var = pairs.number(low, left.max(right))?;
    let value = order_of(
        faces.marks.as_slice()[e as usize],
        lies_up(folded.up.as_slice(), low),
    )?;
    Some(Given {
        var,
        value,
        by: GivenBy::Crease(e),
    })
}

fn push_start(starts: &mut Vec<Given>, start: Option<Given>) -> Result<(), NoMemory>
    ensures { OnOk result (starts.new.items ≡ starts.old.items ++ cons_option start []) }
{
    if let Some(start) = start {
        starts.push(start)?;
    }
    Ok(())
}

// The facts of the edges marked M or V, in edge order.
pub(crate) fn starts_of(
    alloc: Global,
    pattern: &Pattern,
    faces: &Faces,
    folded: &Folded,
    pairs: &Pairs,
) -> Result<Items<Given>, NoMemory>
    requires sides { length faces.now.sides ≡ length pattern.now.edges }
    requires marks { length faces.now.marks ≡ length pattern.now.edges }
    ensures { IfOk result (λ starts. starts ≡ filter_map (start_of (sheet_of pattern.now faces.now folded.now) pairs.now) (edges_of (sheet_of pattern.now faces.now folded.now))) }
{
    let mut starts = Vec::new(alloc);
    for e in 0..pattern.edges.as_slice().len() as u32 {
        push_start(&mut starts, start_at(pattern, faces, folded, pairs, e))?;
    }
    Ok(Items::of(starts))
}
