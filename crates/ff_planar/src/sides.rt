//! What lies on the two sides of each edge, and whether the marks fit.
ghost use Rattle.std.specs.Prelude.{◌≡◌, ◌<◌, ◌↔◌, IsTrue, length, List, Some, IfOk};
ghost use Rattle.ff_types.specs.Drawings.{joined, IsDrawing};
ghost use Rattle.ff_types.specs.Walks.{AreRingWalks};
ghost use Rattle.ff_types.specs.FaceRefusals.{RimAt};
ghost use Rattle.ff_drawn.specs.Darts.{AreStarts};
ghost use Rattle.ff_drawn.specs.Drawn.{IsDrawnBy};
ghost use Rattle.ff_planar.specs.Traces.{AreTraced};
ghost use Rattle.ff_planar.specs.Seen.{IsSeenOf, AreSeen, AreAllSeen, IsUnfit, given_mark};
ghost use Rattle.ff_drawn.specs.Firsts.{IsFirst};

use crate::traces::Side;
use ff_drawn::{Dart, place_of};
use ff_tables::{Items, NoMemory};
use ff_types::{EdgeEnds, EdgeSides, Mark};
use ff_whole::Pt;
use std::alloc::Global;

// The face left of the way from `u` to `v`, or None where the outside is.
fn face_of(
    points: &[Pt],
    edges: &[EdgeEnds],
    darts: &[Dart],
    starts: &[u32],
    rings: &[Items<u32>],
    sides: &[Side],
    dart: Dart,
) -> Option<u32>
    requires drawn { IsDrawnBy points.now edges.now darts.now }
    requires starts { AreStarts darts.now (length points.now) starts.now }
    requires traced { AreTraced points.now edges.now darts.now rings.now sides.now }
    requires edge { IsTrue (joined edges.now dart.tail dart.head) }
    ensures { IsSeenOf points.now edges.now rings.now dart.tail dart.head result }
{
    let d = place_of(darts, starts, dart);
    match sides[d] {
        Side::Face(f) => Some(f),
        Side::Outside => None,
        Side::Unmet => None,
    }
}

/// What lies on the two sides of each edge.
pub fn sides_of(
    alloc: Global,
    points: &[Pt],
    edges: &[EdgeEnds],
    darts: &[Dart],
    starts: &[u32],
    rings: &[Items<u32>],
    sides: &[Side],
) -> Result<Vec<EdgeSides>, NoMemory>
    requires drawn { IsDrawnBy points.now edges.now darts.now }
    requires starts { AreStarts darts.now (length points.now) starts.now }
    requires traced { AreTraced points.now edges.now darts.now rings.now sides.now }
    ensures { IfOk result (λ seen. AreAllSeen points.now edges.now rings.now seen.items) }
{
    let mut seen = Vec::new(alloc);
    for e in 0..edges.len() {
        let EdgeEnds { a, b } = edges[e];
        let left = face_of(
            points,
            edges,
            darts,
            starts,
            rings,
            sides,
            Dart { tail: a, head: b },
        );
        let right = face_of(
            points,
            edges,
            darts,
            starts,
            rings,
            sides,
            Dart { tail: b, head: a },
        );
        seen.push(EdgeSides { left, right })?;
    }
    Ok(seen)
}

/// Whether an edge has the outside on both sides, or its mark doesn't fit the sides on which it has it.
pub fn is_unfit(mark: Option<Mark>, sides: EdgeSides) -> bool
    ensures { IsTrue result ↔ IsUnfit mark sides.left sides.right }
{
    match (sides.left, sides.right) {
        (None, None) => true,
        (Some(_), Some(_)) => mark == Some(Mark::B),
        _ => match mark {
            None => false,
            Some(Mark::B) => false,
            Some(_) => true,
        },
    }
}

fn mark_of(marks: &Option<Items<Mark>>, e: usize) -> Option<Mark>
    requires { (ms : List Mark) → marks.now ≡ Some ms → e < length ms }
    ensures { result ≡ given_mark marks.now e }
{
    match marks {
        Some(marks) => Some(marks.as_slice()[e]),
        None => None,
    }
}

/// The first edge with the outside on both sides, or whose mark doesn't fit.
pub fn first_rim(
    points: &[Pt],
    edges: &[EdgeEnds],
    rings: &[Items<u32>],
    seen: &[EdgeSides],
    marks: &Option<Items<Mark>>,
) -> Option<usize>
    requires drawing { IsDrawing points.now edges.now }
    requires rings { AreRingWalks points.now edges.now rings.now }
    requires seen { AreAllSeen points.now edges.now rings.now seen.now }
    requires marked { (ms : List Mark) → marks.now ≡ Some ms → length ms ≡ length edges.now }
    ensures { IsFirst (RimAt points.now edges.now marks.now) result }
{
    for e in 0..edges.len() {
        if is_unfit(mark_of(marks, e), seen[e]) {
            return Some(e);
        }
    }
    None
}
