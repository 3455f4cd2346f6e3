//! The faces beside an edge, and whether those of two edges lie on one side.
ghost use Rattle.std.specs.Prelude.{◌≡◌, ◌≢◌, ◌<◌, ◌↔◌, length, List, [], ◌∷◌, IsTrue};
ghost use Rattle.ff_whole.specs.Points.{IsNear};
ghost use Rattle.ff_types.specs.FoldedPatterns.{IsFoldedPattern};
ghost use Rattle.ff_types.specs.Faces.{ring_at};
ghost use Rattle.ff_types.specs.Sheets.{sheet_of, tail, head};
ghost use Rattle.ff_types.specs.Cites.{face_or as face_or_none, lesser, greater, on_one_side as are_on_one_side};
ghost use Rattle.ff_edges.specs.Ways.{are_left, are_right, AreLeft, AreRight};
ghost use Rattle.ff_edges.specs.SharedSegments.{beside_both};

use crate::sides::{lies_left, lies_right};
use ff_types::{Faces, Folded, Pattern};
use ff_whole::Pt;

fn face_or(face: Option<u32>) -> u32
    ensures { result ≡ face_or_none face }
{
    match face {
        Some(f) => f,
        None => 0,
    }
}

// The two faces of the edge, the lesser number first.
fn beside(pattern: &Pattern, faces: &Faces, folded: &Folded, e: u32) -> (u32, u32)
    requires folded { IsFoldedPattern pattern.now faces.now folded.now }
    requires edge { e < length pattern.now.edges }
    ensures lesser { result.0 ≡ lesser (sheet_of pattern.now faces.now folded.now) e }
    ensures greater { result.1 ≡ greater (sheet_of pattern.now faces.now folded.now) e }
    ensures first { result.0 < length faces.now.rings }
    ensures second { result.1 < length faces.now.rings }
{
    let _ = (pattern.edges.as_slice().len(), folded.scale);
    let sides = faces.sides.as_slice()[e as usize];
    let left = face_or(sides.left);
    let right = face_or(sides.right);
    if left < right {
        (left, right)
    } else {
        (right, left)
    }
}

/// Whether the face lies left of the way from `p` to `q`: none of its vertices is right of it.
pub fn face_left(pattern: &Pattern, faces: &Faces, folded: &Folded, f: u32, p: Pt, q: Pt) -> bool
    requires folded { IsFoldedPattern pattern.now faces.now folded.now }
    requires face { f < length faces.now.rings }
    requires p_near { IsNear p }
    requires q_near { IsNear q }
    ensures { result ≡ are_left folded.now.points p q (ring_at faces.now.rings f) }
{
    let _ = pattern.edges.as_slice().len();
    let ring = faces.rings.as_slice()[f as usize].as_slice();
    lies_left(folded.points.as_slice(), ring, p, q)
}

// Whether both faces do.
fn both_left(
    pattern: &Pattern,
    faces: &Faces,
    folded: &Folded,
    pair: (u32, u32),
    p: Pt,
    q: Pt,
) -> bool
    requires folded { IsFoldedPattern pattern.now faces.now folded.now }
    requires first { pair.0 < length faces.now.rings }
    requires second { pair.1 < length faces.now.rings }
    requires p_near { IsNear p }
    requires q_near { IsNear q }
    ensures { IsTrue result ↔ AreLeft folded.now.points faces.now.rings p q pair.0 pair.1 }
{
    face_left(pattern, faces, folded, pair.0, p, q)
        && face_left(pattern, faces, folded, pair.1, p, q)
}

// Whether all four faces do.
fn four_left(
    pattern: &Pattern,
    faces: &Faces,
    folded: &Folded,
    pairs: ((u32, u32), (u32, u32)),
    way: (Pt, Pt),
) -> bool
    requires folded { IsFoldedPattern pattern.now faces.now folded.now }
    requires first { (pairs.0.0 < length faces.now.rings) × (pairs.0.1 < length faces.now.rings) }
    requires second { (pairs.1.0 < length faces.now.rings) × (pairs.1.1 < length faces.now.rings) }
    requires near { IsNear way.0 × IsNear way.1 }
    ensures { IsTrue result ↔ (AreLeft folded.now.points faces.now.rings way.0 way.1 pairs.0.0 pairs.0.1 × AreLeft folded.now.points faces.now.rings way.0 way.1 pairs.1.0 pairs.1.1) }
{
    both_left(pattern, faces, folded, pairs.0, way.0, way.1)
        && both_left(pattern, faces, folded, pairs.1, way.0, way.1)
}

// Whether the face lies right of the way from `p` to `q`.
fn face_right(pattern: &Pattern, faces: &Faces, folded: &Folded, f: u32, p: Pt, q: Pt) -> bool
    requires folded { IsFoldedPattern pattern.now faces.now folded.now }
    requires face { f < length faces.now.rings }
    requires p_near { IsNear p }
    requires q_near { IsNear q }
    ensures { IsTrue result ↔ IsTrue (are_right folded.now.points p q (ring_at faces.now.rings f)) }
{
    let _ = pattern.edges.as_slice().len();
    let ring = faces.rings.as_slice()[f as usize].as_slice();
    lies_right(folded.points.as_slice(), ring, p, q)
}

// Whether both faces do.
fn both_right(
    pattern: &Pattern,
    faces: &Faces,
    folded: &Folded,
    pair: (u32, u32),
    p: Pt,
    q: Pt,
) -> bool
    requires folded { IsFoldedPattern pattern.now faces.now folded.now }
    requires first { pair.0 < length faces.now.rings }
    requires second { pair.1 < length faces.now.rings }
    requires p_near { IsNear p }
    requires q_near { IsNear q }
    ensures { IsTrue result ↔ AreRight folded.now.points faces.now.rings p q pair.0 pair.1 }
{
    face_right(pattern, faces, folded, pair.0, p, q)
        && face_right(pattern, faces, folded, pair.1, p, q)
}

// Whether all four faces do.
fn four_right(
    pattern: &Pattern,
    faces: &Faces,
    folded: &Folded,
    pairs: ((u32, u32), (u32, u32)),
    way: (Pt, Pt),
) -> bool
    requires folded { IsFoldedPattern pattern.now faces.now folded.now }
    requires first { (pairs.0.0 < length faces.now.rings) × (pairs.0.1 < length faces.now.rings) }
    requires second { (pairs.1.0 < length faces.now.rings) × (pairs.1.1 < length faces.now.rings) }
    requires near { IsNear way.0 × IsNear way.1 }
    ensures { IsTrue result ↔ (AreRight folded.now.points faces.now.rings way.0 way.1 pairs.0.0 pairs.0.1 × AreRight folded.now.points faces.now.rings way.0 way.1 pairs.1.0 pairs.1.1) }
{
    both_right(pattern, faces, folded, pairs.0, way.0, way.1)
        && both_right(pattern, faces, folded, pairs.1, way.0, way.1)
}

/// The images of the ends of an edge.
pub fn ends(pattern: &Pattern, faces: &Faces, folded: &Folded, e: u32) -> (Pt, Pt)
    requires folded { IsFoldedPattern pattern.now faces.now folded.now }
    requires edge { e < length pattern.now.edges }
    ensures tail { result.0 ≡ tail (sheet_of pattern.now faces.now folded.now) e }
    ensures head { result.1 ≡ head (sheet_of pattern.now faces.now folded.now) e }
    ensures apart { result.0 ≢ result.1 }
    ensures first_near { IsNear result.0 }
    ensures second_near { IsNear result.1 }
{
    let _ = faces.rings.as_slice().len();
    let edge = pattern.edges.as_slice()[e as usize];
    let points = folded.points.as_slice();
    (points[edge.a as usize], points[edge.b as usize])
}

/// Whether all faces beside the two edges lie on one side of the image of the first.
pub fn on_one_side(pattern: &Pattern, faces: &Faces, folded: &Folded, e: u32, k: u32) -> bool
    requires folded { IsFoldedPattern pattern.now faces.now folded.now }
    requires first { e < length pattern.now.edges }
    requires second { k < length pattern.now.edges }
    ensures { IsTrue result ↔ IsTrue (are_on_one_side (sheet_of pattern.now faces.now folded.now) e (beside_both (sheet_of pattern.now faces.now folded.now) e k)) }
{
    let way = ends(pattern, faces, folded, e);
    let first = beside(pattern, faces, folded, e);
    let second = beside(pattern, faces, folded, k);
    four_left(pattern, faces, folded, (first, second), way)
        || four_right(pattern, faces, folded, (first, second), way)
}
