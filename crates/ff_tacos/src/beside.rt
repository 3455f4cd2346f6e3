//! The marks of edges, the faces beside them, and on which side these lie.
ghost use Rattle.std.specs.Prelude.{◌≡◌, ◌≢◌, ◌<◌, length, [], ◌∷◌};
ghost use Rattle.ff_whole.specs.Points.{IsNear};
ghost use Rattle.ff_types.specs.FoldedPatterns.{IsFoldedPattern};
ghost use Rattle.ff_types.specs.Faces.{ring_at};
ghost use Rattle.ff_types.specs.Foldings.{is_folded as folded_mark};
ghost use Rattle.ff_types.specs.Sheets.{sheet_of, tail, head};
ghost use Rattle.ff_types.specs.Cites.{is_flat as flat_mark, is_folded_edge, is_flat_edge, face_or as face_or_none, lesser, greater, on_one_side};
ghost use Rattle.ff_types.specs.Terms.{matching as matching_face, opposed as opposed_face};
ghost use Rattle.ff_edges.specs.Ways.{are_left};
ghost use Rattle.ff_tacos.specs.Making.{are_all_left};

use ff_edges::{ends, face_left};
use ff_types::{Faces, Folded, Mark, Pattern};
use ff_whole::Pt;

fn has_fold(mark: Mark) -> bool
    ensures { result ≡ folded_mark mark }
{
    match mark {
        Mark::M | Mark::V | Mark::U => true,
        Mark::B | Mark::F => false,
    }
}

fn has_none(mark: Mark) -> bool
    ensures { result ≡ flat_mark mark }
{
    match mark {
        Mark::F => true,
        Mark::B | Mark::M | Mark::V | Mark::U => false,
    }
}

/// Whether the edge is marked M, V or U.
pub fn is_folded(pattern: &Pattern, faces: &Faces, folded: &Folded, e: u32) -> bool
    requires folded { IsFoldedPattern pattern.now faces.now folded.now }
    requires edge { e < length pattern.now.edges }
    ensures { result ≡ is_folded_edge (sheet_of pattern.now faces.now folded.now) e }
{
    has_fold(faces.marks.as_slice()[e as usize])
}

/// Whether it is marked F.
pub fn is_flat(pattern: &Pattern, faces: &Faces, folded: &Folded, e: u32) -> bool
    requires folded { IsFoldedPattern pattern.now faces.now folded.now }
    requires edge { e < length pattern.now.edges }
    ensures { result ≡ is_flat_edge (sheet_of pattern.now faces.now folded.now) e }
{
    has_none(faces.marks.as_slice()[e as usize])
}

fn face_or(face: Option<u32>) -> u32
    ensures { result ≡ face_or_none face }
{
    match face {
        Some(f) => f,
        None => 0,
    }
}

/// The two faces of the edge, the lesser number first.
pub fn beside(pattern: &Pattern, faces: &Faces, folded: &Folded, e: u32) -> (u32, u32)
    requires folded { IsFoldedPattern pattern.now faces.now folded.now }
    requires edge { e < length pattern.now.edges }
    ensures lesser { result.0 ≡ lesser (sheet_of pattern.now faces.now folded.now) e }
    ensures greater { result.1 ≡ greater (sheet_of pattern.now faces.now folded.now) e }
    ensures first { result.0 < length faces.now.rings }
    ensures second { result.1 < length faces.now.rings }
{
    let sides = faces.sides.as_slice()[e as usize];
    let left = face_or(sides.left);
    let right = face_or(sides.right);
    if left < right {
        (left, right)
    } else {
        (right, left)
    }
}

// Whether both faces do.
fn both_left(
    pattern: &Pattern,
    faces: &Faces,
    folded: &Folded,
    pair: (u32, u32),
    p: Pt,
    q: Pt,
) -> bool
    requires folded { IsFoldedPattern pattern.now faces.now folded.now }
    requires first { pair.0 < length faces.now.rings }
    requires second { pair.1 < length faces.now.rings }
    requires p_near { IsNear p }
    requires q_near { IsNear q }
    ensures { result ≡ are_all_left (sheet_of pattern.now faces.now folded.now) p q (pair.0 ∷ pair.1 ∷ []) }
{
    face_left(pattern, faces, folded, pair.0, p, q)
        && face_left(pattern, faces, folded, pair.1, p, q)
}

// Whether the two faces lie on one side of the image of the edge.
fn are_on_one_side(
    pattern: &Pattern,
    faces: &Faces,
    folded: &Folded,
    e: u32,
    pair: (u32, u32),
) -> bool
    requires folded { IsFoldedPattern pattern.now faces.now folded.now }
    requires edge { e < length pattern.now.edges }
    requires first { pair.0 < length faces.now.rings }
    requires second { pair.1 < length faces.now.rings }
    ensures { result ≡ on_one_side (sheet_of pattern.now faces.now folded.now) e (pair.0 ∷ pair.1 ∷ []) }
{
    let (p, q) = ends(pattern, faces, folded, e);
    both_left(pattern, faces, folded, pair, p, q) || both_left(pattern, faces, folded, pair, q, p)
}

/// The two faces of the edge `k`, first the one on that side of the edge `e` on which the lesser face of `e`
/// lies.
pub fn matching(pattern: &Pattern, faces: &Faces, folded: &Folded, e: u32, k: u32) -> (u32, u32)
    requires folded { IsFoldedPattern pattern.now faces.now folded.now }
    requires first { e < length pattern.now.edges }
    requires second { k < length pattern.now.edges }
    ensures matching { result.0 ≡ matching_face (sheet_of pattern.now faces.now folded.now) e
        (lesser (sheet_of pattern.now faces.now folded.now) e) k }
    ensures opposed { result.1 ≡ opposed_face (sheet_of pattern.now faces.now folded.now) e
        (lesser (sheet_of pattern.now faces.now folded.now) e) k }
{
    let (f, _) = beside(pattern, faces, folded, e);
    let (lesser, greater) = beside(pattern, faces, folded, k);
    if are_on_one_side(pattern, faces, folded, e, (f, lesser)) {
        (lesser, greater)
    } else {
        (greater, lesser)
    }
}
