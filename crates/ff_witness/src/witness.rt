//! Whether places witness a face.
ghost use Rattle.std.specs.Prelude.{◌≡◌, ◌≢◌, ◌<◌, ◌↔◌, ℕ, ◌<ℤ◌, pos, length, IsTrue};
ghost use Rattle.std.specs.List.{All};
ghost use Rattle.ff_whole.specs.Points.{IsNear};
ghost use Rattle.ff_whole.specs.Places.{height};
ghost use Rattle.ff_whole.specs.Convex.{point_at};
ghost use Rattle.ff_whole.specs.Sizes.{IsLine, IsSmallPlace};
ghost use Rattle.ff_types.specs.Rings.{corner, after};
ghost use Rattle.ff_types.specs.FoldedPatterns.{IsFoldedPattern};
ghost use Rattle.ff_types.specs.Sheets.{sheet_of};
ghost use Rattle.ff_types.specs.Witnesses.{witness_face};
ghost use Rattle.ff_witness.specs.Witnessing.{border_line, IsWitnessOver, IsWitnessTo};

use ff_types::{Faces, Folded, Pattern};
use ff_whole::{Line, Place, Pt, next_place, side_of, through};

pub(crate) fn is_left(line: Line, place: Place) -> bool
    requires line_size { IsLine line }
    requires place_size { IsSmallPlace place }
    ensures { IsTrue result ↔ (pos 0 <ℤ height line place) }
{
    side_of(line, place) > 0
}

pub(crate) fn is_right(line: Line, place: Place) -> bool
    requires line_size { IsLine line }
    requires place_size { IsSmallPlace place }
    ensures { IsTrue result ↔ (height line place <ℤ pos 0) }
{
    side_of(line, place) < 0
}

// The line of the ring's edge at the place `i`, with the inner side of a face that lies up or down on its left.
fn border_of(points: &[Pt], up: bool, ring: &[u32], i: usize) -> Line
    requires near { All IsNear points.now }
    requires below { All (λ v. v < length points.now) ring.now }
    requires within { i < length ring.now }
    requires apart { point_at points.now (corner ring.now i) ≢ point_at points.now (after ring.now i) }
    ensures value { result ≡ border_line points.now up ring.now i }
    ensures size { IsLine result }
{
    let u = points[ring[i] as usize];
    let v = points[ring[next_place(ring.len(), i)] as usize];
    if up { through(u, v) } else { through(v, u) }
}

// Whether none of the places is right of the line, and one is left of it.
fn is_witness_over(line: Line, places: &[Place]) -> bool
    requires line_size { IsLine line }
    requires small { All IsSmallPlace places.now }
    ensures { IsTrue result ↔ IsWitnessOver line places.now }
{
    let mut some = false;
    for k in 0..places.len() {
        if is_right(line, places[k]) {
            return false;
        }
        some = some | is_left(line, places[k]);
    }
    some
}

fn is_witness_of_ring(points: &[Pt], up: bool, ring: &[u32], places: &[Place]) -> bool
    requires near { All IsNear points.now }
    requires below { All (λ v. v < length points.now) ring.now }
    requires apart { (k : ℕ) → k < length ring.now → point_at points.now (corner ring.now k) ≢ point_at points.now (after ring.now k) }
    requires small { All IsSmallPlace places.now }
    ensures { IsTrue result ↔ IsWitnessTo points.now up ring.now (length ring.now) places.now }
{
    for i in 0..ring.len() {
        if !is_witness_over(border_of(points, up, ring, i), places) {
            return false;
        }
    }
    true
}

/// Whether `f` is a face, and the places are a witness of it.
pub(crate) fn is_witness(
    pattern: &Pattern,
    faces: &Faces,
    folded: &Folded,
    f: u32,
    places: &[Place],
) -> bool
    requires folded { IsFoldedPattern pattern.now faces.now folded.now }
    requires small { All IsSmallPlace places.now }
    ensures { IsTrue result ↔ IsTrue (witness_face (sheet_of pattern.now faces.now folded.now) places.now f) }
{
    let _ = pattern.edges.as_slice().len();
    if f as usize >= faces.rings.as_slice().len() {
        return false;
    }
    let up = folded.up.as_slice()[f as usize];
    let ring = faces.rings.as_slice()[f as usize].as_slice();
    is_witness_of_ring(folded.points.as_slice(), up, ring, places)
}
