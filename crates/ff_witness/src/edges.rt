//! Whether places are on edges, and edges run along each other.
ghost use Rattle.std.specs.Prelude.{◌≡◌, ◌≢◌, ◌<◌, ◌↔◌, length, IsTrue};
ghost use Rattle.std.specs.List.{list_all, All};
ghost use Rattle.ff_whole.specs.Points.{IsNear};
ghost use Rattle.ff_whole.specs.Sizes.{IsLine, IsSmallPlace};
ghost use Rattle.ff_types.specs.FoldedPatterns.{IsFoldedPattern};
ghost use Rattle.ff_types.specs.Sheets.{sheet_of};
ghost use Rattle.ff_types.specs.Borders.{is_on as is_on_edge};
ghost use Rattle.ff_types.specs.Segments.{ShareSegment};
ghost use Rattle.ff_edges.specs.Ways.{is_on_way as on_way};
ghost use Rattle.ff_edges.specs.SharedSegments.{constrain};
ghost use Rattle.ff_witness.specs.Witnessing.{across_line};

use crate::witness::{is_left, is_right};
use ff_edges::{ends, shared_segment};
use ff_types::{Faces, Folded, Pattern};
use ff_whole::{Line, Place, Pt, through};

// The line through `p` across the way to `q`, with `q` on its left.
fn across(p: Pt, q: Pt) -> Line
    requires p_near { IsNear p }
    requires q_near { IsNear q }
    requires apart { p ≢ q }
    ensures value { result ≡ across_line p q }
    ensures size { IsLine result }
{
    let a = q.x - p.x;
    let b = q.y - p.y;
    Line {
        a,
        b,
        c: a * p.x + b * p.y,
    }
}

// Whether the place is on the way from `p` to `q`, its ends counted.
fn is_on_way(p: Pt, q: Pt, place: Place) -> bool
    requires p_near { IsNear p }
    requires q_near { IsNear q }
    requires apart { p ≢ q }
    requires small { IsSmallPlace place }
    ensures { IsTrue result ↔ IsTrue (on_way p q place) }
{
    let line = through(p, q);
    if is_left(line, place) {
        return false;
    }
    if is_right(line, place) {
        return false;
    }
    if is_right(across(p, q), place) {
        return false;
    }
    !is_right(across(q, p), place)
}

/// Whether all the places are on the image of the edge.
pub(crate) fn are_on(
    pattern: &Pattern,
    faces: &Faces,
    folded: &Folded,
    e: u32,
    places: &[Place],
) -> bool
    requires folded { IsFoldedPattern pattern.now faces.now folded.now }
    requires edge { e < length pattern.now.edges }
    requires small { All IsSmallPlace places.now }
    ensures { IsTrue result ↔ IsTrue (list_all (is_on_edge (sheet_of pattern.now faces.now folded.now) e) places.now) }
{
    let (p, q) = ends(pattern, faces, folded, e);
    for k in 0..places.len() {
        if !is_on_way(p, q, places[k]) {
            return false;
        }
    }
    true
}

/// Whether the two edges share a segment on which a constraint rests.
pub(crate) fn do_share(pattern: &Pattern, faces: &Faces, folded: &Folded, e: u32, k: u32) -> bool
    requires folded { IsFoldedPattern pattern.now faces.now folded.now }
    requires order { e < k }
    requires edge { k < length pattern.now.edges }
    ensures { IsTrue result ↔ (IsTrue (constrain (sheet_of pattern.now faces.now folded.now) e k)
        × ShareSegment (sheet_of pattern.now faces.now folded.now) e k) }
{
    match shared_segment(pattern, faces, folded, e, k) {
        Some(_) => true,
        None => false,
    }
}
