//! Whether two edges run along each other, where a constraint rests on that.
ghost use Rattle.std.specs.Prelude.{◌≡◌, ◌<◌, ◌↔◌, length, IsTrue, MatchOption};
ghost use Rattle.ff_types.specs.FoldedPatterns.{IsFoldedPattern};
ghost use Rattle.ff_types.specs.Sheets.{sheet_of};
ghost use Rattle.ff_types.specs.Foldings.{is_folded as is_folded_mark};
ghost use Rattle.ff_types.specs.Cites.{is_flat as is_flat_mark, is_folded_edge, is_flat_edge};
ghost use Rattle.ff_types.specs.Segments.{ShareSegment};
ghost use Rattle.ff_edges.specs.EdgesInside.{is_inner_edge};
ghost use Rattle.ff_edges.specs.SharedSegments.{constrain as are_constrained, IsEdgePair};

use crate::EdgePair;
use crate::beside::{ends, on_one_side};
use crate::common::common_way;
use crate::marks::{is_flat, is_folded};
use ff_types::{Faces, Folded, Mark, Pattern};

fn mark_of(pattern: &Pattern, faces: &Faces, folded: &Folded, e: u32) -> Mark
    requires folded { IsFoldedPattern pattern.now faces.now folded.now }
    requires edge { e < length pattern.now.edges }
    ensures folded { is_folded_mark result ≡ is_folded_edge (sheet_of pattern.now faces.now folded.now) e }
    ensures flat { is_flat_mark result ≡ is_flat_edge (sheet_of pattern.now faces.now folded.now) e }
{
    let _ = (pattern.edges.as_slice().len(), folded.scale);
    faces.marks.as_slice()[e as usize]
}

/// Whether the edge isn't a border edge.
pub fn is_inner(pattern: &Pattern, faces: &Faces, folded: &Folded, e: u32) -> bool
    requires folded { IsFoldedPattern pattern.now faces.now folded.now }
    requires edge { e < length pattern.now.edges }
    ensures { result ≡ is_inner_edge (sheet_of pattern.now faces.now folded.now) e }
{
    let mark = mark_of(pattern, faces, folded, e);
    is_folded(mark) || is_flat(mark)
}

// Whether a constraint rests on a common segment of the two edges.
fn constrain(pattern: &Pattern, faces: &Faces, folded: &Folded, e: u32, k: u32) -> bool
    requires folded { IsFoldedPattern pattern.now faces.now folded.now }
    requires first { e < length pattern.now.edges }
    requires second { k < length pattern.now.edges }
    ensures { IsTrue result ↔ IsTrue (are_constrained (sheet_of pattern.now faces.now folded.now) e k) }
{
    let first = mark_of(pattern, faces, folded, e);
    let second = mark_of(pattern, faces, folded, k);
    if is_folded(first) && is_folded(second) {
        return on_one_side(pattern, faces, folded, e, k);
    }
    (is_folded(first) || is_flat(first)) && (is_folded(second) || is_flat(second))
}

/// The two edges with the ends of their common segment. None exactly where they have none of positive length, or no
/// constraint rests on it.
pub fn shared_segment(
    pattern: &Pattern,
    faces: &Faces,
    folded: &Folded,
    e: u32,
    k: u32,
) -> Option<EdgePair>
    requires folded { IsFoldedPattern pattern.now faces.now folded.now }
    requires order { e < k }
    requires edge { k < length pattern.now.edges }
    ensures { MatchOption result (IsTrue (are_constrained (sheet_of pattern.now faces.now folded.now) e k) → ShareSegment (sheet_of pattern.now faces.now folded.now) e k → ⊥)
        (λ c. (c.e ≡ e) × (c.e2 ≡ k) × IsEdgePair (sheet_of pattern.now faces.now folded.now) c) }
{
    let (a, b) = ends(pattern, faces, folded, e);
    let (c, d) = ends(pattern, faces, folded, k);
    let Some((p, q)) = common_way(a, b, c, d) else {
        return None;
    };
    if !constrain(pattern, faces, folded, e, k) {
        return None;
    }
    Some(EdgePair { e, e2: k, p, q })
}
