//! The constraints that rest on edges, family by family.
ghost use Rattle.std.specs.Prelude.{◌≡◌, ◌++◌, ◌+◌, ◌≤◌, length, OnOk, IfOk, IfErr};
ghost use Rattle.ff_types.specs.FoldedPatterns.{IsFoldedPattern};
ghost use Rattle.ff_types.specs.Sheets.{sheet_of};
ghost use Rattle.ff_edges.specs.SharedSegments.{AreEdgePairs};
ghost use Rattle.ff_edges.specs.EdgesInside.{AreEdgeFaces};
ghost use Rattle.ff_types.specs.declared.limits.TheConstants.{MOST_CONSTRAINTS as most_constraints};
ghost use Rattle.ff_tacos.specs.Tacos.{AreNumbered, AddsTacos, AreTooMany};
ghost use Rattle.ff_tacos.specs.Making.{all_given, WhyNoConstraints, HavePairEdges, HaveEdges, HaveBoth};

use crate::mixed::mixed_pairs;
use crate::passes::{
    append_flat_edges, append_flat_faces, append_taco_edges, append_taco_faces, append_taco_tacos,
};
use ff_edges::{EdgeFace, EdgePair};
use ff_tables::Items;
use ff_types::{Faces, Folded, Listing, No, Pairs, Pattern};
use std::alloc::Global;

// Appends family after family.
fn append_families(
    list: &mut Listing,
    pattern: &Pattern,
    faces: &Faces,
    folded: &Folded,
    pairs: &Pairs,
    edge_pairs: &[EdgePair],
    edge_faces: &[EdgeFace],
    mixed: &[(u32, u32)],
) -> Result<(), No>
    requires folded { IsFoldedPattern pattern.now faces.now folded.now }
    requires pair_edges { HavePairEdges (length pattern.now.edges) edge_pairs.now }
    requires edges { HaveEdges (length pattern.now.edges) edge_faces.now }
    requires both { HaveBoth (length pattern.now.edges) mixed.now }
    requires few { length list.old ≤ most_constraints }
    ensures appended { OnOk result (list.new ≡ list.old
        ++ all_given (sheet_of pattern.now faces.now folded.now) pairs.now edge_pairs.now edge_faces.now
        mixed.now) }
    ensures few { OnOk result (length list.new ≤ most_constraints) }
    ensures refused { IfErr result (WhyNoConstraints (length list.old
        + length (all_given (sheet_of pattern.now faces.now folded.now) pairs.now edge_pairs.now
        edge_faces.now mixed.now))) }
{
    append_taco_tacos(list, pattern, faces, folded, pairs, edge_pairs)?;
    append_taco_faces(list, pattern, faces, folded, pairs, edge_faces)?;
    append_taco_edges(list, pattern, faces, folded, pairs, mixed)?;
    append_flat_faces(list, pattern, faces, folded, pairs, edge_faces)?;
    append_flat_edges(list, pattern, faces, folded, pairs, edge_pairs)
}

/// Appends the constraints that rest on edges: those of each two folded edges that share a segment, with all
/// four faces on one side; of each folded edge with a part inside a face; of each folded and each flat edge
/// that share a segment; of each flat edge with a part inside a face; of each two flat edges that share a
/// segment. The families stand in this order, each in order of its numbers.
///
/// `edge_pairs` and `edge_faces` are those of the folded pattern, and `pairs` has each two overlapping faces.
/// Refused exactly where the list would be longer than `MOST_CONSTRAINTS`. The list is taken and handed back, so that
/// after an error nothing was lent. It takes memory for the list, and for two numbers of each folded and flat edge that share a segment.
pub fn tacos(
    alloc: Global,
    mut list: Listing,
    pattern: &Pattern,
    faces: &Faces,
    folded: &Folded,
    edge_pairs: &Items<EdgePair>,
    edge_faces: &Items<EdgeFace>,
    pairs: &Pairs,
) -> Result<Listing, No>
    requires folded { IsFoldedPattern pattern.now faces.now folded.now }
    requires edge_pairs { AreEdgePairs (sheet_of pattern.now faces.now folded.now) edge_pairs.now }
    requires edge_faces { AreEdgeFaces (sheet_of pattern.now faces.now folded.now) edge_faces.now }
    requires pairs { AreNumbered (sheet_of pattern.now faces.now folded.now) pairs.now }
    requires few { length list ≤ most_constraints }
    ensures made { IfOk result (AddsTacos (sheet_of pattern.now faces.now folded.now) pairs.now list) }
    ensures few { IfOk result (λ listed. length listed ≤ most_constraints) }
    ensures refused { IfErr result (AreTooMany (sheet_of pattern.now faces.now folded.now) pairs.now
        (length list)) }
{
    let edge_pairs = edge_pairs.as_slice();
    let edge_faces = edge_faces.as_slice();
    let mixed = mixed_pairs(alloc, pattern, faces, folded, edge_pairs)?;
    append_families(
        &mut list,
        pattern,
        faces,
        folded,
        pairs,
        edge_pairs,
        edge_faces,
        mixed.as_slice(),
    )?;
    Ok(list)
}
