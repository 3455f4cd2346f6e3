//! One pass over a list for each family.
ghost use Rattle.std.specs.Prelude.{◌≡◌, ◌++◌, ◌+◌, ◌<◌, ◌≤◌, length, OnOk, IfErr};
ghost use Rattle.ff_types.specs.FoldedPatterns.{IsFoldedPattern};
ghost use Rattle.ff_types.specs.Sheets.{sheet_of};
ghost use Rattle.ff_types.specs.declared.limits.TheConstants.{MOST_CONSTRAINTS as most_constraints};
ghost use Rattle.ff_tacos.specs.Making.{given, WhyNoConstraints, HavePairEdges, HaveEdges, HaveBoth, taco_taco as gives_taco_taco, taco_face as gives_taco_face, taco_edge as gives_taco_edge, flat_face as gives_flat_face, flat_edge as gives_flat_edge};

use crate::append::append;
use crate::constraints::{flat_edge, flat_face, taco_edge, taco_face, taco_taco};
use ff_edges::{EdgeFace, EdgePair};
use ff_types::{Faces, Folded, Listing, No, Pairs, Pattern};

/// Appends the constraints of two folded edges.
pub fn append_taco_tacos(
    list: &mut Listing,
    pattern: &Pattern,
    faces: &Faces,
    folded: &Folded,
    pairs: &Pairs,
    edge_pairs: &[EdgePair],
) -> Result<(), No>
    requires folded { IsFoldedPattern pattern.now faces.now folded.now }
    requires edges { HavePairEdges (length pattern.now.edges) edge_pairs.now }
    requires few { length list.old ≤ most_constraints }
    ensures appended { OnOk result (list.new ≡ list.old
        ++ given (sheet_of pattern.now faces.now folded.now) pairs.now
        (gives_taco_taco (sheet_of pattern.now faces.now folded.now)) edge_pairs.now) }
    ensures few { OnOk result (length list.new ≤ most_constraints) }
    ensures refused { IfErr result (WhyNoConstraints (length list.old
        + length (given (sheet_of pattern.now faces.now folded.now) pairs.now
        (gives_taco_taco (sheet_of pattern.now faces.now folded.now)) edge_pairs.now))) }
{
    for i in 0..edge_pairs.len() {
        let found = taco_taco(pattern, faces, folded, pairs, &edge_pairs[i]);
        append(list, found)?;
    }
    Ok(())
}

/// Appends those of a folded edge and a face.
pub fn append_taco_faces(
    list: &mut Listing,
    pattern: &Pattern,
    faces: &Faces,
    folded: &Folded,
    pairs: &Pairs,
    edge_faces: &[EdgeFace],
) -> Result<(), No>
    requires folded { IsFoldedPattern pattern.now faces.now folded.now }
    requires edges { HaveEdges (length pattern.now.edges) edge_faces.now }
    requires few { length list.old ≤ most_constraints }
    ensures appended { OnOk result (list.new ≡ list.old
        ++ given (sheet_of pattern.now faces.now folded.now) pairs.now
        (gives_taco_face (sheet_of pattern.now faces.now folded.now)) edge_faces.now) }
    ensures few { OnOk result (length list.new ≤ most_constraints) }
    ensures refused { IfErr result (WhyNoConstraints (length list.old
        + length (given (sheet_of pattern.now faces.now folded.now) pairs.now
        (gives_taco_face (sheet_of pattern.now faces.now folded.now)) edge_faces.now))) }
{
    for i in 0..edge_faces.len() {
        let found = taco_face(pattern, faces, folded, pairs, &edge_faces[i]);
        append(list, found)?;
    }
    Ok(())
}

/// Appends those of a folded and a flat edge.
pub fn append_taco_edges(
    list: &mut Listing,
    pattern: &Pattern,
    faces: &Faces,
    folded: &Folded,
    pairs: &Pairs,
    mixed: &[(u32, u32)],
) -> Result<(), No>
    requires folded { IsFoldedPattern pattern.now faces.now folded.now }
    requires edges { HaveBoth (length pattern.now.edges) mixed.now }
    requires few { length list.old ≤ most_constraints }
    ensures appended { OnOk result (list.new ≡ list.old
        ++ given (sheet_of pattern.now faces.now folded.now) pairs.now gives_taco_edge mixed.now) }
    ensures few { OnOk result (length list.new ≤ most_constraints) }
    ensures refused { IfErr result (WhyNoConstraints (length list.old
        + length (given (sheet_of pattern.now faces.now folded.now) pairs.now gives_taco_edge mixed.now))) }
{
    for i in 0..mixed.len() {
        let found = Some(taco_edge(pattern, faces, folded, pairs, mixed[i].0, mixed[i].1));
        append(list, found)?;
    }
    Ok(())
}

/// Appends those of a flat edge and a face.
pub fn append_flat_faces(
    list: &mut Listing,
    pattern: &Pattern,
    faces: &Faces,
    folded: &Folded,
    pairs: &Pairs,
    edge_faces: &[EdgeFace],
) -> Result<(), No>
    requires folded { IsFoldedPattern pattern.now faces.now folded.now }
    requires edges { HaveEdges (length pattern.now.edges) edge_faces.now }
    requires few { length list.old ≤ most_constraints }
    ensures appended { OnOk result (list.new ≡ list.old
        ++ given (sheet_of pattern.now faces.now folded.now) pairs.now
        (gives_flat_face (sheet_of pattern.now faces.now folded.now)) edge_faces.now) }
    ensures few { OnOk result (length list.new ≤ most_constraints) }
    ensures refused { IfErr result (WhyNoConstraints (length list.old
        + length (given (sheet_of pattern.now faces.now folded.now) pairs.now
        (gives_flat_face (sheet_of pattern.now faces.now folded.now)) edge_faces.now))) }
{
    for i in 0..edge_faces.len() {
        let found = flat_face(pattern, faces, folded, pairs, &edge_faces[i]);
        append(list, found)?;
    }
    Ok(())
}

/// Appends those of two flat edges.
pub fn append_flat_edges(
    list: &mut Listing,
    pattern: &Pattern,
    faces: &Faces,
    folded: &Folded,
    pairs: &Pairs,
    edge_pairs: &[EdgePair],
) -> Result<(), No>
    requires folded { IsFoldedPattern pattern.now faces.now folded.now }
    requires edges { HavePairEdges (length pattern.now.edges) edge_pairs.now }
    requires few { length list.old ≤ most_constraints }
    ensures appended { OnOk result (list.new ≡ list.old
        ++ given (sheet_of pattern.now faces.now folded.now) pairs.now
        (gives_flat_edge (sheet_of pattern.now faces.now folded.now)) edge_pairs.now) }
    ensures few { OnOk result (length list.new ≤ most_constraints) }
    ensures refused { IfErr result (WhyNoConstraints (length list.old
        + length (given (sheet_of pattern.now faces.now folded.now) pairs.now
        (gives_flat_edge (sheet_of pattern.now faces.now folded.now)) edge_pairs.now))) }
{
    for i in 0..edge_pairs.len() {
        let found = flat_edge(pattern, faces, folded, pairs, &edge_pairs[i]);
        append(list, found)?;
    }
    Ok(())
}
