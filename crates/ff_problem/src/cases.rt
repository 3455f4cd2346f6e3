//! The case of a folded sheet.
ghost use Rattle.std.specs.Prelude.{◌≡◌, ◌≤◌, IfOk, IfErr, MatchResult, length};
ghost use Rattle.std.specs.List.{filter_map};
ghost use Rattle.ff_types.specs.FoldedPatterns.{IsFoldedPattern};
ghost use Rattle.ff_types.specs.Sheets.{sheet_of, edges_of};
ghost use Rattle.ff_types.specs.Cases.{start_of};
ghost use Rattle.ff_problem.specs.Limits.{WhyNoCase};
ghost use Rattle.ff_edges.specs.SharedSegments.{AreEdgePairs};
ghost use Rattle.ff_edges.specs.EdgesInside.{AreEdgeFaces};
ghost use Rattle.ff_problem.specs.Layers.{AreFewCells, AreFewPairs, AreLayers, AreConstraints, IsCaseWithin};

use crate::starts::starts_of;
use ff_cells::{Cell, cells};
use ff_edges::{EdgeFace, EdgePair, edge_faces, edge_pairs};
use ff_pairs::pairs;
use ff_tables::{Given, Items, System};
use ff_tacos::tacos;
use ff_trans::triples;
use ff_types::{Case, Faces, Folded, Listing, No, Pairs, Pattern};
use std::alloc::Global;

// The cells, within the limits.
fn few_cells(
    alloc: Global,
    pattern: &Pattern,
    faces: &Faces,
    folded: &Folded,
) -> Result<Items<Cell>, No>
    requires { IsFoldedPattern pattern.now faces.now folded.now }
    ensures made { IfOk result (AreFewCells (sheet_of pattern.now faces.now folded.now)) }
    ensures refused { IfErr result (WhyNoCase (sheet_of pattern.now faces.now folded.now)) }
{
    // The contract alone names what isn't used.
    let _ = pattern;
    cells(alloc, faces, folded)
}

// The pairs of overlapping faces, within the limit.
fn few_pairs(
    alloc: Global,
    pattern: &Pattern,
    faces: &Faces,
    folded: &Folded,
    cells: &Items<Cell>,
) -> Result<Pairs, No>
    requires { AreFewCells (sheet_of pattern.now faces.now folded.now) cells.now }
    ensures made { IfOk result (AreFewPairs (sheet_of pattern.now faces.now folded.now) cells.now) }
    ensures refused { IfErr result (WhyNoCase (sheet_of pattern.now faces.now folded.now)) }
{
    // The contract alone names what isn't used.
    let _ = pattern;
    let _ = faces;
    let _ = folded;
    pairs(alloc, cells)
}

// The transitivity constraints.
fn few_triples(
    alloc: Global,
    pattern: &Pattern,
    faces: &Faces,
    folded: &Folded,
    cells: &Items<Cell>,
    pairs: &Pairs,
) -> Result<Listing, No>
    requires cells { AreFewCells (sheet_of pattern.now faces.now folded.now) cells.now }
    requires pairs { AreFewPairs (sheet_of pattern.now faces.now folded.now) cells.now pairs.now }
    ensures made { IfOk result (AreLayers (sheet_of pattern.now faces.now folded.now) pairs.now) }
    ensures refused { IfErr result (WhyNoCase (sheet_of pattern.now faces.now folded.now)) }
{
    // The contract alone names what isn't used.
    let _ = pattern;
    let _ = faces;
    let _ = folded;
    triples(alloc, cells, pairs)
}

// The pairs of overlapping faces and the transitivity constraints, both from the cells.
fn layers(
    alloc: Global,
    pattern: &Pattern,
    faces: &Faces,
    folded: &Folded,
) -> Result<(Pairs, Listing), No>
    requires { IsFoldedPattern pattern.now faces.now folded.now }
    ensures made { IfOk result (λ r. AreLayers (sheet_of pattern.now faces.now folded.now) r.0 r.1) }
    ensures refused { IfErr result (WhyNoCase (sheet_of pattern.now faces.now folded.now)) }
{
    let cells = few_cells(alloc, pattern, faces, folded)?;
    let pairs = few_pairs(alloc, pattern, faces, folded, &cells)?;
    let list = few_triples(alloc, pattern, faces, folded, &cells, &pairs)?;
    Ok((pairs, list))
}

// The edges that run along each other.
fn few_edge_pairs(
    alloc: Global,
    pattern: &Pattern,
    faces: &Faces,
    folded: &Folded,
    pairs: &Pairs,
    list: &Listing,
) -> Result<Items<EdgePair>, No>
    requires folded { IsFoldedPattern pattern.now faces.now folded.now }
    requires layers { AreLayers (sheet_of pattern.now faces.now folded.now) pairs.now list.now }
    ensures made { IfOk result (AreEdgePairs (sheet_of pattern.now faces.now folded.now)) }
    ensures refused { IfErr result (WhyNoCase (sheet_of pattern.now faces.now folded.now)) }
{
    // The contract alone names what isn't used.
    let _ = pairs;
    let _ = list;
    edge_pairs(alloc, pattern, faces, folded)
}

// The edges that run inside faces.
fn few_edge_faces(
    alloc: Global,
    pattern: &Pattern,
    faces: &Faces,
    folded: &Folded,
    pairs: &Pairs,
    list: &Listing,
) -> Result<Items<EdgeFace>, No>
    requires folded { IsFoldedPattern pattern.now faces.now folded.now }
    requires layers { AreLayers (sheet_of pattern.now faces.now folded.now) pairs.now list.now }
    ensures made { IfOk result (AreEdgeFaces (sheet_of pattern.now faces.now folded.now)) }
    ensures refused { IfErr result (WhyNoCase (sheet_of pattern.now faces.now folded.now)) }
{
    // The contract alone names what isn't used.
    let _ = pairs;
    let _ = list;
    edge_faces(alloc, pattern, faces, folded)
}

// The list with the constraints that rest on edges behind it.
fn add_tacos(
    alloc: Global,
    list: Listing,
    pattern: &Pattern,
    faces: &Faces,
    folded: &Folded,
    pairs: &Pairs,
) -> Result<Listing, No>
    requires folded { IsFoldedPattern pattern.now faces.now folded.now }
    requires layers { AreLayers (sheet_of pattern.now faces.now folded.now) pairs.now list }
    ensures made { IfOk result (AreConstraints (sheet_of pattern.now faces.now folded.now) pairs.now) }
    ensures refused { IfErr result (WhyNoCase (sheet_of pattern.now faces.now folded.now)) }
{
    let edge_pairs = few_edge_pairs(alloc, pattern, faces, folded, pairs, &list)?;
    let edge_faces = few_edge_faces(alloc, pattern, faces, folded, pairs, &list)?;
    tacos(
        alloc,
        list,
        pattern,
        faces,
        folded,
        &edge_pairs,
        &edge_faces,
        pairs,
    )
}

// The case of these pairs, constraints and starts.
fn assembled(
    pattern: &Pattern,
    faces: &Faces,
    folded: &Folded,
    pairs: Pairs,
    list: Listing,
    starts: Items<Given>,
) -> Case
    requires folded { IsFoldedPattern pattern.now faces.now folded.now }
    requires constraints { AreConstraints (sheet_of pattern.now faces.now folded.now) pairs list }
    requires starts { starts ≡ filter_map (start_of (sheet_of pattern.now faces.now folded.now) pairs) (edges_of (sheet_of pattern.now faces.now folded.now)) }
    ensures { IsCaseWithin (sheet_of pattern.now faces.now folded.now) result }
{
    // The contract alone names what isn't used.
    let _ = pattern;
    let _ = faces;
    let _ = folded;
    let vars = pairs.count() as u32;
    let (constraints, cites) = list.parts();
    Case {
        system: System { vars, constraints },
        cites,
        pairs,
        starts,
    }
}

// The case of a folded pattern.
pub(crate) fn folded_case(
    alloc: Global,
    pattern: &Pattern,
    faces: &Faces,
    folded: &Folded,
) -> Result<Case, No>
    requires { IsFoldedPattern pattern.now faces.now folded.now }
    ensures made { IfOk result (IsCaseWithin (sheet_of pattern.now faces.now folded.now)) }
    ensures refused { IfErr result (WhyNoCase (sheet_of pattern.now faces.now folded.now)) }
{
    let (pairs, list) = layers(alloc, pattern, faces, folded)?;
    let list = add_tacos(alloc, list, pattern, faces, folded, &pairs)?;
    let starts = starts_of(alloc, pattern, faces, folded, &pairs)?;
    Ok(assembled(pattern, faces, folded, pairs, list, starts))
}
