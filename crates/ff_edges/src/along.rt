//! The edges that run along each other, where a constraint rests on that.
ghost use Rattle.std.specs.Prelude.{◌<◌, ◌+◌, ◌*◌, ◌≤◌, length, IsTrue, IfOk, IfErr, OnOk};
ghost use Rattle.ff_types.specs.FoldedPatterns.{IsFoldedPattern};
ghost use Rattle.ff_types.specs.Sheets.{sheet_of};
ghost use Rattle.ff_types.specs.declared.limits.TheConstants.{MOST_CONSTRAINTS as most_constraints};
ghost use Rattle.ff_edges.specs.EdgesInside.{is_inner_edge};
ghost use Rattle.ff_edges.specs.Extents.{IsRoundInner, AreExtents, AreBlocks};
ghost use Rattle.ff_edges.specs.SharedSegments.{ArePairsTo, AreEdgePairs, WhyNoEdgePairs};

use crate::EdgePair;
use crate::append::append;
use crate::blocks::{BLOCK, block_end, block_extents};
use crate::extents::{Extent, is_touching};
use crate::reaches::inner_extents;
use crate::shared::{is_inner, shared_segment};
use ff_tables::Items;
use ff_types::{Faces, Folded, No, Pattern};
use std::alloc::Global;

// Appends the pair of the two edges, if there is one.
fn append_shared(
    list: &mut Vec<EdgePair>,
    pattern: &Pattern,
    faces: &Faces,
    folded: &Folded,
    e: u32,
    k: u32,
) -> Result<(), No>
    requires folded { IsFoldedPattern pattern.now faces.now folded.now }
    requires order { e < k }
    requires edge { k < length pattern.now.edges }
    requires listed { ArePairsTo (sheet_of pattern.now faces.now folded.now) e k list.old.items }
    requires few { length list.old.items ≤ most_constraints }
    ensures listed { OnOk result (ArePairsTo (sheet_of pattern.now faces.now folded.now) e (k + 1) list.new.items) }
    ensures few { OnOk result (length list.new.items ≤ most_constraints) }
    ensures refused { IfErr result (WhyNoEdgePairs (sheet_of pattern.now faces.now folded.now)) }
{
    match shared_segment(pattern, faces, folded, e, k) {
        Some(pair) => append(list, pair),
        None => Ok(()),
    }
}

// Appends the pairs of the edge with the edges of the block that come after it. Those that it doesn't touch are passed
// over.
fn append_block(
    list: &mut Vec<EdgePair>,
    pattern: &Pattern,
    faces: &Faces,
    folded: &Folded,
    extents: &[Extent],
    e: u32,
    b: usize,
) -> Result<(), No>
    requires folded { IsFoldedPattern pattern.now faces.now folded.now }
    requires edge { e < length pattern.now.edges }
    requires inner { IsTrue (is_inner_edge (sheet_of pattern.now faces.now folded.now) e) }
    requires extents { AreExtents (IsRoundInner (sheet_of pattern.now faces.now folded.now)) (length pattern.now.edges) extents.now }
    requires block { BLOCK * b ≤ length extents.now }
    requires listed { ArePairsTo (sheet_of pattern.now faces.now folded.now) e (BLOCK * b) list.old.items }
    requires few { length list.old.items ≤ most_constraints }
    ensures listed { OnOk result (ArePairsTo (sheet_of pattern.now faces.now folded.now) e (BLOCK * b + BLOCK) list.new.items) }
    ensures few { OnOk result (length list.new.items ≤ most_constraints) }
    ensures refused { IfErr result (WhyNoEdgePairs (sheet_of pattern.now faces.now folded.now)) }
{
    let extent = extents[e as usize];
    let from = b * BLOCK;
    for k in from..block_end(from, extents.len()) {
        if k <= e as usize {
            continue;
        }
        if !is_touching(extent, extents[k]) {
            continue;
        }
        append_shared(list, pattern, faces, folded, e, k as u32)?;
    }
    Ok(())
}

// Appends the pairs of the edge with the edges after it. Whole blocks that it doesn't touch are passed over.
fn append_row(
    list: &mut Vec<EdgePair>,
    pattern: &Pattern,
    faces: &Faces,
    folded: &Folded,
    extents: &[Extent],
    blocks: &[Extent],
    e: u32,
) -> Result<(), No>
    requires folded { IsFoldedPattern pattern.now faces.now folded.now }
    requires edge { e < length pattern.now.edges }
    requires extents { AreExtents (IsRoundInner (sheet_of pattern.now faces.now folded.now)) (length pattern.now.edges) extents.now }
    requires blocks_are { AreBlocks extents.now blocks.now }
    requires listed { ArePairsTo (sheet_of pattern.now faces.now folded.now) e 0 list.old.items }
    requires few { length list.old.items ≤ most_constraints }
    ensures listed { OnOk result (ArePairsTo (sheet_of pattern.now faces.now folded.now) (e + 1) 0 list.new.items) }
    ensures few { OnOk result (length list.new.items ≤ most_constraints) }
    ensures refused { IfErr result (WhyNoEdgePairs (sheet_of pattern.now faces.now folded.now)) }
{
    if !is_inner(pattern, faces, folded, e) {
        return Ok(());
    }
    let extent = extents[e as usize];
    for b in e as usize / BLOCK..blocks.len() {
        if !is_touching(extent, blocks[b]) {
            continue;
        }
        append_block(list, pattern, faces, folded, extents, e, b)?;
    }
    Ok(())
}

/// The pairs of edges whose images have a common segment of positive length, where a constraint rests on that: two
/// folded edges with all four faces on one side, a folded and a flat edge, or two flat edges. They stand in order of the
/// first edge, then of the second. Refused exactly where there are more than `MOST_CONSTRAINTS`.
pub fn edge_pairs(
    alloc: Global,
    pattern: &Pattern,
    faces: &Faces,
    folded: &Folded,
) -> Result<Items<EdgePair>, No>
    requires { IsFoldedPattern pattern.now faces.now folded.now }
    ensures made { IfOk result (λ list. AreEdgePairs (sheet_of pattern.now faces.now folded.now) list) }
    ensures few { IfOk result (λ list. length list ≤ most_constraints) }
    ensures refused { IfErr result (WhyNoEdgePairs (sheet_of pattern.now faces.now folded.now)) }
{
    let extents = inner_extents(alloc, pattern, faces, folded)?;
    let blocks = block_extents(alloc, extents.as_slice())?;
    let mut list = Vec::new(alloc);
    for e in 0..pattern.edges.as_slice().len() as u32 {
        append_row(
            &mut list,
            pattern,
            faces,
            folded,
            extents.as_slice(),
            blocks.as_slice(),
            e,
        )?;
    }
    Ok(Items::of(list))
}
