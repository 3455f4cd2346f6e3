//! The folded edges with the flat ones that they share a segment with.
ghost use Rattle.std.specs.Prelude.{◌≡◌, ◌<◌, length, IfOk};
ghost use Rattle.std.specs.List.{filter_map};
ghost use Rattle.ff_types.specs.FoldedPatterns.{IsFoldedPattern};
ghost use Rattle.ff_types.specs.Sheets.{sheet_of};
ghost use Rattle.ff_tacos.specs.Making.{mixed, AreMixed, HavePairEdges};

use crate::append::push;
use crate::beside::{is_flat, is_folded};
use ff_edges::EdgePair;
use ff_tables::NoMemory;
use ff_types::{Faces, Folded, Pattern};
use std::alloc::Global;

// The folded one of the two edges, and the flat one, if they are so.
fn folded_and_flat(
    pattern: &Pattern,
    faces: &Faces,
    folded: &Folded,
    pair: &EdgePair,
) -> Option<(u32, u32)>
    requires folded { IsFoldedPattern pattern.now faces.now folded.now }
    requires first { pair.now.e < length pattern.now.edges }
    requires second { pair.now.e2 < length pattern.now.edges }
    ensures { result ≡ mixed (sheet_of pattern.now faces.now folded.now) pair.now }
{
    if is_folded(pattern, faces, folded, pair.e) && is_flat(pattern, faces, folded, pair.e2) {
        return Some((pair.e, pair.e2));
    }
    if is_flat(pattern, faces, folded, pair.e) && is_folded(pattern, faces, folded, pair.e2) {
        return Some((pair.e2, pair.e));
    }
    None
}

fn collect(
    alloc: Global,
    pattern: &Pattern,
    faces: &Faces,
    folded: &Folded,
    edge_pairs: &[EdgePair],
) -> Result<Vec<(u32, u32)>, NoMemory>
    requires folded { IsFoldedPattern pattern.now faces.now folded.now }
    requires edges { HavePairEdges (length pattern.now.edges) edge_pairs.now }
    ensures { IfOk result (λ list. list.items
        ≡ filter_map (mixed (sheet_of pattern.now faces.now folded.now)) edge_pairs.now) }
{
    let mut list = Vec::new(alloc);
    for i in 0..edge_pairs.len() {
        let pair = folded_and_flat(pattern, faces, folded, &edge_pairs[i]);
        push(&mut list, pair)?;
    }
    Ok(list)
}

/// Of the pairs of a folded and a flat edge the folded one and the flat one, in order.
pub fn mixed_pairs(
    alloc: Global,
    pattern: &Pattern,
    faces: &Faces,
    folded: &Folded,
    edge_pairs: &[EdgePair],
) -> Result<Vec<(u32, u32)>, NoMemory>
    requires folded { IsFoldedPattern pattern.now faces.now folded.now }
    requires edges { HavePairEdges (length pattern.now.edges) edge_pairs.now }
    ensures { IfOk result (λ list. AreMixed (sheet_of pattern.now faces.now folded.now) edge_pairs.now
        list.items) }
{
    let mut list = collect(alloc, pattern, faces, folded, edge_pairs)?;
    list.as_mut_slice().sort_unstable();
    Ok(list)
}
