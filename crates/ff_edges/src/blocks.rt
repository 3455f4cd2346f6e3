//! Blocks of a list of extents, and how far each reaches, so that all items of a block are passed over at once.
ghost use Rattle.std.specs.Prelude.{◌≡◌, ◌<◌, ◌≤◌, ◌+◌, ℕ, length, IfOk, IfErr};
ghost use Rattle.ff_types.specs.declared.refusals.No.TheVariants.{NoMemory as no_memory};
ghost use Rattle.ff_edges.specs.Extents.{IsExtent, extent_at, IsRoundAll, AreBlocks};

use crate::extents::{Extent, joined, nowhere, push};
use ff_types::No;
use std::alloc::Global;

/// How many items a block has, but for the last one.
pub const BLOCK: usize = 32;

/// The place where a block of a list ends.
pub fn block_end(from: usize, len: usize) -> usize
    requires { from ≤ len }
    ensures after { from ≤ result }
    ensures within { result ≤ len }
    ensures all { (k : ℕ) → k < from + BLOCK → k < len → k < result }
    ensures only { result ≤ from + BLOCK }
{
    if len - from < BLOCK {
        len
    } else {
        from + BLOCK
    }
}

fn block_extent(list: &[Extent], from: usize) -> Extent
    requires extents { (k : ℕ) → k < length list.now → IsExtent (extent_at list.now k) }
    requires within { from ≤ length list.now }
    ensures extent { IsExtent result }
    ensures round { IsRoundAll list.now from (from + BLOCK) result }
{
    let mut extent = nowhere();
    for k in from..block_end(from, list.len()) {
        extent = joined(extent, list[k]);
    }
    extent
}

/// How far blocks of the list reach.
pub fn block_extents(alloc: Global, list: &[Extent]) -> Result<Vec<Extent>, No>
    requires { (k : ℕ) → k < length list.now → IsExtent (extent_at list.now k) }
    ensures made { IfOk result (λ blocks. AreBlocks list.now blocks.items) }
    ensures refused { IfErr result (λ no. no ≡ no_memory) }
{
    let mut blocks = Vec::new(alloc);
    for b in 0..list.len() / BLOCK + 1 {
        push(&mut blocks, block_extent(list, b * BLOCK))?;
    }
    Ok(blocks)
}
