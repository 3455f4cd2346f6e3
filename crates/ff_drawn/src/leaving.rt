//! Where the darts that leave each vertex begin.
ghost use Rattle.std.specs.Prelude.{◌≡◌, ◌↔◌, ◌<◌, ◌≤◌, ◌+◌, ◌^◌, IsTrue, length, slice_index, IfOk};
ghost use Rattle.ff_types.specs.Drawings.{HasTwoEdges};
ghost use Rattle.ff_drawn.specs.Graphs.{IsGraph};
ghost use Rattle.ff_drawn.specs.Darts.{AreDarts, AreInOrder, AreStarts, ArePassed, IsStart};

use crate::darts::{Dart, comes_before};
use ff_tables::NoMemory;
use ff_types::EdgeEnds;
use ff_whole::Pt;
use std::alloc::Global;

// Goes past the darts that leave vertices before this one.
fn skip(darts: &[Dart], v: u32, start: usize) -> usize
    requires sorted { AreInOrder darts.now }
    requires within { start ≤ length darts.now }
    requires passed { ArePassed darts.now v start }
    ensures { IsStart darts.now (record { tail = v; head = 0 }) result }
{
    let mut d = start;
    while d < darts.len() {
        if darts[d].tail >= v {
            return d;
        }
        d += 1;
    }
    d
}

/// For each vertex, and one past the last, how many of the darts come before those that leave it.
pub fn starts_of(alloc: Global, darts: &[Dart], count: usize) -> Result<Vec<u32>, NoMemory>
    requires sorted { AreInOrder darts.now }
    requires few { length darts.now < 2 ^ 32 }
    requires few_vertices { count < 2 ^ 31 }
    ensures { IfOk result (λ starts. AreStarts darts.now count starts.items) }
{
    let mut starts = Vec::new(alloc);
    let mut start = 0;
    for v in 0..count + 1 {
        start = skip(darts, v as u32, start);
        starts.push(start as u32)?;
    }
    Ok(starts)
}

/// How many of the darts come before this one, found by halving among those that leave its tail.
pub fn place_of(darts: &[Dart], starts: &[u32], dart: Dart) -> usize
    requires sorted { AreInOrder darts.now }
    requires within { dart.tail + 1 < length starts.now }
    requires from { IsStart darts.now (record { tail = dart.tail; head = 0 }) (slice_index starts.now dart.tail) }
    requires to { IsStart darts.now (record { tail = dart.tail + 1; head = 0 }) (slice_index starts.now (dart.tail + 1)) }
    ensures { IsStart darts.now dart result }
{
    let tail = dart.tail as usize;
    let mut low = starts[tail] as usize;
    let mut high = starts[tail + 1] as usize;
    while low < high {
        let middle = low + (high - low) / 2;
        if comes_before(darts[middle], dart) {
            low = middle + 1;
        } else {
            high = middle;
        }
    }
    low
}

/// Whether two darts leave the vertex.
pub fn has_two_edges(
    points: &[Pt],
    edges: &[EdgeEnds],
    darts: &[Dart],
    starts: &[u32],
    v: usize,
) -> bool
    requires graph { IsGraph points.now edges.now }
    requires darts { AreDarts edges.now darts.now }
    requires starts { AreStarts darts.now (length points.now) starts.now }
    requires within { v < length points.now }
    ensures { IsTrue result ↔ HasTwoEdges edges.now v }
{
    let start = starts[v] as usize;
    if start + 1 >= darts.len() {
        return false;
    }
    darts[start + 1].tail as usize == v
}
