//! How far edges reach.
ghost use Rattle.std.specs.Prelude.{◌≡◌, ◌<◌, ◌↔◌, ◌<ℤ◌, ◌≤ℤ◌, length, IsTrue, IfOk};
ghost use Rattle.std.specs.List.Sorted.{IsPermutation};
ghost use Rattle.ff_whole.specs.Points.{IsNear};
ghost use Rattle.ff_whole.specs.Sizes.{IsBelow};
ghost use Rattle.ff_drawn.specs.Graphs.{IsGraph};
ghost use Rattle.ff_drawn.specs.Extents.{IsAround, IsAroundEdge, AreEdgeExtents, AreInOrder as AreFromWest};

use ff_tables::NoMemory;
use ff_types::EdgeEnds;
use ff_whole::{Pt, high_of, low_of};
use std::alloc::Global;

/// How far something with a number reaches: from its least to its greatest x and y.
#[derive(Clone, Copy, Debug, PartialEq, Eq, PartialOrd, Ord)]
pub struct Extent {
    pub low: Pt,
    pub high: Pt,
    pub number: u32,
}

// The extent of two points.
fn extent_of(p: Pt, q: Pt, number: u32) -> Extent
    requires p_near { IsNear p }
    requires q_near { IsNear q }
    ensures first { IsAround p result }
    ensures last { IsAround q result }
    ensures low_near { IsNear result.low }
    ensures high_near { IsNear result.high }
    ensures number { result.number ≡ number }
{
    Extent {
        low: low_of(p, q),
        high: high_of(p, q),
        number,
    }
}

// The extent of an edge.
fn edge_extent(points: &[Pt], edges: &[EdgeEnds], e: usize) -> Extent
    requires graph { IsGraph points.now edges.now }
    requires within { e < length edges.now }
    ensures around { IsAroundEdge points.now edges.now result }
    ensures number { result.number ≡ e }
{
    let EdgeEnds { a, b } = edges[e];
    extent_of(points[a as usize], points[b as usize], e as u32)
}

/// The extents of all edges.
pub fn edge_extents(
    alloc: Global,
    points: &[Pt],
    edges: &[EdgeEnds],
) -> Result<Vec<Extent>, NoMemory>
    requires graph { IsGraph points.now edges.now }
    ensures { IfOk result (λ list. AreEdgeExtents points.now edges.now list.items) }
{
    let mut list = Vec::new(alloc);
    for e in 0..edges.len() {
        list.push(edge_extent(points, edges, e))?;
    }
    Ok(list)
}

/// Puts extents in order from west to east.
pub fn order(list: &mut [Extent])
    ensures same { IsPermutation list.old list.new }
    ensures in_order { AreFromWest list.new }
{
    list.sort_unstable();
}

/// Whether the first point has the lesser x.
pub fn is_west_of(p: Pt, q: Pt) -> bool
    requires p_near { IsNear p }
    requires q_near { IsNear q }
    ensures { IsTrue result ↔ (p.x <ℤ q.x) }
{
    p.x < q.x
}

/// Whether the first point has the lesser y.
pub fn is_south_of(p: Pt, q: Pt) -> bool
    requires p_near { IsNear p }
    requires q_near { IsNear q }
    ensures { IsTrue result ↔ (p.y <ℤ q.y) }
{
    p.y < q.y
}
