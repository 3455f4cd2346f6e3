//! The edge that joins two vertices.
ghost use Rattle.std.specs.Prelude.{◌≡◌, ◌+◌, ◌<◌, ◌^◌, length, position, IfOk};
ghost use Rattle.ff_types.specs.Drawings.{joins};
ghost use Rattle.ff_reflect.specs.Index.{chain_between, AreOnce, Indexes};

use crate::sizes::CHAINS;
use ff_tables::NoMemory;
use ff_types::EdgeEnds;
use std::alloc::Global;

/// The edges in chains, by the vertices that they join: the last edge of each chain, and the one before each edge.
#[derive(Drop)]
pub(crate) struct Index {
    pub(crate) last: Vec<Option<u32>>,
    pub(crate) before: Vec<Option<u32>>,
}

// The chain of the edge that joins two vertices, in either order. Whether vertices are numbered along rows, around the
// border or from one in the middle, most edges are alone in theirs.
fn chain_of(u: u32, v: u32) -> usize
    ensures value { result ≡ chain_between u v }
    ensures size { result < CHAINS }
{
    let low = u.min(v) as usize;
    let high = u.max(v) as usize;
    (5 * low + high) % CHAINS
}

// Whether the edge joins the two vertices.
fn does_join(ends: EdgeEnds, u: u32, v: u32) -> bool
    ensures { result ≡ joins u v ends }
{
    (ends.a == u && ends.b == v) || (ends.a == v && ends.b == u)
}

impl Index {
    // Adds the edge with the number `e`, the next one.
    fn add(&mut self, edges: &[EdgeEnds], e: u32)
        requires indexed { Indexes edges.now e self.old }
        requires there { e < length edges.now }
        ensures { Indexes edges.now (e + 1) self.new }
    {
        let ends = edges[e as usize];
        let chain = chain_of(ends.a, ends.b);
        self.before[e as usize] = self.last[chain];
        self.last[chain] = Some(e);
    }
}

/// The edges in chains.
pub(crate) fn index_of(alloc: Global, edges: &[EdgeEnds]) -> Result<Index, NoMemory>
    requires few { length edges.now < 2 ^ 32 }
    ensures { IfOk result (λ index. Indexes edges.now (length edges.now) index) }
{
    let last = vec![in alloc; None; CHAINS]?;
    let before = vec![in alloc; None; edges.len()]?;
    let mut index = Index { last, before };
    for e in 0..edges.len() as u32 {
        index.add(edges, e);
    }
    Ok(index)
}

/// The edge that joins the two vertices.
pub(crate) fn edge_of(edges: &[EdgeEnds], index: &Index, u: u32, v: u32) -> Option<u32>
    requires once { AreOnce edges.now }
    requires index { Indexes edges.now (length edges.now) index.now }
    ensures { result ≡ position (joins u v) edges.now }
{
    let mut at = index.last[chain_of(u, v)];
    while let Some(e) = at {
        if does_join(edges[e as usize], u, v) {
            return Some(e);
        }
        at = index.before[e as usize];
    }
    None
}
