//! Directed edges, in order.
ghost use Rattle.std.specs.Prelude.{◌≡◌, ◌≤◌, length, IfOk};
ghost use Rattle.ff_types.specs.declared.limits.TheConstants.{MOST_EDGES};
ghost use Rattle.ff_drawn.specs.Darts.{AreDarts, HoldDarts, comes_before as dart_before};

use ff_tables::NoMemory;
use ff_types::EdgeEnds;
use std::alloc::Global;

/// An edge from one of its ends to the other, and the side on its left.
#[derive(Clone, Copy, Debug, PartialEq, Eq, PartialOrd, Ord)]
pub struct Dart {
    pub tail: u32,
    pub head: u32,
}

// Both darts of each edge: all along their edges first, so that edges in order leave long runs in order.
fn both_ways(alloc: Global, edges: &[EdgeEnds]) -> Result<Vec<Dart>, NoMemory>
    requires few { length edges.now ≤ MOST_EDGES }
    ensures { IfOk result (λ darts. HoldDarts edges.now darts.items) }
{
    let mut darts = Vec::with_capacity(alloc, edges.len() * 2)?;
    for there in edges {
        darts.push(Dart {
            tail: there.a,
            head: there.b,
        })?;
    }
    for back in edges {
        darts.push(Dart {
            tail: back.b,
            head: back.a,
        })?;
    }
    Ok(darts)
}

/// The darts of the edges, in order.
pub fn darts_of(alloc: Global, edges: &[EdgeEnds]) -> Result<Vec<Dart>, NoMemory>
    requires few { length edges.now ≤ MOST_EDGES }
    ensures { IfOk result (λ darts. AreDarts edges.now darts.items) }
{
    let mut darts = both_ways(alloc, edges)?;
    darts.sort()?;
    darts.dedup();
    Ok(darts)
}

/// Whether the first dart comes before the second.
pub fn comes_before(d: Dart, c: Dart) -> bool
    ensures { result ≡ dart_before d c }
{
    d.tail < c.tail || (d.tail == c.tail && d.head < c.head)
}
