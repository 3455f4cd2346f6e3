//! Given orders of faces, and the verdict on them.
use ff_types::Cite;

/// An item of FOLD's `faceOrders`: `s` is 1 where the face `f` lies on the side to which the normal of the face `g` points, -1
/// where it lies on the other side, and 0 where nothing is said.
#[derive(Clone, Copy, Debug, PartialEq, Eq)]
pub struct OrderItem {
    pub f: u32,
    pub g: u32,
    pub s: i8,
}

/// The first thing that is wrong with given orders.
#[derive(Clone, Copy, Debug, PartialEq, Eq)]
pub enum OrderVerdict {
    /// They are a stacking in which no paper crosses, and keep the creases.
    Verified,
    /// Both orders of an overlapping pair are said. The pair is the first one by number.
    Contradiction { f: u32, g: u32 },
    /// No order of an overlapping pair is said. The pair is the first one by number.
    Missing { f: u32, g: u32 },
    /// The mark of an edge isn't kept. The edge is the least.
    Mark { e: u32 },
    /// Three faces with a common place go round. They are those of the first constraint that has no row.
    Cycle { f: u32, g: u32, h: u32 },
    /// Paper crosses at what the cite names. It is the cite of the first constraint that has no row.
    Crossing(Cite),
}
