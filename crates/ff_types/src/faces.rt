//! The faces of a crease pattern, and their folding.
use crate::Mark;
use ff_tables::{Items, NoMemory};
use ff_whole::Pt;

/// The faces left and right of an edge, seen from its first vertex to its second; None where the outside is.
#[derive(Clone, Copy, Debug, PartialEq, Eq)]
pub struct EdgeSides {
    pub left: Option<u32>,
    pub right: Option<u32>,
}

/// The faces of a crease pattern. A ring lists a face's vertices counterclockwise from the least one, and a ring's
/// place is its face's number. `sides` and `marks` have one item per edge; absent marks are filled in.
#[derive(Drop)]
pub struct Faces {
    pub rings: Items<Items<u32>>,
    pub sides: Items<EdgeSides>,
    pub marks: Items<Mark>,
}

/// A folding: the folded point of each vertex times the scale, and which faces lie with their first side up.
#[derive(Drop)]
pub struct Folded {
    pub scale: i64,
    pub points: Items<Pt>,
    pub up: Items<bool>,
}
