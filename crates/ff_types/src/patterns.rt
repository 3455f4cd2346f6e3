//! Crease patterns as they are read.
ghost use Rattle.ff_types.specs.Patterns.{IsPattern};

use ff_tables::Items;
use ff_whole::Pt;

/// The mark of an edge, by the letters of FOLD 1.1: border, mountain, valley, flat (unfolded) or unassigned.
/// An unassigned edge is folded in an unknown direction.
#[derive(Clone, Copy, Debug, PartialEq, Eq)]
pub enum Mark {
    B,
    M,
    V,
    F,
    U,
}

/// The two vertices that an edge joins.
#[derive(Clone, Copy, Debug, PartialEq, Eq)]
pub struct EdgeEnds {
    pub a: u32,
    pub b: u32,
}

/// A crease pattern within the limits, whatever its edges do to one another. Vertices and edges are numbered from 0
/// in the order of the input. `marks` is None where the input has no assignment.
#[derive(Drop)]
pub struct Pattern {
    pub points: Items<Pt>,
    pub edges: Items<EdgeEnds>,
    pub marks: Option<Items<Mark>>,
    pub ghost valid: { IsPattern points edges marks },
}
