//! Edges inside faces.
use ff_whole::Place;

/// An edge that isn't a border edge, and a face that has a part of the edge's image of positive length inside. `at` are
/// the ends of that part, the first in the order of x and then of y, each in lowest terms; they are in the units of the
/// folded points.
#[derive(Clone, Copy, Debug, PartialEq, Eq)]
pub struct EdgeFace {
    pub e: u32,
    pub face: u32,
    pub at: [Place; 2],
}
