//! Pairs of edges that run along each other.
use ff_whole::Pt;

/// Two edges e < e2 whose images have a common segment of positive length. `p` and `q` are its ends, the first in the
/// order of x and then of y; they are in the units of the folded points.
#[derive(Clone, Copy, Debug, PartialEq, Eq)]
pub struct EdgePair {
    pub e: u32,
    pub e2: u32,
    pub p: Pt,
    pub q: Pt,
}
