//! How large the numbers of folding may be. Nothing else in this crate names a size.
use ff_types::MOST_EDGES;
use ff_whole::{POINT_SIZE, SLOPE_SIZE};

/// Dot and cross products of the ways between near points are below this in size.
pub(crate) const LENGTH_SIZE: u64 = 2 * SLOPE_SIZE * SLOPE_SIZE;

/// Coordinates of an image, times the squared length of an edge, are below this in size.
pub(crate) const IMAGE_SIZE: u128 = LENGTH_SIZE as u128 * POINT_SIZE as u128
    + 2 * LENGTH_SIZE as u128 * SLOPE_SIZE as u128;

/// How many chains the edges are kept in: few edges share one.
pub(crate) const CHAINS: usize = MOST_EDGES;
