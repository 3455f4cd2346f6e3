//! How large the numbers of the plane may be. Nothing else in this crate names a size.

/// The coordinates of a point are below this in size, before and after folding. The limit is this project's own.
pub const POINT_SIZE: u64 = 1 << 23;

/// The cross product of two points, and the terms of twice an area, are below this in size.
pub const AREA_SIZE: u64 = 2 * POINT_SIZE * POINT_SIZE;

/// The `a` and `b` of a line through two points are below this in size.
pub const SLOPE_SIZE: u64 = 2 * POINT_SIZE;

/// The `c` of a line through two points is below this in size.
pub const OFFSET_SIZE: u64 = 2 * SLOPE_SIZE * POINT_SIZE;

/// The `x` and `y` of the place where two lines meet are below this in size.
pub const MEET_SIZE: u128 = 2 * OFFSET_SIZE as u128 * SLOPE_SIZE as u128;

/// The `w` of the place where two lines meet is below this.
pub const MEET_WEIGHT: u128 = 2 * SLOPE_SIZE as u128 * SLOPE_SIZE as u128;

/// The `x` of the place of a line at the x of such a place is below this in size.
pub const CORNER_X_SIZE: u128 = MEET_SIZE * SLOPE_SIZE as u128;

/// The `y` of the place of a line at the x of such a place is below this in size.
pub const CORNER_SIZE: u128 = 2 * MEET_SIZE * SLOPE_SIZE as u128;

/// The `w` of the place of a line at the x of such a place is below this.
pub const CORNER_WEIGHT: u128 = MEET_WEIGHT * SLOPE_SIZE as u128;

/// The `x` and `y` of any place whose side is asked are below this in size.
pub const PLACE_SIZE: u128 = 1 << 98;

/// The `w` of any place whose side is asked is below this.
pub const PLACE_WEIGHT: u128 = 1 << 74;
