//! Exact plane geometry in whole numbers: points, lines, places where lines meet, and how they lie to each other.
#![tactic(auto)]

mod convex;
mod divisors;
mod heights;
mod lines;
mod meeting;
mod places;
mod points;
mod rectangles;
mod sizes;

pub use convex::{is_convex, next_place};
pub use divisors::{gcd, reduced};
pub use heights::{cmp_height, corner};
pub use lines::{Line, side_of, through};
pub use meeting::meet;
pub use places::{Place, cmp_x};
pub use points::{Pt, orient};
pub use rectangles::{high_of, low_of};
pub use sizes::{
    AREA_SIZE, CORNER_SIZE, CORNER_WEIGHT, CORNER_X_SIZE, MEET_SIZE, MEET_WEIGHT, OFFSET_SIZE,
    PLACE_SIZE, PLACE_WEIGHT, POINT_SIZE, SLOPE_SIZE,
};
