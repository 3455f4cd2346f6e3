//! Whether a crease pattern is a drawing, and the directed edges of one.
#![tactic(auto)]

mod crossings;
mod darts;
mod drawings;
mod extents;
mod leaving;
mod segments;
mod spots;

pub use darts::Dart;
pub use drawings::{Drawn, drawing, drawn_darts};
pub use extents::{Extent, is_south_of, is_west_of, order};
pub use leaving::place_of;
pub use segments::{is_left, is_right};
