//! Laws of crossings: that no paper crosses is what the rows of the constraints say, and so what the case of a sheet says.
#![tactic(auto)]

mod alternating;
mod cases;
mod chords;
mod crossing;
mod listings;
mod rows;

pub use alternating::{
    left_cap_alternates, left_caps_alternate, opposed_caps_never, right_cap_alternates,
    right_caps_alternate, throughs_alternate,
};
pub use cases::{cases_are_alike, cases_are_true, pins_are_held};
pub use chords::{chords_are, sides_are};
pub use crossing::{cites_give_rows, rows_are_geometry, rows_give_stackings};
pub use listings::{listed_exactly, parts_are_listed, triples_suffice};
pub use rows::{equal_rows, rows_by_test, taco_taco_rows, transitivity_rows};
