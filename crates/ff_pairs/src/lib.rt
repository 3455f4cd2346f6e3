//! The pairs of overlapping faces of a folded sheet, numbered.
#![tactic(auto)]

mod listing;
mod marking;
mod overlaps;
mod reaching;

pub use overlaps::pairs;
