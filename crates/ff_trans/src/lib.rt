//! The transitivity constraints of a folded sheet: which three faces have a common place.
#![tactic(auto)]

mod bounds;
mod found;
mod guessing;
mod index;
mod listed;
mod marking;
mod overlaps;
mod sharing;
mod taking;
mod width;

pub use overlaps::triples;
