//! The faces of a crease pattern, or why it has none.
#![tactic(auto)]

mod bends;
mod finding;
mod frames;
mod joining;
mod laws;
mod listing;
mod outlines;
mod reflex;
mod refusing;
mod sides;
mod traces;
mod turns;
mod walks;

pub use laws::{
    faces_are_given_or_refused, faces_are_one, given_faces_are_not_refused,
    refusals_of_faces_are_one,
};
pub use listing::faces;
