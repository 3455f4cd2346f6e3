//! The stackings nearest to given orders of pairs.
#![tactic(auto)]

mod answering;
mod counting;
mod filling;
mod laws;
mod least;
mod parts;
mod searching;
mod sofar;
mod weighing;
mod wishes;

pub use answering::near;
pub use laws::{distances_are_sums, least_sums_are_best, wishes_are_wanted};
pub use parts::{Near, PartBest, PartNear};
pub use wishes::wanted;
