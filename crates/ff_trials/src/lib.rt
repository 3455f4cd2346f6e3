//! What no input of the program shows: closing, parts and searches tried together on small systems, rows of constraints, calls of
//! plane geometry, sources and sinks of std's, jobs.
#![tactic(auto)]

#[cfg(test)]
mod plane;
#[cfg(test)]
mod streams;
mod strips;
mod systems;
#[cfg(test)]
mod tables;
#[cfg(test)]
mod tests;
#[cfg(test)]
mod words;

pub use strips::strip;
pub use systems::{Shape, Turns, case, tried};
