//! The solutions of a part, by a tree of tried values.
#![tactic(auto)]

mod copying;
mod laws;
mod path;
mod refuting;
mod search;
mod starting;
mod state;
mod steps;
mod visiting;

pub use laws::decided_nodes_are_solutions;
pub use refuting::refutation;
pub use starting::start;
pub use state::{Advance, Search};
pub use steps::Step;
