//! The faces, the folding and the case of a crease pattern.
#![tactic(auto)]

mod cases;
mod laws;
mod problems;
mod solving;
mod starts;

pub use laws::{problem_is_one, refusal_is_one};
pub use problems::Problem;
pub use solving::problem;
