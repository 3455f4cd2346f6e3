//! Refutations made from facts with levels, and from the decision tree of a part.
#![tactic(auto)]

mod clashes;
mod making;
mod marking;
mod ordering;
mod parts;
mod trimming;

pub use clashes::log_of_clash;
pub use parts::log_of_part;
