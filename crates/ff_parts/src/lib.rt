//! Independent parts of what a closure leaves undecided, and how their solutions make up the assignments of a system.
#![tactic(auto)]

mod finding;
mod gathering;
mod labelling;
mod labels;
mod laws;
mod marking;

pub use finding::parts;
pub use laws::{clash_allows_none, constraints_touch_one_part, parts_factor, parts_share_out};
