//! What `make` answers: the summary of a crease pattern that is made and solved.
#![tactic(auto)]

mod answers;
mod laws;
mod making;

pub use answers::{Answer, answer_of};
pub use laws::{one_summary, some_summary};
