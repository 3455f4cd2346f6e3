//! Workers that share the constraints of a board, and steal tasks from one another.
#![tactic(auto)]

mod crews;
mod making;
mod members;
mod sharing;
mod tasks;
mod working;

pub use crews::{Crew, Hand};
pub use making::crew;
pub use working::{work, work_with};
