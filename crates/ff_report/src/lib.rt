//! The texts of a report: its head, its parts and its other lines, and the lines of refusals.
#![tactic(auto)]

mod heads;
mod lines;
mod logs;
mod parts;
mod refusals;
mod summaries;

pub use heads::head_text;
pub use lines::{Last, clash_text, last_text, parts_text};
pub use parts::{PartOutcome, part_text};
pub use refusals::refusal_text;
pub use summaries::summary_text;
