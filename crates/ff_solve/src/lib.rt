//! The report of a folded crease pattern: its head, its parts and their solutions, within a budget of turns.
#![tactic(auto)]

mod laws;
mod outcomes;
mod refuting;
mod reports;
mod summaries;

pub use laws::{report_is_one, stackings_are_choices};
pub use reports::{Report, report_of};
pub use summaries::{Summary, summary_of};
