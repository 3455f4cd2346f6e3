//! Whether a log refutes a folded sheet.
#![tactic(auto)]

mod checking;
mod held;
mod laws;
mod progress;
mod reading;
mod taking;
mod verdicts;

pub use checking::check;
pub use laws::{accepted_logs_refute, case_logs_are_accepted, one_verdict, some_verdict};
pub use verdicts::{Verdict, WhyNot};
