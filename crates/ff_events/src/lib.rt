//! Lists of events of small cases, tried: what the core's journal says then.
#![tactic(auto)]

mod cases;
mod telling;
#[cfg(test)]
mod tests;

pub use cases::strip;
pub use telling::journal_text;
