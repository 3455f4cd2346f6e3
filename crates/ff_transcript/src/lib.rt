//! The transcript of a session: the text of each entry of its journal.
#![tactic(auto)]

mod boards;
mod entries;
mod reasons;
mod replies;

pub use entries::{end_text, entry_text};
