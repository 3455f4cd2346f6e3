//! The words of the command line.
#![tactic(auto)]

mod jobs;
mod numbers;
mod words;

pub use jobs::{Job, WordsNo};
pub use words::read_words;
