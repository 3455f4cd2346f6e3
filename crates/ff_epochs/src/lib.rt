//! What the epochs of a legal journal say of stackings; no code that runs.
#![tactic(auto)]

mod laws;

pub use laws::epochs_are_stackings;
