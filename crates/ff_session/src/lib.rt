//! What the bytes of `bench` come to: the journal of a workbench.
#![tactic(auto)]

mod session;

pub use session::{session_alone, session_of};
