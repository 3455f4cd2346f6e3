//! Signals between threads, and a gate that waits for them at chosen places, up to a limit, so that a trial ends.
#![tactic(auto)]

mod signals;
mod stops;

pub use signals::Signal;
pub use stops::{Stop, Stops, Told};
