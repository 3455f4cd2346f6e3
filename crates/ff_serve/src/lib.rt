//! The workbench on one thread: scripts are served one viewer after the other.
#![tactic(auto)]

mod deducing;
mod happening;
mod publishing;
mod serving;

pub use serving::serve;
