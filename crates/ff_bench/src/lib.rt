//! A workbench: viewers make their entries, and workers deduce, each by a pass of its own at the door of one desk.
#![tactic(auto)]

mod acting;
mod bench;
mod counting;
mod ending;
mod opening;
mod passes;
mod places;
mod playing;
mod running;
mod serving;
mod turning;
mod working;

pub use bench::Bench;
pub use ff_desk::Turn;
pub use opening::open_bench;
pub use passes::{Pass, WorkerPass};
pub use running::run;
