//! Sources and sinks of bytes, each with a count of its faults.
#![tactic(auto)]

mod gates;
mod memory;
mod standard;
mod steady;
mod streams;

pub use gates::{Gate, GateAt, NoGate};
pub use memory::{MemSink, MemSource};
pub use standard::{StdSink, StdSource};
pub use steady::{SteadySink, SteadySource};
pub use streams::{Sink, SinkFailed, Source, SourceFailed};
