//! Gates, at which workers and viewers can be held.

/// Where a gate is passed.
#[derive(Clone, Copy, Debug, PartialEq, Eq)]
pub enum GateAt {
    /// Before each turn of this worker.
    WorkerTurn { worker: u32 },
    /// After this answer of this viewer, counted from 0.
    Answered { viewer: u32, index: u32 },
    /// Before each constraint that is examined in the work on a board.
    Task,
}

/// A gate. `pass` has no meaning and may wait; a gate that waits holds the runtime in a field.
pub trait Gate {
    fn pass(&self, at: GateAt);
}

/// A gate that does nothing.
#[derive(Clone, Copy)]
pub struct NoGate;

impl Gate for NoGate {
    fn pass(&self, at: GateAt) {
        let _ = at;
    }
}
