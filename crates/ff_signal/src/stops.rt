//! A gate with stops.
ghost use Rattle.std.specs.Prelude.{◌<◌, IfSome};

use crate::signals::Signal;
use ff_outside::{Gate, GateAt};
use std::fmt::{self, Display, Formatter, Write};
use std::sync::atomic::{AtomicU64, Ordering};

/// What became of a stop.
#[derive(Clone, Copy, Debug, PartialEq, Eq)]
pub enum Told {
    /// It was passed, and what it was held for came within the limit.
    Held,
    /// It was passed, and what it was held for didn't come within the limit.
    Late,
    /// It was never passed.
    Missed,
}

impl Display for Told {
    fn fmt<W: Write>(&self, f: &mut Formatter<W>) -> fmt::Result {
        f.write_str(match self {
            Told::Held => "held",
            Told::Late => "late",
            Told::Missed => "missed",
        })
    }
}

/// One pass of a gate, by its place and its number among the passes there, counted from 0. It may be held until another stop of the
/// same gate is passed, and passes before another stop may not count. Stops are named by their places in the list of the gate.
#[derive(Drop)]
pub struct Stop {
    at: GateAt,
    number: u64,
    after: Option<usize>,
    until: Option<usize>,
    passes: AtomicU64,
    came: Signal,
    late: Signal,
}

impl Stop {
    /// The pass with this number at this place. Nothing holds it.
    pub fn new(at: GateAt, number: u64) -> Stop {
        Stop {
            at,
            number,
            after: None,
            until: None,
            passes: AtomicU64::new(0),
            came: Signal::new(),
            late: Signal::new(),
        }
    }

    /// The same, where passes count only once that stop is passed.
    pub fn after(mut self, stop: usize) -> Stop {
        self.after = Some(stop);
        self
    }

    /// The same, where it is held until that stop is passed.
    pub fn until(mut self, stop: usize) -> Stop {
        self.until = Some(stop);
        self
    }

    // Whether this pass is the one, where passes count.
    fn is_now(&self, at: GateAt) -> bool {
        at == self.at && self.passes.fetch_add(1, Ordering::SeqCst) == self.number
    }

    /// What became of it.
    pub fn told(&self) -> Told {
        if !self.came.is_given() {
            Told::Missed
        } else if self.late.is_given() {
            Told::Late
        } else {
            Told::Held
        }
    }
}

/// A gate with stops. What is held looks so many times at most, and then goes on.
#[derive(Drop)]
pub struct Stops {
    pub list: Vec<Stop>,
    pub looks: u32,
}

impl Stops {
    /// Whether this stop was passed. One that isn't in the list never is.
    pub fn is_passed(&self, stop: usize) -> bool {
        match self.list.get(stop) {
            Some(stop) => stop.came.is_given(),
            None => false,
        }
    }

    /// Looks until this stop is passed, within the limit. How many looks were in vain before, or None where all were.
    pub fn wait(&self, stop: usize) -> Option<u32>
        ensures { IfSome result (λ vain. vain < self.now.looks) }
    {
        match self.list.get(stop) {
            Some(stop) => stop.came.wait(self.looks),
            None => None,
        }
    }

    // Whether passes of the stop count by now.
    fn is_open(&self, stop: &Stop) -> bool {
        match stop.after {
            Some(other) => self.is_passed(other),
            None => true,
        }
    }

    // Notes that the stop is passed, and holds it.
    fn hold(&self, stop: &Stop) {
        stop.came.give();
        if let Some(other) = stop.until {
            if self.wait(other).is_none() {
                stop.late.give();
            }
        }
    }

    /// What became of the first stop that wasn't held in time, or that all were.
    pub fn told(&self) -> Told {
        for stop in self.list.iter() {
            match stop.told() {
                Told::Held => {}
                other => return other,
            }
        }
        Told::Held
    }
}

impl Gate for Stops {
    fn pass(&self, at: GateAt) {
        for stop in self.list.iter() {
            if self.is_open(stop) && stop.is_now(at) {
                self.hold(stop);
            }
        }
    }
}
