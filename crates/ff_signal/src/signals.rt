//! Signals.
ghost use Rattle.std.specs.Prelude.{◌<◌, IfSome};

use std::sync::atomic::{AtomicBool, Ordering};
use std::thread;

/// Something that is given once, and that other threads wait for.
#[derive(Drop)]
pub struct Signal {
    given: AtomicBool,
}

impl Signal {
    /// A signal that isn't given yet.
    pub fn new() -> Signal {
        Signal {
            given: AtomicBool::new(false),
        }
    }

    /// Gives it.
    pub fn give(&self) {
        self.given.store(true, Ordering::SeqCst);
    }

    /// Whether it is given.
    pub fn is_given(&self) -> bool {
        self.given.load(Ordering::SeqCst)
    }

    /// Looks until it is given, at most so many times. How many looks were in vain before, or None where all were.
    pub fn wait(&self, looks: u32) -> Option<u32>
        ensures { IfSome result (λ vain. vain < looks) }
    {
        for vain in 0..looks {
            if self.is_given() {
                return Some(vain);
            }
            thread::yield_now();
        }
        None
    }
}
