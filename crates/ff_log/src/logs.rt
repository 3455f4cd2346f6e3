//! The lines of a log.
ghost use Rattle.std.specs.Prelude.{◌≡◌, IfOk};

use ff_tables::{Items, NoMemory, Order};
use ff_types::Cite;
use std::alloc::Global;

/// A line of a log. Constraints are numbered from 0 in the order in which the log declares them.
#[derive(Clone, Copy, Debug, PartialEq, Eq)]
pub enum LogLine {
    /// Declares the constraint that the cite names.
    Use(Cite),
    /// The order that the edge's mark M or V says holds.
    Crease(u32),
    /// The pin with this number holds.
    Pin(u32),
    /// `f` stands to `g` so, since the constraint `by` leaves nothing else.
    Force {
        f: u32,
        g: u32,
        value: Order,
        by: u32,
    },
    /// Opens a branch in which `f` stands to `g` so.
    Try {
        f: u32,
        g: u32,
        value: Order,
    },
    /// Closes, since the constraint has no row left.
    Dead(u32),
    /// Closes, since both orders of the two faces hold.
    Clash {
        f: u32,
        g: u32,
    },
}

/// A log. Its lines are numbered from 0.
#[derive(Drop)]
pub struct Log {
    pub lines: Items<LogLine>,
}

impl Log {
    /// An equal log.
    pub fn copy(&self, alloc: Global) -> Result<Log, NoMemory>
        ensures { IfOk result (λ copied. copied ≡ self.now) }
    {
        Ok(Log {
            lines: self.lines.copy(alloc)?,
        })
    }
}
