//! Independent parts of what a closure leaves undecided.
ghost use Rattle.std.specs.Prelude.{◌≡◌, IfOk};

use ff_tables::{Items, NoMemory};
use std::alloc::Global;

/// The variables of a part, and the numbers of the constraints that have one of them, both in increasing order.
#[derive(Drop)]
pub struct Part {
    pub vars: Items<u32>,
    pub touching: Items<u32>,
}

impl Part {
    /// An equal part.
    pub fn copy(&self, alloc: Global) -> Result<Part, NoMemory>
        ensures { IfOk result (λ copied. copied ≡ self.now) }
    {
        Ok(Part {
            vars: self.vars.copy(alloc)?,
            touching: self.touching.copy(alloc)?,
        })
    }
}
