//! A system of constraints.
ghost use Rattle.ff_tables.specs.Systems.{AreFit};

use crate::{Constraint, Items};

/// Constraints over the variables below `vars`: each has as many terms as its kind, on different variables.
#[derive(Drop)]
pub struct System {
    pub vars: u32,
    pub constraints: Items<Constraint>,
    pub ghost fit: { AreFit vars constraints },
}
