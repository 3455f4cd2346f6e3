//! The state of a search, and what a call answers.
ghost use Rattle.std.specs.Prelude.{◌*◌, ◌<◌, ◌^◌, length};

use crate::path::Path;
use ff_propagate::{Part, Uses};
use ff_tables::{Items, Order, System};

/// A search for the solutions of a part, at a node of the part's decision tree. It keeps a system of the part's own: the
/// constraints that touch the part, over its variables by their places in it and one more for each other term, whose values
/// the board has. Contracts see the part, and how many nodes of the tree it has visited.
#[derive(Drop)]
pub struct Search {
    pub(crate) part: Part,
    pub(crate) visited: u64,
    // The turns of the visited nodes are a number of 64 bits.
    pub(crate) ghost counted: { length part.vars * visited < 2 ^ 64 },
    pub(crate) system: System,
    // The part's variables in that system: their places.
    pub(crate) places: Items<u32>,
    pub(crate) uses: Uses,
    pub(crate) path: Path,
}

/// How a search goes on.
#[derive(Drop)]
pub enum Advance {
    /// The next solution: a value for each variable of the part.
    Found(Items<Order>),
    /// The tree has ended.
    Finished,
    /// The tree goes on, and the turns that are left don't cover a node.
    Spent,
}
