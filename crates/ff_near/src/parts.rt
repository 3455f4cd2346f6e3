//! What the search of each part comes to, and the answer.
use ff_tables::{Items, Order};

/// The numbers of the best solutions of a part, in increasing order, and what each of them costs.
#[derive(Drop)]
pub struct PartBest {
    pub cost: u32,
    pub best: Items<u32>,
}

/// What the search of a part comes to: its best solutions and the first of them; or there is no solution; or the budget doesn't cover
/// its tree.
#[derive(Drop)]
pub enum PartNear {
    Best(PartBest, Items<Order>),
    None,
    Unfinished,
}

/// The stackings nearest to given orders.
#[derive(Drop)]
pub enum Near {
    /// The distance, how many given orders the closure decides otherwise, the best solutions of each part, and for each pair the order that
    /// the closure or the first best solution of its part has.
    Best {
        distance: u32,
        decided: u32,
        parts: Items<PartBest>,
        values: Items<Order>,
    },
    /// The least part whose tree the budget doesn't cover.
    Unfinished {
        part: u32,
    },
    /// The least part that is finished and has no solution.
    None {
        part: u32,
    },
}
