//! The state of pages, and what a call answers.
use ff_log::Log;
use ff_propagate::{Facts, Part};
use ff_solver::Search;
use ff_tables::{Given, Items, Order};
use std::alloc::Global;
use std::sync::Arc;

/// A page, by number.
#[derive(Drop)]
pub enum PageAnswer {
    /// Up to 64 solutions.
    Page(Items<Items<Order>>),
    /// The part has solutions, and none on this page.
    Past { count: u32 },
    /// The part has no solution, as the log shows.
    None(Log),
    /// The page's end needs more turns than the budget.
    Unfinished,
}

/// The solutions of a part, found as pages are asked for. Contracts see its givens, facts, part and budget, and how many nodes
/// of the part's tree it has visited.
#[derive(Drop)]
pub struct Pages {
    pub(crate) givens: Arc<Items<Given>, Global>,
    pub(crate) facts: Arc<Facts, Global>,
    pub(crate) part: Part,
    pub(crate) budget: u64,
    // None until a node is visited.
    pub(crate) search: Option<Search>,
    // The solutions found so far.
    pub(crate) found: Vec<Items<Order>>,
}

/// How a search went on.
#[derive(Clone, Copy)]
pub(crate) enum Gone {
    Found,
    Finished,
    Spent,
}
