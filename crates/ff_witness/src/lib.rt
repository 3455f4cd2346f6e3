//! What the cites of a log declare on a folded sheet, where their places witness it.
#![tactic(auto)]

mod cites;
mod edges;
mod witness;

pub use cites::{crease_claim, declared_by};
