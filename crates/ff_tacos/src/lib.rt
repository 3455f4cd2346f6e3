//! The constraints of a folded sheet that rest on edges: taco-taco, taco-tortilla and tortilla-tortilla.
#![tactic(auto)]

mod append;
mod beside;
mod constraints;
mod listing;
mod mixed;
mod passes;

pub use beside::{beside as faces_beside, is_flat, is_folded, matching};
pub use listing::tacos;
