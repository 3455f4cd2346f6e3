//! Pages of a part's solutions.
#![tactic(auto)]

mod ahead;
mod going;
mod moving;
mod pages;
mod reading;
mod rims;

pub use pages::{PageAnswer, Pages};
