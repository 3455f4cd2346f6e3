//! Makes named crease patterns.
#![tactic(auto)]

mod accordions;
mod laws;

pub use accordions::make;
pub use laws::accordion_is_one;
