//! Facts that still stand under other givens.
#![tactic(auto)]

mod carrying;
mod forcing;
mod keeping;
mod laws;
mod placing;

pub use carrying::{Opened, carry};
pub use laws::{carried_facts_meet_the_rule, chains_are_kept};
pub use placing::{Placed, order_of};
