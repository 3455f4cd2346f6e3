//! Given orders of faces, read and judged exactly.
#![tactic(auto)]

mod items;
mod laws;
mod reading;
mod rings;
mod said;
mod verifying;

pub use items::{OrderItem, OrderVerdict};
pub use laws::{crossings_are_there, cycles_go_round, verified_is_geometry};
pub use reading::orders;
pub use verifying::verify;
