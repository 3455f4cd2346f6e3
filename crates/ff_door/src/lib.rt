//! A value behind a door that lets one seat in at a time, in the order of tickets.
#![tactic(auto)]

mod closing;
mod door;
mod kept;
mod opening;
mod waiter;

pub use door::{Door, DoorSeat};
pub use kept::Kept;
pub use opening::new_door;
