//! A shared board of facts: words that are each set once, by facts that rest on facts of lower levels.
#![tactic(auto)]

mod board;
mod collect;
mod due;
mod examine;
mod few;
mod offering;
mod opening;
mod reading;
mod seats;
mod starting;
mod sweep;

pub use board::EpochBoard;
pub use examine::Look;
pub use few::are_few;
pub use offering::Offer;
pub use opening::Opening;
pub use seats::BoardSeat;
pub use starting::open_board;
pub use sweep::Sweep;
