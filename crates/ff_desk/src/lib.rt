//! The value behind the door of a workbench: its journal, what is kept of the last published epoch, the board of the next one, and
//! the pages of parts.
#![tactic(auto)]

mod base;
mod bringing;
mod demands;
mod desk;
mod earlier;
mod ending;
mod examining;
mod home;
mod laid;
mod laws;
mod lending;
mod loans;
mod opening;
mod saying;
mod searching;

pub use base::Base;
pub use desk::Desk;
pub use examining::examine;
pub use laws::openings_stay;
pub use loans::{Found, Lent, Loan, Turn};
