//! The pure machine of a workbench, which keeps its journal.
#![tactic(auto)]

mod deducing;
mod events;
mod opening;
mod paging;
mod publishing;
mod refuting;
mod running;
mod saying;
mod scanning;
mod stacking;
mod state;

pub use events::{Event, Left, Step};
pub use ff_journal::{Entry, Outcome, givens_of, reply};
pub use running::run;
pub use state::Core;
