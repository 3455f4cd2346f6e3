//! The journal of a workbench: its entries, which journals are legal, the givens of an epoch and the replies to viewers.
#![tactic(auto)]

mod answering;
mod entries;
mod explaining;
mod givens;
mod laws;
mod pinning;
mod reading;
mod saying;

pub use answering::{board_of, reply, shows_board};
pub use entries::{Entry, Outcome};
pub use givens::givens_of;
pub use laws::{legal_for_its_scripts, legal_grows, orders_in_force_are_held};
pub use reading::{begun, entries_of};
pub use saying::{published, waits_for};
