//! What viewers say, how it is read and written, and what they are told.
#![tactic(auto)]

mod commands;
mod copying;
mod numbers;
mod orders;
mod reading;
mod replies;
mod spelling;

pub use commands::{Command, Question};
pub use orders::{order_name, read_order};
pub use reading::read_command;
pub use replies::{Premise, Reply, Why};
pub use spelling::command_text;
