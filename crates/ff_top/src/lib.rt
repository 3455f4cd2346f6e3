//! The program's top call: words, a source and a sink to a status.
#![tactic(auto)]

mod asking;
mod benching;
mod checking;
mod drawing;
mod making;
mod outcome;
mod solving;
pub mod status;
pub mod texts;
pub mod top;
pub mod transfer;
mod writing;
