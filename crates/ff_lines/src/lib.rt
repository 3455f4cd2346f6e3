//! Drawings of lines.
#![tactic(auto)]

mod cutting;
mod drawing;
mod gathering;
mod items;
mod laws;
mod pairs;
mod sweeping;

pub use drawing::draw;
pub use items::{LineItem, MOST_LINES};
pub use laws::{cuts_are_lines, drawings_keep_letters, edges_share_ends, wholes_by_division};
