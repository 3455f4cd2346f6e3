//! What the last published epoch tells: pages and stacks of its parts, and refutations.
#![tactic(auto)]

mod keeping;
mod paging;
mod refuting;
mod stacking;

pub use keeping::{take_over, turns_of};
pub use paging::{all_pages, page_told};
pub use refuting::refutation;
pub use stacking::stack_told;
