//! Lines as they are read, and the text of a crease pattern.
#![tactic(auto)]

mod reading;
mod texts;

pub use reading::read_lines;
pub use texts::pattern_text;
