//! What `lines` answers: the text of the drawing of lines.
#![tactic(auto)]

mod answers;
mod drawn;
mod laws;

pub use answers::{Answer, answer_of};
pub use laws::{drawing_is_one, lines_are_one, one_drawing, some_drawing};
