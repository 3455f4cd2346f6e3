//! What `check` answers: from bytes to a folded crease pattern, pins and a log, and whether the log is accepted.
#![tactic(auto)]

mod answers;
mod judging;
mod laws;
mod sheets;
mod texts;

pub use answers::{Answer, answer_of};
pub use judging::{Judgement, MOST_CHECK_BYTES, judged};
pub use laws::{one_judgement, some_judgement};
pub use texts::{bad_line_text, check_text};
