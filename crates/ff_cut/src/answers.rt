//! The answer to `lines`.
ghost use Rattle.std.specs.Prelude.{◌≡◌, ◌≤◌, IfOk, false, length, true};
ghost use Rattle.ff_types.specs.declared.limits.TheConstants.{MOST_BYTES};
ghost use Rattle.ff_report.specs.Refusals.{refusal_line};
ghost use Rattle.ff_lined.specs.Texts.{IsTextOf};
ghost use Rattle.ff_cut.specs.Drawn.{DrawsLines};
ghost use Rattle.ff_cut.specs.Answers.{AnswersLines};

use crate::drawn::drawn;
use ff_lined::pattern_text;
use ff_report::refusal_text;
use ff_tables::{NoMemory, Text};
use ff_types::{No, Pattern, Refusal};
use std::alloc::Global;

/// Whether the lines are drawn, and the one line that is written: the crease pattern as a FOLD object, or that of the refusal.
#[derive(Drop)]
pub struct Answer {
    pub drawn: bool,
    pub text: Text,
}

// The answer to an input that is refused.
fn refuse(alloc: Global, refusal: Refusal) -> Result<Answer, NoMemory>
    ensures { IfOk result (λ a. (a.drawn ≡ false) × (a.text ≡ refusal_line refusal)) }
{
    Ok(Answer {
        drawn: false,
        text: refusal_text(alloc, &refusal)?,
    })
}

// The answer where the lines are drawn.
fn show(alloc: Global, bytes: &[u8], pattern: &Pattern) -> Result<Answer, NoMemory>
    requires { DrawsLines bytes.now pattern.now }
    ensures { IfOk result (λ a. (a.drawn ≡ true) × IsTextOf pattern.now a.text) }
{
    let _ = bytes;
    Ok(Answer {
        drawn: true,
        text: pattern_text(alloc, pattern)?,
    })
}

/// The answer to `lines` on these bytes, `{"lines": [[x1, y1, x2, y2, "M"], ..]}`: the text of the drawing of the lines, or why
/// there is none.
pub fn answer_of(alloc: Global, bytes: &[u8]) -> Result<Answer, NoMemory>
    requires { length bytes.now ≤ MOST_BYTES }
    ensures { IfOk result (λ a. AnswersLines bytes.now a.drawn a.text) }
{
    match drawn(alloc, bytes) {
        Ok(pattern) => show(alloc, bytes, &pattern),
        Err(No::Refused(refusal)) => refuse(alloc, refusal),
        Err(No::NoMemory) => Err(NoMemory),
    }
}
