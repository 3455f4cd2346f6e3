//! The answer to `check`.
ghost use Rattle.std.specs.Prelude.{◌≡◌, ◌≤◌, IfOk, length, false, true};
ghost use Rattle.ff_report.specs.Refusals.{refusal_line};
ghost use Rattle.ff_judged.specs.Answers.{AnswersLog};

use crate::judging::{MOST_CHECK_BYTES, judged};
use crate::texts::judgement_text;
use ff_report::refusal_text;
use ff_tables::{NoMemory, Text};
use ff_types::{No, Refusal};
use std::alloc::Global;

/// Whether the log is accepted, and the one line that is written.
#[derive(Drop)]
pub struct Answer {
    pub accepted: bool,
    pub text: Text,
}

// The answer to an input that is refused.
fn refuse(alloc: Global, refusal: Refusal) -> Result<Answer, NoMemory>
    ensures { IfOk result (λ a. (a.accepted ≡ false) × (a.text ≡ refusal_line refusal)) }
{
    Ok(Answer {
        accepted: false,
        text: refusal_text(alloc, &refusal)?,
    })
}

/// The answer to `check` on these bytes.
pub fn answer_of(alloc: Global, bytes: &[u8]) -> Result<Answer, NoMemory>
    requires { length bytes.now ≤ MOST_CHECK_BYTES }
    ensures { IfOk result (λ a. AnswersLog bytes.now a.accepted a.text) }
{
    match judged(alloc, bytes) {
        Ok(judgement) => Ok(Answer {
            accepted: judgement.is_accepted(),
            text: judgement_text(alloc, judgement)?,
        }),
        Err(No::Refused(refusal)) => refuse(alloc, refusal),
        Err(No::NoMemory) => Err(NoMemory),
    }
}
