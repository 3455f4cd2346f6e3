//! The answer to `make`.
ghost use Rattle.std.specs.Prelude.{◌≡◌, ◌<◌, ◌≤◌, IfOk, None};
ghost use Rattle.ff_report.specs.Refusals.{refusal_line};
ghost use Rattle.ff_made.specs.Answers.{AnswersCount};

use crate::making::{made_problem, made_summary};
use ff_report::{Last, refusal_text};
use ff_tables::{NoMemory, Text};
use ff_types::{No, Refusal};
use std::alloc::Global;

/// How the summary ends, `None` where the pattern is refused; and the text that is written: the summary, or the line of the refusal.
#[derive(Drop)]
pub struct Answer {
    pub last: Option<Last>,
    pub text: Text,
}

// The answer where the pattern is refused.
fn refuse(alloc: Global, refusal: Refusal) -> Result<Answer, NoMemory>
    ensures { IfOk result (λ a. (a.last ≡ None) × (a.text ≡ refusal_line refusal)) }
{
    Ok(Answer {
        last: None,
        text: refusal_text(alloc, &refusal)?,
    })
}

/// The answer to `make COUNT` within a budget of turns for each part: the accordion of `count` panels is made and solved, and its
/// numbers are told. Nothing of a pattern that is refused is kept; too many constraints are seen before they are listed past the limit.
pub fn answer_of(alloc: Global, count: u32, budget: u64) -> Result<Answer, NoMemory>
    requires { (0 < count) × (count ≤ 400) }
    ensures { IfOk result (λ a. AnswersCount count budget a.last a.text) }
{
    match made_problem(alloc, count) {
        Ok(problem) => {
            let summary = made_summary(alloc, count, &problem, budget)?;
            Ok(Answer {
                last: Some(summary.last),
                text: summary.text,
            })
        },
        Err(No::Refused(refusal)) => refuse(alloc, refusal),
        Err(No::NoMemory) => Err(NoMemory),
    }
}
