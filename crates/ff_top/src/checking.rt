//! The answer to `check`.
ghost use Rattle.std.specs.Prelude.{◌≡◌, ◌≤◌, IfOk, length};
ghost use Rattle.ff_judged.specs.declared.judging.TheConstants.{MOST_CHECK_BYTES as most_bytes};
ghost use Rattle.ff_top.specs.Checking.{AnswersCheck, status_if};
ghost use Rattle.ff_top.specs.Writings.{text_of};

use crate::outcome::Outcome;
use crate::status::Status;
use crate::writing::Writing;
use ff_judged::answer_of;
use ff_tables::NoMemory;
use std::alloc::Global;

// The status where a log is accepted, and where it isn't; and where lines are drawn, and where they aren't.
pub(crate) fn status_where(accepted: bool) -> Status
    ensures { result ≡ status_if accepted }
{
    if accepted {
        Status::Done
    } else {
        Status::Refused
    }
}

// The answer to `check` on these bytes.
pub(crate) fn check(alloc: Global, bytes: &[u8]) -> Result<Outcome, NoMemory>
    requires { length bytes.now ≤ most_bytes }
    ensures { IfOk result (λ o. AnswersCheck bytes.now o.status (text_of o.writing)) }
{
    let answer = answer_of(alloc, bytes)?;
    Ok(Outcome {
        status: status_where(answer.accepted),
        writing: Writing::Line(answer.text),
    })
}
