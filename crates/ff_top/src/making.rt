//! The answer to `make`.
ghost use Rattle.std.specs.Prelude.{◌≡◌, ◌<◌, ◌≤◌, IfOk};
ghost use Rattle.ff_top.specs.Making.{AnswersMake, status_made};
ghost use Rattle.ff_top.specs.Writings.{text_of};

use crate::outcome::Outcome;
use crate::solving::status_at;
use crate::status::Status;
use crate::writing::Writing;
use ff_made::answer_of;
use ff_report::Last;
use ff_tables::NoMemory;
use std::alloc::Global;

// How a summary ends, or that there is none, as a status.
fn status_after(last: Option<Last>) -> Status
    ensures { result ≡ status_made last }
{
    match last {
        Some(last) => status_at(last),
        None => Status::Refused,
    }
}

// The answer to `make`.
pub(crate) fn make(alloc: Global, count: u32, budget: u64) -> Result<Outcome, NoMemory>
    requires { (0 < count) × (count ≤ 400) }
    ensures { IfOk result (λ o. AnswersMake count budget o.status (text_of o.writing)) }
{
    let answer = answer_of(alloc, count, budget)?;
    Ok(Outcome {
        status: status_after(answer.last),
        writing: Writing::Line(answer.text),
    })
}
