//! What a run answers.
ghost use Rattle.std.specs.Prelude.{◌≡◌, IfOk};
ghost use Rattle.ff_report.specs.Refusals.{refusal_line};
ghost use Rattle.ff_top.specs.Answer.{AnswersUsage};
ghost use Rattle.ff_top.specs.Writings.{text_of};

use crate::status::Status;
use crate::texts::usage_text;
use crate::writing::Writing;
use ff_report::refusal_text;
use ff_tables::NoMemory;
use ff_types::Refusal;
use std::alloc::Global;

// What is to be written, and the status then.
#[derive(Drop)]
pub(crate) struct Outcome {
    pub(crate) status: Status,
    pub(crate) writing: Writing,
}

pub(crate) fn refuse(alloc: Global, refusal: Refusal) -> Result<Outcome, NoMemory>
    ensures { IfOk result (λ o. (o.status ≡ Status.Refused) × (text_of o.writing ≡ refusal_line refusal)) }
{
    Ok(Outcome {
        status: Status::Refused,
        writing: Writing::Line(refusal_text(alloc, &refusal)?),
    })
}

// The answer to words that nothing is done for.
pub(crate) fn usage(alloc: Global) -> Result<Outcome, NoMemory>
    ensures { IfOk result (λ o. AnswersUsage o.status (text_of o.writing)) }
{
    Ok(Outcome {
        status: Status::Usage,
        writing: Writing::Line(usage_text(alloc)?),
    })
}
