//! The answer to `lines`.
ghost use Rattle.std.specs.Prelude.{◌≤◌, IfOk, length};
ghost use Rattle.ff_types.specs.declared.limits.TheConstants.{MOST_BYTES as most_bytes};
ghost use Rattle.ff_top.specs.Drawing.{AnswersDrawing};
ghost use Rattle.ff_top.specs.Writings.{text_of};

use crate::checking::status_where;
use crate::outcome::Outcome;
use crate::writing::Writing;
use ff_cut::answer_of;
use ff_tables::NoMemory;
use std::alloc::Global;

// The answer to `lines` on these bytes.
pub(crate) fn draw(alloc: Global, bytes: &[u8]) -> Result<Outcome, NoMemory>
    requires { length bytes.now ≤ most_bytes }
    ensures { IfOk result (λ o. AnswersDrawing bytes.now o.status (text_of o.writing)) }
{
    let answer = answer_of(alloc, bytes)?;
    Ok(Outcome {
        status: status_where(answer.drawn),
        writing: Writing::Line(answer.text),
    })
}
