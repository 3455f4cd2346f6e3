//! The answer to `bench`.
ghost use Rattle.std.specs.Prelude.{◌≡◌, ◌≤◌, IfOk, length};
ghost use Rattle.ff_types.specs.declared.limits.TheConstants.{MOST_BYTES as most_bytes};
ghost use Rattle.ff_transcript.specs.Entries.{transcript};
ghost use Rattle.ff_top.specs.Asking.{AreWithin};
ghost use Rattle.ff_top.specs.Benching.{AnswersBench};
ghost use Rattle.ff_top.specs.Writings.{text_of};

use crate::asking::Asked;
use crate::outcome::{Outcome, refuse};
use crate::status::Status;
use crate::writing::Writing;
use ff_journal::Entry;
use ff_outside::Gate;
use ff_session::session_of;
use ff_tables::{Items, NoMemory};
use ff_types::No;
use std::alloc::Global;
use std::sync::Wait;
use std::thread::Threads;

// The transcript of a journal.
fn transcribe(journal: Items<Entry>) -> Outcome
    ensures status { result.status ≡ Status.Done }
    ensures text { text_of result.writing ≡ transcript journal }
{
    Outcome {
        status: Status::Done,
        writing: Writing::Transcript(journal),
    }
}

// The answer to `bench` on these bytes.
pub(crate) fn bench<R: Threads + Wait + Sync, G: Gate + Sync>(
    rt: &R,
    alloc: Global,
    bytes: &[u8],
    asked: Asked,
    gate: &G,
) -> Result<Outcome, NoMemory>
    requires few { length bytes.now ≤ most_bytes }
    requires within { AreWithin asked }
    ensures { IfOk result (λ o. AnswersBench asked.budget bytes.now o.status (text_of o.writing)) }
{
    let Asked { budget, workers } = asked;
    match session_of(rt, alloc, bytes, budget, workers, gate) {
        Ok(journal) => Ok(transcribe(journal)),
        Err(No::Refused(refusal)) => refuse(alloc, refusal),
        Err(No::NoMemory) => Err(NoMemory),
    }
}
