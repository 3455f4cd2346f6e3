//! The top calls: words, a source and a sink to a status.
ghost use Rattle.std.specs.Prelude.{◌≡◌, ◌≤◌, ℕ, List, None, map, string_bytes};
ghost use Rattle.std.specs.Prelude.{IfOk, OnOk, OnErr, IsErrOf, IfSome};
ghost use Rattle.ff_outside.specs.Streams.{Rose};
ghost use Rattle.ff_top.specs.Transfer.{Tells, IsReadOff};
ghost use Rattle.ff_top.specs.Asking.{AreWithin, limit, limit_alone, most_read};
ghost use Rattle.ff_top.specs.Solving.{AnswersSolve};
ghost use Rattle.ff_top.specs.Checking.{AnswersCheck};
ghost use Rattle.ff_top.specs.Drawing.{AnswersDrawing};
ghost use Rattle.ff_top.specs.Counts.{HasCount};
ghost use Rattle.ff_top.specs.Benching.{AnswersBench};
ghost use Rattle.ff_top.specs.Writings.{text_of};
ghost use Rattle.ff_top.specs.Endings.{Ends};
ghost use Rattle.ff_top.specs.Answer.{AnswersTo, NoBench, IsAnswer, IsAnswerOfRun, IsRun, IsAnswered, IsComplete, OneAnswer, SomeAnswer};

use crate::asking::{Asked, asked_of, job_of};
use crate::benching::bench;
use crate::checking::check;
use crate::drawing::draw;
use crate::making::make;
use crate::outcome::{Outcome, refuse, usage};
use crate::solving::solve;
use crate::status::Status;
use crate::transfer::{Input, ReadNo, read_all};
use crate::writing::{WriteNo, write_pieces};
use ff_cut::{one_drawing, some_drawing};
use ff_judged::{MOST_CHECK_BYTES, one_judgement, some_judgement};
use ff_made::{one_summary, some_summary};
use ff_outside::{Gate, Sink, Source};
use ff_types::{MOST_BYTES, Refusal};
use ff_words::Job;
use std::alloc::Global;
use std::sync::Wait;
use std::thread::Threads;

// The answer to `solve` and what the source gives.
fn prepare_solve<S: Source>(alloc: Global, budget: u64, source: &mut S) -> Result<Outcome, ReadNo>
    ensures answer { IfOk result (λ o. (input : List ℕ) × Tells (S.left source.old) input × AnswersSolve budget input o.status (text_of o.writing)) }
    ensures read_off { OnOk result (IsReadOff MOST_BYTES (S.left source.old) (S.left source.new)) }
    ensures cause { IsErrOf result ReadNo.Failed → Rose (S.faults source.old) (S.faults source.new) (S.at_last source.new) }
    ensures later { S.faults source.old ≤ S.faults source.new }
{
    match read_all(alloc, source, MOST_BYTES)? {
        Input::Whole(bytes) => Ok(solve(alloc, &bytes, budget)?),
        Input::Beyond => Ok(refuse(alloc, Refusal::TooLong)?),
    }
}

// The answer to `check` and what the source gives.
fn prepare_check<S: Source>(alloc: Global, source: &mut S) -> Result<Outcome, ReadNo>
    ensures answer { IfOk result (λ o. (input : List ℕ) × Tells (S.left source.old) input × AnswersCheck input o.status (text_of o.writing)) }
    ensures read_off { OnOk result (IsReadOff MOST_CHECK_BYTES (S.left source.old) (S.left source.new)) }
    ensures cause { IsErrOf result ReadNo.Failed → Rose (S.faults source.old) (S.faults source.new) (S.at_last source.new) }
    ensures later { S.faults source.old ≤ S.faults source.new }
{
    match read_all(alloc, source, MOST_CHECK_BYTES)? {
        Input::Whole(bytes) => Ok(check(alloc, &bytes)?),
        Input::Beyond => Ok(refuse(alloc, Refusal::TooLong)?),
    }
}

// The answer to `lines` and what the source gives.
fn prepare_lines<S: Source>(alloc: Global, source: &mut S) -> Result<Outcome, ReadNo>
    ensures answer { IfOk result (λ o. (input : List ℕ) × Tells (S.left source.old) input × AnswersDrawing input o.status (text_of o.writing)) }
    ensures read_off { OnOk result (IsReadOff MOST_BYTES (S.left source.old) (S.left source.new)) }
    ensures cause { IsErrOf result ReadNo.Failed → Rose (S.faults source.old) (S.faults source.new) (S.at_last source.new) }
    ensures later { S.faults source.old ≤ S.faults source.new }
{
    match read_all(alloc, source, MOST_BYTES)? {
        Input::Whole(bytes) => Ok(draw(alloc, &bytes)?),
        Input::Beyond => Ok(refuse(alloc, Refusal::TooLong)?),
    }
}

// The answer to `bench` and what the source gives.
fn prepare_bench<R: Threads + Wait + Sync, S: Source, G: Gate + Sync>(
    rt: &R,
    alloc: Global,
    asked: Asked,
    source: &mut S,
    gate: &G,
) -> Result<Outcome, ReadNo>
    requires { AreWithin asked }
    ensures answer { IfOk result (λ o. (input : List ℕ) × Tells (S.left source.old) input × AnswersBench asked.budget input o.status (text_of o.writing)) }
    ensures read_off { OnOk result (IsReadOff MOST_BYTES (S.left source.old) (S.left source.new)) }
    ensures cause { IsErrOf result ReadNo.Failed → Rose (S.faults source.old) (S.faults source.new) (S.at_last source.new) }
    ensures later { S.faults source.old ≤ S.faults source.new }
{
    match read_all(alloc, source, MOST_BYTES)? {
        Input::Whole(bytes) => Ok(bench(rt, alloc, &bytes, asked, gate)?),
        Input::Beyond => Ok(refuse(alloc, Refusal::TooLong)?),
    }
}

// The answer to a job, or to no job, and what the source gives; a workbench isn't run.
fn prepare_job<S: Source>(
    alloc: Global,
    job: Option<Job>,
    source: &mut S,
) -> Result<Outcome, ReadNo>
    requires { HasCount job }
    ensures answer { IfOk result (λ o. (input : List ℕ) × Tells (S.left source.old) input × AnswersTo NoBench job input o.status (text_of o.writing)) }
    ensures unread { most_read None job ≡ None → source.new ≡ source.old }
    ensures read_off { OnOk result (IfSome (most_read None job) (λ most. IsReadOff most (S.left source.old) (S.left source.new))) }
    ensures cause { IsErrOf result ReadNo.Failed → Rose (S.faults source.old) (S.faults source.new) (S.at_last source.new) }
    ensures later { S.faults source.old ≤ S.faults source.new }
{
    let Some(named) = job else {
        return Ok(usage(alloc)?);
    };
    match named {
        Job::Solve { budget } => prepare_solve(alloc, budget, source),
        Job::Check => prepare_check(alloc, source),
        Job::Bench { .. } => Ok(usage(alloc)?),
        Job::Lines => prepare_lines(alloc, source),
        Job::Make { count, budget } => Ok(make(alloc, count, budget)?),
    }
}

// The answer to the words and what the source gives; a workbench isn't run.
fn prepare_alone<S: Source>(
    alloc: Global,
    words: &[String],
    source: &mut S,
) -> Result<Outcome, ReadNo>
    ensures answer { IfOk result (λ o. (input : List ℕ) × Tells (S.left source.old) input × IsAnswer (map string_bytes words.now) input o.status (text_of o.writing)) }
    ensures unread { limit_alone (map string_bytes words.now) ≡ None → source.new ≡ source.old }
    ensures read_off { OnOk result (IfSome (limit_alone (map string_bytes words.now)) (λ most. IsReadOff most (S.left source.old) (S.left source.new))) }
    ensures cause { IsErrOf result ReadNo.Failed → Rose (S.faults source.old) (S.faults source.new) (S.at_last source.new) }
    ensures later { S.faults source.old ≤ S.faults source.new }
{
    let job = job_of(alloc, words)?;
    prepare_job(alloc, job, source)
}

// The answer to the words and what the source gives.
fn prepare<R: Threads + Wait + Sync, S: Source, G: Gate + Sync>(
    rt: &R,
    alloc: Global,
    words: &[String],
    source: &mut S,
    gate: &G,
) -> Result<Outcome, ReadNo>
    ensures answer { IfOk result (λ o. (input : List ℕ) × Tells (S.left source.old) input × IsAnswerOfRun (map string_bytes words.now) input o.status (text_of o.writing)) }
    ensures unread { limit (map string_bytes words.now) ≡ None → source.new ≡ source.old }
    ensures read_off { OnOk result (IfSome (limit (map string_bytes words.now)) (λ most. IsReadOff most (S.left source.old) (S.left source.new))) }
    ensures cause { IsErrOf result ReadNo.Failed → Rose (S.faults source.old) (S.faults source.new) (S.at_last source.new) }
    ensures later { S.faults source.old ≤ S.faults source.new }
{
    let job = job_of(alloc, words)?;
    match asked_of(job) {
        Some(asked) => prepare_bench(rt, alloc, asked, source, gate),
        None => prepare_job(alloc, job, source),
    }
}

// Writes what was prepared, or nothing.
fn finish<K: Sink>(alloc: Global, prepared: Result<Outcome, ReadNo>, sink: &mut K) -> Status
    ensures ends { Ends prepared (K.held sink.old) (K.held sink.new) (Rose (K.faults sink.old) (K.faults sink.new) (K.at_last sink.new)) result }
    ensures untouched { OnErr prepared (sink.new ≡ sink.old) }
    ensures later { K.faults sink.old ≤ K.faults sink.new }
{
    let outcome = match prepared {
        Ok(outcome) => outcome,
        Err(ReadNo::Failed) => return Status::ReadFault,
        Err(ReadNo::NoMemory) => return Status::NoMemory,
    };
    match write_pieces(alloc, sink, &outcome.writing) {
        Ok(()) => outcome.status,
        Err(WriteNo::Failed) => Status::WriteFault,
        Err(WriteNo::NoMemory) => Status::NoMemory,
    }
}

/// Does what the words say with the source's bytes, and writes the defined text to the sink; a workbench isn't run. `words` are those
/// after the program's name. It waits for nobody and returns.
///
/// The words are read first, then the source is read to its end or to one byte past the limit, then the text is
/// written, part by part. A fault ends the run, and so does want of memory: what has been read stays read then, and what has been
/// written stays written.
pub fn run_alone<S: Source, K: Sink>(
    alloc: Global,
    words: &[String],
    source: &mut S,
    sink: &mut K,
) -> Status
    // Each status but a fault and want of memory is that of an answer, whose text is written whole. At a write fault a
    // part of such a text is written, and whatever the status, nothing or a front of one.
    ensures run { IsRun (IsAnswer (map string_bytes words.now)) (S.left source.old) (K.held sink.old) (K.held sink.new) result }
    // Where no fault is counted, the run ends with an answer, whose text is written, or else memory was refused.
    ensures complete { let no_read_fault = Rose (S.faults source.old) (S.faults source.new) (S.at_last source.new) → ⊥ in
        let no_write_fault = Rose (K.faults sink.old) (K.faults sink.new) (K.at_last sink.new) → ⊥ in
        IsComplete (IsAnswer (map string_bytes words.now)) (S.left source.old) (K.held sink.old) (K.held sink.new)
        (no_read_fault × no_write_fault) result }

    // The source is read only where the words ask for it, and then whole before anything is answered or written.
    ensures unread { limit_alone (map string_bytes words.now) ≡ None → source.new ≡ source.old }
    ensures read_off { IsAnswered result → IfSome (limit_alone (map string_bytes words.now)) (λ most. IsReadOff most (S.left source.old) (S.left source.new)) }
    ensures read_first { (sink.new ≡ sink.old → ⊥)
        → IfSome (limit_alone (map string_bytes words.now)) (λ most. IsReadOff most (S.left source.old) (S.left source.new)) }

    // A fault comes only where one was counted.
    ensures read_fault { result ≡ Status.ReadFault → Rose (S.faults source.old) (S.faults source.new) (S.at_last source.new) }
    ensures nothing_written { result ≡ Status.ReadFault → sink.new ≡ sink.old }
    ensures write_fault { result ≡ Status.WriteFault → Rose (K.faults sink.old) (K.faults sink.new) (K.at_last sink.new) }
    ensures source_later { S.faults source.old ≤ S.faults source.new }
    ensures sink_later { K.faults sink.old ≤ K.faults sink.new }
{
    let prepared = prepare_alone(alloc, words, source);
    finish(alloc, prepared, sink)
}

/// Does what the words say with the source's bytes, and writes the defined text to the sink: what `run_alone` does, and for `bench` the
/// workbench, whose viewers and workers each run in a thread of their own, where one can be made. The gate is passed before each turn of a
/// worker, after each reply to a viewer, and before each constraint that is examined. For `bench` it may wait; if it returns, all of this
/// holds, in whatever order the threads came.
///
/// The words are read first, then the source is read to its end or to one byte past the limit, then the text is
/// written, part by part: for `bench` once all viewers and workers have returned, an entry of the journal after the other. A fault ends the
/// run, and so does want of memory: what has been read stays read then, and what has been written stays written.
pub fn run<R: Threads + Wait + Sync, S: Source, K: Sink, G: Gate + Sync>(
    rt: &R,
    alloc: Global,
    words: &[String],
    source: &mut S,
    sink: &mut K,
    gate: &G,
) -> Status
    // Each status but a fault and want of memory is that of an answer, whose text is written whole. At a write fault a
    // part of such a text is written, and whatever the status, nothing or a front of one. For `bench` with the status Done the text is the
    // transcript of a journal that is legal for the scripts and complete: what it publishes is right.
    ensures run { IsRun (IsAnswerOfRun (map string_bytes words.now)) (S.left source.old) (K.held sink.old) (K.held sink.new) result }
    // Where no fault is counted, the run ends with an answer, whose text is written, or else memory was refused.
    ensures complete { let no_read_fault = Rose (S.faults source.old) (S.faults source.new) (S.at_last source.new) → ⊥ in
        let no_write_fault = Rose (K.faults sink.old) (K.faults sink.new) (K.at_last sink.new) → ⊥ in
        IsComplete (IsAnswerOfRun (map string_bytes words.now)) (S.left source.old) (K.held sink.old) (K.held sink.new)
        (no_read_fault × no_write_fault) result }

    // The source is read only where the words ask for it, and then whole before anything is answered or written.
    ensures unread { limit (map string_bytes words.now) ≡ None → source.new ≡ source.old }
    ensures read_off { IsAnswered result → IfSome (limit (map string_bytes words.now)) (λ most. IsReadOff most (S.left source.old) (S.left source.new)) }
    ensures read_first { (sink.new ≡ sink.old → ⊥)
        → IfSome (limit (map string_bytes words.now)) (λ most. IsReadOff most (S.left source.old) (S.left source.new)) }

    // A fault comes only where one was counted.
    ensures read_fault { result ≡ Status.ReadFault → Rose (S.faults source.old) (S.faults source.new) (S.at_last source.new) }
    ensures nothing_written { result ≡ Status.ReadFault → sink.new ≡ sink.old }
    ensures write_fault { result ≡ Status.WriteFault → Rose (K.faults sink.old) (K.faults sink.new) (K.at_last sink.new) }
    ensures source_later { S.faults source.old ≤ S.faults source.new }
    ensures sink_later { K.faults sink.old ≤ K.faults sink.new }
{
    let prepared = prepare(rt, alloc, words, source, gate);
    finish(alloc, prepared, sink)
}

/// A law: two answers to the words and an input have one status, and texts that are alike but for logs, and the same where no log
/// stands in them. So each status of `run_alone` comes exactly where its row of `IsAnswer` holds.
pub fn one_answer()
    ensures { OneAnswer }
{
    one_judgement();
    one_drawing();
    one_summary();
}

/// A law: no words and no input are without an answer.
pub fn some_answer()
    ensures { SomeAnswer }
{
    some_judgement();
    some_drawing();
    some_summary();
}
