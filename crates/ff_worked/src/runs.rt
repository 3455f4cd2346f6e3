//! Runs of the top call.
ghost use Rattle.std.specs.Prelude.{◌≤◌};

use crate::rows::{Kind, Row};
use crate::stages::stages;
use ff_outside::{MemSink, MemSource, NoGate, SteadySource};
use ff_top::status::Status;
use ff_top::top;
use std::alloc::{AllocError, Global};
use std::sync::Wait;
use std::thread::Threads;

// The room for an answer.
const ROOM: usize = 1 << 22;

// Longer inputs are read without short reads.
const SHORT: usize = 2000;

// The status and the text.
fn answer_text(alloc: Global, status: Status, bytes: &[u8]) -> Result<String, AllocError> {
    let text = String::from_utf8_lossy(alloc, bytes)?;
    format!(in alloc; "status {}\n{text}", status.number())
}

// An empty sink.
fn sink_of(
    alloc: Global,
    room: usize,
    most: usize,
    failing: Vec<u64>,
) -> Result<MemSink, AllocError>
    requires { 1 ≤ most }
{
    match MemSink::new(alloc, room, most, failing) {
        Ok(sink) => Ok(sink),
        Err(_) => Err(AllocError),
    }
}

// With a source and a sink that take their time.
fn slowly<R: Threads + Wait + Sync>(
    rt: &R,
    alloc: Global,
    words: &[String],
    input: &str,
) -> Result<String, AllocError> {
    let bytes = Vec::from_slice(alloc, input.as_bytes())?;
    let mut source = MemSource::new(bytes, 7, Vec::new(alloc));
    let mut sink = sink_of(alloc, ROOM, 10, Vec::new(alloc))?;
    let status = top::run(rt, alloc, words, &mut source, &mut sink, &NoGate);
    answer_text(alloc, status, sink.bytes())
}

fn steadily<R: Threads + Wait + Sync>(
    rt: &R,
    alloc: Global,
    words: &[String],
    bytes: Vec<u8>,
) -> Result<String, AllocError> {
    let mut source = SteadySource::new(bytes);
    let mut sink = sink_of(alloc, ROOM, ROOM, Vec::new(alloc))?;
    let status = top::run(rt, alloc, words, &mut source, &mut sink, &NoGate);
    answer_text(alloc, status, sink.bytes())
}

fn run<R: Threads + Wait + Sync>(
    rt: &R,
    alloc: Global,
    words: &[String],
    input: &str,
) -> Result<String, AllocError> {
    if input.len() < SHORT {
        return slowly(rt, alloc, words, input);
    }
    steadily(rt, alloc, words, Vec::from_slice(alloc, input.as_bytes())?)
}

fn padded<R: Threads + Wait + Sync>(
    rt: &R,
    alloc: Global,
    words: &[String],
    input: &str,
    length: usize,
) -> Result<String, AllocError> {
    let mut bytes = Vec::from_slice(alloc, input.as_bytes())?;
    bytes.resize(length, b' ')?;
    steadily(rt, alloc, words, bytes)
}

fn fronts<R: Threads + Wait + Sync>(
    rt: &R,
    alloc: Global,
    words: &[String],
    input: &str,
    wanted: &str,
) -> Result<String, AllocError> {
    for length in 0..input.len() {
        let front = Vec::from_slice(alloc, &input.as_bytes()[..length])?;
        let text = steadily(rt, alloc, words, front)?;
        if text.as_str() != wanted {
            return Ok(text);
        }
    }
    String::from_str(alloc, wanted)
}

fn read_fault<R: Threads + Wait + Sync>(
    rt: &R,
    alloc: Global,
    words: &[String],
    input: &str,
) -> Result<String, AllocError> {
    let bytes = Vec::from_slice(alloc, input.as_bytes())?;
    let mut source = MemSource::new(bytes, 7, Vec::from_slice(alloc, &[0u64])?);
    let mut sink = sink_of(alloc, ROOM, 10, Vec::new(alloc))?;
    let status = top::run(rt, alloc, words, &mut source, &mut sink, &NoGate);
    answer_text(alloc, status, sink.bytes())
}

fn write_fault<R: Threads + Wait + Sync>(
    rt: &R,
    alloc: Global,
    words: &[String],
    input: &str,
    failing: u64,
    room: usize,
) -> Result<String, AllocError> {
    let mut source = SteadySource::new(Vec::from_slice(alloc, input.as_bytes())?);
    let mut sink = sink_of(alloc, room, 10, Vec::from_slice(alloc, &[failing])?)?;
    let status = top::run(rt, alloc, words, &mut source, &mut sink, &NoGate);
    answer_text(alloc, status, sink.bytes())
}

/// What the row's call answers to the input.
pub fn answer<R: Threads + Wait + Sync>(
    rt: &R,
    alloc: Global,
    row: &Row,
    input: &str,
    wanted: &str,
) -> Result<String, AllocError> {
    let words = row.words.as_slice();
    match row.kind {
        Kind::Run | Kind::Refused => run(rt, alloc, words, input),
        Kind::Padded(length) => padded(rt, alloc, words, input, length),
        Kind::Fronts => fronts(rt, alloc, words, input, wanted),
        Kind::ReadFault => read_fault(rt, alloc, words, input),
        Kind::WriteFault(failing, room) => write_fault(rt, alloc, words, input, failing, room),
        Kind::Stages => stages(alloc, input),
    }
}
