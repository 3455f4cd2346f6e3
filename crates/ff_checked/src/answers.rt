//! What is answered to an input of `check`.
ghost use Rattle.std.specs.Prelude.{◌≤◌, length};
ghost use Rattle.ff_judged.specs.declared.judging.TheConstants.{MOST_CHECK_BYTES as most_bytes};

use ff_judged::{MOST_CHECK_BYTES, answer_of};
use ff_log::{Log, LogNo, line_text, read_log};
use ff_read::read_check;
use ff_report::refusal_text;
use ff_tables::{NoMemory, Text};
use ff_types::{No, Refusal};
use std::alloc::{AllocError, Global};

// The first line that is written otherwise than the text that it was read from.
fn differing(alloc: Global, log: &Log, texts: &[Text]) -> Result<Option<usize>, NoMemory> {
    let lines = log.lines.as_slice();
    for i in 0..lines.len().min(texts.len()) {
        if line_text(alloc, &lines[i])?.as_str() != texts[i].as_str() {
            return Ok(Some(i));
        }
    }
    Ok(None)
}

// The first line of the input that is read, and written otherwise.
fn rewritten(alloc: Global, bytes: &[u8]) -> Result<Option<usize>, NoMemory>
    requires { length bytes.now ≤ most_bytes }
{
    let input = match read_check(alloc, bytes) {
        Ok(input) => input,
        Err(No::Refused(_)) => return Ok(None),
        Err(No::NoMemory) => return Err(NoMemory),
    };
    match read_log(alloc, &input.lines) {
        Ok(log) => differing(alloc, &log, input.lines.as_slice()),
        Err(LogNo::BadLog { .. }) => Ok(None),
        Err(LogNo::NoMemory) => Err(NoMemory),
    }
}

// The line that `check` answers with.
fn answered(alloc: Global, bytes: &[u8]) -> Result<Text, NoMemory> {
    if bytes.len() > MOST_CHECK_BYTES {
        return refusal_text(alloc, &Refusal::TooLong);
    }
    if let Some(line) = rewritten(alloc, bytes)? {
        return Ok(Text::of(format!(in alloc; "line {line} is written otherwise\n")?));
    }
    let answer = answer_of(alloc, bytes)?;
    Ok(answer.text)
}

/// What `check` answers to the input, without the line feed at its end; or that a line of its log is read, and written otherwise.
pub fn answer_to(alloc: Global, input: &str) -> Result<String, AllocError> {
    let Ok(text) = answered(alloc, input.as_bytes()) else {
        return Err(AllocError);
    };
    String::from_str(alloc, text.as_str().trim_end())
}
