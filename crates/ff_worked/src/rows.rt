//! The rows.
use std::alloc::{AllocError, Global};

/// What is done with the input.
#[derive(Clone, Copy, Debug, PartialEq, Eq)]
pub enum Kind {
    /// The top call, with the row's words.
    Run,
    /// The same, on the input and as many spaces as make this many bytes.
    Padded(usize),
    /// The top call on each proper front of the input; the text is that of the first front that is answered otherwise than
    /// `wanted`, or `wanted`.
    Fronts,
    /// The top call with a source whose first call fails.
    ReadFault,
    /// The top call with a sink that takes ten bytes a call, fails in this call, and has room for as many bytes.
    WriteFault(u64, usize),
    /// The calls from the pattern to its case.
    Stages,
    /// The top call; the row has the input and the refusal's line themselves in place of files' names.
    Refused,
}

/// A row.
#[derive(Drop)]
pub struct Row {
    pub kind: Kind,
    /// The files' names without their ends.
    pub wanted: String,
    pub input: String,
    pub words: Vec<String>,
}

fn number(text: Option<&&str>) -> usize {
    match text {
        Some(text) => (*text).parse::<usize>().unwrap_or(0),
        None => 0,
    }
}

// The kind of this name, and at which field the words begin, behind the kind's numbers.
fn kind_of(fields: &[&str]) -> Option<(Kind, usize)> {
    let name = *fields.first()?;
    match name {
        "run" => Some((Kind::Run, 3)),
        "padded" => Some((Kind::Padded(number(fields.get(3))), 4)),
        "fronts" => Some((Kind::Fronts, 3)),
        "read-fault" => Some((Kind::ReadFault, 3)),
        "write-fault" => {
            let failing = number(fields.get(3)) as u64;
            Some((Kind::WriteFault(failing, number(fields.get(4))), 5))
        }
        "stages" => Some((Kind::Stages, 3)),
        "refused" => Some((Kind::Refused, 3)),
        _ => None,
    }
}

fn words_of(alloc: Global, words: &[&str]) -> Result<Vec<String>, AllocError> {
    let mut list = Vec::new(alloc);
    for word in words {
        list.push(String::from_str(alloc, *word)?)?;
    }
    Ok(list)
}

/// The row of a line: its kind, the file with the wanted text, the file with the input, the kind's numbers, and the words
/// of the command line, each parted from the next by a tab. None where it is of no such form, as a comment.
pub fn row_of(alloc: Global, line: &str) -> Result<Option<Row>, AllocError> {
    let fields: Vec<&str> = line.split('\t').collect(alloc)?;
    let Some((kind, first)) = kind_of(fields.as_slice()) else {
        return Ok(None);
    };
    let (Some(wanted), Some(input)) = (fields.get(1), fields.get(2)) else {
        return Ok(None);
    };
    let words = fields.as_slice().get(first..).unwrap_or(&[]);
    Ok(Some(Row {
        kind,
        wanted: String::from_str(alloc, *wanted)?,
        input: String::from_str(alloc, *input)?,
        words: words_of(alloc, words)?,
    }))
}
