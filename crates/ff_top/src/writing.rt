//! What a run writes, piece by piece.
ghost use Rattle.std.specs.Prelude.{◌≡◌, suc, ◌<◌, ◌≤◌, IfOk, IsErrOf, OnOk, OnErr, length, slice_get};
ghost use Rattle.ff_outside.specs.Streams.{Rose};
ghost use Rattle.ff_top.specs.Transfer.{Got, GotFront, GotPart};
ghost use Rattle.ff_top.specs.Writings.{lines_at, piece_count, piece_of, text_of};

use crate::transfer::write_all;
use ff_journal::Entry;
use ff_outside::Sink;
use ff_solve::Report;
use ff_tables::{Items, NoMemory, Text};
use ff_transcript::{end_text, entry_text};
use std::alloc::Global;
use thiserror::Error;

// One line, a report, or the transcript of a workbench's journal.
#[derive(Drop)]
pub(crate) enum Writing {
    Line(Text),
    Report(Report),
    Transcript(Items<Entry>),
}

/// Why a text wasn't written whole.
#[derive(Clone, Copy, Debug, PartialEq, Eq, Error)]
pub(crate) enum WriteNo {
    #[error("the output can't be written")]
    Failed,
    #[error("out of memory")]
    NoMemory,
}

impl From<NoMemory> for WriteNo {
    ghost use Rattle.std.specs.Prelude.{◌≡◌};
    ghost use Rattle.ff_top.specs.declared.writing.WriteNo.TheVariants.{NoMemory as out_of_memory};

    ghost from_gives = { λ _ e. e ≡ out_of_memory };

    fn from(_refused: NoMemory) -> Self {
        WriteNo::NoMemory
    }
}

fn transcript_pieces(journal: &[Entry]) -> usize
    ensures { result ≡ suc (length journal.now) }
{
    journal.len() + 1
}

// The lines of an entry, or the last line behind all of them.
fn transcript_piece(alloc: Global, journal: &[Entry], n: usize) -> Result<Text, NoMemory>
    ensures { IfOk result (λ text. text ≡ lines_at (slice_get journal.now n)) }
{
    match journal.get(n) {
        Some(entry) => entry_text(alloc, entry),
        None => end_text(alloc),
    }
}

fn pieces(writing: &Writing) -> usize
    ensures { result ≡ piece_count writing.now }
{
    match writing {
        Writing::Line(_) => 1,
        Writing::Report(report) => report.pieces(),
        Writing::Transcript(journal) => transcript_pieces(journal.as_slice()),
    }
}

fn piece(alloc: Global, writing: &Writing, n: usize) -> Result<Text, NoMemory>
    requires { n < piece_count writing.now }
    ensures { IfOk result (λ text. text ≡ piece_of writing.now n) }
{
    match writing {
        Writing::Line(text) => text.copy(alloc),
        Writing::Report(report) => report.piece(alloc, n),
        Writing::Transcript(journal) => transcript_piece(alloc, journal.as_slice(), n),
    }
}

// Writes the text of a run, a piece after the other. A piece that is written isn't kept.
pub(crate) fn write_pieces<K: Sink>(
    alloc: Global,
    sink: &mut K,
    writing: &Writing,
) -> Result<(), WriteNo>
    ensures ok { OnOk result (Got (K.held sink.old) (text_of writing.now) (K.held sink.new)) }
    ensures front { OnErr result (GotFront (K.held sink.old) (text_of writing.now) (K.held sink.new)) }
    ensures part { IsErrOf result WriteNo.Failed → GotPart (K.held sink.old) (text_of writing.now) (K.held sink.new) }
    ensures cause { IsErrOf result WriteNo.Failed → Rose (K.faults sink.old) (K.faults sink.new) (K.at_last sink.new) }
    ensures later { K.faults sink.old ≤ K.faults sink.new }
{
    for n in 0..pieces(writing) {
        let piece = piece(alloc, writing, n)?;
        let Ok(()) = write_all(sink, piece.as_str().as_bytes()) else {
            return Err(WriteNo::Failed);
        };
    }
    Ok(())
}
