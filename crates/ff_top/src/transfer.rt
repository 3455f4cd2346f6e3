//! A source read to its end, and a text written to a sink.
ghost use Rattle.std.specs.Prelude.{◌≡◌, ℕ, ◌<◌, ◌≤◌, ◌^◌, List, IfOk, IsErrOf, OnOk, OnErr};
ghost use Rattle.ff_outside.specs.Streams.{Rose};
ghost use Rattle.ff_top.specs.Transfer.{Tells, IsReadOff, IsInput, Got, GotPart};

use ff_outside::{Sink, SinkFailed, Source};
use ff_tables::NoMemory;
use std::alloc::Global;
use thiserror::Error;

// How many bytes a call of the source may give at most.
const BLOCK: usize = 1 << 14;

/// What was read.
#[derive(Drop)]
pub enum Input {
    /// All that came.
    Whole(Vec<u8>),
    /// More came than the limit.
    Beyond,
}

/// Why nothing was read.
#[derive(Clone, Copy, Debug, PartialEq, Eq, Error)]
pub enum ReadNo {
    #[error("the input can't be read")]
    Failed,
    #[error("out of memory")]
    NoMemory,
}

impl From<NoMemory> for ReadNo {
    ghost use Rattle.std.specs.Prelude.{◌≡◌};
    ghost use Rattle.ff_top.specs.declared.transfer.ReadNo.TheVariants.{NoMemory as out_of_memory};

    ghost from_gives = { λ _ e. e ≡ out_of_memory };

    fn from(_refused: NoMemory) -> Self {
        ReadNo::NoMemory
    }
}

/// Reads a source to its end, or to one byte past the limit. Each turn takes at least one byte. After an error what has
/// been read stays read.
pub fn read_all<S: Source>(alloc: Global, source: &mut S, limit: usize) -> Result<Input, ReadNo>
    requires { limit < 2 ^ 32 }
    ensures input { IfOk result (λ read. (input : List ℕ) × Tells (S.left source.old) input × IsInput limit input read) }
    ensures read_off { OnOk result (IsReadOff limit (S.left source.old) (S.left source.new)) }
    ensures cause { IsErrOf result ReadNo.Failed → Rose (S.faults source.old) (S.faults source.new) (S.at_last source.new) }
    ensures later { S.faults source.old ≤ S.faults source.new }
{
    let mut bytes = Vec::new(alloc);
    let mut block = [0u8; BLOCK];
    while bytes.len() <= limit {
        let room = BLOCK.min(limit + 1 - bytes.len());
        let Ok(n) = source.take(&mut block[..room]) else {
            return Err(ReadNo::Failed);
        };
        if n == 0 {
            return Ok(Input::Whole(bytes));
        }
        let Ok(()) = bytes.extend_from_slice(&block[..n]) else {
            return Err(ReadNo::NoMemory);
        };
    }
    Ok(Input::Beyond)
}

/// Writes all of the bytes to a sink, piece by piece.
pub fn write_all<K: Sink>(sink: &mut K, bytes: &[u8]) -> Result<(), SinkFailed>
    ensures ok { OnOk result (Got (K.held sink.old) bytes.now (K.held sink.new)) }
    ensures part { OnErr result (GotPart (K.held sink.old) bytes.now (K.held sink.new)) }
    ensures cause { OnErr result (Rose (K.faults sink.old) (K.faults sink.new) (K.at_last sink.new)) }
    ensures later { K.faults sink.old ≤ K.faults sink.new }
{
    let mut at = 0;
    while at < bytes.len() {
        at += sink.put(&bytes[at..])?;
    }
    Ok(())
}
