//! Adapters for the readers and writers of the standard library, such as standard input and output.
ghost use Rattle.std.specs.Prelude.{◌≡◌, ◌<◌, ◌≤◌, ◌-◌, ◌^◌, length, None, IfOk, OnErr, is_ok};
ghost use Rattle.std.specs.Io.KnownBytes.{ReadConsumes, WriteAppends};
ghost use Rattle.ff_outside.specs.Streams.{Rose, counted, late-64};

use crate::{Sink, SinkFailed, Source, SourceFailed};
use std::io::{Read, Write};
use std::marker::Model;

/// A reader as a source, which contracts see as its count of faults and the bytes of the reader where it knows them. To
/// those above it tells no bytes: what standard input gives is trusted.
#[derive(Drop)]
pub struct StdSource<R: Read> {
    reader: R,
    faults: u64,
}

impl<R: Read> Model for StdSource<R> {
    ghost use Rattle.ff_outside.specs.Standard.{Counted};

    ghost Value = { Counted };

    ghost view = { λ s. record { faults = s.faults; bytes = R.remaining s.reader } };
}

impl<R: Read> StdSource<R> {
    /// A source over this reader. It takes no memory.
    pub fn new(reader: R) -> StdSource<R>
        ensures { result ≡ record { faults = 0; bytes = R.remaining reader } }
    {
        StdSource { reader, faults: 0 }
    }
}

impl<R: Read> Source for StdSource<R> {
    ghost left = { λ _. None };

    ghost faults = { λ s. s.faults };

    ghost at_last = { λ s. s.faults ≡ 2 ^ 64 - 1 };

    ghost late = { λ s. late-64 s.faults };

    fn take(&mut self, buf: &mut [u8]) -> Result<usize, SourceFailed>
        requires { 0 < length buf.old }
        ensures counts { self.new.faults ≡ counted self.old.faults (is_ok result) }
        ensures within { IfOk result (λ n. n ≤ length buf.new) }
        ensures cause { OnErr result (Rose self.old.faults self.new.faults (self.new.faults ≡ 2 ^ 64 - 1)) }
        ensures later { self.old.faults ≤ self.new.faults }
        ensures known { ReadConsumes self.old.bytes self.new.bytes result buf.new }
    {
        match self.reader.read(buf) {
            Ok(n) => Ok(n),
            Err(_) => {
                self.faults = self.faults.saturating_add(1);
                Err(SourceFailed)
            }
        }
    }
}

/// A writer as a sink, which contracts see as its count of faults and the bytes of the writer where it knows them. To
/// those above it tells no bytes: what standard output does with them is trusted. It takes no memory but the writer's own.
#[derive(Drop)]
pub struct StdSink<W: Write> {
    writer: W,
    faults: u64,
}

impl<W: Write> Model for StdSink<W> {
    ghost use Rattle.ff_outside.specs.Standard.{Counted};

    ghost Value = { Counted };

    ghost view = { λ s. record { faults = s.faults; bytes = W.contents s.writer } };
}

impl<W: Write> StdSink<W> {
    /// A sink over this writer. It takes no memory.
    pub fn new(writer: W) -> StdSink<W>
        ensures { result ≡ record { faults = 0; bytes = W.contents writer } }
    {
        StdSink { writer, faults: 0 }
    }
}

impl<W: Write> Sink for StdSink<W> {
    ghost held = { λ _. None };

    ghost faults = { λ s. s.faults };

    ghost at_last = { λ s. s.faults ≡ 2 ^ 64 - 1 };

    ghost late = { λ s. late-64 s.faults };

    fn put(&mut self, piece: &[u8]) -> Result<usize, SinkFailed>
        requires { 0 < length piece.now }
        ensures counts { self.new.faults ≡ counted self.old.faults (is_ok result) }
        ensures within { IfOk result (λ n. (0 < n) × (n ≤ length piece.now)) }
        ensures cause { OnErr result (Rose self.old.faults self.new.faults (self.new.faults ≡ 2 ^ 64 - 1)) }
        ensures later { self.old.faults ≤ self.new.faults }
        ensures known { WriteAppends self.old.bytes self.new.bytes result piece.now }
    {
        match self.writer.write(piece) {
            // A write that takes nothing is a fault.
            Ok(n) if 0 < n => Ok(n),
            _ => {
                self.faults = self.faults.saturating_add(1);
                Err(SinkFailed)
            }
        }
    }
}
