//! A source and a sink that never fail.
ghost use Rattle.std.specs.Prelude.{◌≡◌, ◌<◌, ◌≤◌, length, min, Some, None, IfOk};
ghost use Rattle.ff_outside.specs.Streams.{Gives};

use crate::{Sink, SinkFailed, Source, SourceFailed};
use std::marker::Model;

/// Bytes in memory, which contracts see as those that are left. A call gives as many as the buffer has room for
/// or are left.
#[derive(Drop)]
pub struct SteadySource {
    bytes: Vec<u8>,
    at: usize,
}

impl Model for SteadySource {
    ghost use Rattle.std.specs.Prelude.{List, ℕ, ◌≤◌, drop, length};

    ghost Value = { List ℕ };

    ghost view = { λ s. drop s.at s.bytes.items };

    ghost invariant = { λ s. s.at ≤ length s.bytes.items };
}

impl SteadySource {
    /// A source of these bytes. It takes no memory.
    pub fn new(bytes: Vec<u8>) -> SteadySource
        ensures { result ≡ bytes.items }
    {
        SteadySource { bytes, at: 0 }
    }
}

impl Source for SteadySource {
    ghost left = { λ s. Some s };

    ghost faults = { λ _. 0 };

    ghost late = { λ s h. absurd h };

    fn take(&mut self, buf: &mut [u8]) -> Result<usize, SourceFailed>
        requires { 0 < length buf.old }
        ensures whole { result ≡ Ok (min (length self.old) (length buf.old)) }
        ensures within { IfOk result (λ n. n ≤ length buf.new) }
        ensures bytes { IfOk result (λ n. Gives self.old (Some self.new) buf.new n) }
    {
        let left = &self.bytes[self.at..];
        let n = left.len().min(buf.len());
        buf[..n].copy_from_slice(&left[..n]);
        self.at += n;
        Ok(n)
    }
}

/// It takes each piece whole and keeps no byte.
#[derive(Drop)]
pub struct SteadySink;

impl SteadySink {
    /// A sink that keeps nothing. It takes no memory.
    pub fn new() -> SteadySink {
        SteadySink
    }
}

impl Sink for SteadySink {
    ghost held = { λ _. None };

    ghost faults = { λ _. 0 };

    ghost late = { λ s h. absurd h };

    fn put(&mut self, piece: &[u8]) -> Result<usize, SinkFailed>
        requires { 0 < length piece.now }
        ensures whole { result ≡ Ok (length piece.now) }
        ensures within { IfOk result (λ n. (0 < n) × (n ≤ length piece.now)) }
    {
        Ok(piece.len())
    }
}
