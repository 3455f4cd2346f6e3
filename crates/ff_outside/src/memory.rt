//! A source and a sink in memory that fail at chosen calls.
ghost use Rattle.std.specs.Prelude.{◌≡◌, ◌<◌, ◌≤◌, ◌++◌, ◌-◌, ◌^◌, [], take, length, Some, IfOk, OnErr};
ghost use Rattle.ff_outside.specs.Streams.{Rose, Gives, late-128};
ghost use Rattle.ff_outside.specs.Memory.{SourceState, SinkState, fails_next, given, taken, after_take, after_put};
ghost use Rattle.std.specs.Result.{result_ok};

use crate::{Sink, SinkFailed, Source, SourceFailed};
use ff_tables::NoMemory;
use std::alloc::Global;
use std::marker::Model;

// The number of a call that comes after 2^64 others. No list of `u64` names it, so calls are counted up to it.
const PAST: u128 = 1 << 64;

/// Bytes in memory, of which a call gives at most `most`. Exactly the calls whose numbers are in `failing` fail.
/// Calls are counted from 0.
#[derive(Drop)]
pub struct MemSource {
    bytes: Vec<u8>,
    at: usize,
    most: usize,
    failing: Vec<u64>,
    calls: u128,
    faults: u128,
}

impl Model for MemSource {
    ghost use Rattle.std.specs.Prelude.{List, ℕ, ◌≤◌, ◌^◌, drop, length};
    ghost use Rattle.ff_outside.specs.Memory.{SourceState};

    ghost Value = { SourceState };

    ghost view = { λ s. record {
      left = drop s.at s.bytes.items;
      most = s.most;
      failing = s.failing.items;
      calls = s.calls;
      faults = s.faults;
    } };

    ghost invariant = { λ s. (s.at ≤ length s.bytes.items) × (1 ≤ s.most) × (s.faults ≤ s.calls) × (s.calls ≤ 2 ^ 64) };
}

impl MemSource {
    /// A source of these bytes. It takes no memory.
    pub fn new(bytes: Vec<u8>, most: usize, failing: Vec<u64>) -> MemSource
        requires { 1 ≤ most }
        ensures { result ≡ record { left = bytes.items; most = most; failing = failing.items; calls = 0; faults = 0 } }
    {
        MemSource {
            bytes,
            at: 0,
            most,
            failing,
            calls: 0,
            faults: 0,
        }
    }
}

// Whether the call after this many fails.
fn fails_at(failing: &[u64], calls: u128) -> bool
    ensures { result ≡ fails_next failing.now calls }
{
    calls < PAST && failing.contains(&(calls as u64))
}

impl Source for MemSource {
    ghost left = { λ s. Some s.left };

    ghost faults = { λ s. s.faults };

    ghost late = { λ s h. absurd h };

    fn take(&mut self, buf: &mut [u8]) -> Result<usize, SourceFailed>
        requires { 0 < length buf.old }
        ensures within { IfOk result (λ n. n ≤ length buf.new) }
        ensures bytes { IfOk result (λ n. Gives self.old.left (Some self.new.left) buf.new n) }
        ensures cause { OnErr result (self.old.faults < self.new.faults) }
        ensures kept { OnErr result (self.new.left ≡ self.old.left) }
        ensures later { self.old.faults ≤ self.new.faults }
        ensures exact { result_ok result ≡ given self.old (length buf.old) }
        ensures after { self.new ≡ after_take self.old (result_ok result) }
    {
        let number = self.calls;
        let fails = fails_at(&self.failing, number);
        if number < PAST {
            self.calls += 1;
        }
        if fails {
            self.faults += 1;
            return Err(SourceFailed);
        }
        let left = &self.bytes[self.at..];
        let n = left.len().min(self.most).min(buf.len());
        buf[..n].copy_from_slice(&left[..n]);
        self.at += n;
        Ok(n)
    }
}

/// A sink in memory. A call takes at most `most` bytes and at most the room that is left. It fails exactly where its
/// number is in `failing` or no room is left. Calls are counted from 0.
#[derive(Drop)]
pub struct MemSink {
    bytes: Vec<u8>,
    room: usize,
    most: usize,
    failing: Vec<u64>,
    calls: u128,
    faults: u128,
}

impl Model for MemSink {
    ghost use Rattle.std.specs.Prelude.{ℕ, ◌≡◌, ◌+◌, ◌≤◌, ◌^◌, length, vec_capacity};
    ghost use Rattle.ff_outside.specs.Memory.{SinkState};

    ghost Value = { SinkState };

    ghost view = { λ s. record {
      held = s.bytes.items;
      room = s.room;
      most = s.most;
      failing = s.failing.items;
      calls = s.calls;
      faults = s.faults;
    } };

    ghost invariant = { λ s. (length s.bytes.items + s.room ≤ vec_capacity s.bytes) × (1 ≤ s.most) × (s.calls ≤ 2 ^ 64) };
}

impl MemSink {
    /// An empty sink with room for this many bytes, whose memory it takes at once.
    pub fn new(
        alloc: Global,
        room: usize,
        most: usize,
        failing: Vec<u64>,
    ) -> Result<MemSink, NoMemory>
        requires { 1 ≤ most }
        ensures { IfOk result (λ s. s ≡ record {
          held = [];
          room = room;
          most = most;
          failing = failing.items;
          calls = 0;
          faults = 0;
        }) }
    {
        Ok(MemSink {
            bytes: Vec::with_capacity(alloc, room)?,
            room,
            most,
            failing,
            calls: 0,
            faults: 0,
        })
    }

    /// The bytes that it holds.
    pub fn bytes(&self) -> &[u8]
        ensures { result.now ≡ self.now.held }
    {
        self.bytes.as_slice()
    }
}

impl Sink for MemSink {
    ghost held = { λ s. Some s.held };

    ghost faults = { λ s. s.faults };

    ghost at_last = { λ s. s.faults ≡ 2 ^ 128 - 1 };

    ghost late = { λ s. late-128 s.faults };

    fn put(&mut self, piece: &[u8]) -> Result<usize, SinkFailed>
        requires { 0 < length piece.now }
        ensures within { IfOk result (λ n. (0 < n) × (n ≤ length piece.now)) }
        ensures bytes { IfOk result (λ n. self.new.held ≡ self.old.held ++ take n piece.now) }
        ensures cause { OnErr result (Rose self.old.faults self.new.faults (self.new.faults ≡ 2 ^ 128 - 1)) }
        ensures kept { OnErr result (self.new.held ≡ self.old.held) }
        ensures later { self.old.faults ≤ self.new.faults }
        ensures exact { result_ok result ≡ taken self.old (length piece.now) }
        ensures after { self.new ≡ after_put self.old piece.now (result_ok result) }
    {
        let number = self.calls;
        let full = self.room == 0;
        let fails = fails_at(&self.failing, number);
        if number < PAST {
            self.calls += 1;
        }
        if full || fails {
            self.faults = self.faults.saturating_add(1);
            return Err(SinkFailed);
        }
        let n = piece.len().min(self.most).min(self.room);
        self.bytes.extend_from_slice(&piece[..n]).unwrap();
        self.room -= n;
        Ok(n)
    }
}
