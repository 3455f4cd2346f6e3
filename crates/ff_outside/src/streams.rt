//! What a source and a sink are.
ghost use Rattle.std.specs.Prelude.{◌≡◌, ◌<◌, ◌≤◌, ℕ, List, ◌++◌, ◌-◌, ◌^◌, length, take};
ghost use Rattle.std.specs.Prelude.{Option, Some, IfSome, IfOk, OnErr};
ghost use Rattle.ff_outside.specs.Streams.{Rose, Gives};

use thiserror::Error;

/// A read failed. The source has counted it, unless its count stands at its last value.
#[derive(Clone, Copy, Debug, PartialEq, Eq, Error)]
#[error("the input can't be read")]
pub struct SourceFailed;

/// A write failed. The sink has counted it, unless its count stands at its last value.
#[derive(Clone, Copy, Debug, PartialEq, Eq, Error)]
#[error("the output can't be written")]
pub struct SinkFailed;

/// Where bytes come from.
pub trait Source {
    /// The bytes that are left, where it tells them.
    ghost left: { Self → Option (List ℕ) };

    /// How often it has failed. It never falls.
    ghost faults: { Self → ℕ };

    /// The count stands at its type's last value, and can't rise.
    ghost at_last: { Self → Type 0 } = { λ _. ⊥ };

    /// Puts the first of the bytes that are left at the front of the buffer, and answers how many.
    /// 0 is the end of the input. After a failure nothing has been taken, where the bytes are told.
    fn take(&mut self, buf: &mut [u8]) -> Result<usize, SourceFailed>
        requires { 0 < length buf.old }
        ensures within { IfOk result (λ n. n ≤ length buf.new) }
        ensures bytes { IfOk result (λ n. IfSome (left self.old) (λ old. Gives old (left self.new) buf.new n)) }
        ensures cause { OnErr result (Rose (faults self.old) (faults self.new) (at_last self.new)) }
        ensures kept { OnErr result (IfSome (left self.old) (λ old. left self.new ≡ Some old)) }
        ensures later { faults self.old ≤ faults self.new };

    /// A law: only a count that has come to the end of 64 bits may stand at its last value.
    ghost late: { (s : Self) → at_last s → 2 ^ 64 - 1 ≤ faults s };
}

/// Where bytes go.
pub trait Sink {
    /// The bytes that it holds, where it tells them.
    ghost held: { Self → Option (List ℕ) };

    /// How often it has failed. It never falls.
    ghost faults: { Self → ℕ };

    /// The count stands at its type's last value, and can't rise.
    ghost at_last: { Self → Type 0 } = { λ _. ⊥ };

    /// Appends the front of the piece, at least one byte of it, and answers how many.
    /// After a failure it holds what it held, where the bytes are told. To take nothing is a failure.
    fn put(&mut self, piece: &[u8]) -> Result<usize, SinkFailed>
        requires { 0 < length piece.now }
        ensures within { IfOk result (λ n. (0 < n) × (n ≤ length piece.now)) }
        ensures bytes { IfOk result (λ n. IfSome (held self.old) (λ old. held self.new ≡ Some (old ++ take n piece.now))) }
        ensures cause { OnErr result (Rose (faults self.old) (faults self.new) (at_last self.new)) }
        ensures kept { OnErr result (IfSome (held self.old) (λ old. held self.new ≡ Some old)) }
        ensures later { faults self.old ≤ faults self.new };

    /// A law: only a count that has come to the end of 64 bits may stand at its last value.
    ghost late: { (s : Self) → at_last s → 2 ^ 64 - 1 ≤ faults s };
}
