//! Laws on what bytes spell.
ghost use Rattle.ff_read.specs.Readings.{BenchIsOne, CheckIsOne, ReadingIsOne};

/// A law: bytes come to one pattern or to one refusal, never to both, and always to one of these. So each answer of
/// `read_fold` but want of memory comes exactly where its definition holds.
pub fn reading_is_one()
    ensures { ReadingIsOne }
{}

/// The same law of an input of `check`, and of `read_check`.
pub fn check_is_one()
    ensures { CheckIsOne }
{}

/// The same law of an input of `bench`, and of `read_bench`.
pub fn bench_is_one()
    ensures { BenchIsOne }
{}
