//! Laws of the answers to `make`.
ghost use Rattle.ff_made.specs.Answers.{OneSummary, SomeSummary};

use ff_make::accordion_is_one;

/// Two answers to the same count and budget are the same: they end alike, and the text is one.
pub fn one_summary()
    ensures { OneSummary }
{
    accordion_is_one();
}

/// It can't be that a count from 1 to 400 has no answer.
pub fn some_summary()
    ensures { SomeSummary }
{
    accordion_is_one();
}
