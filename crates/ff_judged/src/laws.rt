//! Laws of the answers to `check`.
ghost use Rattle.ff_judged.specs.Answers.{OneJudgement, SomeJudgement};

use ff_checker::{accepted_logs_refute, one_verdict, some_verdict};
use ff_log::texts_are_one;
use ff_read::check_is_one;

/// Two answers to the same bytes are the same: the log is accepted in both or in none, and the line is one.
pub fn one_judgement()
    ensures { OneJudgement }
{
    check_is_one();
    texts_are_one();
    one_verdict();
}

/// It can't be that bytes have no answer.
pub fn some_judgement()
    ensures { SomeJudgement }
{
    check_is_one();
    texts_are_one();
    some_verdict();
    accepted_logs_refute();
}
