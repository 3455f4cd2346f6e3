//! That no pattern is without an answer.
ghost use Rattle.ff_answers.specs.Answers.{PatternsFold, PatternsCome, FoldedPatternsCome, CasesHaveReports};

/// It can't be that a pattern is refused neither as it is drawn nor as it is folded, and doesn't fold.
pub fn patterns_fold()
    ensures { PatternsFold }
{}

/// It can't be that a pattern isn't refused and comes to no case.
pub fn patterns_come()
    ensures { PatternsCome }
{}

/// It can't be that a pattern that folds isn't refused and comes to no case.
pub fn folded_patterns_come()
    ensures { FoldedPatternsCome }
{}

/// It can't be that a case has no report within a budget.
pub fn cases_have_reports()
    ensures { CasesHaveReports }
{}
