//! Laws of reports.
ghost use Rattle.ff_solve.specs.Laws.{ChoicesAreStackings, ClashHasNone, ReportIsOne, StartClashHasNone, StartsAreStackings, SummaryIsOne};

/// Reports of cases that differ at most in the places of their cites end alike and are one text but for their logs. Their summaries are the same.
pub fn report_is_one()
    ensures report { ReportIsOne }
    ensures summary { SummaryIsOne }
{}

/// Choices of one solution of each part correspond one-to-one to the geometric stackings that keep the creases and the
/// pins on listed pairs. Where the closure clashes there is none. So it is of the starts alone, without pins.
pub fn stackings_are_choices()
    ensures choices { ChoicesAreStackings }
    ensures clash { ClashHasNone }
    ensures starts { StartsAreStackings }
    ensures start_clash { StartClashHasNone }
{}
