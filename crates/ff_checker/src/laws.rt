//! What an accepted log means.
ghost use Rattle.ff_borders.specs.Folded.{OfEachFolded};
ghost use Rattle.ff_checker.specs.LogLaws.{AcceptedLogsRefute, CaseLogsAreAccepted, EachLogHasVerdict, VerdictsAreOne};

/// Where a log is accepted for a folded sheet and pins, no geometric stacking keeps the creases and the pins.
pub fn accepted_logs_refute()
    ensures { OfEachFolded AcceptedLogsRefute }
{}

/// A log has one verdict for a folded sheet and pins.
pub fn one_verdict()
    ensures { VerdictsAreOne }
{}

/// It can't be that a log has no verdict for a folded sheet and pins. So each verdict comes exactly where its definition holds.
pub fn some_verdict()
    ensures { EachLogHasVerdict }
{}

/// A log that closes over the case of a folded sheet is accepted for the sheet.
pub fn case_logs_are_accepted()
    ensures { OfEachFolded CaseLogsAreAccepted }
{}
