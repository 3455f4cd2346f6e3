//! What later entries leave.
ghost use Rattle.ff_desk.specs.Laws.{OpeningsStay};

/// A law: a board of an epoch stays one, whatever entries come after.
pub fn openings_stay()
    ensures { OpeningsStay }
{}
