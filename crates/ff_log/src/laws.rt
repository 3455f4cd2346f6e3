//! Laws of the texts of logs.
ghost use Rattle.ff_log.specs.Texts.{TextsAreOne};

/// Texts are the lines of one log or have one first text that is no line, never both, and always one of these. So each answer of
/// `read_log` but want of memory comes exactly where its definition holds.
pub fn texts_are_one()
    ensures { TextsAreOne }
{}
