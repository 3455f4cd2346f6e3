//! Laws of the chords at a border place.
ghost use Rattle.ff_crossings.specs.ChordMembers.{ChordsAre, SidesAre};

/// The chords are those of the faces with the place inside, and those of the inner edges there.
pub fn chords_are()
    ensures { ChordsAre }
{}

/// The faces listed for a side are those that cover it.
pub fn sides_are()
    ensures { SidesAre }
{}
