//! Laws of chords that alternate.
ghost use Rattle.ff_crossings.specs.Alternating.{LeftCapAlternates, LeftCapsAlternate, OpposedCapsNever, RightCapAlternates, RightCapsAlternate, ThroughsAlternate};

/// Two chords from left to right alternate where their faces lie one way on one side and the other way on the other.
pub fn throughs_alternate()
    ensures { ThroughsAlternate }
{}

/// A cap on the left and a chord from left to right alternate where the chord's left face is between the cap's.
pub fn left_cap_alternates()
    ensures { LeftCapAlternates }
{}

/// The same on the right.
pub fn right_cap_alternates()
    ensures { RightCapAlternates }
{}

/// Two caps on the left alternate where their pairs of faces interleave.
pub fn left_caps_alternate()
    ensures { LeftCapsAlternate }
{}

/// The same on the right.
pub fn right_caps_alternate()
    ensures { RightCapsAlternate }
{}

/// Caps on different sides never alternate.
pub fn opposed_caps_never()
    ensures { OpposedCapsNever }
{}
