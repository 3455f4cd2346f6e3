//! What the marks of edges say of them.
ghost use Rattle.std.specs.Prelude.{◌≡◌};
ghost use Rattle.ff_types.specs.Foldings.{is_folded as folded_mark};
ghost use Rattle.ff_types.specs.Cites.{is_flat as flat_mark};

use ff_types::Mark;

/// Whether an edge with this mark is folded.
pub fn is_folded(mark: Mark) -> bool
    ensures { result ≡ folded_mark mark }
{
    match mark {
        Mark::M | Mark::V | Mark::U => true,
        Mark::B | Mark::F => false,
    }
}

/// Whether it is flat.
pub fn is_flat(mark: Mark) -> bool
    ensures { result ≡ flat_mark mark }
{
    match mark {
        Mark::F => true,
        Mark::B | Mark::M | Mark::V | Mark::U => false,
    }
}
