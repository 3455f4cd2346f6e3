//! How far things reach, from west to east and from south to north.
ghost use Rattle.std.specs.Prelude.{◌≡◌, ◌⊎◌, ◌↔◌, ◌≤ℤ◌, IsTrue, IfErr, OnOk, [], ◌∷◌, ◌++◌};
ghost use Rattle.ff_whole.specs.Points.{IsNear};
ghost use Rattle.ff_whole.specs.Sizes.{IsBelow};
ghost use Rattle.ff_types.specs.declared.refusals.No.TheVariants.{NoMemory as no_memory};
ghost use Rattle.ff_edges.specs.Extents.{IsExtent, IsAround, IsWithin, IsBeside, IsTouching};

use ff_types::No;
use ff_whole::{POINT_SIZE, Pt, high_of, low_of};

/// How far something reaches: from its least to its greatest x and y.
#[derive(Clone, Copy, Debug, PartialEq, Eq)]
pub struct Extent {
    pub low: Pt,
    pub high: Pt,
}

/// Reaches as far as both.
pub fn joined(a: Extent, b: Extent) -> Extent
    requires a_extent { IsExtent a }
    requires b_extent { IsExtent b }
    ensures extent { IsExtent result }
    ensures first { IsWithin a result }
    ensures second { IsWithin b result }
{
    Extent {
        low: low_of(a.low, b.low),
        high: high_of(a.high, b.high),
    }
}

/// The extent of a point.
pub fn at(p: Pt) -> Extent
    requires { IsNear p }
    ensures extent { IsExtent result }
    ensures around { IsAround p result }
{
    Extent { low: p, high: p }
}

/// The extent of nothing: another one joined to it stays as it is.
pub fn nowhere() -> Extent
    ensures { IsExtent result }
{
    let far = POINT_SIZE as i64 - 1;
    Extent {
        low: Pt { x: far, y: far },
        high: Pt { x: -far, y: -far },
    }
}

fn is_at_most(a: i64, b: i64) -> bool
    requires a_size { IsBelow POINT_SIZE a }
    requires b_size { IsBelow POINT_SIZE b }
    ensures { IsTrue result ↔ (a ≤ℤ b) }
{
    a <= b
}

// Whether one of the two ranges ends where the other one begins, or before that.
fn are_beside(a_low: i64, a_high: i64, b_low: i64, b_high: i64) -> bool
    requires a_low_size { IsBelow POINT_SIZE a_low }
    requires a_high_size { IsBelow POINT_SIZE a_high }
    requires b_low_size { IsBelow POINT_SIZE b_low }
    requires b_high_size { IsBelow POINT_SIZE b_high }
    ensures { IsTrue result ↔ ((a_high ≤ℤ b_low) ⊎ (b_high ≤ℤ a_low)) }
{
    is_at_most(a_high, b_low) || is_at_most(b_high, a_low)
}

/// Whether the first extent is on one side of the second, where they may touch.
pub fn is_beside(a: Extent, b: Extent) -> bool
    requires a_extent { IsExtent a }
    requires b_extent { IsExtent b }
    ensures { IsTrue result ↔ IsBeside a b }
{
    are_beside(a.low.x, a.high.x, b.low.x, b.high.x)
        || are_beside(a.low.y, a.high.y, b.low.y, b.high.y)
}

// Whether neither of the two ranges ends before the other one begins.
fn are_touching(a_low: i64, a_high: i64, b_low: i64, b_high: i64) -> bool
    requires a_low_size { IsBelow POINT_SIZE a_low }
    requires a_high_size { IsBelow POINT_SIZE a_high }
    requires b_low_size { IsBelow POINT_SIZE b_low }
    requires b_high_size { IsBelow POINT_SIZE b_high }
    ensures { IsTrue result ↔ ((b_low ≤ℤ a_high) × (a_low ≤ℤ b_high)) }
{
    is_at_most(b_low, a_high) && is_at_most(a_low, b_high)
}

/// Whether the two extents have a place in common, be it on their borders.
pub fn is_touching(a: Extent, b: Extent) -> bool
    requires a_extent { IsExtent a }
    requires b_extent { IsExtent b }
    ensures { IsTrue result ↔ IsTouching a b }
{
    are_touching(a.low.x, a.high.x, b.low.x, b.high.x)
        && are_touching(a.low.y, a.high.y, b.low.y, b.high.y)
}

/// Appends the extent.
pub fn push(list: &mut Vec<Extent>, extent: Extent) -> Result<(), No>
    ensures pushed { OnOk result (list.new.items ≡ list.old.items ++ extent ∷ []) }
    ensures refused { IfErr result (λ no. no ≡ no_memory) }
{
    match list.push(extent) {
        Ok(()) => Ok(()),
        Err(_) => Err(No::NoMemory),
    }
}
