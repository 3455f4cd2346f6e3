//! Borders of slabs: places of which the x alone counts.
ghost use Rattle.std.specs.Prelude.{◌≡◌};
ghost use Rattle.std.proofs.Props.{props};
ghost use Rattle.ff_whole.specs.Sizes.{IsMeetPlace};
ghost use Rattle.ff_cells.specs.Before.{x_cmp};

use ff_whole::{Place, cmp_x};
use std::cmp::Ordering;

/// A place on a border of a slab.
#[derive(Clone, Copy, Drop)]
pub struct Border {
    pub place: Place,
    pub ghost ok: { IsMeetPlace place } by { Prim.hlevel props },
}

impl Border {
    /// How two borders lie from left to right.
    pub fn by_x(&self, other: &Border) -> Ordering
        ensures { result ≡ x_cmp self.now.place other.now.place }
    {
        cmp_x(self.place, other.place)
    }
}
