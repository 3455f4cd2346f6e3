//! The rings of a drawing's faces.
ghost use Rattle.std.specs.Prelude.{◌≡◌, ◌<◌, List, Some, length, MatchResult};
ghost use Rattle.ff_drawn.specs.Graphs.{IsGraph};
ghost use Rattle.ff_planar.specs.Given.{IsFound, IsNotFound};

use crate::refusing::refuse;
use crate::sides::sides_of;
use crate::traces::trace_of;
use ff_drawn::drawn_darts;
use ff_tables::Items;
use ff_types::{EdgeEnds, EdgeSides, Mark, No};
use ff_whole::Pt;
use std::alloc::Global;

/// The rings of the faces, and the faces beside each edge.
#[derive(Drop)]
pub struct Found {
    pub rings: Vec<Items<u32>>,
    pub seen: Vec<EdgeSides>,
}

/// The faces' rings of the drawing that these points, edges and marks are, or why they are none.
pub fn find(
    alloc: Global,
    points: &[Pt],
    edges: &[EdgeEnds],
    marks: &Option<Items<Mark>>,
) -> Result<Found, No>
    requires graph { IsGraph points.now edges.now }
    requires some { 0 < length points.now }
    requires marked { (ms : List Mark) → marks.now ≡ Some ms → length ms ≡ length edges.now }
    ensures { MatchResult result (λ found. IsFound points.now edges.now marks.now found.rings.items found.seen.items) (IsNotFound points.now edges.now marks.now) }
{
    let drawn = drawn_darts(alloc, points, edges)?;
    let traced = trace_of(alloc, points, edges, &drawn.darts, &drawn.starts)?;
    let seen = sides_of(
        alloc,
        points,
        edges,
        &drawn.darts,
        &drawn.starts,
        &traced.rings,
        &traced.sides,
    )?;
    refuse(
        alloc,
        points,
        edges,
        marks,
        &drawn.darts,
        &traced.rings,
        &traced.sides,
        &seen,
        &drawn.spots,
    )?;
    Ok(Found {
        rings: traced.rings,
        seen,
    })
}
