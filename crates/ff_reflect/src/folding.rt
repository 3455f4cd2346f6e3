//! The folding of faces.
ghost use Rattle.std.specs.Prelude.{◌≡◌, ◌<◌, length, MatchResult};
ghost use Rattle.ff_types.specs.Drawings.{IsDrawing};
ghost use Rattle.ff_types.specs.Sides.{AreFaces};
ghost use Rattle.ff_reflect.specs.Folding.{IsNearFolding, WhyNoFolding};

use crate::flags::{first_broken, flags_of};
use crate::place::place;
use crate::placed::Placed;
use crate::walk::walk_of;
use ff_tables::Items;
use ff_types::{Faces, Folded, No, Pattern, Refusal};
use std::alloc::Global;

/// The folding of the faces of a crease pattern, at the least scale at which all folded points are whole.
///
/// It is refused by the first stop of the walk in placing order: an edge whose two faces would have to lie alike and
/// not alike; else a vertex at which the folded faces don't meet, or at whose placing a scaled coordinate comes to
/// `POINT_SIZE` or more.
pub fn fold(alloc: Global, pattern: &Pattern, faces: &Faces) -> Result<Folded, No>
    requires drawing { IsDrawing pattern.now.points pattern.now.edges }
    requires faces { AreFaces pattern.now.points pattern.now.edges pattern.now.marks faces.now.rings faces.now.sides faces.now.marks }
    ensures { MatchResult result (IsNearFolding pattern.now faces.now) (WhyNoFolding pattern.now faces.now) }
{
    let count = faces.rings.as_slice().len();
    if count == 0 {
        return no_faces(alloc, pattern, faces);
    }
    let walk = walk_of(alloc, pattern, faces)?;
    let marks = faces.marks.as_slice();
    let up = flags_of(alloc, count, marks, walk.tree.as_slice())?;
    if let Some(e) = first_broken(count, marks, up.as_slice(), walk.met.as_slice()) {
        return Err(No::Refused(Refusal::Parity { e }));
    }
    let placed = place(alloc, pattern, faces, walk.tree.as_slice(), up.as_slice())?;
    Ok(Folded {
        scale: placed.scale as i64,
        points: Items::of(placed.points),
        up: Items::of(up),
    })
}

// The folding of no faces: there are no vertices.
fn no_faces(alloc: Global, pattern: &Pattern, faces: &Faces) -> Result<Folded, No>
    requires drawing { IsDrawing pattern.now.points pattern.now.edges }
    requires faces { AreFaces pattern.now.points pattern.now.edges pattern.now.marks faces.now.rings faces.now.sides faces.now.marks }
    requires none { length faces.now.rings ≡ 0 }
    ensures { MatchResult result (IsNearFolding pattern.now faces.now) (WhyNoFolding pattern.now faces.now) }
{
    let _ = faces.rings.as_slice().len();
    let placed = Placed::new(alloc, pattern.points.as_slice().len())?;
    Ok(Folded {
        scale: 1,
        points: Items::of(placed.points),
        up: Items::of(Vec::new(alloc)),
    })
}
