//! Why a drawing has no faces.
ghost use Rattle.std.specs.Prelude.{◌≡◌, ◌<◌, ◌≤◌, ◌^◌, List, Some, length, MatchResult};
ghost use Rattle.ff_drawn.specs.Graphs.{IsGraph};
ghost use Rattle.ff_drawn.specs.Drawn.{IsDrawnBy};
ghost use Rattle.ff_drawn.specs.Extents.{AreSpots};
ghost use Rattle.ff_planar.specs.Traces.{AreTraced};
ghost use Rattle.ff_planar.specs.Seen.{AreAllSeen};
ghost use Rattle.ff_planar.specs.Given.{AreFound, WhyNoRings};

use crate::frames::any_enclosed;
use crate::joining::first_lost;
use crate::outlines::first_pinch;
use crate::reflex::{first_enclosed, first_reflex};
use crate::sides::first_rim;
use crate::traces::Side;
use ff_drawn::{Dart, Extent};
use ff_tables::Items;
use ff_types::{EdgeEnds, EdgeSides, Mark, No, Refusal};
use ff_whole::Pt;
use std::alloc::Global;

/// Refuses rings that are no faces: at the first rim edge, then at the first pinched, reflex or enclosed vertex, then at
/// the first face apart.
pub fn refuse(
    alloc: Global,
    points: &[Pt],
    edges: &[EdgeEnds],
    marks: &Option<Items<Mark>>,
    darts: &[Dart],
    rings: &[Items<u32>],
    sides: &[Side],
    seen: &[EdgeSides],
    spots: &[Extent],
) -> Result<(), No>
    requires graph { IsGraph points.now edges.now }
    requires few { length darts.now ≤ 2 ^ 15 }
    requires some { 0 < length points.now }
    requires marked { (ms : List Mark) → marks.now ≡ Some ms → length ms ≡ length edges.now }
    requires drawn { IsDrawnBy points.now edges.now darts.now }
    requires traced { AreTraced points.now edges.now darts.now rings.now sides.now }
    requires seen { AreAllSeen points.now edges.now rings.now seen.now }
    requires spots { AreSpots points.now spots.now }
    ensures { MatchResult result (λ _. AreFound points.now edges.now marks.now rings.now) (WhyNoRings points.now edges.now marks.now) }
{
    let any = any_enclosed(alloc, points, rings, spots)?;
    if let Some(e) = first_rim(points, edges, rings, seen, marks) {
        return Err(No::Refused(Refusal::Rim { e: e as u32 }));
    }
    if let Some(v) = first_pinch(points, edges, darts, rings, sides) {
        return Err(No::Refused(Refusal::Pinch { v }));
    }
    if let Some(v) = first_reflex(alloc, points, edges, rings)? {
        return Err(No::Refused(Refusal::Reflex { v: v as u32 }));
    }
    if let Some(v) = first_enclosed(points, edges, rings, any) {
        return Err(No::Refused(Refusal::Enclosed { v: v as u32 }));
    }
    if let Some(f) = first_lost(alloc, rings.len(), seen)? {
        return Err(No::Refused(Refusal::Apart { face: f as u32 }));
    }
    Ok(())
}
