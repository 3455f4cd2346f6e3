//! Lines made into a crease pattern.
ghost use Rattle.std.specs.Prelude.{◌≤◌, length, MatchResult};
ghost use Rattle.std.specs.List.{All};
ghost use Rattle.ff_lines.specs.declared.items.TheConstants.{MOST_LINES};
ghost use Rattle.ff_lines.specs.Lines.{IsProper};
ghost use Rattle.ff_lines.specs.Drawings.{IsDrawn, WhyNotDrawn};

use crate::cutting::edges_of;
use crate::gathering::vertices_of;
use crate::items::LineItem;
use ff_tables::Items;
use ff_types::{MOST_EDGES, No, Pattern, Refusal, What};
use std::alloc::Global;

/// The drawing of lines: crossings found, lines cut, doubles merged. Refused at the first pair of lines, by the first and then by
/// the second, that meets off the grid or overlaps with different letters, and then where there are too many vertices or edges.
pub fn draw(alloc: Global, lines: &Items<LineItem>) -> Result<Pattern, No>
    requires proper { All IsProper lines.now }
    requires few { length lines.now ≤ MOST_LINES }
    ensures { MatchResult result (IsDrawn lines.now) (WhyNotDrawn lines.now) }
{
    let points = vertices_of(alloc, lines.as_slice())?;
    let drawn = edges_of(alloc, lines.as_slice(), points.as_slice())?;
    if drawn.edges.len() > MOST_EDGES {
        return Err(No::Refused(Refusal::TooMany {
            what: What::Edges,
            limit: MOST_EDGES as u64,
        }));
    }
    Ok(Pattern {
        points: Items::of(points),
        edges: Items::of(drawn.edges),
        marks: Some(Items::of(drawn.marks)),
    })
}
