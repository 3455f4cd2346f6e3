//! The faces of a crease pattern.
ghost use Rattle.std.specs.Prelude.{◌≡◌, ◌<◌, List, Some, length, MatchResult, IfOk};
ghost use Rattle.ff_types.specs.Sides.{filled as filled_mark, sides_at, IsMarkOf};
ghost use Rattle.ff_drawn.specs.Graphs.{IsGraph};
ghost use Rattle.ff_planar.specs.Given.{AreGiven, WhyNoFaces, AreFilled};

use crate::finding::find;
use ff_tables::{Items, NoMemory};
use ff_types::{EdgeEnds, EdgeSides, Faces, MOST_FACES, Mark, No, Pattern, Refusal, What};
use ff_whole::Pt;
use std::alloc::Global;

// An edge with one side in a ring is a border edge, an edge with two is unassigned.
fn filled(sides: EdgeSides) -> Mark
    ensures { result ≡ filled_mark sides.left sides.right }
{
    match (sides.left, sides.right) {
        (Some(_), Some(_)) => Mark::U,
        _ => Mark::B,
    }
}

// The mark of an edge, or what stands for it.
fn mark_for(marks: &Option<Items<Mark>>, seen: &[EdgeSides], e: usize) -> Mark
    requires within { e < length seen.now }
    requires marked { (ms : List Mark) → marks.now ≡ Some ms → length ms ≡ length seen.now }
    ensures { IsMarkOf marks.now e (sides_at seen.now e) result }
{
    match marks {
        Some(marks) => marks.as_slice()[e],
        None => filled(seen[e]),
    }
}

// The marks, absent ones filled in.
fn filled_in(
    alloc: Global,
    marks: &Option<Items<Mark>>,
    seen: &[EdgeSides],
) -> Result<Vec<Mark>, NoMemory>
    requires { (ms : List Mark) → marks.now ≡ Some ms → length ms ≡ length seen.now }
    ensures { IfOk result (λ filled. AreFilled marks.now seen.now filled.items) }
{
    let mut filled_in = Vec::new(alloc);
    for e in 0..seen.len() {
        filled_in.push(mark_for(marks, seen, e))?;
    }
    Ok(filled_in)
}

// The faces of the drawing that these points, edges and marks are.
fn faces_of(
    alloc: Global,
    points: &[Pt],
    edges: &[EdgeEnds],
    marks: &Option<Items<Mark>>,
) -> Result<Faces, No>
    requires graph { IsGraph points.now edges.now }
    requires some { 0 < length points.now }
    requires marked { (ms : List Mark) → marks.now ≡ Some ms → length ms ≡ length edges.now }
    ensures { MatchResult result (AreGiven points.now edges.now marks.now) (WhyNoFaces points.now edges.now marks.now) }
{
    let found = match find(alloc, points, edges, marks) {
        Ok(found) => found,
        Err(no) => return Err(no),
    };
    if found.rings.len() > MOST_FACES {
        return Err(No::Refused(Refusal::TooMany {
            what: What::Faces,
            limit: MOST_FACES as u64,
        }));
    }
    let filled = filled_in(alloc, marks, &found.seen)?;
    Ok(Faces {
        rings: Items::of(found.rings),
        sides: Items::of(found.seen),
        marks: Items::of(filled),
    })
}

/// The faces of a crease pattern with at least one vertex: its rings, each from its least vertex and in order of lists,
/// the faces beside each edge, and the marks, where absent ones are filled in.
pub fn faces(alloc: Global, pattern: &Pattern) -> Result<Faces, No>
    requires some { 0 < length pattern.now.points }
    ensures { MatchResult result (AreGiven pattern.now.points pattern.now.edges pattern.now.marks) (WhyNoFaces pattern.now.points pattern.now.edges pattern.now.marks) }
{
    faces_of(
        alloc,
        pattern.points.as_slice(),
        pattern.edges.as_slice(),
        &pattern.marks,
    )
}
