//! The crease pattern that a FOLD object spells.
ghost use Rattle.std.specs.Prelude.{◌≡◌, ◌<◌, ◌≤◌, ◌^◌, ◌≢◌, ℕ, List, length, map, Option, None, Some, MatchResult};
ghost use Rattle.serde_json.specs.Data.{Data};
ghost use Rattle.serde_json.specs.View.{view};
ghost use Rattle.ff_read.specs.Spelling.{Keys, IsKeyed, AreSpelled, Spells, mark_of, optional_all_of};
ghost use Rattle.ff_read.specs.Lists.{keys_of, optional_view};
ghost use Rattle.ff_read.specs.Refused.{ArePoints, HaveEdges, IsNoItem, IsNoFold};
ghost use Rattle.ff_read.specs.Read.{ArePointsNot, AreEdgesNot, AreMarksNot, FirstFar, AreFew, HasFewItems, IsReadAs, IsNoPattern};

use crate::edges::edges_of;
use crate::items::{ItemNo, all_of};
use crate::keys::{Lists, fold_keys, lists_of};
use crate::objects::read_object;
use ff_tables::Items;
use ff_types::{EdgeEnds, MOST_EDGES, MOST_VERTICES, Mark, No, Pattern, Refusal, What};
use ff_whole::Pt;
use serde_json::Value;
use std::alloc::Global;

// The first point with a coordinate past the limit in size.
fn first_far(points: &[Pt]) -> Option<usize>
    ensures { FirstFar points.now result }
{
    for i in 0..points.len() {
        if !points[i].is_near() {
            return Some(i);
        }
    }
    None
}

fn points_of(alloc: Global, list: &[Value]) -> Result<Items<Pt>, No>
    requires { length list.now < 2 ^ 32 }
    ensures { MatchResult result (ArePoints (map view list.now)) (ArePointsNot (map view list.now)) }
{
    let points: Items<Pt> = match all_of(alloc, list) {
        Ok(points) => points,
        Err(ItemNo::Bad { index }) => return Err(No::Refused(Refusal::BadVertex { v: index })),
        Err(ItemNo::NoMemory) => return Err(No::NoMemory),
    };
    match first_far(points.as_slice()) {
        Some(v) => Err(No::Refused(Refusal::FarVertex { v: v as u32 })),
        None => Ok(points),
    }
}

fn edges_at(alloc: Global, n: usize, list: &[Value]) -> Result<Items<EdgeEnds>, No>
    requires { (n ≤ 2 ^ 32) × (length list.now < 2 ^ 32) }
    ensures { MatchResult result (HaveEdges n (map view list.now)) (AreEdgesNot n (map view list.now)) }
{
    match edges_of(alloc, n, list) {
        Ok(edges) => Ok(edges),
        Err(ItemNo::Bad { index }) => Err(No::Refused(Refusal::BadEdge { e: index })),
        Err(ItemNo::NoMemory) => Err(No::NoMemory),
    }
}

fn marks_of(alloc: Global, marks: Option<&[Value]>) -> Result<Option<Items<Mark>>, No>
    requires { (ms : List Data) → optional_view marks ≡ Some ms → length ms < 2 ^ 32 }
    ensures { MatchResult result (λ read. optional_all_of mark_of (optional_view marks.entry) ≡ Some read) (AreMarksNot (optional_view marks.entry)) }
{
    let Some(list) = marks else {
        return Ok(None);
    };
    match all_of(alloc, list) {
        Ok(marks) => Ok(Some(marks)),
        Err(ItemNo::Bad { index }) => Err(No::Refused(Refusal::BadMark { e: index })),
        Err(ItemNo::NoMemory) => Err(No::NoMemory),
    }
}

// The pattern that the items under the keys spell.
fn pattern_of(alloc: Global, lists: Lists) -> Result<Pattern, No>
    requires few { AreFew (keys_of lists) }
    requires marked { (ms : List Data) → (keys_of lists).marks ≡ Some ms → length ms ≡ length (keys_of lists).edges }
    ensures { MatchResult result (AreSpelled (keys_of lists.entry)) (IsNoItem (keys_of lists.entry)) }
{
    let points = points_of(alloc, lists.vertices)?;
    let edges = edges_at(alloc, points.as_slice().len(), lists.edges)?;
    let marks = marks_of(alloc, lists.marks)?;
    if MOST_VERTICES < points.as_slice().len() {
        return Err(No::Refused(Refusal::TooMany {
            what: What::Vertices,
            limit: MOST_VERTICES as u64,
        }));
    }
    if MOST_EDGES < edges.as_slice().len() {
        return Err(No::Refused(Refusal::TooMany {
            what: What::Edges,
            limit: MOST_EDGES as u64,
        }));
    }
    Ok(Pattern {
        points,
        edges,
        marks,
    })
}

/// The pattern that an object spells, where it has the keys: refused at the first item that isn't of its form, in the
/// order of the keys, and then where there are too many vertices or edges.
pub fn fold_items(alloc: Global, object: &Value) -> Result<Pattern, No>
    requires keys { (k : Keys) × IsKeyed (view object.now) k }
    requires few { HasFewItems (view object.now) }
    ensures { MatchResult result (Spells (view object.now)) (IsNoFold (view object.now)) }
{
    let lists = lists_of(object)?;
    pattern_of(alloc, lists)
}

/// The pattern that bytes spell: refused where they are no JSON object, and then as `fold_keys` and `fold_items` refuse.
pub fn read_fold(alloc: Global, bytes: &[u8]) -> Result<Pattern, No>
    requires { length bytes.now < 2 ^ 32 }
    ensures { MatchResult result (IsReadAs bytes.now) (IsNoPattern bytes.now) }
{
    let object = read_object(alloc, bytes)?;
    fold_keys(&object)?;
    fold_items(alloc, &object)
}
