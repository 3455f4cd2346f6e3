//! The vertices of a drawing: the ends of the lines and where two of them meet.
ghost use Rattle.std.specs.Prelude.{◌≡◌, ◌+◌, ◌<◌, ◌≤◌, length, IfOk, MatchResult, OnOk};
ghost use Rattle.std.specs.List.{All};
ghost use Rattle.ff_types.specs.declared.limits.TheConstants.{MOST_VERTICES};
ghost use Rattle.ff_lines.specs.declared.items.TheConstants.{MOST_LINES};
ghost use Rattle.ff_lines.specs.Lines.{IsProper, NoneStops};
ghost use Rattle.ff_lines.specs.Drawings.{AreVertices, WhyNotDrawn};
ghost use Rattle.ff_lines.specs.Gathered.{AreEndsOf, AreGathered, IsCounted, IsKept, IsSqueezed};

use crate::items::LineItem;
use crate::pairs::{Meeting, are_square, meeting_of};
use crate::sweeping::swept;
use ff_tables::NoMemory;
use ff_types::{MOST_VERTICES, No, Refusal, What};
use ff_whole::Pt;
use std::alloc::Global;

// So many points are sorted, so that those that stand there more than once go.
const MANY: usize = 8 * MOST_VERTICES;

// Both ends of each line.
fn ends_of(alloc: Global, lines: &[LineItem]) -> Result<Vec<Pt>, NoMemory>
    ensures { IfOk result (λ points. AreEndsOf lines.now (length lines.now) points.items) }
{
    let mut points = Vec::new(alloc);
    for i in 0..lines.len() {
        points.push(lines[i].p)?;
        points.push(lines[i].q)?;
    }
    Ok(points)
}

// Keeps a point, unless no more are kept.
fn keep_point(points: &mut Vec<Pt>, full: bool, point: Pt) -> Result<(), NoMemory>
    ensures { OnOk result (IsKept points.old.items full point points.new.items) }
{
    if full {
        return Ok(());
    }
    points.push(point)?;
    Ok(())
}

/// Looks at one pair.
pub fn take_pair(
    lines: &[LineItem],
    i: usize,
    j: usize,
    points: &mut Vec<Pt>,
    full: bool,
) -> Result<(), No>
    requires proper { All IsProper lines.now }
    requires few { length lines.now ≤ MOST_LINES }
    requires order { i < j }
    requires within { j < length lines.now }
    requires gathered { AreGathered lines.now i j points.old.items full }
    ensures { MatchResult result (λ _. AreGathered lines.now i (j + 1) points.new.items full) (WhyNotDrawn lines.now) }
{
    if full && are_square(lines[i], lines[j]) {
        return Ok(());
    }
    match meeting_of(lines[i], lines[j]) {
        Meeting::Plain => Ok(()),
        Meeting::Overlapping => Err(No::Refused(Refusal::Overlap {
            line: i as u32,
            line2: j as u32,
        })),
        Meeting::OffGrid => Err(No::Refused(Refusal::OffGrid {
            line: i as u32,
            line2: j as u32,
        })),
        Meeting::At { point } => {
            keep_point(points, full, point)?;
            Ok(())
        }
    }
}

// Looks at the pairs of a line with those after it.
fn take_row(lines: &[LineItem], i: usize, points: &mut Vec<Pt>, full: bool) -> Result<(), No>
    requires proper { All IsProper lines.now }
    requires few { length lines.now ≤ MOST_LINES }
    requires within { i < length lines.now }
    requires gathered { AreGathered lines.now i (i + 1) points.old.items full }
    ensures { MatchResult result (λ _. AreGathered lines.now (i + 1) (i + 1 + 1) points.new.items full) (WhyNotDrawn lines.now) }
{
    for j in i + 1..lines.len() {
        take_pair(lines, i, j, points, full)?;
    }
    Ok(())
}

// Puts the points in order, each once.
fn squeeze(points: &mut Vec<Pt>) -> Result<(), NoMemory>
    ensures { OnOk result (IsSqueezed points.old.items points.new.items) }
{
    points.sort()?;
    points.dedup();
    Ok(())
}

// Whether there are more points than the limit, where many are kept.
fn are_too_many(points: &mut Vec<Pt>) -> Result<bool, NoMemory>
    ensures { IfOk result (λ many. IsCounted points.old.items points.new.items many) }
{
    if points.len() < MANY {
        return Ok(false);
    }
    squeeze(points)?;
    Ok(points.len() > MOST_VERTICES)
}

/// Whether no more points are kept, since there are too many. Where that is so none is held any longer.
pub fn count_points(
    lines: &[LineItem],
    i: usize,
    points: &mut Vec<Pt>,
    full: bool,
) -> Result<bool, No>
    requires gathered { AreGathered lines.now i (i + 1) points.old.items full }
    ensures { MatchResult result (λ full. AreGathered lines.now i (i + 1) points.new.items full) (WhyNotDrawn lines.now) }
{
    let _ = (lines.len(), i);
    let many = are_too_many(points)?;
    if many {
        points.clear();
        return Ok(true);
    }
    Ok(full)
}

fn too_many() -> No
    ensures { result ≡ No.Refused (Refusal.TooMany What.Vertices MOST_VERTICES) }
{
    No::Refused(Refusal::TooMany {
        what: What::Vertices,
        limit: MOST_VERTICES as u64,
    })
}

// The vertices, in order, where all pairs have been looked at.
fn finished(lines: &[LineItem], points: &mut Vec<Pt>, full: bool) -> Result<(), No>
    requires gathered { AreGathered lines.now (length lines.now) (length lines.now + 1) points.old.items full }
    ensures { MatchResult result (λ _. NoneStops lines.now × AreVertices lines.now points.new.items × (length points.new.items ≤ MOST_VERTICES)) (WhyNotDrawn lines.now) }
{
    let _ = lines.len();
    if full {
        return Err(too_many());
    }
    squeeze(points)?;
    if points.len() > MOST_VERTICES {
        return Err(too_many());
    }
    Ok(())
}

// The vertices of the drawing, in order, or why there are none: pair by pair, by the first line and then by the second.
fn vertices_by_pairs(alloc: Global, lines: &[LineItem]) -> Result<Vec<Pt>, No>
    requires proper { All IsProper lines.now }
    requires few { length lines.now ≤ MOST_LINES }
    ensures { MatchResult result (λ points. NoneStops lines.now × AreVertices lines.now points.items × (length points.items ≤ MOST_VERTICES)) (WhyNotDrawn lines.now) }
{
    let mut points = ends_of(alloc, lines)?;
    let mut full = false;
    for i in 0..lines.len() {
        take_row(lines, i, &mut points, full)?;
        full = count_points(lines, i + 1, &mut points, full)?;
    }
    finished(lines, &mut points, full)?;
    Ok(points)
}

/// The vertices of the drawing, in order, or why there are none: the first pair of lines that stops, else too many vertices.
/// Only where some pair stops are all looked at by their numbers.
pub fn vertices_of(alloc: Global, lines: &[LineItem]) -> Result<Vec<Pt>, No>
    requires proper { All IsProper lines.now }
    requires few { length lines.now ≤ MOST_LINES }
    ensures { MatchResult result (λ points. NoneStops lines.now × AreVertices lines.now points.items × (length points.items ≤ MOST_VERTICES)) (WhyNotDrawn lines.now) }
{
    let mut points = ends_of(alloc, lines)?;
    match swept(alloc, lines, &mut points) {
        Ok(full) => {
            finished(lines, &mut points, full)?;
            Ok(points)
        }
        Err(No::NoMemory) => Err(No::NoMemory),
        Err(No::Refused(_)) => vertices_by_pairs(alloc, lines),
    }
}
