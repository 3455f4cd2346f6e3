//! The points of a drawing of which no pair of lines stops, by a sweep from west to east.
ghost use Rattle.std.specs.Prelude.{◌≡◌, ◌+◌, ◌<◌, ◌≤◌, ◌<ℤ◌, ◌↔◌, false, length, IsTrue, IfOk};
ghost use Rattle.std.specs.List.{All};
ghost use Rattle.std.specs.List.Sorted.{IsPermutation};
ghost use Rattle.ff_lines.specs.declared.items.TheConstants.{MOST_LINES};
ghost use Rattle.ff_lines.specs.Lines.{IsProper};
ghost use Rattle.ff_lines.specs.Gathered.{AreEndsOf, AreGathered};
ghost use Rattle.ff_lines.specs.Sweeps.{AreFromWest, west, east};

use crate::gathering::{count_points, take_pair};
use crate::items::LineItem;
use ff_tables::NoMemory;
use ff_types::No;
use ff_whole::Pt;
use std::alloc::Global;

// The lesser x of the ends.
fn west_of(l: LineItem) -> i64
    ensures { result ≡ west l }
{
    if l.p.x < l.q.x { l.p.x } else { l.q.x }
}

// The greater one.
fn east_of(l: LineItem) -> i64
    ensures { result ≡ east l }
{
    if l.p.x < l.q.x { l.q.x } else { l.p.x }
}

// The lines from west to east.
fn from_west(alloc: Global, lines: &[LineItem]) -> Result<Vec<LineItem>, NoMemory>
    ensures { IfOk result (λ sorted. IsPermutation lines.now sorted.items × AreFromWest sorted.items) }
{
    let mut sorted = Vec::from_slice(alloc, lines)?;
    sorted.sort_unstable_by_key(|l: &LineItem| west_of(*l));
    Ok(sorted)
}

// Whether a line lies wholly east of another.
fn is_east(l: LineItem, k: LineItem) -> bool
    ensures { IsTrue result ↔ (east k <ℤ west l) }
{
    east_of(k) < west_of(l)
}

// Looks at the pairs of a line with those after it, up to the first that lies east of it.
fn sweep_row(lines: &[LineItem], i: usize, points: &mut Vec<Pt>, full: bool) -> Result<(), No>
    requires proper { All IsProper lines.now }
    requires few { length lines.now ≤ MOST_LINES }
    requires from_west { AreFromWest lines.now }
    requires within { i < length lines.now }
    requires gathered { AreGathered lines.now i (i + 1) points.old.items full }
    ensures { IfOk result (λ _. AreGathered lines.now (i + 1) (i + 1 + 1) points.new.items full) }
{
    for j in i + 1..lines.len() {
        if is_east(lines[j], lines[i]) {
            return Ok(());
        }
        take_pair(lines, i, j, points, full)?;
    }
    Ok(())
}

// Looks at all pairs that may meet.
fn sweep(lines: &[LineItem], points: &mut Vec<Pt>) -> Result<bool, No>
    requires proper { All IsProper lines.now }
    requires few { length lines.now ≤ MOST_LINES }
    requires from_west { AreFromWest lines.now }
    requires ends { AreEndsOf lines.now (length lines.now) points.old.items }
    ensures { IfOk result (λ full. AreGathered lines.now (length lines.now) (length lines.now + 1) points.new.items full) }
{
    let mut full = false;
    for i in 0..lines.len() {
        sweep_row(lines, i, points, full)?;
        full = count_points(lines, i + 1, points, full)?;
    }
    Ok(full)
}

/// Adds where lines meet to their ends, and answers whether no more points are kept. An error where some pair stops.
pub fn swept(alloc: Global, lines: &[LineItem], points: &mut Vec<Pt>) -> Result<bool, No>
    requires proper { All IsProper lines.now }
    requires few { length lines.now ≤ MOST_LINES }
    requires ends { AreEndsOf lines.now (length lines.now) points.old.items }
    ensures { IfOk result (λ full. AreGathered lines.now (length lines.now) (length lines.now + 1) points.new.items full) }
{
    let sorted = from_west(alloc, lines)?;
    sweep(sorted.as_slice(), points)
}
