//! How two lines lie to each other.
ghost use Rattle.std.specs.Prelude.{◌≡◌, ◌↔◌, pos, ◌<ℤ◌, IsTrue};
ghost use Rattle.ff_whole.specs.Places.{slant, through as line_through};
ghost use Rattle.ff_whole.specs.Points.{IsNear, turn};
ghost use Rattle.ff_whole.specs.Meeting.{IsMeet};
ghost use Rattle.ff_lines.specs.Lines.{IsOnlyCommon, IsProper};
ghost use Rattle.ff_lines.specs.Meetings.{AreApart, AreBeside, HaveCommonEnd, IsEnd, IsMeeting, MeetInWhole};

use crate::items::LineItem;
use ff_edges::common_way;
use ff_whole::{Place, Pt, high_of, low_of, meet, orient, through};

/// How two lines lie to each other, as far as their drawing asks.
#[derive(Clone, Copy, Debug, PartialEq, Eq)]
pub enum Meeting {
    /// They have no single common point but an end of one of them, and share no segment with two letters.
    Plain,
    /// They share a segment and have different letters.
    Overlapping,
    /// Their only common point isn't whole.
    OffGrid,
    /// Their only common point.
    At { point: Pt },
}

// Whether `l` lies wholly above `k`.
fn is_above(k: LineItem, l: LineItem) -> bool
    requires first { IsProper k }
    requires second { IsProper l }
    ensures { IsTrue result → AreApart k l }
{
    high_of(k.p, k.q).y < low_of(l.p, l.q).y
}

/// Whether a point is on the line through two others.
pub fn is_level(p: Pt, q: Pt, v: Pt) -> bool
    requires p_near { IsNear p }
    requires q_near { IsNear q }
    requires near { IsNear v }
    ensures { IsTrue result ↔ (turn p q v ≡ pos 0) }
{
    orient(p, q, v) == 0
}

// Whether the ends of `l` are on the line through those of `k`.
fn are_in_line(k: LineItem, l: LineItem) -> bool
    requires first { IsProper k }
    requires second { IsProper l }
    ensures { IsTrue result → (slant (line_through k.p k.q) (line_through l.p l.q) ≡ pos 0) }
{
    is_level(k.p, k.q, l.p) && is_level(k.p, k.q, l.q)
}

// Whether a point is an end of a line.
fn is_end(l: LineItem, v: Pt) -> bool
    ensures { IsTrue result → IsEnd l v }
{
    v == l.p || v == l.q
}

// Whether two lines have a common end.
fn share_end(k: LineItem, l: LineItem) -> bool
    ensures { IsTrue result → HaveCommonEnd k l }
{
    is_end(l, k.p) || is_end(l, k.q)
}

// Whether `k` goes straight up or down, and `l` straight across.
fn is_crossed(k: LineItem, l: LineItem) -> bool
    requires first { IsProper k }
    requires second { IsProper l }
    ensures { IsTrue result → MeetInWhole k l }
{
    k.p.x == k.q.x && l.p.y == l.q.y
}

/// Whether two lines are at right angles, one upright: where they meet is a whole point.
pub fn are_square(k: LineItem, l: LineItem) -> bool
    requires first { IsProper k }
    requires second { IsProper l }
    ensures { IsTrue result → MeetInWhole k l }
{
    is_crossed(k, l) || is_crossed(l, k)
}

fn is_left(p: Pt, q: Pt, r: Pt) -> bool
    requires p_near { IsNear p }
    requires q_near { IsNear q }
    requires r_near { IsNear r }
    ensures { IsTrue result ↔ (pos 0 <ℤ turn p q r) }
{
    orient(p, q, r) > 0
}

fn is_right(p: Pt, q: Pt, r: Pt) -> bool
    requires p_near { IsNear p }
    requires q_near { IsNear q }
    requires r_near { IsNear r }
    ensures { IsTrue result ↔ (turn p q r <ℤ pos 0) }
{
    orient(p, q, r) < 0
}

// Whether the ends of `l` are strictly left of `k`.
fn are_left(k: LineItem, l: LineItem) -> bool
    requires first { IsProper k }
    requires second { IsProper l }
    ensures { IsTrue result ↔ ((pos 0 <ℤ turn k.p k.q l.p) × (pos 0 <ℤ turn k.p k.q l.q)) }
{
    is_left(k.p, k.q, l.p) && is_left(k.p, k.q, l.q)
}

// Whether they are strictly right of it.
fn are_right(k: LineItem, l: LineItem) -> bool
    requires first { IsProper k }
    requires second { IsProper l }
    ensures { IsTrue result ↔ ((turn k.p k.q l.p <ℤ pos 0) × (turn k.p k.q l.q <ℤ pos 0)) }
{
    is_right(k.p, k.q, l.p) && is_right(k.p, k.q, l.q)
}

// Whether the ends of `l` are strictly on one side of `k`.
fn are_beside(k: LineItem, l: LineItem) -> bool
    requires first { IsProper k }
    requires second { IsProper l }
    ensures { IsTrue result ↔ AreBeside k l }
{
    are_left(k, l) || are_right(k, l)
}

// How two lines lie that are parallel.
fn level_meeting(k: LineItem, l: LineItem) -> Meeting
    requires first { IsProper k }
    requires second { IsProper l }
    requires level { slant (line_through k.p k.q) (line_through l.p l.q) ≡ pos 0 }
    ensures { IsMeeting k l result }
{
    if k.mark == l.mark {
        return Meeting::Plain;
    }
    match common_way(k.p, k.q, l.p, l.q) {
        Some(_) => Meeting::Overlapping,
        None => Meeting::Plain,
    }
}

// How two lines lie whose only common place is known.
fn meeting_at(k: LineItem, l: LineItem, s: Place) -> Meeting
    requires first { IsProper k }
    requires second { IsProper l }
    requires meet { IsMeet (line_through k.p k.q) (line_through l.p l.q) s }
    requires only { IsOnlyCommon k l s }
    ensures { IsMeeting k l result }
{
    if s.w != 1 {
        return Meeting::OffGrid;
    }
    Meeting::At {
        point: Pt {
            x: s.x as i64,
            y: s.y as i64,
        },
    }
}

/// How two lines lie to each other.
pub fn meeting_of(k: LineItem, l: LineItem) -> Meeting
    requires first { IsProper k }
    requires second { IsProper l }
    ensures { IsMeeting k l result }
{
    if k.mark == l.mark && are_in_line(k, l) {
        return Meeting::Plain;
    }
    if is_above(k, l) || is_above(l, k) {
        return Meeting::Plain;
    }
    if are_beside(k, l) {
        return Meeting::Plain;
    }
    if are_beside(l, k) {
        return Meeting::Plain;
    }
    if k.mark == l.mark && share_end(k, l) {
        return Meeting::Plain;
    }
    match meet(through(k.p, k.q), through(l.p, l.q)) {
        Some(s) => meeting_at(k, l, s),
        None => level_meeting(k, l),
    }
}
