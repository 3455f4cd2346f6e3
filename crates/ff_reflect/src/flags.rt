//! Which faces lie with their first side up, by the edges over which they were first met.
ghost use Rattle.std.specs.Prelude.{◌≡◌, ◌↔◌, ◌<◌, length, slice_set, IsTrue, [], ◌∷◌, IfOk, MatchOption};
ghost use Rattle.ff_types.specs.Foldings.{is_folded as folds, FitFlags};
ghost use Rattle.ff_types.specs.Placing.{Breaks, IsFirstBroken};
ghost use Rattle.ff_reflect.specs.Trees.{Grows, IsBelow, AreBelow};
ghost use Rattle.ff_reflect.specs.Walked.{meeting_of, met_of};
ghost use Rattle.ff_reflect.specs.Flags.{flag_across, AreTreeFlags, NoneBroken};

use crate::walk::Meeting;
use ff_tables::NoMemory;
use ff_types::Mark;
use std::alloc::Global;

fn is_folded(mark: Mark) -> bool
    ensures { result ≡ folds mark }
{
    match mark {
        Mark::M | Mark::V | Mark::U => true,
        Mark::B | Mark::F => false,
    }
}

// Gives the face across its flag.
fn turn(up: &mut Vec<bool>, marks: &[Mark], m: Meeting)
    requires { IsBelow (length up.old.items) (length marks.now) (meeting_of m) }
    ensures { up.new.items ≡ slice_set up.old.items m.across (flag_across marks.now up.old.items (meeting_of m)) }
{
    let flag = up[m.face as usize] != is_folded(marks[m.edge as usize]);
    up[m.across as usize] = flag;
}

/// The flag of each face: face 0 is up, and every other face lies as the face from which it was first met where
/// their edge is flat, and the other way round where it is folded.
pub(crate) fn flags_of(
    alloc: Global,
    faces: usize,
    marks: &[Mark],
    tree: &[Meeting],
) -> Result<Vec<bool>, NoMemory>
    requires grows { Grows (0 ∷ []) (met_of tree.now) }
    requires below { AreBelow faces (length marks.now) (met_of tree.now) }
    ensures { IfOk result (λ up. AreTreeFlags faces marks.now (met_of tree.now) up.items) }
{
    let mut up = vec![in alloc; true; faces]?;
    for i in 0..tree.len() {
        turn(&mut up, marks, tree[i]);
    }
    Ok(up)
}

// Whether the flags of the two faces of an edge fit its mark.
fn fits(mark: Mark, a: bool, b: bool) -> bool
    ensures { IsTrue result ↔ FitFlags mark a b }
{
    match mark {
        Mark::B => true,
        Mark::F => a == b,
        Mark::M | Mark::V | Mark::U => a != b,
    }
}

fn is_broken(marks: &[Mark], up: &[bool], m: Meeting) -> bool
    requires { IsBelow (length up.now) (length marks.now) (meeting_of m) }
    ensures { IsTrue result ↔ Breaks marks.now up.now (meeting_of m) }
{
    !fits(
        marks[m.edge as usize],
        up[m.face as usize],
        up[m.across as usize],
    )
}

/// The edge of the first meeting whose faces' flags don't fit its edge's mark.
pub(crate) fn first_broken(
    faces: usize,
    marks: &[Mark],
    up: &[bool],
    met: &[Meeting],
) -> Option<u32>
    requires below { AreBelow faces (length marks.now) (met_of met.now) }
    requires flags { length up.now ≡ faces }
    ensures { MatchOption result (NoneBroken (met_of met.now) marks.now up.now) (λ e. IsFirstBroken (met_of met.now) marks.now up.now e) }
{
    let _ = faces;
    for i in 0..met.len() {
        if is_broken(marks, up, met[i]) {
            return Some(met[i].edge);
        }
    }
    None
}
