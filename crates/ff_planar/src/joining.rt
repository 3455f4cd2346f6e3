//! Whether the faces hang together.
ghost use Rattle.std.specs.Prelude.{◌≡◌, ◌<◌, ◌⊎◌, ℕ, length, true, false, Some, IfOk};
ghost use Rattle.ff_types.specs.Sides.{sides_at};
ghost use Rattle.ff_planar.specs.Joining.{Stepped, PassedTo, AreReached, AreBelow, FirstLost, reached_at, AreLinked};

use ff_tables::NoMemory;
use ff_types::EdgeSides;
use std::alloc::Global;

// Reaches the face on one side of an edge where that on the other has been, and tells whether it was new.
fn step(reached: &mut [bool], sides: EdgeSides) -> bool
    requires left { (f : ℕ) → sides.left ≡ Some f → f < length reached.old }
    requires right { (f : ℕ) → sides.right ≡ Some f → f < length reached.old }
    ensures { Stepped sides.left sides.right reached.old reached.new result }
{
    let Some(f) = sides.left else {
        return false;
    };
    let Some(g) = sides.right else {
        return false;
    };
    let (f, g) = (f as usize, g as usize);
    if reached[f] {
        if reached[g] {
            return false;
        }
        reached[g] = true;
        return true;
    }
    if !reached[g] {
        return false;
    }
    reached[f] = true;
    true
}

// Looks at all edges, and tells whether a face was new.
fn pass(reached: &mut [bool], sides: &[EdgeSides]) -> bool
    requires { AreBelow sides.now (length reached.old) }
    ensures { PassedTo sides.now (length sides.now) reached.old reached.new result }
{
    let mut grown = false;
    for e in 0..sides.len() {
        if step(reached, sides[e]) {
            grown = true;
        }
    }
    grown
}

// Passes over the edges until no face is new.
fn spread(reached: &mut [bool], sides: &[EdgeSides])
    requires below { AreBelow sides.now (length reached.old) }
    requires first { reached_at reached.old 0 ≡ true }
    requires only { (f : ℕ) → reached_at reached.old f ≡ true → AreLinked sides.now 0 f }
    ensures { AreReached sides.now (length reached.old) reached.new }
{
    while pass(reached, sides) {}
}

// The first face that edges don't join to face 0, where none has been reached yet.
fn lost_of(reached: &mut [bool], sides: &[EdgeSides]) -> Option<usize>
    requires some { 0 < length reached.old }
    requires below { AreBelow sides.now (length reached.old) }
    requires none { (f : ℕ) → reached_at reached.old f ≡ false }
    ensures { FirstLost sides.now (length reached.old) result }
{
    reached[0] = true;
    spread(reached, sides);
    for f in 0..reached.len() {
        if !reached[f] {
            return Some(f);
        }
    }
    None
}

/// The first of `count` faces that edges don't join to face 0.
pub fn first_lost(
    alloc: Global,
    count: usize,
    sides: &[EdgeSides],
) -> Result<Option<usize>, NoMemory>
    requires some { 0 < count }
    requires below { AreBelow sides.now count }
    ensures { IfOk result (λ lost. FirstLost sides.now count lost) }
{
    let mut reached = vec![in alloc; false; count]?;
    Ok(lost_of(&mut reached, sides))
}
