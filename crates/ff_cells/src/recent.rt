//! Which sets of faces have a cell.
ghost use Rattle.std.specs.Prelude.{◌≡◌, IsTrue, is_some};
ghost use Rattle.ff_cells.specs.Merged.{has_set, AreNumbered};

use crate::Cell;
use crate::found::Found;

/// How many places are remembered.
pub const SLOTS: usize = 1 << 14;

/// The key of the set that has also the face, or has it no more, where `key` is the key of a set. It doesn't rest on the
/// order in which faces come and go.
pub fn changed_key(key: u32, face: u32) -> u32 {
    let mixed = (face ^ 0x5bd1_e995).wrapping_mul(0x9e37_79b1);
    key ^ (mixed ^ (mixed >> 15)).wrapping_mul(0x85eb_ca6b)
}

// A number made from the key, below `SLOTS`.
fn slot_of(key: u32) -> usize {
    (key >> 18) as usize
}

// Lets the place be looked at first for the sets with this key.
pub fn remember(recent: &mut [usize], key: u32, place: usize) {
    let slot = slot_of(key);
    if slot < recent.len() {
        recent[slot] = place;
    }
}

// The place to look at first for the sets with this key.
fn remembered(recent: &[usize], key: u32) -> usize {
    let slot = slot_of(key);
    if slot < recent.len() { recent[slot] } else { 0 }
}

// Whether the cell at the place has these faces.
fn has_faces(cells: &[Cell], place: usize, faces: &[u32]) -> bool
    ensures { IsTrue result → IsTrue (has_set cells.now faces.now) }
{
    place < cells.len() && cells[place].faces.as_slice() == faces
}

// The place of the cell with these faces, if there is one. Only time rests on the key.
pub fn looked_up(found: &mut Found, faces: &Vec<u32>, key: u32) -> Option<usize>
    ensures cells { found.new.cells ≡ found.old.cells }
    ensures places { found.new.places ≡ found.old.places }
    ensures count { found.new.count ≡ found.old.count }
    ensures entries { found.new.entries ≡ found.old.entries }
    ensures known { AreNumbered found.old.cells.items found.old.places
        → is_some result ≡ has_set found.old.cells.items faces.now.items }
{
    let first = remembered(found.recent.as_slice(), key);
    if has_faces(found.cells.as_slice(), first, faces.as_slice()) {
        return Some(first);
    }
    let place = *found.places.get(faces)?;
    remember(found.recent.as_mut_slice(), key, place);
    Some(place)
}
