//! The placing order: from face 0 over the edges of the faces, in the order in which they are met.
ghost use Rattle.std.specs.Prelude.{◌≡◌, ℕ, ◌∷◌, [], ◌++◌, ◌<◌, ◌^◌, length, option_map, slice_index, IfOk};
ghost use Rattle.std.specs.List.{Contains, cons_option};
ghost use Rattle.ff_types.specs.Placing.{other_of as other_face, meeting_at, meetings_of};
ghost use Rattle.ff_types.specs.Faces.{ring_at};
ghost use Rattle.ff_reflect.specs.Sheets.{paper_of, HasFaces};
ghost use Rattle.ff_reflect.specs.Index.{Indexes};
ghost use Rattle.ff_reflect.specs.Trees.{first_meetings, order_along};
ghost use Rattle.ff_reflect.specs.Walked.{meeting_of, met_of, IsWalk, HasMet, IsTree};

use crate::index::{Index, edge_of, index_of};
use ff_tables::NoMemory;
use ff_types::{EdgeSides, Faces, Pattern};
use ff_whole::next_place;
use std::alloc::Global;

/// A face that was taken, an edge of it, and the face across.
#[derive(Clone, Copy, Debug, PartialEq, Eq)]
pub(crate) struct Meeting {
    pub(crate) face: u32,
    pub(crate) edge: u32,
    pub(crate) across: u32,
}

/// All meetings in order, those of them that were the first with their face across, and which faces were seen.
/// Face 0, and then the faces across the first ones, are the placing order.
#[derive(Drop)]
pub(crate) struct Walk {
    pub(crate) met: Vec<Meeting>,
    pub(crate) tree: Vec<Meeting>,
    pub(crate) seen: Vec<bool>,
}

// The other one of an edge's two faces.
fn other_of(face: u32, sides: EdgeSides) -> Option<u32>
    ensures { result ≡ other_face face sides.left sides.right }
{
    match (sides.left, sides.right) {
        (Some(a), Some(b)) => {
            if a == face {
                Some(b)
            } else if b == face {
                Some(a)
            } else {
                None
            }
        }
        _ => None,
    }
}

// The edge of a face from u to v, and the face across it.
fn meeting_over(
    pattern: &Pattern,
    faces: &Faces,
    index: &Index,
    face: u32,
    u: u32,
    v: u32,
) -> Option<Meeting>
    requires faces { HasFaces (paper_of pattern.now faces.now) }
    requires index { Indexes pattern.now.edges (length pattern.now.edges) index.now }
    ensures { option_map meeting_of result ≡ meeting_at face pattern.now.edges faces.now.sides (u, v) }
{
    let Some(edge) = edge_of(pattern.edges.as_slice(), index, u, v) else {
        return None;
    };
    let Some(across) = other_of(face, faces.sides.as_slice()[edge as usize]) else {
        return None;
    };
    Some(Meeting { face, edge, across })
}

impl Walk {
    fn new(alloc: Global, faces: usize) -> Result<Walk, NoMemory>
        requires { 0 < faces }
        ensures { IfOk result (λ w. HasMet faces [] w) }
    {
        let mut seen = vec![in alloc; false; faces]?;
        seen[0] = true;
        Ok(Walk {
            met: Vec::new(alloc),
            tree: Vec::new(alloc),
            seen,
        })
    }

    // One meeting more.
    fn meet(&mut self, faces: usize, m: Meeting) -> Result<(), NoMemory>
        requires walk { IsWalk faces self.old }
        requires face { Contains (order_along (met_of self.old.tree.items)) m.face }
        requires across { m.across < faces }
        ensures { IfOk result (λ _. HasMet faces (met_of self.old.met.items ++ meeting_of m ∷ []) self.new) }
    {
        let _ = faces;
        self.met.push(m)?;
        if !self.seen[m.across as usize] {
            self.seen[m.across as usize] = true;
            self.tree.push(m)?;
        }
        Ok(())
    }
}

impl Walk {
    // What is across the edge of a face from u to v.
    fn step(
        &mut self,
        pattern: &Pattern,
        faces: &Faces,
        index: &Index,
        face: u32,
        u: u32,
        v: u32,
    ) -> Result<(), NoMemory>
        requires faces { HasFaces (paper_of pattern.now faces.now) }
        requires index { Indexes pattern.now.edges (length pattern.now.edges) index.now }
        requires walk { IsWalk (length faces.now.rings) self.old }
        requires face { Contains (order_along (met_of self.old.tree.items)) face }
        ensures { IfOk result (λ _. HasMet (length faces.now.rings) (met_of self.old.met.items ++ cons_option (meeting_at face pattern.now.edges faces.now.sides (u, v)) []) self.new) }
    {
        match meeting_over(pattern, faces, index, face, u, v) {
            Some(m) => self.meet(faces.rings.as_slice().len(), m),
            None => Ok(()),
        }
    }

    // All meetings of a face, in the order of its ring.
    fn take(
        &mut self,
        pattern: &Pattern,
        faces: &Faces,
        index: &Index,
        face: u32,
    ) -> Result<(), NoMemory>
        requires faces { HasFaces (paper_of pattern.now faces.now) }
        requires index { Indexes pattern.now.edges (length pattern.now.edges) index.now }
        requires walk { IsWalk (length faces.now.rings) self.old }
        requires face { Contains (order_along (met_of self.old.tree.items)) face }
        requires there { face < length faces.now.rings }
        ensures { IfOk result (λ _. HasMet (length faces.now.rings) (met_of self.old.met.items ++ meetings_of faces.now.rings pattern.now.edges faces.now.sides face) self.new) }
    {
        let ring = faces.rings.as_slice()[face as usize].as_slice();
        for i in 0..ring.len() {
            let v = ring[next_place(ring.len(), i)];
            self.step(pattern, faces, index, face, ring[i], v)?;
        }
        Ok(())
    }

    // The face at a place of the order.
    fn face_at(&self, place: usize) -> u32
        requires { place < length (order_along (met_of self.now.tree.items)) }
        ensures { result ≡ slice_index (order_along (met_of self.now.tree.items)) place }
    {
        if place == 0 {
            0
        } else {
            self.tree[place - 1].across
        }
    }
}

/// The placing order, with all meetings of its faces.
pub(crate) fn walk_of(alloc: Global, pattern: &Pattern, faces: &Faces) -> Result<Walk, NoMemory>
    requires faces { HasFaces (paper_of pattern.now faces.now) }
    requires some { 0 < length faces.now.rings }
    ensures { IfOk result (λ w. IsTree (paper_of pattern.now faces.now) (met_of w.met.items) (met_of w.tree.items)) }
{
    let index = index_of(alloc, pattern.edges.as_slice())?;
    let mut walk = Walk::new(alloc, faces.rings.as_slice().len())?;
    let mut place = 0;
    while place <= walk.tree.len() {
        let face = walk.face_at(place);
        walk.take(pattern, faces, &index, face)?;
        place += 1;
    }
    Ok(walk)
}
