//! Places the faces one after the other.
ghost use Rattle.std.specs.Prelude.{◌≡◌, ℕ, ◌+◌, ◌<◌, [], ◌∷◌, length, true, take, slice_index, slice_set, MatchResult};
ghost use Rattle.ff_types.specs.FoldRefusals.{placings, RefusesFolding};
ghost use Rattle.ff_reflect.specs.Puts.{IsNothing, IsLaid, IsSound, IsHinge, Moves, StopsCarrying};
ghost use Rattle.ff_reflect.specs.Sheets.{paper_of};
ghost use Rattle.ff_reflect.specs.Trees.{order_along};
ghost use Rattle.ff_reflect.specs.Walked.{met_of};
ghost use Rattle.ff_reflect.specs.Folding.{WhyNotPlaced};
ghost use Rattle.ff_reflect.specs.Standing.{IsReady, IsStanding};

use crate::image::{Hinge, image_of};
use crate::placed::Placed;
use crate::walk::Meeting;
use ff_types::{EdgeEnds, Faces, No, Pattern, Refusal};
use ff_whole::Pt;
use std::alloc::Global;

impl Placed {
    // Places a vertex of a face that lies over the edge with these ends, which have their places.
    fn carry_one(
        &mut self,
        pattern: &Pattern,
        ends: EdgeEnds,
        up: bool,
        v: u32,
    ) -> Result<(), Refusal>
        requires sound { IsSound (length pattern.now.points) self.old }
        requires hinge { IsHinge pattern.now.points ends }
        requires vertex { v < length pattern.now.points }
        ensures { MatchResult result (λ _. Moves pattern.now.points ends up v self.old self.new) (StopsCarrying pattern.now.points ends up v self.old) }
    {
        if v == ends.a || v == ends.b {
            return Ok(());
        }
        let points = pattern.points.as_slice();
        let hinge = Hinge {
            up,
            p: points[ends.a as usize],
            q: points[ends.b as usize],
            u: self.points[ends.a as usize],
            v: self.points[ends.b as usize],
        };
        self.put(v, image_of(hinge, points[v as usize]))
    }

    // Places the face across the k-th meeting of the tree.
    fn carry(
        &mut self,
        pattern: &Pattern,
        faces: &Faces,
        tree: &[Meeting],
        up: &[bool],
        k: usize,
    ) -> Result<(), Refusal>
        requires ready { IsReady (paper_of pattern.now faces.now) (met_of tree.now) up.now }
        requires within { k < length tree.now }
        requires standing { IsStanding (paper_of pattern.now faces.now) (met_of tree.now) up.now (placings faces.now.rings (order_along (take k (met_of tree.now)))) self.old }
        ensures { MatchResult result (λ _. IsStanding (paper_of pattern.now faces.now) (met_of tree.now) up.now (placings faces.now.rings (order_along (take (k + 1) (met_of tree.now)))) self.new) (RefusesFolding pattern.now.points faces.now.rings pattern.now.edges faces.now.sides faces.now.marks) }
    {
        let m = tree[k];
        let ends = pattern.edges.as_slice()[m.edge as usize];
        let ring = faces.rings.as_slice()[m.across as usize].as_slice();
        for i in 0..ring.len() {
            self.carry_one(pattern, ends, up[m.across as usize], ring[i])?;
        }
        Ok(())
    }
}

impl Placed {
    fn lay_one(&mut self, v: u32, p: Pt)
        requires point { v < length self.old.points.items }
        requires flag { v < length self.old.placed.items }
        ensures scale { self.new.scale ≡ self.old.scale }
        ensures points { self.new.points.items ≡ slice_set self.old.points.items v p }
        ensures placed { self.new.placed.items ≡ slice_set self.old.placed.items v true }
    {
        self.points[v as usize] = p;
        self.placed[v as usize] = true;
    }

    // Face 0 lies still.
    fn lay(&mut self, pattern: &Pattern, ring: &[u32])
        requires nothing { IsNothing (length pattern.now.points) self.old }
        requires ring { (i : ℕ) → i < length ring.now → slice_index ring.now i < length pattern.now.points }
        ensures { IsLaid pattern.now.points ring.now self.new }
    {
        let points = pattern.points.as_slice();
        for i in 0..ring.len() {
            self.lay_one(ring[i], points[ring[i] as usize]);
        }
    }
}

/// All faces, placed along the tree, face 0 first.
pub(crate) fn place(
    alloc: Global,
    pattern: &Pattern,
    faces: &Faces,
    tree: &[Meeting],
    up: &[bool],
) -> Result<Placed, No>
    requires ready { IsReady (paper_of pattern.now faces.now) (met_of tree.now) up.now }
    requires some { 0 < length faces.now.rings }
    ensures { MatchResult result (λ s. IsStanding (paper_of pattern.now faces.now) (met_of tree.now) up.now (placings faces.now.rings (order_along (met_of tree.now))) s) (WhyNotPlaced pattern.now faces.now) }
{
    let mut placed = Placed::new(alloc, pattern.points.as_slice().len())?;
    placed.lay(pattern, faces.rings.as_slice()[0].as_slice());
    for k in 0..tree.len() {
        if let Err(refusal) = placed.carry(pattern, faces, tree, up, k) {
            return Err(No::Refused(refusal));
        }
    }
    Ok(placed)
}
