//! The folded sheet of a crease pattern, without its case.
ghost use Rattle.std.specs.Prelude.{◌≤◌, IfErr, IfOk, MatchResult, length};
ghost use Rattle.ff_types.specs.FoldedPatterns.{IsFoldedPattern};
ghost use Rattle.ff_planar.specs.Given.{AreGiven};
ghost use Rattle.ff_judged.specs.Sheets.{WhyNotFolded};

use ff_planar::faces;
use ff_reflect::fold;
use ff_types::{Faces, Folded, No, Pattern};
use std::alloc::Global;

// The faces of a crease pattern and their folding.
#[derive(Drop)]
pub(crate) struct FoldedSheet {
    pub(crate) faces: Faces,
    pub(crate) folded: Folded,
}

// The faces of the pattern.
fn faces_of(alloc: Global, pattern: &Pattern) -> Result<Faces, No>
    requires { 1 ≤ length pattern.now.points }
    ensures made { IfOk result (AreGiven pattern.now.points pattern.now.edges pattern.now.marks) }
    ensures refused { IfErr result (WhyNotFolded pattern.now) }
{
    faces(alloc, pattern)
}

// Their folding.
fn folding_of(alloc: Global, pattern: &Pattern, faces: &Faces) -> Result<Folded, No>
    requires { AreGiven pattern.now.points pattern.now.edges pattern.now.marks faces.now }
    ensures made { IfOk result (IsFoldedPattern pattern.now faces.now) }
    ensures refused { IfErr result (WhyNotFolded pattern.now) }
{
    fold(alloc, pattern, faces)
}

// The folded sheet of a crease pattern with at least one vertex. No cell and no constraint is made.
pub(crate) fn folded_sheet(alloc: Global, pattern: &Pattern) -> Result<FoldedSheet, No>
    requires { 1 ≤ length pattern.now.points }
    ensures { MatchResult result (λ s. IsFoldedPattern pattern.now s.faces s.folded) (WhyNotFolded pattern.now) }
{
    let faces = faces_of(alloc, pattern)?;
    let folded = folding_of(alloc, pattern, &faces)?;
    Ok(FoldedSheet { faces, folded })
}
