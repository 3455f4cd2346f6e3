//! From a crease pattern to its faces, its folding and its case.
ghost use Rattle.std.specs.Prelude.{◌≤◌, IfOk, IfErr, MatchResult, length};
ghost use Rattle.ff_types.specs.Cites.{AreSmall};
ghost use Rattle.ff_types.specs.FoldedPatterns.{IsFoldedPattern};
ghost use Rattle.ff_planar.specs.Given.{AreGiven};
ghost use Rattle.ff_problem.specs.Problems.{IsProblem, WhyNoProblem};

use crate::cases::folded_case;
use crate::problems::Problem;
use ff_planar::faces;
use ff_reflect::fold;
use ff_types::{Case, Faces, Folded, No, Pattern};
use std::alloc::Global;

// The faces of the pattern.
fn faces_of(alloc: Global, pattern: &Pattern) -> Result<Faces, No>
    requires { 1 ≤ length pattern.now.points }
    ensures made { IfOk result (AreGiven pattern.now.points pattern.now.edges pattern.now.marks) }
    ensures refused { IfErr result (WhyNoProblem pattern.now) }
{
    faces(alloc, pattern)
}

// Their folding.
fn folding_of(alloc: Global, pattern: &Pattern, faces: &Faces) -> Result<Folded, No>
    requires { AreGiven pattern.now.points pattern.now.edges pattern.now.marks faces.now }
    ensures made { IfOk result (IsFoldedPattern pattern.now faces.now) }
    ensures refused { IfErr result (WhyNoProblem pattern.now) }
{
    fold(alloc, pattern, faces)
}

// The case of the folded sheet.
fn case_of_folded(
    alloc: Global,
    pattern: &Pattern,
    faces: &Faces,
    folded: &Folded,
) -> Result<Case, No>
    requires { IsFoldedPattern pattern.now faces.now folded.now }
    ensures made { IfOk result (IsProblem pattern.now faces.now folded.now) }
    ensures small { IfOk result (λ case. AreSmall case.cites) }
    ensures refused { IfErr result (WhyNoProblem pattern.now) }
{
    folded_case(alloc, pattern, faces, folded)
}

/// The faces of a crease pattern with at least one vertex, their folding at the least scale, and the case of the folded
/// sheet: an assignment meets its constraints exactly where its pairs are a geometric stacking. The places of its cites
/// are so small that their side of a line may be asked.
///
/// Refused exactly where the pattern is no drawing with at most 2048 faces, its faces have no folding with coordinates
/// below `POINT_SIZE`, or the folded sheet has more than 2^20 slab cells, 2^24 entries, 2^18 pairs or 2^22 constraints; by the
/// first that holds.
pub fn problem(alloc: Global, pattern: &Pattern) -> Result<Problem, No>
    requires { 1 ≤ length pattern.now.points }
    ensures is { MatchResult result (λ p. IsProblem pattern.now p.faces p.folded p.case) (WhyNoProblem pattern.now) }
    ensures small { IfOk result (λ p. AreSmall p.case.cites) }
{
    let faces = faces_of(alloc, pattern)?;
    let folded = folding_of(alloc, pattern, &faces)?;
    let case = case_of_folded(alloc, pattern, &faces, &folded)?;
    Ok(Problem {
        faces,
        folded,
        case,
    })
}
