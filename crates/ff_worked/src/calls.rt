//! What a crease pattern comes to, call by call.
ghost use Rattle.std.specs.Prelude.{◌≤◌, length, IfOk};
ghost use Rattle.std.specs.List.{All};
ghost use Rattle.ff_types.specs.FoldedPatterns.{IsFoldedPattern};
ghost use Rattle.ff_planar.specs.Given.{AreGiven};
ghost use Rattle.ff_cells.specs.FaceSets.{IsFaceList};

use ff_cells::{Cell, cells};
use ff_edges::{EdgeFace, EdgePair, edge_faces, edge_pairs};
use ff_pairs::pairs;
use ff_planar::faces;
use ff_problem::Problem;
use ff_read::read_fold;
use ff_reflect::fold;
use ff_tables::Items;
use ff_types::{Faces, Folded, Key, MOST_BYTES, No, Pairs, Pattern, Refusal};
use std::alloc::Global;

// The pattern that the text spells.
fn pattern_of(alloc: Global, text: &str) -> Result<Pattern, No>
    ensures { IfOk result (λ p. 1 ≤ length p.points) }
{
    if text.len() > MOST_BYTES {
        return Err(No::Refused(Refusal::TooLong));
    }
    let pattern = read_fold(alloc, text.as_bytes())?;
    if pattern.points.as_slice().is_empty() {
        return Err(No::Refused(Refusal::BadKey {
            key: Key::VerticesCoords,
        }));
    }
    Ok(pattern)
}

fn faces_of(alloc: Global, pattern: &Pattern) -> Result<Faces, No>
    requires { 1 ≤ length pattern.now.points }
    ensures { IfOk result (AreGiven pattern.now.points pattern.now.edges pattern.now.marks) }
{
    faces(alloc, pattern)
}

fn folding_of(alloc: Global, pattern: &Pattern, faces: &Faces) -> Result<Folded, No>
    requires { AreGiven pattern.now.points pattern.now.edges pattern.now.marks faces.now }
    ensures { IfOk result (IsFoldedPattern pattern.now faces.now) }
{
    fold(alloc, pattern, faces)
}

/// The folding of the pattern that the text spells.
pub fn folded(alloc: Global, text: &str) -> Result<Folded, No> {
    let pattern = pattern_of(alloc, text)?;
    let faces = faces_of(alloc, &pattern)?;
    folding_of(alloc, &pattern, &faces)
}

/// The faces, the folding and the layers of a sheet.
#[derive(Drop)]
pub struct Layers {
    pub faces: Faces,
    pub folded: Folded,
    pub cells: Items<Cell>,
    pub pairs: Pairs,
    pub edge_pairs: Items<EdgePair>,
    pub edge_faces: Items<EdgeFace>,
}

fn cells_of(
    alloc: Global,
    pattern: &Pattern,
    faces: &Faces,
    folded: &Folded,
) -> Result<Items<Cell>, No>
    requires { IsFoldedPattern pattern.now faces.now folded.now }
    ensures { IfOk result (All IsFaceList) }
{
    let _ = pattern;
    cells(alloc, faces, folded)
}

fn layers_of(alloc: Global, pattern: &Pattern, faces: Faces, folded: Folded) -> Result<Layers, No>
    requires { IsFoldedPattern pattern.now faces folded }
{
    let cells = cells_of(alloc, pattern, &faces, &folded)?;
    let pairs = pairs(alloc, &cells)?;
    let edge_pairs = edge_pairs(alloc, pattern, &faces, &folded)?;
    let edge_faces = edge_faces(alloc, pattern, &faces, &folded)?;
    Ok(Layers {
        faces,
        folded,
        cells,
        pairs,
        edge_pairs,
        edge_faces,
    })
}

/// The faces, the folding and the layers of the pattern that the text spells.
pub fn layered(alloc: Global, text: &str) -> Result<Layers, No> {
    let pattern = pattern_of(alloc, text)?;
    let faces = faces_of(alloc, &pattern)?;
    let folded = folding_of(alloc, &pattern, &faces)?;
    layers_of(alloc, &pattern, faces, folded)
}

/// What the pattern that the text spells comes to.
pub fn problem(alloc: Global, text: &str) -> Result<Problem, No> {
    let pattern = pattern_of(alloc, text)?;
    ff_problem::problem(alloc, &pattern)
}
