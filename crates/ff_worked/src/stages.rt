//! What a pattern comes to, call by call, as a text.
use crate::calls::{Layers, folded, layered, problem};
use ff_cells::Cell;
use ff_edges::{EdgeFace, EdgePair};
use ff_types::{Case, Cite, Folded, No, Pairs, Refusal, What};
use ff_whole::Place;
use std::alloc::{AllocError, Global};

// More cites than these are counted and not written.
const MOST_CITES: usize = 100;

// The scale, `+` or `-` for each face that is up or down, and each point.
fn write_folding(text: &mut String, folded: &Folded) -> Result<(), AllocError> {
    write!(text, "scale {} ", folded.scale)?;
    for &up in folded.up.as_slice() {
        text.push(if up { '+' } else { '-' })?;
    }
    for point in folded.points.as_slice() {
        write!(text, " {},{}", point.x, point.y)?;
    }
    text.push('\n')
}

// The faces of each cell.
fn write_cells(text: &mut String, cells: &[Cell]) -> Result<(), AllocError> {
    for cell in cells {
        text.push_str("cell")?;
        for face in cell.faces.as_slice() {
            write!(text, " {face}")?;
        }
        text.push('\n')?;
    }
    Ok(())
}

// The pairs.
fn write_pairs(text: &mut String, pairs: &Pairs) -> Result<(), AllocError> {
    for n in 0..pairs.count() as u32 {
        let (f, g) = pairs.faces(n);
        write!(text, "pair {f} {g}\n")?;
    }
    Ok(())
}

// The pairs of edges with the ends of their segments.
fn write_edge_pairs(text: &mut String, list: &[EdgePair]) -> Result<(), AllocError> {
    for pair in list {
        write!(text, "edges {} {} at", pair.e, pair.e2)?;
        write!(text, " {},{}", pair.p.x, pair.p.y)?;
        write!(text, " {},{}\n", pair.q.x, pair.q.y)?;
    }
    Ok(())
}

fn write_place(text: &mut String, place: &Place) -> Result<(), AllocError> {
    write!(text, " {},{},{}", place.x, place.y, place.w)
}

// The edges inside faces with the ends of their parts.
fn write_edge_faces(text: &mut String, list: &[EdgeFace]) -> Result<(), AllocError> {
    for part in list {
        write!(text, "edge {} in {} at", part.e, part.face)?;
        write_place(text, &part.at[0])?;
        write_place(text, &part.at[1])?;
        text.push('\n')?;
    }
    Ok(())
}

// The lists of edges, behind all else.
fn write_edges(text: &mut String, layers: &Layers) -> Result<(), AllocError> {
    write_edge_pairs(text, layers.edge_pairs.as_slice())?;
    write_edge_faces(text, layers.edge_faces.as_slice())
}

// What the constraint rests on, without its places.
fn write_cite(text: &mut String, cite: &Cite) -> Result<(), AllocError> {
    match *cite {
        Cite::Transitivity { f, g, h, .. } => write!(text, "transitivity {f} {g} {h}\n"),
        Cite::TacoTaco { e, e2 } => write!(text, "taco-taco {e} {e2}\n"),
        Cite::TacoFace { e, face, .. } => write!(text, "taco-tortilla {e} face {face}\n"),
        Cite::TacoEdge { e, flat } => write!(text, "taco-tortilla {e} edge {flat}\n"),
        Cite::FlatFace { flat, face, .. } => {
            write!(text, "tortilla-tortilla {flat} face {face}\n")
        }
        Cite::FlatEdge { flat, flat2 } => {
            write!(text, "tortilla-tortilla {flat} edge {flat2}\n")
        }
    }
}

// How many constraints there are of each family.
fn counts_of(cites: &[Cite]) -> [usize; 4] {
    let mut counts = [0usize; 4];
    for cite in cites {
        let family = match cite {
            Cite::Transitivity { .. } => 0,
            Cite::TacoTaco { .. } => 1,
            Cite::TacoFace { .. } | Cite::TacoEdge { .. } => 2,
            Cite::FlatFace { .. } | Cite::FlatEdge { .. } => 3usize,
        };
        counts[family] = counts[family].saturating_add(1);
    }
    counts
}

// What the constraints rest on, where they aren't many.
fn write_cites(text: &mut String, cites: &[Cite]) -> Result<(), AllocError> {
    if cites.len() <= MOST_CITES {
        for cite in cites {
            write_cite(text, cite)?;
        }
    }
    Ok(())
}

// How many pairs and constraints there are.
fn write_counts(text: &mut String, case: &Case) -> Result<(), AllocError> {
    let cites = case.cites.as_slice();
    let counts = counts_of(cites);
    write!(
        text,
        "pairs {} constraints {}",
        case.pairs.count(),
        case.system.constraints.as_slice().len()
    )?;
    write!(
        text,
        " families {} {} {} {}\n",
        counts[0], counts[1], counts[2], counts[3]
    )
}

// Why there is nothing.
fn write_no(text: &mut String, no: No) -> Result<(), AllocError> {
    match no {
        No::Refused(Refusal::TooMany { what, limit }) => {
            let name = match what {
                What::Pairs => "pairs",
                What::Constraints => "constraints",
                What::Cells => "cells",
                What::Entries => "entries",
                _ => "others",
            };
            write!(text, "too many {name} {limit}\n")
        }
        No::Refused(_) => text.push_str("refused\n"),
        No::NoMemory => text.push_str("no memory\n"),
    }
}

// The counts, the cells, the pairs, the constraints, and the lists of edges.
fn write_rest(text: &mut String, layers: &Layers, case: &Case) -> Result<(), AllocError> {
    write_counts(text, case)?;
    write_cells(text, layers.cells.as_slice())?;
    write_pairs(text, &layers.pairs)?;
    write_cites(text, case.cites.as_slice())?;
    write_edges(text, layers)
}

/// The folding of the pattern that the text spells, its cells, its pairs, its constraints, and its lists of edges; or what there is
/// too much of.
pub fn stages(alloc: Global, input: &str) -> Result<String, AllocError> {
    let mut text = String::new(alloc);
    match folded(alloc, input) {
        Ok(folded) => write_folding(&mut text, &folded)?,
        Err(no) => write_no(&mut text, no)?,
    }
    match layered(alloc, input) {
        Ok(layers) => match problem(alloc, input) {
            Ok(found) => write_rest(&mut text, &layers, &found.case)?,
            Err(no) => write_no(&mut text, no)?,
        },
        Err(no) => write_no(&mut text, no)?,
    }
    Ok(text)
}
