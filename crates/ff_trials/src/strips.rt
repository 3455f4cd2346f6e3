//! Strips of panels of one width, folded at each crease and stacked over one place.
use crate::systems::{Shape, case};
use ff_tables::{Kind, NoMemory};
use ff_types::Case;
use std::alloc::Global;

// All pairs of panels, in order.
fn pairs(alloc: Global, panels: u32) -> Result<Vec<(u32, u32)>, NoMemory> {
    let mut list = Vec::new(alloc);
    for f in 0..panels {
        for g in 0..panels {
            if f < g {
                list.push((f, g))?;
            }
        }
    }
    Ok(list)
}

// The variable of the pair, at its value.
fn term(pairs: &[(u32, u32)], f: u32, g: u32) -> (u32, bool) {
    for k in 0..pairs.len() {
        if pairs[k] == (f, g) {
            return (u32::try_from(k).unwrap_or(0), false);
        }
    }
    (0, false)
}

// Three panels f, g, h, and the panels of two creases on one side: a, b of the first and c, d of the second.
fn shapes(
    alloc: Global,
    pairs: &[(u32, u32)],
    panels: u32,
) -> Result<Vec<(Kind, Vec<(u32, bool)>)>, NoMemory> {
    let mut list = Vec::new(alloc);
    for &(f, g) in pairs {
        for h in 0..panels {
            if g < h {
                let terms = [term(pairs, f, g), term(pairs, f, h), term(pairs, g, h)];
                list.push((Kind::Transitivity, Vec::from_slice(alloc, &terms)?))?;
            }
        }
    }
    for &(a, c) in pairs {
        // The crease a joins the panels a and a + 1.
        let (b, d) = (a.saturating_add(1), c.saturating_add(1));
        if a % 2 == c % 2 && d < panels {
            let terms = [
                term(pairs, a, b),
                term(pairs, a, c),
                term(pairs, a, d),
                term(pairs, b, c),
                term(pairs, b, d),
                term(pairs, c, d),
            ];
            list.push((Kind::TacoTaco, Vec::from_slice(alloc, &terms)?))?;
        }
    }
    Ok(list)
}

/// The case of a strip of this many panels: transitivity of each three, and taco-taco of each two creases on one side.
pub fn strip(alloc: Global, panels: u32) -> Result<Option<Case>, NoMemory> {
    let pairs = pairs(alloc, panels)?;
    let list = shapes(alloc, pairs.as_slice(), panels)?;
    let mut views: Vec<Shape> = Vec::new(alloc);
    for shape in list.as_slice() {
        views.push((shape.0, shape.1.as_slice()))?;
    }
    case(alloc, pairs, views.as_slice())
}
