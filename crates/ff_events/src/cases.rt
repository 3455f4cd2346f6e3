//! A strip of three panels.
use arrayvec::ArrayVec;
use ff_tables::{Constraint, Given, GivenBy, Items, Kind, NoMemory, Order, Term, Terms, system_of};
use ff_types::{Case, Cite, case_of, pairs_of};
use std::alloc::Global;

fn term(list: &mut ArrayVec<Term, 6>, var: u32) {
    let _ = list.try_push(Term {
        var,
        flipped: false,
    });
}

// One face between two others.
fn transitivity() -> Constraint {
    let mut list: ArrayVec<Term, 6> = ArrayVec::new();
    term(&mut list, 0);
    term(&mut list, 1);
    term(&mut list, 2);
    Constraint {
        kind: Kind::Transitivity,
        terms: Terms::of(list),
    }
}

// The facts of two valleys, by their edges.
fn valleys(alloc: Global) -> Result<Vec<Given>, NoMemory> {
    let mut starts = Vec::new(alloc);
    starts.push(Given {
        var: 0,
        value: Order::Below,
        by: GivenBy::Crease(4),
    })?;
    starts.push(Given {
        var: 2,
        value: Order::Above,
        by: GivenBy::Crease(7),
    })?;
    Ok(starts)
}

/// The case of a strip of three panels, with two valleys or with creases of no direction.
pub fn strip(alloc: Global, folded: bool) -> Result<Option<Case>, NoMemory> {
    let mut pairs = Vec::new(alloc);
    pairs.push((0, 1))?;
    pairs.push((0, 2))?;
    pairs.push((1, 2))?;
    let mut constraints = Vec::new(alloc);
    constraints.push(transitivity())?;
    let mut cites = Vec::new(alloc);
    cites.push(Cite::TacoEdge { e: 0, flat: 0 })?;
    let starts = if folded {
        valleys(alloc)?
    } else {
        Vec::new(alloc)
    };
    let system = system_of(3, Items::of(constraints));
    let pairs = pairs_of(Items::of(pairs));
    match (system, pairs) {
        (Some(system), Some(pairs)) => Ok(case_of(
            system,
            Items::of(cites),
            pairs,
            Items::of(starts),
        )),
        _ => Ok(None),
    }
}
