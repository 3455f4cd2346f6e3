//! The case of an accordion of panels: all faces over one place, transitivity of each three, and a
//! taco-taco of each two creases on one side.
use anyhow::Result;
use arrayvec::ArrayVec;
use ff_tables::{Constraint, Given, GivenBy, Items, Kind, Order, Term, Terms, system_of};
use ff_types::{Case, Cite, case_of, pairs_of};
use std::alloc::Global;

// The number of the pair f < g of n faces.
fn number(n: u32, f: u32, g: u32) -> u32 {
    f.wrapping_mul(n)
        .wrapping_sub(f.wrapping_mul(f.wrapping_add(1)) / 2)
        .wrapping_add(g.wrapping_sub(f).wrapping_sub(1))
}

fn constraint(n: u32, kind: Kind, pairs: &[(u32, u32)]) -> Constraint {
    let mut list: ArrayVec<Term, 6> = ArrayVec::new();
    for &(f, g) in pairs {
        let _ = list.try_push(Term {
            var: number(n, f, g),
            flipped: false,
        });
    }
    Constraint {
        kind,
        terms: Terms::of(list),
    }
}

fn put_threes(list: &mut Vec<Constraint>, n: u32) -> Result<()> {
    for f in 0..n {
        for g in f + 1..n {
            for h in g + 1..n {
                list.push(constraint(n, Kind::Transitivity, &[(f, g), (f, h), (g, h)]))?;
            }
        }
    }
    Ok(())
}

fn put_tacos(list: &mut Vec<Constraint>, n: u32) -> Result<()> {
    for i in 1..n {
        for j in i + 1..n {
            if (j - i) % 2 == 0 {
                let (a, b, c, d) = (i - 1, i, j - 1, j);
                list.push(constraint(
                    n,
                    Kind::TacoTaco,
                    &[(a, b), (a, c), (a, d), (b, c), (b, d), (c, d)],
                ))?;
            }
        }
    }
    Ok(())
}

fn pairs(alloc: Global, n: u32) -> Result<Vec<(u32, u32)>> {
    let mut list = Vec::new(alloc);
    for f in 0..n {
        for g in f + 1..n {
            list.push((f, g))?;
        }
    }
    Ok(list)
}

// As many cites, all alike.
fn cites(alloc: Global, count: usize) -> Result<Items<Cite>> {
    let mut list = Vec::new(alloc);
    for _ in 0..count {
        list.push(Cite::TacoEdge { e: 0, flat: 0 })?;
    }
    Ok(Items::of(list))
}

/// Each face below the next one.
pub fn givens(alloc: Global, n: u32) -> Result<Items<Given>> {
    let mut list = Vec::new(alloc);
    for i in 1..n {
        list.push(Given {
            var: number(n, i - 1, i),
            value: Order::Below,
            by: GivenBy::Crease(i),
        })?;
    }
    Ok(Items::of(list))
}

/// The case of so many panels, with no starts and with transitivity first. The cites are alike.
pub fn case(alloc: Global, n: u32) -> Result<Option<Case>> {
    let pairs = pairs(alloc, n)?;
    let mut constraints = Vec::new(alloc);
    put_threes(&mut constraints, n)?;
    put_tacos(&mut constraints, n)?;
    let cites = cites(alloc, constraints.len())?;
    let starts = Items::of(Vec::new(alloc));
    let system = system_of(
        n.wrapping_mul(n.wrapping_sub(1)) / 2,
        Items::of(constraints),
    );
    match (system, pairs_of(Items::of(pairs))) {
        (Some(system), Some(pairs)) => Ok(case_of(system, cites, pairs, starts)),
        _ => Ok(None),
    }
}
