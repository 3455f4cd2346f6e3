//! The system of an accordion of panels: all faces over one place, transitivity of each three, and a
//! taco-taco of each two creases on one side.
use anyhow::Result;
use arrayvec::ArrayVec;
use ff_tables::{Constraint, Given, GivenBy, Items, Kind, Order, Term, Terms};
use std::alloc::Global;

// The number of the pair f < g of n faces.
fn number(n: u32, f: u32, g: u32) -> u32 {
    f.wrapping_mul(n)
        .wrapping_sub(f.wrapping_mul(f.wrapping_add(1)) / 2)
        .wrapping_add(g.wrapping_sub(f).wrapping_sub(1))
}

fn constraint(n: u32, kind: Kind, pairs: &[(u32, u32)]) -> Constraint {
    let mut list: ArrayVec<Term, 6> = ArrayVec::new();
    for &(f, g) in pairs {
        let _ = list.try_push(Term {
            var: number(n, f, g),
            flipped: false,
        });
    }
    Constraint {
        kind,
        terms: Terms::of(list),
    }
}

fn list(alloc: Global, n: u32) -> Result<Vec<Constraint>> {
    let mut list = Vec::new(alloc);
    for f in 0..n {
        for g in f + 1..n {
            for h in g + 1..n {
                list.push(constraint(n, Kind::Transitivity, &[(f, g), (f, h), (g, h)]))?;
            }
        }
    }
    for i in 1..n {
        for j in i + 1..n {
            if (j - i) % 2 == 0 {
                let (a, b, c, d) = (i - 1, i, j - 1, j);
                list.push(constraint(
                    n,
                    Kind::TacoTaco,
                    &[(a, b), (a, c), (a, d), (b, c), (b, d), (c, d)],
                ))?;
            }
        }
    }
    Ok(list)
}

/// Each face below the next one.
pub fn givens(alloc: Global, n: u32) -> Result<Items<Given>> {
    let mut list = Vec::new(alloc);
    for i in 1..n {
        list.push(Given {
            var: number(n, i - 1, i),
            value: Order::Below,
            by: GivenBy::Crease(i),
        })?;
    }
    Ok(Items::of(list))
}

/// How many pairs n faces have.
pub fn pairs(n: u32) -> u32 {
    n.wrapping_mul(n.wrapping_sub(1)) / 2
}

// Another order, the same each time.
fn shuffle(list: &mut [Constraint]) {
    let mut state = 1u64;
    for i in 0..list.len() {
        state = state
            .wrapping_mul(6364136223846793005)
            .wrapping_add(1442695040888963407);
        let j = (state >> 20) as usize % list.len();
        list.swap(i, j);
    }
}

/// The constraints, transitivity first.
pub fn constraints(alloc: Global, n: u32) -> Result<Items<Constraint>> {
    Ok(Items::of(list(alloc, n)?))
}

/// The same constraints in another order.
pub fn shuffled(alloc: Global, n: u32) -> Result<Items<Constraint>> {
    let mut list = list(alloc, n)?;
    shuffle(list.as_mut_slice());
    Ok(Items::of(list))
}
