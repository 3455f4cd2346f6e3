//! The case of a folded crease pattern, on which everything rests that deduces.
ghost use Rattle.std.specs.Prelude.{◌≡◌, ◌<◌, ◌↔◌, length, IsTrue, IfSome, IsSome};
ghost use Rattle.ff_types.specs.CaseFields.{is_crease, edge_of as crease_edge, AreCaseFields, IsNextStart, AreStarts};

use crate::{Cite, Pairs};
use ff_tables::{Given, GivenBy, Items, System};

/// A system of constraints with one cite per constraint and one pair of faces per variable, and the facts of its
/// creases, in order of the creases' numbers.
#[derive(Drop)]
pub struct Case {
    pub system: System,
    pub cites: Items<Cite>,
    pub pairs: Pairs,
    pub starts: Items<Given>,
    pub ghost valid: { AreCaseFields system cites pairs starts },
}

fn by_crease(by: GivenBy) -> bool
    ensures { result ≡ is_crease by }
{
    match by {
        GivenBy::Crease(_) => true,
        GivenBy::Pin => false,
    }
}

fn edge_of(by: GivenBy) -> u32
    ensures { result ≡ crease_edge by }
{
    match by {
        GivenBy::Crease(e) => e,
        GivenBy::Pin => 0,
    }
}

// Whether the start at the place is of a variable, by a crease, and comes after the one before.
fn is_next_start(vars: u32, starts: &[Given], n: usize) -> bool
    requires { n < length starts.now }
    ensures { IsTrue result ↔ IsNextStart vars starts.now n }
{
    let start = starts[n];
    if vars <= start.var || !by_crease(start.by) {
        return false;
    }
    n == 0 || edge_of(starts[n - 1].by) < edge_of(start.by)
}

fn are_starts(vars: u32, starts: &[Given]) -> bool
    ensures { IsTrue result ↔ AreStarts vars starts.now }
{
    for n in 0..starts.len() {
        if !is_next_start(vars, starts, n) {
            return false;
        }
    }
    true
}

fn are_fields(system: &System, cites: &Items<Cite>, pairs: &Pairs, starts: &Items<Given>) -> bool
    ensures { IsTrue result ↔ AreCaseFields system.now cites.now pairs.now starts.now }
{
    if cites.as_slice().len() != system.constraints.as_slice().len() {
        return false;
    }
    if pairs.count() != system.vars as usize {
        return false;
    }
    are_starts(system.vars, starts.as_slice())
}

/// The case of these parts. None exactly where there aren't as many cites as constraints and as many pairs as variables, or
/// a start isn't of a variable and by a crease with a greater number than the one before. It takes no memory.
pub fn case_of(
    system: System,
    cites: Items<Cite>,
    pairs: Pairs,
    starts: Items<Given>,
) -> Option<Case>
    ensures system { IfSome result (λ case. case.system ≡ system) }
    ensures cites { IfSome result (λ case. case.cites ≡ cites) }
    ensures pairs { IfSome result (λ case. case.pairs ≡ pairs) }
    ensures starts { IfSome result (λ case. case.starts ≡ starts) }
    ensures exact { IsSome result ↔ AreCaseFields system cites pairs starts }
{
    if !are_fields(&system, &cites, &pairs, &starts) {
        return None;
    }
    Some(Case {
        system,
        cites,
        pairs,
        starts,
    })
}
