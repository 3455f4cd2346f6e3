//! The start of a search.
ghost use Rattle.std.specs.Prelude.{◌≡◌, ℕ, ◌<◌, ◌^◌, IfOk, length};
ghost use Rattle.ff_propagate.specs.Boards.{IsBoardOf};
ghost use Rattle.ff_propagate.specs.Facts.{value_at};
ghost use Rattle.ff_propagate.specs.Parts.{IsPart, AreTouching};
ghost use Rattle.ff_solver.specs.Roots.{IsRoot};
ghost use Rattle.ff_solver.specs.Searches.{StandsAt, Starts};

use crate::copying::{names_of, numbers_to};
use crate::path::Path;
use crate::state::Search;
use ff_propagate::{Facts, Part, Trail, Uses};
use ff_tables::{Items, NoMemory, System};
use ff_types::Case;
use std::alloc::Global;

/// A part's own system at the root of the part's decision tree, and for each of its variables the one of the board that it names.
#[derive(Drop)]
pub(crate) struct Root {
    pub(crate) names: Vec<u32>,
    pub(crate) system: System,
    pub(crate) places: Items<u32>,
    pub(crate) uses: Uses,
    pub(crate) path: Path,
}

/// The root of the part's decision tree. It takes the memory of the whole way down the tree.
pub(crate) fn root_of(
    alloc: Global,
    case: &Case,
    facts: &Facts,
    part: &Part,
) -> Result<Root, NoMemory>
    requires board { IsBoardOf case.now.system.vars case.now.system.constraints facts.now }
    requires part { IsPart case.now.system.vars case.now.system.constraints (value_at facts.now) part.now.vars }
    requires touching { AreTouching case.now.system.constraints part.now.vars part.now.touching }
    requires few { length case.now.system.constraints < 2 ^ 32 }
    ensures { IfOk result (λ root. IsRoot case.now.system.constraints facts.now part.now.vars part.now.touching root.names.items root.system root.places root.uses root.path) }
{
    // Reading it makes its range known, and a part has no more variables.
    let _vars = case.system.vars;
    let own_vars = part.vars.as_slice();
    let mut names = names_of(alloc, facts, own_vars)?;
    let places = numbers_to(alloc, own_vars.len() as u32)?;
    let constraints = names.copy_all(alloc, case.system.constraints.as_slice(), facts, part)?;
    let vars = names.list.len() as u32;
    let uses = Uses::new(alloc, vars, constraints.as_slice())?;
    let trail = Trail::of(alloc, names.values)?;
    let branches = Vec::with_capacity(alloc, vars as usize)?;
    Ok(Root {
        names: names.list,
        system: System {
            vars,
            constraints: Items::of(constraints),
        },
        places: Items::of(places),
        uses,
        path: Path {
            trail,
            branches,
            next: Some(0),
        },
    })
}

/// A search for the solutions of the part, at the root of its decision tree. It takes the memory of the whole search. Its time and
/// memory are those of the part and of the constraints that touch it, however many others there are.
pub fn start(alloc: Global, case: &Case, facts: &Facts, part: &Part) -> Result<Search, NoMemory>
    requires board { IsBoardOf case.now.system.vars case.now.system.constraints facts.now }
    requires part { IsPart case.now.system.vars case.now.system.constraints (value_at facts.now) part.now.vars }
    requires touching { AreTouching case.now.system.constraints part.now.vars part.now.touching }
    requires few { length case.now.system.constraints < 2 ^ 32 }
    ensures stands { IfOk result (λ search. StandsAt case.now.system.constraints (value_at facts.now) search) }
    ensures starts { IfOk result (λ search. Starts part.now.vars search) }
{
    let root = root_of(alloc, case, facts, part)?;
    Ok(Search {
        part: part.copy(alloc)?,
        visited: 0,
        system: root.system,
        places: root.places,
        uses: root.uses,
        path: root.path,
    })
}
