//! Cases by hand, and what searching their parts comes to.
ghost use Rattle.std.specs.Prelude.{◌≡◌, ℕ, ◌*◌, ◌+◌, ◌<◌, ◌≤◌, ◌^◌, length, slice_get, Some};
ghost use Rattle.ff_propagate.specs.Boards.{IsBoardOf};
ghost use Rattle.ff_propagate.specs.Facts.{value_at};
ghost use Rattle.ff_propagate.specs.Parts.{IsPart, AreTouching};
ghost use Rattle.ff_solver.specs.Searches.{IsSearch};

use arrayvec::ArrayVec;
use ff_parts::parts;
use ff_propagate::{Closed, Facts, Part, close, givens_fit};
use ff_solver::{Advance, Search, start};
use ff_tables::{Constraint, Given, GivenBy, Items, Kind, NoMemory, Order, Term, Terms, system_of};
use ff_types::{Case, Cite, case_of, pairs_of};
use std::alloc::Global;

/// A constraint by its kind and its terms, as (variable, flipped).
pub type Shape<'a> = (Kind, &'a [(u32, bool)]);

fn constraint(shape: &Shape) -> Constraint {
    let mut list: ArrayVec<Term, 6> = ArrayVec::new();
    for &(var, flipped) in shape.1 {
        let _ = list.try_push(Term { var, flipped });
    }
    Constraint {
        kind: shape.0,
        terms: Terms::of(list),
    }
}

/// A case of these pairs and constraints, with no starts. The cites are alike.
pub fn case(
    alloc: Global,
    pairs: Vec<(u32, u32)>,
    shapes: &[Shape],
) -> Result<Option<Case>, NoMemory> {
    let vars = match u32::try_from(pairs.len()) {
        Ok(vars) => vars,
        Err(_) => return Ok(None),
    };
    let mut constraints = Vec::new(alloc);
    let mut cites = Vec::new(alloc);
    for shape in shapes {
        constraints.push(constraint(shape))?;
        cites.push(Cite::TacoEdge { e: 0, flat: 0 })?;
    }
    let starts = Items::of(Vec::new(alloc));
    let system = system_of(vars, Items::of(constraints));
    let pairs = pairs_of(Items::of(pairs));
    match (system, pairs) {
        (Some(system), Some(pairs)) => Ok(case_of(system, Items::of(cites), pairs, starts)),
        _ => Ok(None),
    }
}

fn sign(value: Order) -> char {
    match value {
        Order::Below => '-',
        Order::Above => '+',
    }
}

// What a call answers.
fn answer(text: &mut String, advance: &Advance) -> Result<(), NoMemory> {
    match advance {
        Advance::Found(values) => {
            for &value in values.as_slice() {
                text.push(sign(value))?;
            }
        }
        Advance::Finished => text.push_str("finished")?,
        Advance::Spent => text.push_str("spent")?,
    }
    text.push(' ')?;
    Ok(())
}

/// The turns of the calls to a search: one call for each number, or calls until a budget is used up.
#[derive(Clone, Copy)]
pub enum Turns<'a> {
    Calls(&'a [u64]),
    /// At most 1000 calls, each with what is left of the budget.
    Budget(u64),
}

// The answer to one call, and whether it was a solution.
fn call(
    alloc: Global,
    text: &mut String,
    case: &Case,
    search: &mut Search,
    turns: u64,
) -> Result<bool, NoMemory>
    requires { IsSearch search.old }
    ensures { IsSearch search.new }
{
    if search.used().checked_add(turns).is_none() {
        return Ok(false);
    }
    let advance = search.advance(alloc, case, turns)?;
    answer(text, &advance)?;
    Ok(matches!(advance, Advance::Found(_)))
}

// The answers to calls, each with what is left of the budget.
fn spend(
    alloc: Global,
    text: &mut String,
    case: &Case,
    search: &mut Search,
    budget: u64,
) -> Result<(), NoMemory>
    requires { IsSearch search.old }
    ensures { IsSearch search.new }
{
    for _ in 0..1000u32 {
        let left = budget.saturating_sub(search.used());
        if !call(alloc, text, case, search, left)? {
            return Ok(());
        }
    }
    Ok(())
}

// The answers to calls with these turns.
fn call_all(
    alloc: Global,
    text: &mut String,
    case: &Case,
    search: &mut Search,
    calls: &[u64],
) -> Result<(), NoMemory>
    requires { IsSearch search.old }
    ensures { IsSearch search.new }
{
    for &turns in calls {
        call(alloc, text, case, search, turns)?;
    }
    Ok(())
}

// The answers to calls, and the turns used.
fn searched(
    alloc: Global,
    text: &mut String,
    case: &Case,
    search: &mut Search,
    turns: Turns,
) -> Result<(), NoMemory>
    requires { IsSearch search.old }
{
    match turns {
        Turns::Calls(calls) => call_all(alloc, text, case, search, calls)?,
        Turns::Budget(budget) => spend(alloc, text, case, search, budget)?,
    }
    text.push_str(format!(in alloc; "used {}", search.used())?.as_str())?;
    Ok(())
}

// The part's variables, and what its search comes to.
fn part_text(
    alloc: Global,
    text: &mut String,
    case: &Case,
    facts: &Facts,
    part: &Part,
    turns: Turns,
) -> Result<(), NoMemory>
    requires board { IsBoardOf case.now.system.vars case.now.system.constraints facts.now }
    requires part { IsPart case.now.system.vars case.now.system.constraints (value_at facts.now) part.now.vars }
    requires touching { AreTouching case.now.system.constraints part.now.vars part.now.touching }
    requires few { length case.now.system.constraints < 2 ^ 32 }
{
    text.push_str("part")?;
    for &var in part.vars.as_slice() {
        text.push_str(format!(in alloc; " {var}")?.as_str())?;
    }
    text.push_str(": ")?;
    let mut search = start(alloc, case, facts, part)?;
    searched(alloc, text, case, &mut search, turns)?;
    text.push('\n')?;
    Ok(())
}

// The parts of a board.
fn board_text(
    alloc: Global,
    text: &mut String,
    case: &Case,
    facts: &Facts,
    turns: Turns,
) -> Result<(), NoMemory>
    requires board { IsBoardOf case.now.system.vars case.now.system.constraints facts.now }
    requires few { length case.now.system.constraints < 2 ^ 32 }
{
    let found = parts(alloc, &case.system, facts)?;
    let list = found.as_slice();
    for k in 0..list.len() {
        part_text(alloc, text, case, facts, &list[k], turns)?;
    }
    Ok(())
}

/// The parts that these givens leave, each with the answers to its calls and the turns used.
pub fn tried(
    alloc: Global,
    case: &Case,
    givens: &[(u32, Order)],
    turns: Turns,
) -> Result<String, NoMemory> {
    let mut list = Vec::new(alloc);
    for &(var, value) in givens {
        list.push(Given {
            var,
            value,
            by: GivenBy::Pin,
        })?;
    }
    let given = Items::of(list);
    let mut text = String::new(alloc);
    let few = case.system.constraints.as_slice().len() < 1 << 32
        && given.as_slice().len() < 1 << 32;
    if !few || !givens_fit(case.system.vars, given.as_slice()) {
        return Ok(text);
    }
    match close(alloc, &case.system, &given)? {
        Closed::Board(facts) => board_text(alloc, &mut text, case, &facts, turns)?,
        Closed::Clash { .. } => text.push_str("clash")?,
    }
    Ok(text)
}
