//! All pairs, by a numbered solution of each part: the replies to `stack`.
ghost use Rattle.std.specs.Prelude.{◌≡◌, ℕ, ◌<◌, ◌^◌, IfOk, length, Option, map, slice_index};
ghost use Rattle.ff_tables.specs.declared.orders.Order.{Order as OrderSpec};
ghost use Rattle.ff_propagate.specs.Choices.{value_of};
ghost use Rattle.ff_propagate.specs.Facts.{seen as fact_value};
ghost use Rattle.ff_propagate.specs.Solutions.{joint};
ghost use Rattle.ff_journal.specs.Publications.{on_board};
ghost use Rattle.ff_journal.specs.Replies.{stack_of};
ghost use Rattle.ff_told.specs.Paged.{HavePages, KeepAllPages, parts_of};
ghost use Rattle.ff_told.specs.Stacked.{IsChosen, IsPicked, AreChosen, ArePicks, AreValues, AreLongAs, AreFactsIn, IsStackTold};

use crate::paging::page_at;
use ff_journal::board_of;
use ff_pages::{PageAnswer, Pages};
use ff_propagate::Facts;
use ff_tables::{Items, NoMemory, Order};
use ff_types::Case;
use ff_viewer::Reply;
use std::alloc::Global;

/// What the number of a part gives: its solution, or the reply that it has none.
#[derive(Drop)]
pub enum Chosen {
    Solution(Items<Order>),
    Stop(Reply),
}

/// What all numbers give: a solution of each part, or the reply that the first has none.
#[derive(Drop)]
pub enum Picks {
    All(Items<Items<Order>>),
    Stop(Reply),
}

// The solution at the place of a page, if it is there.
fn picked(alloc: Global, solutions: &[Items<Order>], part: u32, at: u32) -> Result<Chosen, NoMemory>
    ensures { IfOk result (λ chosen. IsPicked solutions.now part at chosen) }
{
    if solutions.len() <= at as usize {
        return Ok(Chosen::Stop(Reply::PartPast(part)));
    }
    let solution = solutions[at as usize].copy(alloc)?;
    Ok(Chosen::Solution(solution))
}

// What the number k gives for the part with this number.
fn choose(
    alloc: Global,
    case: &Case,
    pages: &mut [Pages],
    part: u32,
    k: u32,
) -> Result<Chosen, NoMemory>
    requires there { part < length pages.old }
    requires constraints { length case.now.system.constraints < 2 ^ 32 }
    requires pages { HavePages case.now pages.old }
    ensures pages { KeepAllPages case.now pages.old pages.new }
    ensures chosen { IfOk result (λ chosen. IsChosen case.now pages.old part k chosen) }
{
    let answer = page_at(alloc, case, pages, part as usize, k / 64)?;
    match answer {
        PageAnswer::Page(solutions) => {
            let list = solutions.as_slice();
            let picked = picked(alloc, list, part, k % 64)?;
            Ok(picked)
        }
        PageAnswer::Past { .. } => Ok(Chosen::Stop(Reply::PartPast(part))),
        PageAnswer::None(_) => Ok(Chosen::Stop(Reply::PartNone(part))),
        PageAnswer::Unfinished => Ok(Chosen::Stop(Reply::PartUnfinished(part))),
    }
}

// What the numbers give, one for each part.
fn all_chosen(
    alloc: Global,
    case: &Case,
    pages: &mut [Pages],
    choice: &[u32],
) -> Result<Picks, NoMemory>
    requires as_many { length choice.now ≡ length pages.old }
    requires few { length pages.old < 2 ^ 32 }
    requires constraints { length case.now.system.constraints < 2 ^ 32 }
    requires pages { HavePages case.now pages.old }
    ensures pages { KeepAllPages case.now pages.old pages.new }
    ensures picks { IfOk result (λ picks. ArePicks case.now pages.old choice.now picks) }
{
    let mut solutions = Vec::new(alloc);
    for i in 0..choice.len() {
        let given = choose(alloc, case, pages, i as u32, choice[i])?;
        match given {
            Chosen::Solution(solution) => solutions.push(solution)?,
            Chosen::Stop(told) => return Ok(Picks::Stop(told)),
        }
    }
    Ok(Picks::All(Items::of(solutions)))
}

// The values of a part's solution.
fn fill(values: &mut [Option<Order>], vars: &[u32], solution: &[Order])
    requires as_many { length solution.now ≡ length vars.now }
    requires within { (j : ℕ) → j < length vars.now → slice_index vars.now j < length values.old }
    ensures long { length values.new ≡ length values.old }
    ensures filled { (value : ℕ → Option OrderSpec) → AreValues value values.old → AreValues (joint value vars.now solution.now) values.new }
{
    for j in 0..vars.len() {
        let at = vars.len() - 1 - j;
        values[vars[at] as usize] = Some(solution[at]);
    }
}

// The values of a solution of each part.
fn fill_all(values: &mut [Option<Order>], pages: &[Pages], solutions: &[Items<Order>])
    requires as_many { length solutions.now ≡ length pages.now }
    requires fit { AreLongAs (length values.old) (parts_of pages.now) solutions.now }
    ensures long { length values.new ≡ length values.old }
    ensures filled { (value : ℕ → Option OrderSpec) → AreValues value values.old → AreValues (value_of value (parts_of pages.now) solutions.now) values.new }
{
    for i in 0..pages.len() {
        let at = pages.len() - 1 - i;
        fill(values, pages[at].vars(), solutions[at].as_slice());
    }
}

// The value of each pair, by a solution of each part.
fn filled(
    alloc: Global,
    case: &Case,
    facts: &Facts,
    pages: &[Pages],
    solutions: &[Items<Order>],
) -> Result<Vec<Option<Order>>, NoMemory>
    requires wide { length facts.now ≡ case.now.system.vars }
    requires as_many { length solutions.now ≡ length pages.now }
    requires fit { AreLongAs (length facts.now) (parts_of pages.now) solutions.now }
    ensures long { IfOk result (λ values. length values.items ≡ length facts.now) }
    ensures filled { IfOk result (λ values. AreValues (value_of (on_board (map fact_value facts.now)) (parts_of pages.now) solutions.now) values.items) }
{
    let board = board_of(alloc, case.system.vars, facts)?;
    let list = board.as_slice();
    let mut values = Vec::from_slice(alloc, list)?;
    fill_all(values.as_mut_slice(), pages, solutions);
    Ok(values)
}

// All pairs, by a solution of each part.
fn stacked(
    alloc: Global,
    case: &Case,
    facts: &Facts,
    pages: &[Pages],
    solutions: &[Items<Order>],
) -> Result<Reply, NoMemory>
    requires wide { length facts.now ≡ case.now.system.vars }
    requires as_many { length solutions.now ≡ length pages.now }
    requires fit { AreLongAs (length facts.now) (parts_of pages.now) solutions.now }
    ensures { IfOk result (λ told. told ≡ Reply.Stack (stack_of (map fact_value facts.now) (parts_of pages.now) solutions.now)) }
{
    let values = filled(alloc, case, facts, pages, solutions)?;
    Ok(Reply::Stack(Items::of(values)))
}

/// The reply to `stack`, by the pages of all parts of the board with these facts. They stay so, also after want of memory.
pub fn stack_told(
    alloc: Global,
    case: &Case,
    facts: &Facts,
    pages: &mut [Pages],
    choice: &[u32],
) -> Result<Reply, NoMemory>
    requires constraints { length case.now.system.constraints < 2 ^ 32 }
    requires pages { HavePages case.now pages.old }
    requires facts { AreFactsIn case.now facts.now pages.old }
    requires wide { length facts.now ≡ case.now.system.vars }
    ensures pages { KeepAllPages case.now pages.old pages.new }
    ensures told { IfOk result (λ told. IsStackTold case.now facts.now pages.old choice.now told) }
{
    // the pairs are few
    let _ = case.pairs.count();
    if choice.len() != pages.len() {
        return Ok(Reply::Count(pages.len() as u32));
    }
    let picks = all_chosen(alloc, case, pages, choice)?;
    match picks {
        Picks::All(solutions) => {
            let list = solutions.as_slice();
            let told = stacked(alloc, case, facts, pages, list)?;
            Ok(told)
        }
        Picks::Stop(told) => Ok(told),
    }
}
