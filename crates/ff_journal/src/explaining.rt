//! Why a pair has its value.
ghost use Rattle.std.specs.Prelude.{◌≡◌, ℕ, ◌<◌, ◌^◌, ◌++◌, [], IfOk, OnOk, List, Option, map, length, None, Some, slice_get, MatchOption};
ghost use Rattle.std.specs.List.{filter_map, cons_option};
ghost use Rattle.ff_tables.specs.declared.givens.Given.{Given as GivenSpec};
ghost use Rattle.ff_tables.specs.Systems.{IsFit};
ghost use Rattle.ff_propagate.specs.Facts.{fact_at, seen};
ghost use Rattle.ff_propagate.specs.FactRule.{MeetsFactRule};
ghost use Rattle.ff_journal.specs.declared.entries.Entry.{Entry as EntrySpec};
ghost use Rattle.ff_journal.specs.Shown.{HaveLevels, LevelsFit, ReplyFits};
ghost use Rattle.ff_journal.specs.Replies.{IsWhyReplyBy};
ghost use Rattle.ff_types.specs.Pairs.{number_of};
ghost use Rattle.ff_journal.specs.Premises.{premise_besides as besides, crease_if};
ghost use Rattle.ff_journal.specs.Reasons.{HasNoCrease, IsLeastCrease, IsWhy};

use ff_propagate::{Fact, Facts, Reason};
use ff_tables::{Constraint, Given, GivenBy, Items, NoMemory};
use ff_types::Case;
use ff_viewer::{Premise, Reply, Why};
use std::alloc::Global;

// The premise of the variable, where it isn't the one asked for and its fact has a level below this one.
fn premise_besides(case: &Case, facts: &Facts, level: u32, asked: u32, var: u32) -> Option<Premise>
    requires wide { length facts.now ≡ case.now.system.vars }
    requires var { var < case.now.system.vars }
    ensures { result ≡ besides case.now.pairs facts.now level asked var }
{
    if var == asked {
        return None;
    }
    let Some(fact) = facts.fact(var) else {
        return None;
    };
    if level <= fact.level {
        return None;
    }
    let (f, g) = case.pairs.faces(var);
    Some(Premise {
        f,
        g,
        value: fact.value,
        level: fact.level,
    })
}

fn add(list: &mut Items<Premise>, premise: Option<Premise>) -> Result<(), NoMemory>
    ensures { OnOk result (list.new ≡ list.old ++ cons_option premise []) }
{
    match premise {
        None => Ok(()),
        Some(premise) => list.push(premise),
    }
}

// The premises of the constraint's other terms, in term order.
fn premises_of(
    alloc: Global,
    case: &Case,
    facts: &Facts,
    con: &Constraint,
    level: u32,
    asked: u32,
) -> Result<Items<Premise>, NoMemory>
    requires wide { length facts.now ≡ case.now.system.vars }
    requires fit { IsFit case.now.system.vars con.now }
    ensures { IfOk result (λ list. list ≡ filter_map (besides case.now.pairs facts.now level asked) (map (λ t. t.var) con.now.terms)) }
{
    let terms = con.terms.as_slice();
    let mut list = Items::of(Vec::new(alloc));
    for j in 0..terms.len() {
        let term = terms[j];
        add(
            &mut list,
            premise_besides(case, facts, level, asked, term.var),
        )?;
    }
    Ok(list)
}

// The crease that gives the variable, where this start is of it.
fn crease_of(start: Given, var: u32) -> Option<u32>
    ensures { result ≡ crease_if var start }
{
    if start.var != var {
        return None;
    }
    match start.by {
        GivenBy::Crease(e) => Some(e),
        GivenBy::Pin => None,
    }
}

// The least crease that gives the variable. It is the first, since the creases' numbers rise.
fn least_crease(case: &Case, var: u32) -> Option<u32>
    ensures { MatchOption result (HasNoCrease case.now.starts var) (λ e. IsLeastCrease case.now.starts var e) }
{
    let starts = case.starts.as_slice();
    for i in 0..starts.len() {
        let start = starts[i];
        if let Some(e) = crease_of(start, var) {
            return Some(e);
        }
    }
    None
}

// Why a given variable has its value.
fn given_why(case: &Case, facts: &Facts, var: u32, fact: Fact, i: u32) -> Why
    requires there { fact_at facts.now var ≡ Some fact }
    requires given { fact.reason ≡ Reason.Given i }
    ensures why { (gs : List GivenSpec) (before : List EntrySpec) → MeetsFactRule case.now.system.vars case.now.system.constraints gs facts.now
        → HaveLevels case.now before facts.now → IsWhy case.now gs before (map seen facts.now) var fact.value result }
    ensures names { LevelsFit case.now facts.now var result }
{
    let _ = facts;
    let _ = fact;
    let _ = i;
    match least_crease(case, var) {
        Some(e) => Why::Crease(e),
        None => Why::Pin,
    }
}

// Why a forced variable has its value.
fn forced_why(
    alloc: Global,
    case: &Case,
    facts: &Facts,
    var: u32,
    fact: Fact,
    c: u32,
) -> Result<Why, NoMemory>
    requires rule { (gs : List GivenSpec) × MeetsFactRule case.now.system.vars case.now.system.constraints gs facts.now }
    requires there { fact_at facts.now var ≡ Some fact }
    requires forced { fact.reason ≡ Reason.Forced c }
    ensures why { IfOk result (λ why. (gs : List GivenSpec) (before : List EntrySpec) → MeetsFactRule case.now.system.vars case.now.system.constraints gs facts.now
        → HaveLevels case.now before facts.now → IsWhy case.now gs before (map seen facts.now) var fact.value why) }
    ensures names { IfOk result (λ why. LevelsFit case.now facts.now var why) }
{
    // the pairs are in order
    let _ = case.pairs.count();
    let constraints = case.system.constraints.as_slice();
    let con = &constraints[c as usize];
    let cites = case.cites.as_slice();
    let cite = cites[c as usize];
    let premises = premises_of(alloc, case, facts, con, fact.level, var)?;
    Ok(Why::Forced {
        level: fact.level,
        cite,
        premises,
    })
}

// Why the variable has the value of its fact.
fn why_of(alloc: Global, case: &Case, facts: &Facts, var: u32, fact: Fact) -> Result<Why, NoMemory>
    requires rule { (gs : List GivenSpec) × MeetsFactRule case.now.system.vars case.now.system.constraints gs facts.now }
    requires there { fact_at facts.now var ≡ Some fact }
    ensures why { IfOk result (λ why. (gs : List GivenSpec) (before : List EntrySpec) → MeetsFactRule case.now.system.vars case.now.system.constraints gs facts.now
        → HaveLevels case.now before facts.now → IsWhy case.now gs before (map seen facts.now) var fact.value why) }
    ensures names { IfOk result (λ why. LevelsFit case.now facts.now var why) }
{
    match fact.reason {
        Reason::Given(i) => Ok(given_why(case, facts, var, fact, i)),
        Reason::Forced(c) => forced_why(alloc, case, facts, var, fact, c),
    }
}

/// The reply to `why` by the facts of a board.
pub(crate) fn why_told(
    alloc: Global,
    case: &Case,
    facts: &Facts,
    f: u32,
    g: u32,
) -> Result<Reply, NoMemory>
    requires rule { (gs : List GivenSpec) × MeetsFactRule case.now.system.vars case.now.system.constraints gs facts.now }
    ensures why { IfOk result (λ told. (gs : List GivenSpec) (before : List EntrySpec) → MeetsFactRule case.now.system.vars case.now.system.constraints gs facts.now
        → HaveLevels case.now before facts.now → IsWhyReplyBy case.now gs before facts.now (number_of case.now.pairs f g) told) }
    ensures names { IfOk result (λ told. ReplyFits case.now facts.now (number_of case.now.pairs f g) told) }
{
    let Some(n) = case.pairs.number(f, g) else {
        return Ok(Reply::NoPair);
    };
    let Some(fact) = facts.fact(n) else {
        return Ok(Reply::Undecided);
    };
    Ok(Reply::Because(why_of(alloc, case, facts, n, fact)?))
}
