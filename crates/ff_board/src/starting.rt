//! Opens a board.
ghost use Rattle.std.specs.Prelude.{true, length, slice_get, slice_index, ◌≡◌, ℕ, ◌+◌, ◌-◌, ◌<◌, ◌≤◌, ◌^◌, ◌↔◌, IsTrue, [], Some, None, IfOk};
ghost use Rattle.std.specs.Arc.{arc_value};
ghost use Rattle.ff_tables.specs.Orders.{term_at};
ghost use Rattle.ff_tables.specs.Systems.{AreFit};
ghost use Rattle.ff_tables.specs.declared.givens.Given.{Given as GivenSpec};
ghost use Rattle.ff_propagate.specs.declared.facts.Fact.{Fact as FactSpec};
ghost use Rattle.ff_propagate.specs.Facts.{fact_at};
ghost use Rattle.ff_propagate.specs.FactRule.{MeetsFactRule};
ghost use Rattle.ff_propagate.specs.Agreeing.{Agree};
ghost use Rattle.ff_board.specs.Due.{AreDue};
ghost use Rattle.ff_board.specs.Views.{IsOpenedWith, AreFew};
ghost use Rattle.ff_propagate.specs.Words.{held_of, held, number_of};
ghost use Rattle.ff_board.specs.Facts.{vars_in, cons_in, is_marked};
ghost use Rattle.ff_board.specs.Rule.{starting, Stand};
ghost use Rattle.ff_board.specs.Standing.{top_level};
ghost use Rattle.ff_board.specs.Opened.{IsLowFact, MarksAre, MarksOf, WordOf, WordsOf};

use crate::board::EpochBoard;
use crate::due::due_of;
use crate::opening::Opening;
use crate::seats::BoardSeat;
use atomic_table::Table;
use ff_propagate::{Fact, Facts, Held, Reason, Uses, write_word};
use ff_tables::{Constraint, Given, Items, NoMemory, System, Term};
use ff_types::Case;
use std::alloc::Global;
use std::snapshot::Snapshot;
use std::sync::Arc;

// Whether the fact of a variable has a level below `level`.
fn is_low(facts: &Facts, var: u32, level: u32) -> bool
    requires { var < length facts.now }
    ensures { IsTrue result ↔ IsLowFact facts.now level var }
{
    match facts.fact(var) {
        Some(fact) => fact.level < level,
        None => false,
    }
}

// The marks of the terms whose facts have a level below `level`.
fn low_marks(facts: &Facts, terms: &[Term], level: u32) -> u8
    requires few { length terms.now ≤ 6 }
    requires within { (j : ℕ) → j < length terms.now → (term_at terms.now j).var < length facts.now }
    ensures few { result < 64 }
    ensures marks { MarksAre facts.now terms.now level result }
{
    let mut marks = 0;
    let mut left = terms.len();
    while left > 0 {
        left -= 1;
        let low = is_low(facts, terms[left].var, level);
        marks = 2 * marks + u8::from(low);
    }
    marks
}

// The marks of an opening fact: all terms of its reason's constraint whose facts have a lower level.
fn marks_of(constraints: &[Constraint], facts: &Facts, fact: Fact) -> u8
    requires fits { AreFit (length facts.now) constraints.now }
    ensures few { result < 64 }
    ensures marks { MarksOf constraints.now facts.now fact result }
{
    match fact.reason {
        Reason::Given(_) => 0,
        Reason::Forced(c) => match constraints.get(c as usize) {
            Some(con) => low_marks(facts, con.terms.as_slice(), fact.level),
            None => 0,
        },
    }
}

// The word of an opening fact.
fn opening_word(constraints: &[Constraint], facts: &Facts, var: u32) -> u64
    requires fits { AreFit (length facts.now) constraints.now }
    requires var { var < length facts.now }
    requires room { (f : FactSpec) → fact_at facts.now var ≡ Some f → (number_of f.reason < 4194304) × (f.level < 1073741824) }
    ensures { WordOf constraints.now facts.now var result }
{
    match facts.fact(var) {
        Some(fact) => write_word(Held {
            fact,
            marks: marks_of(constraints, facts, fact),
        }),
        None => 0,
    }
}

fn put_words(words: &mut [u64], constraints: &[Constraint], facts: &Facts, vars: u32)
    requires fits { AreFit (length facts.now) constraints.now }
    requires wide { (length words.old ≡ vars + 1) × (length facts.now ≡ vars) }
    requires zero { (v : ℕ) → slice_index words.old v ≡ 0 }
    requires room { (v : ℕ) (f : FactSpec) → fact_at facts.now v ≡ Some f → (number_of f.reason < 4194304) × (f.level < 1073741824) }
    ensures { (length words.new ≡ vars + 1) × WordsOf constraints.now facts.now vars words.new }
{
    for v in 0..vars {
        words[v as usize] = opening_word(constraints, facts, v);
    }
}

// The words that a board is opened with.
fn words_of(alloc: Global, system: &System, facts: &Facts) -> Result<Vec<u64>, NoMemory>
    requires wide { length facts.now ≡ system.now.vars }
    requires room { (v : ℕ) (f : FactSpec) → fact_at facts.now v ≡ Some f → (number_of f.reason < 4194304) × (f.level < 1073741824) }
    ensures { IfOk result (λ ws. (length ws.items ≡ system.now.vars + 1) × WordsOf system.now.constraints facts.now system.now.vars ws.items) }
{
    let mut words = vec![in alloc; 0u64; system.vars as usize + 1]?;
    put_words(
        words.as_mut_slice(),
        system.constraints.as_slice(),
        facts,
        system.vars,
    );
    Ok(words)
}

// The board of these words.
fn board_of(
    alloc: Global,
    opening: Opening,
    words: &[u64],
    uses: Arc<Uses>,
    due: Vec<u32>,
) -> Result<(EpochBoard, BoardSeat), NoMemory>
    requires stand { Stand opening words.now }
    requires due { AreDue (cons_in opening) opening.facts (length (cons_in opening)) due.items }
    ensures board { IfOk result (λ r. r.0.opening ≡ opening) }
    ensures seat { IfOk result (λ r. (r.1.table ≡ r.0.table) × (r.1.view ≡ starting opening)) }
{
    let key = Snapshot::of(&opening);
    let (table, seat) = Table::of_words(alloc, words, &key)?;
    let board = EpochBoard {
        table,
        opening,
        uses,
        due,
    };
    Ok((board, BoardSeat { seat }))
}

// A board with these lists of uses.
fn open_with(
    alloc: Global,
    case: Arc<Case>,
    uses: Arc<Uses>,
    givens: &Items<Given>,
    facts: &Facts,
) -> Result<(EpochBoard, BoardSeat), NoMemory>
    requires rule { MeetsFactRule (arc_value case).system.vars (arc_value case).system.constraints givens.now facts.now }
    requires agree { Agree givens.now }
    requires few { AreFew (arc_value case) givens.now facts.now }
    ensures board { IfOk result (λ r. IsOpenedWith (arc_value case) givens.now facts.now r.0.opening) }
    ensures seat { IfOk result (λ r. (r.1.table ≡ r.0.table) × (r.1.view ≡ starting r.0.opening)) }
{
    let words = words_of(alloc, &case.system, facts)?;
    let due = due_of(alloc, case.system.constraints.as_slice(), facts)?;
    let opening = Opening {
        case,
        givens: givens.copy(alloc)?,
        facts: facts.copy(alloc)?,
    };
    board_of(alloc, opening, words.as_slice(), uses, due)
}

/// The board of an epoch, opened with facts by the fact rule under its givens, with its first seat. An opening fact by
/// a constraint marks all its terms whose opening facts have a lower level.
pub fn open_board(
    alloc: Global,
    case: Arc<Case>,
    givens: &Items<Given>,
    facts: &Facts,
) -> Result<(EpochBoard, BoardSeat), NoMemory>
    requires rule { MeetsFactRule (arc_value case).system.vars (arc_value case).system.constraints givens.now facts.now }
    requires agree { Agree givens.now }
    requires few { AreFew (arc_value case) givens.now facts.now }
    ensures board { IfOk result (λ r. IsOpenedWith (arc_value case) givens.now facts.now r.0.opening) }
    ensures seat { IfOk result (λ r. (r.1.table ≡ r.0.table) × (r.1.view ≡ starting r.0.opening)) }
{
    let uses = Uses::new(alloc, case.system.vars, case.system.constraints.as_slice())?;
    let uses = Arc::new(alloc, uses)?;
    open_with(alloc, case, uses, givens, facts)
}

impl EpochBoard {
    /// The board of another epoch of the same case, as `open_board` makes it. The lists of uses are shared.
    pub fn reopen(
        &self,
        alloc: Global,
        givens: &Items<Given>,
        facts: &Facts,
    ) -> Result<(EpochBoard, BoardSeat), NoMemory>
        requires rule { MeetsFactRule (vars_in self.now.opening) (cons_in self.now.opening) givens.now facts.now }
        requires agree { Agree givens.now }
        requires few { AreFew (arc_value self.now.opening.case) givens.now facts.now }
        ensures board { IfOk result (λ r. IsOpenedWith (arc_value self.now.opening.case) givens.now facts.now r.0.opening) }
        ensures seat { IfOk result (λ r. (r.1.table ≡ r.0.table) × (r.1.view ≡ starting r.0.opening)) }
    {
        let case = Arc::try_clone(&self.opening().case)?;
        let uses = Arc::try_clone(&self.uses)?;
        open_with(alloc, case, uses, givens, facts)
    }
}
