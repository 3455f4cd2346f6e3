//! Whether a board has room.
ghost use Rattle.std.specs.Prelude.{◌≡◌, ◌+◌, ◌<◌, IsTrue, length};
ghost use Rattle.ff_board.specs.Standing.{top_level, top_with};
ghost use Rattle.ff_board.specs.Views.{AreFew};

use ff_propagate::{Fact, Facts};
use ff_tables::{Given, Items};
use ff_types::Case;

// The greater of a level and that of a fact.
fn top_with_fact(fact: Option<Fact>, top: u32) -> u32
    ensures { result ≡ top_with fact top }
{
    match fact {
        None => top,
        Some(fact) => { if fact.level < top { top } else { fact.level } }
    }
}

// The greatest level of the facts, or 0 where there is none.
fn top_of(facts: &Facts, vars: u32) -> u32
    requires { length facts.now ≡ vars }
    ensures { result ≡ top_level facts.now }
{
    let mut top = 0;
    let mut left = vars;
    while left > 0 {
        left -= 1;
        top = top_with_fact(facts.fact(left), top);
    }
    top
}

/// Whether these are few enough for the words of a board.
pub fn are_few(case: &Case, givens: &Items<Given>, facts: &Facts) -> bool
    requires { length facts.now ≡ case.now.system.vars }
    ensures { IsTrue result → AreFew case.now givens.now facts.now }
{
    case.system.vars <= 262_144
        && case.system.constraints.as_slice().len() <= 4_194_304
        && givens.as_slice().len() < 4_194_304
        && top_of(facts, case.system.vars) < 536_608_768
}
