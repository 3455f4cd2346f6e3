//! Collects the facts of a board.
ghost use Rattle.std.specs.Prelude.{◌⊎◌, true, IsTrue, length, slice_get, ◌≡◌, ℕ, ◌+◌, ◌<◌, ◌≤◌, Some, IfOk, IfErr};
ghost use Rattle.std.specs.Arc.{arc_value};
ghost use Rattle.ff_propagate.specs.declared.facts.Fact.{Fact as FactSpec};
ghost use Rattle.ff_propagate.specs.Facts.{fact_at};
ghost use Rattle.ff_propagate.specs.FactRule.{MeetsFactRule};
ghost use Rattle.ff_propagate.specs.declared.words.Held.{Held as HeldSpec};
ghost use Rattle.ff_propagate.specs.Words.{held, held_of};
ghost use Rattle.ff_board.specs.Answer.{fact_of, fact_seen};
ghost use Rattle.ff_board.specs.Facts.{vars_in, cons_in, FactOk, AllSeen, Sound, Grows};
ghost use Rattle.ff_board.specs.Rule.{words_set, Opens};
ghost use Rattle.ff_board.specs.Standing.{top_level};
ghost use Rattle.ff_board.specs.Views.{IsAt, GoesOn};

use crate::board::EpochBoard;
use crate::seats::BoardSeat;
use ff_propagate::{Fact, Facts, read_word};
use ff_tables::{Items, NoMemory};
use std::alloc::Global;

fn fact_in(word: u64) -> Option<Fact>
    ensures { result ≡ fact_of (held_of word) }
{
    match read_word(word) {
        Some(h) => Some(h.fact),
        None => None,
    }
}

// The facts of the words.
fn unpack(words: &[u64], facts: &mut [Option<Fact>])
    requires { length facts.old ≡ length words.now }
    ensures wide { length facts.new ≡ length facts.old }
    ensures facts { (v : ℕ) → v < length words.now → fact_at facts.new v ≡ fact_of (held words.now v) }
{
    for v in 0..words.len() {
        facts[v] = fact_in(words[v]);
    }
}

impl EpochBoard {
    // Looks at every word, and notes what was not noted. Whether there was such a word.
    fn round(&self, seat: &mut BoardSeat, words: &mut [u64]) -> bool
        requires seat { IsAt self.now seat.old }
        requires words { (length words.old ≡ vars_in self.now.opening) × Grows words.old seat.old.view.seen }
        ensures seat { GoesOn seat.old seat.new }
        ensures same { (v : ℕ) → v < vars_in self.now.opening → held words.new v ≡ held seat.new.view.seen v }
        ensures quiet { IsTrue result ⊎ (words.new ≡ words.old) }
        ensures more { IsTrue result → words_set words.old < words_set words.new }
        ensures backed { (u : ℕ) (h : HeldSpec) → held seat.old.view.seen u ≡ Some h → AllSeen self.now.opening seat.new.view.seen h }
        ensures sound { 0 < vars_in self.now.opening → Sound self.now.opening seat.new.view.seen }
        ensures opened { Opens self.now.opening seat.new.view.seen }
    {
        let mut fresh = false;
        for v in 0..self.vars() {
            let found = self.look(seat, v);
            if words[v as usize] == 0 && found != 0 {
                words[v as usize] = found;
                fresh = true;
            }
        }
        fresh
    }

    // Rounds, until one finds no more.
    fn rounds(&self, seat: &mut BoardSeat, words: &mut [u64])
        requires seat { IsAt self.now seat.old }
        requires words { (length words.old ≡ vars_in self.now.opening) × Grows words.old seat.old.view.seen }
        ensures seat { GoesOn seat.old seat.new }
        ensures found { (v : ℕ) → v < vars_in self.now.opening → held words.new v ≡ held seat.new.view.seen v }
        ensures rule { (v : ℕ) (h : HeldSpec) → v < vars_in self.now.opening → held words.new v ≡ Some h → FactOk self.now.opening seat.new.view.seen v h }
        ensures opened { Opens self.now.opening seat.new.view.seen }
    {
        'rounds: loop {
            if !self.round(seat, words) {
                break;
            }
        }
    }

    // All facts, by way of the words.
    fn gather(&self, seat: &mut BoardSeat, words: &mut [u64], facts: &mut [Option<Fact>])
        requires seat { IsAt self.now seat.old }
        requires words { (length words.old ≡ vars_in self.now.opening) × Grows words.old seat.old.view.seen }
        requires facts { length facts.old ≡ vars_in self.now.opening }
        ensures seat { GoesOn seat.old seat.new }
        ensures wide { length facts.new ≡ length facts.old }
        ensures found { (v : ℕ) → v < vars_in self.now.opening → fact_at facts.new v ≡ fact_seen seat.new.view v }
        ensures rule { MeetsFactRule (vars_in self.now.opening) (cons_in self.now.opening) self.now.opening.givens facts.new }
        ensures opened { Opens self.now.opening seat.new.view.seen }
    {
        self.rounds(seat, words);
        unpack(words, facts);
    }

    /// All facts, found in rounds until one finds no more.
    pub fn collect(&self, alloc: Global, seat: &mut BoardSeat) -> Result<Facts, NoMemory>
        requires seat { IsAt self.now seat.old }
        ensures seat { GoesOn seat.old seat.new }
        ensures err { IfErr result (λ _. seat.new ≡ seat.old) }
        ensures found { IfOk result (λ fs. (v : ℕ) → v < vars_in self.now.opening → fact_at fs v ≡ fact_seen seat.new.view v) }
        ensures rule { IfOk result (λ fs. MeetsFactRule (vars_in self.now.opening) (cons_in self.now.opening) self.now.opening.givens fs) }
        ensures opened { IfOk result (λ _. Opens self.now.opening seat.new.view.seen) }
        ensures low { IfOk result (λ fs. (v : ℕ) (f : FactSpec) → fact_at fs v ≡ Some f → f.level ≤ top_level self.now.opening.facts + vars_in self.now.opening) }
    {
        let vars = self.vars() as usize;
        let mut words = vec![in alloc; 0u64; vars]?;
        let mut facts = vec![in alloc; None; vars]?;
        self.gather(seat, words.as_mut_slice(), facts.as_mut_slice());
        // for the bound on the levels
        seat.is_learned();
        Ok(Facts::of(Items::of(facts)))
    }
}
