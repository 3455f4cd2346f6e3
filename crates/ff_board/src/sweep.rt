//! Sweeps over all constraints, until none forces more.
ghost use Rattle.std.specs.Prelude.{◌≡◌, ℕ, ◌+◌, ◌<◌, ◌≤◌, Some, length, slice_get, true};
ghost use Rattle.std.specs.Arc.{arc_value};
ghost use Rattle.ff_propagate.specs.declared.facts.Fact.{Fact as FactSpec};
ghost use Rattle.ff_propagate.specs.Facts.{fact_at};
ghost use Rattle.ff_propagate.specs.Words.{held};
ghost use Rattle.ff_board.specs.Facts.{vars_in};
ghost use Rattle.ff_board.specs.Views.{IsAt, GoesOn};
ghost use Rattle.ff_board.specs.Rule.{set_below, Opens};
ghost use Rattle.ff_board.specs.Ends.{PassEnds, SweepEnds};

use crate::board::EpochBoard;
use crate::examine::Look;
use crate::seats::BoardSeat;

/// What one pass over the constraints came to.
pub(crate) enum Pass {
    /// Each rests.
    Quiet,
    /// Some fact more was seen.
    Moved,
    /// No row of this constraint agrees.
    Dead(u32),
}

/// What a sweep came to.
#[derive(Clone, Copy, PartialEq, Eq)]
pub enum Sweep {
    /// What the seat has seen is the closure of the board's givens.
    Closed,
    /// No row of this constraint agrees with what the seat has seen.
    Dead(u32),
}

impl EpochBoard {
    /// Looks at every word. How many are set.
    pub fn words_set(&self, seat: &mut BoardSeat) -> u32
        requires seat { IsAt self.now seat.old }
        ensures seat { GoesOn seat.old seat.new }
        ensures count { result ≡ set_below (vars_in self.now.opening) seat.new.view.seen }
        ensures opened { Opens self.now.opening seat.new.view.seen }
    {
        let mut count = 0;
        for v in 0..self.vars() {
            let found = self.look(seat, v);
            if found != 0 {
                count += 1;
            }
        }
        count
    }

    // Examines each constraint that is due once.
    fn pass(&self, seat: &mut BoardSeat) -> Pass
        requires seat { IsAt self.now seat.old }
        requires opened { Opens self.now.opening seat.old.view.seen }
        ensures seat { GoesOn seat.old seat.new }
        ensures pass { PassEnds self.now.opening seat.old.view.seen seat.new.view.seen result }
    {
        // where an opening fact was seen, it is that fact
        seat.is_learned();
        let due = self.due();
        let mut moved = false;
        for k in 0..due.len() {
            match self.examine(seat, due[k]) {
                Look::Quiet => {}
                Look::Set(_) => moved = true,
                Look::Moved => moved = true,
                Look::Dead => return Pass::Dead(due[k]),
            }
        }
        if moved { Pass::Moved } else { Pass::Quiet }
    }

    /// Offers what constraints force until they force nothing more. It takes no memory.
    pub fn sweep(&self, seat: &mut BoardSeat) -> Sweep
        requires seat { IsAt self.now seat.old }
        ensures seat { GoesOn seat.old seat.new }
        ensures sweep { SweepEnds self.now.opening seat.new.view.seen result }
    {
        'sweeps: loop {
            let before = self.words_set(seat);
            match self.pass(seat) {
                Pass::Dead(c) => return Sweep::Dead(c),
                Pass::Moved => {}
                Pass::Quiet => {
                    let after = self.words_set(seat);
                    if after == before {
                        // what the seat has seen is in the closure
                        seat.is_learned();
                        return Sweep::Closed;
                    }
                }
            }
        }
    }
}
