//! Turns at the door.
ghost use Rattle.std.specs.Prelude.{◌≡◌, ◌<◌, IfOk};
ghost use Rattle.ff_journal.specs.Publications.{published};
ghost use Rattle.ff_desk.specs.declared.loans.Turn.TheVariants.{Did};
ghost use Rattle.ff_desk.specs.Desks.{IsOpeningOf};
ghost use Rattle.ff_bench.specs.Views.{IsPlaceOf};
ghost use Rattle.ff_bench.specs.Turns.{HasGone, HasStayed, Took, TurnIs};

use crate::bench::Bench;
use crate::places::Place;
use ff_desk::{Found, Lent, Loan, Turn, examine, openings_stay};
use ff_door::Kept;
use ff_outside::Gate;
use ff_steal::Hand;
use ff_tables::NoMemory;
use std::alloc::Global;
use std::sync::Wait;

impl Bench {
    // A first turn at the door: what is to be done.
    fn take<R: Wait>(&self, rt: &R, alloc: Global, place: &mut Place) -> Result<Lent, NoMemory>
        requires place { IsPlaceOf self.now place.old }
        ensures place { IsPlaceOf self.now place.new }
        ensures gone { HasGone place.old place.new }
        ensures took { IfOk result (λ l. Took self.now.door.base place.old.number place.old.seen place.new.seen l) }
    {
        let mut desk = self.door.enter(rt, &mut place.seat);
        desk.is_desk();
        let lent = desk.lend(alloc);
        desk.is_desk();
        place.entries = desk.entries();
        self.door.leave(&mut place.seat, desk);
        lent
    }

    // A second turn: publishes what was found, where its epoch is still unpublished.
    fn bring<R: Wait>(&self, rt: &R, place: &mut Place, found: Found) -> Result<(), NoMemory>
        requires place { IsPlaceOf self.now place.old }
        requires epoch { found.epoch ≡ published place.old.seen }
        requires opening { IsOpeningOf self.now.door.base.case place.old.seen found.epoch found.opening }
        ensures place { IsPlaceOf self.now place.new }
        ensures gone { HasGone place.old place.new }
        ensures brought { IfOk result (λ _. found.epoch < published place.new.seen) }
    {
        // the board that was lent stays one of its epoch
        openings_stay();
        let mut desk = self.door.enter(rt, &mut place.seat);
        let brought = desk.bring(found);
        desk.is_desk();
        place.entries = desk.entries();
        self.door.leave(&mut place.seat, desk);
        brought
    }
}

impl Bench {
    // What is done with a board once there was work on it: what is found is brought back.
    fn settle<R: Wait>(
        &self,
        rt: &R,
        alloc: Global,
        place: &mut Place,
        loan: Loan,
    ) -> Result<(), NoMemory>
        requires place { IsPlaceOf self.now place.old }
        requires epoch { loan.epoch ≡ published place.old.seen }
        requires opening { IsOpeningOf self.now.door.base.case place.old.seen loan.epoch loan.board.opening }
        ensures place { IsPlaceOf self.now place.new }
        ensures stays { HasStayed place.old place.new }
        ensures brought { IfOk result (λ _. loan.epoch < published place.new.seen) }
    {
        let found = examine(alloc, loan)?;
        self.bring(rt, place, found)
    }

    /// A turn of somebody without a hand.
    pub(crate) fn turn<R: Wait, G: Gate + Sync>(
        &self,
        rt: &R,
        alloc: Global,
        place: &mut Place,
        gate: &G,
    ) -> Result<(), NoMemory>
        requires place { IsPlaceOf self.now place.old }
        ensures place { IsPlaceOf self.now place.new }
        ensures gone { HasGone place.old place.new }
    {
        match self.take(rt, alloc, place)? {
            Lent::Searched(_) => Ok(()),
            Lent::Published => Ok(()),
            Lent::Board(loan) => {
                let worked = loan.work(&self.crew, gate);
                self.settle(rt, alloc, place, worked)
            }
        }
    }

    /// A turn of a worker with its hand.
    pub(crate) fn turn_with<R: Wait, G: Gate + Sync>(
        &self,
        rt: &R,
        alloc: Global,
        place: &mut Place,
        hand: &mut Hand,
        gate: &G,
    ) -> Result<Turn, NoMemory>
        requires place { IsPlaceOf self.now place.old }
        requires hand { (hand.old.of ≡ self.now.hands) × (hand.old.number < hand.old.of) }
        ensures place { IsPlaceOf self.now place.new }
        ensures gone { HasGone place.old place.new }
        ensures hand { (hand.new.number ≡ hand.old.number) × (hand.new.of ≡ hand.old.of) }
        ensures turn { IfOk result (λ t. TurnIs self.now.door.base place.old.number place.old.seen place.new.seen t) }
    {
        match self.take(rt, alloc, place)? {
            Lent::Searched(turn) => Ok(turn),
            Lent::Published => Ok(Turn::Did),
            Lent::Board(loan) => {
                let worked = loan.work_with(&self.crew, hand, gate);
                self.settle(rt, alloc, place, worked)?;
                Ok(Turn::Did)
            }
        }
    }
}
