//! Two hands that work on one board, each on its thread.
ghost use Rattle.std.specs.Prelude.{◌≡◌, ◌<◌, IfOk, IfSome};
ghost use Rattle.ff_board.specs.Facts.{vars_in};
ghost use Rattle.ff_board.specs.Views.{IsAt, GoesOn};

use crate::boards::{opened, swept};
use ff_board::{BoardSeat, EpochBoard};
use ff_outside::{Gate, GateAt, NoGate};
use ff_propagate::Fact;
use ff_signal::{Stop, Stops};
use ff_steal::{Crew, Hand, crew, work};
use ff_tables::{Given, Items, NoMemory, Order};
use ff_types::Case;
use std::alloc::Global;
use std::thread::{Threads, join};

// How often a wait looks before it gives up.
const LOOKS: u32 = 5_000_000;

// A crew of two hands.
fn two_hands(alloc: Global) -> Result<Option<(Crew, Hand, Hand)>, NoMemory>
    ensures { IfOk result (λ r. IfSome r (λ t. (t.1.of ≡ t.0.hands) × (t.1.number < t.1.of) × (t.2.of ≡ t.0.hands) × (t.2.number < t.2.of))) }
{
    let (crew, mut hands) = crew(alloc, 2)?;
    let Some(second) = hands.pop() else {
        return Ok(None);
    };
    let Some(first) = hands.pop() else {
        return Ok(None);
    };
    Ok(Some((crew, first, second)))
}

// The work of a hand.
fn hand_works<G: Gate + Sync>(
    board: &EpochBoard,
    seat: BoardSeat,
    crew: &Crew,
    mut hand: Hand,
    gate: &G,
) -> BoardSeat
    requires seat { IsAt board.now seat }
    requires hand { (hand.of ≡ crew.now.hands) × (hand.number < hand.of) }
    ensures { GoesOn seat result }
{
    work(board, seat, crew, Some(&mut hand), gate)
}

// What the first seat finds by a sweep, after both hands have worked.
fn swept_by_two<R: Threads + Sync>(
    rt: &R,
    alloc: Global,
    board: &EpochBoard,
    mut seat: BoardSeat,
) -> Result<String, NoMemory>
    requires { IsAt board.now seat }
{
    let Some((crew, first, second)) = two_hands(alloc)? else {
        return Ok(String::from_str(alloc, "no crew")?);
    };
    let other = board.split(&mut seat);
    let by = &crew;
    let (mut one, _two) = join(
        rt,
        move || -> BoardSeat
            requires { IsAt board.now seat × (first.of ≡ by.now.hands) × (first.number < first.of) }
            ensures { IsAt board.entry.now result }
        { hand_works(board, seat, by, first, &NoGate) },
        move || -> BoardSeat
            requires { IsAt board.now other × (second.of ≡ by.now.hands) × (second.number < second.of) }
            ensures { IsAt board.entry.now result }
        { hand_works(board, other, by, second, &NoGate) },
    );
    swept(alloc, board, &mut one)
}

/// What the first of two seats finds by a sweep, after two hands have worked on a board.
pub fn closed_by_two<R: Threads + Sync>(
    rt: &R,
    alloc: Global,
    case: Case,
    givens: &Items<Given>,
) -> Result<String, NoMemory> {
    match opened(alloc, case, givens)? {
        Some((board, seat)) => swept_by_two(rt, alloc, &board, seat),
        None => Ok(String::from_str(alloc, "no board")?),
    }
}

// The stops of a trial: the second task, which is held until a turn of worker 1.
const TASK: usize = 0;

const NEXT: GateAt = GateAt::WorkerTurn { worker: 1 };

fn stops_of(alloc: Global) -> Result<Stops, NoMemory> {
    let mut list = Vec::new(alloc);
    list.push(Stop::new(GateAt::Task, 1).until(1))?;
    list.push(Stop::new(NEXT, 0))?;
    Ok(Stops { list, looks: LOOKS })
}

// Once the first hand is held, the second works. What it has found at a variable when it returns, before the first is let go.
fn work_beside(
    board: &EpochBoard,
    seat: BoardSeat,
    crew: &Crew,
    hand: Hand,
    var: u32,
    stops: &Stops,
) -> Option<Fact>
    requires seat { IsAt board.now seat }
    requires hand { (hand.of ≡ crew.now.hands) × (hand.number < hand.of) }
    requires var { var < vars_in board.now.opening }
{
    stops.wait(TASK)?;
    let mut seat = hand_works(board, seat, crew, hand, &NoGate);
    let found = board.value(&mut seat, var);
    stops.pass(NEXT);
    found
}

fn name(found: Option<Fact>) -> &'static str {
    match found {
        None => "nothing",
        Some(fact) => match fact.value {
            Order::Below => "below",
            Order::Above => "above",
        },
    }
}

// The first hand is held at its second task, and only then the second begins.
fn held_and_stolen<R: Threads + Sync>(
    rt: &R,
    alloc: Global,
    board: &EpochBoard,
    mut seat: BoardSeat,
    var: u32,
) -> Result<String, NoMemory>
    requires seat { IsAt board.now seat }
    requires var { var < vars_in board.now.opening }
{
    let Some((crew, first, second)) = two_hands(alloc)? else {
        return Ok(String::from_str(alloc, "no crew")?);
    };
    let stops = stops_of(alloc)?;
    let other = board.split(&mut seat);
    let (by, gate) = (&crew, &stops);
    let (_one, found) = join(
        rt,
        move || -> BoardSeat
            requires { IsAt board.now seat × (first.of ≡ by.now.hands) × (first.number < first.of) }
        { hand_works(board, seat, by, first, gate) },
        move || -> Option<Fact>
            requires { IsAt board.now other × (second.of ≡ by.now.hands) × (second.number < second.of) × (var < vars_in board.now.opening) }
        { work_beside(board, other, by, second, var, gate) },
    );
    Ok(format!(in alloc; "{}, variable {var} {}", stops.told(), name(found))?)
}

/// The first hand is held at its second task, and only then the second begins. What became of the stop, and what the second has found
/// at a variable when it returns, while the first is held.
pub fn stolen<R: Threads + Sync>(
    rt: &R,
    alloc: Global,
    case: Case,
    givens: &Items<Given>,
    var: u32,
) -> Result<String, NoMemory> {
    let Some((board, seat)) = opened(alloc, case, givens)? else {
        return Ok(String::from_str(alloc, "no board")?);
    };
    if var >= board.vars() {
        return Ok(String::from_str(alloc, "no variable")?);
    }
    held_and_stolen(rt, alloc, &board, seat, var)
}
