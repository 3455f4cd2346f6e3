//! A list of marks behind a door, to which threads add.
ghost use Rattle.std.specs.Prelude.{◌≡◌, ◌<◌, false};
ghost use Rattle.ff_door.specs.Views.{IsAt};

use ff_door::{Door, DoorSeat, Kept, new_door};
use ff_tables::NoMemory;
use std::alloc::Global;
use std::sync::Wait;
use std::thread::{Threads, for_each_mut};

/// Marks, each the number of the seat whose turn it was.
#[derive(Drop)]
pub struct Marks {
    list: Vec<u32>,
}

impl Kept for Marks {
    ghost use Rattle.std.specs.Prelude.{Some};

    type Entry = u32;

    type Base = u8;

    ghost listed = { λ m. m.list.items };

    ghost names = { λ e. Some e };

    ghost base = { λ m. 0 };

    fn entries(&self) -> u64 {
        self.list.len() as u64
    }
}

// One mark in a turn of its own. Whether there was memory for it.
fn mark<R: Wait>(rt: &R, door: &Door<Marks>, seat: &mut DoorSeat<Marks>, number: u32) -> bool
    requires seat { IsAt door.now seat.old × (seat.old.inside ≡ false) × (seat.old.number ≡ number) }
    ensures seat { IsAt door.now seat.new × (seat.new.inside ≡ false) × (seat.new.number ≡ number) }
{
    let mut marks = door.enter(rt, seat);
    let pushed = marks.list.push(number).is_ok();
    door.leave(seat, marks);
    pushed
}

fn mark_often<R: Wait>(
    rt: &R,
    door: &Door<Marks>,
    seat: &mut DoorSeat<Marks>,
    number: u32,
    times: u32,
)
    requires seat { IsAt door.now seat.old × (seat.old.inside ≡ false) × (seat.old.number ≡ number) }
    ensures seat { IsAt door.now seat.new × (seat.new.inside ≡ false) }
{
    for _ in 0..times {
        if !mark(rt, door, seat, number) {
            return;
        }
    }
}

/// What as many seats mark, each so many times, each in a thread of its own where one can be made.
pub fn marked<R: Threads + Wait + Sync>(
    rt: &R,
    alloc: Global,
    seats: u32,
    times: u32,
) -> Result<Vec<u32>, NoMemory> {
    if seats == 0 {
        return Ok(Vec::new(alloc));
    }
    let marks = Marks {
        list: Vec::new(alloc),
    };
    let (door, mut all) = new_door(alloc, marks, seats)?;
    let at = &door;
    let one = move |number: usize, seat: &mut DoorSeat<Marks>|
        requires { IsAt at.now seat.now × (seat.now.inside ≡ false) × (seat.now.number ≡ number) × (number < 4294967296) }
        ensures { IsAt at.entry.now seat.exit.now × (seat.exit.now.inside ≡ false) }
    { mark_often(rt, at, seat, number as u32, times) };
    for_each_mut(rt, all.as_mut_slice(), seats as usize, &one);
    let Marks { list } = door.close(all);
    Ok(list)
}

/// How often each of the numbers below `seats` is among the marks, and how many there are.
pub fn counted(alloc: Global, marks: &[u32], seats: u32) -> Result<String, NoMemory> {
    let mut text = String::new(alloc);
    for seat in 0..seats {
        let own = marks.iter().filter(|&&number| number == seat).count();
        text.push_str(format!(in alloc; "{own} ")?.as_str())?;
    }
    text.push_str(format!(in alloc; "of {}", marks.len())?.as_str())?;
    Ok(text)
}
