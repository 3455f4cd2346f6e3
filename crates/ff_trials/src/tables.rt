//! Rows, and what they force.
ghost use Rattle.std.specs.Prelude.{length, None, slice_index_or};

use arrayvec::ArrayVec;
use ff_tables::{
    Constraint, Forced, Items, Kind, Known, NoMemory, Order, System, Term, Terms, Text, forced,
    system_of,
};
use std::alloc::Global;
use std::test::Fail;

#[derive(Drop)]
struct Values {
    list: Vec<Option<Order>>,
}

impl Known for Values {
    ghost use Rattle.std.specs.Prelude.{length, None, slice_index_or};

    ghost count = { λ s. length s.list.items };

    ghost known = { λ s v. slice_index_or s.list.items v None };

    fn value(&self, var: u32) -> Option<Order> {
        self.list[var as usize]
    }
}

// A constraint on the variables 0, 1, 2 and so on, of which those in the list are flipped.
fn constraint(kind: Kind, count: u32, flipped: &[u32]) -> Constraint {
    let mut list: ArrayVec<Term, 6> = ArrayVec::new();
    for var in 0..count {
        let _ = list.try_push(Term {
            var,
            flipped: flipped.contains(&var),
        });
    }
    Constraint {
        kind,
        terms: Terms::of(list),
    }
}

fn system(
    alloc: Global,
    kind: Kind,
    count: u32,
    flipped: &[u32],
) -> Result<Option<System>, NoMemory> {
    let mut list = Vec::new(alloc);
    list.push(constraint(kind, count, flipped))?;
    Ok(system_of(count, Items::of(list)))
}

// What the first constraint forces from values of all variables, of which `.` is unknown, `-` below, `+`
// above.
fn forced_from(alloc: Global, system: &System, values: &str) -> Result<Option<Forced>, NoMemory> {
    let mut list = Vec::new(alloc);
    for byte in values.as_bytes() {
        list.push(match *byte {
            b'-' => Some(Order::Below),
            b'+' => Some(Order::Above),
            _ => None,
        })?;
    }
    let known = Values { list };
    if known.list.len() < system.vars as usize || system.constraints.as_slice().is_empty() {
        return Ok(None);
    }
    Ok(Some(forced(&system.constraints.as_slice()[0], &known)))
}

// The sixteen orders of a, b, c, d, bottom to top, in which {a, b} and {c, d} don't interleave.
const APART: [&str; 16] = [
    "abcd", "abdc", "bacd", "badc", "cdab", "cdba", "dcab", "dcba", "acdb", "adcb", "bcda", "bdca",
    "cabd", "cbad", "dabc", "dbac",
];

fn height(order: &str, face: u8) -> usize {
    let bytes = order.as_bytes();
    for i in 0..bytes.len() {
        if bytes[i] == face {
            return i;
        }
    }
    bytes.len()
}

// Whether the values are those of the six pairs in the order.
fn is_row(order: &str, values: &[u8]) -> bool {
    let pairs = [
        (b'a', b'b'),
        (b'a', b'c'),
        (b'a', b'd'),
        (b'b', b'c'),
        (b'b', b'd'),
        (b'c', b'd'),
    ];
    for i in 0..6 {
        let (p, q) = pairs[i];
        let value = if height(order, q) < height(order, p) {
            b'+'
        } else {
            b'-'
        };
        if i >= values.len() || values[i] != value {
            return false;
        }
    }
    true
}

// Whether the values of as many variables as the list has, as the bits of a number.
fn values_of(alloc: Global, count: u32, number: u32) -> Result<String, NoMemory> {
    let mut text = String::new(alloc);
    for i in 0..count {
        text.push(if number >> (i % 32) & 1 == 1 {
            '+'
        } else {
            '-'
        })?;
    }
    Ok(text)
}

#[test]
fn taco_rows_are_the_sixteen_orders(rt: HostRuntime) -> Result<(), Fail> {
    let alloc = rt.alloc();
    let Some(system) = system(alloc, Kind::TacoTaco, 6, &[])? else {
        return Err(Fail::from("no system"));
    };
    for number in 0..64u32 {
        let values = values_of(alloc, 6, number)?;
        let is_listed = APART.iter().any(|order| is_row(order, values.as_bytes()));
        let is_row = forced_from(alloc, &system, &values)? == Some(Forced::Nothing);
        assert_eq!(rt; is_row, is_listed);
    }
    Ok(())
}

#[test]
fn forces_the_first_unknown_term(rt: HostRuntime) -> Result<(), Fail> {
    let alloc = rt.alloc();
    let below = |var: u32| Some(Forced::Value {
        var,
        value: Order::Below,
    });
    let above = |var: u32| Some(Forced::Value {
        var,
        value: Order::Above,
    });
    let cases: [(Kind, u32, &[u32], &str, Option<Forced>); 11] = [
        (Kind::Transitivity, 3, &[], "-.-", below(1)),
        (Kind::Transitivity, 3, &[1], "-.-", above(1)),
        (Kind::Transitivity, 3, &[], "-+.", above(2)),
        (Kind::Transitivity, 3, &[], "-.+", Some(Forced::Nothing)),
        (Kind::Transitivity, 3, &[], "+-+", Some(Forced::Dead)),
        (Kind::TacoTortilla, 2, &[], ".+", above(0)),
        (Kind::TortillaTortilla, 2, &[1], "-.", above(1)),
        (Kind::TacoTortilla, 2, &[], "..", Some(Forced::Nothing)),
        (Kind::TacoTaco, 6, &[], "......", Some(Forced::Nothing)),
        (Kind::TacoTaco, 6, &[], "--.+..", below(2)),
        (Kind::TacoTaco, 6, &[], ".-+-+.", above(5)),
    ];
    for (kind, count, flipped, values, answer) in cases {
        let Some(system) = system(alloc, kind, count, flipped)? else {
            return Err(Fail::from("no system"));
        };
        assert_eq!(rt; forced_from(alloc, &system, values)?, answer);
    }
    Ok(())
}

#[test]
fn copies_are_equal(rt: HostRuntime) -> Result<(), Fail> {
    let alloc = rt.alloc();
    let items = Items::of(Vec::from_slice(alloc, &[3u32, 1, 2])?);
    assert_eq!(rt; items.copy(alloc)?.as_slice(), [3, 1, 2].as_slice());
    let text = Text::of(String::from_str(alloc, "pairs 0")?);
    assert_eq!(rt; text.copy(alloc)?.as_str(), "pairs 0");
    Ok(())
}
