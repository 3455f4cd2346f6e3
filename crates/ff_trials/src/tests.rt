//! Rows of parts and their searches.
use crate::{Shape, Turns, case, strip, tried};
use ff_tables::{Kind, NoMemory, Order};
use ff_types::Case;
use std::alloc::Global;
use std::test::Fail;

// Two variables and two constraints, which no values meet.
fn by_hand(alloc: Global) -> Result<Option<Case>, NoMemory> {
    let mut pairs = Vec::new(alloc);
    pairs.push((0, 1))?;
    pairs.push((0, 2))?;
    let equal: Shape = (Kind::TacoTortilla, &[(0, false), (1, false)]);
    let other: Shape = (Kind::TacoTortilla, &[(0, false), (1, true)]);
    case(alloc, pairs, &[equal, other])
}

fn text(
    alloc: Global,
    case: Option<Case>,
    givens: &[(u32, Order)],
    turns: Turns,
) -> Result<String, NoMemory> {
    match case {
        Some(case) => tried(alloc, &case, givens, turns),
        None => Ok(String::from_str(alloc, "no case")?),
    }
}

#[test]
fn a_part_without_solutions(rt: HostRuntime) -> Result<(), Fail> {
    let alloc = rt.alloc();
    let hand = |calls: &[u64]| text(alloc, by_hand(alloc)?, &[], Turns::Calls(calls));
    // The tree has three nodes of two turns. Two nodes use 4 of 5 turns, and 1 turn doesn't cover the third.
    assert_eq!(rt;
        hand(&[5, 2, 0, 7])?.as_str(),
        "part 0 1: spent finished finished finished used 6\n"
    );
    assert_eq!(rt; hand(&[5])?.as_str(), "part 0 1: spent used 4\n");
    assert_eq!(rt; hand(&[6])?.as_str(), "part 0 1: finished used 6\n");
    assert_eq!(rt; hand(&[0, 1])?.as_str(), "part 0 1: spent spent used 0\n");
    Ok(())
}

#[test]
fn three_panels(rt: HostRuntime) -> Result<(), Fail> {
    let alloc = rt.alloc();
    // Six orders of three faces; eleven nodes of three turns.
    assert_eq!(rt;
        text(alloc, strip(alloc, 3)?, &[], Turns::Budget(1000))?.as_str(),
        "part 0 1 2: --- --+ -++ +-- ++- +++ finished used 33\n"
    );
    // The first solution is the fourth node, and the second the fifth.
    assert_eq!(rt;
        text(alloc, strip(alloc, 3)?, &[], Turns::Calls(&[9, 2, 3, 3]))?.as_str(),
        "part 0 1 2: spent spent --- --+ used 15\n"
    );
    // The first below the second and the second above the third leave the outer two open.
    assert_eq!(rt;
        text(
            alloc,
            strip(alloc, 3)?,
            &[(0, Order::Below), (2, Order::Above)],
            Turns::Budget(9)
        )?
        .as_str(),
        "part 1: - + finished used 3\n"
    );
    assert_eq!(rt;
        text(
            alloc,
            strip(alloc, 3)?,
            &[(0, Order::Below), (2, Order::Below), (1, Order::Above)],
            Turns::Budget(9)
        )?
        .as_str(),
        "clash"
    );
    Ok(())
}

// How many solutions the only part has under the budget, the first and the last of them, and what follows them.
fn summary(rt: HostRuntime, panels: u32, budget: u64) -> Result<String, Fail> {
    let alloc = rt.alloc();
    let all = text(alloc, strip(alloc, panels)?, &[], Turns::Budget(budget))?;
    let mut count = 0u32;
    let mut first = String::new(alloc);
    let mut last = String::new(alloc);
    let mut end = String::new(alloc);
    for word in all.as_str().split_whitespace() {
        if word.starts_with('-') || word.starts_with('+') {
            if count == 0 {
                first.push_str(word)?;
            }
            last = String::from_str(alloc, word)?;
            count = count.saturating_add(1);
        } else if count > 0 {
            end.push(' ')?;
            end.push_str(word)?;
        }
    }
    Ok(format!(in alloc;
        "{count} {} {}{}",
        first.as_str(),
        last.as_str(),
        end.as_str()
    )?)
}

#[test]
fn four_panels(rt: HostRuntime) -> Result<(), Fail> {
    // 31 nodes of six turns; the last is the last solution.
    assert_eq!(rt;
        summary(rt, 4, 186)?.as_str(),
        "16 ------ ++++++ finished used 186"
    );
    assert_eq!(rt;
        summary(rt, 4, 185)?.as_str(),
        "15 ------ +++++- spent used 180"
    );
    Ok(())
}

#[test]
fn seven_panels(rt: HostRuntime) -> Result<(), Fail> {
    let text = summary(rt, 7, 1_000_000)?;
    assert!(rt;
        text.as_str()
            .starts_with("462 --------------------- +++++++++++++++++++++ finished")
    );
    Ok(())
}
