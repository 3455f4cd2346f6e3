//! Rows of events.
use crate::{journal_text, strip};
use ff_core::Event;
use ff_propagate::{Fact, Reason};
use ff_tables::{Items, NoMemory, Order};
use ff_viewer::Question;
use std::alloc::Global;
use std::test::Fail;

fn text(alloc: Global, folded: bool, events: Vec<Event>) -> Result<String, NoMemory> {
    match strip(alloc, folded)? {
        Some(case) => journal_text(alloc, &case, &Items::of(events)),
        None => Ok(String::from_str(alloc, "no case")?),
    }
}

fn ask(events: &mut Vec<Event>, question: Question) -> Result<(), NoMemory> {
    events.push(Event::Ask {
        viewer: 2,
        question,
    })?;
    Ok(())
}

#[test]
fn opposite_pins(rt: HostRuntime) -> Result<(), Fail> {
    let alloc = rt.alloc();
    let mut events = Vec::new(alloc);
    events.push(Event::Publish)?;
    events.push(Event::Pin {
        viewer: 0,
        f: 0,
        g: 2,
        value: Order::Above,
    })?;
    events.push(Event::Publish)?;
    events.push(Event::Pin {
        viewer: 1,
        f: 0,
        g: 2,
        value: Order::Below,
    })?;
    events.push(Event::Publish)?;
    events.push(Event::Pin {
        viewer: 1,
        f: 2,
        g: 0,
        value: Order::Below,
    })?;
    events.push(Event::Unpin {
        viewer: 0,
        f: 0,
        g: 2,
    })?;
    events.push(Event::Publish)?;
    events.push(Event::Unpin {
        viewer: 0,
        f: 0,
        g: 2,
    })?;
    assert_eq!(rt;
        text(alloc, true, events)?.as_str(),
        "publish 0 -.+\n0.0 epoch 1\npublish 1 -++\n1.0 epoch 2\npublish 2 impossible, with 0 2 -, with 0 2 +, lines 3\n1.1 held +\n0.1 epoch 3\npublish 3 --+\n0.2 not held\n"
    );
    Ok(())
}

#[test]
fn what_rests_on_pins(rt: HostRuntime) -> Result<(), Fail> {
    let alloc = rt.alloc();
    let mut events = Vec::new(alloc);
    // Nothing is answered before the first publication.
    ask(&mut events, Question::Peek)?;
    events.push(Event::Publish)?;
    events.push(Event::Pin {
        viewer: 0,
        f: 1,
        g: 0,
        value: Order::Below,
    })?;
    events.push(Event::Pin {
        viewer: 1,
        f: 1,
        g: 2,
        value: Order::Above,
    })?;
    // The last epoch begun isn't published.
    ask(&mut events, Question::Board)?;
    ask(&mut events, Question::Peek)?;
    events.push(Event::Publish)?;
    // The first above the second and the second above the third force the outer two.
    events.push(Event::Publish)?;
    events.push(Event::Deduce {
        var: 1,
        fact: Fact {
            value: Order::Above,
            level: 1,
            reason: Reason::Forced(0),
        },
    })?;
    events.push(Event::Publish)?;
    ask(&mut events, Question::Board)?;
    ask(&mut events, Question::Order { f: 2, g: 0 })?;
    ask(&mut events, Question::Why { f: 2, g: 0 })?;
    ask(&mut events, Question::Why { f: 0, g: 1 })?;
    ask(&mut events, Question::Parts)?;
    assert_eq!(rt;
        text(alloc, false, events)?.as_str(),
        "publish 0 ...\n0.0 epoch 1\n1.0 epoch 2\n2.0 epoch 0 ...\npublish 1 +..\npublish 2 +++\n2.1 epoch 2 +++\n2.2 -\n2.3 level 1 from 0 1 + 0 1 2 + 0\n2.4 pin\n2.5 parts 0\n"
    );
    Ok(())
}

fn stack(alloc: Global, events: &mut Vec<Event>, choice: &[u32]) -> Result<(), NoMemory> {
    ask(
        events,
        Question::Stack {
            choice: Items::of(Vec::from_slice(alloc, choice)?),
        },
    )
}

#[test]
fn pages_and_stacks(rt: HostRuntime) -> Result<(), Fail> {
    let alloc = rt.alloc();
    let mut events = Vec::new(alloc);
    events.push(Event::Publish)?;
    ask(&mut events, Question::Parts)?;
    ask(&mut events, Question::Page { part: 0, page: 0 })?;
    ask(&mut events, Question::Page { part: 0, page: 1 })?;
    ask(&mut events, Question::Page { part: 1, page: 0 })?;
    stack(alloc, &mut events, &[3])?;
    stack(alloc, &mut events, &[6])?;
    stack(alloc, &mut events, &[])?;
    assert_eq!(rt;
        text(alloc, false, events)?.as_str(),
        "publish 0 ...\n2.0 parts 1\n2.1 page --- --+ -++ +-- ++- +++\n2.2 past 6\n2.3 no part\n2.4 stack +--\n2.5 part 0 past\n2.6 count 1\n"
    );
    Ok(())
}
