// A small machine whose items add to counters, played in different orders.

use counters::{Counters, Event, Item, add_all, is_program};
use std::alloc::Global;
use std::test::Fail;

const ITEMS: [Item; 4] = [
    Item {
        deferred: true,
        wait: false,
        counter: 0,
        amount: 5,
    },
    Item {
        deferred: true,
        wait: false,
        counter: 1,
        amount: 7,
    },
    Item {
        deferred: true,
        wait: false,
        counter: 0,
        amount: 30,
    },
    Item {
        deferred: false,
        wait: true,
        counter: 0,
        amount: 0,
    },
];

// Whether so many of the events are done, and the counters then are these.
fn adds(alloc: Global, events: Vec<Event>, done: usize, sums: [u64; 2]) -> Result<bool, Fail> {
    let items = ITEMS.to_vec(alloc)?;
    if !is_program(&items, 2) {
        return Ok(false);
    }
    let mut state = Counters::new(alloc, items, vec![in alloc; 100, 200]?)?;
    Ok(add_all(&mut state, events)? == done && state.counters() == sums.as_slice())
}

#[test]
fn any_order(rt: HostRuntime) -> Result<(), Fail> {
    let alloc = rt.alloc();
    let events = vec![in alloc;
        Event::Gen(0),
        Event::Gen(1),
        Event::Open(1),
        Event::Gen(2),
        Event::Open(0),
        Event::Close(0),
        Event::Open(2),
        Event::Close(1),
        Event::Close(2),
        Event::Wait(3),
    ]?;
    assert!(rt; adds(alloc, events, 10, [135, 207])?);
    Ok(())
}

// Its items wait for one another: the third may not be opened before the first is closed.
#[test]
fn stops_where_not_enabled(rt: HostRuntime) -> Result<(), Fail> {
    let alloc = rt.alloc();
    let events = vec![in alloc;
        Event::Gen(0),
        Event::Gen(1),
        Event::Gen(2),
        Event::Open(2),
        Event::Close(2),
    ]?;
    assert!(rt; adds(alloc, events, 3, [100, 200])?);
    Ok(())
}
