// A run of a source, action by action.

use base::fault::RunFault;
use base::item::{Cell, Event};
use base::tree::{ArrayId, DeviceId};
use c_read::read_program;
use machine::play;
use outline::{Outlined, outline};
use std::alloc::{AllocError, Global};
use std::test::Fail;
use stepper::{FineRun, Turn, shown_of};

// An entry that stays, a target on it, an update.
const KEPT: &str =
    "uint64_t A[2];\nint main(void) {\nA[1] = 7;\n#pragma omp target enter data map(to: A)\n#pragma omp target\n{ A[0] = A[1] + 1; }\n#pragma omp target update from(A)\nprint(A[0]);\n}\n";

const FIRST: DeviceId = DeviceId { number: 0 };

fn cell(index: u64) -> Cell {
    Cell {
        array: ArrayId(0),
        index,
    }
}

fn happens(run: &mut FineRun<'_>, event: Event) -> bool {
    run.is_enabled(event) && run.take(event).is_ok()
}

fn happen_all(run: &mut FineRun<'_>, events: &[Event]) -> bool {
    for event in events {
        if !happens(run, *event) {
            return false;
        }
    }
    true
}

// The host stores, both cells are entered and copied, and the target adds to the count, loads and stores.
fn is_stored(run: &mut FineRun<'_>) -> bool {
    let events = [
        Event::Open(0),
        Event::Step(0),
        Event::Close(0),
        Event::Open(1),
        Event::Step(1),
        Event::Step(1),
        Event::Step(1),
        Event::Close(1),
        Event::Open(2),
        Event::Step(2),
        Event::Step(2),
    ];
    happen_all(run, events.as_slice())
        && run.count(FIRST, cell(0)) == Some(2)
        && run.device_cell(FIRST, cell(0)) == Some(0)
        && happens(run, Event::Step(2))
        && run.device_cell(FIRST, cell(0)) == Some(8)
        && run.device_cell(FIRST, cell(2)) == None
        && !run.is_enabled(Event::Close(2))
}

// What it stored comes to the host by the update's first copy.
fn is_copied(run: &mut FineRun<'_>) -> bool {
    let events = [Event::Step(2), Event::Close(2), Event::Open(3)];
    happen_all(run, events.as_slice())
        && run.count(FIRST, cell(0)) == Some(1)
        && run.host_cell(cell(0)) == 0
        && happens(run, Event::Step(3))
        && run.host_cell(cell(0)) == 8
        && run.output().is_empty()
        && run.history().len() == 16
}

// The turns to the end, of which the one past it is not done.
fn is_ended(alloc: Global, run: &mut FineRun<'_>) -> Result<bool, AllocError> {
    let turns = vec![in alloc;
        Turn::Step(3),
        Turn::Close(3),
        Turn::Open(4),
        Turn::Step(4),
        Turn::Close(4),
        Turn::Wait(5),
        Turn::Wait(5),
    ]?;
    Ok(
        matches!(play::<FineRun<'_>>(run, turns), Ok(6))
            && run.output() == [8].as_slice()
            && run.stopped() == None,
    )
}

// A device that has room for one cell stops the run at the entry of two.
fn is_full(run: &mut FineRun<'_>) -> bool {
    let events = [
        Event::Open(0),
        Event::Step(0),
        Event::Close(0),
        Event::Open(1),
    ];
    happen_all(run, events.as_slice())
        && run.is_enabled(Event::Step(1))
        && run.take(Event::Step(1)) == Err(RunFault::DeviceFull)
        && run.stopped() == Some(Event::Step(1))
        && run.history() == events.as_slice()
        && !run.is_enabled(Event::Step(1))
}

fn look(alloc: Global, outlined: &Outlined<'_>) -> Result<bool, Fail> {
    let arrays = shown_of(alloc, outlined).map_err(Fail::new)?;
    let mut run = FineRun::new(alloc, outlined, &[], &[], 2)?;
    let mut small = FineRun::new(alloc, outlined, &[], &[], 1)?;
    Ok(
        arrays.as_slice() == [ArrayId(0)].as_slice()
            && run.program().body.len() == 5
            && is_stored(&mut run)
            && is_copied(&mut run)
            && is_ended(alloc, &mut run)?
            && is_full(&mut small),
    )
}

#[test]
fn a_run_is_told_between_its_actions(rt: HostRuntime) -> Result<(), Fail> {
    let program = read_program(rt.alloc(), KEPT.as_bytes()).map_err(Fail::new)?;
    let outlined = outline(rt.alloc(), &program).map_err(Fail::new)?;
    assert!(rt; look(rt.alloc(), &outlined)?);
    Ok(())
}
