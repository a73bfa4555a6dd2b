// Runs of sources, event by event.

use crate::sources::{Look, look_at};
use base::fault::RunFault;
use base::item::{Cell, Event};
use base::tree::{ArrayId, DeviceId};
use device::{RunState, run_choices};
use lower::Image;
use std::alloc::Global;
use std::test::Fail;

// A scalar is set, a target is deferred, the scalar is set again, and the target is waited for.
const CAPTURED: &str =
    "uint64_t A[2];\nint main(void) {\nuint64_t s = 5;\n#pragma omp target map(tofrom: A) nowait\n{ A[0] = s; }\ns = 9;\n#pragma omp taskwait\nprint(A[0]);\n}\n";

// Two deferred targets on arrays of eight cells.
const TWO_ARRAYS: &str =
    "uint64_t A[8];\nuint64_t B[8];\nint main(void) {\nB[0] = 3;\n#pragma omp target map(tofrom: A) nowait\nfor (uint64_t i = 0; i < 8; i += 1) { A[i] = i; }\n#pragma omp target map(tofrom: B) nowait\nfor (uint64_t i = 0; i < 8; i += 1) { B[i] = B[i] + 10; }\n#pragma omp taskwait\nprint(A[7]); print(B[0]);\n}\n";

// An entry that stays, a target on it, an update.
const KEPT: &str =
    "uint64_t A[2];\nint main(void) {\nA[1] = 7;\n#pragma omp target enter data map(to: A)\n#pragma omp target\n{ A[0] = A[1] + 1; }\n#pragma omp target update from(A)\nprint(A[0]);\n}\n";

// An array on two devices, where a target of each works on its own copy.
const TWO_DEVICES: &str =
    "uint64_t A[2];\nint main(void) {\n#pragma omp target enter data map(to: A)\n#pragma omp target enter data map(to: A) device(1)\n#pragma omp target map(present, alloc: A) nowait\n{ A[0] = 7; }\n#pragma omp target map(present, alloc: A) nowait device(1)\n{ A[1] = 8; }\n#pragma omp taskwait\n#pragma omp target update from(present: A[0:1])\n#pragma omp target update from(A[1:1]) device(1)\nprint(A[0]); print(A[1]);\n}\n";

const FIRST: DeviceId = DeviceId { number: 0 };

const SECOND: DeviceId = DeviceId { number: 1 };

fn cell(array: u32, index: u64) -> Cell {
    Cell {
        array: ArrayId(array),
        index,
    }
}

// Does the event if it may happen, and answers whether it did.
fn happens(run: &mut RunState<'_>, event: Event) -> bool {
    run.is_enabled(event) && run.take(event).is_ok()
}

fn happen_all(run: &mut RunState<'_>, events: &[Event]) -> bool {
    for event in events {
        if !happens(run, *event) {
            return false;
        }
    }
    true
}

// Whether these are the events that may happen next.
fn are_next(run: &RunState<'_>, events: &[Event]) -> bool {
    matches!(run.enabled(), Ok(next) if next.as_slice() == events)
}

// The target is opened after the scalar was set again, and cannot be waited for.
fn is_opened(run: &mut RunState<'_>) -> bool {
    let events = [
        Event::Open(0),
        Event::Close(0),
        Event::Gen(1),
        Event::Open(2),
        Event::Close(2),
        Event::Open(1),
    ];
    happen_all(run, events.as_slice())
        && run.device_cell(FIRST, cell(0, 0)) == Some(0)
        && run.count(FIRST, cell(0, 1)) == Some(1)
        && !run.is_enabled(Event::Wait(3))
}

// It is closed: the scalar that it stored is the captured one, and its cells have left the device.
fn is_closed(run: &mut RunState<'_>) -> bool {
    happens(run, Event::Close(1))
        && run.device_cell(FIRST, cell(0, 0)) == None
        && run.count(FIRST, cell(0, 0)) == None
        && run.host_cell(cell(0, 0)) == 5
        && run.host_cell(cell(0, 2)) == 0
        && run.host_cell(cell(7, 0)) == 0
}

// Nothing but the wait comes next, and what follows it ends the run.
fn is_ended(run: &mut RunState<'_>) -> bool {
    let events = [Event::Wait(3), Event::Open(4), Event::Close(4), Event::End];
    are_next(run, &events[..1])
        && happen_all(run, events.as_slice())
        && run.output() == b"5\n".as_slice()
        && run.history().len() == 11
        && are_next(run, &[])
}

struct Captured;

impl Look for Captured {
    fn look(&self, alloc: Global, image: &Image<'_>) -> Result<bool, Fail> {
        let mut run = RunState::new(alloc, image, &[], 2)?;
        Ok(is_opened(&mut run) && is_closed(&mut run) && is_ended(&mut run))
    }
}

#[test]
fn scalars_are_captured_where_the_item_is_generated(rt: HostRuntime) -> Result<(), Fail> {
    assert!(rt; look_at(rt.alloc(), CAPTURED, &Captured)?);
    Ok(())
}

// The choices lead to an opening for which there is no room.
fn is_full(run: &mut RunState<'_>) -> bool {
    let events = [
        Event::Open(0),
        Event::Close(0),
        Event::Gen(1),
        Event::Open(1),
        Event::Gen(2),
    ];
    run.play_choices(&[0, 0, 0, 0, 1, 1]) == Err(RunFault::DeviceFull)
        && run.history() == events.as_slice()
}

// The state is the one before that opening.
fn is_unchanged(run: &RunState<'_>) -> bool {
    run.is_enabled(Event::Open(2))
        && run.is_enabled(Event::Close(1))
        && run.count(FIRST, cell(0, 0)) == Some(1)
        && run.count(FIRST, cell(1, 0)) == None
        && run.host_cell(cell(1, 0)) == 3
        && run.output().is_empty()
}

// By other choices it goes on to its end, behind which choices do nothing.
fn goes_on(run: &mut RunState<'_>) -> bool {
    run.play_choices(&[]).is_ok()
        && run.output() == b"7\n13\n".as_slice()
        && run.play_choices(&[1]).is_ok()
        && run.output() == b"7\n13\n".as_slice()
        && run.history().len() == 12
}

struct Full;

impl Look for Full {
    fn look(&self, alloc: Global, image: &Image<'_>) -> Result<bool, Fail> {
        let mut run = RunState::new(alloc, image, &[], 8)?;
        Ok(is_full(&mut run) && is_unchanged(&run) && goes_on(&mut run))
    }
}

#[test]
fn a_full_device_changes_nothing(rt: HostRuntime) -> Result<(), Fail> {
    assert!(rt; look_at(rt.alloc(), TWO_ARRAYS, &Full)?);
    Ok(())
}

// Whether the choices stop before the opening of this item, after so many events, on a device of this size.
fn stops_at(
    alloc: Global,
    image: &Image<'_>,
    capacity: u64,
    item: u32,
    events: usize,
) -> Result<bool, Fail> {
    let mut run = RunState::new(alloc, image, &[], capacity)?;
    Ok(
        run.play_choices(&[0, 0, 0, 0, 1, 1]) == Err(RunFault::DeviceFull)
            && run.history().len() == events
            && run.is_enabled(Event::Open(item)),
    )
}

struct Sizes;

impl Look for Sizes {
    fn look(&self, alloc: Global, image: &Image<'_>) -> Result<bool, Fail> {
        Ok(
            stops_at(alloc, image, 0, 1, 3)?
                && stops_at(alloc, image, 7, 1, 3)?
                && stops_at(alloc, image, 15, 2, 5)?,
        )
    }
}

#[test]
fn a_run_stops_where_its_device_is_full(rt: HostRuntime) -> Result<(), Fail> {
    assert!(rt; look_at(rt.alloc(), TWO_ARRAYS, &Sizes)?);
    Ok(())
}

// The target adds to the count of the entry, and leaves it its cells.
fn is_kept(run: &mut RunState<'_>) -> bool {
    let events = [
        Event::Open(0),
        Event::Close(0),
        Event::Open(1),
        Event::Close(1),
        Event::Open(2),
    ];
    happen_all(run, events.as_slice())
        && run.count(FIRST, cell(0, 0)) == Some(2)
        && run.device_cell(FIRST, cell(0, 1)) == Some(7)
        && happens(run, Event::Close(2))
        && run.count(FIRST, cell(0, 0)) == Some(1)
        && run.device_cell(FIRST, cell(0, 0)) == Some(8)
}

// What it stored comes to the host by the update alone.
fn is_updated(run: &mut RunState<'_>) -> bool {
    run.host_cell(cell(0, 0)) == 0 && happens(run, Event::Open(3)) && run.host_cell(cell(0, 0)) == 8
}

struct Kept;

impl Look for Kept {
    fn look(&self, alloc: Global, image: &Image<'_>) -> Result<bool, Fail> {
        let mut run = RunState::new(alloc, image, &[], 2)?;
        Ok(is_kept(&mut run) && is_updated(&mut run))
    }
}

#[test]
fn entries_stay_until_they_are_left(rt: HostRuntime) -> Result<(), Fail> {
    assert!(rt; look_at(rt.alloc(), KEPT, &Kept)?);
    Ok(())
}

struct Marked;

impl Look for Marked {
    fn look(&self, alloc: Global, image: &Image<'_>) -> Result<bool, Fail> {
        let answer = run_choices(alloc, image, &[], &[0, 0, 0, 0, 1, 1, 1, 2], 16).map_err(
            Fail::new,
        )?;
        Ok(
            answer.out.as_slice() == b"7\n13\n".as_slice()
                && answer.finals.len() == 2
                && answer.finals[1].0 == ArrayId(1)
                && answer.finals[1].1.as_slice() == [13, 10, 10, 10, 10, 10, 10, 10].as_slice(),
        )
    }
}

#[test]
fn an_answer_has_what_is_marked(rt: HostRuntime) -> Result<(), Fail> {
    assert!(rt; look_at(rt.alloc(), TWO_ARRAYS, &Marked)?);
    Ok(())
}

// Each kernel has stored in the memory of its own device.
fn are_apart(run: &mut RunState<'_>) -> bool {
    run.play_choices(&[]).is_ok()
        && run.device_cell(FIRST, cell(0, 0)) == Some(7)
        && run.device_cell(FIRST, cell(0, 1)) == Some(0)
        && run.device_cell(SECOND, cell(0, 0)) == Some(0)
        && run.device_cell(SECOND, cell(0, 1)) == Some(8)
        && run.output() == b"7\n8\n".as_slice()
}

// Nothing is on the second device before it is entered there, and then each counts for itself.
fn are_entered(run: &mut RunState<'_>) -> bool {
    let first = [Event::Open(0), Event::Close(0)];
    let second = [
        Event::Open(1),
        Event::Close(1),
        Event::Gen(2),
        Event::Open(2),
    ];
    happen_all(run, first.as_slice())
        && run.count(FIRST, cell(0, 0)) == Some(1)
        && run.count(SECOND, cell(0, 0)) == None
        && happen_all(run, second.as_slice())
        && run.count(FIRST, cell(0, 0)) == Some(2)
        && run.count(SECOND, cell(0, 0)) == Some(1)
}

struct TwoDevices;

// Each device has room for the whole array alone.
impl Look for TwoDevices {
    fn look(&self, alloc: Global, image: &Image<'_>) -> Result<bool, Fail> {
        let mut run = RunState::new(alloc, image, &[], 2)?;
        Ok(are_entered(&mut run) && are_apart(&mut run))
    }
}

#[test]
fn each_device_has_storage_of_its_own(rt: HostRuntime) -> Result<(), Fail> {
    assert!(rt; look_at(rt.alloc(), TWO_DEVICES, &TwoDevices)?);
    Ok(())
}
