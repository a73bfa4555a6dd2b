// Runs of one program with different inputs, whose regions are run apart from them.

use crate::sources::{Look, look_at};
use base::fault::RunFault;
use base::item::Event;
use device::{Job, RunState, Turn};
use kernel::{Done, run};
use lower::Image;
use machine::play;
use std::alloc::{AllocError, Global};
use std::test::Fail;

const ADDS_ITS_INPUT: &str =
    "uint64_t A[4];\nuint64_t x;\nint main(void) {\nx = read();\nA[0] = 1;\n#pragma omp target map(tofrom: A)\n{ A[0] = A[0] + x; }\nprint(A[0]);\n}\n";

fn opened<'a>(state: &mut RunState<'a>, item: u32) -> Option<Job<'a>> {
    if !state.is_enabled(Event::Open(item)) {
        return None;
    }
    state.open(item).ok()
}

fn is_taken(outcome: Result<(), RunFault>) -> bool {
    matches!(outcome, Ok(()))
}

fn is_stranger(outcome: Result<(), RunFault>) -> bool {
    matches!(outcome, Err(RunFault::Stranger))
}

// Two regions that were run: what one run issued is a stranger to the other, and each takes its own once.
fn are_taken_once<'a>(
    left: &mut RunState<'a>,
    right: &mut RunState<'a>,
    mine: &Done<'_, '_, 'a>,
    theirs: &Done<'_, '_, 'a>,
) -> bool {
    is_stranger(left.close(theirs))
        && is_taken(left.close(mine))
        && is_stranger(left.close(mine))
        && is_stranger(right.close(mine))
        && is_taken(right.close(theirs))
}

// An item of both. False, too, where memory is wanting.
fn are_own<'a>(
    alloc: Global,
    left: &mut RunState<'a>,
    right: &mut RunState<'a>,
    item: u32,
) -> bool {
    let Some(mine) = opened(left, item) else {
        return false;
    };
    let Some(theirs) = opened(right, item) else {
        return false;
    };
    match (
        run(alloc, mine.code, &mine.frame),
        run(alloc, theirs.code, &theirs.frame),
    ) {
        (Ok(done), Ok(other)) => are_taken_once(left, right, &done, &other),
        _ => false,
    }
}

// What was run is taken, and is a stranger once the run is at its end.
fn is_end<'a>(state: &mut RunState<'a>, done: &Done<'_, '_, 'a>, printed: &[u8]) -> bool {
    is_taken(state.close(done))
        && state.is_enabled(Event::End)
        && state.end().is_ok()
        && is_stranger(state.close(done))
        && state.output() == printed
}

// The last item of a run.
fn ends(alloc: Global, state: &mut RunState<'_>, item: u32, printed: &[u8]) -> bool {
    let Some(job) = opened(state, item) else {
        return false;
    };
    match run(alloc, job.code, &job.frame) {
        Ok(done) => is_end(state, &done, printed),
        Err(_) => false,
    }
}

// All items of both.
fn are_apart<'a>(alloc: Global, left: &mut RunState<'a>, right: &mut RunState<'a>) -> bool {
    are_own(alloc, left, right, 0)
        && are_own(alloc, left, right, 1)
        && ends(alloc, left, 2, b"6\n".as_slice())
        && ends(alloc, right, 2, b"7\n".as_slice())
}

struct TwoRuns;

impl Look for TwoRuns {
    fn look(&self, alloc: Global, image: &Image<'_>) -> Result<bool, Fail> {
        let inputs = ([5], [6]);
        let mut left = RunState::new(alloc, image, &inputs.0, 4)?;
        let mut right = RunState::new(alloc, image, &inputs.1, 4)?;
        Ok(are_apart(alloc, &mut left, &mut right))
    }
}

fn turns(alloc: Global) -> Result<Vec<Turn>, AllocError> {
    let mut turns = Vec::new(alloc);
    for item in 0..3 {
        turns.push(Turn::Open(item))?;
        turns.push(Turn::Close(item))?;
    }
    turns.push(Turn::Wait(3))?;
    turns.push(Turn::Open(0))?;
    Ok(turns)
}

// Seven turns are taken, and behind the last of the run none.
fn are_played(state: &mut RunState<'_>, turns: Vec<Turn>) -> bool {
    matches!(play::<RunState<'_>>(state, turns), Ok(7))
        && state.output() == b"6\n".as_slice()
        && state.history().last() == Some(&Event::End)
}

// The events in turn, through the bound.
struct Played;

impl Look for Played {
    fn look(&self, alloc: Global, image: &Image<'_>) -> Result<bool, Fail> {
        let input = [5];
        let turns = turns(alloc)?;
        let mut state = RunState::new(alloc, image, &input, 4)?;
        Ok(are_played(&mut state, turns))
    }
}

#[test]
fn runs_take_their_own_jobs_once(rt: HostRuntime) -> Result<(), Fail> {
    assert!(rt; look_at(rt.alloc(), ADDS_ITS_INPUT, &TwoRuns)?);
    Ok(())
}

#[test]
fn events_are_played_in_turn(rt: HostRuntime) -> Result<(), Fail> {
    assert!(rt; look_at(rt.alloc(), ADDS_ITS_INPUT, &Played)?);
    Ok(())
}
