// The search for a witness.

ghost use Rattle.std.specs.Prelude.{◌≤◌, [], IfErr, IfOk, IfSome, OnOk, length};
ghost use Rattle.base.specs.Accepted.{IsAccepted};
ghost use Rattle.base.specs.Items.{plan};
ghost use Rattle.base.specs.Limits.{most_items};
ghost use Rattle.c_read.specs.Spells.{Spells};
ghost use Rattle.mapcheck.specs.Passes.{IsCheckFault};
ghost use Rattle.mapwalk.specs.Walk.{HasNoRangeFault};
ghost use Rattle.stepper.specs.Answering.{AreShown};
ghost use Rattle.witness.specs.Witnesses.{IsFound, IsJudged, IsToldOf, IsTrial};

use crate::lists::{drawn_list, last_first};
use crate::orders::{drawn_order, orders, turns_that_meet};
use crate::shorten::{MOST_CUTS, shorten};
use crate::stopped::failed_action;
use crate::trial::{Budget, Trials, Witness, try_lists};
use base::fault::CheckFault;
use base::item::Answer;
use erasure::erase;
use mapcheck::check;
use outline::Outlined;
use pipeline::{Loaded, run_source_fine};
use std::alloc::{AllocError, Global};

/// The most runs that are tried.
pub const MOST_TRIES: usize = 512;

/// Once the runs had so many events together, none is tried any more.
pub const MOST_EVENTS: usize = 16_777_216;

/// What is known of a program before it is run.
#[derive(Clone, Copy, Debug)]
pub enum Judged {
    /// It is accepted, so that no run differs.
    Accepted,
    /// It has a fault of range, and is not run.
    OutOfRange(CheckFault),
    /// It is refused otherwise. Where that is so because two turns of a kernel meet, this is how many it has.
    Wrong(Option<u64>),
}

/// A run that differs, and what the source prints without its directives.
#[derive(Drop)]
pub struct Found {
    pub witness: Witness,
    pub plain: Answer,
}

// Choices and an order of turns, by a number that says which: where no turns meet choices alone, else by every second
// number an order alone.
fn drawn(
    alloc: Global,
    which: usize,
    length: usize,
    meet: bool,
) -> Result<(Vec<u32>, Vec<u32>), AllocError> {
    if !meet {
        return Ok((drawn_list(alloc, which, length)?, Vec::new(alloc)));
    }
    let turns = drawn_order(alloc, which, length)?;
    if which % 2 == 0 {
        return Ok((Vec::new(alloc), turns));
    }
    Ok((drawn_list(alloc, which, length)?, turns))
}

// Tries lists that are drawn.
fn search_drawn(
    trials: Trials<'_>,
    length: usize,
    meet: bool,
    budget: &mut Budget,
) -> Result<Option<Witness>, AllocError>
    ensures { IfOk result (λ found. IfSome found (IsTrial trials.entry)) }
{
    for which in 0..MOST_TRIES {
        if budget.is_over() {
            return Ok(None);
        }
        let (choices, turns) = drawn(trials.alloc, which, length, meet)?;
        if let Ok(found) = try_lists(trials, choices, turns, budget)? {
            return Ok(Some(found));
        }
    }
    Ok(None)
}

// Tries orders in which one of so many turns goes before the others.
fn search_orders(
    trials: Trials<'_>,
    turns: u64,
    budget: &mut Budget,
) -> Result<Option<Witness>, AllocError>
    ensures { IfOk result (λ found. IfSome found (IsTrial trials.entry)) }
{
    for order in orders(trials.alloc, turns)? {
        if budget.is_over() {
            return Ok(None);
        }
        if let Ok(found) = try_lists(trials, Vec::new(trials.alloc), order, budget)? {
            return Ok(Some(found));
        }
    }
    Ok(None)
}

// Tries lists, the empty ones first. Where two turns of a kernel meet, `meeting` is how many it has.
fn search(
    trials: Trials<'_>,
    meeting: Option<u64>,
    budget: &mut Budget,
) -> Result<Option<Witness>, AllocError>
    ensures { IfOk result (λ found. IfSome found (IsTrial trials.entry)) }
{
    let alloc = trials.alloc;
    let length = match try_lists(trials, Vec::new(alloc), Vec::new(alloc), budget)? {
        Ok(found) => return Ok(Some(found)),
        Err(events) => events,
    };
    if let Some(turns) = meeting {
        if let Some(found) = search_orders(trials, turns, budget)? {
            return Ok(Some(found));
        }
    }
    if budget.is_over() {
        return Ok(None);
    }
    if let Ok(found) = try_lists(trials, last_first(alloc, length)?, Vec::new(alloc), budget)? {
        return Ok(Some(found));
    }
    search_drawn(trials, length, meeting.is_some(), budget)
}

// The witness with the action at which its run fails.
fn with_stop(
    trials: Trials<'_>,
    outlined: &Outlined<'_>,
    mut found: Witness,
) -> Result<Witness, AllocError>
    requires fine { HasNoRangeFault (plan outlined.now) }
    requires trial { IsTrial trials found }
    ensures trial { IfOk result (IsTrial trials.entry) }
    ensures told { IfOk result (IsToldOf outlined.now trials.entry) }
{
    found.stop = failed_action(trials, outlined, &found)?;
    Ok(found)
}

fn search_and_shorten(
    trials: Trials<'_>,
    outlined: &Outlined<'_>,
    meeting: Option<u64>,
) -> Result<Option<Witness>, AllocError>
    requires { HasNoRangeFault (plan outlined.now) }
    ensures trial { IfOk result (λ found. IfSome found (IsTrial trials.entry)) }
    ensures told { IfOk result (λ found. IfSome found (IsToldOf outlined.now trials.entry)) }
{
    let mut budget = Budget {
        tries: MOST_TRIES,
        events: MOST_EVENTS,
    };
    let Some(found) = search(trials, meeting, &mut budget)? else {
        return Ok(None);
    };
    let mut budget = Budget {
        tries: MOST_CUTS,
        events: MOST_EVENTS,
    };
    let found = shorten(trials, &mut budget, found)?;
    Ok(Some(with_stop(trials, outlined, found)?))
}

// Whether a program is accepted, whatever the borrows that are in it outlive.
fn checked(alloc: Global, outlined: &Outlined<'_>) -> Result<(), CheckFault>
    ensures accepted { OnOk result (IsAccepted (plan outlined.now)) }
    ensures fault { IfErr result (IsCheckFault (plan outlined.now)) }
{
    match check(alloc, outlined) {
        Ok(accepted) => {
            accepted.is_accepted();
            Ok(())
        }
        Err(fault) => Err(fault),
    }
}

/// Whether a program has runs that may differ, which takes no input.
pub fn judge(alloc: Global, outlined: &Outlined<'_>) -> Result<Judged, AllocError>
    ensures { IfOk result (IsJudged outlined.now) }
{
    match checked(alloc, outlined) {
        Ok(()) => Ok(Judged::Accepted),
        Err(CheckFault::OutOfMemory) => Err(AllocError),
        Err(CheckFault::Range { item, fault }) => {
            Ok(Judged::OutOfRange(CheckFault::Range { item, fault }))
        }
        Err(CheckFault::Order(_)) => Ok(Judged::Wrong(None)),
        Err(CheckFault::Refused(refusal)) => {
            Ok(Judged::Wrong(turns_that_meet(outlined, &refusal)))
        }
    }
}

/// Looks for choices and an order of turns by which the run of a program that is refused, action by action, prints something
/// else than the source does without its directives, or stops because a cell is not on the device. `meeting` is what
/// [`judge`] tells. It tries at most [`MOST_TRIES`] runs, and none once they had [`MOST_EVENTS`] events: that by no choices;
/// where the program is refused because two turns meet, runs in which one turn of each kernel goes before the others; one
/// that lets later items go first; and runs by lists that a generator with fixed seeds draws. The lists that are found are
/// made shorter, by at most [`MOST_CUTS`] runs. Runs in which a device is full say nothing. The error is want of memory.
pub fn find(
    alloc: Global,
    bytes: &[u8],
    outlined: &Outlined<'_>,
    input: &[u64],
    capacity: u64,
    meeting: Option<u64>,
) -> Result<Option<Found>, AllocError>
    requires spelled { Spells bytes.now outlined.now }
    requires few { length (plan outlined.now).items ≤ most_items }
    requires shown { AreShown outlined.now [] }
    ensures { IfOk result (λ found. IfSome found (IsFound bytes.now input.now capacity)) }
{
    let Ok(erased) = erase(alloc, bytes) else {
        return Err(AllocError);
    };
    let Ok(plain) = run_source_fine(alloc, &erased, input, &[], &[], capacity) else {
        return Err(AllocError);
    };
    let source = Loaded::new(alloc, bytes, outlined, &[]);
    let trials = Trials {
        alloc,
        source: &source,
        input,
        capacity,
        plain: &plain.out,
    };
    match search_and_shorten(trials, outlined, meeting) {
        Ok(Some(witness)) => Ok(Some(Found { witness, plain })),
        Ok(None) => Ok(None),
        Err(error) => Err(error),
    }
}
