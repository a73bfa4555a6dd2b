// The action at which a run fails.

ghost use Rattle.std.specs.Prelude.{◌≡◌, IfOk, IfSome};
ghost use Rattle.base.specs.Items.{plan};
ghost use Rattle.mapwalk.specs.Walk.{HasNoRangeFault};
ghost use Rattle.report.specs.Listing.{name_of};
ghost use Rattle.witness.specs.Witnesses.{IsStopped, IsTold, array_of};

use crate::trial::{Ended, Trials, Witness};
use actions::Action;
use base::tree::{ArrayId, Program};
use outline::Outlined;
use std::alloc::AllocError;
use stepper::{Stop, stop_of};

/// The action at which a run fails, and the name of its array.
#[derive(Drop)]
pub struct Stopped {
    pub stop: Stop,
    pub array: String,
}

// The array of an action.
fn array_of(action: &Action) -> ArrayId
    ensures { result ≡ array_of action.now }
{
    match action {
        Action::Load(cell) | Action::Store(cell, _) | Action::Combine(_, cell, _) => cell.array,
        Action::CopyIn(cell) | Action::CopyOut(cell) => cell.array,
        Action::Enter(item) | Action::Leave(item) => item.section.array,
        Action::Remove(section) => section.array,
    }
}

// The name of an array.
fn name_of(program: &Program, array: ArrayId) -> &str
    ensures { result.now ≡ name_of program.now array.0 }
{
    match program.arrays.get_index(array.0 as usize) {
        None => "",
        Some((name, _)) => name.as_str(),
    }
}

// The action at which the run by these choices and this order of turns fails, where it can be told.
fn failing(
    trials: Trials<'_>,
    outlined: &Outlined<'_>,
    choices: &[u32],
    turns: &[u32],
) -> Result<Option<Stopped>, AllocError>
    requires { HasNoRangeFault (plan outlined.now) }
    ensures { IfOk result (λ told. IfSome told (IsStopped outlined.now trials.entry.input.now choices.now turns.now trials.entry.capacity)) }
{
    let Trials {
        alloc,
        source: _,
        input,
        capacity,
        plain: _,
    } = trials;
    let Some(stop) = stop_of(alloc, outlined, input, choices, turns, capacity) else {
        return Ok(None);
    };
    let name = name_of(outlined.program(), array_of(&stop.action));
    let array = String::from_str(alloc, name)?;
    Ok(Some(Stopped { stop, array }))
}

/// The action at which the run of a witness fails, of a program that the source spells; none where the run is done, or
/// where it fails without one.
pub fn failed_action(
    trials: Trials<'_>,
    outlined: &Outlined<'_>,
    found: &Witness,
) -> Result<Option<Stopped>, AllocError>
    requires { HasNoRangeFault (plan outlined.now) }
    ensures { IfOk result (IsTold outlined.now trials.entry.input.now found.now.choices.items found.now.turns.items trials.entry.capacity found.now.end) }
{
    match &found.end {
        Ended::Done(_) => Ok(None),
        Ended::Absent => failing(trials, outlined, &found.choices, &found.turns),
    }
}
