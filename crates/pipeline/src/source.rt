//! From a source to its answer.

ghost use Rattle.std.specs.Prelude.{◌≡◌, IfOk, IfErr};
ghost use Rattle.pipeline.specs.Source.{IsAcceptedAnswer, IsProgramFault, IsSourceAnswer, IsSourceFault, by_choices, stopped_by_choices};

use crate::text::{items, read};
use base::fault::{RunFault, SourceFault};
use base::item::Answer;
use device::run_choices;
use erased_meaning::erased_text_runs;
use lower::lower;
use mapcheck::{Accepted, check};
use outline::Outlined;
use std::alloc::Global;

/// Runs an accepted program.
pub fn run_accepted(
    alloc: Global,
    accepted: &Accepted<'_>,
    input: &[u64],
    choices: &[u32],
    capacity: u64,
) -> Result<Answer, RunFault>
    ensures answer { IfOk result (by_choices input.now choices.now capacity accepted.now) }
    ensures fault { IfErr result (stopped_by_choices input.now choices.now capacity accepted.now) }
{
    let Ok(image) = lower(alloc, accepted) else {
        return Err(RunFault::OutOfMemory);
    };
    run_choices(alloc, &image, input, choices, capacity)
}

// Checks a program, and runs it.
#[tactic(auto, using(crate::proofs::Runs::accepted_too))]
fn run_outlined(
    alloc: Global,
    outlined: &Outlined<'_>,
    input: &[u64],
    choices: &[u32],
    capacity: u64,
) -> Result<Answer, SourceFault>
    ensures answer { IfOk result (IsAcceptedAnswer (by_choices input.now choices.now capacity) outlined.now) }
    ensures fault { IfErr result (IsProgramFault (stopped_by_choices input.now choices.now capacity) outlined.now) }
{
    let accepted = match check(alloc, outlined) {
        Ok(accepted) => accepted,
        Err(fault) => return Err(SourceFault::Check(fault)),
    };
    accepted.is_accepted();
    match run_accepted(alloc, &accepted, input, choices, capacity) {
        Ok(answer) => Ok(answer),
        Err(fault) => Err(SourceFault::Run(fault)),
    }
}

/// Runs a source on a host memory and devices, each of which has room for `capacity` cells.
///
/// `input` has the numbers that the program reads. At each step the next choice picks among the enabled events: the one
/// at its place modulo their number, and the first when the choices are used up. The answer has the output's bytes, the
/// values of the arrays that are current at the end, and the events in their order. The fault is that of the first pass
/// that fails: the text, the number of items, the check, the run; want of memory may come in place of any.
#[tactic(auto, using(crate::proofs::Texts::unlisted_source))]
pub fn run_source(
    alloc: Global,
    bytes: &[u8],
    input: &[u64],
    choices: &[u32],
    capacity: u64,
) -> Result<Answer, SourceFault>
    ensures answer { IfOk result (IsSourceAnswer (by_choices input.now choices.now capacity) bytes.now input.now) }
    ensures fault { IfErr result (IsSourceFault (stopped_by_choices input.now choices.now capacity) bytes.now) }
{
    let program = read(alloc, bytes)?;
    let outlined = items(alloc, &program)?;
    erased_text_runs();
    run_outlined(alloc, &outlined, input, choices, capacity)
}
