//! From a source to what it answers on the fine-grained machine.

ghost use Rattle.std.specs.Prelude.{◌≤◌, IfOk, IfErr, length};
ghost use Rattle.base.specs.Items.{plan};
ghost use Rattle.base.specs.Limits.{most_items};
ghost use Rattle.c_read.specs.Spells.{Spells};
ghost use Rattle.pipeline.specs.Fine.{IsFineSourceAnswer, IsFineSourceFault};

use crate::loaded::Loaded;
use crate::text::{items, read};
use base::fault::SourceFault;
use base::item::Answer;
use outline::Outlined;
use std::alloc::Global;
use stepper::shown_of;

// Checks a program, and runs it action by action, whatever the borrows that are in it outlive.
#[tactic(auto)]
fn run_by_actions(
    alloc: Global,
    bytes: &[u8],
    outlined: &Outlined<'_>,
    input: &[u64],
    choices: &[u32],
    turns: &[u32],
    capacity: u64,
) -> Result<Answer, SourceFault>
    requires spelled { Spells bytes.now outlined.now }
    requires few { length (plan outlined.now).items ≤ most_items }
    ensures answer { IfOk result (IsFineSourceAnswer bytes.now input.now choices.now turns.now capacity) }
    ensures fault { IfErr result (IsFineSourceFault bytes.now input.now choices.now turns.now capacity) }
{
    match shown_of(alloc, outlined) {
        Ok(arrays) => Loaded::new(alloc, bytes, outlined, &arrays).run_fine(
            input, choices, turns, capacity,
        ),
        Err(fault) => Err(SourceFault::Run(fault)),
    }
}

/// Runs a source on the fine-grained machine, whether its program is accepted or not, on devices each of which has room
/// for `capacity` cells. At each step the next choice picks among the events that may happen, and `turns` is the
/// order of the turns of each kernel whose turns may run in any order, as `stepper::run_fine` says.
/// The fault is that of the first pass that fails: the text, the number of items, the run; want of memory may come in
/// place of any.
#[tactic(auto, using(crate::proofs::Texts::unlisted_fine))]
pub fn run_source_fine(
    alloc: Global,
    bytes: &[u8],
    input: &[u64],
    choices: &[u32],
    turns: &[u32],
    capacity: u64,
) -> Result<Answer, SourceFault>
    ensures answer { IfOk result (IsFineSourceAnswer bytes.now input.now choices.now turns.now capacity) }
    ensures fault { IfErr result (IsFineSourceFault bytes.now input.now choices.now turns.now capacity) }
{
    let program = read(alloc, bytes)?;
    let outlined = items(alloc, &program)?;
    run_by_actions(alloc, bytes, &outlined, input, choices, turns, capacity)
}
