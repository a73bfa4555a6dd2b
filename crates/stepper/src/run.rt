// A whole run by choices.

ghost use Rattle.std.specs.Prelude.{◌≡◌, IfErr, IfOk, drop, length};
ghost use Rattle.base.specs.Items.{plan};
ghost use Rattle.stepper.specs.Answering.{AreShown, IsAnswerOf, IsFineAnswer, IsFineFault, next_by};
ghost use Rattle.stepper.specs.Run.{IsGoing, state_of};
ghost use Rattle.stepper.specs.Running.{IsAnswerAt};

use crate::fine_run::FineRun;
use crate::marked::{finals_of, shown_of};
use crate::standing::Standing;
use base::fault::RunFault;
use base::item::{Answer, Event};
use base::tree::ArrayId;
use device::text_of;
use outline::Outlined;
use std::alloc::{AllocError, Global};

// What a run has printed, the numbers of these arrays, and its events.
fn answer_of(
    alloc: Global,
    standing: &Standing<'_>,
    arrays: &[ArrayId],
    history: Vec<Event>,
) -> Result<Answer, AllocError>
    ensures { IfOk result (IsAnswerOf standing.now arrays.now history.items) }
{
    let out = text_of(alloc, &standing.output)?;
    let finals = finals_of(alloc, &standing.host, arrays)?;
    Ok(Answer {
        out,
        finals,
        history,
    })
}

impl<'p> FineRun<'p> {
    /// Of the events that may happen next, the one that the next choice takes, counted around.
    pub fn next_event(&self, choices: &[u32]) -> Option<Event>
        requires { IsGoing self.now }
        ensures { result ≡ next_by (plan self.now.program) (state_of self.now) (drop (length self.now.history) choices.now) }
    {
        let _items = self.outlined.items();
        self.standing.next_event(choices, self.history.len())
    }

    // What it has printed, the numbers of these arrays, and its events.
    fn answer(self, arrays: &[ArrayId]) -> Result<Answer, AllocError>
        requires { IsGoing self }
        ensures { IfOk result (IsAnswerAt self.entry arrays.now) }
    {
        let history = self.history;
        answer_of(self.alloc, &self.standing, arrays, history)
    }
}

/// Runs a program as `run_fine` does, where it is known which arrays an answer shows: those that `shown_of` answers, so
/// that a program that is run often is checked once.
pub fn run_fine_shown<'p>(
    alloc: Global,
    outlined: &'p Outlined<'p>,
    arrays: &[ArrayId],
    input: &'p [u64],
    choices: &[u32],
    turns: &'p [u32],
    capacity: u64,
) -> Result<Answer, RunFault>
    requires { AreShown outlined.now arrays.now }
    ensures answer { IfOk result (IsFineAnswer outlined.now input.now choices.now turns.now capacity) }
    ensures fault { IfErr result (IsFineFault outlined.now input.now choices.now turns.now capacity) }
{
    let Ok(mut run) = FineRun::new(alloc, outlined, input, turns, capacity) else {
        return Err(RunFault::OutOfMemory);
    };
    while let Some(event) = run.next_event(choices) {
        run.has_come();
        run.take(event)?;
    }
    run.has_come();
    match run.answer(arrays) {
        Ok(answer) => Ok(answer),
        Err(_) => Err(RunFault::OutOfMemory),
    }
}

/// Runs a program on the fine-grained machine by these choices, on devices each with room for `capacity` cells, whether
/// it is accepted or not. At each step the next choice picks among the events that may happen, counted around: for each
/// open item, ascending, its next action or its closing; the openings by ascending item; and what the host may do. Of
/// each kernel whose turns may run in any order, the next of the numbers `turns` picks at each action among the turns
/// that have one, counted around; past the last number they go one after another. The answer has the output, the
/// events, and the values of the arrays that are marked current where the program is accepted. The error is
/// `RangeRefused` where the program has a fault of range, and then nothing is run; `DeviceFull` where the run comes to
/// an action that would create more cells than its device has room for; `Absent` where it fails, which no accepted
/// program does; or `OutOfMemory`.
pub fn run_fine<'p>(
    alloc: Global,
    outlined: &'p Outlined<'p>,
    input: &'p [u64],
    choices: &[u32],
    turns: &'p [u32],
    capacity: u64,
) -> Result<Answer, RunFault>
    ensures answer { IfOk result (IsFineAnswer outlined.now input.now choices.now turns.now capacity) }
    ensures fault { IfErr result (IsFineFault outlined.now input.now choices.now turns.now capacity) }
{
    let arrays = shown_of(alloc, outlined)?;
    run_fine_shown(alloc, outlined, &arrays, input, choices, turns, capacity)
}
