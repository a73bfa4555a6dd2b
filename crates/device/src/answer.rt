// What a whole run by choices answers.

ghost use Rattle.std.specs.Prelude.{◌≡◌, [], IfErr, IfOk, map, slice_index};
ghost use Rattle.base.specs.Answer.{IsAnswer};
ghost use Rattle.base.specs.Items.{plan};
ghost use Rattle.base.specs.Machine.{HasEnded};
ghost use Rattle.base.specs.Meaning.{lengths_of};
ghost use Rattle.device.specs.Answering.{IsAnswerFault, IsAnswerOf, IsRunAnswer, final_in, final_of, values_in};
ghost use Rattle.device.specs.Room.{IsAnswerWithin};
ghost use Rattle.device.specs.Run.{state_of};
ghost use Rattle.headline.specs.Stepwise.{program_order};

use crate::state::RunState;
use base::fault::RunFault;
use base::item::{Answer, Cell, Event};
use base::tree::ArrayId;
use lower::Image;
use std::alloc::{AllocError, Global};

// The events again.
fn copy_of(alloc: Global, history: &[Event]) -> Result<Vec<Event>, AllocError>
    ensures { IfOk result (λ copy. copy.items ≡ history.now) }
{
    let mut copy = Vec::new(alloc);
    copy.extend_from_slice(history)?;
    Ok(copy)
}

impl<'a> RunState<'a> {
    // How many cells an array has, 0 where it is none of the program's.
    fn length_of(&self, array: ArrayId) -> u64
        ensures { result ≡ slice_index (lengths_of self.now.program) array.0 }
    {
        match self.image.lengths().get(array.0 as usize) {
            Some(length) => *length as u64,
            None => 0,
        }
    }

    // The numbers of an array on the host.
    fn values_of(&self, alloc: Global, array: ArrayId) -> Result<Vec<u64>, AllocError>
        ensures { IfOk result (λ values. values.items ≡ values_in self.now array) }
    {
        let mut values = Vec::new(alloc);
        let length = self.length_of(array);
        for index in 0..length {
            values.push(self.host_cell(Cell { array, index }))?;
        }
        Ok(values)
    }

    // The numbers of some arrays.
    fn finals_of(
        &self,
        alloc: Global,
        arrays: &[ArrayId],
    ) -> Result<Vec<(ArrayId, Vec<u64>)>, AllocError>
        ensures { IfOk result (λ finals. map final_of finals.items ≡ map (final_in self.now) arrays.now) }
    {
        let mut finals = Vec::new(alloc);
        for array in arrays {
            let values = self.values_of(alloc, *array)?;
            finals.push((*array, values))?;
        }
        Ok(finals)
    }

    // What was printed, the numbers of these arrays, and the events.
    fn answer_with(&self, alloc: Global, arrays: &[ArrayId]) -> Result<Answer, AllocError>
        ensures { IfOk result (IsAnswerOf self.now arrays.now) }
    {
        let out = Vec::from_slice(alloc, self.output())?;
        let finals = self.finals_of(alloc, arrays)?;
        let history = copy_of(alloc, self.history())?;
        Ok(Answer {
            out,
            finals,
            history,
        })
    }

    /// The answer of a run that has ended: its output, the values of the arrays that are marked current, and its
    /// events. The error comes for want of memory.
    pub fn answer(&self, alloc: Global) -> Result<Answer, AllocError>
        requires { HasEnded (plan self.now.program) (state_of self.now) }
        ensures { IfOk result (IsRunAnswer self.now) }
    {
        self.is_reached();
        let marked = self.image.marked();
        match self.answer_with(alloc, marked) {
            Err(error) => Err(error),
            Ok(answer) => Ok(answer),
        }
    }
}

/// Runs an accepted program on this input by these choices, on devices each with room for `capacity` cells. The answer
/// has the values of the arrays that are marked current, and after none of its events are more than `capacity` cells of
/// a device in use. With no choice at all each item is closed before the next one is met. The error is `DeviceFull` where
/// the run comes to an opening that would create more cells than its device has room for, or `OutOfMemory`.
pub fn run_choices(
    alloc: Global,
    image: &Image<'_>,
    input: &[u64],
    choices: &[u32],
    capacity: u64,
) -> Result<Answer, RunFault>
    ensures answer { IfOk result (IsAnswer image.now input.now choices.now) }
    ensures within { IfOk result (IsAnswerWithin image.now input.now capacity) }
    ensures in_order { IfOk result (λ answer. choices.now ≡ [] → answer.history.items ≡ program_order (plan image.now)) }
    ensures fault { IfErr result (IsAnswerFault image.now input.now choices.now capacity) }
{
    let mut run = match RunState::new(alloc, image, input, capacity) {
        Err(_) => return Err(RunFault::OutOfMemory),
        Ok(run) => run,
    };
    match run.play_choices(choices) {
        Err(fault) => return Err(fault),
        Ok(()) => {}
    }
    run.is_reached();
    match run.answer(alloc) {
        Err(_) => Err(RunFault::OutOfMemory),
        Ok(answer) => Ok(answer),
    }
}
