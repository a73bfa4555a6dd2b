// One run, and whether it differs.

ghost use Rattle.std.specs.Prelude.{IfOk};
ghost use Rattle.witness.specs.Witnesses.{IsRun, IsTrial};

use crate::stopped::Stopped;
use base::fault::{RunFault, SourceFault};
use base::item::Answer;
use pipeline::Loaded;
use std::alloc::{AllocError, Global};

/// What a run ends with.
#[derive(Drop)]
pub enum Ended {
    Done(Answer),
    /// A cell has no storage on the device, a section overlaps a block in part, or one is to be present and is not.
    Absent,
}

/// A run by choices that prints something else than the source without directives, or that stops.
#[derive(Drop)]
pub struct Witness {
    pub choices: Vec<u32>,
    /// The order of turns of each kernel whose turns may run in any order.
    pub turns: Vec<u32>,
    pub end: Ended,
    /// The action at which the run fails, where it can be told.
    pub stop: Option<Stopped>,
}

/// A source, read and checked, with its input, the room of each device, and what the source prints without its directives.
#[derive(Clone, Copy)]
pub struct Trials<'s> {
    pub alloc: Global,
    pub source: &'s Loaded<'s>,
    pub input: &'s [u64],
    pub capacity: u64,
    pub plain: &'s [u8],
}

/// How much is left to do.
#[derive(Clone, Copy)]
pub struct Budget {
    pub tries: usize,
    pub events: usize,
}

impl Budget {
    pub fn is_over(&self) -> bool {
        self.tries == 0 || self.events == 0
    }

    fn spend(&mut self, events: usize) {
        self.tries = self.tries.saturating_sub(1);
        self.events = self.events.saturating_sub(events);
    }
}

/// What came of a run.
#[derive(Drop)]
pub enum Run {
    Ended(Ended),
    /// It says nothing of the program: a device is full.
    Full,
}

// The run by these choices, and this order of turns.
fn run_by(trials: Trials<'_>, choices: &[u32], turns: &[u32]) -> Result<Run, AllocError>
    ensures { IfOk result (IsRun trials.entry choices.now turns.now) }
{
    let Trials {
        alloc: _,
        source,
        input,
        capacity,
        plain: _,
    } = trials;
    match source.run_fine(input, choices, turns, capacity) {
        Ok(answer) => Ok(Run::Ended(Ended::Done(answer))),
        Err(SourceFault::Run(RunFault::Absent)) => Ok(Run::Ended(Ended::Absent)),
        Err(SourceFault::Run(RunFault::DeviceFull)) => Ok(Run::Full),
        Err(_) => Err(AllocError),
    }
}

/// The run by these choices and this order of turns, where it differs. Of one that does not, how many events it has.
pub fn try_lists(
    trials: Trials<'_>,
    choices: Vec<u32>,
    turns: Vec<u32>,
    budget: &mut Budget,
) -> Result<Result<Witness, usize>, AllocError>
    ensures { IfOk result (λ r. IfOk r (IsTrial trials.entry)) }
{
    match run_by(trials, &choices, &turns)? {
        Run::Ended(Ended::Done(answer)) => {
            let events = answer.history.len();
            budget.spend(events);
            if answer.out.as_slice() == trials.plain {
                return Ok(Err(events));
            }
            let end = Ended::Done(answer);
            Ok(Ok(Witness {
                choices,
                turns,
                end,
                stop: None,
            }))
        }
        Run::Ended(Ended::Absent) => {
            budget.spend(0);
            let end = Ended::Absent;
            Ok(Ok(Witness {
                choices,
                turns,
                end,
                stop: None,
            }))
        }
        Run::Full => {
            budget.spend(0);
            Ok(Err(0))
        }
    }
}
