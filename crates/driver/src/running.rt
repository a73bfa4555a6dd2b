//! A program is run and what it prints is printed: `run` and `step`.

ghost use Rattle.std.specs.Prelude.{◌≡◌, ◌⊎◌, IfErr, IfOk, OnErr, OnOk, false, not, true};
ghost use Rattle.std.specs.Io.KnownBytes.{Appends};
ghost use Rattle.pipeline.specs.Checking.{IsUnaccepted};
ghost use Rattle.driver.specs.Statuses.{ending_of};
ghost use Rattle.driver.specs.Printed.{AreChoices, IsDone, IsInput, IsPrinted, IsReadAnswer, OfSource, accepted_by, answer_bytes, answers_of, by_actions, next_of};
ghost use Rattle.driver.specs.Refused.{IsNoRefusal, IsPlanFault, IsRefusalBy, IsRefusedOf, is_checked};
ghost use Rattle.driver.specs.Stepping.{IsStepWay};

use crate::ending::{DONE, Ending, FAILED, ending_of};
use crate::input::read_numbers;
use crate::sources::{Sources, bytes_of};
use base::fault::{RunFault, SourceFault};
use base::item::Answer;
use base::tree::Program;
use command::{Request, Run, Step, Workers};
use erased_meaning::erased_text_runs;
use mapcheck::{Accepted, check};
use maps::run_maps_text;
use numbers::{NumbersFault, choice_list, run_list};
use outline::Outlined;
use pipeline::{items, read, run_accepted, run_accepted_on_threads, tell};
use report::{finals_text, log_text};
use std::alloc::Global;
use std::io;
use std::io::{Read, Write};
use std::sync::Wait;
use std::thread::Threads;
use stepper::run_fine;

/// Reads the input of a program.
pub(crate) fn read_input<'a, R: Read>(alloc: Global, input: &mut R) -> Result<Vec<u64>, Ending<'a>>
    ensures numbers { IfOk result (λ ns. IsInput (R.remaining input.old) ns.items) }
    ensures refused { IfErr result IsNoRefusal }
{
    match read_numbers(alloc, input) {
        Ok(numbers) => Ok(numbers),
        Err(NumbersFault::Malformed) => Err(Ending::BadInput),
        Err(NumbersFault::OutOfMemory) => Err(Ending::OutOfMemory),
    }
}

/// What is next in a run of an accepted program.
#[derive(Clone, Copy)]
enum Next<'c> {
    Choices(&'c [u32]),
    Workers(Workers),
}

/// How a program is run.
#[derive(Clone, Copy)]
enum Way<'c> {
    /// Where it is accepted.
    Checked(Next<'c>),
    /// Whether it is accepted or not, on the fine-grained machine, by these choices and this order of turns.
    Fine(&'c [u32], &'c [u32]),
}

/// What is asked of a run.
#[derive(Clone, Copy)]
struct Asked<'a, 'c> {
    file: &'a str,
    way: Way<'c>,
    capacity: u64,
    log: bool,
    maps: bool,
    finals: bool,
}

/// What starts threads, and where memory is from.
#[derive(Clone, Copy)]
pub(crate) struct Means<'r, T> {
    pub(crate) rt: &'r T,
    pub(crate) alloc: Global,
    // Whether a terminal that takes colours shows what is printed.
    pub(crate) terminal: bool,
}

fn run_by<T: Threads + Wait + Sync>(
    rt: &T,
    alloc: Global,
    accepted: &Accepted<'_>,
    numbers: &[u64],
    next: Next<'_>,
    capacity: u64,
) -> Result<Answer, RunFault>
    ensures { IfOk result (next_of next.entry capacity numbers.now accepted.now) }
{
    match next {
        Next::Choices(choices) => run_accepted(alloc, accepted, numbers, choices, capacity),
        Next::Workers(workers) => {
            run_accepted_on_threads(rt, alloc, accepted, numbers, workers.count, capacity)
        }
    }
}

/// Checks a program, reads its input and runs it.
fn answer_checked<'a, T: Threads + Wait + Sync, R: Read, E: Write>(
    on: Means<'_, T>,
    outlined: &Outlined<'_>,
    next: Next<'_>,
    capacity: u64,
    input: &mut R,
    err: &mut E,
) -> Result<Answer, Ending<'a>>
    ensures answered { IfOk result (IsReadAnswer (accepted_by (next_of next.entry capacity)) (R.remaining input.old) outlined.now) }
    ensures refused { IfErr result (IsRefusalBy (IsUnaccepted outlined.now)) }
{
    let accepted = match check(on.alloc, outlined) {
        Ok(accepted) => accepted,
        Err(fault) => return Err(ending_of(tell(on.alloc, outlined.program(), fault, err))),
    };
    accepted.is_accepted();
    let numbers = read_input(on.alloc, input)?;
    match run_by(on.rt, on.alloc, &accepted, &numbers, next, capacity) {
        Ok(answer) => Ok(answer),
        Err(fault) => Err(Ending::Source(SourceFault::Run(fault))),
    }
}

/// Reads the input of a program, and runs it on the fine-grained machine.
fn answer_fine<'a, R: Read>(
    alloc: Global,
    outlined: &Outlined<'_>,
    choices: &[u32],
    turns: &[u32],
    capacity: u64,
    input: &mut R,
) -> Result<Answer, Ending<'a>>
    ensures answered { IfOk result (IsReadAnswer (by_actions choices.now turns.now capacity) (R.remaining input.old) outlined.now) }
    ensures refused { IfErr result IsNoRefusal }
{
    let numbers = read_input(alloc, input)?;
    match run_fine(alloc, outlined, &numbers, choices, turns, capacity) {
        Ok(answer) => Ok(answer),
        Err(fault) => Err(Ending::Source(SourceFault::Run(fault))),
    }
}

/// The answer of a run of a program.
fn answer<'a, T: Threads + Wait + Sync, R: Read, E: Write>(
    on: Means<'_, T>,
    program: &Program,
    asked: Asked<'_, '_>,
    input: &mut R,
    err: &mut E,
) -> Result<Answer, Ending<'a>>
    ensures answered { IfOk result (IsReadAnswer (answers_of asked.entry.way asked.entry.capacity) (R.remaining input.old) program.now) }
    ensures refused { IfErr result (IsRefusalBy (IsPlanFault (is_checked asked.entry.way) program.now)) }
{
    let outlined = match items(on.alloc, program) {
        Ok(outlined) => outlined,
        Err(fault) => return Err(Ending::Source(fault)),
    };
    match asked.way {
        Way::Checked(next) => { answer_checked(on, &outlined, next, asked.capacity, input, err) }
        Way::Fine(choices, turns) => {
            answer_fine(on.alloc, &outlined, choices, turns, asked.capacity, input)
        }
    }
}

/// Prints the output, then what else is asked for.
fn write_answer<W: Write>(
    alloc: Global,
    program: &Program,
    answer: &Answer,
    asked: Asked<'_, '_>,
    out: &mut W,
) -> io::Result<()>
    ensures { OnOk result (Appends (W.contents out.old) (W.contents out.new) (answer_bytes asked.entry.log asked.entry.maps asked.entry.finals program.now answer.now)) }
{
    out.write_all(&answer.out)?;
    if asked.log {
        log_text(&answer.history, out)?;
    }
    if asked.maps {
        run_maps_text(alloc, program, &answer.history, out)?;
    }
    if asked.finals {
        finals_text(program, &answer.finals, out)?;
    }
    out.flush()
}

/// Runs a program and prints what is asked for. Faults are looked for in this order: the source's bytes, the program, the
/// input, the run.
fn run_file<'a, T: Threads + Wait + Sync, S: Sources, R: Read, W: Write, E: Write>(
    on: Means<'_, T>,
    asked: Asked<'a, '_>,
    sources: &mut S,
    input: &mut R,
    out: &mut W,
    err: &mut E,
) -> Result<u8, Ending<'a>>
    ensures status { IfOk result (λ s. (s ≡ 0) ⊎ (s ≡ 3)) }
    ensures quiet { OnErr result (W.contents out.new ≡ W.contents out.old) }
    ensures refused { IfErr result (IsRefusalBy (IsRefusedOf (is_checked asked.entry.way) (S.known sources.old asked.entry.file.now))) }
    ensures printed { IfOk result (λ s. s ≡ 0 → OfSource (S.known sources.old asked.entry.file.now) (λ bytes. IsPrinted (answers_of asked.entry.way asked.entry.capacity) asked.entry.log asked.entry.maps asked.entry.finals bytes (R.remaining input.old) (W.contents out.old) (W.contents out.new))) }
{
    let alloc = on.alloc;
    let bytes = bytes_of(alloc, sources, asked.file)?;
    let program = match read(alloc, &bytes) {
        Ok(program) => program,
        Err(fault) => return Err(Ending::Source(fault)),
    };
    erased_text_runs();
    let answer = answer(on, &program, asked, input, err)?;
    match write_answer(alloc, &program, &answer, asked, out) {
        Ok(()) => Ok(DONE),
        Err(_) => Ok(FAILED),
    }
}

/// Runs a program by worker threads.
pub(crate) fn do_run<'a, T: Threads + Wait + Sync, S: Sources, R: Read, W: Write, E: Write>(
    on: Means<'_, T>,
    run: Run<'a>,
    sources: &mut S,
    input: &mut R,
    out: &mut W,
    err: &mut E,
) -> Result<u8, Ending<'a>>
    ensures status { IfOk result (λ s. (s ≡ 0) ⊎ (s ≡ 3)) }
    ensures quiet { OnErr result (W.contents out.new ≡ W.contents out.old) }
    ensures refused { IfErr result (IsRefusalBy (IsRefusedOf true (S.known sources.old run.entry.file.now))) }
    ensures done { IfOk result (λ s. s ≡ 0 → OfSource (S.known sources.old run.entry.file.now) (λ bytes. IsDone (Request.Run run.entry) bytes (R.remaining input.old) (W.contents out.old) (W.contents out.new))) }
{
    let asked = Asked {
        file: run.file,
        way: Way::Checked(Next::Workers(run.workers)),
        capacity: run.capacity,
        log: run.log,
        maps: run.maps,
        finals: run.finals,
    };
    run_file(on, asked, sources, input, out, err)
}

/// How a program is run by choices.
fn step_way<'c>(fine: bool, choices: &'c [u32], turns: &'c [u32]) -> Way<'c>
    ensures { IsStepWay fine choices.now turns.now result }
{
    if fine {
        Way::Fine(choices, turns)
    } else {
        Way::Checked(Next::Choices(choices))
    }
}

/// The choices that are asked for: those of the one list, and behind them those of the other.
fn step_choices<'a>(alloc: Global, step: Step<'_>) -> Result<Vec<u32>, Ending<'a>>
    ensures choices { IfOk result (λ v. AreChoices step.entry.choices.now step.entry.choice_runs.now v.items) }
    ensures refused { IfErr result IsNoRefusal }
{
    let mut choices = match choice_list(alloc, step.choices) {
        Ok(choices) => choices,
        Err(NumbersFault::Malformed) => return Err(Ending::BadChoices),
        Err(NumbersFault::OutOfMemory) => return Err(Ending::OutOfMemory),
    };
    let others = match run_list(alloc, step.choice_runs) {
        Ok(others) => others,
        Err(NumbersFault::Malformed) => return Err(Ending::BadChoices),
        Err(NumbersFault::OutOfMemory) => return Err(Ending::OutOfMemory),
    };
    match choices.extend_from_slice(&others) {
        Ok(()) => Ok(choices),
        Err(_) => Err(Ending::OutOfMemory),
    }
}

/// Runs a program event by event, and prints its output and its log.
pub(crate) fn do_step<'a, T: Threads + Wait + Sync, S: Sources, R: Read, W: Write, E: Write>(
    on: Means<'_, T>,
    step: Step<'a>,
    sources: &mut S,
    input: &mut R,
    out: &mut W,
    err: &mut E,
) -> Result<u8, Ending<'a>>
    ensures status { IfOk result (λ s. (s ≡ 0) ⊎ (s ≡ 3)) }
    ensures quiet { OnErr result (W.contents out.new ≡ W.contents out.old) }
    ensures refused { IfErr result (IsRefusalBy (IsRefusedOf (not step.entry.fine) (S.known sources.old step.entry.file.now))) }
    ensures done { IfOk result (λ s. s ≡ 0 → OfSource (S.known sources.old step.entry.file.now) (λ bytes. IsDone (Request.Step step.entry) bytes (R.remaining input.old) (W.contents out.old) (W.contents out.new))) }
{
    if step.fine && step.maps {
        return Err(Ending::BadMaps);
    }
    let choices = step_choices(on.alloc, step)?;
    let turns = match choice_list(on.alloc, step.turns) {
        Ok(turns) => turns,
        Err(NumbersFault::Malformed) => return Err(Ending::BadTurns),
        Err(NumbersFault::OutOfMemory) => return Err(Ending::OutOfMemory),
    };
    let asked = Asked {
        file: step.file,
        way: step_way(step.fine, &choices, &turns),
        capacity: step.capacity,
        log: true,
        maps: step.maps,
        finals: false,
    };
    run_file(on, asked, sources, input, out, err)
}
