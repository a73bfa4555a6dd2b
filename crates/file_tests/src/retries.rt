//! Runs a program event by event, by choices, from its bytes and action by action, and makes each call that met want of memory once more.
//! It prints the same where one allocation of a run is refused, whichever it is.

ghost use Rattle.std.specs.Prelude.{◌≡◌, IfOk, IsTrue};
ghost use Rattle.base.specs.Items.{plan};
ghost use Rattle.base.specs.Machine.{enabled};
ghost use Rattle.base.specs.declared.item.Event.TheVariants as event;
ghost use Rattle.device.specs.Run.{state_of};

use base::fault::{CheckFault, OutlineFault, ReadFault, RunFault, SourceFault};
use base::item::{Answer, Event};
use base::tree::Program;
use c_read::read_program;
use device::{Job, RunState, run_choices};
use kernel::{Done, run};
use lower::{Image, lower};
use mapcheck::{Accepted, check};
use outline::{Outlined, outline};
use pipeline::{run_source, run_source_fine};
use report::log_text;
use std::alloc::{AllocError, Global};
use std::io;
use std::io::Write;

const SOURCE: &str =
    "uint64_t A[8];\nuint64_t B[8];\nuint64_t x;\nint main(void) {\nx = read();\n#pragma omp target data map(tofrom: A[0:6])\n{\n#pragma omp target map(tofrom: A[0:2]) nowait depend(out: A[0:2])\n{ A[0] = x; A[1] = x * 2; }\n#pragma omp target map(tofrom: A[0:2]) map(from: B) nowait depend(in: A[0:2])\nfor (uint64_t i = 0; i < 8; i += 1) { B[i] = A[0] + i; }\n#pragma omp target update to(A[2:2])\n#pragma omp taskwait\n}\nprint(A[1]);\nprint(B[7]);\n}\n";

const INPUT: [u64; 1] = [5];

const CAPACITY: u64 = 16;

// The most events of the run.
const EVENTS: u64 = 64;

// The event that is done next, the last of those that may happen.
fn next(state: &RunState<'_>) -> Result<Option<Event>, AllocError> {
    let events = match state.enabled() {
        Ok(events) => events,
        Err(_) => state.enabled()?,
    };
    Ok(events.last().copied())
}

// The outcome of what fails for want of memory alone.
fn or_out_of_memory<T>(outcome: Result<T, AllocError>) -> Result<T, RunFault> {
    outcome.map_err(|_| RunFault::OutOfMemory)
}

fn generated(state: &mut RunState<'_>, item: u32) -> Result<(), AllocError>
    requires { IsTrue (enabled (plan state.old.program) (state_of state.old) (event.Gen item)) }
{
    match state.generate(item) {
        Ok(()) => Ok(()),
        Err(_) => state.generate(item),
    }
}

fn opened<'a>(state: &mut RunState<'a>, item: u32) -> Result<Job<'a>, RunFault>
    requires { IsTrue (enabled (plan state.old.program) (state_of state.old) (event.Open item)) }
{
    match state.open(item) {
        Ok(job) => Ok(job),
        Err(_) => state.open(item),
    }
}

fn computed<'f, 'a>(alloc: Global, job: &'f Job<'a>) -> Result<Done<'a, 'f, 'a>, AllocError> {
    match run(alloc, job.code, &job.frame) {
        Ok(done) => Ok(done),
        Err(_) => run(alloc, job.code, &job.frame),
    }
}

fn closed<'a>(state: &mut RunState<'a>, done: &Done<'_, '_, 'a>) -> Result<(), RunFault> {
    match state.close(done) {
        Ok(()) => Ok(()),
        Err(_) => state.close(done),
    }
}

// An item is opened, its region is run, and it is closed.
fn done_whole(alloc: Global, state: &mut RunState<'_>, item: u32) -> Result<(), RunFault>
    requires { IsTrue (enabled (plan state.old.program) (state_of state.old) (event.Open item)) }
{
    let job = opened(state, item)?;
    let done = or_out_of_memory(computed(alloc, &job))?;
    closed(state, &done)
}

fn passed(state: &mut RunState<'_>, item: u32) -> Result<(), AllocError>
    requires { IsTrue (enabled (plan state.old.program) (state_of state.old) (event.Wait item)) }
{
    match state.wait(item) {
        Ok(()) => Ok(()),
        Err(_) => state.wait(item),
    }
}

fn ended(state: &mut RunState<'_>) -> Result<(), AllocError>
    requires { IsTrue (enabled (plan state.old.program) (state_of state.old) event.End) }
{
    match state.end() {
        Ok(()) => Ok(()),
        Err(_) => state.end(),
    }
}

fn taken(state: &mut RunState<'_>, next: Event) -> Result<(), RunFault>
    requires { IsTrue (enabled (plan state.old.program) (state_of state.old) next) }
{
    match state.take(next) {
        Ok(()) => Ok(()),
        Err(_) => state.take(next),
    }
}

// One event, which may happen.
fn happen(alloc: Global, state: &mut RunState<'_>, next: Event) -> Result<(), RunFault> {
    if !state.is_enabled(next) {
        return Err(RunFault::OtherState);
    }
    match next {
        Event::Gen(item) => or_out_of_memory(generated(state, item)),
        Event::Open(item) => done_whole(alloc, state, item),
        Event::Step(_) | Event::Close(_) => taken(state, next),
        Event::Wait(item) => or_out_of_memory(passed(state, item)),
        Event::End => or_out_of_memory(ended(state)),
    }
}

// Event by event to the end.
fn run_events(alloc: Global, state: &mut RunState<'_>) -> Result<(), RunFault> {
    for _ in 0..EVENTS {
        match or_out_of_memory(next(state))? {
            None => return Ok(()),
            Some(next) => happen(alloc, state, next)?,
        }
    }
    Ok(())
}

fn answered(alloc: Global, state: &RunState<'_>) -> Result<Answer, RunFault> {
    if !state.has_ended() {
        return Err(RunFault::OtherState);
    }
    let told = match state.answer(alloc) {
        Ok(answer) => Ok(answer),
        Err(_) => state.answer(alloc),
    };
    or_out_of_memory(told)
}

fn started<'a>(alloc: Global, image: &'a Image<'a>) -> Result<RunState<'a>, AllocError> {
    match RunState::new(alloc, image, &INPUT, CAPACITY) {
        Ok(state) => Ok(state),
        Err(_) => RunState::new(alloc, image, &INPUT, CAPACITY),
    }
}

fn by_events<'a>(alloc: Global, image: &'a Image<'a>) -> Result<Answer, RunFault> {
    let mut state = or_out_of_memory(started(alloc, image))?;
    run_to_end(alloc, &mut state)
}

fn run_to_end(alloc: Global, state: &mut RunState<'_>) -> Result<Answer, RunFault> {
    run_events(alloc, state)?;
    answered(alloc, state)
}

// By choices, which go on from where the run stood.
fn by_playing<'a>(alloc: Global, image: &'a Image<'a>) -> Result<Answer, RunFault> {
    let mut state = or_out_of_memory(started(alloc, image))?;
    play_to_end(alloc, &mut state)
}

fn play_to_end(alloc: Global, state: &mut RunState<'_>) -> Result<Answer, RunFault> {
    if state.play_choices(&[]).is_err() {
        state.play_choices(&[])?;
    }
    answered(alloc, state)
}

fn by_choices(alloc: Global, image: &Image<'_>) -> Result<Answer, RunFault> {
    match run_choices(alloc, image, &INPUT, &[1, 1, 1], CAPACITY) {
        Ok(answer) => Ok(answer),
        Err(_) => run_choices(alloc, image, &INPUT, &[1, 1, 1], CAPACITY),
    }
}

fn from_bytes(alloc: Global) -> Result<Answer, SourceFault> {
    match run_source(alloc, SOURCE.as_bytes(), &INPUT, &[0, 1], CAPACITY) {
        Ok(answer) => Ok(answer),
        Err(_) => run_source(alloc, SOURCE.as_bytes(), &INPUT, &[0, 1], CAPACITY),
    }
}

fn by_actions(alloc: Global) -> Result<Answer, SourceFault> {
    match run_source_fine(
        alloc,
        SOURCE.as_bytes(),
        &INPUT,
        &[2, 1, 0, 2, 1, 1],
        &[],
        CAPACITY,
    ) {
        Ok(answer) => Ok(answer),
        Err(_) => run_source_fine(
            alloc,
            SOURCE.as_bytes(),
            &INPUT,
            &[2, 1, 0, 2, 1, 1],
            &[],
            CAPACITY,
        ),
    }
}

// The output alone.
fn told_output<W: Write>(answer: Result<Answer, SourceFault>, out: &mut W) -> io::Result<()> {
    match answer {
        Err(fault) => writeln!(out, "{fault}"),
        Ok(answer) => out.write_all(&answer.out),
    }
}

fn told<W: Write>(answer: Result<Answer, SourceFault>, out: &mut W) -> io::Result<()> {
    match answer {
        Err(fault) => writeln!(out, "{fault}"),
        Ok(answer) => {
            out.write_all(&answer.out)?;
            log_text(&answer.history, out)
        }
    }
}

fn told_run<W: Write>(answer: Result<Answer, RunFault>, out: &mut W) -> io::Result<()> {
    told(answer.map_err(SourceFault::Run), out)
}

fn tell_runs<W: Write>(alloc: Global, image: &Image<'_>, out: &mut W) -> io::Result<()> {
    told_run(by_events(alloc, image), out)?;
    told_run(by_playing(alloc, image), out)?;
    told_run(by_choices(alloc, image), out)
}

fn lowered<'a>(alloc: Global, accepted: &'a Accepted<'a>) -> Result<Image<'a>, AllocError> {
    match lower(alloc, accepted) {
        Ok(image) => Ok(image),
        Err(_) => lower(alloc, accepted),
    }
}

fn tell_accepted<W: Write>(alloc: Global, accepted: &Accepted<'_>, out: &mut W) -> io::Result<()> {
    match lowered(alloc, accepted) {
        Ok(image) => tell_runs(alloc, &image, out),
        Err(_) => told_run(Err(RunFault::OutOfMemory), out),
    }
}

fn checked<'a>(alloc: Global, outlined: &'a Outlined<'a>) -> Result<Accepted<'a>, CheckFault>
    ensures { IfOk result (λ a. a ≡ outlined.now) }
{
    match check(alloc, outlined) {
        Ok(accepted) => Ok(accepted),
        Err(_) => check(alloc, outlined),
    }
}

fn tell_outlined<W: Write>(alloc: Global, outlined: &Outlined<'_>, out: &mut W) -> io::Result<()> {
    match checked(alloc, outlined) {
        Ok(accepted) => tell_accepted(alloc, &accepted, out),
        Err(fault) => told(Err(SourceFault::Check(fault)), out),
    }
}

fn read(alloc: Global) -> Result<Program, ReadFault> {
    match read_program(alloc, SOURCE.as_bytes()) {
        Ok(program) => Ok(program),
        Err(_) => read_program(alloc, SOURCE.as_bytes()),
    }
}

fn listed<'a>(alloc: Global, program: &'a Program) -> Result<Outlined<'a>, OutlineFault>
    ensures { IfOk result (λ outlined. outlined ≡ program.now) }
{
    match outline(alloc, program) {
        Ok(outlined) => Ok(outlined),
        Err(_) => outline(alloc, program),
    }
}

fn tell_program<W: Write>(alloc: Global, program: &Program, out: &mut W) -> io::Result<()> {
    match listed(alloc, program) {
        Ok(outlined) => tell_outlined(alloc, &outlined, out),
        Err(fault) => told(Err(SourceFault::Outline(fault)), out),
    }
}

/// Prints what each way to run the program comes to.
pub(crate) fn tell<W: Write>(alloc: Global, out: &mut W) -> io::Result<()> {
    match read(alloc) {
        Ok(program) => tell_program(alloc, &program, out)?,
        Err(fault) => told(Err(SourceFault::Read(fault)), out)?,
    }
    told(from_bytes(alloc), out)?;
    told_output(by_actions(alloc), out)
}
