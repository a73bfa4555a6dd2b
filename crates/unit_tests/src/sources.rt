// Sources that are read, checked and lowered, and what is done with their images.

ghost use Rattle.std.specs.Prelude.{◌≤◌};

use base::fault::{CheckFault, OutlineFault, ReadFault, RunFault};
use base::item::Answer;
use c_read::read_program;
use host::{Gate, run_threads};
use lower::{Image, lower};
use mapcheck::{Accepted, check};
use outline::{Outlined, outline};
use std::alloc::Global;
use std::sync::Wait;
use std::test::Fail;
use std::thread::Threads;

/// What is looked for in the image of a source.
pub trait Look {
    fn look(&self, alloc: Global, image: &Image<'_>) -> Result<bool, Fail>;
}

fn look_accepted<L: Look>(alloc: Global, accepted: &Accepted<'_>, by: &L) -> Result<bool, Fail> {
    let image = lower(alloc, accepted)?;
    by.look(alloc, &image)
}

fn look_outlined<L: Look>(alloc: Global, outlined: &Outlined<'_>, by: &L) -> Result<bool, Fail> {
    let accepted = check(alloc, outlined).map_err(Fail::new)?;
    look_accepted(alloc, &accepted, by)
}

/// Reads, checks and lowers a source, and looks at its image.
pub(crate) fn look_at<L: Look>(alloc: Global, text: &str, by: &L) -> Result<bool, Fail> {
    let program = read_program(alloc, text.as_bytes()).map_err(Fail::new)?;
    let outlined = outline(alloc, &program).map_err(Fail::new)?;
    look_outlined(alloc, &outlined, by)
}

/// Why there is no answer.
#[derive(Debug, Drop)]
pub(crate) enum Fault {
    Read(ReadFault),
    Outline(OutlineFault),
    Check(CheckFault),
    Run(RunFault),
}

// Runs an accepted program on threads.
fn run_accepted<R: Threads + Wait + Sync, G: Gate + Sync>(
    rt: &R,
    alloc: Global,
    accepted: &Accepted<'_>,
    input: &[u64],
    workers: usize,
    capacity: u64,
    gate: &G,
) -> Result<Answer, Fault>
    requires some { 1 ≤ workers }
    requires few { workers ≤ 16 }
{
    let Ok(image) = lower(alloc, accepted) else {
        return Err(Fault::Run(RunFault::OutOfMemory));
    };
    match run_threads(rt, alloc, &image, input, workers, capacity, gate) {
        Ok(answer) => Ok(answer),
        Err(fault) => Err(Fault::Run(fault)),
    }
}

// Runs a program on threads, if it is accepted.
fn run_outlined<R: Threads + Wait + Sync, G: Gate + Sync>(
    rt: &R,
    alloc: Global,
    outlined: &Outlined<'_>,
    input: &[u64],
    workers: usize,
    capacity: u64,
    gate: &G,
) -> Result<Answer, Fault>
    requires some { 1 ≤ workers }
    requires few { workers ≤ 16 }
{
    match check(alloc, outlined) {
        Ok(accepted) => run_accepted(rt, alloc, &accepted, input, workers, capacity, gate),
        Err(fault) => Err(Fault::Check(fault)),
    }
}

/// Runs a source on threads.
pub(crate) fn run_source<R: Threads + Wait + Sync, G: Gate + Sync>(
    rt: &R,
    alloc: Global,
    text: &str,
    input: &[u64],
    workers: usize,
    capacity: u64,
    gate: &G,
) -> Result<Answer, Fault>
    requires some { 1 ≤ workers }
    requires few { workers ≤ 16 }
{
    let program = match read_program(alloc, text.as_bytes()) {
        Ok(program) => program,
        Err(fault) => return Err(Fault::Read(fault)),
    };
    let outlined = match outline(alloc, &program) {
        Ok(outlined) => outlined,
        Err(fault) => return Err(Fault::Outline(fault)),
    };
    run_outlined(rt, alloc, &outlined, input, workers, capacity, gate)
}
