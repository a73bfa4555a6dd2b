//! From a source to its answer, on worker threads.

ghost use Rattle.std.specs.Prelude.{◌≡◌, ◌≤◌, IfOk, IfErr};
ghost use Rattle.pipeline.specs.Source.{IsAcceptedAnswer, IsProgramFault, IsSourceAnswer, IsSourceFault, on_threads, stopped_on_threads};

use crate::text::{items, read};
use base::fault::{RunFault, SourceFault};
use base::item::Answer;
use erased_meaning::erased_text_runs;
use host::{OpenGate, run_threads};
use lower::lower;
use mapcheck::{Accepted, check};
use outline::Outlined;
use std::alloc::Global;
use std::sync::Wait;
use std::thread::Threads;

/// Runs an accepted program by worker threads.
pub fn run_accepted_on_threads<T: Threads + Wait + Sync>(
    rt: &T,
    alloc: Global,
    accepted: &Accepted<'_>,
    input: &[u64],
    workers: usize,
    capacity: u64,
) -> Result<Answer, RunFault>
    requires some { 1 ≤ workers }
    requires few { workers ≤ 16 }
    ensures answer { IfOk result (on_threads input.now capacity accepted.now) }
    ensures fault { IfErr result (stopped_on_threads input.now capacity accepted.now) }
{
    let Ok(image) = lower(alloc, accepted) else {
        return Err(RunFault::OutOfMemory);
    };
    run_threads(rt, alloc, &image, input, workers, capacity, &OpenGate)
}

// Checks a program, and runs it.
#[tactic(auto, using(crate::proofs::Runs::accepted_too))]
fn run_outlined_on_threads<T: Threads + Wait + Sync>(
    rt: &T,
    alloc: Global,
    outlined: &Outlined<'_>,
    input: &[u64],
    workers: usize,
    capacity: u64,
) -> Result<Answer, SourceFault>
    requires some { 1 ≤ workers }
    requires few { workers ≤ 16 }
    ensures answer { IfOk result (IsAcceptedAnswer (on_threads input.now capacity) outlined.now) }
    ensures fault { IfErr result (IsProgramFault (stopped_on_threads input.now capacity) outlined.now) }
{
    let accepted = match check(alloc, outlined) {
        Ok(accepted) => accepted,
        Err(fault) => return Err(SourceFault::Check(fault)),
    };
    accepted.is_accepted();
    match run_accepted_on_threads(rt, alloc, &accepted, input, workers, capacity) {
        Ok(answer) => Ok(answer),
        Err(fault) => Err(SourceFault::Run(fault)),
    }
}

/// Runs a source by worker threads, on a host memory and devices, each of which has room for `capacity` cells. Which
/// events happen when is left to the threads. The answer and the faults are otherwise those of `run_source`.
#[tactic(auto, using(crate::proofs::Texts::unlisted_source))]
pub fn run_source_on_threads<T: Threads + Wait + Sync>(
    rt: &T,
    alloc: Global,
    bytes: &[u8],
    input: &[u64],
    workers: usize,
    capacity: u64,
) -> Result<Answer, SourceFault>
    requires some { 1 ≤ workers }
    requires few { workers ≤ 16 }
    ensures answer { IfOk result (IsSourceAnswer (on_threads input.now capacity) bytes.now input.now) }
    ensures fault { IfErr result (IsSourceFault (stopped_on_threads input.now capacity) bytes.now) }
{
    let program = read(alloc, bytes)?;
    let outlined = items(alloc, &program)?;
    erased_text_runs();
    run_outlined_on_threads(rt, alloc, &outlined, input, workers, capacity)
}
