// Where worker threads stop between the steps of an item.

ghost use Rattle.std.specs.Prelude.{◌≡◌, IfOk};

use device::Job;
use kernel::{Done, run};
use std::alloc::{AllocError, Global};

/// What an item has come to when its thread asks the gate.
#[derive(Clone, Copy)]
pub enum Phase {
    Opened,
    Computed,
    Closed,
}

// The stack of a worker, as large as that of a thread of Rust.
const STACK_SIZE: usize = 2 * 1024 * 1024;

// How many operations a part of a kernel has at least that is done by a thread of its own: they take several times as
// long as it takes to start the thread.
const LEAST_WORK: u64 = 100_000;

/// Where threads stop between the steps of an item, for tests. It is asked outside the lock.
pub trait Gate {
    /// How large the stack of a worker is, in bytes, by the worker's number from 0 on. A worker for whose stack there
    /// is no room is not started.
    fn stack_size(&self, _worker: usize) -> usize {
        STACK_SIZE
    }

    /// The thread that has the item passes.
    fn pass(&self, item: u32, phase: Phase);

    /// About how many operations a part of a kernel has at least, where it is done in parts.
    fn least_work(&self) -> u64 {
        LEAST_WORK
    }

    /// What the job's region does on its frame, where it is not done in parts. The error comes for want of memory.
    fn compute<'f, 'a>(
        &self,
        alloc: Global,
        _item: u32,
        job: &'f Job<'a>,
    ) -> Result<Done<'a, 'f, 'a>, AllocError>
        ensures region { IfOk result (λ done. done.region.now ≡ job.now.code.now) }
        ensures frame { IfOk result (λ done. done.frame.now ≡ job.now.frame) }
    {
        run(alloc, job.code, &job.frame)
    }
}

/// A gate at which nothing stops.
#[derive(Drop)]
pub struct OpenGate;

impl Gate for OpenGate {
    fn pass(&self, _item: u32, _phase: Phase) {}
}
