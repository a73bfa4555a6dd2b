// Runs of sources on threads.

ghost use Rattle.std.specs.Prelude.{◌≤◌};

use crate::sources::{Fault, run_source};
use base::fault::RunFault;
use base::item::Event;
use device::Job;
use host::{Gate, Phase};
use kernel::{Done, run};
use std::alloc::{AllocError, Global};
use std::process::Abort;
use std::sync::Wait;
use std::sync::atomic::{AtomicU64, Ordering};
use std::test::Fail;
use std::thread;
use std::thread::Threads;

const TWO_KERNELS: &str =
    "uint64_t A[8];\nuint64_t B[8];\nint main(void) {\nB[0] = 3;\n#pragma omp target map(tofrom: A) nowait\nfor (uint64_t i = 0; i < 8; i += 1) { A[i] = i; }\n#pragma omp target map(tofrom: B) nowait\nfor (uint64_t i = 0; i < 8; i += 1) { B[i] = B[i] + 10; }\n#pragma omp taskwait\nprint(A[7]); print(B[0]);\n}\n";

const FOUR_KERNELS: &str =
    "uint64_t A[1];\nuint64_t B[1];\nuint64_t C[1];\nuint64_t D[1];\nint main(void) {\n#pragma omp target map(tofrom: A) nowait\n{ A[0] = 1; }\n#pragma omp target map(tofrom: B) nowait\n{ B[0] = 2; }\n#pragma omp target map(tofrom: C) nowait\n{ C[0] = 3; }\n#pragma omp target map(tofrom: D) nowait\n{ D[0] = 4; }\n#pragma omp taskwait\nprint(A[0]); print(B[0]); print(C[0]); print(D[0]);\n}\n";

const THREE_KERNELS_AND_THE_HOST: &str =
    "uint64_t A[1];\nuint64_t B[1];\nuint64_t C[1];\nuint64_t D[1];\nint main(void) {\n#pragma omp target map(tofrom: A) nowait\n{ A[0] = 1; }\n#pragma omp target map(tofrom: B) nowait\n{ B[0] = 2; }\n#pragma omp target map(tofrom: C) nowait\n{ C[0] = 3; }\nD[0] = 4;\n#pragma omp taskwait\nprint(A[0]); print(B[0]); print(C[0]); print(D[0]);\n}\n";

// Turns in which others run, up to a limit, until so many have come.
fn wait_for(came: &AtomicU64, late: &AtomicU64, wanted: u64) {
    for _ in 0..5_000_000u64 {
        if came.load(Ordering::SeqCst) >= wanted {
            return;
        }
        thread::yield_now();
    }
    late.fetch_add(1, Ordering::SeqCst);
}

fn is(count: &AtomicU64, wanted: u64) -> bool {
    count.load(Ordering::SeqCst) == wanted
}

// Holds the first four items once they are open until all four are.
#[derive(Drop)]
struct FourAtOnce {
    came: AtomicU64,
    late: AtomicU64,
}

impl Gate for FourAtOnce {
    fn pass(&self, item: u32, phase: Phase) {
        if item < 4 && phase == Phase::Opened {
            self.came.fetch_add(1, Ordering::SeqCst);
            wait_for(&self.came, &self.late, 4);
        }
    }
}

#[test]
fn four_kernels_are_open_at_once(rt: HostRuntime) -> Result<(), Fail> {
    let gate = FourAtOnce {
        came: AtomicU64::new(0),
        late: AtomicU64::new(0),
    };
    let answer = run_source(&rt, rt.alloc(), FOUR_KERNELS, &[], 4, 4, &gate)?;
    assert!(rt; answer.out.as_slice() == b"1\n2\n3\n4\n".as_slice());
    assert!(rt; is(&gate.late, 0) && is(&gate.came, 4));
    Ok(())
}

// Computes items 1 and 2 once both are being computed, and counts what passes.
#[derive(Drop)]
struct TwoAtOnce {
    came: AtomicU64,
    late: AtomicU64,
    passed: AtomicU64,
}

impl Gate for TwoAtOnce {
    fn pass(&self, _item: u32, _phase: Phase) {
        self.passed.fetch_add(1, Ordering::SeqCst);
    }

    fn compute<'f, 'a>(
        &self,
        alloc: Global,
        item: u32,
        job: &'f Job<'a>,
    ) -> Result<Done<'a, 'f, 'a>, AllocError> {
        if item == 1 || item == 2 {
            self.came.fetch_add(1, Ordering::SeqCst);
            wait_for(&self.came, &self.late, 2);
        }
        run(alloc, job.code, &job.frame)
    }
}

// Whether so many workers compute the two kernels at once.
fn computes_two<R: Threads + Wait + Sync>(
    rt: &R,
    alloc: Global,
    workers: usize,
) -> Result<bool, Fail>
    requires some { 1 ≤ workers }
    requires few { workers ≤ 16 }
{
    let gate = TwoAtOnce {
        came: AtomicU64::new(0),
        late: AtomicU64::new(0),
        passed: AtomicU64::new(0),
    };
    let answer = run_source(rt, alloc, TWO_KERNELS, &[], workers, 16, &gate)?;
    // four items, each opened, computed and closed
    Ok(answer.out.as_slice() == b"7\n13\n".as_slice() && is(&gate.late, 0) && is(&gate.passed, 12))
}

#[test]
fn two_kernels_are_computed_at_once(rt: HostRuntime) -> Result<(), Fail> {
    for _ in 0..100 {
        assert!(rt; computes_two(&rt, rt.alloc(), 2)?);
        assert!(rt; computes_two(&rt, rt.alloc(), 16)?);
    }
    Ok(())
}

// Holds item 0 once it is open until the host has closed item 3.
#[derive(Drop)]
struct HostFirst {
    closed: AtomicU64,
    late: AtomicU64,
}

impl Gate for HostFirst {
    fn pass(&self, item: u32, phase: Phase) {
        if item == 3 && phase == Phase::Closed {
            self.closed.fetch_add(1, Ordering::SeqCst);
        }
        if item == 0 && phase == Phase::Opened {
            wait_for(&self.closed, &self.late, 1);
        }
    }
}

// Whether the items are opened in ascending order, but for item 3.
fn are_in_order(history: &[Event]) -> bool {
    let mut last = 0;
    for event in history {
        match event {
            Event::Open(item) if *item != 3 => {
                if *item < last {
                    return false;
                }
                last = *item;
            }
            _ => {}
        }
    }
    true
}

#[test]
fn a_worker_takes_the_lowest_item(rt: HostRuntime) -> Result<(), Fail> {
    let gate = HostFirst {
        closed: AtomicU64::new(0),
        late: AtomicU64::new(0),
    };
    let answer = run_source(
        &rt,
        rt.alloc(),
        THREE_KERNELS_AND_THE_HOST,
        &[],
        1,
        4,
        &gate,
    )?;
    assert!(rt; answer.out.as_slice() == b"1\n2\n3\n4\n".as_slice());
    assert!(rt; is(&gate.late, 0) && are_in_order(&answer.history));
    Ok(())
}

// Refuses to compute one item.
#[derive(Drop)]
struct NoMemory {
    item: u32,
}

impl Gate for NoMemory {
    fn pass(&self, _item: u32, _phase: Phase) {}

    fn compute<'f, 'a>(
        &self,
        alloc: Global,
        item: u32,
        job: &'f Job<'a>,
    ) -> Result<Done<'a, 'f, 'a>, AllocError> {
        if item == self.item {
            return Err(AllocError);
        }
        run(alloc, job.code, &job.frame)
    }
}

// Whether the run of so many workers stops for want of memory where that item is not computed.
fn lacks_memory<R: Threads + Wait + Sync>(rt: &R, alloc: Global, workers: usize, item: u32) -> bool
    requires some { 1 ≤ workers }
    requires few { workers ≤ 16 }
{
    let answer = run_source(rt, alloc, TWO_KERNELS, &[], workers, 16, &NoMemory { item });
    matches!(answer, Err(Fault::Run(RunFault::OutOfMemory)))
}

// Items of the host, of a worker, and the last one.
#[test]
fn a_fault_stops_all_threads(rt: HostRuntime) {
    let alloc = rt.alloc();
    assert!(rt; lacks_memory(&rt, alloc, 4, 0));
    assert!(rt; lacks_memory(&rt, alloc, 4, 2));
    assert!(rt; lacks_memory(&rt, alloc, 1, 4));
}

// Wants a stack for one worker that no system has.
#[derive(Drop)]
struct NoRoom {
    worker: usize,
}

impl Gate for NoRoom {
    fn stack_size(&self, worker: usize) -> usize {
        if worker == self.worker {
            usize::MAX
        } else {
            1 << 20
        }
    }

    fn pass(&self, _item: u32, _phase: Phase) {}
}

// Whether the run answers that a worker was not started.
fn lacks_worker<R: Threads + Wait + Sync>(
    rt: &R,
    alloc: Global,
    workers: usize,
    lacking: usize,
) -> bool
    requires some { 1 ≤ workers }
    requires few { workers ≤ 16 }
{
    let gate = NoRoom { worker: lacking };
    let answer = run_source(rt, alloc, TWO_KERNELS, &[], workers, 16, &gate);
    matches!(answer, Err(Fault::Run(RunFault::ThreadNotStarted)))
}

#[test]
fn a_worker_is_not_started(rt: HostRuntime) {
    let alloc = rt.alloc();
    assert!(rt; lacks_worker(&rt, alloc, 1, 0) && lacks_worker(&rt, alloc, 16, 7));
    assert!(rt; lacks_worker(&rt, alloc, 4, 0) && lacks_worker(&rt, alloc, 4, 3));
    assert!(rt; !lacks_worker(&rt, alloc, 4, 4));
}
