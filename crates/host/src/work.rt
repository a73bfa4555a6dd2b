// What threads do until the run is over.

ghost use Rattle.std.specs.Prelude.{◌≡◌, IfOk, IfSome};
ghost use Rattle.std.specs.List.{Contains};
ghost use Rattle.host.specs.Stops.{IsPlain};

use crate::board::{Board, Look, Stop};
use crate::channel::{Inbox, Received};
use crate::gate::{Gate, Phase};
use crate::operations::operations;
use crate::origin::Origin;
use crate::split::run_in_parts;
use device::Job;
use kernel::Done;
use std::alloc::{AllocError, Global};
use std::sync::{Condvar, Mutex, Wait};
use std::thread;
use std::thread::{Builder, Threads};

/// What threads sleep on, each kind apart, so that a call does not wake one of the other kind.
#[derive(Drop)]
pub struct Calls {
    workers: Condvar,
    host: Condvar,
}

impl Calls {
    pub fn new() -> Calls {
        Calls {
            workers: Condvar::new(),
            host: Condvar::new(),
        }
    }

    // Wakes so many workers, if as many sleep.
    fn some(&self, workers: usize) {
        for _ in 0..workers {
            self.workers.notify_one();
        }
    }

    // Wakes all threads that sleep.
    fn all(&self) {
        self.workers.notify_all();
        self.host.notify_all();
    }
}

// Receives a job, and sleeps where there is none. Where the sending end is gone and no job is left, the run is over:
// all threads are woken.
//
// A worker looks into the channel without the lock first. It sleeps only where it then finds nothing under the lock,
// under which every job is sent. Whoever sends jobs wakes a worker for each, but for a worker that has closed an
// item: this one will receive one of the jobs, and wakes a worker for each of the others. So where a job waits and a
// worker sleeps, another one was woken or is at work, and will look before it sleeps. In a chain of items no worker
// is woken.
fn next_job<'a, B: Origin, R: Wait>(
    rt: &R,
    board: &Mutex<Board<'a, B>>,
    calls: &Calls,
    inbox: &mut Inbox<Job<'a>, B>,
) -> Option<Job<'a>>
    ensures { IfSome result (Contains inbox.new) }
{
    // The lock, from the second look on.
    let mut held = None;
    for _ in rt.forever() {
        match inbox.receive(rt) {
            Received::Item(job) => return Some(job),
            Received::Closed => {
                calls.all();
                return None;
            }
            Received::Nothing => {
                held = Some(match held {
                    None => board.lock(rt),
                    Some(guard) => calls.workers.wait(rt, guard),
                });
            }
        }
    }
    unreachable!()
}

// Does the host's events, until one opens an item of its own, or there is nothing more to do.
//
// Where the host's next event may not happen yet, a closing makes it possible, and who closes that item wakes the
// host. Jobs that the host's events made ready are sent before the host sleeps.
fn next_of_host<'a, B: Origin, R: Wait>(
    rt: &R,
    board: &Mutex<Board<'a, B>>,
    calls: &Calls,
) -> Option<Job<'a>> {
    let mut guard = board.lock(rt);
    for _ in rt.forever() {
        calls.some(guard.hand_out(rt));
        match guard.look_as_host() {
            Look::Stop => {
                calls.all();
                return None;
            }
            Look::Wait => guard = calls.host.wait(rt, guard),
            Look::Again => {}
            Look::Do(job) => return Some(job),
        }
    }
    unreachable!()
}

// Stops the run, and wakes all threads.
fn stop_all<'a, B: Origin, R: Wait>(rt: &R, board: &Mutex<Board<'a, B>>, calls: &Calls, stop: Stop)
    requires { IsPlain stop }
{
    board.lock(rt).stop(stop);
    calls.all();
}

// Hands out what is ready after a closing. A worker is woken for each job that is sent, but for `left` of them, which
// the thread itself comes to receive.
fn hand_on<'a, B: Origin, R: Wait>(rt: &R, board: &mut Board<'a, B>, calls: &Calls, left: usize) {
    calls.some(board.hand_out(rt).saturating_sub(left));
    if board.calls_host() {
        calls.host.notify_one();
    }
}

// In how many parts a job is done: as many as there are workers for each open item, where it is long enough.
fn parts_of<'a, B: Origin, R: Wait>(
    rt: &R,
    board: &Mutex<Board<'a, B>>,
    least: u64,
    job: &Job<'a>,
) -> usize {
    if !job.is_kernel {
        return 1;
    }
    let most = operations(&job.code.region().body) / least.max(1);
    if most < 2 {
        return 1;
    }
    let share = board.lock(rt).share();
    match usize::try_from(most) {
        Ok(most) => share.min(most),
        Err(_) => share,
    }
}

// What a job's region does on its frame: in several parts, or else as the gate does it.
fn computed<'f, 'a, R: Threads + Sync, G: Gate>(
    rt: &R,
    alloc: Global,
    gate: &G,
    job: &'f Job<'a>,
    parts: usize,
) -> Result<Done<'a, 'f, 'a>, AllocError>
    ensures region { IfOk result (λ done. done.region.now ≡ job.now.code.now) }
    ensures frame { IfOk result (λ done. done.frame.now ≡ job.now.frame) }
{
    if parts > 1 {
        run_in_parts(rt, alloc, job, parts)
    } else {
        gate.compute(alloc, job.frame.item, job)
    }
}

// Does a job that was received, outside the lock, then closes its item under the lock and hands out what is ready. What
// was computed has the job's own region and frame, as the contract says, so that nothing is compared. The memory of the
// job is given back before the next one is made, which then takes the same pages.
fn do_received<'a, B: Origin, R: Threads + Wait + Sync, G: Gate>(
    rt: &R,
    alloc: Global,
    board: &Mutex<Board<'a, B>>,
    calls: &Calls,
    gate: &G,
    inbox: Inbox<Job<'a>, B>,
    job: Job<'a>,
) -> Inbox<Job<'a>, B>
    requires { Contains inbox job }
{
    let item = job.frame.item;
    gate.pass(item, Phase::Opened);
    let parts = parts_of(rt, board, gate.least_work(), &job);
    match computed(rt, alloc, gate, &job, parts) {
        Ok(done) => {
            gate.pass(item, Phase::Computed);
            let mut guard = board.lock(rt);
            let inbox = guard.close_received(inbox, &done);
            drop(done);
            drop(job);
            hand_on(rt, &mut guard, calls, 1);
            drop(guard);
            gate.pass(item, Phase::Closed);
            inbox
        }
        Err(_) => {
            stop_all(rt, board, calls, Stop::OutOfMemory);
            inbox
        }
    }
}

// The same for a job of the host.
fn do_own<'a, B: Origin, R: Wait, G: Gate>(
    rt: &R,
    alloc: Global,
    board: &Mutex<Board<'a, B>>,
    calls: &Calls,
    gate: &G,
    job: Job<'a>,
) {
    let item = job.frame.item;
    gate.pass(item, Phase::Opened);
    match gate.compute(alloc, item, &job) {
        Ok(done) => {
            gate.pass(item, Phase::Computed);
            let mut guard = board.lock(rt);
            guard.close(&done);
            drop(done);
            drop(job);
            hand_on(rt, &mut guard, calls, 0);
            drop(guard);
            gate.pass(item, Phase::Closed);
        }
        Err(_) => stop_all(rt, board, calls, Stop::OutOfMemory),
    }
}

// What a worker does, until the run is over.
fn work<'a, B: Origin, R: Threads + Wait + Sync, G: Gate>(
    rt: &R,
    alloc: Global,
    board: &Mutex<Board<'a, B>>,
    calls: &Calls,
    gate: &G,
    mut inbox: Inbox<Job<'a>, B>,
) {
    for _ in rt.forever() {
        let Some(job) = next_job(rt, board, calls, &mut inbox) else {
            return;
        };
        inbox = do_received(rt, alloc, board, calls, gate, inbox, job);
    }
}

// What the host does, until the run is over.
fn work_as_host<'a, B: Origin, R: Wait, G: Gate>(
    rt: &R,
    alloc: Global,
    board: &Mutex<Board<'a, B>>,
    calls: &Calls,
    gate: &G,
) {
    for _ in rt.forever() {
        let Some(job) = next_of_host(rt, board, calls) else {
            return;
        };
        do_own(rt, alloc, board, calls, gate, job);
    }
}

/// Workers, one for each receiving end, and the calling thread as the host, until all have stopped. The threads that
/// were started are joined.
pub fn work_on_threads<'a, B: Origin + Send, R: Threads + Wait + Sync, G: Gate + Sync>(
    rt: &R,
    alloc: Global,
    board: &Mutex<Board<'a, B>>,
    calls: &Calls,
    gate: &G,
    inboxes: Vec<Inbox<Job<'a>, B>>,
) {
    thread::scope(thread::scope_env(), rt, move |scope| {
        for (worker, inbox) in inboxes.into_iter().enumerate() {
            if Builder::new()
                .stack_size(gate.stack_size(worker))
                .spawn_scoped(scope, move || work(rt, alloc, board, calls, gate, inbox))
                .is_err()
            {
                stop_all(rt, board, calls, Stop::ThreadNotStarted);
                break;
            }
        }
        work_as_host(rt, alloc, board, calls, gate);
    });
}
