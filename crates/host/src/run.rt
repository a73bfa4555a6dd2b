// A run on threads.

ghost use Rattle.std.specs.Prelude.{◌≡◌, ◌≤◌, IfErr, IfOk, Some};
ghost use Rattle.device.specs.Room.{IsAnswerWithin};
ghost use Rattle.host.specs.Once.{IsNew};
ghost use Rattle.host.specs.Threads.{IsThreadAnswer, IsThreadFault};

use crate::board::{Board, handed_count};
use crate::channel::{Ends, each_once, new_ends};
use crate::gate::Gate;
use crate::origin::Origin;
use crate::work::{Calls, work_on_threads};
use base::fault::RunFault;
use base::item::Answer;
use device::{Job, RunState};
use lower::Image;
use std::alloc::Global;
use std::marker::Brand;
use std::sync::{Mutex, Wait};
use std::thread::Threads;

// The run that the parameter `B` names, with the channel that it names.
fn run_from<'a, B: Origin + Send, R: Threads + Wait + Sync, G: Gate + Sync>(
    rt: &R,
    alloc: Global,
    image: &'a Image<'a>,
    input: &'a [u64],
    workers: usize,
    capacity: u64,
    gate: &G,
    ends: Ends<Job<'a>>,
) -> Result<Answer, RunFault>
    requires new { IsNew ends }
    requires named { (ends.pass.table_id ≡ B.table) × (ends.pass.me.0.of ≡ B.key) }
    requires start { B.start ≡ Some (record { program = image.now; input = input.now; capacity = capacity }) }
    ensures answer { IfOk result (IsThreadAnswer image.now input.now) }
    ensures within { IfOk result (IsAnswerWithin image.now input.now capacity) }
    ensures fault { IfErr result (IsThreadFault image.now input.now capacity) }
{
    let state = match RunState::new(alloc, image, input, capacity) {
        Err(_) => return Err(RunFault::OutOfMemory),
        Ok(state) => state,
    };
    let Ok((jobs, inboxes)) = each_once(alloc, ends, workers) else {
        return Err(RunFault::OutOfMemory);
    };
    let board: Mutex<Board<'a, B>> = Mutex::new(Board::new(image, state, jobs, workers));
    work_on_threads(rt, alloc, &board, &Calls::new(), gate, inboxes);
    board.into_inner().answer(alloc)
}

// The same, by a new channel with room for every job that there can be.
fn run_through<'a, R: Threads + Wait + Sync, G: Gate + Sync>(
    rt: &R,
    alloc: Global,
    image: &'a Image<'a>,
    input: &'a [u64],
    workers: usize,
    capacity: u64,
    gate: &G,
) -> Result<Answer, RunFault>
    ensures answer { IfOk result (IsThreadAnswer image.now input.now) }
    ensures within { IfOk result (IsAnswerWithin image.now input.now capacity) }
    ensures fault { IfErr result (IsThreadFault image.now input.now capacity) }
{
    let room = handed_count(image.items()).max(1);
    let Ok(ends) = new_ends::<Job<'a>>(alloc, room) else {
        return Err(RunFault::OutOfMemory);
    };
    run_from::<Brand, R, G>(rt, alloc, image, input, workers, capacity, gate, ends)
}

/// Runs an accepted program on this input by worker threads, on devices each with room for `capacity` cells. The
/// calling thread is the host; targets and deferred items are for the workers. The answer has the values of the
/// arrays that are marked current, and after none of its events are more than `capacity` cells of a device in use.
///
/// The first fault stops all threads, which are joined, and is answered: `DeviceFull` where an opening would create
/// more cells than its device has room for, `OutOfMemory`, `ThreadNotStarted` where the runtime does not start a
/// worker, `Stranger` where what was computed is not what was asked for, or `OtherState` where the channel gave a job
/// back. `OtherState` is also for a state that has not ended, though nothing stopped the run.
pub fn run_threads<R: Threads + Wait + Sync, G: Gate + Sync>(
    rt: &R,
    alloc: Global,
    image: &Image<'_>,
    input: &[u64],
    workers: usize,
    capacity: u64,
    gate: &G,
) -> Result<Answer, RunFault>
    requires some { 1 ≤ workers }
    requires few { workers ≤ 16 }
    ensures answer { IfOk result (IsThreadAnswer image.now input.now) }
    ensures within { IfOk result (IsAnswerWithin image.now input.now capacity) }
    ensures fault { IfErr result (IsThreadFault image.now input.now capacity) }
{
    run_through(rt, alloc, image, input, workers, capacity, gate)
}
