// A kernel that is done in parts, by several threads.

ghost use Rattle.std.specs.Prelude.{◌≡◌, IfOk, IfSome};
ghost use Rattle.std.specs.Thread.{IsSync};
ghost use Rattle.kernel.specs.Spread.{IsPart, MayRun};

use base::tree::Bounds;
use device::Job;
use kernel::{Done, Part, Spread, cut, join_parts, run, run_part, spread_of, whole};
use std::alloc::{AllocError, Global};
use std::thread::{Threads, join};

// What turns of a loop leave, which are done in so many parts or somewhat more, each by a thread of its own where one
// can be started. The error comes for want of memory.
#[cycle(parts)]
fn in_parts<'f, R: Threads + Sync>(
    rt: &R,
    alloc: Global,
    of: &Spread<'_, 'f, '_>,
    bounds: Bounds,
    parts: usize,
) -> Result<Part<'f>, AllocError>
    requires { MayRun of.now.frame.now of.now.inner of.now.body.now bounds }
    ensures { IfOk result (IsPart of.now.frame.now of.now.body.now bounds) }
{
    if parts <= 1 {
        return run_part(alloc, of, bounds);
    }
    let Some((front, back)) = cut(of, bounds) else {
        return run_part(alloc, of, bounds);
    };
    let half = parts.div_ceil(2);
    let first = move || -> Result<Part, AllocError>
        requires { IsSync R.row × MayRun of.now.frame.now of.now.inner of.now.body.now front }
        ensures { IfOk result (IsPart of.entry.now.frame.now of.entry.now.body.now front) }
    { in_parts(rt, alloc, of, front, half) };
    let second = move || -> Result<Part, AllocError>
        requires { IsSync R.row × MayRun of.now.frame.now of.now.inner of.now.body.now back }
        ensures { IfOk result (IsPart of.entry.now.frame.now of.entry.now.body.now back) }
    { in_parts(rt, alloc, of, back, half) };
    let (a, b) = join(rt, first, second);
    join_parts(alloc, of, bounds, (front, back), a?, b?)
}

// The loop that a job is, where it is a kernel whose turns may be done in spans.
fn spread<'f, 'a>(job: &'f Job<'a>) -> Option<Spread<'a, 'f, 'a>>
    ensures region { IfSome result (λ s. s.region.now ≡ job.now.code.now) }
    ensures frame { IfSome result (λ s. s.frame.now ≡ job.now.frame) }
    ensures may { IfSome result (λ s. MayRun s.frame.now s.inner s.body.now s.bounds) }
{
    if !job.is_kernel {
        return None;
    }
    spread_of(job.code, &job.frame)
}

/// What a job's region does on its frame. A kernel whose turns may be done in spans is done in so many parts or somewhat
/// more, each by a thread of its own where one can be started. The error comes for want of memory.
pub fn run_in_parts<'f, 'a, R: Threads + Sync>(
    rt: &R,
    alloc: Global,
    job: &'f Job<'a>,
    parts: usize,
) -> Result<Done<'a, 'f, 'a>, AllocError>
    ensures region { IfOk result (λ done. done.region.now ≡ job.now.code.now) }
    ensures frame { IfOk result (λ done. done.frame.now ≡ job.now.frame) }
{
    let Some(of) = spread(job) else {
        return run(alloc, job.code, &job.frame);
    };
    let part = in_parts(rt, alloc, &of, of.bounds, parts)?;
    whole(alloc, &of, part)
}
