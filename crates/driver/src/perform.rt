//! One command, over any sources, reader and writers.

ghost use Rattle.std.specs.Prelude.{◌≡◌, ◌≢◌, ◌≤◌, ◌⊎◌, [], IfErr, IfOk, false, map};
ghost use Rattle.clap.specs.Faults.{fault_of};
ghost use Rattle.clap.specs.Values.{kind_of};
ghost use Rattle.command.specs.CommandLine.{ompc};
ghost use Rattle.driver.specs.Statuses.{status_of, usage_status};
ghost use Rattle.driver.specs.Printed.{IsCommandDone, IsDone, IsUnlessReport, OfSource, file_of, is_report};
ghost use Rattle.driver.specs.Misused.{IsMisused, IsMisusedRequest};
ghost use Rattle.driver.specs.Refused.{IsCommandRefused, IsRefusalBy, IsRefusedOf, IsRefusedSource, checks};

use crate::checked::{do_check, do_list};
use crate::ending::{Ending, FAILED, MISUSED};
use crate::explained::do_explain;
use crate::fixed::do_fix;
use crate::running::{Means, do_run, do_step};
use crate::sources::Sources;
use crate::viewed::do_view;
use crate::witnessed::do_witness;
use clap::error::ErrorKind;
use command::{Request, parse};
use std::alloc::Global;
use std::io::{Read, Write};
use std::sync::Wait;
use std::thread::Threads;

/// Does what the words ask for.
fn do_request<'a, T: Threads + Wait + Sync, S: Sources, R: Read, W: Write, E: Write>(
    on: Means<'_, T>,
    request: Request<'a>,
    sources: &mut S,
    input: &mut R,
    out: &mut W,
    err: &mut E,
) -> Result<u8, Ending<'a>>
    ensures status { IfOk result (λ s. (s ≡ 0) ⊎ (s ≡ 3)) }
    ensures quiet { IfErr result (λ e. is_report request.entry ≡ false → W.contents out.new ≡ W.contents out.old) }
    ensures quiet_misuse { IfErr result (λ e. status_of e ≡ 2 → W.contents out.new ≡ W.contents out.old) }
    ensures refused { IfErr result (IsRefusalBy (IsRefusedOf (checks request.entry) (S.known sources.old (file_of request.entry)))) }
    ensures misused { IfErr result (λ e. status_of e ≡ 2 → IsMisusedRequest request.entry (S.known sources.old (file_of request.entry))) }
    ensures done { IfOk result (λ s. s ≡ 0 → OfSource (S.known sources.old (file_of request.entry)) (λ bytes. IsDone request.entry bytes (R.remaining input.old) (W.contents out.old) (W.contents out.new))) }
{
    match request {
        Request::Run(run) => do_run(on, run, sources, input, out, err),
        Request::Step(step) => do_step(on, step, sources, input, out, err),
        Request::Check(name) => do_check(on.alloc, name, sources, out, err),
        Request::List(name) => do_list(on.alloc, name, sources, out, err),
        Request::Explain(explain) => do_explain(on.alloc, on.terminal, explain, sources, out),
        Request::Fix(name) => do_fix(on.alloc, name, sources, out, err),
        Request::Witness(name) => do_witness(on.alloc, name, sources, input, out, err),
        Request::View(name) => do_view(on.alloc, name, sources, out),
    }
}

/// Does a request, and tells why where it cannot be done.
fn perform<T: Threads + Wait + Sync, S: Sources, R: Read, W: Write, E: Write>(
    on: Means<'_, T>,
    request: Request<'_>,
    sources: &mut S,
    input: &mut R,
    out: &mut W,
    err: &mut E,
) -> u8
    ensures status { result ≤ 3 }
    ensures quiet { result ≡ 1 → is_report request.entry ≡ false → W.contents out.new ≡ W.contents out.old }
    ensures quiet_misuse { result ≡ 2 → W.contents out.new ≡ W.contents out.old }
    ensures refused { result ≡ 1 → IsRefusedSource (checks request.entry) (S.known sources.old (file_of request.entry)) }
    ensures misused { result ≡ 2 → IsMisusedRequest request.entry (S.known sources.old (file_of request.entry)) }
    ensures done { result ≡ 0 → OfSource (S.known sources.old (file_of request.entry)) (λ bytes. IsDone request.entry bytes (R.remaining input.old) (W.contents out.old) (W.contents out.new)) }
{
    match do_request(on, request, sources, input, out, err) {
        Ok(status) => status,
        Err(ending) => {
            // A status is answered even where its text cannot be written.
            let _ = ending.write(err);
            ending.status()
        }
    }
}

/// Tells what is wrong with the words.
pub(crate) fn misused<E: Write>(error: &clap::Error, err: &mut E) -> u8
    ensures fails { (result ≡ 2) ⊎ (result ≡ 3) }
    ensures status { result ≡ usage_status (kind_of error.now) }
{
    match error.kind() {
        ErrorKind::OutOfMemory => {
            let _ = Ending::OutOfMemory.write(err);
            FAILED
        }
        _ => {
            let _ = write!(err, "{error}");
            MISUSED
        }
    }
}

/// Does the command of the words, which are without the program's name, and answers its status: 0 where it was done, 1
/// where the program is refused, 2 where the command cannot be done as it was given, 3 where the run stopped before its
/// end, where memory ran out, or where standard output cannot be written.
///
/// What a command prints goes to `out` at its end, and only where it succeeds, but for `explain` and `view`, which print
/// why a program is refused; the text of a fault of every other command goes to `err`. `terminal` says whether a terminal that takes colours
/// shows `out`. `rt` starts the worker threads of `run`; every other command waits for nobody.
pub fn drive<T: Threads + Wait + Sync, S: Sources, R: Read, W: Write, E: Write>(
    rt: &T,
    alloc: Global,
    terminal: bool,
    words: &[&str],
    sources: &mut S,
    input: &mut R,
    out: &mut W,
    err: &mut E,
) -> u8
    ensures status { result ≤ 3 }
    ensures quiet { result ≡ 1 → IsUnlessReport (map (λ w. w.now) words.now) (W.contents out.new ≡ W.contents out.old) }
    ensures quiet_misuse { result ≡ 2 → W.contents out.new ≡ W.contents out.old }
    ensures refused { result ≡ 1 → IsCommandRefused (map (λ w. w.now) words.now) (S.known sources.old) }
    ensures misused { result ≡ 2 → IsMisused (map (λ w. w.now) words.now) (S.known sources.old) }
    ensures usage { fault_of ompc (map (λ w. w.now) words.now) ≢ [] → (result ≡ 2) ⊎ (result ≡ 3) }
    ensures done { result ≡ 0 → IsCommandDone (map (λ w. w.now) words.now) (S.known sources.old) (R.remaining input.old) (W.contents out.old) (W.contents out.new) }
{
    match parse(alloc, words) {
        Ok(request) => {
            let on = Means {
                rt,
                alloc,
                terminal,
            };
            perform(on, request, sources, input, out, err)
        },
        Err(error) => misused(&error, err),
    }
}
