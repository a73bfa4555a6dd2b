//! A run that differs from the text without directives: `witness`.

ghost use Rattle.std.specs.Prelude.{◌≡◌, ◌≤◌, ◌⊎◌, [], IfErr, IfOk, OnErr, length, true};
ghost use Rattle.base.specs.Items.{plan};
ghost use Rattle.base.specs.Limits.{most_items};
ghost use Rattle.c_read.specs.Spells.{Spells};
ghost use Rattle.pipeline.specs.Checking.{IsRefused};
ghost use Rattle.stepper.specs.Answering.{AreShown};
ghost use Rattle.driver.specs.Printed.{IsWitnessed, OfSource};
ghost use Rattle.driver.specs.Refused.{IsNoRefusal, IsRefusalBy, IsRefusedOf};

use crate::checked::refuse;
use crate::ending::{DONE, Ending, FAILED};
use crate::running::read_input;
use crate::sources::{Sources, bytes_of};
use base::tree::Program;
use outline::Outlined;
use pipeline::{items, read};
use std::alloc::Global;
use std::io::{Read, Write};
use witness::{Judged, accepted_text, find, judge, none_text, witness_text};

/// The device's capacity in cells for the runs of `witness`: what `step` has where none is given.
const CAPACITY: u64 = 4_194_304;

// A source by its name, and its bytes.
#[derive(Clone, Copy)]
struct Named<'a, 's> {
    alloc: Global,
    name: &'a str,
    bytes: &'s [u8],
}

// Reads the input, and prints choices by which a program that is refused prints something else than without its directives.
fn print_found<'a, R: Read, W: Write, E: Write>(
    source: Named<'a, '_>,
    outlined: &Outlined<'_>,
    meeting: Option<u64>,
    input: &mut R,
    out: &mut W,
    err: &mut E,
) -> Result<u8, Ending<'a>>
    requires spelled { Spells source.bytes.now outlined.now }
    requires few { length (plan outlined.now).items ≤ most_items }
    requires shown { AreShown outlined.now [] }
    ensures status { IfOk result (λ s. (s ≡ 0) ⊎ (s ≡ 3)) }
    ensures quiet { OnErr result (W.contents out.new ≡ W.contents out.old) }
    ensures refused { IfErr result IsNoRefusal }
    ensures done { IfOk result (λ s. s ≡ 0 → IsWitnessed source.entry.name.now source.entry.bytes.now (R.remaining input.old) (W.contents out.old) (W.contents out.new)) }
{
    let numbers = read_input(source.alloc, input)?;
    match find(
        source.alloc,
        source.bytes,
        outlined,
        &numbers,
        CAPACITY,
        meeting,
    ) {
        Err(_) => Err(Ending::OutOfMemory),
        Ok(None) => {
            let _ = none_text(err);
            Ok(FAILED)
        }
        Ok(Some(found)) => match witness_text(source.name, &found.witness, &found.plain, out) {
            Ok(()) => Ok(DONE),
            Err(_) => Ok(FAILED),
        },
    }
}

// The same where the program is not judged yet.
fn print_witness<'a, R: Read, W: Write, E: Write>(
    source: Named<'a, '_>,
    program: &Program,
    input: &mut R,
    out: &mut W,
    err: &mut E,
) -> Result<u8, Ending<'a>>
    requires { Spells source.bytes.now program.now }
    ensures status { IfOk result (λ s. (s ≡ 0) ⊎ (s ≡ 3)) }
    ensures quiet { OnErr result (W.contents out.new ≡ W.contents out.old) }
    ensures refused { IfErr result (IsRefusalBy (IsRefused source.entry.bytes.now)) }
    ensures done { IfOk result (λ s. s ≡ 0 → IsWitnessed source.entry.name.now source.entry.bytes.now (R.remaining input.old) (W.contents out.old) (W.contents out.new)) }
{
    let outlined = match items(source.alloc, program) {
        Ok(outlined) => outlined,
        Err(fault) => return Err(Ending::Source(fault)),
    };
    match judge(source.alloc, &outlined) {
        Err(_) => Err(Ending::OutOfMemory),
        Ok(Judged::Accepted) => {
            let _ = accepted_text(err);
            Ok(FAILED)
        }
        Ok(Judged::OutOfRange(_)) => refuse(source.alloc, source.bytes, err),
        Ok(Judged::Wrong(meeting)) => print_found(source, &outlined, meeting, input, out, err),
    }
}

/// Prints choices by which a program prints something else than without its directives. The input is read where there are
/// runs to look at, and not before.
pub(crate) fn do_witness<'a, S: Sources, R: Read, W: Write, E: Write>(
    alloc: Global,
    name: &'a str,
    sources: &mut S,
    input: &mut R,
    out: &mut W,
    err: &mut E,
) -> Result<u8, Ending<'a>>
    ensures status { IfOk result (λ s. (s ≡ 0) ⊎ (s ≡ 3)) }
    ensures quiet { OnErr result (W.contents out.new ≡ W.contents out.old) }
    ensures refused { IfErr result (IsRefusalBy (IsRefusedOf true (S.known sources.old name.now))) }
    ensures done { IfOk result (λ s. s ≡ 0 → OfSource (S.known sources.old name.now) (λ bytes. IsWitnessed name.now bytes (R.remaining input.old) (W.contents out.old) (W.contents out.new))) }
{
    let bytes = bytes_of(alloc, sources, name)?;
    let program = match read(alloc, &bytes) {
        Ok(program) => program,
        Err(fault) => return Err(Ending::Source(fault)),
    };
    let source = Named {
        alloc,
        name,
        bytes: &bytes,
    };
    print_witness(source, &program, input, out, err)
}
