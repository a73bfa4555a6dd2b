//! From a source to whether it is accepted.

ghost use Rattle.std.specs.Prelude.{◌≡◌, ◌⊎◌, IfOk, IfErr, OnErr, OnOk};
ghost use Rattle.pipeline.specs.Checking.{IsChecked, IsRefused, IsSilent, IsTold, IsUnaccepted};

use crate::text::{items, read};
use base::fault::{CheckFault, SourceFault};
use base::tree::Program;
use mapcheck::{Accepted, check};
use outline::Outlined;
use report::{accepted_text, refusal_text};
use std::alloc::Global;
use std::io;
use std::io::Write;

/// Writes why a program is not accepted, but not where it is want of memory. Where the line cannot be made for want of
/// memory, this is answered in place of the fault.
pub fn tell<E: Write>(
    alloc: Global,
    program: &Program,
    fault: CheckFault,
    err: &mut E,
) -> SourceFault
    ensures fault { (result ≡ SourceFault.Check fault) ⊎ (result ≡ SourceFault.Check CheckFault.OutOfMemory) }
    ensures silent { fault ≡ CheckFault.OutOfMemory → E.contents err.new ≡ E.contents err.old }
{
    if matches!(fault, CheckFault::OutOfMemory) {
        return SourceFault::Check(fault);
    }
    let written = refusal_text(alloc, program, &fault, err);
    match written {
        Ok(()) => SourceFault::Check(fault),
        Err(error) => match error.kind() {
            io::ErrorKind::OutOfMemory => SourceFault::Check(CheckFault::OutOfMemory),
            _ => SourceFault::Check(fault),
        },
    }
}

// Writes that a program is accepted, and the arrays marked current.
fn write_accepted<W: Write>(alloc: Global, accepted: &Accepted<'_>, out: &mut W) -> io::Result<()>
    ensures { OnOk result (IsTold accepted.now (W.contents out.old) (W.contents out.new)) }
{
    accepted.is_accepted();
    let program = accepted.outlined().program();
    accepted_text(alloc, program, accepted.current(), out)
}

// Checks a program, and writes what comes of it.
fn check_outlined<W: Write, E: Write>(
    alloc: Global,
    outlined: &Outlined<'_>,
    out: &mut W,
    err: &mut E,
) -> Result<io::Result<()>, SourceFault>
    ensures told { IfOk result (λ w. OnOk w (IsTold outlined.now (W.contents out.old) (W.contents out.new))) }
    ensures fault { IfErr result (IsUnaccepted outlined.now) }
    ensures quiet { OnErr result (W.contents out.new ≡ W.contents out.old) }
    ensures silent { IsSilent result (E.contents err.old) (E.contents err.new) }
{
    match check(alloc, outlined) {
        Ok(accepted) => Ok(write_accepted(alloc, &accepted, out)),
        Err(fault) => Err(tell(alloc, outlined.program(), fault, err)),
    }
}

/// Reads a source, checks its program, and writes `accepted` and a line for each array marked current. A fault is that
/// of the first pass that fails, and then nothing is written to `out`; why a program is not accepted is written to
/// `err`, in one line. A write to `out` that fails ends the text.
#[tactic(auto, using(crate::proofs::Listings::on_checked, crate::proofs::Texts::unlisted_refused))]
pub fn check_source<W: Write, E: Write>(
    alloc: Global,
    bytes: &[u8],
    out: &mut W,
    err: &mut E,
) -> Result<io::Result<()>, SourceFault>
    ensures checked { IfOk result (λ w. OnOk w (IsChecked bytes.now (W.contents out.old) (W.contents out.new))) }
    ensures fault { IfErr result (λ f. IsRefused bytes.now f) }
    ensures quiet { OnErr result (W.contents out.new ≡ W.contents out.old) }
    ensures silent { IsSilent result (E.contents err.old) (E.contents err.new) }
{
    let program = read(alloc, bytes)?;
    let outlined = items(alloc, &program)?;
    check_outlined(alloc, &outlined, out, err)
}
