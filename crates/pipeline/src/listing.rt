//! From a source to the list of its items.

ghost use Rattle.std.specs.Prelude.{◌≡◌, IfOk, IfErr, OnErr, OnOk};
ghost use Rattle.pipeline.specs.Checking.{IsRefused, IsSilent, IsUnaccepted};
ghost use Rattle.pipeline.specs.Listing.{AreWritten, IsListed};

use crate::checking::tell;
use crate::text::{items, read};
use base::fault::SourceFault;
use mapcheck::{Accepted, check};
use outline::Outlined;
use report::list_text;
use std::alloc::Global;
use std::io;
use std::io::Write;

// Writes the items of an accepted program.
fn write_items<W: Write>(alloc: Global, accepted: &Accepted<'_>, out: &mut W) -> io::Result<()>
    ensures { OnOk result (AreWritten accepted.now (W.contents out.old) (W.contents out.new)) }
{
    accepted.is_accepted();
    list_text(alloc, accepted.outlined(), out)
}

// Checks a program, and writes its items.
fn list_outlined<W: Write, E: Write>(
    alloc: Global,
    outlined: &Outlined<'_>,
    out: &mut W,
    err: &mut E,
) -> Result<io::Result<()>, SourceFault>
    ensures written { IfOk result (λ w. OnOk w (AreWritten outlined.now (W.contents out.old) (W.contents out.new))) }
    ensures fault { IfErr result (IsUnaccepted outlined.now) }
    ensures quiet { OnErr result (W.contents out.new ≡ W.contents out.old) }
    ensures silent { IsSilent result (E.contents err.old) (E.contents err.new) }
{
    match check(alloc, outlined) {
        Ok(accepted) => Ok(write_items(alloc, &accepted, out)),
        Err(fault) => Err(tell(alloc, outlined.program(), fault, err)),
    }
}

/// Reads a source, checks its program, and writes its items, a line each. A fault is that of the first pass that fails,
/// and then nothing is written to `out`; why a program is not accepted is written to `err`, in one line. A write to
/// `out` that fails ends the list.
#[tactic(auto, using(crate::proofs::Listings::on_listed, crate::proofs::Texts::unlisted_refused))]
pub fn list_source<W: Write, E: Write>(
    alloc: Global,
    bytes: &[u8],
    out: &mut W,
    err: &mut E,
) -> Result<io::Result<()>, SourceFault>
    ensures listed { IfOk result (λ w. OnOk w (IsListed bytes.now (W.contents out.old) (W.contents out.new))) }
    ensures fault { IfErr result (λ f. IsRefused bytes.now f) }
    ensures quiet { OnErr result (W.contents out.new ≡ W.contents out.old) }
    ensures silent { IsSilent result (E.contents err.old) (E.contents err.new) }
{
    let program = read(alloc, bytes)?;
    let outlined = items(alloc, &program)?;
    list_outlined(alloc, &outlined, out, err)
}
