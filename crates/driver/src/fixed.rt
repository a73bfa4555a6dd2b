//! A source with its directives changed so that it is accepted: `fix`.

ghost use Rattle.std.specs.Prelude.{◌≡◌, ◌⊎◌, IfErr, IfOk, IfSome, None, OnErr, OnOk, true};
ghost use Rattle.std.specs.Io.KnownBytes.{Appends};
ghost use Rattle.c_lines.specs.Spliced.{spliced};
ghost use Rattle.driver.specs.Statuses.{status_of};
ghost use Rattle.driver.specs.Printed.{IsFixed, OfSource};
ghost use Rattle.driver.specs.Refused.{IsRefusalBy, IsRefusedOf};

use crate::checked::refuse;
use crate::ending::{DONE, Ending, FAILED};
use crate::sources::{Sources, Texts, texts_of};
use c_lines::spliced;
use mend::{MOST_CHECKS, seek_within, split_as};
use report::no_change_text;
use std::alloc::{AllocError, Global};
use std::io;
use std::io::Write;

/// Writes a text.
fn write_text<W: Write>(text: &[u8], out: &mut W) -> io::Result<()>
    ensures { OnOk result (Appends (W.contents out.old) (W.contents out.new) text.now) }
{
    out.write_all(text)?;
    out.flush()
}

/// A text that is the mend of a source once its lines are joined: with its lines broken where those of the source are,
/// or else the mend itself.
fn text_of(alloc: Global, texts: &Texts, mend: &[u8]) -> Result<Option<Vec<u8>>, AllocError>
    ensures { IfOk result (λ o. IfSome o (λ v. spliced v.items ≡ mend.now)) }
{
    let split = split_as(alloc, &texts.source, &texts.bytes, mend)?;
    if spliced(alloc, &split)?.as_slice() == mend {
        return Ok(Some(split));
    }
    if spliced(alloc, mend)?.as_slice() == mend {
        return Ok(Some(Vec::from_slice(alloc, mend)?));
    }
    Ok(None)
}

/// Prints a source with its directives changed so that it is accepted. Where none is found it is refused as the check
/// refuses it, and it is said how much was tried.
pub(crate) fn do_fix<'a, S: Sources, W: Write, E: Write>(
    alloc: Global,
    name: &'a str,
    sources: &mut S,
    out: &mut W,
    err: &mut E,
) -> Result<u8, Ending<'a>>
    ensures status { IfOk result (λ s. (s ≡ 0) ⊎ (s ≡ 3)) }
    ensures quiet { OnErr result (W.contents out.new ≡ W.contents out.old) }
    ensures refused { IfErr result (IsRefusalBy (IsRefusedOf true (S.known sources.old name.now))) }
    ensures misused { IfErr result (λ e. status_of e ≡ 2 → S.known sources.old name.now ≡ None) }
    ensures done { IfOk result (λ s. s ≡ 0 → OfSource (S.known sources.old name.now) (λ bytes. IsFixed bytes (W.contents out.old) (W.contents out.new))) }
{
    let texts = texts_of(alloc, sources, name)?;
    let Ok(sought) = seek_within(alloc, &texts.bytes, MOST_CHECKS) else {
        return refuse(alloc, &texts.bytes, err);
    };
    match sought.mended {
        Some(mended) => {
            let Ok(Some(text)) = text_of(alloc, &texts, &mended.text) else {
                return Err(Ending::OutOfMemory);
            };
            match write_text(&text, out) {
                Ok(()) => Ok(DONE),
                Err(_) => Ok(FAILED),
            }
        }
        None => {
            let refused = refuse(alloc, &texts.bytes, err);
            if let Err(Ending::Refused) = refused {
                // The status is answered even where its text cannot be written.
                let _ = no_change_text(sought.steps, sought.checks, err);
            }
            refused
        }
    }
}
