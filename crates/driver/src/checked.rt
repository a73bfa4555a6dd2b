//! Whether a program is accepted, and its items: `check` and `list`.

ghost use Rattle.std.specs.Prelude.{◌≡◌, ◌≢◌, ◌⊎◌, IfErr, IfOk, None, OnErr, true};
ghost use Rattle.pipeline.specs.Checking.{IsChecked, IsRefused};
ghost use Rattle.pipeline.specs.Listing.{IsListed};
ghost use Rattle.driver.specs.Statuses.{ending_of, status_of};
ghost use Rattle.driver.specs.Printed.{OfSource};
ghost use Rattle.driver.specs.Refused.{IsRefusalBy, IsRefusedOf};

use crate::ending::{DONE, Ending, FAILED, ending_of};
use crate::sources::{Sources, bytes_of};
use pipeline::{check_source, list_source};
use std::alloc::Global;
use std::io::Write;

/// Says whether a program is accepted.
pub(crate) fn do_check<'a, S: Sources, W: Write, E: Write>(
    alloc: Global,
    name: &'a str,
    sources: &mut S,
    out: &mut W,
    err: &mut E,
) -> Result<u8, Ending<'a>>
    ensures status { IfOk result (λ s. (s ≡ 0) ⊎ (s ≡ 3)) }
    ensures quiet { OnErr result (W.contents out.new ≡ W.contents out.old) }
    ensures refused { IfErr result (IsRefusalBy (IsRefusedOf true (S.known sources.old name.now))) }
    ensures misused { IfErr result (λ e. status_of e ≡ 2 → S.known sources.old name.now ≡ None) }
    ensures done { IfOk result (λ s. s ≡ 0 → OfSource (S.known sources.old name.now) (λ bytes. IsChecked bytes (W.contents out.old) (W.contents out.new))) }
{
    let bytes = bytes_of(alloc, sources, name)?;
    match check_source(alloc, &bytes, out, err) {
        Ok(Ok(())) => Ok(DONE),
        Ok(Err(_)) => Ok(FAILED),
        Err(fault) => Err(ending_of(fault)),
    }
}

/// Prints the items of an accepted program.
pub(crate) fn do_list<'a, S: Sources, W: Write, E: Write>(
    alloc: Global,
    name: &'a str,
    sources: &mut S,
    out: &mut W,
    err: &mut E,
) -> Result<u8, Ending<'a>>
    ensures status { IfOk result (λ s. (s ≡ 0) ⊎ (s ≡ 3)) }
    ensures quiet { OnErr result (W.contents out.new ≡ W.contents out.old) }
    ensures refused { IfErr result (IsRefusalBy (IsRefusedOf true (S.known sources.old name.now))) }
    ensures misused { IfErr result (λ e. status_of e ≡ 2 → S.known sources.old name.now ≡ None) }
    ensures done { IfOk result (λ s. s ≡ 0 → OfSource (S.known sources.old name.now) (λ bytes. IsListed bytes (W.contents out.old) (W.contents out.new))) }
{
    let bytes = bytes_of(alloc, sources, name)?;
    match list_source(alloc, &bytes, out, err) {
        Ok(Ok(())) => Ok(DONE),
        Ok(Err(_)) => Ok(FAILED),
        Err(fault) => Err(ending_of(fault)),
    }
}

/// Refuses a source as the check refuses it. Where the check accepts it, memory ran out before.
pub(crate) fn refuse<'a, E: Write>(
    alloc: Global,
    bytes: &[u8],
    err: &mut E,
) -> Result<u8, Ending<'a>>
    ensures none { IfOk result (λ s. ⊥) }
    ensures refused { IfErr result (IsRefusalBy (IsRefused bytes.now)) }
    ensures used { IfErr result (λ e. status_of e ≢ 2) }
{
    let mut told = Vec::new(alloc);
    match check_source(alloc, bytes, &mut told, err) {
        Ok(_) => Err(Ending::OutOfMemory),
        Err(fault) => Err(ending_of(fault)),
    }
}
