//! The page of a program.

ghost use Rattle.std.specs.Prelude.{◌≡◌, ◌⊎◌, IfErr, IfOk, None, true};
ghost use Rattle.explain.specs.Explained.{SpellsAccepted};
ghost use Rattle.driver.specs.Printed.{OfSource};
ghost use Rattle.driver.specs.Refused.{IsRefusalBy, IsRefusedOf};
ghost use Rattle.driver.specs.Statuses.{status_of};

use crate::ending::{DONE, Ending, FAILED, told_of};
use crate::sources::{Sources, texts_of};
use std::alloc::Global;
use std::io::Write;
use view::view_source;

/// Writes the page of a program, whether it is refused or not.
pub(crate) fn do_view<'a, S: Sources, W: Write>(
    alloc: Global,
    name: &'a str,
    sources: &mut S,
    out: &mut W,
) -> Result<u8, Ending<'a>>
    ensures status { IfOk result (λ s. (s ≡ 0) ⊎ (s ≡ 3)) }
    ensures quiet_misuse { IfErr result (λ e. status_of e ≡ 2 → W.contents out.new ≡ W.contents out.old) }
    ensures refused { IfErr result (IsRefusalBy (IsRefusedOf true (S.known sources.old name.now))) }
    ensures misused { IfErr result (λ e. status_of e ≡ 2 → S.known sources.old name.now ≡ None) }
    ensures done { IfOk result (λ s. s ≡ 0 → OfSource (S.known sources.old name.now) SpellsAccepted) }
{
    let texts = texts_of(alloc, sources, name)?;
    match view_source(alloc, name, &texts.source, &texts.bytes, out) {
        Ok(Ok(())) => Ok(DONE),
        Ok(Err(_)) => Ok(FAILED),
        Err(fault) => Err(told_of(fault)),
    }
}
