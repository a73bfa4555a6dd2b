//! Why a program is refused.

ghost use Rattle.std.specs.Prelude.{◌≡◌, ◌⊎◌, IfErr, IfOk, None, true};
ghost use Rattle.explain.specs.Explained.{SpellsAccepted};
ghost use Rattle.driver.specs.Printed.{OfSource};
ghost use Rattle.driver.specs.Refused.{IsRefusalBy, IsRefusedOf};
ghost use Rattle.driver.specs.Statuses.{status_of};

use crate::ending::{DONE, Ending, FAILED, told_of};
use crate::sources::{Sources, texts_of};
use command::{Color, Explain, Format};
use explain::{Form, explain_source};
use std::alloc::Global;
use std::io::Write;

fn form_of(format: Format, colours: bool) -> Form {
    match format {
        Format::Text if colours => Form::Coloured,
        Format::Text => Form::Text,
        Format::Json => Form::Json,
        Format::Sarif => Form::Sarif,
        Format::Dot => Form::Dot,
    }
}

// Whether text has colours, where a terminal that takes them has these by itself or not.
fn has_colours(color: Color, terminal: bool) -> bool {
    match color {
        Color::Auto => terminal,
        Color::Always => true,
        Color::Never => false,
    }
}

/// Tells why a program is refused, or that it is accepted; `terminal` says whether a terminal that takes colours shows it.
pub(crate) fn do_explain<'a, S: Sources, W: Write>(
    alloc: Global,
    terminal: bool,
    asked: Explain<'a>,
    sources: &mut S,
    out: &mut W,
) -> Result<u8, Ending<'a>>
    ensures status { IfOk result (λ s. (s ≡ 0) ⊎ (s ≡ 3)) }
    ensures quiet_misuse { IfErr result (λ e. status_of e ≡ 2 → W.contents out.new ≡ W.contents out.old) }
    ensures refused { IfErr result (IsRefusalBy (IsRefusedOf true (S.known sources.old asked.entry.file.now))) }
    ensures misused { IfErr result (λ e. status_of e ≡ 2 → (S.known sources.old asked.entry.file.now ≡ None) ⊎ ((asked.entry.format ≡ None) ⊎ (asked.entry.color ≡ None))) }
    ensures done { IfOk result (λ s. s ≡ 0 → OfSource (S.known sources.old asked.entry.file.now) SpellsAccepted) }
{
    let Some(format) = asked.format else {
        return Err(Ending::BadFormat);
    };
    let Some(color) = asked.color else {
        return Err(Ending::BadColor);
    };
    let form = form_of(format, has_colours(color, terminal));
    let texts = texts_of(alloc, sources, asked.file)?;
    match explain_source(alloc, asked.file, &texts.source, &texts.bytes, form, out) {
        Ok(Ok(())) => Ok(DONE),
        Ok(Err(_)) => Ok(FAILED),
        Err(fault) => Err(told_of(fault)),
    }
}
