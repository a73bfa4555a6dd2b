// A change of a source by which its program is accepted.

ghost use Rattle.std.specs.Prelude.{IfOk};
ghost use Rattle.explain.specs.Explained.{IsRemedy};

use crate::weights::checks_for;
use base::fault::{CheckFault, RangeCode, RangeFault};
use mend::{MOST_CHECKS, seek_within};
use outline::Outlined;
use rendering::{Remedy, Tried};
use std::alloc::{AllocError, Global};

// Whether another directive can help.
fn may_be_mended(fault: &CheckFault) -> bool {
    match fault {
        CheckFault::Range {
            fault: RangeFault { code, .. },
            ..
        } => matches!(code, RangeCode::SectionOutside),
        CheckFault::Order(_) | CheckFault::Refused(_) => true,
        CheckFault::OutOfMemory => false,
    }
}

// Whether the lines of both can be shown as text.
fn are_texts(source: &[u8], text: &[u8]) -> bool {
    str::from_utf8(source).is_ok() && str::from_utf8(text).is_ok()
}

// What comes of the search, where at most so many texts are checked.
fn sought(alloc: Global, source: &[u8], checks: usize) -> Result<Remedy, AllocError>
    ensures { IfOk result (IsRemedy source.now) }
{
    let Ok(found) = seek_within(alloc, source, checks) else {
        return Err(AllocError);
    };
    match found.mended {
        Some(mended) => {
            if !are_texts(source, &mended.text) {
                return Ok(Remedy::Unsought);
            }
            Ok(Remedy::Found(mended))
        }
        None => {
            if checks < MOST_CHECKS {
                Ok(Remedy::Unsought)
            } else {
                Ok(Remedy::Missing(Tried {
                    steps: found.steps,
                    checks: found.checks,
                    latest: found.latest,
                }))
            }
        }
    }
}

/// A change by which the program of a source, whose first fault this is, is accepted. It takes no more than about a
/// second: of a source with more than 2,000 statements and directives none is looked for, and where its check is dear,
/// fewer texts are checked. The error comes where an allocation fails.
pub fn seek(
    alloc: Global,
    source: &[u8],
    outlined: &Outlined<'_>,
    fault: &CheckFault,
) -> Result<Remedy, AllocError>
    ensures { IfOk result (IsRemedy source.now) }
{
    if !may_be_mended(fault) {
        return Ok(Remedy::Untried);
    }
    let checks = checks_for(alloc, outlined)?;
    if checks < 2 {
        return Ok(Remedy::Unsought);
    }
    sought(alloc, source, checks)
}
