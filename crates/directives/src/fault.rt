//! Why a line was not read.

ghost use Rattle.std.specs.Prelude.{◌≡◌};
ghost use Rattle.directives.specs.declared.fault.DirectiveFault.TheVariants.{OutOfMemory};

use base::fault::ReadCode;
use std::alloc::{AllocError, AllocFailed};
use thiserror::Error;

/// A rule that a line breaks, and the column of the token that breaks it.
#[derive(Clone, Copy, Debug, Error)]
#[error("{code} column {column}")]
pub struct LineFault {
    pub code: ReadCode,
    pub column: usize,
}

/// Why a line was not read.
#[derive(Clone, Copy, Debug, Error)]
pub enum DirectiveFault {
    #[error(transparent)]
    Line(LineFault),
    #[error("F1")]
    OutOfMemory,
}

impl From<AllocError> for DirectiveFault {
    ghost from_gives = { λ _ e. e ≡ OutOfMemory };

    fn from(_e: AllocError) -> DirectiveFault {
        DirectiveFault::OutOfMemory
    }
}

impl<T: Drop> From<AllocFailed<T>> for DirectiveFault {
    ghost from_gives = { λ _ e. e ≡ OutOfMemory };

    fn from(_e: AllocFailed<T>) -> DirectiveFault {
        DirectiveFault::OutOfMemory
    }
}
