//! Why a source was not read.

ghost use Rattle.std.specs.Prelude.{◌≡◌};
ghost use Rattle.c_expressions.specs.declared.fault.ReadError.TheVariants.{Memory};

use base::fault::TextFault;
use std::alloc::{AllocError, AllocFailed};

#[derive(Clone, Copy, Debug)]
pub enum ReadError {
    Memory,
    Fault(TextFault),
}

impl From<AllocError> for ReadError {
    ghost from_gives = { λ _ e. e ≡ Memory };

    fn from(_e: AllocError) -> ReadError {
        ReadError::Memory
    }
}

impl<T: Drop> From<AllocFailed<T>> for ReadError {
    ghost from_gives = { λ _ e. e ≡ Memory };

    fn from(_e: AllocFailed<T>) -> ReadError {
        ReadError::Memory
    }
}
