// An access to an array.

use base::tree::{ArrayId, Expr, Place};

/// A read or a write of a cell of an array, and the place of the array's name.
#[derive(Clone, Copy, Drop)]
pub struct Access<'r> {
    pub array: ArrayId,
    pub place: Place,
    pub subscript: &'r Expr,
    pub writes: bool,
}
