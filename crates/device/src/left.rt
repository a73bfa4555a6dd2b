// What a region leaves.

use kernel::KeptRow;

/// What a region left that was run for an item: the scalars, the rows with the marks of the cells that it stored, the
/// input that is left, and the numbers that it printed.
#[derive(Drop)]
pub struct Left<'d, 'a> {
    pub scalars: &'d [u64; 256],
    pub rows: &'d [KeptRow],
    pub input: &'a [u64],
    pub printed: &'d [u64],
}
