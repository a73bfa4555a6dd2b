// A kernel whose turns may run in any order.

use crate::maps::Maps;
use base::tree::Stmt;

/// A kernel of which the turns of the outermost loops may run in any order: how many loops, its statements, the values
/// of the loops around, the number of the first turn that has not begun, and the exits that come after it.
#[derive(Clone, Copy)]
pub struct Unordered<'p> {
    pub depth: u8,
    pub body: &'p [Stmt],
    pub loops: &'p [u64],
    pub next: u64,
    pub exits: Maps<'p>,
}
