// The least of some cells, by array and then by index.

ghost use Rattle.std.specs.Prelude.{◌≡◌, ◌&&◌, nat_lt};
ghost use Rattle.base.specs.Least.{IsLeast};
ghost use Rattle.base.specs.Memory.{end_of, is_in};

use crate::item::{Cell, Section};

/// The lesser of two cells, either of which may be missing.
pub fn lesser(left: Option<Cell>, right: Option<Cell>) -> Option<Cell>
    ensures { result ≡ Rattle.base.specs.Least.lesser left right }
{
    match (left, right) {
        (None, right) => right,
        (left, None) => left,
        (Some(left), Some(right)) => Some(left.min(right)),
    }
}

// Whether an index is before a section's end.
fn is_below_end(index: u64, section: &Section) -> bool
    ensures { result ≡ nat_lt index (end_of section.now) }
{
    u128::from(index) < u128::from(section.first) + u128::from(section.length)
}

/// The first cell that two sections share.
pub fn first_shared(left: &Section, right: &Section) -> Option<Cell>
    ensures { IsLeast (λ c. is_in c left.now && is_in c right.now) result }
{
    let index = left.first.max(right.first);
    if left.array == right.array && is_below_end(index, left) && is_below_end(index, right) {
        Some(Cell {
            array: left.array,
            index,
        })
    } else {
        None
    }
}
