// The least cell on which two items conflict.

ghost use Rattle.std.specs.Prelude.{◌≡◌, ◌&&◌};
ghost use Rattle.base.specs.Least.{IsLeast};
ghost use Rattle.base.specs.Memory.{is_in};
ghost use Rattle.mapcheck.specs.Accesses.{has_cell, same_loc};
ghost use Rattle.mapcheck.specs.Collisions.{IsLeastConflict, collide, collides};
ghost use Rattle.ranges.specs.Cells.{has};

use crate::accesses::{Access, Accesses, Cells};
use base::item::{Cell, Loc, Section};
use base::least::{first_shared, lesser};
use base::tree::ArrayId;
use ranges::CellSet;

// The least cell of a section that is in a set.
fn least_in_section(section: &Section, set: &CellSet) -> Option<Cell>
    ensures { IsLeast (λ c. is_in c section.now && has set.now c) result }
{
    let array = section.array;
    let index = set.row(array).first_from(section.first as usize)? as u64;
    if index - section.first < section.length {
        Some(Cell { array, index })
    } else {
        None
    }
}

// The least cell that is in two sets.
fn least_of_both(left: &CellSet, right: &CellSet) -> Option<Cell>
    ensures { IsLeast (λ c. has left.now c && has right.now c) result }
{
    'arrays: for a in 0..left.arrays().min(right.arrays()) {
        let array = ArrayId(a as u32);
        if let Some(i) = left.row(array).first_common(right.row(array)) {
            return Some(Cell {
                array,
                index: i as u64,
            });
        }
    }
    None
}

// The least cell that both have.
fn least_common(left: Cells<'_>, right: Cells<'_>) -> Option<Cell>
    ensures { IsLeast (λ c. has_cell left.entry c && has_cell right.entry c) result }
{
    match (left, right) {
        (Cells::Section(left), Cells::Section(right)) => first_shared(&left, &right),
        (Cells::Section(section), Cells::Set(set)) => least_in_section(&section, set),
        (Cells::Set(set), Cells::Section(section)) => least_in_section(&section, set),
        (Cells::Set(left), Cells::Set(right)) => least_of_both(left, right),
    }
}

// Whether two locations are one.
fn same_loc(left: Loc, right: Loc) -> bool
    ensures { result ≡ same_loc left right }
{
    match (left, right) {
        (Loc::Host, Loc::Host) => true,
        (Loc::Dev(one), Loc::Dev(other)) | (Loc::Tab(one), Loc::Tab(other)) => one == other,
        _ => false,
    }
}

// The least cell on which two accesses conflict.
fn least_of_two(left: &Access<'_>, right: &Access<'_>) -> Option<Cell>
    ensures { IsLeast (collide left.now right.now) result }
{
    if same_loc(left.loc, right.loc) && (left.writes || right.writes) {
        least_common(left.cells, right.cells)
    } else {
        None
    }
}

// The least cell on which an access conflicts with one of others.
fn least_with(access: &Access<'_>, others: &[Access<'_>]) -> Option<Cell>
    ensures { IsLeast (collides access.now others.now) result }
{
    let mut least = None;
    'others: for other in others {
        least = lesser(least, least_of_two(access, other));
    }
    least
}

/// The least cell, by array and then by index, on which two items with these accesses conflict. It takes no memory. It
/// takes time for each pair of accesses at one location of which one writes, and of a region's footprint a step for each
/// 64 cells of the array up to the last one that it touches.
pub fn least_conflict(left: &Accesses<'_>, right: &Accesses<'_>) -> Option<Cell>
    ensures { IsLeastConflict left.now right.now result }
{
    let mut least = None;
    'accesses: for access in &left.list {
        least = lesser(least, least_with(access, &right.list));
    }
    least
}
