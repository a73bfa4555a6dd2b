// A block of device storage.

ghost use Rattle.std.specs.Prelude.{◌≡◌, ◌<◌, Some, length, slice_get, slice_set};
ghost use Rattle.base.specs.Map.{entry_copies, exit_copies, exit_count};
ghost use Rattle.shared_row.specs.Rows.{numbers_of};

use base::item::{MapItem, MapKind, Section};
use shared_row::SharedRow;
use std::alloc::Global;

// A section with the numbers of its cells.
#[derive(Drop)]
pub struct Block {
    pub section: Section,
    pub count: u64,
    pub values: SharedRow,
}

/// Whether an entry copies, where the count is now `count`.
pub fn copies_in(item: &MapItem, count: u64) -> bool
    ensures { result ≡ entry_copies item.now count }
{
    let to_device = match item.kind {
        MapKind::To | MapKind::ToFrom => true,
        MapKind::From | MapKind::Alloc | MapKind::Release | MapKind::Delete => false,
    };
    (count == 1 || item.always) && to_device
}

/// Whether an exit copies, where the count is now `count`.
pub fn copies_out(item: &MapItem, count: u64) -> bool
    ensures { result ≡ exit_copies item.now count }
{
    let from_device = match item.kind {
        MapKind::From | MapKind::ToFrom => true,
        MapKind::To | MapKind::Alloc | MapKind::Release | MapKind::Delete => false,
    };
    (count == 0 || item.always) && from_device
}

/// The count after an exit.
pub fn left(kind: MapKind, count: u64) -> u64
    ensures { result ≡ exit_count kind count }
{
    match kind {
        MapKind::Delete => 0,
        MapKind::To | MapKind::From | MapKind::ToFrom | MapKind::Alloc | MapKind::Release => {
            count.saturating_sub(1)
        }
    }
}

/// The number at this place.
pub fn number(values: &SharedRow, at: u64) -> u64
    requires { at < length (numbers_of values.now) }
    ensures { slice_get (numbers_of values.now) at ≡ Some result }
{
    let numbers = values.numbers();
    numbers[at as usize]
}

/// Gives the cell at this place another number.
pub fn set_number(alloc: Global, values: &mut SharedRow, at: u64, number: u64)
    requires { at < length (numbers_of values.old) }
    ensures { numbers_of values.new ≡ slice_set (numbers_of values.old) at number }
{
    values.own(alloc);
    match values {
        SharedRow::Sole(values) => values[at as usize] = number,
        SharedRow::Shared(_) => unreachable!(),
    }
}
