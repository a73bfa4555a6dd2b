// The present table without values: the blocks, in the order of their creation, and their counts.

ghost use Rattle.std.specs.Prelude.{◌≡◌};
ghost use Rattle.base.specs.Map.{entry_copies, exit_copies, exit_count};
ghost use Rattle.base.specs.Memory.{end_of, is_inside};

use base::item::{MapItem, MapKind, Section};

/// A section with storage, and how often it was entered and not yet left.
#[derive(Clone, Copy)]
pub struct Block {
    pub section: Section,
    pub count: u128,
}

/// Where a section lies.
#[derive(Clone, Copy)]
pub enum Place {
    Absent,
    Inside(Block),
    InPart,
}

/// The cell after a section's last.
pub fn end(section: &Section) -> u128
    ensures { result ≡ end_of section.now }
{
    u128::from(section.first) + u128::from(section.length)
}

/// Whether a section lies inside another.
pub fn is_within(inner: &Section, outer: &Section) -> bool
    ensures { result ≡ is_inside inner.now outer.now }
{
    inner.array == outer.array && outer.first <= inner.first && end(inner) <= end(outer)
}

/// Whether an entry copies, where the count is now `count`.
pub fn copies_in(item: &MapItem, count: u128) -> bool
    ensures { result ≡ entry_copies item.now count }
{
    (count == 1 || item.always) && copies_to(item.kind)
}

/// Whether an exit copies, where the count is now `count`.
pub fn copies_out(item: &MapItem, count: u128) -> bool
    ensures { result ≡ exit_copies item.now count }
{
    (count == 0 || item.always) && copies_from(item.kind)
}

/// Whether a value is copied to the device.
pub fn copies_to(kind: MapKind) -> bool
    ensures { result ≡ Rattle.base.specs.Map.copies_to kind }
{
    match kind {
        MapKind::To | MapKind::ToFrom => true,
        MapKind::From | MapKind::Alloc | MapKind::Release | MapKind::Delete => false,
    }
}

/// Whether a value is copied to the host.
pub fn copies_from(kind: MapKind) -> bool
    ensures { result ≡ Rattle.base.specs.Map.copies_from kind }
{
    match kind {
        MapKind::From | MapKind::ToFrom => true,
        MapKind::To | MapKind::Alloc | MapKind::Release | MapKind::Delete => false,
    }
}

/// The count after an exit.
pub fn left(kind: MapKind, count: u128) -> u128
    ensures { result ≡ exit_count kind count }
{
    match kind {
        MapKind::Delete => 0,
        MapKind::To | MapKind::From | MapKind::ToFrom | MapKind::Alloc | MapKind::Release => {
            count.saturating_sub(1)
        }
    }
}
