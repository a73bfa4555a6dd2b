// Why an item is refused by itself: the least cells.

ghost use Rattle.std.specs.Prelude.{◌≡◌, ◌<◌, ◌^◌, ◌&&◌, ◌||◌, false, nat_le, not, IfNone, IfSome, List, length};
ghost use Rattle.std.specs.List.{list_any};
ghost use Rattle.base.specs.Memory.{is_in};
ghost use Rattle.base.specs.Actions.{Met};
ghost use Rattle.base.specs.Accepted;
ghost use Rattle.ranges.specs.Cells.{has};
ghost use Rattle.bits.specs.Sets as bits;
ghost use Rattle.mapwalk.specs.Current.{AreInside, marks_in, row_lengths};
ghost use Rattle.bits.specs.Sets.{IsFirstAt};
ghost use Rattle.base.specs.Least.{IsLeast};
ghost use Rattle.mapwalk.specs.Causes.{AreBelow, AreMapped, IsFirstOf, cause_at, met_causes};
ghost use Rattle.mapwalk.specs.Seen.{nothing, seen_all};

use crate::blocks::end;
use crate::marks::Marks;
use crate::seen::Seen;
use base::fault::RefusalCode;
use base::item::{Cell, ItemKind, MapItem, Section};
use base::least::lesser;
use base::tree::ArrayId;
use bits::BitSet;
use ranges::{CellSet, Footprint};

/// Why an item is refused by itself, and at which cell.
#[derive(Clone, Copy)]
pub struct Cause {
    pub code: RefusalCode,
    pub cell: Cell,
}

/// The least cell of a set that is not marked.
pub fn least_stale(exposed: &CellSet, side: &[Marks]) -> Option<Cell>
    requires few { length side.now < 2 ^ 32 }
    requires inside { AreInside (row_lengths side.now) (has exposed.now) }
    ensures { IsLeast (λ c. has exposed.now c && not (marks_in side.now c)) result }
{
    'arrays: for a in 0..side.len() {
        let array = ArrayId(a as u32);
        if let Some(i) = exposed.row(array).first_not_in(&side[a].cells) {
            return Some(Cell {
                array,
                index: i as u64,
            });
        }
    }
    None
}

// Whether a section has a cell.
fn has_cell(section: &Section, cell: Cell) -> bool
    ensures { result ≡ is_in cell section.now }
{
    cell.array == section.array
        && section.first <= cell.index
        && u128::from(cell.index) < end(section)
}

// The end of the section of a map item that has a cell.
fn mapped_end(maps: &[MapItem], cell: Cell) -> Option<u128>
    ensures none { IfNone result (list_any (λ m. is_in cell m.section) maps.now ≡ false) }
    ensures some { IfSome result (AreMapped maps.now cell) }
{
    'maps: for item in maps {
        if has_cell(&item.section, cell) {
            return Some(end(&item.section));
        }
    }
    None
}

// The first cell of an array, from an index on, that is read or written.
fn first_touched(read: &BitSet, write: &BitSet, from: usize) -> Option<usize>
    ensures { IsFirstAt (λ i. nat_le from i && (bits.has read.now i || bits.has write.now i)) result }
{
    match (read.first_from(from), write.first_from(from)) {
        (Some(r), Some(w)) => Some(r.min(w)),
        (Some(r), None) => Some(r),
        (None, found) => found,
    }
}

// The first cell of an array that is read or written and that no map item has.
fn first_unmapped(read: &BitSet, write: &BitSet, maps: &[MapItem], array: ArrayId) -> Option<usize>
    ensures { IsFirstAt (λ i. (bits.has read.now i || bits.has write.now i) && not (list_any (λ m. is_in (record { array = array; index = i }) m.section) maps.now)) result }
{
    let end = read.end().max(write.end());
    let mut from = 0;
    'cells: while from < end {
        let Some(i) = first_touched(read, write, from) else {
            return None;
        };
        let index = i as u64;
        let Some(behind) = mapped_end(maps, Cell { array, index }) else {
            return Some(i);
        };
        from = behind.min(end as u128) as usize;
    }
    None
}

/// Of this many arrays, the least cell that is read or written and that no map item has.
pub fn least_unmapped(f: &Footprint, maps: &[MapItem], arrays: usize) -> Option<Cell>
    requires few { arrays < 2 ^ 32 }
    requires inside { AreBelow arrays (λ c. has f.now.read c || has f.now.write c) }
    ensures { IsLeast (λ c. (has f.now.read c || has f.now.write c) && not (list_any (λ m. is_in c m.section) maps.now)) result }
{
    'arrays: for a in 0..arrays {
        let array = ArrayId(a as u32);
        if let Some(i) = first_unmapped(f.read.row(array), f.write.row(array), maps, array) {
            return Some(Cell {
                array,
                index: i as u64,
            });
        }
    }
    None
}

fn is_exit(kind: ItemKind) -> bool
    ensures { result ≡ Accepted.is_exit kind }
{
    matches!(kind, ItemKind::End | ItemKind::Exit)
}

fn is_update(kind: ItemKind) -> bool
    ensures { result ≡ Accepted.is_update kind }
{
    matches!(kind, ItemKind::Update)
}

// The cause of this code, where there is a cell for it.
fn caused(code: RefusalCode, cell: Option<Cell>) -> Option<Cause>
    ensures { result ≡ cause_at code cell }
{
    match cell {
        None => None,
        Some(cell) => Some(Cause { code, cell }),
    }
}

/// Why an item is refused for what its map items meet.
pub fn met_cause(kind: ItemKind, seen: &Seen) -> Option<Cause>
    ensures { (mets : List Met) → seen.now ≡ seen_all mets nothing → IsFirstOf (met_causes kind mets) result }
{
    if let Some(cell) = seen.in_part {
        return Some(Cause {
            code: RefusalCode::OverlapsInPart,
            cell,
        });
    }
    if is_exit(kind) {
        return caused(RefusalCode::ExitOfAbsent, lesser(seen.absent, seen.missing));
    }
    match seen.absent {
        Some(cell) if is_update(kind) => Some(Cause {
            code: RefusalCode::UpdateOfAbsent,
            cell,
        }),
        _ => caused(RefusalCode::NotPresent, seen.missing),
    }
}
