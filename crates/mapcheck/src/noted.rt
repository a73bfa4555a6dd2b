// The items that were looked at, by the places that they read or write.

ghost use Rattle.std.specs.Prelude.{◌≡◌, ◌&&◌, ◌==◌, ℕ, true, None, IfOk, nat_eq};
ghost use Rattle.std.specs.HashMap.{get};
ghost use Rattle.base.specs.Items.{plan};
ghost use Rattle.base.specs.Memory.{is_in};
ghost use Rattle.bits.specs.Sets.{has as has_number};
ghost use Rattle.mapcheck.specs.Accesses.{has_cell};
ghost use Rattle.mapcheck.specs.Noted.{AreSeen, IsAccessed, IsSeen, IsTouched, is_accessed, is_run, place_of, row_of};
ghost use Rattle.mapcheck.specs.Segments.{is_from};
ghost use Rattle.ranges.specs.Cells.{has as has_member};

use crate::accesses::{Access, Accesses, Cells};
use crate::rows::Row;
use base::item::{Cell, Loc, Section};
use base::tree::ArrayId;
use bits::BitSet;
use order::Order;
use ranges::CellSet;
use std::alloc::{AllocError, Global};
use std::collections::HashMap;

/// For each array and each location a row, once an item has read or written a cell of the array there: of each cell
/// the items that read it, and those that write it, as far as a later item can conflict with them. What nothing
/// touches takes no memory.
#[derive(Drop)]
pub struct Noted {
    alloc: Global,
    rows: HashMap<u32, Row>,
}

/// That an item reads, or writes, at a location.
#[derive(Clone, Copy)]
pub struct Touch {
    pub item: u32,
    pub loc: Loc,
    pub writes: bool,
}

// Places of a row from the first up to the end.
#[derive(Clone, Copy)]
struct Places {
    row: u32,
    first: u64,
    end: u64,
}

// A number for each location.
fn number_of(loc: Loc) -> u32
    ensures { result ≡ Rattle.mapcheck.specs.Noted.number_of loc }
{
    match loc {
        Loc::Host => 0,
        Loc::Dev(device) => 2 * u32::from(device.min(6)) + 1,
        Loc::Tab(device) => 2 * u32::from(device.min(6)) + 2,
    }
}

// Where the cells of an array from the first up to the end have their places at a location.
fn places_of(loc: Loc, array: ArrayId, first: u64, end: u128) -> Places
    ensures row { (c : Cell) → is_run array first end c ≡ true → row_of loc c.array ≡ result.row }
    ensures places { (c : Cell) → is_run array first end c ≡ true → is_from result.first result.end (place_of c) ≡ true }
{
    Places {
        row: number_of(loc) * 65536 + array.0.min(65535),
        first: first.min(65535),
        end: end.min(65536) as u64,
    }
}

impl Noted {
    /// Nothing.
    pub fn new(alloc: Global) -> Noted
        ensures { (r : ℕ) → get nat_eq result.rows r ≡ None }
    {
        Noted {
            alloc,
            rows: HashMap::new(alloc),
        }
    }

    // Notes an item that reads, or writes, these places. The answer is true only if it is clear there.
    fn note_places(
        &mut self,
        order: &Order<'_>,
        item: u32,
        writes: bool,
        places: Places,
    ) -> Result<bool, AllocError>
        ensures { IfOk result (AreSeen (plan order.now) self.old self.new item writes places.row (is_from places.first places.end)) }
    {
        let alloc = self.alloc;
        match self.rows.get_mut(&places.row) {
            Some(row) => row.note(alloc, order, item, writes, places.first, places.end),
            None => {
                let mut row = Row::new();
                let clear = row.note(alloc, order, item, writes, places.first, places.end)?;
                self.rows.insert(places.row, row)?;
                Ok(clear)
            }
        }
    }

    // The same with cells of an array from the first up to the end.
    fn note_run(
        &mut self,
        order: &Order<'_>,
        touch: Touch,
        array: ArrayId,
        first: u64,
        end: u128,
    ) -> Result<bool, AllocError>
        ensures { IfOk result (IsSeen (plan order.now) self.old self.new touch.item (IsTouched touch (is_run array first end))) }
    {
        let places = places_of(touch.loc, array, first, end);
        self.note_places(order, touch.item, touch.writes, places)
    }

    // With the cells of a section.
    fn note_section(
        &mut self,
        order: &Order<'_>,
        touch: Touch,
        section: &Section,
    ) -> Result<bool, AllocError>
        ensures { IfOk result (IsSeen (plan order.now) self.old self.new touch.item (IsTouched touch (λ c. is_in c section.now))) }
    {
        let end = u128::from(section.first) + u128::from(section.length);
        self.note_run(order, touch, section.array, section.first, end)
    }

    // With the cells of an array, given by their indices, and those between them.
    fn note_row(
        &mut self,
        order: &Order<'_>,
        touch: Touch,
        array: ArrayId,
        row: &BitSet,
    ) -> Result<bool, AllocError>
        ensures { IfOk result (IsSeen (plan order.now) self.old self.new touch.item (IsTouched touch (λ c. (c.array.0 == array.0) && has_number row.now c.index))) }
    {
        match row.first_from(0) {
            None => Ok(true),
            Some(first) => self.note_run(order, touch, array, first as u64, row.end() as u128),
        }
    }

    // With the cells of a set.
    fn note_set(
        &mut self,
        order: &Order<'_>,
        touch: Touch,
        set: &CellSet,
    ) -> Result<bool, AllocError>
        ensures { IfOk result (IsSeen (plan order.now) self.old self.new touch.item (IsTouched touch (has_member set.now))) }
    {
        let mut clear = true;
        'arrays: for a in 0..set.arrays() {
            let array = ArrayId(a as u32);
            let next = self.note_row(order, touch, array, set.row(array))?;
            clear &= next;
        }
        Ok(clear)
    }

    // With the cells of an access.
    fn note_access(
        &mut self,
        order: &Order<'_>,
        item: u32,
        access: &Access<'_>,
    ) -> Result<bool, AllocError>
        ensures { IfOk result (IsSeen (plan order.now) self.old self.new item (λ writes loc c. is_accessed access.now writes loc c ≡ true)) }
    {
        let touch = Touch {
            item,
            loc: access.loc,
            writes: access.writes,
        };
        match access.cells {
            Cells::Section(section) => self.note_section(order, touch, &section),
            Cells::Set(set) => self.note_set(order, touch, set),
        }
    }

    /// Notes an item with all its accesses. The answer is true only if it comes after all others that were noted, or
    /// were before noted ones, and that it conflicts with.
    pub fn note(
        &mut self,
        order: &Order<'_>,
        item: u32,
        accesses: &Accesses<'_>,
    ) -> Result<bool, AllocError>
        ensures { IfOk result (IsSeen (plan order.now) self.old self.new item (IsAccessed accesses.now.list.items)) }
    {
        let mut clear = true;
        'accesses: for access in &accesses.list {
            let next = self.note_access(order, item, access)?;
            clear &= next;
        }
        Ok(clear)
    }
}
