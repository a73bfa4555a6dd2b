// Rows of numbers, read from the blocks and stored in them.

ghost use Rattle.std.specs.Prelude.{◌≡◌, ℕ, ◌+◌, ◌≤◌, true, false, IfErr, IfOk, IfSome, [], length, min, replicate, vec_capacity};
ghost use Rattle.base.specs.Map.{Device};
ghost use Rattle.base.specs.Memory.{is_inside};
ghost use Rattle.present.specs.Blocks.{are_stored, is_stored};
ghost use Rattle.base.specs.Rows.{at_index};
ghost use Rattle.present.specs.Rows.{AgreeBeside, AgreeUnmarked, AreRead, AreStoredIn, HasSameNumbers, IsLoaded, IsStoredIn, Takes, marked_at, marked_in, numbers_at, numbers_of_part, view_in, with_numbers};
ghost use Rattle.present.specs.Table.{IsKept, IsUnchanged, Shows, number_at};
ghost use Rattle.shared_row.specs.Rows.{lent_numbers, marks_of, numbers_in, numbers_of};

use crate::Table;
use crate::block::Block;
use crate::find::{Found, MOST_CELLS, find};
use base::item::Section;
use base::memory::overwrite;
use base::tree::ArrayId;
use host_memory::part;
use shared_row::{LentRow, Marks, RowCells, SharedRow};
use std::alloc::Global;
use std::sync::Arc;

// The numbers from the index `first` on take those values, from the index `start` on, that have the same index.
fn load_values(values: &[u64], start: u64, first: u64, numbers: &mut [u64])
    requires { min (start + length values.now) (first + length numbers.old) ≤ 65536 }
    ensures { Takes (at_index start values.now) first numbers.old numbers.new }
{
    let begin = start.max(first);
    let end = start
        .saturating_add(values.len() as u64)
        .min(first.saturating_add(numbers.len() as u64));
    if begin < end {
        let part = &values[(begin - start) as usize..(end - start) as usize];
        overwrite(numbers, begin - first, part);
    }
}

// Whether numbers are the same where they are not marked. It looks at all of them: with no jump several are looked at
// at once.
fn agree_unmarked(old: &[u64], new: &[u64], marks: &[bool]) -> bool
    requires old { length old.now ≡ length new.now }
    requires marks { length marks.now ≡ length new.now }
    ensures { result ≡ true → AgreeUnmarked old.now new.now marks.now }
{
    let mut all = true;
    'places: for k in 0..new.len() {
        all = all & (marks[k] | (old[k] == new[k]));
    }
    all
}

// Whether they are the same before a place, and from another on.
fn agree_beside(old: &[u64], new: &[u64], from: usize, end: usize) -> bool
    requires old { length old.now ≡ length new.now }
    requires order { from ≤ end }
    requires bound { end ≤ length new.now }
    ensures { result ≡ true → AgreeBeside old.now new.now from end }
{
    old[..from] == new[..from] && old[end..] == new[end..]
}

fn agree(old: &[u64], new: &[u64], marks: &Marks) -> bool
    requires old { length old.now ≡ length new.now }
    requires marks { length (marks_of (length new.now) marks.now) ≡ length new.now }
    ensures { result ≡ true → AgreeUnmarked old.now new.now (marks_of (length new.now) marks.now) }
{
    match marks {
        Marks::Run(from, end) => agree_beside(old, new, *from, *end),
        Marks::Each(marks) => agree_unmarked(old, new, marks),
    }
}

// The values from the index `start` on take those marked numbers, from the index `first` on, that have the same index.
fn store_marked(values: &mut [u64], start: u64, first: u64, numbers: &[u64], marks: &[bool])
    requires marks { length marks.now ≡ length numbers.now }
    requires bound { start + length values.old ≤ 65536 }
    ensures { Takes (marked_at first numbers.now marks.now) start values.old values.new }
{
    let begin = start.max(first);
    let end = (start + values.len() as u64).min(first.saturating_add(numbers.len() as u64));
    'indices: for index in begin..end {
        let k = (index - first) as usize;
        let at = (index - start) as usize;
        // stored in any case: with no branch several are done at once
        values[at] = if marks[k] { numbers[k] } else { values[at] };
    }
}

// The same for the marks of a run, whose numbers are copied together.
fn store_values(values: &mut [u64], start: u64, first: u64, numbers: &[u64], marks: &Marks)
    requires marks { length (marks_of (length numbers.now) marks.now) ≡ length numbers.now }
    requires bound { start + length values.old ≤ 65536 }
    ensures { Takes (marked_at first numbers.now (marks_of (length numbers.now) marks.now)) start values.old values.new }
{
    match marks {
        Marks::Run(from, end) => {
            load_values(
                &numbers[*from..*end],
                first.saturating_add(*from as u64),
                start,
                values,
            )
        }
        Marks::Each(marks) => store_marked(values, start, first, numbers, marks),
    }
}

fn load_block(block: &Block, array: ArrayId, first: u64, numbers: &mut [u64])
    requires { is_stored block.now ≡ true }
    ensures { IsLoaded (view_in block.now) array first numbers.old numbers.new }
{
    if block.section.array.0 == array.0 {
        load_values(block.values.numbers(), block.section.first, first, numbers);
    }
}

// Where the row is one that other owners may have, and is as long as the values, and they are the same where nothing was
// stored, the values become the row. Whether they did.
fn adopts(alloc: Global, values: &mut SharedRow, cells: &RowCells, marks: &Marks) -> bool
    requires marks { length (marks_of (length (numbers_in cells.now)) marks.now) ≡ length (numbers_in cells.now) }
    ensures adopted { result ≡ true → (first : ℕ) → Takes (marked_at first (numbers_in cells.now)
        (marks_of (length (numbers_in cells.now)) marks.now)) first (numbers_of values.old) (numbers_of values.new) }
    ensures unchanged { result ≡ false → numbers_of values.new ≡ numbers_of values.old }
{
    match cells {
        RowCells::Own(_) => false,
        RowCells::Lent(lent) => adopts_lent(alloc, values, lent, marks),
    }
}

fn adopts_lent(alloc: Global, values: &mut SharedRow, lent: &LentRow, marks: &Marks) -> bool
    requires marks { length (marks_of (length (lent_numbers lent.now)) marks.now) ≡ length (lent_numbers lent.now) }
    ensures adopted { result ≡ true → (first : ℕ) → Takes (marked_at first (lent_numbers lent.now)
        (marks_of (length (lent_numbers lent.now)) marks.now)) first (numbers_of values.old) (numbers_of values.new) }
    ensures unchanged { result ≡ false → numbers_of values.new ≡ numbers_of values.old }
{
    if lent.first != 0 || lent.count != lent.row.len() || values.numbers().len() != lent.count {
        return false;
    }
    if !agree(values.numbers(), lent.numbers(), marks) {
        return false;
    }
    values.adopt(alloc, &lent.row)
}

// The same as `store_values`, for values that others may have.
fn store_own(
    alloc: Global,
    values: &mut SharedRow,
    start: u64,
    first: u64,
    numbers: &[u64],
    marks: &Marks,
)
    requires marks { length (marks_of (length numbers.now) marks.now) ≡ length numbers.now }
    requires bound { start + length (numbers_of values.old) ≤ 65536 }
    ensures { Takes (marked_at first numbers.now (marks_of (length numbers.now) marks.now)) start
        (numbers_of values.old) (numbers_of values.new) }
{
    values.own(alloc);
    match values {
        SharedRow::Sole(values) => store_values(values, start, first, numbers, marks),
        SharedRow::Shared(_) => unreachable!(),
    }
}

// The same for the numbers of a row, which the values may become.
fn store_cells(
    alloc: Global,
    values: &mut SharedRow,
    start: u64,
    first: u64,
    cells: &RowCells,
    marks: &Marks,
)
    requires marks { length (marks_of (length (numbers_in cells.now)) marks.now) ≡ length (numbers_in cells.now) }
    requires bound { start + length (numbers_of values.old) ≤ 65536 }
    ensures { Takes (marked_at first (numbers_in cells.now) (marks_of (length (numbers_in cells.now)) marks.now)) start
        (numbers_of values.old) (numbers_of values.new) }
{
    if cells.numbers().is_empty() {
        return;
    }
    if start == first && adopts(alloc, values, cells, marks) {
        return;
    }
    store_own(alloc, values, start, first, cells.numbers(), marks);
}

fn store_block(
    alloc: Global,
    block: &mut Block,
    array: ArrayId,
    first: u64,
    cells: &RowCells,
    marks: &Marks,
)
    requires stored { is_stored block.old ≡ true }
    requires marks { length (marks_of (length (numbers_in cells.now)) marks.now) ≡ length (numbers_in cells.now) }
    ensures { IsStoredIn (marked_in array first (numbers_in cells.now)
        (marks_of (length (numbers_in cells.now)) marks.now)) block.old block.new }
{
    if block.section.array.0 == array.0 {
        let start = block.section.first;
        store_cells(alloc, &mut block.values, start, first, cells, marks);
    }
}

fn load_blocks(blocks: &[Block], array: ArrayId, first: u64, numbers: &mut [u64])
    requires { are_stored blocks.now ≡ true }
    ensures { IsLoaded (numbers_at blocks.now) array first numbers.old numbers.new }
{
    'each: for block in blocks {
        load_block(block, array, first, numbers);
    }
}

// The numbers of a section that lies in one block.
fn whole<'b>(blocks: &'b [Block], section: &Section) -> Option<&'b [u64]>
    requires stored { are_stored blocks.now ≡ true }
    requires some { 1 ≤ section.now.length }
    ensures read { IfSome result (λ numbers. AreRead (numbers_at blocks.now) section.now numbers.now) }
    ensures count { IfSome result (λ numbers. length numbers.now ≡ section.now.length) }
{
    if section.first >= MOST_CELLS || section.length > MOST_CELLS - section.first {
        return None;
    }
    match find(blocks, section) {
        Found::Inside(at) => {
            let block = &blocks[at];
            let offset = section.first - block.section.first;
            Some(part(block.values.numbers(), offset, section.length))
        }
        Found::Absent(_) | Found::InPart => None,
    }
}

// One more owner of a block's numbers, for which there is to be room for as many.
fn shared(alloc: Global, values: &mut SharedRow, room: Vec<u64>) -> Result<Arc<Vec<u64>>, Vec<u64>>
    requires { room.items ≡ [] }
    ensures same { numbers_of values.new ≡ numbers_of values.old }
    ensures shared { IfOk result (λ row. row.value.items ≡ numbers_of values.old) }
    ensures refused { IfErr result (λ back. back ≡ room) }
{
    let count = values.numbers().len();
    if room.capacity() >= count {
        return values.share(alloc, room);
    }
    match Vec::with_capacity(alloc, count) {
        Err(_) => Err(room),
        Ok(more) => match values.share(alloc, more) {
            Err(_) => Err(room),
            Ok(row) => Ok(row),
        },
    }
}

// Lends the numbers of a section that lies in this block, if they are at least the half of it.
fn lend(
    alloc: Global,
    block: &mut Block,
    section: &Section,
    room: Vec<u64>,
) -> Result<LentRow, Vec<u64>>
    requires empty { room.items ≡ [] }
    requires stored { is_stored block.old ≡ true }
    requires inside { is_inside section.now block.old.section ≡ true }
    ensures same { HasSameNumbers block.old block.new }
    ensures lent { IfOk result (λ row. lent_numbers row ≡ numbers_of_part block.old section.now) }
    ensures refused { IfErr result (λ back. back ≡ room) }
{
    if section.length < block.section.length / 2 {
        return Err(room);
    }
    match shared(alloc, &mut block.values, room) {
        Err(back) => Err(back),
        Ok(row) => Ok(LentRow {
            row,
            first: (section.first - block.section.first) as usize,
            count: section.length as usize,
        }),
    }
}

fn store_blocks(
    alloc: Global,
    blocks: &mut [Block],
    array: ArrayId,
    first: u64,
    cells: &RowCells,
    marks: &Marks,
)
    requires stored { are_stored blocks.old ≡ true }
    requires marks { length (marks_of (length (numbers_in cells.now)) marks.now) ≡ length (numbers_in cells.now) }
    ensures { AreStoredIn (marked_in array first (numbers_in cells.now)
        (marks_of (length (numbers_in cells.now)) marks.now)) blocks.old blocks.new }
{
    'each: for block in blocks.iter_mut() {
        store_block(alloc, block, array, first, cells, marks);
    }
}

impl Table {
    /// Reads the numbers of a section, 0 for a cell without storage, where there is room for them. It takes no memory,
    /// and for a section that does not lie in one block time for each block.
    pub fn read_row(&self, section: &Section, numbers: &mut Vec<u64>)
        requires empty { numbers.old.items ≡ [] }
        requires room { section.now.length ≤ vec_capacity numbers.old }
        ensures read { AreRead (number_at self.now) section.now numbers.new.items }
        ensures count { length numbers.new.items ≡ section.now.length }
    {
        if section.length == 0 {
            return;
        }
        if let Some(values) = whole(&self.blocks, section) {
            if numbers.extend_from_slice(values).is_err() {
                unreachable!()
            }
            return;
        }
        if numbers.resize(section.length as usize, 0).is_err() {
            unreachable!()
        }
        load_blocks(&self.blocks, section.array, section.first, numbers);
    }

    /// Lends the numbers of a section that lies in one block and has at least the half of it. The room, for a block that
    /// is lent for the first time, comes back where there is no such block, or no memory.
    pub fn lend_row(&mut self, section: &Section, room: Vec<u64>) -> Result<LentRow, Vec<u64>>
        requires empty { room.items ≡ [] }
        ensures lent { IfOk result (λ row. AreRead (number_at self.old) section.now (lent_numbers row)) }
        ensures count { IfOk result (λ row. length (lent_numbers row) ≡ section.now.length) }
        ensures refused { IfErr result (λ back. back ≡ room) }
        ensures unchanged { IsUnchanged self.old self.new }
    {
        if section.length == 0
            || section.first >= MOST_CELLS
            || section.length > MOST_CELLS - section.first
        {
            return Err(room);
        }
        let Found::Inside(at) = find(&self.blocks, section) else {
            return Err(room);
        };
        let block = &mut self.blocks[at];
        lend(self.alloc, block, section, room)
    }

    /// Stores the marked ones of a row's numbers in the cells of an array from the index `first` on. A cell without storage
    /// is left out. It takes no memory.
    pub fn store_row(&mut self, array: ArrayId, first: u64, cells: &RowCells, marks: &Marks)
        requires { length (marks_of (length (numbers_in cells.now)) marks.now) ≡ length (numbers_in cells.now) }
        ensures stored { (d : Device) → Shows self.old d →
            Shows self.new (with_numbers (marked_in array first (numbers_in cells.now)
            (marks_of (length (numbers_in cells.now)) marks.now)) d) }
        ensures kept { IsKept self.old self.new }
    {
        store_blocks(self.alloc, &mut self.blocks, array, first, cells, marks);
    }
}
