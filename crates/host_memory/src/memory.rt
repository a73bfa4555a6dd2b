// The host memory.

ghost use Rattle.std.specs.Prelude.{◌≡◌, ◌+◌, ◌-◌, ◌≤◌, length, IfOk, IfSome, slice_index, slice_range};
ghost use Rattle.base.specs.Memory.{end_of, within, zeros};
ghost use Rattle.base.specs.Arrays.{overwritten};
ghost use Rattle.host_memory.specs.Arrays.{IsSameMemory, IsWithin, lengths_of, memory_of, row_of};
ghost use Rattle.shared_row.specs.Rows.{lent_numbers, numbers_of};

use base::item::Section;
use base::memory::overwrite;
use base::tree::ArrayId;
use shared_row::{LentRow, SharedRow};
use std::alloc::{AllocError, Global};

/// The host's numbers, a row for each array.
#[derive(Drop)]
pub struct Memory {
    alloc: Global,
    arrays: Vec<SharedRow>,
}

// Writes these numbers over those from the place `at` on.
fn set_numbers(alloc: Global, row: &mut SharedRow, at: u64, numbers: &[u64])
    requires { at + length numbers.now ≤ length (numbers_of row.old) }
    ensures { numbers_of row.new ≡ overwritten (numbers_of row.old) at numbers.now }
{
    row.own(alloc);
    match row {
        SharedRow::Sole(row) => overwrite(row, at, numbers),
        SharedRow::Shared(_) => unreachable!(),
    }
}

// The same for the numbers of a row that others have too. Where both are whole they are in memory once from then on, unless
// there is no memory for that.
fn set_lent(alloc: Global, row: &mut SharedRow, at: u64, lent: &LentRow)
    requires { at + length (lent_numbers lent.now) ≤ length (numbers_of row.old) }
    ensures { numbers_of row.new ≡ overwritten (numbers_of row.old) at (lent_numbers lent.now) }
{
    let count = lent.row.len();
    if lent.first == 0 && lent.count == count && row.numbers().len() == count {
        if row.adopt(alloc, &lent.row) {
            return;
        }
    }
    set_numbers(alloc, row, at, lent.numbers());
}

/// So many numbers from a place on.
pub fn part(numbers: &[u64], first: u64, count: u64) -> &[u64]
    requires { first + count ≤ length numbers.now }
    ensures { result.now ≡ slice_range numbers.now first (first + count) }
{
    &numbers[first as usize..(first + count) as usize]
}

impl Memory {
    /// Zeros, in arrays of these lengths.
    pub fn new(alloc: Global, lengths: &[u32]) -> Result<Memory, AllocError>
        ensures zeros { IfOk result (λ m. memory_of m ≡ zeros) }
        ensures lengths { IfOk result (λ m. lengths_of m ≡ lengths.now) }
    {
        let mut arrays = Vec::new(alloc);
        for length in lengths {
            let row = SharedRow::Sole(vec![in alloc; 0u64; *length as usize]?);
            arrays.push(row)?;
        }
        Ok(Memory { alloc, arrays })
    }

    /// The number of cells of an array, 0 where it is not one of the memory's.
    pub fn length(&self, array: ArrayId) -> u64
        ensures { result ≡ length (row_of self.now array.0) }
    {
        match self.arrays.get(array.0 as usize) {
            None => 0,
            Some(row) => row.numbers().len() as u64,
        }
    }

    /// The numbers of a section.
    pub fn section(&self, section: &Section) -> &[u64]
        requires { IsWithin self.now section.now }
        ensures { result.now ≡ slice_range (row_of self.now section.now.array.0) section.now.first (end_of section.now) }
    {
        let row = &self.arrays[section.array.0 as usize];
        part(row.numbers(), section.first, section.length)
    }

    /// Gives a section these numbers. It takes no memory.
    pub fn set_section(&mut self, section: &Section, numbers: &[u64])
        requires within { IsWithin self.old section.now }
        requires length { length numbers.now ≡ section.now.length }
        ensures set { memory_of self.new ≡ within section.now (λ c. slice_index numbers.now (c.index - section.now.first)) (memory_of self.old) }
        ensures lengths { lengths_of self.new ≡ lengths_of self.old }
    {
        let row = &mut self.arrays[section.array.0 as usize];
        set_numbers(self.alloc, row, section.first, numbers);
    }

    /// The same for numbers that are lent. Where both are whole, the row and the array, they are in memory once from then
    /// on, unless there is no memory for that.
    pub fn set_section_lent(&mut self, section: &Section, lent: &LentRow)
        requires within { IsWithin self.old section.now }
        requires length { length (lent_numbers lent.now) ≡ section.now.length }
        ensures set { memory_of self.new ≡ within section.now (λ c. slice_index (lent_numbers lent.now) (c.index - section.now.first)) (memory_of self.old) }
        ensures lengths { lengths_of self.new ≡ lengths_of self.old }
    {
        let row = &mut self.arrays[section.array.0 as usize];
        set_lent(self.alloc, row, section.first, lent);
    }

    /// The numbers of a section, lent where they are in memory once for the array and for others already and the section is
    /// the half of its array at least.
    pub fn lent(&self, section: &Section) -> Option<LentRow>
        requires { IsWithin self.now section.now }
        ensures { IfSome result (λ row. lent_numbers row ≡ slice_range (row_of self.now section.now.array.0) section.now.first (end_of section.now)) }
    {
        match &self.arrays[section.array.0 as usize] {
            SharedRow::Sole(_) => None,
            SharedRow::Shared(several) => {
                if section.length < several.row.len() as u64 / 2 {
                    return None;
                }
                let other: Result<_, _> = several.row.clone();
                match other {
                    Err(_) => None,
                    Ok(row) => Some(LentRow {
                        row,
                        first: section.first as usize,
                        count: section.length as usize,
                    }),
                }
            }
        }
    }

    /// The numbers of a row from the place `at` on become those of a section. Where both are whole, the row and the array,
    /// they are in memory once from then on, unless there is no memory for that.
    pub fn copy_section_to(&mut self, section: &Section, row: &mut SharedRow, at: u64)
        requires within { IsWithin self.old section.now }
        requires fits { at + section.now.length ≤ length (numbers_of row.old) }
        ensures copied { numbers_of row.new ≡ overwritten (numbers_of row.old) at
            (slice_range (row_of self.old section.now.array.0) section.now.first (end_of section.now)) }
        ensures same { IsSameMemory self.old self.new }
    {
        let own = &mut self.arrays[section.array.0 as usize];
        copy_part(self.alloc, own, section.first, section.length, row, at);
    }

    /// A section takes the numbers of a row from the place `at` on. Where both are whole, the row and the array, they are
    /// in memory once from then on, unless there is no memory for that.
    pub fn copy_section_from(&mut self, section: &Section, row: &mut SharedRow, at: u64)
        requires within { IsWithin self.old section.now }
        requires fits { at + section.now.length ≤ length (numbers_of row.old) }
        ensures copied { memory_of self.new ≡ within section.now (λ c. slice_index
            (slice_range (numbers_of row.old) at (at + section.now.length)) (c.index - section.now.first)) (memory_of self.old) }
        ensures same { numbers_of row.new ≡ numbers_of row.old }
        ensures lengths { lengths_of self.new ≡ lengths_of self.old }
    {
        let own = &mut self.arrays[section.array.0 as usize];
        copy_part(self.alloc, row, at, section.length, own, section.first);
    }
}

// So many numbers of a row, from a place on, take the place of those of another row from the place `at` on.
fn copy_part(
    alloc: Global,
    from: &mut SharedRow,
    first: u64,
    count: u64,
    to: &mut SharedRow,
    at: u64,
)
    requires from { first + count ≤ length (numbers_of from.old) }
    requires to { at + count ≤ length (numbers_of to.old) }
    ensures copied { numbers_of to.new ≡ overwritten (numbers_of to.old) at
        (slice_range (numbers_of from.old) first (first + count)) }
    ensures same { numbers_of from.new ≡ numbers_of from.old }
{
    let whole = count as usize;
    if from.numbers().len() == whole && to.numbers().len() == whole {
        to.copy_from(alloc, from);
    } else {
        set_numbers(alloc, to, at, part(from.numbers(), first, count));
    }
}
