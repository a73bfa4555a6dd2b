// What is done with the marks of an array.

ghost use Rattle.std.specs.Prelude.{◌≡◌, ◌<◌, ◌≤◌, ◌^◌, ◌&&◌, ◌||◌, ℕ, false, IfOk, min, not};
ghost use Rattle.std.specs.List.{list_all, range_with_len};
ghost use Rattle.base.specs.Memory.{end_of};
ghost use Rattle.bits.specs.Sets.{has};
ghost use Rattle.mapwalk.specs.Marks.{added, cleared, copied, cut, has_mark};

use crate::marks::Marks;
use base::item::Section;
use bits::BitSet;
use std::alloc::{AllocError, Global};

impl Marks {
    /// The same mark for so many cells.
    pub fn new(alloc: Global, length: usize, mark: bool) -> Result<Marks, AllocError>
        requires { length ≤ 2 ^ 32 }
        ensures length { IfOk result (λ m. m.length ≡ length) }
        ensures marks { IfOk result (λ m. (i : ℕ) → i < length → has_mark m i ≡ mark) }
    {
        let mut cells = BitSet::with_room(alloc, length)?;
        if mark {
            cells.insert_range(0, length);
        }
        Ok(Marks { length, cells })
    }

    // Where a section ends, in these cells.
    fn end(&self, section: &Section) -> usize
        ensures { result ≡ min (end_of section.now) self.now.length }
    {
        section
            .first
            .saturating_add(section.length)
            .min(self.length as u64) as usize
    }

    /// Takes the marks of a section's cells away.
    pub fn clear(&mut self, section: &Section)
        ensures marks { (i : ℕ) → has_mark self.new i ≡ cleared section.now (has_mark self.old) i }
        ensures length { self.new.length ≡ self.old.length }
    {
        let end = self.end(section);
        let first = section.first.min(end as u64) as usize;
        self.cells.remove_range(first, end);
    }

    /// Gives a section's cells the marks of another array of the same length.
    pub fn copy(&mut self, from: &Marks, section: &Section)
        requires { self.old.length ≡ from.now.length }
        ensures marks { (i : ℕ) → has_mark self.new i ≡ copied section.now (has_mark from.now) (has_mark self.old) i }
        ensures length { self.new.length ≡ self.old.length }
    {
        let end = self.end(section);
        let first = section.first.min(end as u64) as usize;
        self.cells.copy_range(&from.cells, first, end);
    }

    /// Marks the cells of a set, none of which is past the end.
    pub fn add(&mut self, cells: &BitSet)
        requires { (i : ℕ) → self.old.length ≤ i → has cells.now i ≡ false }
        ensures marks { (i : ℕ) → has_mark self.new i ≡ added (has cells.now) (has_mark self.old) i }
        ensures length { self.new.length ≡ self.old.length }
    {
        self.cells.union_with(cells);
    }

    /// Takes the marks of the cells of a set away.
    pub fn take_away(&mut self, cells: &BitSet)
        ensures marks { (i : ℕ) → has_mark self.new i ≡ cut (has cells.now) (has_mark self.old) i }
        ensures length { self.new.length ≡ self.old.length }
    {
        self.cells.difference_with(cells);
    }

    /// Whether each cell is marked.
    pub fn is_full(&self) -> bool
        ensures { result ≡ list_all (has_mark self.now) (range_with_len 0 self.now.length) }
    {
        self.cells.has_all(self.length)
    }
}
