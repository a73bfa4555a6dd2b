// What a table tells of a cell.

ghost use Rattle.std.specs.Prelude.{◌≡◌, [], ◌∷◌, None, IsSomeAnd, option_map, is_some};
ghost use Rattle.std.specs.Bool.{OnTrue, OnFalse};
ghost use Rattle.base.specs.Map.{Device};
ghost use Rattle.base.specs.Machine.{store_device};
ghost use Rattle.present.specs.Table.{Shows, IsUnchanged, IsKept, block_at, capacity_of, device_of, number_at};

use crate::Table;
use crate::block::{number, set_number};
use crate::find::block_with;
use base::item::{Cell, Section};
use std::alloc::Global;

impl Table {
    /// An empty table.
    pub fn new(alloc: Global, capacity: u64) -> Table
        ensures empty { Shows result (record { blocks = []; cells = λ c. None }) }
        ensures capacity { capacity_of result ≡ capacity }
    {
        Table {
            alloc,
            blocks: Vec::new(alloc),
            used: 0,
            capacity,
            fresh: u64::from_ne_bytes([0xa5; 8]),
        }
    }

    /// An empty table with as much room, whose storage is created with the same contents.
    pub fn another(&self) -> Table
        ensures empty { Shows result (record { blocks = []; cells = λ c. None }) }
        ensures kept { IsKept self.now result }
    {
        Table {
            alloc: self.alloc,
            blocks: Vec::new(self.alloc),
            used: 0,
            capacity: self.capacity,
            fresh: self.fresh,
        }
    }

    /// A table shows a device of the definitions: its own blocks and numbers.
    pub fn shows_a_device(&self)
        ensures { Shows self.now (device_of self.now) }
    {
        let _used = &self.used;
    }

    /// The section and the count of the block that has a cell.
    pub fn lookup(&self, cell: Cell) -> Option<(Section, u64)>
        ensures { result ≡ option_map (λ b. (b.section, b.count)) (block_at self.now cell) }
    {
        let i = block_with(&self.blocks, cell)?;
        let block = &self.blocks[i];
        Some((block.section, block.count))
    }

    /// The number that a cell has in its storage.
    pub fn load(&self, cell: Cell) -> Option<u64>
        ensures { result ≡ number_at self.now cell }
    {
        let i = block_with(&self.blocks, cell)?;
        let block = &self.blocks[i];
        Some(number(&block.values, cell.index - block.section.first))
    }

    /// Stores a number in a cell, or answers that the cell has no storage.
    pub fn store(&mut self, cell: Cell, number: u64) -> bool
        ensures found { result ≡ is_some (number_at self.old cell) }
        ensures stored { OnTrue result ((d : Device) → Shows self.old d →
            IsSomeAnd (store_device ((cell, number) ∷ []) d) (Shows self.new)) }
        ensures unchanged { OnFalse result (IsUnchanged self.old self.new) }
        ensures kept { IsKept self.old self.new }
    {
        match block_with(&self.blocks, cell) {
            None => false,
            Some(i) => {
                let block = &mut self.blocks[i];
                let offset = cell.index - block.section.first;
                set_number(self.alloc, &mut block.values, offset, number);
                true
            }
        }
    }
}
