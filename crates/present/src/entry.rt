// Entries.

ghost use Rattle.std.specs.Prelude.{◌≡◌, ◌+◌, ◌<◌, ◌≤◌, [], ◌∷◌, IfOk, IfErr, OnOk, OnErr, length};
ghost use Rattle.host_memory.specs.Arrays.{IsSameMemory, IsWithin};
ghost use Rattle.base.specs.Map.{enter};
ghost use Rattle.present.specs.Blocks.{IsSection};
ghost use Rattle.present.specs.Found.{IsAbsentAt};
ghost use Rattle.present.specs.Change.{Creates, Recounts, IsCounted, IsCountFault, IsCountAt, SameBlocks, blocks_of};
ghost use Rattle.present.specs.Table.{CountFits, Does, Fails, HasRoom, IsCountedIn, IsEntryFault, IsKept, IsNoEntry, IsUnchanged, fill_of};

use crate::Table;
use crate::block::{Block, copies_in};
use crate::find::{Found, find};
use base::fault::RunFault;
use base::item::{MapItem, Section};
use host_memory::Memory;
use shared_row::SharedRow;
use std::alloc::AllocError;

// What the count of an entry did: whether the entry copies, and the block that was created or counted.
#[derive(Clone, Copy)]
pub struct Counted {
    pub copies: bool,
    pub creates: bool,
    pub at: usize,
}

impl Table {
    // A new block, entered once, before this one.
    fn create(&mut self, at: usize, section: Section) -> Result<(), AllocError>
        requires section { IsSection section }
        requires absent { IsAbsentAt (blocks_of self.old) section at }
        requires room { self.old.used + section.length ≤ self.old.capacity }
        ensures created { OnOk result (Creates self.old self.new section at) }
        ensures refused { OnErr result (SameBlocks self.old self.new) }
        ensures kept { IsKept self.old self.new }
    {
        let values = vec![in self.alloc; self.fresh; section.length as usize]?;
        let block = Block {
            section,
            count: 1,
            values: SharedRow::Sole(values),
        };
        if self.blocks.insert(at, block).is_err() {
            return Err(AllocError);
        }
        self.used += section.length;
        Ok(())
    }

    // Gives a block this count.
    pub(crate) fn set_count(&mut self, at: usize, count: u64)
        requires { at < length (blocks_of self.old) }
        ensures counted { Recounts self.old self.new at count }
        ensures kept { IsKept self.old self.new }
    {
        let block = &mut self.blocks[at];
        block.count = count;
    }

    // The count of a block.
    pub(crate) fn count_of(&self, at: usize) -> u64
        requires { at < length (blocks_of self.now) }
        ensures { IsCountAt self.now at result }
    {
        let block = &self.blocks[at];
        block.count
    }

    // The creation and the count of an entry.
    pub(crate) fn count(&mut self, item: &MapItem) -> Result<Counted, RunFault>
        requires section { IsSection item.now.section }
        requires count { CountFits self.old 1 item.now.section }
        ensures counted { IfOk result (IsCounted self.old self.new item.now) }
        ensures fault { IfErr result (IsCountFault self.old item.now) }
        ensures unchanged { OnErr result (SameBlocks self.old self.new) }
        ensures kept { IsKept self.old self.new }
    {
        match find(&self.blocks, &item.section) {
            Found::Absent(at) => {
                if item.present {
                    return Err(RunFault::Absent);
                }
                if self.capacity - self.used < item.section.length {
                    return Err(RunFault::DeviceFull);
                }
                match self.create(at, item.section) {
                    Err(_) => Err(RunFault::OutOfMemory),
                    Ok(()) => Ok(Counted {
                        copies: copies_in(item, 1),
                        creates: true,
                        at,
                    }),
                }
            }
            Found::Inside(at) => {
                let count = self.count_of(at) + 1;
                self.set_count(at, count);
                Ok(Counted {
                    copies: copies_in(item, count),
                    creates: false,
                    at,
                })
            }
            Found::InPart => Err(RunFault::Absent),
        }
    }

    /// The creation and the count of an entry. The answer is whether the entry copies. The errors are those of `enter`.
    pub fn count_in(&mut self, item: &MapItem) -> Result<bool, RunFault>
        requires section { IsSection item.now.section }
        requires count { CountFits self.old 1 item.now.section }
        ensures counted { IfOk result (λ copies. IsCountedIn item.now copies self.old self.new) }
        ensures room { OnOk result (HasRoom self.old (item.now ∷ [])) }
        ensures fault { IfErr result (IsEntryFault self.old (item.now ∷ []) (IsNoEntry item.now self.old)) }
        ensures unchanged { OnErr result (IsUnchanged self.old self.new) }
        ensures kept { IsKept self.old self.new }
    {
        match self.count(item) {
            Err(fault) => Err(fault),
            Ok(counted) => Ok(counted.copies),
        }
    }

    /// One entry: creation, count and copy. The error is `DeviceFull` where it would create more cells than there is
    /// room for, `Absent` where the section overlaps a block in part, or is to be present and is absent, or
    /// `OutOfMemory`.
    pub fn enter(&mut self, item: &MapItem, host: &mut Memory) -> Result<(), RunFault>
        requires section { IsSection item.now.section }
        requires within { IsWithin host.old item.now.section }
        requires count { CountFits self.old 1 item.now.section }
        ensures entered { OnOk result (Does (enter (fill_of self.old) item.now) self.old host.old self.new host.new) }
        ensures room { OnOk result (HasRoom self.old (item.now ∷ [])) }
        ensures fault { IfErr result (IsEntryFault self.old (item.now ∷ []) (Fails (enter
            (fill_of self.old) item.now) self.old host.old)) }
        ensures unchanged { OnErr result (IsUnchanged self.old self.new × (host.new ≡ host.old)) }
        ensures same_host { IsSameMemory host.old host.new }
        ensures kept { IsKept self.old self.new }
    {
        let counted = match self.count(item) {
            Err(fault) => return Err(fault),
            Ok(counted) => counted,
        };
        if counted.copies {
            self.bring_in_at(counted.at, &item.section, host);
        }
        Ok(())
    }
}
