// Several entries, all or none.

ghost use Rattle.std.specs.Prelude.{◌≡◌, ◌-◌, ◌≤◌, Some, OnErr, OnOk, IfErr, drop, length, slice_get};
ghost use Rattle.host_memory.specs.Arrays.{IsSameMemory, IsWithin, memory_of};
ghost use Rattle.base.specs.Map.{Block, Device, Inside, presence};
ghost use Rattle.present.specs.Blocks.{IsSection};
ghost use Rattle.present.specs.Change.{CanUncount, IsUncounted, SameBlocks};
ghost use Rattle.present.specs.Table.{AreSections, AreWithin, CountsFit, Does, Fails, HasRoom, IsEntryFault, IsKept, IsPartFault, IsUnchanged, Shows, SomeRoom, entries, with_host_if};

use crate::Table;
use crate::entry::Counted;
use crate::find::{Found, find};
use base::fault::RunFault;
use base::item::{MapItem, Section};
use host_memory::Memory;

impl Table {
    // The section's cells of the device take the host's numbers, if so told.
    fn bring_in_if(&mut self, copies: bool, section: &Section, host: &mut Memory)
        requires section { IsSection section.now }
        requires within { IsWithin host.old section.now }
        ensures brought { (d : Device) (b : Block) → Shows self.old d → presence d.blocks section.now ≡ Inside b →
            Shows self.new (with_host_if copies section.now (memory_of host.old) d) }
        ensures same { IsSameMemory host.old host.new }
        ensures kept { IsKept self.old self.new }
    {
        if !copies {
            return;
        }
        match find(&self.blocks, section) {
            Found::Absent(_) => {}
            Found::Inside(at) => self.bring_in_at(at, section, host),
            Found::InPart => {}
        }
    }

    // Takes the count of an entry back.
    fn uncount(&mut self, counted: Counted)
        requires { CanUncount self.old counted.at }
        ensures uncounted { IsUncounted self.old self.new counted.at counted.creates }
        ensures kept { IsKept self.old self.new }
    {
        if counted.creates {
            self.drop_block(counted.at);
        } else {
            let count = self.count_of(counted.at) - 1;
            self.set_count(counted.at, count);
        }
    }

    /// Several entries in turn, or none of them. The error is `DeviceFull` where together they would create more cells
    /// than there is room for, else `Absent` where a section overlaps in part a block that it then meets, or is to be
    /// present and then is absent, or `OutOfMemory`.
    pub fn enter_all(&mut self, items: &[MapItem], host: &mut Memory) -> Result<(), RunFault>
        requires sections { AreSections items.now }
        requires within { AreWithin host.old items.now }
        requires counts { CountsFit self.old items.now 0 }
        ensures entered { OnOk result (Does (entries self.old items.now) self.old host.old self.new host.new) }
        ensures room { OnOk result (HasRoom self.old items.now) }
        ensures fault { IfErr result (IsEntryFault self.old items.now (Fails (entries self.old items.now) self.old host.old)) }
        ensures unchanged { OnErr result (IsUnchanged self.old self.new × (host.new ≡ host.old)) }
        ensures same_host { IsSameMemory host.old host.new }
        ensures kept { IsKept self.old self.new }
    {
        let room = self.capacity - self.used;
        match self.needed(items) {
            None => Err(RunFault::DeviceFull),
            Some(cells) => {
                if room < cells {
                    return Err(RunFault::DeviceFull);
                }
                self.enter_each(items, 0, host)
            }
        }
    }

    // The entries from this one on. The counts come first, and the copies once all are counted.
    fn enter_each(
        &mut self,
        items: &[MapItem],
        from: usize,
        host: &mut Memory,
    ) -> Result<(), RunFault>
        requires sections { AreSections items.now }
        requires within { AreWithin host.old items.now }
        requires from { from ≤ length items.now }
        requires counts { CountsFit self.old items.now from }
        requires room { SomeRoom self.old (drop from items.now) }
        ensures entered { OnOk result (Does (entries self.old (drop from items.now)) self.old host.old self.new host.new) }
        ensures fault { IfErr result (IsPartFault (Fails (entries self.old (drop from items.now)) self.old host.old)) }
        ensures unchanged { OnErr result (SameBlocks self.old self.new × (host.new ≡ host.old)) }
        ensures same_host { IsSameMemory host.old host.new }
        ensures kept { IsKept self.old self.new }
    {
        if from == items.len() {
            return Ok(());
        }
        let item = &items[from];
        let counted = match self.count(item) {
            Err(fault) => return Err(fault),
            Ok(counted) => counted,
        };
        match self.enter_each(items, from + 1, host) {
            Err(fault) => {
                self.uncount(counted);
                Err(fault)
            }
            Ok(()) => {
                self.bring_in_if(counted.copies, &item.section, host);
                Ok(())
            }
        }
    }
}
