// Copies between the two memories.

ghost use Rattle.std.specs.Prelude.{◌≡◌, IfErr, OnOk, OnErr};
ghost use Rattle.host_memory.specs.Arrays.{IsSameMemory, IsWithin, lengths_of, memory_of};
ghost use Rattle.base.specs.Map.{Device, update};
ghost use Rattle.present.specs.Blocks.{IsSection};
ghost use Rattle.present.specs.Found.{IsInsideAt};
ghost use Rattle.present.specs.Change.{blocks_of};
ghost use Rattle.present.specs.Table.{Does, Fails, IsAbsent, IsKept, IsUnchanged, Shows, host_after, item_from, item_to, with_device, with_host};

use crate::Table;
use crate::find::{Found, find};
use base::fault::RunFault;
use base::item::Section;
use host_memory::Memory;

impl Table {
    // The section's cells of the device, which this block has, take the host's numbers.
    pub(crate) fn bring_in_at(&mut self, at: usize, section: &Section, host: &mut Memory)
        requires inside { IsInsideAt (blocks_of self.old) section.now at }
        requires within { IsWithin host.old section.now }
        ensures brought { (d : Device) → Shows self.old d →
            Shows self.new (with_host section.now (memory_of host.old) d) }
        ensures same { IsSameMemory host.old host.new }
        ensures kept { IsKept self.old self.new }
    {
        let block = &mut self.blocks[at];
        let offset = section.first - block.section.first;
        host.copy_section_to(section, &mut block.values, offset);
    }

    // The section's cells of the host take the numbers of the device, where this block has them.
    pub(crate) fn bring_out_at(&mut self, at: usize, section: &Section, host: &mut Memory)
        requires inside { IsInsideAt (blocks_of self.old) section.now at }
        requires within { IsWithin host.old section.now }
        ensures brought { (d : Device) → Shows self.old d →
            memory_of host.new ≡ with_device section.now d (memory_of host.old) }
        ensures lengths { lengths_of host.new ≡ lengths_of host.old }
        ensures inside { IsInsideAt (blocks_of self.new) section.now at }
        ensures unchanged { IsUnchanged self.old self.new }
    {
        let block = &mut self.blocks[at];
        let offset = section.first - block.section.first;
        host.copy_section_from(section, &mut block.values, offset);
    }

    // That copy, if so told.
    pub(crate) fn bring_out_if(
        &mut self,
        copies: bool,
        at: usize,
        section: &Section,
        host: &mut Memory,
    )
        requires inside { IsInsideAt (blocks_of self.old) section.now at }
        requires within { IsWithin host.old section.now }
        ensures brought { (d : Device) → Shows self.old d →
            memory_of host.new ≡ host_after copies section.now d (memory_of host.old) }
        ensures lengths { lengths_of host.new ≡ lengths_of host.old }
        ensures inside { IsInsideAt (blocks_of self.new) section.now at }
        ensures unchanged { IsUnchanged self.old self.new }
    {
        if copies {
            self.bring_out_at(at, section, host);
        }
    }

    /// Copies a section to the device. Where it is absent nothing is copied. The error is `Absent` where the section
    /// overlaps a block in part.
    pub fn copy_in(&mut self, section: &Section, host: &mut Memory) -> Result<(), RunFault>
        requires section { IsSection section.now }
        requires within { IsWithin host.old section.now }
        ensures copied { OnOk result (Does (update (item_to section.now)) self.old host.old self.new host.new) }
        ensures fault { IfErr result (IsAbsent (Fails (update (item_to section.now)) self.old host.old)) }
        ensures unchanged { OnErr result (IsUnchanged self.old self.new) }
        ensures same_host { IsSameMemory host.old host.new }
        ensures kept { IsKept self.old self.new }
    {
        match find(&self.blocks, section) {
            Found::Absent(_) => Ok(()),
            Found::Inside(at) => {
                self.bring_in_at(at, section, host);
                Ok(())
            }
            Found::InPart => Err(RunFault::Absent),
        }
    }

    /// Copies a section to the host. Where it is absent nothing is copied. The error is `Absent` where the section
    /// overlaps a block in part.
    pub fn copy_out(&mut self, section: &Section, host: &mut Memory) -> Result<(), RunFault>
        requires section { IsSection section.now }
        requires within { IsWithin host.old section.now }
        ensures copied { OnOk result (Does (update (item_from section.now)) self.old host.old self.new host.new) }
        ensures fault { IfErr result (IsAbsent (Fails (update (item_from section.now)) self.old host.old)) }
        ensures same_host { OnErr result (host.new ≡ host.old) }
        ensures unchanged { IsUnchanged self.old self.new }
        ensures lengths { lengths_of host.new ≡ lengths_of host.old }
    {
        match find(&self.blocks, section) {
            Found::Absent(_) => Ok(()),
            Found::Inside(at) => {
                self.bring_out_at(at, section, host);
                Ok(())
            }
            Found::InPart => Err(RunFault::Absent),
        }
    }
}
