// Exits.

ghost use Rattle.std.specs.Prelude.{◌≡◌, ◌<◌, IfErr, IfOk, OnErr, OnOk, length};
ghost use Rattle.host_memory.specs.Arrays.{IsWithin, lengths_of};
ghost use Rattle.base.specs.Map.{Device, leave};
ghost use Rattle.present.specs.Blocks.{IsSection};
ghost use Rattle.present.specs.Found.{IsInsideAt};
ghost use Rattle.present.specs.Change.{Removes, blocks_of};
ghost use Rattle.present.specs.Table.{Does, Fails, IsAbsent, IsCountedOut, IsKept, IsNoExit, IsUnchanged, Shows, removed};

use crate::Table;
use crate::block::{copies_out, left};
use crate::find::{Found, find};
use base::fault::RunFault;
use base::item::{MapItem, Section};
use host_memory::Memory;

impl Table {
    // Removes the block that stands here.
    pub(crate) fn drop_block(&mut self, at: usize)
        requires { at < length (blocks_of self.old) }
        ensures removed { Removes self.old self.new at }
        ensures kept { IsKept self.old self.new }
    {
        let block = self.blocks.remove(at);
        self.used -= block.section.length;
    }

    /// Removes the block that contains a section, with its storage. Where there is none it does nothing.
    pub fn remove(&mut self, section: &Section)
        requires { IsSection section.now }
        ensures removed { (d : Device) → Shows self.old d → Shows self.new (removed section.now d) }
        ensures kept { IsKept self.old self.new }
    {
        match find(&self.blocks, section) {
            Found::Absent(_) => {}
            Found::Inside(at) => self.drop_block(at),
            Found::InPart => {}
        }
    }

    /// The count of an exit, which leaves the block also at 0. The answer is whether the exit copies, and whether it
    /// removes the block. The error is `Absent` where the section overlaps a block in part.
    pub fn count_out(&mut self, item: &MapItem) -> Result<(bool, bool), RunFault>
        requires { IsSection item.now.section }
        ensures counted { IfOk result (λ r. IsCountedOut item.now r.0 r.1 self.old self.new) }
        ensures fault { IfErr result (IsAbsent (IsNoExit item.now self.old)) }
        ensures unchanged { OnErr result (IsUnchanged self.old self.new) }
        ensures kept { IsKept self.old self.new }
    {
        match find(&self.blocks, &item.section) {
            Found::Absent(_) => Ok((false, false)),
            Found::Inside(at) => {
                let count = left(item.kind, self.count_of(at));
                self.set_count(at, count);
                Ok((copies_out(item, count), count == 0))
            }
            Found::InPart => Err(RunFault::Absent),
        }
    }

    // The exit of a section that this block has.
    fn leave_at(&mut self, at: usize, item: &MapItem, host: &mut Memory)
        requires section { IsSection item.now.section }
        requires inside { IsInsideAt (blocks_of self.old) item.now.section at }
        requires within { IsWithin host.old item.now.section }
        ensures left { Does (leave item.now) self.old host.old self.new host.new }
        ensures lengths { lengths_of host.new ≡ lengths_of host.old }
        ensures kept { IsKept self.old self.new }
    {
        let count = left(item.kind, self.count_of(at));
        self.bring_out_if(copies_out(item, count), at, &item.section, host);
        if count == 0 {
            self.drop_block(at);
        } else {
            self.set_count(at, count);
        }
    }

    /// One exit: count, copy and removal. Where the section is absent it does nothing. The error is `Absent` where it
    /// overlaps a block in part.
    pub fn exit(&mut self, item: &MapItem, host: &mut Memory) -> Result<(), RunFault>
        requires section { IsSection item.now.section }
        requires within { IsWithin host.old item.now.section }
        ensures left { OnOk result (Does (leave item.now) self.old host.old self.new host.new) }
        ensures fault { IfErr result (IsAbsent (Fails (leave item.now) self.old host.old)) }
        ensures unchanged { OnErr result (IsUnchanged self.old self.new) }
        ensures same_host { OnErr result (host.new ≡ host.old) }
        ensures lengths { lengths_of host.new ≡ lengths_of host.old }
        ensures kept { IsKept self.old self.new }
    {
        match find(&self.blocks, &item.section) {
            Found::Absent(_) => Ok(()),
            Found::Inside(at) => {
                self.leave_at(at, item, host);
                Ok(())
            }
            Found::InPart => Err(RunFault::Absent),
        }
    }
}
