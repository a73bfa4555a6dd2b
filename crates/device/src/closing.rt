// Where an item is closed.

ghost use Rattle.std.specs.Prelude.{◌≡◌, ◌<◌, ◌≤◌, ◌^◌, true, false, None, OnErr, OnOk, length, map};
ghost use Rattle.std.specs.List.{slice_set};
ghost use Rattle.host_memory.specs.Arrays.{lengths_of};
ghost use Rattle.base.specs.declared.item.Event.TheVariants as event;
ghost use Rattle.taskgraph.specs.Board.{allows};
ghost use Rattle.frames.specs.Views.{AreCells};
ghost use Rattle.kernel.specs.Rows.{cells_stored};
ghost use Rattle.present.specs.Table.{AreSections, AreWithin};
ghost use Rattle.device.specs.Closing.{FollowsClose, GoesOut, HasDoneHost, HasDoneKernel, HasLeft, left_of};
ghost use Rattle.device.specs.Devices.{AreKept};
ghost use Rattle.device.specs.Standing.{Stays, issue_of};

use crate::left::Left;
use crate::standing::{Held, Standing};
use base::item::{Item, ItemKind, MapItem};
use base::tree::DeviceId;
use frames::store_host;
use kernel::{KeptRow, Scalars};
use std::alloc::{AllocError, Global};

impl<'a> Standing<'a> {
    // What a host region left is stored, and its numbers are printed.
    fn leave_host(&mut self, alloc: Global, left: &Left<'_, 'a>) -> Result<(), AllocError>
        requires few { length (lengths_of self.old.host) ≤ 2 ^ 32 }
        requires cells { AreCells (lengths_of self.old.host) (left_of left.now).stored }
        ensures done { OnOk result (HasDoneHost (left_of left.now) self.old self.new) }
        ensures unchanged { OnErr result (Stays self.old self.new) }
        ensures held { self.new.held ≡ self.old.held }
        ensures graph { self.new.graph ≡ self.old.graph }
        ensures ended { self.new.ended ≡ self.old.ended }
        ensures devices { self.new.devices ≡ self.old.devices }
    {
        let scalars = Scalars::new(alloc, left.scalars)?;
        self.output.append(alloc, left.printed)?;
        store_host(&mut self.host, left.rows);
        self.scalars = scalars;
        self.input = left.input;
        Ok(())
    }

    // What a kernel left is stored on its device, and its map items are left.
    fn leave_kernel(&mut self, device: DeviceId, rows: &[KeptRow], maps: &[MapItem])
        requires few { length (lengths_of self.old.host) ≤ 2 ^ 32 }
        requires cells { AreCells (lengths_of self.old.host) (cells_stored rows.now) }
        requires sections { AreSections maps.now }
        requires within { AreWithin self.old.host maps.now }
        requires goes { GoesOut device.number (cells_stored rows.now) maps.now self.old }
        ensures done { HasDoneKernel device.number (cells_stored rows.now) maps.now self.old self.new }
        ensures kept { AreKept self.old.devices self.new.devices }
    {
        self.devices.leave(device, &mut self.host, rows, maps);
    }

    // What an item left is stored, and its map items are left.
    fn leave(&mut self, alloc: Global, it: &Item, left: &Left<'_, 'a>) -> Result<(), AllocError>
        requires few { length (lengths_of self.old.host) ≤ 2 ^ 32 }
        requires cells { AreCells (lengths_of self.old.host) (left_of left.now).stored }
        requires sections { AreSections it.now.maps.items }
        requires within { AreWithin self.old.host it.now.maps.items }
        requires goes { it.now.kind ≡ ItemKind.Target → GoesOut it.now.device.number (left_of left.now).stored it.now.maps.items self.old }
        ensures left { OnOk result (HasLeft it.now.kind it.now.device.number (left_of left.now) it.now.maps.items self.old self.new) }
        ensures unchanged { OnErr result (Stays self.old self.new) }
        ensures held { self.new.held ≡ self.old.held }
        ensures graph { self.new.graph ≡ self.old.graph }
        ensures ended { self.new.ended ≡ self.old.ended }
        ensures kept { AreKept self.old.devices self.new.devices }
    {
        match it.kind {
            ItemKind::Host => self.leave_host(alloc, left),
            ItemKind::Target => {
                self.leave_kernel(it.device, left.rows, &it.maps);
                Ok(())
            }
            ItemKind::Begin => Ok(()),
            ItemKind::End => Ok(()),
            ItemKind::Enter => Ok(()),
            ItemKind::Exit => Ok(()),
            ItemKind::Update => Ok(()),
            ItemKind::Wait => Ok(()),
        }
    }

    /// The open item is closed, with what its region left. The error comes for want of memory.
    pub fn close(
        &mut self,
        alloc: Global,
        it: &Item,
        item: u32,
        left: &Left<'_, 'a>,
    ) -> Result<(), AllocError>
        requires here { allows self.old.graph (event.Close item) ≡ true }
        requires inside { item < length self.old.held.items }
        requires going { self.old.ended ≡ false }
        requires few { length (lengths_of self.old.host) ≤ 2 ^ 32 }
        requires cells { AreCells (lengths_of self.old.host) (left_of left.now).stored }
        requires sections { AreSections it.now.maps.items }
        requires within { AreWithin self.old.host it.now.maps.items }
        requires goes { it.now.kind ≡ ItemKind.Target → GoesOut it.now.device.number (left_of left.now).stored it.now.maps.items self.old }
        ensures closed { OnOk result (FollowsClose self.old item it.now (left_of left.now) self.new) }
        ensures unchanged { OnErr result (Stays self.old self.new) }
        ensures held { OnErr result (self.new.held ≡ self.old.held) }
        ensures issued { OnOk result (map issue_of self.new.held.items ≡ slice_set (map issue_of self.old.held.items) item None) }
        ensures kept { AreKept self.old.devices self.new.devices }
    {
        self.leave(alloc, it, left)?;
        self.held[item as usize] = Held::Nothing;
        self.graph.closed(item as usize);
        Ok(())
    }
}
