// Where an item is opened in a run.

ghost use Rattle.std.specs.Prelude.{◌≡◌, ◌<◌, false, true, IfErr, OnOk, Option, length};
ghost use Rattle.base.specs.declared.item.Event.TheVariants as event;
ghost use Rattle.base.specs.declared.tree.Region.{Region};
ghost use Rattle.taskgraph.specs.Board.{allows};
ghost use Rattle.present.specs.Table.{AreSections};
ghost use Rattle.actions.specs.Opening.{IsRegion};
ghost use Rattle.stepper.specs.Standing.{Captures, FollowsOf, IsOpenFault};

use crate::standing::{Slot, Standing};
use actions::open;
use base::fault::RunFault;
use base::item::Item;
use base::tree::Region;
use kernel::Scalars;
use std::alloc::Global;

impl<'p> Standing<'p> {
    // The scalars that an item has captured, or those of now where it is not deferred.
    fn captured(&self, deferred: bool, item: u32) -> &Scalars
        requires { item < length self.now.slots.items }
        ensures { Captures self.now deferred item result.now }
    {
        if !deferred {
            return &self.scalars;
        }
        match &self.slots[item as usize] {
            Slot::Captured(scalars) => scalars,
            Slot::Opened(_) => &self.scalars,
            Slot::Nothing => &self.scalars,
        }
    }

    /// Opens an item, up to its first action. The error is `Absent` where a section of an update overlaps a block of its
    /// device in part, or is to be present and is absent, or `OutOfMemory`.
    pub fn open(
        &mut self,
        alloc: Global,
        it: &'p Item,
        region: Option<&'p Region>,
        item: u32,
    ) -> Result<(), RunFault>
        requires here { allows self.old.graph (event.Open item) ≡ true }
        requires inside { item < length self.old.slots.items }
        requires going { self.old.ended ≡ false }
        requires sections { AreSections it.now.maps.items }
        ensures opened { (r : Option Region) → IsRegion region.entry r → OnOk result (FollowsOf it.now r item self.old (event.Open item) self.new) }
        ensures fault { (r : Option Region) → IsRegion region.entry r → IfErr result (IsOpenFault it.now r item self.old) }
        ensures devices { self.new.devices ≡ self.old.devices }
        ensures order { self.new.order ≡ self.old.order }
    {
        let Ok(scalars) = self.captured(it.deferred, item).all(alloc) else {
            return Err(RunFault::OutOfMemory);
        };
        let opened = open(
            alloc,
            it,
            region,
            self.order,
            &scalars,
            self.input,
            self.devices.table(it.device),
        );
        match opened {
            Err(_) => Err(RunFault::OutOfMemory),
            Ok(None) => Err(RunFault::Absent),
            Ok(Some(control)) => {
                self.slots[item as usize] = Slot::Opened(control);
                self.graph.opened(item as usize);
                Ok(())
            }
        }
    }
}
