// Any event of a run.

ghost use Rattle.std.specs.Prelude.{◌≡◌, IsTrue, IfErr, OnErr, OnOk, false};
ghost use Rattle.base.specs.Items.{plan};
ghost use Rattle.base.specs.Machine.{enabled};
ghost use Rattle.base.specs.declared.item.Event.TheVariants as event;
ghost use Rattle.device.specs.Run.{HasOpened, IsOpenFault, is_over, state_of};
ghost use Rattle.device.specs.Taking.{FitsIn, HasDone, IsEventFault, Takes};

use crate::state::{RunState, or_out_of_memory};
use base::fault::RunFault;
use base::item::Event;

impl<'a> RunState<'a> {
    // Opens an item whose region is run when the item is closed.
    fn open_item(&mut self, item: u32) -> Result<(), RunFault>
        requires { IsTrue (enabled (plan self.old.program) (state_of self.old) (event.Open item)) }
        ensures opened { OnOk result (HasOpened item self.old self.new) }
        ensures room { OnOk result (is_over self.old item ≡ false) }
        ensures fault { IfErr result (IsOpenFault self.old item) }
        ensures unchanged { OnErr result (self.new ≡ self.old) }
    {
        match self.open_with(item, false) {
            Ok(_) => Ok(()),
            Err(fault) => Err(fault),
        }
    }

    /// Does an event that may happen next, with the run of the item's region where it closes an item. The error is
    /// `DeviceFull` where an opening's entries together would create more cells than its device has room for, or
    /// `OutOfMemory`.
    pub fn take(&mut self, event: Event) -> Result<(), RunFault>
        requires { IsTrue (enabled (plan self.old.program) (state_of self.old) event) }
        ensures taken { OnOk result (Takes self.old event self.new) }
        ensures does { OnOk result (HasDone event self.old self.new) }
        ensures room { OnOk result (FitsIn self.old event) }
        ensures fault { IfErr result (IsEventFault self.old event) }
        ensures unchanged { OnErr result (self.new ≡ self.old) }
    {
        self.is_reached();
        match event {
            Event::Gen(item) => or_out_of_memory(self.generate(item)),
            Event::Open(item) => self.open_item(item),
            Event::Step(_) => unreachable!(),
            Event::Close(item) => or_out_of_memory(self.close_item(item)),
            Event::Wait(item) => or_out_of_memory(self.wait(item)),
            Event::End => or_out_of_memory(self.end()),
        }
    }
}
