// Opening an item of a run.

ghost use Rattle.std.specs.Prelude.{◌≡◌, IsTrue, IfErr, IfOk, IfSome, IsSome, OnErr, OnOk, Some, false, slice_get, true};
ghost use Rattle.base.specs.Items.{plan};
ghost use Rattle.base.specs.Machine.{enabled};
ghost use Rattle.base.specs.declared.item.Event.TheVariants as event;
ghost use Rattle.device.specs.Jobs.{IsJob};
ghost use Rattle.device.specs.Run.{HasOpened, IsOpenFault, is_over, state_of};
ghost use Rattle.device.specs.Standing.{frame_parts};

use crate::blank::blank_if;
use crate::jobs::Job;
use crate::shared_frame::SharedFrame;
use crate::state::{RunState, forget, note};
use base::fault::RunFault;
use base::item::Event;

impl<'a> RunState<'a> {
    /// Opens an item that may be opened. Its frame is answered too where it is wanted.
    pub(crate) fn open_with(
        &mut self,
        item: u32,
        wanted: bool,
    ) -> Result<Option<SharedFrame<'a>>, RunFault>
        requires { IsTrue (enabled (plan self.old.program) (state_of self.old) (event.Open item)) }
        ensures opened { OnOk result (HasOpened item self.old self.new) }
        ensures is_open { OnOk result (enabled (plan self.new.program) (state_of self.new) (event.Close item) ≡ true) }
        ensures wanted { IfOk result (λ frame. wanted ≡ true → IsSome frame) }
        ensures issued { IfOk result (λ frame. IfSome frame (λ f. slice_get self.new.issued item ≡ Some (Some (frame_parts f)))) }
        ensures room { OnOk result (is_over self.old item ≡ false) }
        ensures fault { IfErr result (IsOpenFault self.old item) }
        ensures unchanged { OnErr result (self.new ≡ self.old) }
    {
        let it = &self.image.items()[item as usize];
        let Ok(unfilled) = self.standing.frame(self.alloc, self.image, it, item) else {
            return Err(RunFault::OutOfMemory);
        };
        let Ok(blank) = blank_if(self.alloc, &unfilled.frame, wanted) else {
            return Err(RunFault::OutOfMemory);
        };
        let Ok(()) = note(&mut self.history, Event::Open(item)) else {
            return Err(RunFault::OutOfMemory);
        };
        match self.standing.open(self.alloc, it, item, unfilled, blank) {
            Ok(issued) => Ok(issued),
            Err(fault) => {
                forget(&mut self.history);
                Err(fault)
            }
        }
    }

    /// Opens an item that may be opened: its entries, exits or updates are done on its device, and its region is issued
    /// with the frame that it is to be run on. An item without a region has a region without statements. The error is
    /// `DeviceFull` where its entries together would create more cells than its device has room for, or `OutOfMemory`.
    pub fn open(&mut self, item: u32) -> Result<Job<'a>, RunFault>
        requires { IsTrue (enabled (plan self.old.program) (state_of self.old) (event.Open item)) }
        ensures opened { OnOk result (HasOpened item self.old self.new) }
        ensures job { IfOk result (IsJob self.new item) }
        ensures room { OnOk result (is_over self.old item ≡ false) }
        ensures fault { IfErr result (IsOpenFault self.old item) }
        ensures unchanged { OnErr result (self.new ≡ self.old) }
    {
        match self.open_with(item, true) {
            Err(fault) => Err(fault),
            Ok(Some(frame)) => Ok(self.job(item, frame)),
            Ok(None) => unreachable!(),
        }
    }
}
