// What was issued for an open item.

ghost use Rattle.std.specs.Prelude.{◌≡◌, Some, false, true, slice_get};
ghost use Rattle.base.specs.Accepted.{is_target};
ghost use Rattle.base.specs.Items.{plan};
ghost use Rattle.base.specs.Machine.{enabled};
ghost use Rattle.base.specs.declared.item.Event.TheVariants as event;
ghost use Rattle.device.specs.Jobs.{AreIssued, IsIssuedDone, IsJob};
ghost use Rattle.device.specs.Run.{state_of};
ghost use Rattle.device.specs.Standing.{frame_parts};

use crate::jobs::Job;
use crate::same::is_same_list;
use crate::same_frame::is_same_frame;
use crate::shared_frame::SharedFrame;
use crate::standing::Held;
use crate::state::RunState;
use base::item::{Event, Item, ItemKind};
use base::tree::Region;
use kernel::Frame;

// Whether an item is a target.
fn is_kernel(item: &Item) -> bool
    ensures { result ≡ is_target item.now.kind }
{
    matches!(item.kind, ItemKind::Target)
}

impl<'a> RunState<'a> {
    // The job of an open item, with the frame that was issued for it.
    pub(crate) fn job(&self, item: u32, frame: SharedFrame<'a>) -> Job<'a>
        requires open { enabled (plan self.now.program) (state_of self.now) (event.Close item) ≡ true }
        requires held { slice_get self.now.issued item ≡ Some (Some (frame_parts frame)) }
        ensures { IsJob self.now item result }
    {
        let it = &self.image.items()[item as usize];
        Job {
            code: self.image.code(item as usize),
            frame,
            is_kernel: is_kernel(it),
        }
    }

    /// For each item that is open a frame was issued.
    pub fn open_items_are_issued(&self)
        ensures { AreIssued self.now }
    {
        let _whole = &self.whole;
    }

    // Whether this frame was issued for an item, and the item was not closed since.
    fn holds(&self, frame: &Frame<'_>) -> bool
        ensures yes { result ≡ true → slice_get self.now.issued frame.now.item ≡ Some (Some (frame_parts frame.now)) }
        ensures no { result ≡ false → slice_get self.now.issued frame.now.item ≡ Some (Some (frame_parts frame.now)) → ⊥ }
    {
        match self.standing.held.get(frame.item as usize) {
            Some(Held::Issued(held)) => is_same_frame(held, frame),
            _ => false,
        }
    }

    /// Whether the item of a frame is open, and this region and this frame are those that were issued for it.
    pub fn is_issued(&self, region: &Region, frame: &Frame<'_>) -> bool
        ensures yes { result ≡ true → IsIssuedDone self.now region.now frame.now }
        ensures no { result ≡ false → IsIssuedDone self.now region.now frame.now → ⊥ }
    {
        if !self.is_enabled(Event::Close(frame.item)) || !self.holds(frame) {
            return false;
        }
        let code = self.image.code(frame.item as usize);
        is_same_list(&code.region().body, &region.body)
    }
}
