// Closing an item of a run.

ghost use Rattle.std.specs.Prelude.{◌≡◌, IsTrue, IfErr, OnErr, OnOk};
ghost use Rattle.base.specs.Items.{plan};
ghost use Rattle.base.specs.Machine.{enabled};
ghost use Rattle.base.specs.declared.item.Event.TheVariants as event;
ghost use Rattle.device.specs.Closing.{left_of};
ghost use Rattle.device.specs.Jobs.{IsCloseFault, IsIssuedDone, IsLeft};
ghost use Rattle.device.specs.Run.{after, state_of};

use crate::left::Left;
use crate::standing::Held;
use crate::state::{RunState, forget, note, or_out_of_memory};
use base::fault::RunFault;
use base::item::Event;
use kernel::{Done, run};
use std::alloc::AllocError;

impl<'a> RunState<'a> {
    // What the region of an open item left is stored, and the item is closed. The error comes for want of memory.
    fn finish(&mut self, item: u32, left: &Left<'_, 'a>) -> Result<(), AllocError>
        requires { IsLeft self.old item (left_of left.now) }
        ensures closed { OnOk result (self.new ≡ after self.old (event.Close item)) }
        ensures unchanged { OnErr result (self.new ≡ self.old) }
    {
        let it = &self.image.items()[item as usize];
        let _lengths = self.image.lengths();
        note(&mut self.history, Event::Close(item))?;
        match self.standing.close(self.alloc, it, item, left) {
            Ok(()) => Ok(()),
            Err(error) => {
                forget(&mut self.history);
                Err(error)
            }
        }
    }

    /// The region of an open item is run on the frame that was kept for it, and the item is closed. The error comes for want
    /// of memory.
    pub(crate) fn close_item(&mut self, item: u32) -> Result<(), AllocError>
        requires { IsTrue (enabled (plan self.old.program) (state_of self.old) (event.Close item)) }
        ensures closed { OnOk result (self.new ≡ after self.old (event.Close item)) }
        ensures unchanged { OnErr result (self.new ≡ self.old) }
    {
        let _it = &self.image.items()[item as usize];
        let code = self.image.code(item as usize);
        let Held::Issued(frame) = &self.standing.held[item as usize] else {
            unreachable!()
        };
        let done = run(self.alloc, code, frame)?;
        let Done {
            region: _,
            frame: _,
            scalars,
            rows,
            input,
            printed,
        } = done;
        let left = Left {
            scalars: &scalars,
            rows: &rows,
            input,
            printed: &printed,
        };
        self.finish(item, &left)
    }

    /// Closes an item with what its region did on the frame that was issued for it, where this is known. The error comes
    /// for want of memory.
    pub fn close_issued(&mut self, done: &Done<'_, '_, 'a>) -> Result<(), AllocError>
        requires { IsIssuedDone self.old done.now.region.now done.now.frame.now }
        ensures closed { OnOk result (self.new ≡ after self.old (event.Close done.now.frame.now.item)) }
        ensures unchanged { OnErr result (self.new ≡ self.old) }
    {
        let left = Left {
            scalars: &done.scalars,
            rows: &done.rows,
            input: done.input,
            printed: &done.printed,
        };
        self.finish(done.frame.item, &left)
    }

    /// Closes an item with what its region did on the frame that was issued for it. The error is `Stranger` where the
    /// item of the frame is not open, or the region or the frame is not the one that was issued, or `OutOfMemory`.
    pub fn close(&mut self, done: &Done<'_, '_, 'a>) -> Result<(), RunFault>
        ensures closed { OnOk result (self.new ≡ after self.old (event.Close done.now.frame.now.item)) }
        ensures issued { OnOk result (IsIssuedDone self.old done.now.region.now done.now.frame.now) }
        ensures fault { IfErr result (IsCloseFault self.old done.now.region.now done.now.frame.now) }
        ensures unchanged { OnErr result (self.new ≡ self.old) }
    {
        if !self.is_issued(done.region, done.frame) {
            return Err(RunFault::Stranger);
        }
        or_out_of_memory(self.close_issued(done))
    }
}
