// Where an item is closed in a run.

ghost use Rattle.std.specs.Prelude.{◌≡◌, ◌<◌, false, true, OnOk, length};
ghost use Rattle.base.specs.declared.item.Event.TheVariants as event;
ghost use Rattle.taskgraph.specs.Board.{allows};
ghost use Rattle.stepper.specs.Standing.{FollowsOfKind, HasLeft};

use crate::standing::{Slot, Standing};
use actions::Control;
use base::item::ItemKind;
use kernel::Scalars;
use std::alloc::{AllocError, Global};
use std::mem::replace;

impl<'p> Standing<'p> {
    // What a host region did to the scalars and the input is the host's, and its numbers are printed.
    fn leave(
        &mut self,
        alloc: Global,
        kind: ItemKind,
        control: &Control<'p>,
    ) -> Result<(), AllocError>
        ensures left { OnOk result (HasLeft kind control.now self.old self.new) }
        ensures devices { self.new.devices ≡ self.old.devices }
        ensures order { self.new.order ≡ self.old.order }
    {
        match kind {
            ItemKind::Host => {
                let scalars = Scalars::new(alloc, &control.strand.scalars.all())?;
                self.output.extend_from_slice(&control.strand.printed)?;
                self.scalars = scalars;
                self.input = control.strand.input;
                Ok(())
            }
            ItemKind::Target => Ok(()),
            ItemKind::Begin => Ok(()),
            ItemKind::End => Ok(()),
            ItemKind::Enter => Ok(()),
            ItemKind::Exit => Ok(()),
            ItemKind::Update => Ok(()),
            ItemKind::Wait => Ok(()),
        }
    }

    /// Closes an item of which nothing is left: what a host region did to the scalars and the input is the host's, and
    /// its numbers are printed.
    pub fn close(&mut self, alloc: Global, kind: ItemKind, item: u32) -> Result<(), AllocError>
        requires here { allows self.old.graph (event.Close item) ≡ true }
        requires inside { item < length self.old.slots.items }
        requires going { self.old.ended ≡ false }
        ensures closed { OnOk result (FollowsOfKind kind item self.old (event.Close item) self.new) }
        ensures devices { self.new.devices ≡ self.old.devices }
        ensures order { self.new.order ≡ self.old.order }
    {
        let slot = replace(&mut self.slots[item as usize], Slot::Nothing);
        match &slot {
            Slot::Opened(control) => self.leave(alloc, kind, control)?,
            Slot::Captured(_) => {}
            Slot::Nothing => {}
        }
        self.graph.closed(item as usize);
        Ok(())
    }
}
