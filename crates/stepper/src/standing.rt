// Where a run stands, and the events that take no action.

ghost use Rattle.std.specs.Prelude.{◌≡◌, ◌<◌, ◌≤◌, ◌^◌, true, false, [], IfOk, OnOk, length, map};
ghost use Rattle.base.specs.Items.{plan};
ghost use Rattle.base.specs.declared.item.Event.TheVariants as event;
ghost use Rattle.fine_machine.specs.Machine.{start};
ghost use Rattle.taskgraph.specs.Board.{allows};
ghost use Rattle.device.specs.Devices.{HaveRoom, fresh_of};
ghost use Rattle.stepper.specs.Standing.{FailsAt, Follows, IsAt};

use actions::Control;
use device::Devices;
use host_memory::Memory;
use kernel::Scalars;
use outline::Outlined;
use std::alloc::{AllocError, Global};
use taskgraph::Graph;

/// What is kept for an item: nothing, the scalars that it captured, or what is left of it.
#[derive(Drop)]
pub enum Slot<'p> {
    Nothing,
    Captured(Scalars),
    Opened(Control<'p>),
}

/// Where a run stands: the host memory and the storage of each device, the order of the items, the scalars, the input
/// that is left, the numbers that were printed, what is kept for each item, how many map items were entered, and the
/// numbers by which the turns of a kernel go on that may run in any order.
#[derive(Drop)]
pub struct Standing<'p> {
    pub host: Memory,
    pub devices: Devices,
    pub graph: Graph,
    pub ended: bool,
    pub scalars: Scalars,
    pub input: &'p [u64],
    pub output: Vec<u64>,
    pub slots: Vec<Slot<'p>>,
    pub entered: u64,
    pub order: &'p [u32],
}

impl<'p> Standing<'p> {
    /// The host generates the item at which it stands: the scalars are captured, and the host moves on.
    pub fn generate(&mut self, alloc: Global, item: u32) -> Result<(), AllocError>
        requires here { allows self.old.graph (event.Gen item) ≡ true }
        requires inside { item < length self.old.slots.items }
        requires going { self.old.ended ≡ false }
        ensures generated { OnOk result (Follows self.old (event.Gen item) self.new) }
        ensures devices { self.new.devices ≡ self.old.devices }
        ensures order { self.new.order ≡ self.old.order }
    {
        let captured = self.scalars.copy(alloc)?;
        self.slots[item as usize] = Slot::Captured(captured);
        self.graph.generate(item as usize);
        Ok(())
    }

    /// The host passes the wait at which it stands.
    pub fn pass(&mut self, item: u32)
        requires here { allows self.old.graph (event.Wait item) ≡ true }
        requires going { self.old.ended ≡ false }
        ensures passed { Follows self.old (event.Wait item) self.new }
        ensures devices { self.new.devices ≡ self.old.devices }
        ensures order { self.new.order ≡ self.old.order }
    {
        self.graph.waited(item as usize);
    }

    /// The host comes to the end.
    pub fn end(&mut self)
        requires { self.old.ended ≡ false }
        ensures ended { Follows self.old event.End self.new }
        ensures devices { self.new.devices ≡ self.old.devices }
        ensures order { self.new.order ≡ self.old.order }
    {
        self.ended = true;
    }
}
