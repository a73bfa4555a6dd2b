// The start of a run.

ghost use Rattle.std.specs.Prelude.{◌≡◌, ◌<◌, ◌^◌, IfOk, length, replicate};
ghost use Rattle.base.specs.Items.{plan};
ghost use Rattle.device.specs.Devices.{HaveRoom, fresh_of};
ghost use Rattle.fine_machine.specs.Machine.{start};
ghost use Rattle.stepper.specs.Standing.{IsAt};

use crate::standing::{Slot, Standing};
use device::Devices;
use host_memory::Memory;
use kernel::Scalars;
use outline::Outlined;
use std::alloc::{AllocError, Global};
use taskgraph::Graph;

// Nothing, for each item.
fn nothing_kept<'p>(alloc: Global, count: usize) -> Result<Vec<Slot<'p>>, AllocError>
    ensures { IfOk result (λ slots. slots.items ≡ replicate count Slot.Nothing) }
{
    let mut slots = Vec::new(alloc);
    for _ in 0..count {
        slots.push(Slot::Nothing)?;
    }
    Ok(slots)
}

impl<'p> Standing<'p> {
    /// The start of a run, on zeros and empty devices, each with room for `capacity` cells. `order` picks among the
    /// turns of a kernel that may run in any order.
    pub fn new(
        alloc: Global,
        outlined: &Outlined<'_>,
        input: &'p [u64],
        order: &'p [u32],
        capacity: u64,
    ) -> Result<Standing<'p>, AllocError>
        ensures start { IfOk result (λ now. IsAt (plan outlined.now) now (start input.now)) }
        ensures capacity { IfOk result (λ now. HaveRoom now.devices capacity) }
        ensures order { IfOk result (λ now. now.order ≡ order.entry) }
        ensures number { IfOk result (λ now. fresh_of now.devices < 2 ^ 64) }
    {
        let items = outlined.items();
        let host = Memory::new(alloc, outlined.lengths())?;
        let graph = Graph::new(alloc, items)?;
        let slots = nothing_kept(alloc, items.len())?;
        let devices = Devices::new(alloc, capacity);
        Ok(Standing {
            host,
            devices,
            graph,
            ended: false,
            scalars: Scalars::zeros(alloc),
            input,
            output: Vec::new(alloc),
            slots,
            entered: 0,
            order,
        })
    }
}
