// Any event of a run.

ghost use Rattle.std.specs.Prelude.{◌≡◌, ℕ, IfErr, OnOk};
ghost use Rattle.base.specs.Items.{plan};
ghost use Rattle.device.specs.Devices.{AreKept, HaveRoom};
ghost use Rattle.mapwalk.specs.Walk.{HasNoRangeFault};
ghost use Rattle.outline.specs.Regions.{entries_of};
ghost use Rattle.actions.specs.Opening.{IsRegion};
ghost use Rattle.stepper.specs.Opening.{region_in};
ghost use Rattle.stepper.specs.Taking.{Does, IsAble, IsTakeFault};

use crate::standing::Standing;
use base::fault::RunFault;
use base::item::{Event, Item};
use base::tree::Region;
use outline::Outlined;
use std::alloc::Global;

// The region of an item.
fn region_of<'p>(outlined: &'p Outlined<'p>, it: &Item) -> Option<&'p Region>
    ensures { IsRegion result (region_in (entries_of outlined.now) it.now) }
{
    let number = it.region?;
    let entry = outlined.regions().get(number as usize)?;
    Some(entry.region)
}

/// Does an event that may happen next. The error is `DeviceFull` where an action would create more cells than its device
/// has room for, `Absent` where the event fails, or `OutOfMemory`.
pub fn take<'p>(
    alloc: Global,
    outlined: &'p Outlined<'p>,
    standing: &mut Standing<'p>,
    event: Event,
) -> Result<(), RunFault>
    requires fine { HasNoRangeFault (plan outlined.now) }
    requires able { IsAble (plan outlined.now) standing.old event }
    ensures done { OnOk result (Does (plan outlined.now) standing.old event standing.new) }
    ensures fault { (capacity : ℕ) → HaveRoom standing.old.devices capacity → IfErr result (IsTakeFault capacity (plan outlined.now) standing.old event) }
    ensures kept { AreKept standing.old.devices standing.new.devices }
    ensures order { standing.new.order ≡ standing.old.order }
{
    match event {
        Event::Gen(item) => match standing.generate(alloc, item) {
            Ok(()) => Ok(()),
            Err(_) => Err(RunFault::OutOfMemory),
        },
        Event::Open(item) => {
            let it = &outlined.items()[item as usize];
            standing.open(alloc, it, region_of(outlined, it), item)
        }
        Event::Step(item) => {
            if !standing.is_acting(item) {
                unreachable!()
            }
            let it = &outlined.items()[item as usize];
            standing.step(it.device, item)
        }
        Event::Close(item) => {
            let it = &outlined.items()[item as usize];
            match standing.close(alloc, it.kind, item) {
                Ok(()) => Ok(()),
                Err(_) => Err(RunFault::OutOfMemory),
            }
        }
        Event::Wait(item) => {
            standing.pass(item);
            Ok(())
        }
        Event::End => {
            standing.end();
            Ok(())
        }
    }
}
