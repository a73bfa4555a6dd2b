// A single action of an open item in a run.

ghost use Rattle.std.specs.Prelude.{◌≡◌, ◌+◌, ◌<◌, ◌^◌, ℕ, false, true, IfErr, IfOk, OnErr, OnOk, length, slice_get};
ghost use Rattle.device.specs.Devices.{AreKept, HaveRoom, OnTable};
ghost use Rattle.actions.specs.Acting.{CountsOn, FitsIn, InHost, IsActFault, OnEntry};
ghost use Rattle.actions.specs.Strand.{HasSection};
ghost use Rattle.stepper.specs.Standing.{ActsOn, FollowsOn, HasCounted, HasRoomAt, IsActing, IsAtRest, IsReady, IsShown, IsStepFault};

use crate::standing::{Slot, Standing};
use actions::{Action, Given, act};
use base::fault::RunFault;
use base::tree::DeviceId;
use device::Devices;
use host_memory::Memory;
use std::mem::replace;

// Does an action on the host memory and a device.
fn act_on(
    devices: &mut Devices,
    host: &mut Memory,
    device: DeviceId,
    on_host: bool,
    action: Action,
) -> Result<Given, RunFault>
    requires section { HasSection action }
    requires inside { InHost action host.old }
    requires counts { OnTable devices.old device.number (CountsOn action) }
    ensures done { IfOk result (λ r. ActsOn device.number on_host action r devices.old host.old devices.new host.new) }
    ensures room { OnOk result (OnTable devices.old device.number (FitsIn action)) }
    ensures fault { IfErr result (λ f. OnTable devices.old device.number (λ t. IsActFault on_host action t host.old f)) }
    ensures kept { AreKept devices.old devices.new }
{
    act(
        &mut devices.tables[device.number as usize],
        host,
        on_host,
        action,
    )
}

impl<'p> Standing<'p> {
    /// Whether an item is open and an action comes next for it.
    pub fn is_acting(&self, item: u32) -> bool
        ensures acting { result ≡ true → IsActing (slice_get self.now.slots.items item) }
        ensures rest { result ≡ false → IsAtRest (slice_get self.now.slots.items item) }
    {
        match self.slots.get(item as usize) {
            Some(Slot::Opened(control)) => control.next().is_some(),
            Some(Slot::Captured(_)) => false,
            Some(Slot::Nothing) => false,
            None => false,
        }
    }

    // An entry is counted before it is done.
    fn count(&mut self, action: Action) -> Result<(), RunFault>
        ensures counted { OnOk result (HasCounted action self.old self.new) }
        ensures fits { OnOk result (OnEntry action (λ item. self.old.entered + 1 < 2 ^ 64)) }
        ensures unchanged { OnErr result (self.new ≡ self.old) }
        ensures fault { IfErr result (λ f. f ≡ RunFault.OutOfMemory) }
    {
        if let Action::Enter(_) = action {
            if self.entered == u64::MAX {
                return Err(RunFault::OutOfMemory);
            }
            self.entered += 1;
        }
        Ok(())
    }

    /// Does the next action of an open item on the host memory and its device. The error is `DeviceFull` where an entry
    /// would create more cells than the device has room for, `Absent` where the action fails, or `OutOfMemory`.
    pub fn step(&mut self, device: DeviceId, item: u32) -> Result<(), RunFault>
        requires inside { item < length self.old.slots.items }
        requires ready { IsReady (slice_get self.old.slots.items item) }
        requires acting { IsActing (slice_get self.old.slots.items item) }
        requires going { self.old.ended ≡ false }
        requires shown { IsShown device.number item self.old }
        ensures stepped { OnOk result (FollowsOn device.number item self.old self.new) }
        ensures room { (capacity : ℕ) → HaveRoom self.old.devices capacity → OnOk result (HasRoomAt capacity device.number item self.old false) }
        ensures fault { (capacity : ℕ) → HaveRoom self.old.devices capacity → IfErr result (IsStepFault capacity device.number item self.old) }
        ensures kept { AreKept self.old.devices self.new.devices }
        ensures order { self.new.order ≡ self.old.order }
    {
        let slot = replace(&mut self.slots[item as usize], Slot::Nothing);
        let Slot::Opened(mut control) = slot else {
            unreachable!()
        };
        let Some(action) = control.next() else {
            unreachable!()
        };
        self.count(action)?;
        let given = act_on(
            &mut self.devices,
            &mut self.host,
            device,
            control.on_host(),
            action,
        )?;
        match control.proceed(given) {
            Ok(()) => {
                self.slots[item as usize] = Slot::Opened(control);
                Ok(())
            }
            Err(_) => Err(RunFault::OutOfMemory),
        }
    }
}
