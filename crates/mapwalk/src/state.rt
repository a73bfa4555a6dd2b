// The items, one after the other.

ghost use Rattle.std.specs.Prelude.{◌≡◌, ◌+◌, ◌<◌, ◌≤◌, ◌^◌, ℕ, List, [], Some, true, length, map, filter, IfOk, OnOk, IfSome};
ghost use Rattle.std.specs.List.{range_with_len};
ghost use Rattle.base.specs.Meaning.{lengths_of};
ghost use Rattle.base.specs.Items.{Work};
ghost use Rattle.outline.specs.Regions.{Entry};
ghost use Rattle.outline.specs.Shown.{shown};
ghost use Rattle.ranges.specs.Cells.{has};
ghost use Rattle.mapwalk.specs.Current.{AreNotCurrent, IsStart, array_number, is_full_in, row_lengths};
ghost use Rattle.mapwalk.specs.Regions.{IsFootprintOf, IsWithin};
ghost use Rattle.mapwalk.specs.Steps.{AreAlike, AreMarkable, IsDone, current_of, entries_of, marks_of, spoiled, tables_of};

use crate::current::{full, side_of};
use crate::marks::Marks;
use crate::steps::{DeviceState, Step};
use base::item::Item;
use base::tree::ArrayId;
use outline::Outlined;
use ranges::{CellSet, Footprint};
use std::alloc::{AllocError, Global};

// How many devices there are.
const DEVICES: usize = 4;

/// The marks of the cells that are current on the host, and the devices.
#[derive(Drop)]
pub struct State {
    alloc: Global,
    pub host: Vec<Marks>,
    pub devices: Vec<DeviceState>,
    ghost count: { length devices.items ≡ 4 },
    ghost same: { AreAlike (row_lengths host.items) devices.items },
}

// Devices with no block and no current cell.
fn empty_devices(alloc: Global, lengths: &[u32]) -> Result<Vec<DeviceState>, AllocError>
    ensures count { IfOk result (λ devices. length devices.items ≡ 4) }
    ensures same { IfOk result (λ devices. AreAlike lengths.now devices.items) }
    ensures tables { IfOk result (λ devices. (d : ℕ) → tables_of devices.items d ≡ []) }
    ensures entries { IfOk result (λ devices. (d : ℕ) → entries_of devices.items d ≡ 0) }
    ensures current { IfOk result (λ devices. (d : ℕ) → AreNotCurrent lengths.now (marks_of devices.items d)) }
{
    let mut devices = Vec::new(alloc);
    'devices: for made in 0..DEVICES {
        devices.push(DeviceState::new(alloc, lengths)?)?;
    }
    Ok(devices)
}

// Takes the marks of cells away on each device but one.
fn spoil_others(devices: &mut [DeviceState], own: usize, cells: &CellSet)
    requires { AreMarkable (has cells.now) devices.old }
    ensures marks { marks_of devices.new ≡ spoiled own (has cells.now) (marks_of devices.old) }
    ensures tables { tables_of devices.new ≡ tables_of devices.old }
    ensures entries { entries_of devices.new ≡ entries_of devices.old }
    ensures count { length devices.new ≡ length devices.old }
    ensures same { (lengths : List ℕ) → AreAlike lengths devices.old → AreAlike lengths devices.new }
{
    'devices: for other in 0..devices.len() {
        if other != own {
            devices[other].spoil(cells);
        }
    }
}

impl State {
    /// No block, and every cell current on the host.
    pub fn new(alloc: Global, outlined: &Outlined<'_>) -> Result<State, AllocError>
        ensures tables { IfOk result (λ s. (d : ℕ) → tables_of s.devices.items d ≡ []) }
        ensures entries { IfOk result (λ s. (d : ℕ) → entries_of s.devices.items d ≡ 0) }
        ensures few { IfOk result (λ s. length s.host.items < 2 ^ 32) }
        ensures lengths { IfOk result (λ s. row_lengths s.host.items ≡ lengths_of outlined.now) }
        ensures host { IfOk result (λ s. IsStart (lengths_of outlined.now) true s.host.items) }
        ensures devices { IfOk result (λ s. (d : ℕ) → AreNotCurrent (lengths_of outlined.now) (marks_of s.devices.items d)) }
    {
        let lengths = outlined.lengths();
        Ok(State {
            alloc,
            host: side_of(alloc, lengths, true)?,
            devices: empty_devices(alloc, lengths)?,
        })
    }

    /// Does an item whose region has this footprint, or says why it is refused. On devices that are not the item's, what
    /// its region may write is not current then.
    pub fn step(&mut self, item: &Item, found: &Option<Footprint>) -> Result<Step, AllocError>
        requires room { (d : ℕ) → entries_of self.old.devices.items d + 2 ^ 64 < 2 ^ 128 }
        requires few { length self.old.host.items < 2 ^ 32 }
        requires within { IfSome found.now (IsWithin (row_lengths self.old.host.items)) }
        ensures step { (entries : List Entry) (w : Work) → shown entries item.now ≡ Some w → IsFootprintOf w found.now → IfOk result (IsDone w (tables_of self.old.devices.items) (tables_of self.new.devices.items) (current_of self.old.host.items self.old.devices.items) (current_of self.new.host.items self.new.devices.items)) }
        ensures entries { OnOk result ((d : ℕ) → entries_of self.new.devices.items d ≤ entries_of self.old.devices.items d + 2 ^ 64) }
        ensures lengths { row_lengths self.new.host.items ≡ row_lengths self.old.host.items }
    {
        let own = item.device.number as usize;
        let step = self.devices[own].step(self.alloc, &mut self.host, item, found)?;
        if let Some(found) = found {
            spoil_others(&mut self.devices, own, &found.write);
        }
        Ok(step)
    }

    /// The arrays of which each cell is current on the host.
    pub fn current(&self) -> Result<Vec<ArrayId>, AllocError>
        requires { length self.now.host.items < 2 ^ 32 }
        ensures { IfOk result (λ full. map array_number full.items ≡ filter (is_full_in self.now.host.items) (range_with_len 0 (length self.now.host.items))) }
    {
        full(self.alloc, &self.host)
    }
}
