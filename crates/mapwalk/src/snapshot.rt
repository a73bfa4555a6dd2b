// What the state is at an item, kept to be compared with the state at a later one.

ghost use Rattle.std.specs.Prelude.{◌≡◌, IfOk, map, true};
ghost use Rattle.bits.specs.Sets.{has};
ghost use Rattle.mapwalk.specs.Heads.{IsSnapshotOf, device_parts, shot_parts};
ghost use Rattle.mapwalk.specs.Marks.{has_mark};

use crate::blocks::Block;
use crate::marks::Marks;
use crate::state::State;
use crate::steps::DeviceState;
use bits::BitSet;
use std::alloc::{AllocError, Global};

/// The blocks of a device, and the marked cells of each array.
#[derive(Drop)]
pub struct DeviceShot {
    pub blocks: Vec<Block>,
    pub current: Vec<BitSet>,
}

/// The marked cells of each array on the host, and the devices.
#[derive(Drop)]
pub struct Snapshot {
    pub host: Vec<BitSet>,
    pub devices: Vec<DeviceShot>,
}

fn copy_of_side(alloc: Global, side: &[Marks]) -> Result<Vec<BitSet>, AllocError>
    ensures { IfOk result (λ copy. map has copy.items ≡ map has_mark side.now) }
{
    let mut copy = Vec::new(alloc);
    'arrays: for marks in side {
        copy.push(marks.cells.clone()?)?;
    }
    Ok(copy)
}

fn copy_of_device(alloc: Global, device: &DeviceState) -> Result<DeviceShot, AllocError>
    ensures { IfOk result (λ copy. shot_parts copy ≡ device_parts device.now) }
{
    let blocks = Vec::from_slice(alloc, &device.blocks.blocks)?;
    let current = copy_of_side(alloc, &device.current)?;
    Ok(DeviceShot { blocks, current })
}

fn copy_of_devices(alloc: Global, devices: &[DeviceState]) -> Result<Vec<DeviceShot>, AllocError>
    ensures { IfOk result (λ copy. map shot_parts copy.items ≡ map device_parts devices.now) }
{
    let mut copy = Vec::new(alloc);
    'devices: for device in devices {
        copy.push(copy_of_device(alloc, device)?)?;
    }
    Ok(copy)
}

fn is_same_set(kept: &BitSet, marks: &Marks) -> bool
    ensures { result ≡ true → has kept.now ≡ has_mark marks.now }
{
    kept.first_not_in(&marks.cells).is_none() && marks.cells.first_not_in(kept).is_none()
}

fn is_same_side(kept: &[BitSet], side: &[Marks]) -> bool
    ensures { result ≡ true → map has kept.now ≡ map has_mark side.now }
{
    if kept.len() != side.len() {
        return false;
    }
    'arrays: for array in 0..kept.len() {
        if !is_same_set(&kept[array], &side[array]) {
            return false;
        }
    }
    true
}

fn is_same_block(left: &Block, right: &Block) -> bool
    ensures { result ≡ true → left.now ≡ right.now }
{
    left.section == right.section && left.count == right.count
}

fn are_same_blocks(left: &[Block], right: &[Block]) -> bool
    ensures { result ≡ true → left.now ≡ right.now }
{
    if left.len() != right.len() {
        return false;
    }
    'each: for i in 0..left.len() {
        if !is_same_block(&left[i], &right[i]) {
            return false;
        }
    }
    true
}

fn is_same_device(kept: &DeviceShot, device: &DeviceState) -> bool
    ensures { result ≡ true → shot_parts kept.now ≡ device_parts device.now }
{
    are_same_blocks(&kept.blocks, &device.blocks.blocks)
        && is_same_side(&kept.current, &device.current)
}

fn are_same_devices(kept: &[DeviceShot], devices: &[DeviceState]) -> bool
    ensures { result ≡ true → map shot_parts kept.now ≡ map device_parts devices.now }
{
    if kept.len() != devices.len() {
        return false;
    }
    'devices: for i in 0..kept.len() {
        if !is_same_device(&kept[i], &devices[i]) {
            return false;
        }
    }
    true
}

impl Snapshot {
    /// A copy of the blocks, their counts and the marks.
    pub fn new(alloc: Global, state: &State) -> Result<Snapshot, AllocError>
        ensures { IfOk result (λ s. IsSnapshotOf s state.now) }
    {
        Ok(Snapshot {
            host: copy_of_side(alloc, &state.host)?,
            devices: copy_of_devices(alloc, &state.devices)?,
        })
    }

    /// Whether the state has these blocks, with the same counts, and these marks.
    pub fn is_of(&self, state: &State) -> bool
        ensures { result ≡ true → IsSnapshotOf self.now state.now }
    {
        are_same_devices(&self.devices, &state.devices) && is_same_side(&self.host, &state.host)
    }
}
