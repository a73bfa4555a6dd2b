// An item on the host and on its device.

ghost use Rattle.std.specs.Prelude.{◌≡◌, ◌+◌, ◌<◌, ◌≤◌, ◌^◌, List, [], Some, true, false, length, IfOk, OnOk, IfNone, IfSome};
ghost use Rattle.base.specs.Items.{Work};
ghost use Rattle.base.specs.Current.{after_actions};
ghost use Rattle.outline.specs.Regions.{Entry};
ghost use Rattle.outline.specs.Shown.{shown};
ghost use Rattle.ranges.specs.Cells.{has};
ghost use Rattle.mapwalk.specs.Table.{blocks_of};
ghost use Rattle.mapwalk.specs.Causes.{IsFirstOf, region_causes};
ghost use Rattle.mapwalk.specs.Current.{IsStart, marks_in, row_lengths, with_cut};
ghost use Rattle.mapwalk.specs.Regions.{IsFootprintOf, IsWithin, region_actions};
ghost use Rattle.mapwalk.specs.Sides.{after_acts, shown_by};
ghost use Rattle.mapwalk.specs.Steps.{IsDoneHere, IsMarkable};

use crate::causes::{Cause, met_cause};
use crate::current::{act_all, cut_set, side_of};
use crate::marks::Marks;
use crate::region::{run_host, run_kernel};
use crate::rows::{Acts, Rows};
use crate::seen::Seen;
use crate::table::Blocks;
use base::item::{Item, ItemKind};
use ranges::{CellSet, Footprint};
use std::alloc::{AllocError, Global};

/// What comes of an item: a row for its map items, or why it is refused.
#[derive(Drop)]
pub enum Step {
    Done(Vec<Acts>),
    Refused(Cause),
}

// What the region of an item does on the host and its device, or why it is refused.
fn run_region(
    item: &Item,
    found: &Option<Footprint>,
    host: &mut [Marks],
    device: &mut [Marks],
) -> Option<Cause>
    requires few { length host.old < 2 ^ 32 }
    requires same { row_lengths host.old ≡ row_lengths device.old }
    requires within { IfSome found.now (IsWithin (row_lengths host.old)) }
    ensures cause { (entries : List Entry) (w : Work) → shown entries item.now ≡ Some w → IsFootprintOf w found.now → IsFirstOf (region_causes w (shown_by host.old device.old)) result }
    ensures current { (entries : List Entry) (w : Work) → shown entries item.now ≡ Some w → IsFootprintOf w found.now → IfNone result (shown_by host.new device.new ≡ after_actions (region_actions w) (shown_by host.old device.old)) }
    ensures host { row_lengths host.new ≡ row_lengths host.old }
    ensures device { row_lengths device.new ≡ row_lengths device.old }
{
    match item.kind {
        ItemKind::Host => run_host(found, item, host, device),
        ItemKind::Target => run_kernel(found, item, host, device),
        ItemKind::Begin
        | ItemKind::End
        | ItemKind::Enter
        | ItemKind::Exit
        | ItemKind::Update
        | ItemKind::Wait => None,
    }
}

// What an item whose map items do this does on the host and its device, or why its region is refused.
fn run_item(
    item: &Item,
    found: &Option<Footprint>,
    rows: &Rows,
    host: &mut [Marks],
    device: &mut [Marks],
) -> Option<Cause>
    requires few { length host.old < 2 ^ 32 }
    requires same { row_lengths host.old ≡ row_lengths device.old }
    requires within { IfSome found.now (IsWithin (row_lengths host.old)) }
    ensures cause { (entries : List Entry) (w : Work) → shown entries item.now ≡ Some w → IsFootprintOf w found.now → IsFirstOf (region_causes w (after_acts item.now.maps.items rows.now.before.items (shown_by host.old device.old))) result }
    ensures current { (entries : List Entry) (w : Work) → shown entries item.now ≡ Some w → IsFootprintOf w found.now → IfNone result (shown_by host.new device.new ≡ after_acts item.now.maps.items rows.now.after.items (after_actions (region_actions w) (after_acts item.now.maps.items rows.now.before.items (shown_by host.old device.old)))) }
    ensures host { row_lengths host.new ≡ row_lengths host.old }
    ensures device { row_lengths device.new ≡ row_lengths device.old }
{
    act_all(host, device, &item.maps, &rows.before);
    let cause = run_region(item, found, host, device);
    if cause.is_none() {
        act_all(host, device, &item.maps, &rows.after);
    }
    cause
}

/// A device: its blocks, and the marks of the cells that are current on it.
#[derive(Drop)]
pub struct DeviceState {
    pub blocks: Blocks,
    pub current: Vec<Marks>,
}

impl DeviceState {
    /// No block, and no current cell.
    pub fn new(alloc: Global, lengths: &[u32]) -> Result<DeviceState, AllocError>
        ensures blocks { IfOk result (λ d. blocks_of d.blocks ≡ []) }
        ensures entries { IfOk result (λ d. d.blocks.entries ≡ 0) }
        ensures lengths { IfOk result (λ d. row_lengths d.current.items ≡ lengths.now) }
        ensures current { IfOk result (λ d. IsStart lengths.now false d.current.items) }
    {
        Ok(DeviceState {
            blocks: Blocks::new(alloc),
            current: side_of(alloc, lengths, false)?,
        })
    }

    /// Takes the marks of cells away that another device's region may write.
    pub fn spoil(&mut self, cells: &CellSet)
        requires { IsMarkable (has cells.now) (row_lengths self.old.current.items) }
        ensures blocks { self.new.blocks ≡ self.old.blocks }
        ensures marks { marks_in self.new.current.items ≡ with_cut (has cells.now) (marks_in self.old.current.items) }
        ensures lengths { row_lengths self.new.current.items ≡ row_lengths self.old.current.items }
    {
        cut_set(&mut self.current, cells);
    }

    /// Does an item of this device whose region has this footprint, or says why it is refused.
    pub fn step(
        &mut self,
        alloc: Global,
        host: &mut [Marks],
        item: &Item,
        found: &Option<Footprint>,
    ) -> Result<Step, AllocError>
        requires room { self.old.blocks.entries + 2 ^ 64 < 2 ^ 128 }
        requires few { length host.old < 2 ^ 32 }
        requires same { row_lengths host.old ≡ row_lengths self.old.current.items }
        requires within { IfSome found.now (IsWithin (row_lengths host.old)) }
        ensures step { (entries : List Entry) (w : Work) → shown entries item.now ≡ Some w → IsFootprintOf w found.now → IfOk result (IsDoneHere w (blocks_of self.old.blocks) (blocks_of self.new.blocks) (shown_by host.old self.old.current.items) (shown_by host.new self.new.current.items)) }
        ensures entries { OnOk result (self.new.blocks.entries ≤ self.old.blocks.entries + 2 ^ 64) }
        ensures host { row_lengths host.new ≡ row_lengths host.old }
        ensures device { row_lengths self.new.current.items ≡ row_lengths self.old.current.items }
    {
        let mut seen = Seen::new();
        let rows = self.blocks.item(alloc, item, &mut seen)?;
        if let Some(cause) = met_cause(item.kind, &seen) {
            return Ok(Step::Refused(cause));
        }
        match run_item(item, found, &rows, host, &mut self.current) {
            Some(cause) => Ok(Step::Refused(cause)),
            None => Ok(Step::Done(rows.join(item.kind))),
        }
    }
}
