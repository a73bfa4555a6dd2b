// What items do to the history of a cell.

ghost use Rattle.std.specs.Prelude.{◌≡◌, ◌<◌, ◌≤◌, ℕ, IfOk, OnOk, Some, length, min};
ghost use Rattle.base.specs.Current.{AllCurrent, after_stage};
ghost use Rattle.base.specs.Items.{Work, plan};
ghost use Rattle.base.specs.Memory.{is_in};
ghost use Rattle.base.specs.declared.item.ItemKind.TheVariants as kind;
ghost use Rattle.mapwalk.specs.Found.{all_found};
ghost use Rattle.mapwalk.specs.Footprints.{AreFootprints};
ghost use Rattle.mapwalk.specs.Regions.{IsFootprintOf};
ghost use Rattle.outline.specs.Regions.{Entry};
ghost use Rattle.outline.specs.Shown as works;
ghost use Rattle.history.specs.Places.{IsSide, Places, at_cell, shown};
ghost use Rattle.history.specs.Since.{AreSince, IsHistory};
ghost use Rattle.history.specs.Moves.{acted, all_acted, entered, left, ran_found, spoiled_found, stepped, stepped_here, updated};
ghost use Rattle.history.specs.Items.{AreSpelled, spelled};

use crate::{History, How, Side};
use base::item::{Cell, Item, ItemKind, MapItem, Section};
use mapwalk::{Acts, Footprints};
use outline::Outlined;
use ranges::Footprint;
use std::alloc::{AllocError, Global};

// What is done with a map item.
#[derive(Clone, Copy)]
enum Part {
    Entry,
    Exit,
    Update,
}

// Whether a section has a cell.
fn has_cell(section: &Section, cell: Cell) -> bool
    ensures { result ≡ is_in cell section.now }
{
    cell.array.0 == section.array.0
        && section.first <= cell.index
        && cell.index - section.first < section.length
}

impl History {
    /// What one map item, of that place in its list, does before the region.
    pub fn enter(
        &mut self,
        number: u32,
        device: Side,
        place: usize,
        section: &Section,
        acts: &Acts,
    ) -> Result<(), AllocError>
        requires { IsSide device }
        ensures shown { OnOk result (shown self.new ≡ entered device self.old.cell section.now acts.now (shown self.old)) }
        ensures since { OnOk result ((past : ℕ → Places) → AreSince past number self.old → AreSince past number self.new) }
        ensures cell { self.new.cell ≡ self.old.cell }
    {
        let creates = acts.creates && has_cell(&acts.block, self.cell);
        self.spoil_if(creates, number, device, How::Created(place))?;
        let copies = acts.copies_in && has_cell(section, self.cell);
        self.copy_if(copies, number, place, Side::Host, device)
    }

    // What one map item does after the region.
    fn leave(
        &mut self,
        number: u32,
        device: Side,
        place: usize,
        section: &Section,
        acts: &Acts,
    ) -> Result<(), AllocError>
        requires { IsSide device }
        ensures shown { OnOk result (shown self.new ≡ left device self.old.cell section.now acts.now (shown self.old)) }
        ensures since { OnOk result ((past : ℕ → Places) → AreSince past number self.old → AreSince past number self.new) }
        ensures cell { self.new.cell ≡ self.old.cell }
    {
        let copies = acts.copies_out && has_cell(section, self.cell);
        self.copy_if(copies, number, place, device, Side::Host)?;
        let removes = acts.removes && has_cell(&acts.block, self.cell);
        self.spoil_if(removes, number, device, How::Removed(place))
    }

    // One section of an update.
    fn update(
        &mut self,
        number: u32,
        device: Side,
        place: usize,
        section: &Section,
        acts: &Acts,
    ) -> Result<(), AllocError>
        requires { IsSide device }
        ensures shown { OnOk result (shown self.new ≡ updated device self.old.cell section.now acts.now (shown self.old)) }
        ensures since { OnOk result ((past : ℕ → Places) → AreSince past number self.old → AreSince past number self.new) }
        ensures cell { self.new.cell ≡ self.old.cell }
    {
        let copies_in = acts.copies_in && has_cell(section, self.cell);
        self.copy_if(copies_in, number, place, Side::Host, device)?;
        let copies_out = acts.copies_out && has_cell(section, self.cell);
        self.copy_if(copies_out, number, place, device, Side::Host)
    }

    fn act(
        &mut self,
        number: u32,
        part: Part,
        device: Side,
        place: usize,
        section: &Section,
        acts: &Acts,
    ) -> Result<(), AllocError>
        requires { IsSide device }
        ensures shown { OnOk result (shown self.new ≡ acted part device self.old.cell section.now acts.now (shown self.old)) }
        ensures since { OnOk result ((past : ℕ → Places) → AreSince past number self.old → AreSince past number self.new) }
        ensures cell { self.new.cell ≡ self.old.cell }
    {
        match part {
            Part::Entry => self.enter(number, device, place, section, acts),
            Part::Exit => self.leave(number, device, place, section, acts),
            Part::Update => self.update(number, device, place, section, acts),
        }
    }

    // What map items do, in turn.
    fn act_all(
        &mut self,
        number: u32,
        part: Part,
        device: Side,
        maps: &[MapItem],
        row: &[Acts],
    ) -> Result<(), AllocError>
        requires { IsSide device }
        ensures shown { OnOk result (shown self.new ≡ all_acted part device self.old.cell maps.now row.now (shown self.old)) }
        ensures since { OnOk result ((past : ℕ → Places) → AreSince past number self.old → AreSince past number self.new) }
        ensures cell { self.new.cell ≡ self.old.cell }
    {
        'maps: for i in 0..maps.len().min(row.len()) {
            self.act(number, part, device, i, &maps[i].section, &row[i])?;
        }
        Ok(())
    }

    fn run_found(
        &mut self,
        number: u32,
        side: Side,
        device: u8,
        found: &Option<Footprint>,
    ) -> Result<(), AllocError>
        requires { device < 4 }
        ensures shown { OnOk result (shown self.new ≡ ran_found side device self.old.cell found.now (shown self.old)) }
        ensures since { OnOk result ((past : ℕ → Places) → AreSince past number self.old → AreSince past number self.new) }
        ensures cell { self.new.cell ≡ self.old.cell }
    {
        match found {
            None => Ok(()),
            Some(found) => self.run(number, side, device, found),
        }
    }

    fn spoil_found(
        &mut self,
        number: u32,
        device: u8,
        side: Side,
        found: &Option<Footprint>,
    ) -> Result<(), AllocError>
        ensures shown { OnOk result (shown self.new ≡ spoiled_found device self.old.cell found.now (shown self.old)) }
        ensures since { OnOk result ((past : ℕ → Places) → AreSince past number self.old → AreSince past number self.new) }
        ensures cell { self.new.cell ≡ self.old.cell }
    {
        match found {
            None => Ok(()),
            Some(found) => {
                let writes = found.write.contains(self.cell);
                self.spoil_others_if(writes, number, device, side)
            }
        }
    }

    // A target, on the host and its device.
    fn do_target(
        &mut self,
        number: u32,
        device: u8,
        maps: &[MapItem],
        row: &[Acts],
        found: &Option<Footprint>,
    ) -> Result<(), AllocError>
        requires { device < 4 }
        ensures shown { OnOk result (shown self.new ≡ stepped_here kind.Target device self.old.cell maps.now row.now found.now (shown self.old)) }
        ensures since { OnOk result ((past : ℕ → Places) → AreSince past number self.old → AreSince past number self.new) }
        ensures cell { self.new.cell ≡ self.old.cell }
    {
        let side = Side::Device(device);
        self.act_all(number, Part::Entry, side, maps, row)?;
        self.run_found(number, side, device, found)?;
        self.act_all(number, Part::Exit, side, maps, row)
    }

    // An item, on the host and its device.
    fn do_here(
        &mut self,
        number: u32,
        item: &Item,
        row: &[Acts],
        found: &Option<Footprint>,
    ) -> Result<(), AllocError>
        ensures shown { OnOk result (shown self.new ≡ stepped_here item.now.kind item.now.device.number self.old.cell item.now.maps.items row.now found.now (shown self.old)) }
        ensures since { OnOk result ((past : ℕ → Places) → AreSince past number self.old → AreSince past number self.new) }
        ensures cell { self.new.cell ≡ self.old.cell }
    {
        let device = item.device.number;
        let side = Side::Device(device);
        let maps = item.maps.as_slice();
        match item.kind {
            ItemKind::Host => self.run_found(number, Side::Host, device, found),
            ItemKind::Target => self.do_target(number, device, maps, row, found),
            ItemKind::Begin | ItemKind::Enter => {
                self.act_all(number, Part::Entry, side, maps, row)
            }
            ItemKind::End | ItemKind::Exit => self.act_all(number, Part::Exit, side, maps, row),
            ItemKind::Update => self.act_all(number, Part::Update, side, maps, row),
            ItemKind::Wait => Ok(()),
        }
    }

    // An item.
    fn step(
        &mut self,
        number: u32,
        item: &Item,
        row: &[Acts],
        found: &Option<Footprint>,
    ) -> Result<(), AllocError>
        ensures shown { OnOk result (shown self.new ≡ stepped item.now.kind item.now.device.number self.old.cell item.now.maps.items row.now found.now (shown self.old)) }
        ensures since { OnOk result ((past : ℕ → Places) → AreSince past number self.old → AreSince past number self.new) }
        ensures cell { self.new.cell ≡ self.old.cell }
    {
        self.do_here(number, item, row, found)?;
        let side = match item.kind {
            ItemKind::Host => Side::Host,
            _ => Side::Device(item.device.number),
        };
        self.spoil_found(number, item.device.number, side, found)
    }
}

/// The history of a cell before an item, whose number is `until`. The rows say what the map items of the items before it
/// do. The error comes where an allocation fails.
pub fn history_of(
    alloc: Global,
    outlined: &Outlined<'_>,
    acts: &[Vec<Acts>],
    found: &Footprints,
    cell: Cell,
    until: usize,
) -> Result<History, AllocError>
    requires spelled { AreSpelled (plan outlined.now) acts.now }
    requires rows { until ≤ length acts.now }
    requires items { until ≤ length (plan outlined.now).items }
    requires found { AreFootprints (plan outlined.now) (all_found found.now) }
    ensures { IfOk result (IsHistory (plan outlined.now) cell until) }
{
    let mut history = History::new(alloc, cell)?;
    let items = outlined.items();
    'items: for number in 0..until {
        history.step(
            number as u32,
            &items[number],
            &acts[number],
            found.get(number),
        )?;
    }
    Ok(history)
}
