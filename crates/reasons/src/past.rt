// What the items before one that is refused did.

ghost use Rattle.std.specs.Prelude.{◌≡◌, ℕ, IfOk, IfSome, OnOk, slice_get};
ghost use Rattle.base.specs.Actions.{stages};
ghost use Rattle.base.specs.Items.{plan};
ghost use Rattle.mapcheck.specs.Unordered.{AreAccessesOf};
ghost use Rattle.history.specs.Places.{Places, before};
ghost use Rattle.history.specs.Since.{AreSince, IsHistory};
ghost use Rattle.mapwalk.specs.Footprints.{AreFootprints};
ghost use Rattle.mapwalk.specs.Found.{all_found};
ghost use Rattle.reasons.specs.Past.{IsItem};
ghost use Rattle.mapwalk.specs.Walk.{AreActs, HasNoRangeFault, IsFirstRefusal, IsSound};

use crate::scene::{has_cell, is_same};
use base::item::{Cell, Item, MapItem, MapKind, Section};
use history::{History, Side, history_of};
use mapcheck::accesses::Accesses;
use mapwalk::{Acts, Footprints, Walked};
use outline::Outlined;
use ranges::Footprint;
use std::alloc::{AllocError, Global};
use std::marker::Model;

/// What the walk found of the items before the first that is refused by itself, and the footprint of each item.
#[derive(Drop)]
pub struct Past<'a> {
    outlined: &'a Outlined<'a>,
    found: &'a Footprints,
    acts: &'a [Vec<Acts>],
}

impl<'a> Model for Past<'a> {
    ghost use Rattle.base.specs.declared.tree.Program.{Program};
    ghost use Rattle.base.specs.contracts.tree.Program as code;
    ghost use Rattle.base.specs.Items.{plan};
    ghost use Rattle.mapwalk.specs.Found.{all_found};
    ghost use Rattle.reasons.specs.Past.{IsPast};

    ghost Value = { Program };

    ghost coded = { code.the_row.coded };

    ghost view = { λ p. p.outlined.now };

    ghost invariant = { λ p. IsPast (plan p.outlined.now) p.acts.now (all_found p.found.now) };
}

/// A block of a device, and the item and the map item that created it.
#[derive(Clone, Copy)]
pub struct Entered {
    pub section: Section,
    pub item: u32,
    pub map: usize,
}

/// Whether a map type copies to the device.
pub fn copies_to(kind: MapKind) -> bool {
    matches!(kind, MapKind::To | MapKind::ToFrom)
}

/// Whether a map type copies to the host.
pub fn copies_from(kind: MapKind) -> bool {
    matches!(kind, MapKind::From | MapKind::ToFrom)
}

// Adds the blocks that an item creates, and takes those away that it removes.
fn update_blocks(blocks: &mut Vec<Entered>, number: u32, row: &[Acts]) -> Result<(), AllocError> {
    'row: for (map, acts) in row.iter().enumerate() {
        if acts.creates {
            blocks.push(Entered {
                section: acts.block,
                item: number,
                map,
            })?;
        }
        if acts.removes {
            let gone = acts.block;
            blocks.retain(|entered| !is_same(&entered.section, &gone));
        }
    }
    Ok(())
}

// What a map item of a target that is refused does before its region, where the cell is present on the device or not.
fn entry(map: &MapItem, present: bool) -> Acts {
    Acts {
        block: map.section,
        creates: !present,
        copies_in: copies_to(map.kind) && (map.always || !present),
        copies_out: false,
        removes: false,
        rests: present,
    }
}

impl<'a> Past<'a> {
    pub fn new(outlined: &'a Outlined<'a>, found: &'a Footprints, walked: &'a Walked) -> Past<'a>
        requires fine { HasNoRangeFault (plan outlined.now) }
        requires found { AreFootprints (plan outlined.now) (all_found found.now) }
        requires acts { AreActs (plan outlined.now) walked.now }
        requires fault { IsFirstRefusal (plan outlined.now) walked.now.fault }
        requires sound { IsSound (plan outlined.now) walked.now.fault }
        ensures { result ≡ outlined.now }
    {
        Past {
            outlined,
            found,
            acts: &walked.acts,
        }
    }

    pub fn item(&self, number: u32) -> Option<&'a Item>
        ensures { IfSome result (λ item. IsItem (plan self.now) number item.now) }
    {
        self.outlined.items().get(number as usize)
    }

    /// What the map items of an item do.
    pub fn row(&self, number: usize) -> Option<&'a [Acts]> {
        Some(self.acts.get(number)?.as_slice())
    }

    /// The footprint of the region of an item.
    pub fn footprint(&self, number: usize) -> Option<&'a Footprint> {
        if number < self.found.len() {
            self.found.get(number).as_ref()
        } else {
            None
        }
    }

    /// The history of a cell before an item; none of an item that was not reached.
    pub fn history(
        &self,
        alloc: Global,
        cell: Cell,
        until: u32,
    ) -> Result<Option<History>, AllocError>
        ensures { IfOk result (λ o. IfSome o (IsHistory (plan self.now) cell until)) }
    {
        if until as usize > self.acts.len() {
            return Ok(None);
        }
        Ok(Some(history_of(
            alloc,
            self.outlined,
            self.acts,
            self.found,
            cell,
            until as usize,
        )?))
    }

    /// The history of a cell up to where the region of an item that is refused begins.
    pub fn history_in(
        &self,
        alloc: Global,
        cell: Cell,
        number: u32,
        item: &Item,
    ) -> Result<Option<History>, AllocError>
        ensures { IfOk result (λ o. IfSome o (AreSince (before (plan self.now) cell) number)) }
    {
        let Some(mut history) = self.history(alloc, cell, number)? else {
            return Ok(None);
        };
        let device = item.device.number;
        let present = block_with(&self.blocks(alloc, device, number)?, cell).is_some();
        enter_all(&mut history, number, item, present)?;
        Ok(Some(history))
    }

    /// The blocks of a device before an item.
    pub fn blocks(
        &self,
        alloc: Global,
        device: u8,
        until: u32,
    ) -> Result<Vec<Entered>, AllocError> {
        let mut blocks = Vec::new(alloc);
        let items = self.outlined.items();
        'items: for (number, row) in self.acts.iter().enumerate() {
            if number >= until as usize || number >= items.len() {
                return Ok(blocks);
            }
            if items[number].device.number == device {
                update_blocks(&mut blocks, number as u32, row)?;
            }
        }
        Ok(blocks)
    }

    /// What an item that was reached reads and writes.
    pub fn accesses_of(
        &self,
        alloc: Global,
        number: u32,
    ) -> Result<Option<Accesses<'a>>, AllocError>
        ensures { IfOk result (λ o. IfSome o (AreAccessesOf (slice_get (stages (plan self.now)) number))) }
    {
        let number = number as usize;
        if number >= self.acts.len() {
            return Ok(None);
        }
        let item = &self.outlined.items()[number];
        let accesses = Accesses::of_item(alloc, item, &self.acts[number], self.found.get(number))?;
        Ok(Some(accesses))
    }

    /// What the items read and write.
    pub fn accesses(&self, alloc: Global) -> Result<Vec<Accesses<'a>>, AllocError> {
        let mut all = Vec::new(alloc);
        let (items, found) = (self.outlined.items(), self.found);
        'rows: for (number, row) in self.acts.iter().enumerate() {
            if number >= items.len() || number >= found.len() {
                return Ok(all);
            }
            all.push(Accesses::of_item(alloc, &items[number], row, found.get(number))?)?;
        }
        Ok(all)
    }

    /// The last item before another one that removed a cell from a device, and the map item by which it did.
    pub fn last_removal(&self, device: u8, cell: Cell, until: u32) -> Option<(u32, usize)> {
        let mut last = None;
        let items = self.outlined.items();
        'items: for (number, row) in self.acts.iter().enumerate() {
            if number >= until as usize || number >= items.len() {
                return last;
            }
            if items[number].device.number == device {
                if let Some(map) = removed_in(row, cell) {
                    last = Some((number as u32, map));
                }
            }
        }
        last
    }
}

// What the map items of a target do before its region.
fn enter_all(
    history: &mut History,
    number: u32,
    item: &Item,
    present: bool,
) -> Result<(), AllocError>
    ensures { OnOk result ((past : ℕ → Places) → AreSince past number history.old → AreSince past number history.new) }
{
    let device = Side::Device(item.device.number);
    'maps: for (place, map) in item.maps.as_slice().iter().enumerate() {
        history.enter(number, device, place, &map.section, &entry(map, present))?;
    }
    Ok(())
}

/// The map item by which a cell is removed.
pub fn removed_in(row: &[Acts], cell: Cell) -> Option<usize> {
    'row: for (map, acts) in row.iter().enumerate() {
        if acts.removes && has_cell(&acts.block, cell) {
            return Some(map);
        }
    }
    None
}

/// The block that has a cell.
pub fn block_with(blocks: &[Entered], cell: Cell) -> Option<Entered> {
    'blocks: for entered in blocks {
        if has_cell(&entered.section, cell) {
            return Some(*entered);
        }
    }
    None
}
