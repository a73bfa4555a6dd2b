// What the map items of an item do on the table.

ghost use Rattle.std.specs.Prelude.{◌≡◌, ◌+◌, ◌*◌, ◌<◌, ◌≤◌, ◌^◌, Bool, [], IfOk, OnOk, length, map};
ghost use Rattle.base.specs.Map.{presence};
ghost use Rattle.base.specs.Actions;
ghost use Rattle.base.specs.Actions.{always_works};
ghost use Rattle.base.specs.declared.item.MapItem.{MapItem};
ghost use Rattle.mapwalk.specs.Blocks.{present_at};
ghost use Rattle.mapwalk.specs.Table.{blocks_of};
ghost use Rattle.mapwalk.specs.Acts.{entries_after, entry_row, exit_row, exits_after, joined, looks, update_row, updated};
ghost use Rattle.mapwalk.specs.Kinds.{after_maps, after_region, before_region, joined_by, met_by};
ghost use Rattle.mapwalk.specs.Seen.{entry_mets, exit_mets, seen_all, update_mets};

use crate::blocks::{Place, copies_from, copies_to};
use crate::seen::Seen;
use crate::table::Blocks;
use base::item::{Item, ItemKind, MapItem, Section};
use std::alloc::{AllocError, Global};

/// What a map item does on the present table, where it is met. A target's map item is entered and left.
#[derive(Clone, Copy)]
pub struct Acts {
    /// The block that has its section, or the section itself where it is absent.
    pub block: Section,
    /// The block is created.
    pub creates: bool,
    /// The section is copied to the device.
    pub copies_in: bool,
    /// The section is copied to the host.
    pub copies_out: bool,
    /// The block is removed.
    pub removes: bool,
    /// The table is only looked at.
    pub rests: bool,
}

impl Acts {
    /// The table is looked at, or counts, and no more.
    pub(crate) fn look(block: Section, rests: bool) -> Acts
        ensures { result ≡ looks rests block }
    {
        Acts {
            block,
            creates: false,
            copies_in: false,
            copies_out: false,
            removes: false,
            rests,
        }
    }
}

// One section of an update.
fn update(item: &MapItem, place: &Place) -> Acts
    ensures { result ≡ updated item.now (present_at place.now) }
{
    match place {
        Place::Absent | Place::InPart => Acts::look(item.section, true),
        Place::Inside(block) => Acts {
            copies_in: copies_to(item.kind),
            copies_out: copies_from(item.kind),
            ..Acts::look(block.section, true)
        },
    }
}

/// What an item's map items do before its region and after it.
#[derive(Drop)]
pub struct Rows {
    pub before: Vec<Acts>,
    pub after: Vec<Acts>,
}

// For each map item that it does not rest.
fn none_rests(alloc: Global, maps: &[MapItem]) -> Result<Vec<bool>, AllocError>
    ensures { IfOk result (λ rests. rests.items ≡ map always_works maps.now) }
{
    let mut rests = Vec::new(alloc);
    'maps: for _item in maps {
        rests.push(false)?;
    }
    Ok(rests)
}

impl Blocks {
    // For each map item of a target whether it rests.
    fn resting(&self, alloc: Global, maps: &[MapItem]) -> Result<Vec<bool>, AllocError>
        ensures { IfOk result (λ rests. rests.items ≡ map (Actions.rests (blocks_of self.now)) maps.now) }
    {
        let mut rests = Vec::new(alloc);
        'maps: for item in maps {
            let inside = matches!(self.place(&item.section), Place::Inside(_));
            rests.push(!item.always && inside)?;
        }
        Ok(rests)
    }

    // Entries in turn, of which these rest.
    fn enter_all(
        &mut self,
        alloc: Global,
        maps: &[MapItem],
        rests: &[bool],
        seen: &mut Seen,
    ) -> Result<Vec<Acts>, AllocError>
        requires room { self.old.entries + length maps.now < 2 ^ 128 }
        requires rests { length rests.now ≡ length maps.now }
        ensures row { (f : MapItem → Bool) → rests.now ≡ map f maps.now → IfOk result (λ row. row.items ≡ entry_row f maps.now (blocks_of self.old)) }
        ensures blocks { OnOk result (blocks_of self.new ≡ entries_after maps.now (blocks_of self.old)) }
        ensures seen { OnOk result (seen.new ≡ seen_all (entry_mets maps.now (blocks_of self.old)) seen.old) }
        ensures entries { OnOk result (self.new.entries ≡ self.old.entries + length maps.now) }
    {
        let mut row = Vec::new(alloc);
        'maps: for i in 0..maps.len() {
            let item = &maps[i];
            seen.note(self.place(&item.section), &self.blocks, item);
            row.push(self.enter(item, rests[i])?)?;
        }
        Ok(row)
    }

    // Exits in turn, of which these rest.
    fn leave_all(
        &mut self,
        alloc: Global,
        maps: &[MapItem],
        rests: &[bool],
        seen: &mut Seen,
    ) -> Result<Vec<Acts>, AllocError>
        requires { length rests.now ≡ length maps.now }
        ensures row { (f : MapItem → Bool) → rests.now ≡ map f maps.now → IfOk result (λ row. row.items ≡ exit_row f maps.now (blocks_of self.old)) }
        ensures blocks { OnOk result (blocks_of self.new ≡ exits_after maps.now (blocks_of self.old)) }
        ensures seen { OnOk result (seen.new ≡ seen_all (exit_mets maps.now (blocks_of self.old)) seen.old) }
        ensures entries { self.new.entries ≡ self.old.entries }
    {
        let mut row = Vec::new(alloc);
        'maps: for i in 0..maps.len() {
            let item = &maps[i];
            seen.note(self.place(&item.section), &self.blocks, item);
            row.push(self.leave(item, rests[i]))?;
        }
        Ok(row)
    }

    // The sections of an update.
    fn update_all(
        &self,
        alloc: Global,
        maps: &[MapItem],
        seen: &mut Seen,
    ) -> Result<Vec<Acts>, AllocError>
        ensures row { IfOk result (λ row. row.items ≡ update_row maps.now (blocks_of self.now)) }
        ensures seen { OnOk result (seen.new ≡ seen_all (update_mets maps.now (blocks_of self.now)) seen.old) }
    {
        let mut row = Vec::new(alloc);
        'maps: for item in maps {
            let place = self.place(&item.section);
            seen.note(place, &self.blocks, item);
            row.push(update(item, &place))?;
        }
        Ok(row)
    }

    // What the map items of a target do.
    fn target(
        &mut self,
        alloc: Global,
        maps: &[MapItem],
        seen: &mut Seen,
    ) -> Result<Rows, AllocError>
        requires { self.old.entries + length maps.now < 2 ^ 128 }
        ensures before { IfOk result (λ r. r.before.items ≡ before_region ItemKind.Target maps.now (blocks_of self.old)) }
        ensures after { IfOk result (λ r. r.after.items ≡ after_region ItemKind.Target maps.now (blocks_of self.old)) }
        ensures blocks { OnOk result (blocks_of self.new ≡ after_maps ItemKind.Target maps.now (blocks_of self.old)) }
        ensures seen { OnOk result (seen.new ≡ seen_all (met_by ItemKind.Target maps.now (blocks_of self.old)) seen.old) }
        ensures entries { OnOk result (self.new.entries ≡ self.old.entries + length maps.now) }
    {
        let rests = self.resting(alloc, maps)?;
        let before = self.enter_all(alloc, maps, &rests, seen)?;
        let after = self.leave_all(alloc, maps, &rests, seen)?;
        Ok(Rows { before, after })
    }

    /// What the map items of an item do, and what stands against them.
    pub fn item(&mut self, alloc: Global, item: &Item, seen: &mut Seen) -> Result<Rows, AllocError>
        requires { self.old.entries + 2 ^ 64 < 2 ^ 128 }
        ensures before { IfOk result (λ r. r.before.items ≡ before_region item.now.kind item.now.maps.items (blocks_of self.old)) }
        ensures after { IfOk result (λ r. r.after.items ≡ after_region item.now.kind item.now.maps.items (blocks_of self.old)) }
        ensures blocks { OnOk result (blocks_of self.new ≡ after_maps item.now.kind item.now.maps.items (blocks_of self.old)) }
        ensures seen { OnOk result (seen.new ≡ seen_all (met_by item.now.kind item.now.maps.items (blocks_of self.old)) seen.old) }
        ensures entries { OnOk result (self.new.entries ≤ self.old.entries + 2 ^ 64) }
    {
        let maps = item.maps.as_slice();
        match item.kind {
            ItemKind::Host | ItemKind::Wait => Ok(Rows {
                before: Vec::new(alloc),
                after: Vec::new(alloc),
            }),
            ItemKind::Target => self.target(alloc, maps, seen),
            ItemKind::Begin | ItemKind::Enter => Ok(Rows {
                before: self.enter_all(alloc, maps, &none_rests(alloc, maps)?, seen)?,
                after: Vec::new(alloc),
            }),
            ItemKind::End | ItemKind::Exit => Ok(Rows {
                before: Vec::new(alloc),
                after: self.leave_all(alloc, maps, &none_rests(alloc, maps)?, seen)?,
            }),
            ItemKind::Update => Ok(Rows {
                before: self.update_all(alloc, maps, seen)?,
                after: Vec::new(alloc),
            }),
        }
    }
}

impl Rows {
    /// One row: of a target what its map items do before its region and after it.
    pub fn join(self, kind: ItemKind) -> Vec<Acts>
        ensures { result.items ≡ joined_by kind self.before.items self.after.items }
    {
        let Rows { before, after } = self;
        match kind {
            ItemKind::End | ItemKind::Exit => after,
            ItemKind::Target => join_all(before, &after),
            ItemKind::Host
            | ItemKind::Begin
            | ItemKind::Enter
            | ItemKind::Update
            | ItemKind::Wait => before,
        }
    }
}

// The entries and the exits of the map items of a target.
fn join_all(mut entries: Vec<Acts>, exits: &[Acts]) -> Vec<Acts>
    ensures { result.items ≡ joined entries.items exits.now }
{
    'entries: for i in 0..entries.len().min(exits.len()) {
        entries[i] = Acts {
            copies_out: exits[i].copies_out,
            removes: exits[i].removes,
            ..entries[i]
        };
    }
    entries
}
