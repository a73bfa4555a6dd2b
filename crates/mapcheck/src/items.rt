// The accesses of an item, from what its map items do and the footprint of its region.

ghost use Rattle.std.specs.Prelude.{◌≡◌, ◌++◌, List, [], Some, IfOk, OnOk};
ghost use Rattle.base.specs.Actions.{CopiesIn, CopiesOut, Creates, HostRegion, Kernel, Removes, only_if, region_acts};
ghost use Rattle.base.specs.Items.{Work};
ghost use Rattle.mapcheck.specs.Accesses.{AreAccesses};
ghost use Rattle.mapcheck.specs.Building.{ExtendsBy, part_actions, row_actions};
ghost use Rattle.mapwalk.specs.Laws.{actions_of};
ghost use Rattle.mapwalk.specs.Regions.{IsFootprintOf};
ghost use Rattle.outline.specs.Regions.{Entry};
ghost use Rattle.outline.specs.Shown.{shown};

use crate::accesses::Accesses;
use base::item::{Item, ItemKind, MapItem, Section};
use mapwalk::Acts;
use ranges::Footprint;
use std::alloc::{AllocError, Global};

/// What is done with a map item.
#[derive(Clone, Copy)]
enum Part {
    Entry,
    Exit,
    Update,
}

impl<'f> Accesses<'f> {
    fn add_creates_if(&mut self, holds: bool, block: Section) -> Result<(), AllocError>
        ensures { OnOk result (ExtendsBy (only_if holds (Creates block)) self.old self.new) }
    {
        if holds {
            self.add_creates(block)
        } else {
            Ok(())
        }
    }

    fn add_copy_in_if(&mut self, holds: bool, section: Section) -> Result<(), AllocError>
        ensures { OnOk result (ExtendsBy (only_if holds (CopiesIn section)) self.old self.new) }
    {
        if holds {
            self.add_copy_in(section)
        } else {
            Ok(())
        }
    }

    fn add_copy_out_if(&mut self, holds: bool, section: Section) -> Result<(), AllocError>
        ensures { OnOk result (ExtendsBy (only_if holds (CopiesOut section)) self.old self.new) }
    {
        if holds {
            self.add_copy_out(section)
        } else {
            Ok(())
        }
    }

    fn add_removes_if(&mut self, holds: bool, block: Section) -> Result<(), AllocError>
        ensures { OnOk result (ExtendsBy (only_if holds (Removes block)) self.old self.new) }
    {
        if holds {
            self.add_removes(block)
        } else {
            Ok(())
        }
    }

    // What one map item does.
    fn add_part(&mut self, part: Part, map: &MapItem, acts: &Acts) -> Result<(), AllocError>
        ensures { OnOk result (ExtendsBy (part_actions part map.now acts.now) self.old self.new) }
    {
        self.add_counts(acts.block, acts.rests)?;
        match part {
            Part::Entry => {
                self.add_creates_if(acts.creates, acts.block)?;
                self.add_copy_in_if(acts.copies_in, map.section)
            }
            Part::Exit => {
                self.add_copy_out_if(acts.copies_out, map.section)?;
                self.add_removes_if(acts.removes, acts.block)
            }
            Part::Update => {
                self.add_copy_in_if(acts.copies_in, map.section)?;
                self.add_copy_out_if(acts.copies_out, map.section)
            }
        }
    }

    // What map items do, in turn.
    fn add_row(&mut self, part: Part, maps: &[MapItem], row: &[Acts]) -> Result<(), AllocError>
        ensures { OnOk result (ExtendsBy (row_actions part maps.now row.now) self.old self.new) }
    {
        'maps: for i in 0..maps.len().min(row.len()) {
            self.add_part(part, &maps[i], &row[i])?;
        }
        Ok(())
    }

    fn add_on_host(&mut self, found: &'f Option<Footprint>) -> Result<(), AllocError>
        ensures { (w : Work) → IsFootprintOf w found.now → OnOk result (ExtendsBy (region_acts HostRegion w []).actions self.old self.new) }
    {
        match found {
            None => Ok(()),
            Some(footprint) => self.add_host_region(footprint),
        }
    }

    fn add_on_device(&mut self, found: &'f Option<Footprint>) -> Result<(), AllocError>
        ensures { (w : Work) → IsFootprintOf w found.now → OnOk result (ExtendsBy (region_acts Kernel w []).actions self.old self.new) }
    {
        match found {
            None => Ok(()),
            Some(footprint) => self.add_kernel(footprint),
        }
    }

    // What a target does.
    fn add_target(
        &mut self,
        maps: &[MapItem],
        row: &[Acts],
        found: &'f Option<Footprint>,
    ) -> Result<(), AllocError>
        ensures { (w : Work) → IsFootprintOf w found.now → OnOk result (ExtendsBy (row_actions Part.Entry maps.now row.now ++ (region_acts Kernel w []).actions ++ row_actions Part.Exit maps.now row.now) self.old self.new) }
    {
        self.add_row(Part::Entry, maps, row)?;
        self.add_on_device(found)?;
        self.add_row(Part::Exit, maps, row)
    }

    // What an item does.
    fn add_item(
        &mut self,
        item: &Item,
        row: &[Acts],
        found: &'f Option<Footprint>,
    ) -> Result<(), AllocError>
        ensures { (entries : List Entry) (w : Work) → shown entries item.now ≡ Some w → IsFootprintOf w found.now → OnOk result (ExtendsBy (actions_of w row.now) self.old self.new) }
    {
        match item.kind {
            ItemKind::Host => self.add_on_host(found),
            ItemKind::Target => self.add_target(&item.maps, row, found),
            ItemKind::Begin | ItemKind::Enter => self.add_row(Part::Entry, &item.maps, row),
            ItemKind::End | ItemKind::Exit => self.add_row(Part::Exit, &item.maps, row),
            ItemKind::Update => self.add_row(Part::Update, &item.maps, row),
            ItemKind::Wait => Ok(()),
        }
    }

    /// Of an item whose map items do this, and whose region has this footprint.
    pub fn of_item(
        alloc: Global,
        item: &Item,
        row: &[Acts],
        found: &'f Option<Footprint>,
    ) -> Result<Accesses<'f>, AllocError>
        ensures { (entries : List Entry) (w : Work) → shown entries item.now ≡ Some w → IsFootprintOf w found.now → IfOk result (λ a. AreAccesses a w.device (actions_of w row.now)) }
    {
        let mut accesses = Accesses::new(alloc, item.device.number);
        accesses.add_item(item, row, found)?;
        Ok(accesses)
    }
}
