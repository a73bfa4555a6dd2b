// What an item reads and writes.

ghost use Rattle.std.specs.Prelude.{◌≡◌, ◌++◌, [], true, false, List, OnOk, OnErr};
ghost use Rattle.base.specs.Footprint.{Touch};
ghost use Rattle.base.specs.Actions.{CopiesIn, CopiesOut, Counts, Creates, HostRegion, Kernel, Removes};
ghost use Rattle.mapcheck.specs.Accesses.{AreAccesses, GrowsBy, HasTouches, IsKept};

use base::item::{Loc, Section};
use ranges::{CellSet, Footprint};
use std::alloc::{AllocError, Global};

/// Some cells: those of a section, or of a set.
#[derive(Clone, Copy)]
pub enum Cells<'f> {
    Section(Section),
    Set(&'f CellSet),
}

/// That an item reads, or writes, some cells at a location.
#[derive(Clone, Copy)]
pub struct Access<'f> {
    pub loc: Loc,
    pub writes: bool,
    pub cells: Cells<'f>,
}

/// What an item reads and writes, at each location: on the host, on its device, and in this device's table. Footprints
/// can be shared with other items. Where a call that adds to it answers an error, it is as it was.
#[derive(Drop)]
pub struct Accesses<'f> {
    pub device: u8,
    pub list: Vec<Access<'f>>,
}

fn read<'f>(loc: Loc, cells: Cells<'f>) -> Access<'f>
    ensures loc { result.loc ≡ loc }
    ensures cells { result.cells ≡ cells.entry }
    ensures writes { result.writes ≡ false }
{
    Access {
        loc,
        writes: false,
        cells,
    }
}

fn write<'f>(loc: Loc, cells: Cells<'f>) -> Access<'f>
    ensures loc { result.loc ≡ loc }
    ensures cells { result.cells ≡ cells.entry }
    ensures writes { result.writes ≡ true }
{
    Access {
        loc,
        writes: true,
        cells,
    }
}

impl<'f> Accesses<'f> {
    /// Of nothing, by an item of this device.
    pub fn new(alloc: Global, device: u8) -> Accesses<'f>
        ensures { AreAccesses result device [] }
    {
        Accesses {
            device,
            list: Vec::new(alloc),
        }
    }

    fn add(&mut self, more: &[Access<'f>]) -> Result<(), AllocError>
        ensures device { self.new.device ≡ self.old.device }
        ensures ok { OnOk result (self.new.list.items ≡ self.old.list.items ++ more.now) }
        ensures err { OnErr result (self.new.list.items ≡ self.old.list.items) }
    {
        self.list.extend_from_slice(more)
    }

    /// The block's count changes, or is only looked at where the map item rests.
    pub fn add_counts(&mut self, block: Section, rests: bool) -> Result<(), AllocError>
        ensures ok { OnOk result (GrowsBy (Counts block rests) self.old self.new) }
        ensures err { OnErr result (IsKept self.old self.new) }
    {
        let access = if rests {
            read(Loc::Tab(self.device), Cells::Section(block))
        } else {
            write(Loc::Tab(self.device), Cells::Section(block))
        };
        self.add(&[access])
    }

    /// A block is created.
    pub fn add_creates(&mut self, created: Section) -> Result<(), AllocError>
        ensures ok { OnOk result (GrowsBy (Creates created) self.old self.new) }
        ensures err { OnErr result (IsKept self.old self.new) }
    {
        self.add(&[write(Loc::Dev(self.device), Cells::Section(created))])
    }

    /// The section is copied to the item's device.
    pub fn add_copy_in(&mut self, section: Section) -> Result<(), AllocError>
        ensures ok { OnOk result (GrowsBy (CopiesIn section) self.old self.new) }
        ensures err { OnErr result (IsKept self.old self.new) }
    {
        let cells = Cells::Section(section);
        self.add(&[read(Loc::Host, cells), write(Loc::Dev(self.device), cells)])
    }

    /// The section is copied to the host.
    pub fn add_copy_out(&mut self, section: Section) -> Result<(), AllocError>
        ensures ok { OnOk result (GrowsBy (CopiesOut section) self.old self.new) }
        ensures err { OnErr result (IsKept self.old self.new) }
    {
        let cells = Cells::Section(section);
        self.add(&[read(Loc::Dev(self.device), cells), write(Loc::Host, cells)])
    }

    /// The block is removed.
    pub fn add_removes(&mut self, block: Section) -> Result<(), AllocError>
        ensures ok { OnOk result (GrowsBy (Removes block) self.old self.new) }
        ensures err { OnErr result (IsKept self.old self.new) }
    {
        self.add(&[write(Loc::Dev(self.device), Cells::Section(block))])
    }

    /// A region with this footprint runs on the host.
    pub fn add_host_region(&mut self, footprint: &'f Footprint) -> Result<(), AllocError>
        ensures ok { OnOk result ((touches : List Touch) → HasTouches footprint.now touches → GrowsBy (HostRegion touches) self.old self.new) }
        ensures err { OnErr result (IsKept self.old self.new) }
    {
        self.add(&[
            read(Loc::Host, Cells::Set(&footprint.read)),
            write(Loc::Host, Cells::Set(&footprint.write)),
        ])
    }

    /// A region with this footprint runs on the item's device.
    pub fn add_kernel(&mut self, footprint: &'f Footprint) -> Result<(), AllocError>
        ensures ok { OnOk result ((touches : List Touch) → HasTouches footprint.now touches → GrowsBy (Kernel touches) self.old self.new) }
        ensures err { OnErr result (IsKept self.old self.new) }
    {
        self.add(&[
            read(Loc::Dev(self.device), Cells::Set(&footprint.read)),
            write(Loc::Dev(self.device), Cells::Set(&footprint.write)),
        ])
    }
}
