// The storage of each device.

ghost use Rattle.std.specs.Prelude.{◌≡◌, ◌+◌, ◌<◌, ◌≤◌, ◌^◌, [], true, Some, None, IfErr, OnErr, OnOk, length};
ghost use Rattle.host_memory.specs.Arrays.{lengths_of};
ghost use Rattle.frames.specs.Views.{AreCells};
ghost use Rattle.kernel.specs.Rows.{cells_stored};
ghost use Rattle.present.specs.Table.{AreSections, AreWithin, HasRoom, fill_of};
ghost use Rattle.device.specs.Devices.{AreAlike, AreKept, HaveRoom, LeavesOn, LooksTheSame, OnTable, OpensOn, ShowAll, fresh_of, table_at};
ghost use Rattle.device.specs.Moves.{AreCounted, Goes, IsMapsFault, LeavesFrom, entered_by, enters, opens_with};

use crate::moves::{leave_maps, open_maps};
use base::fault::RunFault;
use base::item::{ItemKind, MapItem};
use base::tree::DeviceId;
use host_memory::Memory;
use kernel::KeptRow;
use present::Table;
use std::alloc::Global;

/// How many devices there are.
pub const DEVICES: usize = 4;

/// The storage of each device, by the device's number.
#[derive(Drop)]
pub struct Devices {
    pub tables: [Table; DEVICES],
}

impl Devices {
    /// Devices without blocks, each with room for `capacity` cells.
    pub fn new(alloc: Global, capacity: u64) -> Devices
        ensures empty { ShowAll result (λ d. record { blocks = []; cells = λ c. None }) }
        ensures room { HaveRoom result capacity }
        ensures alike { AreAlike result }
        ensures number { fresh_of result < 2 ^ 64 }
    {
        let first = Table::new(alloc, capacity);
        first.fills_with_numbers();
        let second = first.another();
        let third = first.another();
        let fourth = first.another();
        Devices {
            tables: [first, second, third, fourth],
        }
    }

    /// What an item of this kind does with its map items on its device when it is opened, which does not fail but for want
    /// of memory or room: `DeviceFull` where its entries together would create more cells than the device has room for.
    pub fn open(
        &mut self,
        device: DeviceId,
        host: &mut Memory,
        entered: &mut u64,
        kind: ItemKind,
        maps: &[MapItem],
    ) -> Result<(), RunFault>
        requires sections { AreSections maps.now }
        requires within { AreWithin host.old maps.now }
        requires counted { OnTable self.old device.number (λ t. AreCounted t entered.old) }
        requires goes { OnTable self.old device.number (λ t. Goes (opens_with (fill_of t) kind maps.now) t host.old) }
        ensures done { OnOk result (OpensOn device.number kind maps.now self.old host.old self.new host.new) }
        ensures number { OnOk result (entered.new ≡ entered.old + entered_by kind maps.now) }
        ensures room { OnOk result (enters kind ≡ true → OnTable self.old device.number (λ t. HasRoom t maps.now)) }
        ensures fault { IfErr result (λ f. OnTable self.old device.number (λ t. IsMapsFault t kind maps.now f)) }
        ensures unchanged { OnErr result (LooksTheSame device.number self.old self.new × (entered.new ≡ entered.old)) }
        ensures same_host { OnErr result (host.new ≡ host.old) }
        ensures lengths { lengths_of host.new ≡ lengths_of host.old }
        ensures kept { AreKept self.old self.new }
    {
        open_maps(
            &mut self.tables[device.number as usize],
            host,
            entered,
            kind,
            maps,
        )
    }

    /// What a kernel left is stored on its device, and its map items are left.
    pub fn leave(&mut self, device: DeviceId, host: &mut Memory, rows: &[KeptRow], maps: &[MapItem])
        requires few { length (lengths_of host.old) ≤ 2 ^ 32 }
        requires cells { AreCells (lengths_of host.old) (cells_stored rows.now) }
        requires sections { AreSections maps.now }
        requires within { AreWithin host.old maps.now }
        requires goes { OnTable self.old device.number (λ t. LeavesFrom (cells_stored rows.now) maps.now t host.old) }
        ensures done { LeavesOn device.number (cells_stored rows.now) maps.now self.old host.old self.new host.new }
        ensures lengths { lengths_of host.new ≡ lengths_of host.old }
        ensures kept { AreKept self.old self.new }
    {
        leave_maps(&mut self.tables[device.number as usize], host, rows, maps);
    }

    /// The storage of a device.
    pub fn table(&self, device: DeviceId) -> &Table
        ensures { table_at self.now device.number ≡ Some result.now }
    {
        &self.tables[device.number as usize]
    }
}
