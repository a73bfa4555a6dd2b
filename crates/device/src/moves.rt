// Exits and updates in turn, none of which overlaps a block in part.

ghost use Rattle.std.specs.Prelude.{◌≡◌, ◌+◌, ◌≤◌, ◌^◌, true, IfErr, OnErr, OnOk, length};
ghost use Rattle.host_memory.specs.Arrays.{IsWithin, lengths_of};
ghost use Rattle.base.specs.Map.{in_turn, leave, update};
ghost use Rattle.present.specs.Blocks.{IsSection};
ghost use Rattle.present.specs.Table.{AreSections, AreWithin, HasRoom, IsKept, IsUnchanged, entries, fill_of};
ghost use Rattle.frames.specs.Views.{AreCells};
ghost use Rattle.kernel.specs.Rows.{cells_stored};
ghost use Rattle.device.specs.Moves.{AreCounted, Goes, IsMapsFault, Leads, LeavesFrom, LeavesTo, entered_by, enters, opens_with};

use base::fault::RunFault;
use base::item::{ItemKind, MapItem, MapKind};
use frames::store_kernel;
use host_memory::Memory;
use kernel::KeptRow;
use present::Table;

// One exit.
fn exit_one(table: &mut Table, host: &mut Memory, item: &MapItem)
    requires section { IsSection item.now.section }
    requires within { IsWithin host.old item.now.section }
    requires goes { Goes (leave item.now) table.old host.old }
    ensures left { Leads (leave item.now) table.old host.old table.new host.new }
    ensures lengths { lengths_of host.new ≡ lengths_of host.old }
    ensures kept { IsKept table.old table.new }
{
    match table.exit(item, host) {
        Err(_) => {}
        Ok(()) => {}
    }
}

/// The exits of these map items in turn.
pub fn exit_all(table: &mut Table, host: &mut Memory, maps: &[MapItem])
    requires sections { AreSections maps.now }
    requires within { AreWithin host.old maps.now }
    requires goes { Goes (in_turn leave maps.now) table.old host.old }
    ensures left { Leads (in_turn leave maps.now) table.old host.old table.new host.new }
    ensures lengths { lengths_of host.new ≡ lengths_of host.old }
    ensures kept { IsKept table.old table.new }
{
    for i in 0..maps.len() {
        exit_one(table, host, &maps[i]);
    }
}

/// What a kernel left is stored, and then the exits of these map items are done.
pub fn leave_maps(table: &mut Table, host: &mut Memory, rows: &[KeptRow], maps: &[MapItem])
    requires few { length (lengths_of host.old) ≤ 2 ^ 32 }
    requires cells { AreCells (lengths_of host.old) (cells_stored rows.now) }
    requires sections { AreSections maps.now }
    requires within { AreWithin host.old maps.now }
    requires goes { LeavesFrom (cells_stored rows.now) maps.now table.old host.old }
    ensures left { LeavesTo (cells_stored rows.now) maps.now table.old host.old table.new host.new }
    ensures lengths { lengths_of host.new ≡ lengths_of host.old }
    ensures kept { IsKept table.old table.new }
{
    store_kernel(table, rows);
    exit_all(table, host, maps);
}

// Copies a section to the device.
fn bring_in(table: &mut Table, host: &mut Memory, item: &MapItem)
    requires section { IsSection item.now.section }
    requires within { IsWithin host.old item.now.section }
    requires to { item.now.kind ≡ MapKind.To }
    requires goes { Goes (update item.now) table.old host.old }
    ensures brought { Leads (update item.now) table.old host.old table.new host.new }
    ensures lengths { lengths_of host.new ≡ lengths_of host.old }
    ensures kept { IsKept table.old table.new }
{
    match table.copy_in(&item.section, host) {
        Err(_) => {}
        Ok(()) => {}
    }
}

// Copies a section to the host.
fn bring_out(table: &mut Table, host: &mut Memory, item: &MapItem)
    requires section { IsSection item.now.section }
    requires within { IsWithin host.old item.now.section }
    requires from { item.now.kind ≡ MapKind.From }
    requires goes { Goes (update item.now) table.old host.old }
    ensures brought { Leads (update item.now) table.old host.old table.new host.new }
    ensures lengths { lengths_of host.new ≡ lengths_of host.old }
    ensures kept { IsKept table.old table.new }
{
    match table.copy_out(&item.section, host) {
        Err(_) => {}
        Ok(()) => {}
    }
}

// One section of an update.
fn update_one(table: &mut Table, host: &mut Memory, item: &MapItem)
    requires section { IsSection item.now.section }
    requires within { IsWithin host.old item.now.section }
    requires goes { Goes (update item.now) table.old host.old }
    ensures updated { Leads (update item.now) table.old host.old table.new host.new }
    ensures lengths { lengths_of host.new ≡ lengths_of host.old }
    ensures kept { IsKept table.old table.new }
{
    match item.kind {
        MapKind::To => bring_in(table, host, item),
        MapKind::From => bring_out(table, host, item),
        MapKind::ToFrom => {
            match table.copy_in(&item.section, host) {
                Err(_) => {}
                Ok(()) => match table.copy_out(&item.section, host) {
                    Err(_) => {}
                    Ok(()) => {}
                },
            }
        }
        MapKind::Alloc => {}
        MapKind::Release => {}
        MapKind::Delete => {}
    }
}

/// The sections of an update in turn.
pub fn update_all(table: &mut Table, host: &mut Memory, maps: &[MapItem])
    requires sections { AreSections maps.now }
    requires within { AreWithin host.old maps.now }
    requires goes { Goes (in_turn update maps.now) table.old host.old }
    ensures updated { Leads (in_turn update maps.now) table.old host.old table.new host.new }
    ensures lengths { lengths_of host.new ≡ lengths_of host.old }
    ensures kept { IsKept table.old table.new }
{
    for i in 0..maps.len() {
        update_one(table, host, &maps[i]);
    }
}

// Several entries, or none of them.
fn enter_all(
    table: &mut Table,
    host: &mut Memory,
    entered: &mut u64,
    maps: &[MapItem],
) -> Result<(), RunFault>
    requires sections { AreSections maps.now }
    requires within { AreWithin host.old maps.now }
    requires counted { AreCounted table.old entered.old }
    requires goes { Goes (entries table.old maps.now) table.old host.old }
    ensures entered { OnOk result (Leads (entries table.old maps.now) table.old host.old table.new host.new) }
    ensures number { OnOk result (entered.new ≡ entered.old + length maps.now) }
    ensures room { OnOk result (HasRoom table.old maps.now) }
    ensures fault { IfErr result (IsMapsFault table.old ItemKind.Enter maps.now) }
    ensures unchanged { OnErr result (IsUnchanged table.old table.new × (entered.new ≡ entered.old)) }
    ensures same_host { OnErr result (host.new ≡ host.old) }
    ensures lengths { lengths_of host.new ≡ lengths_of host.old }
    ensures kept { IsKept table.old table.new }
{
    let more = maps.len() as u64;
    if u64::MAX - *entered < more {
        return Err(RunFault::OutOfMemory);
    }
    match table.enter_all(maps, host) {
        Err(fault) => Err(fault),
        Ok(()) => {
            *entered += more;
            Ok(())
        }
    }
}

/// What an item of this kind does with its map items when it is opened, which does not fail but for want of memory or
/// room: `DeviceFull` where its entries together would create more cells than there is room for.
pub fn open_maps(
    table: &mut Table,
    host: &mut Memory,
    entered: &mut u64,
    kind: ItemKind,
    maps: &[MapItem],
) -> Result<(), RunFault>
    requires sections { AreSections maps.now }
    requires within { AreWithin host.old maps.now }
    requires counted { AreCounted table.old entered.old }
    requires goes { Goes (opens_with (fill_of table.old) kind maps.now) table.old host.old }
    ensures done { OnOk result (Leads (opens_with (fill_of table.old) kind maps.now) table.old host.old table.new host.new) }
    ensures number { OnOk result (entered.new ≡ entered.old + entered_by kind maps.now) }
    ensures room { OnOk result (enters kind ≡ true → HasRoom table.old maps.now) }
    ensures fault { IfErr result (IsMapsFault table.old kind maps.now) }
    ensures unchanged { OnErr result (IsUnchanged table.old table.new × (entered.new ≡ entered.old)) }
    ensures same_host { OnErr result (host.new ≡ host.old) }
    ensures lengths { lengths_of host.new ≡ lengths_of host.old }
    ensures kept { IsKept table.old table.new }
{
    match kind {
        ItemKind::Host => Ok(()),
        ItemKind::Wait => Ok(()),
        ItemKind::Target => enter_all(table, host, entered, maps),
        ItemKind::Begin => enter_all(table, host, entered, maps),
        ItemKind::Enter => enter_all(table, host, entered, maps),
        ItemKind::End => {
            exit_all(table, host, maps);
            Ok(())
        }
        ItemKind::Exit => {
            exit_all(table, host, maps);
            Ok(())
        }
        ItemKind::Update => {
            update_all(table, host, maps);
            Ok(())
        }
    }
}
