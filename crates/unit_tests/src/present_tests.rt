// What no contract says: rows of worked answers, and what created storage holds.

ghost use Rattle.std.specs.Prelude.{IsTrue};
ghost use Rattle.host_memory.specs.Arrays.{IsWithin};
ghost use Rattle.present.specs.Blocks.{IsSection};
ghost use Rattle.present.specs.Table.{AreSections, AreWithin, CountFits, CountsFit};

use base::fault::RunFault;
use base::item::{Cell, MapItem, MapKind, Section};
use base::tree::ArrayId;
use host_memory::Memory;
use present::Table;
use std::test::Fail;

const CREATED: u64 = 0xa5a5_a5a5_a5a5_a5a5;

pub(crate) fn section(array: u32, first: u64, length: u64) -> Section {
    Section {
        array: ArrayId(array),
        first,
        length,
    }
}

pub(crate) fn item(kind: MapKind, section: Section) -> MapItem {
    MapItem {
        kind,
        always: false,
        present: false,
        section,
        line: 1,
        column: 1,
    }
}

fn there(kind: MapKind, section: Section) -> MapItem {
    MapItem {
        kind,
        always: false,
        present: true,
        section,
        line: 1,
        column: 1,
    }
}

pub(crate) fn always(kind: MapKind, section: Section) -> MapItem {
    MapItem {
        kind,
        always: true,
        present: false,
        section,
        line: 1,
        column: 1,
    }
}

pub(crate) fn cell(array: u32, index: u64) -> Cell {
    Cell {
        array: ArrayId(array),
        index,
    }
}

fn is_section(section: &Section) -> bool
    ensures { IsTrue result → IsSection section.now }
{
    section.length >= 1 && section.first <= 65_536 && section.length <= 65_536 - section.first
}

fn is_within(host: &Memory, section: &Section) -> bool
    ensures { IsTrue result → IsWithin host.now section.now }
{
    let most = host.length(section.array);
    section.length >= 1 && section.first <= most && section.length <= most - section.first
}

fn may_count(table: &Table, section: &Section) -> bool
    ensures { IsTrue result → CountFits table.now 1 section.now }
{
    let first = Cell {
        array: section.array,
        index: section.first,
    };
    match table.lookup(first) {
        None => true,
        Some((_, count)) => count < u64::MAX,
    }
}

// Whether an entry may be one of so many.
fn may_enter(table: &Table, host: &Memory, item: &MapItem, count: usize) -> bool
    ensures section { IsTrue result → IsSection item.now.section }
    ensures within { IsTrue result → IsWithin host.now item.now.section }
    ensures count { IsTrue result → CountFits table.now count item.now.section }
{
    let first = Cell {
        array: item.section.array,
        index: item.section.first,
    };
    let counts = match table.lookup(first) {
        None => true,
        Some((_, before)) => before < u64::MAX - count as u64,
    };
    counts && is_section(&item.section) && is_within(host, &item.section)
}

fn may_enter_all(table: &Table, host: &Memory, items: &[MapItem]) -> bool
    ensures sections { IsTrue result → AreSections items.now }
    ensures within { IsTrue result → AreWithin host.now items.now }
    ensures counts { IsTrue result → CountsFit table.now items.now 0 }
{
    for item in items {
        if !may_enter(table, host, item, items.len()) {
            return false;
        }
    }
    true
}

/// What an entry comes to, `OtherState` where it may not be asked for.
pub(crate) fn enter(table: &mut Table, item: &MapItem, host: &mut Memory) -> Result<(), RunFault> {
    let section = &item.section;
    if is_section(section) && is_within(host, section) && may_count(table, section) {
        return table.enter(item, host);
    }
    Err(RunFault::OtherState)
}

/// What an exit comes to, `OtherState` where it may not be asked for.
pub(crate) fn exit(table: &mut Table, item: &MapItem, host: &mut Memory) -> Result<(), RunFault> {
    if is_section(&item.section) && is_within(host, &item.section) {
        return table.exit(item, host);
    }
    Err(RunFault::OtherState)
}

/// What entries of several items come to, `OtherState` where they may not be asked for.
fn enter_all(table: &mut Table, items: &[MapItem], host: &mut Memory) -> Result<(), RunFault> {
    if may_enter_all(table, host, items) {
        return table.enter_all(items, host);
    }
    Err(RunFault::OtherState)
}

// Whether entries of several items need room for so many cells.
fn need(table: &Table, items: &[MapItem], host: &Memory, cells: u64) -> bool {
    may_enter_all(table, host, items) && table.need(items) == cells
}

/// Gives the host numbers for a section of so many cells, and answers whether it did.
pub(crate) fn set(host: &mut Memory, section: &Section, numbers: &[u64]) -> bool {
    let may = is_within(host, section) && numbers.len() as u64 == section.length;
    if may {
        host.set_section(section, numbers);
    }
    may
}

// Whether the host has these numbers in a section.
pub(crate) fn holds(host: &Memory, section: &Section, numbers: &[u64]) -> bool {
    is_within(host, section) && host.section(section) == numbers
}

// Whether the cell lies in that block, which counts so many.
fn is_in(table: &Table, cell: Cell, block: Section, count: u64) -> bool {
    table.lookup(cell) == Some((block, count))
}

pub(crate) fn has(table: &Table, cell: Cell, number: u64) -> bool {
    table.load(cell) == Some(number)
}

fn is_absent(table: &Table, cell: Cell) -> bool {
    table.lookup(cell) == None
}

// The block is entered with the cells of the host.
fn is_entered(table: &mut Table, host: &mut Memory, all: Section) -> bool {
    enter(table, &item(MapKind::To, all), host).is_ok()
        && is_in(table, cell(0, 3), all, 1)
        && is_absent(table, cell(0, 4))
        && has(table, cell(0, 3), 13)
}

// Entered a second time, the block counts two and has the cells of the first time.
fn is_entered_again(table: &mut Table, host: &mut Memory, all: Section) -> bool {
    enter(table, &item(MapKind::To, section(0, 1, 2)), host).is_ok()
        && is_in(table, cell(0, 0), all, 2)
        && has(table, cell(0, 1), 11)
}

// With `always`, the cells that are named are copied, and no other.
fn is_copied_always(table: &mut Table, host: &mut Memory, all: Section) -> bool {
    enter(table, &always(MapKind::To, section(0, 0, 1)), host).is_ok()
        && is_in(table, cell(0, 0), all, 3)
        && has(table, cell(0, 0), 20)
        && has(table, cell(0, 1), 11)
}

#[test]
fn one_table(rt: HostRuntime) -> Result<(), Fail> {
    let mut host = Memory::new(rt.alloc(), &[8, 8])?;
    let mut table = Table::new(rt.alloc(), 8);
    let all = section(0, 0, 4);
    assert!(rt; set(&mut host, &all, &[10, 11, 12, 13]) && is_entered(&mut table, &mut host, all));
    assert!(rt; set(&mut host, &all, &[20, 21, 22, 23]));
    assert!(rt;
        is_entered_again(&mut table, &mut host, all) && is_copied_always(&mut table, &mut host, all)
    );
    Ok(())
}

fn is_entered_times(table: &mut Table, host: &mut Memory, item: &MapItem, times: u32) -> bool {
    for _ in 0..times {
        if enter(table, item, host).is_err() {
            return false;
        }
    }
    true
}

// Entered three times, with a number stored on the device.
fn is_stored(table: &mut Table, host: &mut Memory, all: Section) -> bool {
    is_entered_times(table, host, &item(MapKind::To, all), 3)
        && table.store(cell(0, 0), 7)
        && !table.store(cell(1, 0), 7)
}

// With `always`, the cells that are named are copied back, though the block stays.
fn is_left_always(table: &mut Table, host: &mut Memory, all: Section) -> bool {
    exit(table, &always(MapKind::From, section(0, 0, 1)), host).is_ok()
        && is_in(table, cell(0, 0), all, 2)
        && holds(host, &all, &[7, 11, 12, 13])
}

// What is released copies nothing; the last that leaves copies the cells that it names, and the block is gone.
fn is_left(table: &mut Table, host: &mut Memory, all: Section) -> bool {
    exit(table, &item(MapKind::Release, all), host).is_ok()
        && is_in(table, cell(0, 0), all, 1)
        && holds(host, &all, &[20, 21, 22, 23])
        && exit(table, &item(MapKind::From, section(0, 1, 2)), host).is_ok()
        && holds(host, &all, &[20, 11, 12, 23])
        && is_absent(table, cell(0, 0))
}

#[test]
fn exits(rt: HostRuntime) -> Result<(), Fail> {
    let mut host = Memory::new(rt.alloc(), &[8])?;
    let mut table = Table::new(rt.alloc(), 8);
    let all = section(0, 0, 4);
    assert!(rt; set(&mut host, &all, &[10, 11, 12, 13]) && is_stored(&mut table, &mut host, all));
    assert!(rt; is_left_always(&mut table, &mut host, all));
    assert!(rt; set(&mut host, &all, &[20, 21, 22, 23]) && is_left(&mut table, &mut host, all));
    Ok(())
}

// Cells of which some are there, and cells for which there is no room.
fn is_refused(table: &mut Table, host: &mut Memory, all: Section) -> bool {
    let over = item(MapKind::To, section(0, 3, 2));
    let five = item(MapKind::Alloc, section(1, 0, 5));
    enter(table, &over, host) == Err(RunFault::Absent)
        && exit(table, &over, host) == Err(RunFault::Absent)
        && enter(table, &five, host) == Err(RunFault::DeviceFull)
        && is_in(table, cell(0, 0), all, 1)
        && is_absent(table, cell(1, 0))
}

// What has room is created, and holds what created storage holds.
fn is_created(table: &mut Table, host: &mut Memory) -> bool {
    enter(table, &item(MapKind::Alloc, section(1, 0, 4)), host).is_ok()
        && has(table, cell(1, 3), CREATED)
}

#[test]
fn refusals(rt: HostRuntime) -> Result<(), Fail> {
    let mut host = Memory::new(rt.alloc(), &[8, 8])?;
    let mut table = Table::new(rt.alloc(), 8);
    let all = section(0, 0, 4);
    assert!(rt; enter(&mut table, &item(MapKind::To, all), &mut host).is_ok());
    assert!(rt; is_refused(&mut table, &mut host, all) && is_created(&mut table, &mut host));
    Ok(())
}

// The block is gone, however often it was entered, and a further exit does nothing.
fn is_deleted(table: &mut Table, host: &mut Memory, all: Section) -> bool {
    exit(table, &item(MapKind::Delete, all), host).is_ok()
        && is_absent(table, cell(0, 1))
        && exit(table, &item(MapKind::ToFrom, all), host).is_ok()
}

#[test]
fn deletion(rt: HostRuntime) -> Result<(), Fail> {
    let mut host = Memory::new(rt.alloc(), &[2])?;
    let mut table = Table::new(rt.alloc(), 2);
    let all = section(0, 0, 2);
    assert!(rt; is_entered_times(&mut table, &mut host, &item(MapKind::ToFrom, all), 3));
    assert!(rt; is_deleted(&mut table, &mut host, all));
    Ok(())
}

// What has no room, or is there in part, is refused whole.
fn is_refused_whole(table: &mut Table, host: &mut Memory, all: Section) -> bool {
    let over = [
        item(MapKind::To, all),
        item(MapKind::Alloc, section(1, 0, 5)),
    ];
    let part = [
        item(MapKind::To, all),
        item(MapKind::Alloc, section(0, 3, 2)),
    ];
    enter_all(table, &over, host) == Err(RunFault::DeviceFull)
        && need(table, &part, host, 4)
        && enter_all(table, &part, host) == Err(RunFault::Absent)
        && is_absent(table, cell(0, 0))
}

// Two blocks for three items, the last of which is in the first block.
fn are_entered(table: &mut Table, host: &mut Memory, all: Section) -> bool {
    let other = section(1, 0, 4);
    let three = [
        item(MapKind::To, all),
        item(MapKind::Alloc, other),
        item(MapKind::Alloc, section(0, 1, 1)),
    ];
    need(table, &three, host, 8)
        && enter_all(table, &three, host).is_ok()
        && is_in(table, cell(0, 0), all, 2)
        && has(table, cell(0, 3), 13)
        && is_in(table, cell(1, 3), other, 1)
        && has(table, cell(1, 3), CREATED)
}

#[test]
fn several(rt: HostRuntime) -> Result<(), Fail> {
    let mut host = Memory::new(rt.alloc(), &[8, 8])?;
    let mut table = Table::new(rt.alloc(), 8);
    let all = section(0, 0, 4);
    assert!(rt; set(&mut host, &all, &[10, 11, 12, 13]));
    assert!(rt;
        is_refused_whole(&mut table, &mut host, all) && are_entered(&mut table, &mut host, all)
    );
    Ok(())
}

// What is to be present and is not is refused, and nothing has changed; it needs no room.
fn is_missing(table: &mut Table, host: &mut Memory, all: Section) -> bool {
    let alone = [there(MapKind::To, all)];
    need(table, &alone, host, 0)
        && enter(table, &there(MapKind::To, all), host) == Err(RunFault::Absent)
        && is_absent(table, cell(0, 0))
}

// Where it is there, it is entered as any other.
fn is_there(table: &mut Table, host: &mut Memory, all: Section) -> bool {
    enter(table, &item(MapKind::To, all), host).is_ok()
        && enter(table, &there(MapKind::To, section(0, 1, 2)), host).is_ok()
        && is_in(table, cell(0, 0), all, 2)
}

#[test]
fn presence(rt: HostRuntime) -> Result<(), Fail> {
    let mut host = Memory::new(rt.alloc(), &[8])?;
    let mut table = Table::new(rt.alloc(), 8);
    let all = section(0, 0, 4);
    assert!(rt; is_missing(&mut table, &mut host, all) && is_there(&mut table, &mut host, all));
    Ok(())
}
