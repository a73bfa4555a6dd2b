// Rows across two blocks with a gap.

use crate::present_tests::{always, cell, enter, exit, has, holds, item, section, set};
use base::item::{MapKind, Section};
use base::tree::ArrayId;
use host_memory::Memory;
use present::Table;
use shared_row::{LentRow, Marks, RowCells};
use std::alloc::{AllocError, Global};
use std::test::Fail;

// Array 1 with storage for the cells 2, 3, 5 and 6, which are 12, 13, 15 and 16; array 0 with storage for all.
fn has_two_blocks(table: &mut Table, host: &mut Memory) -> bool {
    set(host, &section(1, 0, 8), &[10, 11, 12, 13, 14, 15, 16, 17])
        && enter(table, &item(MapKind::To, section(1, 5, 2)), host).is_ok()
        && enter(table, &item(MapKind::To, section(0, 0, 8)), host).is_ok()
        && enter(table, &item(MapKind::To, section(1, 2, 2)), host).is_ok()
}

// Whether the row of array 1 from a cell on is this.
fn reads(alloc: Global, table: &Table, first: u64, row: &[u64]) -> Result<bool, AllocError> {
    let section = Section {
        array: ArrayId(1),
        first,
        length: row.len() as u64,
    };
    let mut numbers = Vec::with_capacity(alloc, row.len())?;
    table.read_row(&section, &mut numbers);
    Ok(numbers.as_slice() == row)
}

#[test]
fn a_row_is_read(rt: HostRuntime) -> Result<(), Fail> {
    let mut host = Memory::new(rt.alloc(), &[8, 8])?;
    let mut table = Table::new(rt.alloc(), 16);
    assert!(rt; has_two_blocks(&mut table, &mut host));
    assert!(rt; reads(rt.alloc(), &table, 3, &[13, 0, 15, 16])?);
    assert!(rt; reads(rt.alloc(), &table, 0, &[0, 0, 12, 13, 0, 15, 16, 0, 0])?);
    assert!(rt; reads(rt.alloc(), &table, 5, &[15, 16])?);
    assert!(rt; reads(rt.alloc(), &table, 6, &[16])?);
    assert!(rt; reads(rt.alloc(), &table, 6, &[16, 0])?);
    assert!(rt; reads(rt.alloc(), &table, 4, &[])?);
    assert!(rt; reads(rt.alloc(), &table, u64::MAX - 1, &[0, 0])?);
    Ok(())
}

#[test]
fn marked_numbers_are_stored(rt: HostRuntime) -> Result<(), Fail> {
    let mut host = Memory::new(rt.alloc(), &[8, 8])?;
    let mut table = Table::new(rt.alloc(), 16);
    assert!(rt; has_two_blocks(&mut table, &mut host));
    let cells = RowCells::Own(vec![in rt.alloc(); 70, 71, 72, 73]?);
    let marks = Marks::Each(vec![in rt.alloc(); true, true, false, true]?);
    table.store_row(ArrayId(1), 3, &cells, &marks);
    assert!(rt; reads(rt.alloc(), &table, 0, &[0, 0, 12, 70, 0, 15, 73, 0])?);
    assert!(rt; table.load(cell(0, 3)) == Some(0));
    Ok(())
}

// Cells 5 and 6 of array 1, for another owner.
fn lent(alloc: Global, table: &mut Table) -> Result<Option<LentRow>, AllocError> {
    let section = Section {
        array: ArrayId(1),
        first: 5,
        length: 2,
    };
    let room = Vec::with_capacity(alloc, 2)?;
    Ok(table.lend_row(&section, room).ok())
}

fn has_numbers(row: &Option<LentRow>, numbers: &[u64]) -> bool {
    match row {
        Some(row) => row.numbers() == numbers,
        None => false,
    }
}

// A row that another owner has keeps its numbers where the device stores.
#[test]
fn a_lent_row_keeps_its_numbers(rt: HostRuntime) -> Result<(), Fail> {
    let alloc = rt.alloc();
    let mut host = Memory::new(alloc, &[8, 8])?;
    let mut table = Table::new(alloc, 16);
    assert!(rt; has_two_blocks(&mut table, &mut host));
    let before = lent(alloc, &mut table)?;
    let new = RowCells::Own(vec![in alloc; 80, 81]?);
    table.store_row(ArrayId(1), 5, &new, &Marks::Run(0, 2));
    let after = lent(alloc, &mut table)?;
    assert!(rt; has_numbers(&before, &[15, 16]) && has_numbers(&after, &[80, 81]));
    assert!(rt; reads(alloc, &table, 5, &[80, 81])?);
    Ok(())
}

// The host and two devices have array 0, each with the numbers of the host.
fn are_shared(host: &mut Memory, first: &mut Table, second: &mut Table) -> bool {
    let all = section(0, 0, 4);
    set(host, &all, &[1, 2, 3, 4])
        && enter(first, &item(MapKind::To, all), host).is_ok()
        && enter(second, &item(MapKind::To, all), host).is_ok()
}

// A store of the host and one of a device are seen by none of the others.
fn are_apart(host: &mut Memory, first: &mut Table, second: &Table) -> bool {
    set(host, &section(0, 1, 1), &[9])
        && first.store(cell(0, 2), 8)
        && holds(host, &section(0, 0, 4), &[1, 9, 3, 4])
        && has(first, cell(0, 1), 2)
        && has(first, cell(0, 2), 8)
        && has(second, cell(0, 1), 2)
        && has(second, cell(0, 2), 3)
}

// A copy to the one device, and one from the other as its block goes.
fn are_copied(host: &mut Memory, first: &mut Table, second: &mut Table) -> bool {
    let all = section(0, 0, 4);
    enter(second, &always(MapKind::To, all), host).is_ok()
        && has(second, cell(0, 1), 9)
        && exit(first, &item(MapKind::From, all), host).is_ok()
        && holds(host, &all, &[1, 2, 8, 4])
        && has(second, cell(0, 1), 9)
}

#[test]
fn a_shared_array_changes_on_one_side(rt: HostRuntime) -> Result<(), Fail> {
    let mut host = Memory::new(rt.alloc(), &[4])?;
    let mut first = Table::new(rt.alloc(), 4);
    let mut second = first.another();
    assert!(rt; are_shared(&mut host, &mut first, &mut second));
    assert!(rt; are_apart(&mut host, &mut first, &second));
    assert!(rt; are_copied(&mut host, &mut first, &mut second));
    Ok(())
}
