// Which cells are current, on the host and on a device.

ghost use Rattle.std.specs.Prelude.{◌≡◌, ◌<◌, ◌^◌, length, map, filter, IfOk};
ghost use Rattle.std.specs.List.{range_with_len};
ghost use Rattle.base.specs.Memory.{within};
ghost use Rattle.base.specs.Current.{nowhere};
ghost use Rattle.ranges.specs.Cells.{has};
ghost use Rattle.mapwalk.specs.Current.{AreInside, IsStart, array_number, is_full_in, marks_in, row_lengths, with_added, with_cut};
ghost use Rattle.mapwalk.specs.Sides.{after_act, after_acts, shown_by};

use crate::marks::Marks;
use crate::rows::Acts;
use base::item::{MapItem, Section};
use base::tree::ArrayId;
use ranges::CellSet;
use std::alloc::{AllocError, Global};

// Takes the marks of a section's cells away.
fn clear_section(side: &mut [Marks], section: &Section)
    ensures marks { marks_in side.new ≡ within section.now nowhere (marks_in side.old) }
    ensures lengths { row_lengths side.new ≡ row_lengths side.old }
{
    let array = section.array.0 as usize;
    if array < side.len() {
        side[array].clear(section);
    }
}

// Gives a section's cells the marks of the other side.
fn copy_section(side: &mut [Marks], from: &[Marks], section: &Section)
    requires { row_lengths side.old ≡ row_lengths from.now }
    ensures marks { marks_in side.new ≡ within section.now (marks_in from.now) (marks_in side.old) }
    ensures lengths { row_lengths side.new ≡ row_lengths side.old }
{
    let array = section.array.0 as usize;
    if array < side.len() {
        side[array].copy(&from[array], section);
    }
}

// Marks the cells of a set, each of which is a cell of an array.
fn add_set(side: &mut [Marks], cells: &CellSet)
    requires few { length side.old < 2 ^ 32 }
    requires inside { AreInside (row_lengths side.old) (has cells.now) }
    ensures marks { marks_in side.new ≡ with_added (has cells.now) (marks_in side.old) }
    ensures lengths { row_lengths side.new ≡ row_lengths side.old }
{
    'arrays: for array in 0..side.len() {
        side[array].add(cells.row(ArrayId(array as u32)));
    }
}

/// Takes the marks of the cells of a set away, each of which is a cell of an array.
pub fn cut_set(side: &mut [Marks], cells: &CellSet)
    requires few { length side.old < 2 ^ 32 }
    requires inside { AreInside (row_lengths side.old) (has cells.now) }
    ensures marks { marks_in side.new ≡ with_cut (has cells.now) (marks_in side.old) }
    ensures lengths { row_lengths side.new ≡ row_lengths side.old }
{
    'arrays: for array in 0..side.len() {
        side[array].take_away(cells.row(ArrayId(array as u32)));
    }
}

/// The marks of the arrays' cells, each of which has this one.
pub fn side_of(alloc: Global, lengths: &[u32], mark: bool) -> Result<Vec<Marks>, AllocError>
    ensures lengths { IfOk result (λ s. row_lengths s.items ≡ lengths.now) }
    ensures marks { IfOk result (λ s. IsStart lengths.now mark s.items) }
{
    let mut side = Vec::new(alloc);
    'arrays: for length in lengths {
        side.push(Marks::new(alloc, *length as usize, mark)?)?;
    }
    Ok(side)
}

// What a map item does on the host and on its device.
fn act(host: &mut [Marks], device: &mut [Marks], section: &Section, acts: &Acts)
    requires { row_lengths host.old ≡ row_lengths device.old }
    ensures shown { shown_by host.new device.new ≡ after_act section.now acts.now (shown_by host.old device.old) }
    ensures host { row_lengths host.new ≡ row_lengths host.old }
    ensures device { row_lengths device.new ≡ row_lengths device.old }
{
    if acts.creates {
        clear_section(device, &acts.block);
    }
    if acts.copies_in {
        copy_section(device, host, section);
    }
    if acts.copies_out {
        copy_section(host, device, section);
    }
    if acts.removes {
        clear_section(device, &acts.block);
    }
}

/// What map items do, in turn, on the host and on their device.
pub fn act_all(host: &mut [Marks], device: &mut [Marks], maps: &[MapItem], row: &[Acts])
    requires { row_lengths host.old ≡ row_lengths device.old }
    ensures shown { shown_by host.new device.new ≡ after_acts maps.now row.now (shown_by host.old device.old) }
    ensures host { row_lengths host.new ≡ row_lengths host.old }
    ensures device { row_lengths device.new ≡ row_lengths device.old }
{
    'maps: for i in 0..maps.len().min(row.len()) {
        act(host, device, &maps[i].section, &row[i]);
    }
}

/// What a region surely writes becomes current on its own side, and what it may write is not on the other one.
pub fn run_on(own: &mut [Marks], other: &mut [Marks], sure: &CellSet, write: &CellSet)
    requires few { length own.old < 2 ^ 32 }
    requires same { row_lengths own.old ≡ row_lengths other.old }
    requires sure { AreInside (row_lengths own.old) (has sure.now) }
    requires write { AreInside (row_lengths own.old) (has write.now) }
    ensures own { marks_in own.new ≡ with_added (has sure.now) (marks_in own.old) }
    ensures other { marks_in other.new ≡ with_cut (has write.now) (marks_in other.old) }
    ensures own_lengths { row_lengths own.new ≡ row_lengths own.old }
    ensures other_lengths { row_lengths other.new ≡ row_lengths other.old }
{
    add_set(own, sure);
    cut_set(other, write);
}

/// The arrays of which each cell is marked, in ascending order.
pub fn full(alloc: Global, side: &[Marks]) -> Result<Vec<ArrayId>, AllocError>
    requires { length side.now < 2 ^ 32 }
    ensures { IfOk result (λ full. map array_number full.items ≡ filter (is_full_in side.now) (range_with_len 0 (length side.now))) }
{
    let mut full = Vec::new(alloc);
    'arrays: for array in 0..side.len() {
        if side[array].is_full() {
            full.push(ArrayId(array as u32))?;
        }
    }
    Ok(full)
}
