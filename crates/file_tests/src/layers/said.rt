//! What the layers of the check say of a source, in lines:
//!
//!   E101 line 2 column 1            the first fault of the text or of the count of items, and then no more; or
//!   0 target to A[0:4]              the items, as they are listed;
//!   region 0 kernel A B s1          of each region whether it is a kernel, its arrays, and the scalars that it captures;
//!   cells 3 region 0 at 5 7         of each item with a region the region and the value of each loop name around,
//!   A exposed 01 read 01 write 10 sure 10      and of each array which cells it touches, a digit for each cell;
//!   before 3: 0 1                   of each item the items before it;
//!   acts 2: A[0:4] creates          of each item that is done what its map items do, each with its block;
//!   marked A                        the arrays that the walk marks current;
//!   check: accepted                 what the check answers, with the arrays that are current at the end;
//!   reach 1: A[0:3] B[1:1]          of each item the runs of cells that its region may touch.
//!
//! A fault of range ends the lines of cells, and two depend items that clash stand in place of the order; then the lines
//! of the check are next. The refusal of an item by itself stands behind the marked arrays. A program that is not
//! accepted ends with the check's refusal.

ghost use Rattle.base.specs.Items.{plan};
ghost use Rattle.mapwalk.specs.Footprints.{AreFootprints};
ghost use Rattle.mapwalk.specs.Found.{all_found};
ghost use Rattle.mapwalk.specs.Walk.{HasNoRangeFault};

use crate::text::Text;
use base::fault::CheckFault;
use base::item::{Cell, Item, Section};
use base::tree::{ArrayId, Program};
use c_read::read_program;
use mapcheck::passes::{footprints_of, order_of};
use mapcheck::{Accepted, check, current_at_end};
use mapwalk::{Acts, Footprints, Walked, footprint_of, repeats, walk};
use order::Order;
use outline::{Outlined, RegionEntry, outline};
use ranges::{CellSet, Footprint, FootprintFault, sections};
use report::{accepted_text, list_text, refusal_text};
use std::alloc::{AllocError, Global};

/// What the layers say of a source.
pub(crate) fn said(alloc: Global, source: &[u8]) -> Result<Vec<u8>, AllocError> {
    let mut out = Text::new(alloc);
    say_source(alloc, source, &mut out);
    out.end()
}

fn say_source(alloc: Global, source: &[u8], out: &mut Text) {
    match read_program(alloc, source) {
        Err(fault) => out.add_line(fault),
        Ok(program) => say_program(alloc, &program, out),
    }
}

fn say_program(alloc: Global, program: &Program, out: &mut Text) {
    match outline(alloc, program) {
        Err(fault) => out.add_line(fault),
        Ok(outlined) => say_outlined(alloc, &outlined, out),
    }
}

fn say_outlined(alloc: Global, outlined: &Outlined<'_>, out: &mut Text) {
    let listed = list_text(alloc, outlined, out.bytes());
    out.keep(listed);
    for (number, entry) in outlined.regions().iter().enumerate() {
        say_region(outlined, number, entry, out);
    }
    say_cells(alloc, outlined, out);
    say_found(alloc, outlined, out);
    say_check(alloc, outlined, out);
}

fn say_found(alloc: Global, outlined: &Outlined<'_>, out: &mut Text) {
    let Ok(repeats) = repeats(alloc, outlined) else {
        return out.lack();
    };
    match footprints_of(alloc, outlined, &repeats) {
        Ok(found) => say_passes(alloc, outlined, &found, out),
        Err(CheckFault::OutOfMemory) => out.lack(),
        // The lines of cells end with it.
        Err(_) => {}
    }
}

fn say_refusal(alloc: Global, outlined: &Outlined<'_>, fault: &CheckFault, out: &mut Text) {
    let written = refusal_text(alloc, outlined.program(), fault, out.bytes());
    out.keep(written);
}

fn say_name(outlined: &Outlined<'_>, array: ArrayId, out: &mut Text) {
    if let Some((name, _)) = outlined.program().arrays.get_index(array.0 as usize) {
        out.add(name);
    }
}

fn say_region(outlined: &Outlined<'_>, number: usize, entry: &RegionEntry<'_>, out: &mut Text) {
    out.add_with("region ", number);
    out.add(if entry.is_kernel { " kernel" } else { " host" });
    say_arrays(outlined, &entry.arrays, out);
    for scalar in &entry.captures {
        out.add_with(" s", scalar.0);
    }
    out.add("\n");
}

fn say_arrays(outlined: &Outlined<'_>, arrays: &[ArrayId], out: &mut Text) {
    for array in arrays {
        out.add(" ");
        say_name(outlined, *array, out);
    }
}

fn say_section(outlined: &Outlined<'_>, section: &Section, out: &mut Text) {
    out.add(" ");
    say_name(outlined, section.array, out);
    out.add_with("[", section.first);
    out.add_with(":", section.length);
    out.add("]");
}

// A copy of the cells that the region of an item touches.
fn touched(
    alloc: Global,
    outlined: &Outlined<'_>,
    item: &Item,
) -> Result<Option<Footprint>, FootprintFault> {
    if let Err(fault) = sections(outlined.program(), item) {
        return Err(FootprintFault::Range(fault));
    }
    let Some(found) = footprint_of(alloc, outlined, item)? else {
        return Ok(None);
    };
    match found.clone() {
        Ok(copy) => Ok(Some(copy)),
        Err(_) => Err(FootprintFault::OutOfMemory),
    }
}

// Up to the first item with a fault of range.
fn say_cells(alloc: Global, outlined: &Outlined<'_>, out: &mut Text) {
    for (item, number) in outlined.items().iter().zip(0u32..) {
        match touched(alloc, outlined, item) {
            Ok(Some(found)) => say_footprint(outlined, number, item, &found, out),
            Ok(None) => {}
            Err(FootprintFault::OutOfMemory) => out.lack(),
            Err(FootprintFault::Range(fault)) => {
                let fault = CheckFault::Range {
                    item: number,
                    fault,
                };
                return say_refusal(alloc, outlined, &fault, out);
            }
        }
    }
}

fn say_footprint(
    outlined: &Outlined<'_>,
    number: u32,
    item: &Item,
    found: &Footprint,
    out: &mut Text,
) {
    out.add_with("cells ", number);
    out.add_with(" region ", item.region.unwrap_or(0));
    out.add(" at");
    for value in item.loops.values.as_slice() {
        out.add_with(" ", *value);
    }
    out.add("\n");
    for (length, number) in outlined.lengths().iter().zip(0u32..) {
        say_touched(outlined, ArrayId(number), *length, found, out);
    }
}

// The cells of an array that a footprint has.
fn say_touched(
    outlined: &Outlined<'_>,
    array: ArrayId,
    length: u32,
    found: &Footprint,
    out: &mut Text,
) {
    say_name(outlined, array, out);
    say_set(" exposed ", &found.exposed, array, length, out);
    say_set(" read ", &found.read, array, length, out);
    say_set(" write ", &found.write, array, length, out);
    say_set(" sure ", &found.sure, array, length, out);
    out.add("\n");
}

// A digit for each cell of an array: 1 where the set has it.
fn say_set(what: &str, set: &CellSet, array: ArrayId, length: u32, out: &mut Text) {
    out.add(what);
    for index in 0..u64::from(length) {
        out.add_shown(u8::from(set.contains(Cell { array, index })));
    }
}

// The order and what the walk finds.
fn say_passes(alloc: Global, outlined: &Outlined<'_>, found: &Footprints, out: &mut Text)
    requires fine { HasNoRangeFault (plan outlined.now) }
    requires found { AreFootprints (plan outlined.now) (all_found found.now) }
{
    match order_of(alloc, outlined) {
        Err(CheckFault::OutOfMemory) => out.lack(),
        Err(fault) => say_refusal(alloc, outlined, &fault, out),
        Ok(order) => {
            say_order(&order, outlined.items().len() as u32, out);
            say_walk(alloc, outlined, found, out);
        }
    }
}

fn say_order(order: &Order<'_>, items: u32, out: &mut Text) {
    for item in 0..items {
        say_before(order, items, item, out);
    }
}

fn say_before(order: &Order<'_>, items: u32, item: u32, out: &mut Text) {
    out.add_with("before ", item);
    out.add(":");
    for other in 0..=items {
        if order.before(other, item) {
            out.add_with(" ", other);
        }
    }
    out.add("\n");
}

fn say_walk(alloc: Global, outlined: &Outlined<'_>, found: &Footprints, out: &mut Text)
    requires fine { HasNoRangeFault (plan outlined.now) }
    requires found { AreFootprints (plan outlined.now) (all_found found.now) }
{
    match walk(alloc, outlined, found) {
        Ok(walked) => say_walked(alloc, outlined, &walked, out),
        Err(_) => out.lack(),
    }
}

fn say_walked(alloc: Global, outlined: &Outlined<'_>, walked: &Walked, out: &mut Text) {
    for (number, row) in walked.acts.iter().enumerate() {
        say_acts(outlined, number, row, out);
    }
    out.add("marked");
    say_arrays(outlined, &walked.current, out);
    out.add("\n");
    if let Some(fault) = walked.fault {
        say_refusal(alloc, outlined, &CheckFault::Refused(fault), out);
    }
}

fn say_acts(outlined: &Outlined<'_>, number: usize, row: &[Acts], out: &mut Text) {
    out.add_with("acts ", number);
    out.add(":");
    for acts in row {
        say_section(outlined, &acts.block, out);
        say_words(acts, out);
    }
    out.add("\n");
}

// A word for each thing that a map item does.
fn say_words(acts: &Acts, out: &mut Text) {
    out.add(word_if(acts.creates, " creates"));
    out.add(word_if(acts.copies_in, " copies-in"));
    out.add(word_if(acts.copies_out, " copies-out"));
    out.add(word_if(acts.removes, " removes"));
    out.add(word_if(acts.rests, " rests"));
}

fn word_if(does: bool, word: &'static str) -> &'static str {
    if does { word } else { "" }
}

fn say_check(alloc: Global, outlined: &Outlined<'_>, out: &mut Text) {
    out.add("check: ");
    match check(alloc, outlined) {
        Err(fault) => say_refusal(alloc, outlined, &fault, out),
        Ok(accepted) => say_accepted(alloc, &accepted, out),
    }
}

fn say_accepted(alloc: Global, accepted: &Accepted<'_>, out: &mut Text) {
    say_current(alloc, accepted, out);
    for (number, runs) in accepted.reaches().iter().enumerate() {
        out.add_with("reach ", number);
        out.add(":");
        say_runs(accepted.outlined(), runs, out);
    }
}

fn say_runs(outlined: &Outlined<'_>, runs: &[Section], out: &mut Text) {
    for run in runs {
        if run.length > 0 {
            say_section(outlined, run, out);
        }
    }
    out.add("\n");
}

fn say_current(alloc: Global, accepted: &Accepted<'_>, out: &mut Text) {
    let Ok(current) = current_at_end(alloc, accepted) else {
        return out.lack();
    };
    let written = accepted_text(alloc, accepted.outlined().program(), &current, out.bytes());
    out.keep(written);
}
