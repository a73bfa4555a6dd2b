// The tables of all devices, from event to event.

ghost use Rattle.std.specs.Prelude.{◌≡◌, [], length, map, slice_get, IfOk, OnOk, option_map};
ghost use Rattle.std.specs.Io.KnownBytes.{Appends};
ghost use Rattle.maps.specs.Maps.{after_event, at_close, at_open, event_lines, maps_bytes, met_by, met_with, role_of, run_maps_bytes};
ghost use Rattle.maps.specs.Shown.{met_of, tables_in};

use crate::blocks::Block;
use crate::deeds::{Deed, tell_deeds};
use crate::lines::Spot;
use base::item::{Event, Item, ItemKind};
use base::tree::Program;
use outline::{Outlined, outline};
use std::alloc::{AllocError, Global};
use std::io;
use std::io::Write;

// How many devices there are.
const DEVICES: usize = 4;

/// An item, and what is done with its map items.
#[derive(Clone, Copy)]
pub struct Met<'a> {
    pub item: &'a Item,
    pub deed: Deed,
}

// What is done when an item is opened.
fn at_open(kind: ItemKind) -> Option<Deed>
    ensures { result ≡ at_open kind }
{
    match kind {
        ItemKind::Target | ItemKind::Begin | ItemKind::Enter => Some(Deed::Enter),
        ItemKind::End | ItemKind::Exit => Some(Deed::Leave),
        ItemKind::Update => Some(Deed::Update),
        ItemKind::Host | ItemKind::Wait => None,
    }
}

// What is done when an item is closed.
fn at_close(kind: ItemKind) -> Option<Deed>
    ensures { result ≡ at_close kind }
{
    match kind {
        ItemKind::Target => Some(Deed::Leave),
        ItemKind::Host
        | ItemKind::Begin
        | ItemKind::End
        | ItemKind::Enter
        | ItemKind::Exit
        | ItemKind::Update
        | ItemKind::Wait => None,
    }
}

fn opened(items: &[Item], number: u32) -> Option<Met<'_>>
    ensures { option_map met_of result ≡ met_with at_open (slice_get (map role_of items.now) number) }
{
    let item = items.get(number as usize)?;
    let deed = at_open(item.kind)?;
    Some(Met { item, deed })
}

fn closed(items: &[Item], number: u32) -> Option<Met<'_>>
    ensures { option_map met_of result ≡ met_with at_close (slice_get (map role_of items.now) number) }
{
    let item = items.get(number as usize)?;
    let deed = at_close(item.kind)?;
    Some(Met { item, deed })
}

// What an event does.
fn met_by(items: &[Item], event: Event) -> Option<Met<'_>>
    ensures { option_map met_of result ≡ met_by (map role_of items.now) event }
{
    match event {
        Event::Open(number) => opened(items, number),
        Event::Close(number) => closed(items, number),
        Event::Gen(_) | Event::Step(_) | Event::Wait(_) | Event::End => None,
    }
}

// A table for each device, without blocks.
fn empty_tables(alloc: Global) -> Result<Vec<Vec<Block>>, AllocError>
    ensures four { IfOk result (λ t. length t.items ≡ 4) }
    ensures empty { IfOk result (λ t. tables_in t.items ≡ (λ d. [])) }
{
    let mut tables = Vec::new(alloc);
    'devices: for _ in 0..DEVICES {
        tables.push(Vec::new(alloc))?;
    }
    Ok(tables)
}

fn tell_event<W: Write>(
    program: &Program,
    items: &[Item],
    event: Event,
    tables: &mut Vec<Vec<Block>>,
    out: &mut W,
) -> io::Result<()>
    requires { length tables.old.items ≡ 4 }
    ensures lines { OnOk result (Appends (W.contents out.old) (W.contents out.new) (event_lines program.now (map role_of items.now) event (tables_in tables.old.items))) }
    ensures tables { OnOk result (tables_in tables.new.items ≡ after_event (map role_of items.now) event (tables_in tables.old.items)) }
    ensures four { OnOk result (length tables.new.items ≡ 4) }
{
    let Some(met) = met_by(items, event) else {
        return Ok(());
    };
    let spot = Spot {
        line: met.item.place.line,
        device: met.item.device.number,
    };
    let blocks = &mut tables[met.item.device.number as usize];
    tell_deeds(program, spot, met.deed, &met.item.maps, blocks, out)
}

/// Writes what the events of items did on the tables of the devices, a line for each creation, copy, removal and count: the
/// line of the directive, its device, what was done, and the section; of a count also how often the block was then
/// entered and not yet left. An error of the writer is answered, and then no more is written; so is want of memory, as
/// an error of that kind.
pub fn maps_text<W: Write>(
    alloc: Global,
    program: &Program,
    items: &[Item],
    history: &[Event],
    out: &mut W,
) -> io::Result<()>
    ensures { OnOk result (Appends (W.contents out.old) (W.contents out.new) (maps_bytes program.now (map role_of items.now) history.now)) }
{
    let mut tables = empty_tables(alloc)?;
    'events: for event in history {
        tell_event(program, items, *event, &mut tables, out)?;
    }
    Ok(())
}

// The same of the items of a program.
fn outlined_text<W: Write>(
    alloc: Global,
    outlined: &Outlined<'_>,
    history: &[Event],
    out: &mut W,
) -> io::Result<()>
    ensures { OnOk result (Appends (W.contents out.old) (W.contents out.new) (run_maps_bytes outlined.now history.now)) }
{
    maps_text(alloc, outlined.program(), outlined.items(), history, out)
}

/// The same of a run of a program. The error is also want of memory where the program has too many items to be run.
pub fn run_maps_text<W: Write>(
    alloc: Global,
    program: &Program,
    history: &[Event],
    out: &mut W,
) -> io::Result<()>
    ensures { OnOk result (Appends (W.contents out.old) (W.contents out.new) (run_maps_bytes program.now history.now)) }
{
    match outline(alloc, program) {
        Ok(outlined) => outlined_text(alloc, &outlined, history, out),
        Err(_) => Err(io::Error::from(io::ErrorKind::OutOfMemory)),
    }
}
