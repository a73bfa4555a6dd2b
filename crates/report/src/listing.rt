// The listing of a program's items.

ghost use Rattle.std.specs.Prelude.{◌≡◌, if◌then◌else◌, [], codes, flat_map, map, string_bytes, IfOk, OnOk};
ghost use Rattle.std.specs.Io.KnownBytes.{Appends};
ghost use Rattle.outline.specs.Regions.{entry_of};
ghost use Rattle.report.specs.Listing.{depend_text, depend_word, depth_of, device_text, kind_word, line_of, list_bytes, map_text, map_word, name_of, region_in, section_text, unordered_text};

use base::item::{Depend, Item, ItemKind, MapItem, MapKind, Section};
use base::tree::{ArrayId, DependKind, DeviceId, Program};
use outline::{Outlined, RegionEntry};
use std::alloc::{AllocError, Global};
use std::io;
use std::io::Write;

fn kind_word(kind: ItemKind) -> &'static str
    ensures { result.now ≡ kind_word kind }
{
    match kind {
        ItemKind::Host => "host",
        ItemKind::Target => "target",
        ItemKind::Begin => "begin",
        ItemKind::End => "end",
        ItemKind::Enter => "enter",
        ItemKind::Exit => "exit",
        ItemKind::Update => "update",
        ItemKind::Wait => "wait",
    }
}

fn map_word(kind: MapKind) -> &'static str
    ensures { result.now ≡ map_word kind }
{
    match kind {
        MapKind::To => "to",
        MapKind::From => "from",
        MapKind::ToFrom => "tofrom",
        MapKind::Alloc => "alloc",
        MapKind::Release => "release",
        MapKind::Delete => "delete",
    }
}

fn depend_word(kind: DependKind) -> &'static str
    ensures { result.now ≡ depend_word kind }
{
    match kind {
        DependKind::In => "dep-in",
        DependKind::Out => "dep-out",
        DependKind::InOut => "dep-inout",
    }
}

fn always_word(always: bool) -> &'static str
    ensures { result.now ≡ (if always then codes "always " else []) }
{
    if always { "always " } else { "" }
}

fn present_word(present: bool) -> &'static str
    ensures { result.now ≡ (if present then codes "present " else []) }
{
    if present { "present " } else { "" }
}

fn deferred_word(deferred: bool) -> &'static str
    ensures { result.now ≡ (if deferred then codes " nowait" else []) }
{
    if deferred { " nowait" } else { "" }
}

// The device of an item, which is not named where it is the first.
fn device_text(alloc: Global, device: DeviceId) -> Result<String, AllocError>
    ensures { IfOk result (λ text. string_bytes text ≡ device_text device.number) }
{
    if device.number == 0 {
        return Ok(String::new(alloc));
    }
    format!(in alloc; " device {}", device.number)
}

// Of how many loops the turns may run in any order, where the turns of any may.
fn unordered_text(alloc: Global, depth: u8) -> Result<String, AllocError>
    ensures { IfOk result (λ text. string_bytes text ≡ unordered_text depth) }
{
    match depth {
        0 => Ok(String::new(alloc)),
        1 => String::from_str(alloc, " unordered"),
        _ => format!(in alloc; " unordered {}", depth),
    }
}

// Of how many loops of an item's region the turns may run in any order.
fn depth_of(regions: &[RegionEntry<'_>], item: &Item) -> u8
    ensures { result ≡ depth_of (region_in (map entry_of regions.now) item.now) }
{
    match item.region {
        None => 0,
        Some(region) => match regions.get(region as usize) {
            None => 0,
            Some(entry) => entry.region.depth,
        },
    }
}

pub fn name_of(program: &Program, array: ArrayId) -> &str
    ensures { result.now ≡ name_of program.now array.0 }
{
    match program.arrays.get_index(array.0 as usize) {
        None => "",
        Some((name, _)) => name.as_str(),
    }
}

fn section_text(alloc: Global, program: &Program, section: &Section) -> Result<String, AllocError>
    ensures { IfOk result (λ text. string_bytes text ≡ section_text program.now section.now) }
{
    let name = name_of(program, section.array);
    format!(in alloc; "{}[{}:{}]", name, section.first, section.length)
}

fn map_text(alloc: Global, program: &Program, map: &MapItem) -> Result<String, AllocError>
    ensures { IfOk result (λ text. string_bytes text ≡ map_text program.now map.now) }
{
    let section = section_text(alloc, program, &map.section)?;
    let (always, present) = (always_word(map.always), present_word(map.present));
    format!(in alloc; " {}{}{} {}", always, present, map_word(map.kind), section)
}

fn depend_text(alloc: Global, program: &Program, depend: &Depend) -> Result<String, AllocError>
    ensures { IfOk result (λ text. string_bytes text ≡ depend_text program.now depend.now) }
{
    let section = section_text(alloc, program, &depend.section)?;
    format!(in alloc; " {} {}", depend_word(depend.kind), section)
}

fn maps_text(alloc: Global, program: &Program, maps: &[MapItem]) -> Result<String, AllocError>
    ensures { IfOk result (λ text. string_bytes text ≡ flat_map (map_text program.now) maps.now) }
{
    let mut text = String::new(alloc);
    'maps: for map in maps {
        text.push_str(&map_text(alloc, program, map)?)?;
    }
    Ok(text)
}

fn depends_text(alloc: Global, program: &Program, depends: &[Depend]) -> Result<String, AllocError>
    ensures { IfOk result (λ text. string_bytes text ≡ flat_map (depend_text program.now) depends.now) }
{
    let mut text = String::new(alloc);
    'depends: for depend in depends {
        text.push_str(&depend_text(alloc, program, depend)?)?;
    }
    Ok(text)
}

// The line of an item.
fn line_text(
    alloc: Global,
    program: &Program,
    depth: u8,
    number: usize,
    item: &Item,
) -> Result<String, AllocError>
    ensures { IfOk result (λ text. string_bytes text ≡ line_of program.now number item.now.kind item.now.deferred item.now.device.number depth item.now.maps.items item.now.depends.items) }
{
    let (kind, deferred) = (kind_word(item.kind), deferred_word(item.deferred));
    let device = device_text(alloc, item.device)?;
    let unordered = unordered_text(alloc, depth)?;
    let maps = maps_text(alloc, program, &item.maps)?;
    let depends = depends_text(alloc, program, &item.depends)?;
    format!(in alloc;
        "{} {}{}{}{}{}{}\n",
        number, kind, deferred, device, unordered, maps, depends
    )
}

/// Writes the items of a program, a line for each: its number from 0, its kind, `nowait` where it is deferred, its device
/// where that is not 0, `unordered` where the turns of its loop may run in any order, and of how many loops where of
/// more than one, each map item with its modifiers, type and section, and each depend item with its section. An error of the writer is answered, and then no more is written; so is want of memory, as an error of that kind.
pub fn list_text<W: Write>(alloc: Global, outlined: &Outlined<'_>, out: &mut W) -> io::Result<()>
    ensures { OnOk result (Appends (W.contents out.old) (W.contents out.new) (list_bytes outlined.now)) }
{
    let program = outlined.program();
    'items: for (number, item) in outlined.items().iter().enumerate() {
        let depth = depth_of(outlined.regions(), item);
        let line = line_text(alloc, program, depth, number, item)?;
        out.write_all(line.as_bytes())?;
    }
    Ok(())
}
