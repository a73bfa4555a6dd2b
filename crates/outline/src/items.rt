// One item.

ghost use Rattle.std.specs.Prelude.{◌≡◌, ◌++◌, false, true, map, IfOk, OnOk, Some};
ghost use Rattle.base.specs.Items.{alone_work, data_work, depends_of, host_work, map_of, region_kind, target_work};
ghost use Rattle.outline.specs.Bare.{bare_work, tasked_work, wait_work};
ghost use Rattle.outline.specs.Shown.{shown};
ghost use Rattle.outline.specs.Walk.{RegionIsAt, entries_in, implicit_of, is_named};

use crate::bounds::device;
use crate::known::Known;
use crate::maps::{depend_items, enter_maps, exit_maps, region_maps, update_maps};
use base::item::{Item, ItemKind, LoopValues, MapItem, MapKind, Section};
use base::tree::{
    ArrayId, Data, DependText, DeviceId, Directive, MapText, Place, Region, RegionKind, Target,
    Tasking,
};
use smallvec::SmallVec;
use std::alloc::{AllocError, Global};

fn loop_values(alloc: Global, loops: &[u64]) -> Result<LoopValues, AllocError>
    ensures { IfOk result (λ l. l.values.items ≡ loops.now) }
{
    Ok(LoopValues {
        values: SmallVec::from_slice(alloc, loops)?,
    })
}

/// A run of statements on the host: the region of that number.
pub fn host_item(
    known: &Known<'_, '_>,
    region: &Region,
    number: u32,
    loops: &[u64],
) -> Result<Item, AllocError>
    requires { RegionIsAt known.now number false region.now }
    ensures { IfOk result (λ i. shown (entries_in known.now) i ≡ Some (host_work region.now loops.now)) }
{
    Ok(Item {
        kind: ItemKind::Host,
        place: region.place,
        deferred: false,
        device: DeviceId::default(),
        maps: SmallVec::new(known.alloc),
        depends: SmallVec::new(known.alloc),
        region: Some(number),
        loops: loop_values(known.alloc, loops)?,
    })
}

fn is_named(written: &[MapText<RegionKind>], array: ArrayId) -> bool
    ensures { result ≡ is_named written.now array.0 }
{
    'written: for text in written {
        if array.0 == text.section.array.0 {
            return true;
        }
    }
    false
}

fn implicit_map(lengths: &[u32], place: Place, array: ArrayId) -> MapItem
    ensures { result ≡ Rattle.base.specs.Items.implicit_map lengths.now place array.0 }
{
    MapItem {
        kind: MapKind::ToFrom,
        always: false,
        present: false,
        section: Section {
            array,
            first: 0,
            length: u64::from(lengths.get(array.0 as usize).copied().unwrap_or(0)),
        },
        line: place.line,
        column: place.column,
    }
}

// Adds the arrays that no written map item names.
fn add_implicit(
    maps: &mut SmallVec<MapItem, 2>,
    lengths: &[u32],
    place: Place,
    written: &[MapText<RegionKind>],
    arrays: &[ArrayId],
) -> Result<(), AllocError>
    ensures { OnOk result (maps.new.items ≡ maps.old.items ++ implicit_of lengths.now place written.now arrays.now) }
{
    'arrays: for array in arrays {
        if !is_named(written, *array) {
            maps.push(implicit_map(lengths, place, *array))?;
        }
    }
    Ok(())
}

// The map items of a `target`: the written ones, and behind them the implicit ones.
fn target_maps(
    known: &Known<'_, '_>,
    target: &Target,
    place: Place,
    arrays: &[ArrayId],
    loops: &[u64],
) -> Result<SmallVec<MapItem, 2>, AllocError>
    ensures { IfOk result (λ maps. maps.items ≡ map (map_of region_kind known.now.lengths.now loops.now) target.now.maps.items ++ implicit_of known.now.lengths.now place target.now.maps.items arrays.now) }
{
    let mut maps = region_maps(known.alloc, &target.maps, known.lengths, loops)?;
    add_implicit(&mut maps, known.lengths, place, &target.maps, arrays)?;
    Ok(maps)
}

/// A `target`. An array that its region uses and no map item names is mapped whole (OpenMP API 5.2, section 5.8.1).
pub fn target_item(
    known: &Known<'_, '_>,
    target: &Target,
    region: &Region,
    number: u32,
    loops: &[u64],
) -> Result<Item, AllocError>
    requires { RegionIsAt known.now number true region.now }
    ensures { IfOk result (λ i. shown (entries_in known.now) i ≡ Some (target_work known.now.lengths.now target.now region.now loops.now)) }
{
    let arrays = &known.regions[number as usize].arrays;
    Ok(Item {
        kind: ItemKind::Target,
        place: target.place,
        deferred: target.tasking.nowait,
        device: device(target.tasking.device, loops),
        maps: target_maps(known, target, region.place, arrays, loops)?,
        depends: depend_items(known.alloc, &target.tasking.depends, known.lengths, loops)?,
        region: Some(number),
        loops: loop_values(known.alloc, loops)?,
    })
}

/// What an item is, without the items of its clauses.
#[derive(Clone, Copy)]
struct Head {
    kind: ItemKind,
    place: Place,
    deferred: bool,
    device: DeviceId,
}

// An item that has no region.
fn bare_item(
    known: &Known<'_, '_>,
    head: Head,
    maps: SmallVec<MapItem, 2>,
    depends: &[DependText],
    loops: &[u64],
) -> Result<Item, AllocError>
    ensures { IfOk result (λ i. shown (entries_in known.now) i ≡ Some (bare_work head maps.items (depends_of known.now.lengths.now loops.now depends.now) loops.now)) }
{
    Ok(Item {
        kind: head.kind,
        place: head.place,
        deferred: head.deferred,
        device: head.device,
        maps,
        depends: depend_items(known.alloc, depends, known.lengths, loops)?,
        region: None,
        loops: loop_values(known.alloc, loops)?,
    })
}

/// The beginning or the end of a `target data`.
pub fn data_item(
    known: &Known<'_, '_>,
    kind: ItemKind,
    construct: &Data,
    loops: &[u64],
) -> Result<Item, AllocError>
    ensures { IfOk result (λ i. shown (entries_in known.now) i ≡ Some (data_work kind known.now.lengths.now construct.now loops.now)) }
{
    let head = Head {
        kind,
        place: construct.place,
        deferred: false,
        device: device(construct.device, loops),
    };
    let maps = region_maps(known.alloc, &construct.maps, known.lengths, loops)?;
    bare_item(known, head, maps, &[], loops)
}

// A directive that stands alone and may be deferred.
fn tasked_item(
    known: &Known<'_, '_>,
    kind: ItemKind,
    place: Place,
    maps: SmallVec<MapItem, 2>,
    tasking: &Tasking,
    loops: &[u64],
) -> Result<Item, AllocError>
    ensures { IfOk result (λ i. shown (entries_in known.now) i ≡ Some (tasked_work kind place known.now.lengths.now maps.items tasking.now loops.now)) }
{
    let head = Head {
        kind,
        place,
        deferred: tasking.nowait,
        device: device(tasking.device, loops),
    };
    bare_item(known, head, maps, &tasking.depends, loops)
}

// A `taskwait`.
fn wait_item(
    known: &Known<'_, '_>,
    place: Place,
    depends: &[DependText],
    loops: &[u64],
) -> Result<Item, AllocError>
    ensures { IfOk result (λ i. shown (entries_in known.now) i ≡ Some (wait_work place known.now.lengths.now depends.now loops.now)) }
{
    let head = Head {
        kind: ItemKind::Wait,
        place,
        deferred: false,
        device: DeviceId::default(),
    };
    bare_item(known, head, SmallVec::new(known.alloc), depends, loops)
}

/// A directive that stands alone.
pub fn alone_item(
    known: &Known<'_, '_>,
    place: Place,
    directive: &Directive,
    loops: &[u64],
) -> Result<Item, AllocError>
    ensures { IfOk result (λ i. shown (entries_in known.now) i ≡ Some (alone_work known.now.lengths.now place directive.now loops.now)) }
{
    let (alloc, lengths) = (known.alloc, known.lengths);
    match directive {
        Directive::Enter(maps, tasking) => {
            let maps = enter_maps(alloc, maps, lengths, loops)?;
            tasked_item(known, ItemKind::Enter, place, maps, tasking, loops)
        }
        Directive::Exit(maps, tasking) => {
            let maps = exit_maps(alloc, maps, lengths, loops)?;
            tasked_item(known, ItemKind::Exit, place, maps, tasking, loops)
        }
        Directive::Update(sections, tasking) => {
            let maps = update_maps(alloc, sections, lengths, loops)?;
            tasked_item(known, ItemKind::Update, place, maps, tasking, loops)
        }
        Directive::Wait(depends) => wait_item(known, place, depends, loops),
    }
}
