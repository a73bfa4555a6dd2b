// The items of a program's parts.

ghost use Rattle.std.specs.Prelude.{◌≡◌, ◌-◌, ◌^◌, ◌++◌, ◌∷◌, [], min, OnOk};
ghost use Rattle.base.specs.Items.{items_of};
ghost use Rattle.outline.specs.Parts.{parts_items, turns_items};
ghost use Rattle.outline.specs.Walk.{Added, PartIsAt, PartsAreAt, entries_in, list_regions, part_regions};

use crate::count::count_all;
use crate::items::{alone_item, data_item, host_item, target_item};
use crate::known::Known;
use base::item::{Item, ItemKind};
use base::tree::{Bounds, Part};
use std::alloc::AllocError;

#[tactic(auto, using(crate::proofs::Trees::regions_Block))]
// How many regions a part has; a number above `u32::MAX` is kept as that.
#[cycle(regions)]
fn regions_in(part: &Part) -> u32
    ensures { result ≡ min (part_regions part.now) (2 ^ 32 - 1) }
{
    match part {
        Part::Host(_) | Part::Target(_, _) => 1,
        Part::Block(all) => regions_in_all(all),
        Part::Loop(_, body) => regions_in_all(body),
        Part::Data(_, body) => regions_in_all(body),
        Part::Alone(_, _) => 0,
    }
}

#[cycle(regions)]
fn regions_in_all(parts: &[Part]) -> u32
    ensures { result ≡ min (list_regions parts.now) (2 ^ 32 - 1) }
{
    let mut total = 0u32;
    'parts: for part in parts {
        total = total.saturating_add(regions_in(part));
    }
    total
}

fn add_item(items: &mut Vec<Item>, item: Item) -> Result<(), AllocError>
    ensures { OnOk result (items.new.items ≡ items.old.items ++ item ∷ []) }
{
    items.push(item)?;
    Ok(())
}

// Adds the items of a part, whose first region has that number.
#[cycle(walk)]
fn add_part(
    known: &Known<'_, '_>,
    part: &Part,
    first: u32,
    loops: &mut Vec<u64>,
    items: &mut Vec<Item>,
) -> Result<(), AllocError>
    requires { PartIsAt known.now first part.now }
    ensures loops { OnOk result (loops.new.items ≡ loops.old.items) }
    ensures items { OnOk result (Added (entries_in known.now) items.old.items items.new.items (items_of part.now known.now.lengths.now loops.old.items)) }
{
    match part {
        Part::Host(region) => add_item(items, host_item(known, region, first, loops)?),
        Part::Block(all) => add_all(known, all, first, loops, items),
        Part::Loop(bounds, body) => add_turns(known, *bounds, body, first, loops, items),
        Part::Target(target, region) => {
            add_item(items, target_item(known, target, region, first, loops)?)
        }
        Part::Data(data, body) => {
            add_item(items, data_item(known, ItemKind::Begin, data, loops)?)?;
            add_all(known, body, first, loops, items)?;
            add_item(items, data_item(known, ItemKind::End, data, loops)?)
        }
        Part::Alone(place, directive) => {
            add_item(items, alone_item(known, *place, directive, loops)?)
        }
    }
}

/// Adds the items of some parts, whose first region has that number.
#[cycle(walk)]
pub fn add_all(
    known: &Known<'_, '_>,
    parts: &[Part],
    first: u32,
    loops: &mut Vec<u64>,
    items: &mut Vec<Item>,
) -> Result<(), AllocError>
    requires { PartsAreAt known.now first parts.now }
    ensures loops { OnOk result (loops.new.items ≡ loops.old.items) }
    ensures items { OnOk result (Added (entries_in known.now) items.old.items items.new.items (parts_items parts.now known.now.lengths.now loops.old.items)) }
{
    let mut next = first;
    'parts: for part in parts {
        add_part(known, part, next, loops, items)?;
        next += regions_in(part);
    }
    Ok(())
}

// Adds the items of each turn of a loop. One whose turns have no items is passed over.
#[cycle(walk)]
fn add_turns(
    known: &Known<'_, '_>,
    bounds: Bounds,
    body: &[Part],
    first: u32,
    loops: &mut Vec<u64>,
    items: &mut Vec<Item>,
) -> Result<(), AllocError>
    requires { PartsAreAt known.now first body.now }
    ensures loops { OnOk result (loops.new.items ≡ loops.old.items) }
    ensures items { OnOk result (Added (entries_in known.now) items.old.items items.new.items (turns_items bounds.first bounds body.now known.now.lengths.now loops.old.items)) }
{
    if count_all(body) == 0 {
        return Ok(());
    }
    let mut v = bounds.first;
    'turns: while v < bounds.end {
        loops.push(v)?;
        add_all(known, body, first, loops, items)?;
        let _ = loops.pop();
        v += bounds.step;
    }
    Ok(())
}
