// Depend items of two items whose sections overlap without being identical.

ghost use Rattle.std.specs.Prelude.{◌≡◌, ◌<◌, ◌≤◌, IfOk, length};
ghost use Rattle.base.specs.Limits.{most_items};
ghost use Rattle.order.specs.Clashes.{IsClashOf, IsFirstFound, least_of_all, least_of_one};

use crate::apart::clear_items;
use base::depend::overlap;
use base::fault::OrderFault;
use base::item::{Cell, Depend, Item, Section};
use base::least::lesser;
use std::alloc::{AllocError, Global};

// The first cell of two sections that overlap without being identical.
#[tactic(auto, unfolding(crate::specs::Clashes::clash_of))]
fn clash_of(left: &Section, right: &Section) -> Option<Cell>
    ensures { result ≡ Rattle.order.specs.Clashes.clash_of left.now right.now }
{
    if !overlap(left, right) || left == right {
        return None;
    }
    Some(Cell {
        array: left.array,
        index: left.first.max(right.first),
    })
}

// The least clash of a depend item with others, and of what was found before.
fn least_of_one(depend: &Depend, others: &[Depend], found: Option<Cell>) -> Option<Cell>
    ensures { result ≡ least_of_one depend.now others.now found }
{
    let mut least = found;
    for other in others {
        least = lesser(least, clash_of(&depend.section, &other.section));
    }
    least
}

// The least clash of some depend items with others.
fn least_clash(depends: &[Depend], others: &[Depend]) -> Option<Cell>
    ensures { result ≡ Rattle.order.specs.Clashes.least_clash depends.now others.now }
{
    let mut least = None;
    for depend in depends {
        least = least_of_one(depend, others, least);
    }
    least
}

// An item's clash with the least earlier item that it has one with.
fn clash_before(items: &[Item], item: u32) -> Option<OrderFault>
    requires { item < length items.now }
    ensures { IsClashOf items.now item result }
{
    let depends = &items[item as usize].depends;
    if depends.is_empty() {
        return None;
    }
    for other in 0..item {
        if let Some(cell) = least_clash(&items[other as usize].depends, depends) {
            return Some(OrderFault { item, cell, other });
        }
    }
    None
}

/// The clash of the least item that has one with an earlier item. It looks at each pair of items from the first item on
/// with which the sections are not pairwise disjoint or identical.
pub fn first_clash(alloc: Global, items: &[Item]) -> Result<Option<OrderFault>, AllocError>
    requires { length items.now ≤ most_items }
    ensures { IfOk result (IsFirstFound items.now) }
{
    let clear = clear_items(alloc, items)?;
    for item in clear as u32..items.len() as u32 {
        let clash = clash_before(items, item);
        if clash.is_some() {
            return Ok(clash);
        }
    }
    Ok(None)
}
