// Orders of turns to try.

use crate::lists::drawn_list;
use base::fault::{Refusal, RefusalCode};
use base::tree::{Region, Stmt};
use outline::Outlined;
use std::alloc::{AllocError, Global};

// The longest order that is drawn.
const MOST_NUMBERS: usize = 256;

// How many actions the first turn does, and then how many another one, before all go on in order.
const SHAPES: [(usize, usize); 12] = [
    (0, 1),
    (1, 1),
    (0, 2),
    (1, 2),
    (2, 1),
    (0, 3),
    (3, 1),
    (0, 4),
    (4, 1),
    (0, 8),
    (0, 16),
    (0, 64),
];

// How many turns the loops have that may run in any order.
fn count_of(region: &Region) -> u64 {
    let mut body = region.body.as_slice();
    let mut count = 1u64;
    'loops: for _ in 0..region.depth {
        let [Stmt::Loop(bounds, inner)] = body else {
            return count;
        };
        count = count.saturating_mul(bounds.turns());
        body = inner;
    }
    count
}

/// How many turns the kernel has of which two meet; none where the program is refused for something else.
pub fn turns_that_meet(outlined: &Outlined<'_>, refusal: &Refusal) -> Option<u64> {
    let RefusalCode::TurnsMeet = refusal.code else {
        return None;
    };
    let item = outlined.items().get(refusal.item as usize)?;
    let entry = outlined.regions().get(item.region? as usize)?;
    Some(count_of(entry.region))
}

// Of so many turns, those that go before the first: the second, the last, the third, and that in the middle.
fn others(alloc: Global, turns: u64) -> Result<Vec<u32>, AllocError> {
    let mut all = Vec::new(alloc);
    'others: for other in [1, turns.saturating_sub(1), 2, turns / 2] {
        let number = u32::try_from(other).unwrap_or(0);
        if 0 < number && other < turns && !all.contains(&number) {
            all.push(number)?;
        }
    }
    Ok(all)
}

// The first turn does so many actions, and then another one does.
fn order(alloc: Global, shape: (usize, usize), other: u32) -> Result<Vec<u32>, AllocError> {
    let (first, then) = shape;
    let mut list = Vec::new(alloc);
    for place in 0..first.saturating_add(then) {
        list.push(if place < first { 0 } else { other })?;
    }
    Ok(list)
}

/// The orders in which one turn goes before the others, of a kernel with so many turns; the shortest first.
pub fn orders(alloc: Global, turns: u64) -> Result<Vec<Vec<u32>>, AllocError> {
    let others = others(alloc, turns)?;
    let mut all = Vec::new(alloc);
    'shapes: for shape in SHAPES {
        'others: for other in &others {
            all.push(order(alloc, shape, *other)?)?;
        }
    }
    Ok(all)
}

/// An order that is drawn, by a number that says which.
pub fn drawn_order(alloc: Global, which: usize, length: usize) -> Result<Vec<u32>, AllocError> {
    drawn_list(alloc, which, length.min(MOST_NUMBERS))
}
