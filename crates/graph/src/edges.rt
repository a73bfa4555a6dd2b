// What stands between the nodes.

use crate::dot::Dot;
use crate::levels::Levels;
use crate::nodes::{Scene, add_fault};
use crate::ordered::nexts;
use order::Order;
use std::alloc::{AllocError, Global};

/// So many edges are drawn at most.
pub const MOST_EDGES: usize = 8_000;

fn add_edge(dot: &mut Dot, from: u32, to: u32) -> Result<(), AllocError> {
    dot.add("  i")?;
    dot.add_number(u64::from(from))?;
    dot.add(" -> i")?;
    dot.add_number(u64::from(to))
}

// A node that says that edges are left out.
fn add_cut(dot: &mut Dot) -> Result<(), AllocError> {
    dot.add("  // only the first ")?;
    dot.add_amount(MOST_EDGES)?;
    dot.add(" edges are drawn\n  cut [label=\"… only the first ")?;
    dot.add_amount(MOST_EDGES)?;
    dot.add(" edges are drawn\", shape=plaintext, style=\"\"];\n")
}

// The edges from an item to the first so many of those that follow it.
fn add_nexts(
    dot: &mut Dot,
    levels: &mut Levels,
    item: u32,
    found: &[u32],
    room: usize,
) -> Result<(), AllocError> {
    'nexts: for next in found.iter().take(room) {
        levels.add(item, *next);
        add_edge(dot, item, *next)?;
        dot.add(";\n")?;
    }
    Ok(())
}

/// The edges from items below a place to items below it: from each to those that follow it with none between. A graph
/// that is wider than deep is drawn from left to right.
pub fn add_edges(
    dot: &mut Dot,
    alloc: Global,
    order: &Order<'_>,
    end: u32,
) -> Result<(), AllocError> {
    let mut levels = Levels::new(alloc, end as usize)?;
    let mut room = MOST_EDGES;
    for item in 0..end {
        let found = nexts(alloc, order, item, end)?;
        add_nexts(dot, &mut levels, item, &found, room)?;
        if found.len() > room {
            add_cut(dot)?;
            break;
        }
        room -= found.len();
    }
    if levels.are_wide(alloc)? {
        dot.add("  rankdir=LR;\n")?;
    }
    Ok(())
}

/// The items below a place one under the other, where there is no order.
pub fn add_column(dot: &mut Dot, end: u32) -> Result<(), AllocError> {
    dot.add(
        "  // which item is before which is not told, since sections do not fit or overlap in part\n",
    )?;
    for item in 1..end {
        add_edge(dot, item - 1, item)?;
        dot.add(" [style=invis];\n")?;
    }
    Ok(())
}

/// What joins the two items that a fault names, where it names two.
pub fn add_conflict(dot: &mut Dot, scene: &Scene<'_, '_, '_>) -> Result<(), AllocError> {
    let Some(blame) = scene.blame else {
        return Ok(());
    };
    let Some(other) = blame.other else {
        return Ok(());
    };
    add_edge(dot, other, blame.item)?;
    dot.add(" [dir=none, style=dashed, color=red, fontcolor=red, constraint=false, label=\"")?;
    add_fault(dot, scene, blame.code, blame.cell)?;
    dot.add("\"];\n")
}
