// The whole graph.

use crate::blame::{Blame, blame_of};
use crate::dot::Dot;
use crate::edges::{add_column, add_conflict, add_edges};
use crate::nodes::{Scene, add_node, lines_of};
use crate::ordered::order_of;
use base::fault::CheckFault;
use outline::Outlined;
use std::alloc::{AllocError, Global};

/// So many items are drawn at most, besides those that a fault names.
pub const MOST_NODES: usize = 2_000;

fn add_begin(dot: &mut Dot) -> Result<(), AllocError> {
    dot.add("digraph ompc {\n")?;
    dot.add("  graph [labelloc=t, fontname=\"sans-serif\"];\n")?;
    dot.add("  node [shape=box, style=filled, color=\"#5b6470\", fontname=\"sans-serif\"];\n")?;
    dot.add("  edge [color=\"#5b6470\", fontname=\"sans-serif\"];\n")
}

// The name of the file, and whether its program is refused.
fn add_verdict(dot: &mut Dot, file: &str, code: Option<&'static str>) -> Result<(), AllocError> {
    dot.add("  label=\"")?;
    dot.add_inside(file.as_bytes())?;
    match code {
        None => dot.add(": accepted"),
        Some(code) => {
            dot.add(": refused, ")?;
            dot.add(code)
        }
    }
}

// A node that says how many items are left out, and the items that the fault names among these.
fn add_more(dot: &mut Dot, scene: &Scene<'_, '_, '_>, more: usize) -> Result<(), AllocError> {
    dot.add("  // ")?;
    dot.add_amount(more)?;
    dot.add(" more items are not drawn, but for those of the refusal\n  more [label=\"… ")?;
    dot.add_amount(more)?;
    dot.add(" more items\", shape=plaintext, style=\"\"];\n  i")?;
    dot.add_number((MOST_NODES as u64).saturating_sub(1))?;
    dot.add(" -> more [style=invis];\n")?;
    if let Some(Blame { item, other, .. }) = scene.blame {
        add_late(dot, scene, other.unwrap_or(item))?;
        if other.is_some() {
            add_late(dot, scene, item)?;
        }
    }
    Ok(())
}

// An item behind those that are drawn.
fn add_late(dot: &mut Dot, scene: &Scene<'_, '_, '_>, number: u32) -> Result<(), AllocError> {
    if (number as usize) < MOST_NODES {
        return Ok(());
    }
    add_node(dot, scene, number as usize)?;
    dot.add("  more -> i")?;
    dot.add_number(u64::from(number))?;
    dot.add(" [style=invis];\n")
}

/// A program as a graph in the language DOT, in UTF-8: a node for each item, an edge from each to those that follow it
/// with none between, and the items that the fault of the check names in red, joined where there are two. It is
/// determined by the text. The error comes where an allocation fails.
pub fn graph_text(
    alloc: Global,
    file: &str,
    bytes: &[u8],
    outlined: &Outlined<'_>,
    fault: Option<&CheckFault>,
) -> Result<Vec<u8>, AllocError> {
    let lines = lines_of(alloc, bytes)?;
    let blame = match fault {
        None => None,
        Some(fault) => blame_of(fault),
    };
    let scene = Scene {
        alloc,
        outlined,
        lines: &lines,
        blame,
    };
    let count = outlined.items().len();
    let drawn = count.min(MOST_NODES);
    let mut dot = Dot::new(alloc);
    add_begin(&mut dot)?;
    add_verdict(&mut dot, file, blame.map(|blame| blame.code))?;
    dot.add("\";\n")?;
    for number in 0..drawn {
        add_node(&mut dot, &scene, number)?;
    }
    if drawn < count {
        add_more(&mut dot, &scene, count - drawn)?;
    }
    match order_of(alloc, outlined)? {
        None => add_column(&mut dot, drawn as u32)?,
        Some(order) => add_edges(&mut dot, alloc, &order, drawn as u32)?,
    }
    add_conflict(&mut dot, &scene)?;
    dot.add("}\n")?;
    Ok(dot.into_bytes())
}

/// The graph of a text that has no items: it has no node, and its label says why the text is refused, where it is, by a
/// code and a message. The error comes where an allocation fails.
pub fn message_graph(
    alloc: Global,
    file: &str,
    fault: Option<(&'static str, &str)>,
) -> Result<Vec<u8>, AllocError> {
    let mut dot = Dot::new(alloc);
    add_begin(&mut dot)?;
    match fault {
        None => add_verdict(&mut dot, file, None)?,
        Some((code, message)) => {
            add_verdict(&mut dot, file, Some(code))?;
            dot.add("\\n")?;
            dot.add_inside(message.as_bytes())?;
        }
    }
    dot.add("\";\n}\n")?;
    Ok(dot.into_bytes())
}
