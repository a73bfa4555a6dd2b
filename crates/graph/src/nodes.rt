// The items as nodes.

use crate::blame::Blame;
use crate::dot::Dot;
use base::item::{Cell, Item, ItemKind};
use base::tree::ArrayId;
use outline::Outlined;
use std::alloc::{AllocError, Global};

/// A program, the lines of its text, and what a fault of it names.
#[derive(Clone, Copy)]
pub struct Scene<'a, 'b, 'p> {
    pub alloc: Global,
    pub outlined: &'a Outlined<'p>,
    pub lines: &'a [&'b [u8]],
    pub blame: Option<Blame>,
}

/// The lines of a text.
pub fn lines_of<'a>(alloc: Global, bytes: &'a [u8]) -> Result<Vec<&'a [u8]>, AllocError> {
    bytes.split(|byte| *byte == b'\n').collect(alloc)
}

fn kind_word(kind: ItemKind) -> &'static str {
    match kind {
        ItemKind::Host => "host",
        ItemKind::Target => "target",
        ItemKind::Begin => "target data",
        ItemKind::End => "end of target data",
        ItemKind::Enter => "target enter data",
        ItemKind::Exit => "target exit data",
        ItemKind::Update => "target update",
        ItemKind::Wait => "taskwait",
    }
}

// The colour of the host, or of an item's device.
fn colour_of(item: &Item) -> &'static str {
    match item.kind {
        ItemKind::Host | ItemKind::Wait => "#e3edfb",
        ItemKind::Target
        | ItemKind::Begin
        | ItemKind::End
        | ItemKind::Enter
        | ItemKind::Exit
        | ItemKind::Update => match item.device.number {
            0 => "#fbecd4",
            1 => "#d9f1ec",
            2 => "#ece2f8",
            _ => "#f8dfea",
        },
    }
}

// So many bytes of a line are shown at most.
const MOST_BYTES: usize = 200;

// The front of a line, not cut inside a character.
fn front_of(line: &[u8]) -> &[u8] {
    let mut end = MOST_BYTES;
    for _ in 0..3 {
        if line.get(end).is_some_and(|byte| byte & 0xc0 == 0x80) {
            end = end.saturating_sub(1);
        }
    }
    line.get(..end).unwrap_or(line)
}

// The line in which an item begins, with a sign where it is cut.
fn add_tooltip(dot: &mut Dot, alloc: Global, line: &[u8]) -> Result<(), AllocError> {
    dot.add(", tooltip=")?;
    let line = line.trim_ascii();
    if line.len() <= MOST_BYTES {
        return dot.add_quoted(line);
    }
    let mut front = Vec::from_slice(alloc, front_of(line))?;
    front.extend_from_slice(b" ...")?;
    dot.add_quoted(&front)
}

// The values of the loops around an item.
fn add_turn(dot: &mut Dot, item: &Item) -> Result<(), AllocError> {
    'loops: for (level, value) in item.loops.values.as_slice().iter().enumerate() {
        dot.add(if level == 0 { ", turn " } else { ", " })?;
        dot.add_number(*value)?;
    }
    Ok(())
}

// The name of an array.
fn name_of<'a>(scene: &Scene<'_, '_, 'a>, array: ArrayId) -> &'a str {
    match scene.outlined.program().arrays.get_index(array.0 as usize) {
        None => "",
        Some((name, _)) => name.as_str(),
    }
}

/// A code and the cell that it is of, inside a string.
pub fn add_fault(
    dot: &mut Dot,
    scene: &Scene<'_, '_, '_>,
    code: &'static str,
    cell: Option<Cell>,
) -> Result<(), AllocError> {
    dot.add(code)?;
    let Some(cell) = cell else {
        return Ok(());
    };
    dot.add(" ")?;
    dot.add_inside(name_of(scene, cell.array).as_bytes())?;
    dot.add("[")?;
    dot.add_number(cell.index)?;
    dot.add("]")
}

// What stands in the node of an item. Of two that are joined the code stands at the edge.
fn add_label(
    dot: &mut Dot,
    scene: &Scene<'_, '_, '_>,
    number: usize,
    item: &Item,
) -> Result<(), AllocError> {
    dot.add_number(number as u64)?;
    dot.add(" ")?;
    dot.add(kind_word(item.kind))?;
    if item.deferred {
        dot.add(" nowait")?;
    }
    dot.add("\\nline ")?;
    dot.add_number(item.place.line as u64)?;
    add_turn(dot, item)?;
    if item.device.number > 0 {
        dot.add(", device ")?;
        dot.add_number(u64::from(item.device.number))?;
    }
    let Some(blame) = scene.blame else {
        return Ok(());
    };
    if !blame.is_of(number) || blame.other.is_some() {
        return Ok(());
    }
    dot.add("\\n")?;
    add_fault(dot, scene, blame.code, blame.cell)
}

fn is_blamed(scene: &Scene<'_, '_, '_>, number: usize) -> bool {
    match scene.blame {
        None => false,
        Some(blame) => blame.is_of(number),
    }
}

/// The node of an item: `i` and its number. A deferred one is rounded, and one that a fault names is red.
pub fn add_node(dot: &mut Dot, scene: &Scene<'_, '_, '_>, number: usize) -> Result<(), AllocError> {
    let Some(item) = scene.outlined.items().get(number) else {
        return Ok(());
    };
    dot.add("  i")?;
    dot.add_number(number as u64)?;
    dot.add(" [label=\"")?;
    add_label(dot, scene, number, item)?;
    dot.add("\"")?;
    let line = scene.lines.get(item.place.line.saturating_sub(1));
    add_tooltip(dot, scene.alloc, line.copied().unwrap_or(&[]))?;
    dot.add(", fillcolor=\"")?;
    dot.add(colour_of(item))?;
    dot.add("\"")?;
    if item.deferred {
        dot.add(", style=\"rounded,filled\"")?;
    }
    if is_blamed(scene, number) {
        dot.add(", color=red, fontcolor=red, penwidth=2")?;
    }
    dot.add("];\n")
}
