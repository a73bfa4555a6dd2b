// The rows of the table.

use crate::bars::{add_words, length_of};
use crate::chips::add_chips;
use crate::faults::add_diagnosis;
use crate::page::Page;
use crate::scene::{Blame, Scene, is_of};
use base::item::{Item, ItemKind};
use base::tree::ArrayId;
use reasons::Diagnosis;
use std::alloc::AllocError;
use timeline::Row;

fn kind_word(kind: ItemKind) -> &'static str {
    match kind {
        ItemKind::Host => "host",
        ItemKind::Target => "target",
        ItemKind::Begin => "target data",
        ItemKind::End => "end of target data",
        ItemKind::Enter => "target enter data",
        ItemKind::Exit => "target exit data",
        ItemKind::Update => "target update",
        ItemKind::Wait => "taskwait",
    }
}

/// The word for a side.
pub fn add_side(page: &mut Page, side: usize) -> Result<(), AllocError> {
    if side == 0 {
        return page.add("host");
    }
    page.add("device ")?;
    page.add_number((side as u64).saturating_sub(1))
}

// Of how many loops of an item's region the turns may run in any order.
fn depth_of(scene: &Scene<'_>, item: &Item) -> u8 {
    match scene.region_of(item) {
        None => 0,
        Some(region) => region.depth,
    }
}

// The values of the loops around an item.
fn add_turn(page: &mut Page, scene: &Scene<'_>, item: &Item) -> Result<(), AllocError> {
    let values = item.loops.values.as_slice();
    if values.is_empty() {
        return Ok(());
    }
    page.add("<small>")?;
    'loops: for (level, value) in values.iter().enumerate() {
        page.add(if level > 0 { ", " } else { "" })?;
        page.add_text(scene.loop_name(item, level))?;
        page.add(" = ")?;
        page.add_number(*value)?;
    }
    page.add("</small>")
}

// What an item is.
fn add_head(
    page: &mut Page,
    scene: &Scene<'_>,
    number: usize,
    item: &Item,
) -> Result<(), AllocError> {
    page.add("<div class=it><a href=#L")?;
    page.add_number(item.place.line as u64)?;
    page.add("><i>")?;
    page.add_number(number as u64)?;
    page.add("</i> ")?;
    page.add(kind_word(item.kind))?;
    page.add("</a>")?;
    if item.device.number > 0 {
        page.add(" <small>device ")?;
        page.add_number(u64::from(item.device.number))?;
        page.add("</small>")?;
    }
    if depth_of(scene, item) > 0 {
        page.add(" <small>unordered</small>")?;
    }
    if item.deferred {
        page.add(" <small>nowait</small>")?;
    }
    page.add(" ")?;
    add_turn(page, scene, item)?;
    page.add("</div>")
}

/// Where a diagnosis finds fault with a cell.
pub fn add_marker(
    page: &mut Page,
    diagnosis: &Diagnosis,
    index: u64,
    length: u64,
) -> Result<(), AllocError> {
    page.add("<u style=\"left:")?;
    page.add_percent(index, length)?;
    page.add(";width:max(3px,")?;
    page.add_percent(1, length)?;
    page.add(")\"></u><span class=\"k x\">")?;
    page.add(diagnosis.code)?;
    page.add(" [")?;
    page.add_number(index)?;
    page.add("]</span> ")
}

fn add_markers(
    page: &mut Page,
    scene: &Scene<'_>,
    number: usize,
    array: ArrayId,
    side: usize,
) -> Result<(), AllocError> {
    'told: for diagnosis in &scene.told.diagnoses {
        if !is_of(diagnosis, number) || scene.side_of(diagnosis) != side {
            continue;
        }
        if let Some(named) = &diagnosis.cell {
            if named.cell.array == array {
                let length = scene.length_of(array);
                add_marker(page, diagnosis, named.cell.index, length)?;
            }
        }
    }
    Ok(())
}

/// The number of an item, its row, and the state that is shown behind it.
#[derive(Clone, Copy)]
pub struct Shown<'a> {
    pub number: usize,
    pub item: &'a Item,
    pub row: &'a Row,
    pub state: Option<usize>,
}

// The bar of an array on a side.
fn add_bar(
    page: &mut Page,
    scene: &Scene<'_>,
    state: Option<usize>,
    array: usize,
    side: usize,
) -> Result<(), AllocError> {
    let number = match state {
        None => None,
        Some(state) => scene.timeline.bar(state, array, side),
    };
    let Some(number) = number else {
        return page.add("<i class=\"b u\"></i>");
    };
    page.add("<i class=\"b b")?;
    page.add_number(number as u64)?;
    page.add("\"")?;
    if let Some(bar) = scene.timeline.bars.get(number) {
        if length_of(bar) > 0 {
            page.add(" title=\"")?;
            add_words(page, bar)?;
            page.add("\"")?;
        }
    }
    page.add("></i>")
}

fn add_field(
    page: &mut Page,
    scene: &Scene<'_>,
    shown: &Shown<'_>,
    array: ArrayId,
    side: usize,
) -> Result<(), AllocError> {
    page.add("<div class=\"f s")?;
    page.add_number(side as u64)?;
    page.add("\">")?;
    add_bar(page, scene, shown.state, array.0 as usize, side)?;
    add_markers(page, scene, shown.number, array, side)?;
    add_chips(page, scene, &shown.row.deeds, array, side)?;
    page.add("</div>")
}

// Why an item is refused.
fn add_faults(page: &mut Page, scene: &Scene<'_>, number: usize) -> Result<(), AllocError> {
    'told: for diagnosis in &scene.told.diagnoses {
        if is_of(diagnosis, number) {
            add_diagnosis(page, diagnosis, false)?;
        }
    }
    Ok(())
}

/// The row of an item, and why it is refused where it is.
pub fn add_row(page: &mut Page, scene: &Scene<'_>, shown: &Shown<'_>) -> Result<(), AllocError> {
    page.add("<div class=\"r L")?;
    page.add_number(shown.item.place.line as u64)?;
    page.add(match scene.blame(shown.number) {
        Blame::Nothing => "\" id=i",
        Blame::Refused => " bad\" id=i",
        Blame::Other => " other\" id=i",
    })?;
    page.add_number(shown.number as u64)?;
    page.add(">")?;
    add_head(page, scene, shown.number, shown.item)?;
    'arrays: for array in scene.arrays {
        'sides: for side in &scene.timeline.sides {
            add_field(page, scene, shown, *array, *side)?;
        }
    }
    page.add("</div>\n")?;
    add_faults(page, scene, shown.number)
}
