// The table of items.

use crate::page::Page;
use crate::rows::{Shown, add_row, add_side};
use crate::scene::Scene;
use crate::turn_rows::Kernels;
use base::tree::ArrayId;
use std::alloc::AllocError;
use timeline::{Line, Turns, last_shown};

// The values of a loop in some turns.
fn add_turns(page: &mut Page, scene: &Scene<'_>, turns: &Turns) -> Result<(), AllocError> {
    let first = scene.loop_value(turns.first, turns.level);
    let last = scene.loop_value(turns.last, turns.level);
    page.add(if turns.turns == 1 { "turn " } else { "turns " })?;
    page.add_text(scene.loop_of(turns))?;
    page.add(" = ")?;
    page.add_number(first)?;
    if turns.turns > 1 {
        page.add(" to ")?;
        page.add_number(last)?;
    }
    Ok(())
}

fn add_amount(page: &mut Page, turns: &Turns) -> Result<(), AllocError> {
    page.add(" (")?;
    page.add_count(turns.turns as u64, " turn, ", " turns, ")?;
    page.add_count(turns.items as u64, " item)", " items)")
}

// The state behind an item that has none: the one before it, where it is the one that is refused.
fn state_of(scene: &Scene<'_>, number: usize) -> Option<usize> {
    let timeline = scene.timeline;
    let row = timeline.rows.get(number)?;
    if row.state.is_some() {
        return row.state;
    }
    match number.checked_sub(1) {
        None => timeline.start,
        Some(before) => timeline.rows.get(before)?.state,
    }
}

fn add_item(
    page: &mut Page,
    scene: &Scene<'_>,
    number: usize,
    kernels: &mut Kernels,
) -> Result<(), AllocError> {
    let (Some(item), Some(row)) = (scene.item(number), scene.timeline.rows.get(number)) else {
        return Ok(());
    };
    let shown = Shown {
        number,
        item,
        row,
        state: state_of(scene, number),
    };
    add_row(page, scene, &shown)?;
    kernels.add(page, scene, &shown)
}

fn add_line(
    page: &mut Page,
    scene: &Scene<'_>,
    line: &Line,
    kernels: &mut Kernels,
) -> Result<(), AllocError> {
    match line {
        Line::Item(number) => add_item(page, scene, *number, kernels),
        Line::Same(turns) => {
            page.add("<p class=m>")?;
            add_turns(page, scene, turns)?;
            page.add(": the same")?;
            add_amount(page, turns)?;
            page.add("</p>\n")
        }
        Line::Open(turns) => {
            page.add("<details><summary>")?;
            add_turns(page, scene, turns)?;
            add_amount(page, turns)?;
            page.add("</summary>\n")
        }
        Line::Close => page.add("</details>\n"),
        Line::Left(items) => {
            page.add("<p class=m>")?;
            page.add_count(
                *items as u64,
                " item is left out</p>\n",
                " items are left out</p>\n",
            )
        }
    }
}

// An array, over the columns of its sides.
fn add_array(page: &mut Page, scene: &Scene<'_>, array: ArrayId) -> Result<(), AllocError> {
    page.add("<div class=ar style=\"grid-column:span ")?;
    page.add_number(scene.timeline.sides.len() as u64)?;
    page.add("\"><b>")?;
    page.add_text(scene.name_of(array))?;
    page.add("</b> <small>")?;
    page.add_count(scene.length_of(array), " cell", " cells")?;
    page.add("</small></div>")
}

fn add_heads(page: &mut Page, scene: &Scene<'_>) -> Result<(), AllocError> {
    page.add("<div class=hd><div class=r><div class=it>item</div>")?;
    'arrays: for array in scene.arrays {
        add_array(page, scene, *array)?;
    }
    page.add("</div>\n<div class=r><div class=it></div>")?;
    'arrays: for _ in scene.arrays {
        'sides: for side in &scene.timeline.sides {
            page.add("<div class=\"f s")?;
            page.add_number(*side as u64)?;
            page.add("\">")?;
            add_side(page, *side)?;
            page.add("</div>")?;
        }
    }
    page.add("</div></div>\n")
}

// How many items are behind the last that may be shown.
fn add_behind(page: &mut Page, scene: &Scene<'_>) -> Result<(), AllocError> {
    let last = last_shown(scene.timeline, scene.kept);
    let behind = scene
        .timeline
        .rows
        .len()
        .saturating_sub(last)
        .saturating_sub(1);
    if behind == 0 {
        return Ok(());
    }
    page.add("<p class=m>")?;
    page.add_count(
        behind as u64,
        " item behind it is not looked at</p>\n",
        " items behind it are not looked at</p>\n",
    )
}

// How many arrays have no columns.
fn add_hidden(page: &mut Page, scene: &Scene<'_>) -> Result<(), AllocError> {
    let hidden = scene
        .outlined
        .lengths()
        .len()
        .saturating_sub(scene.arrays.len());
    if hidden == 0 {
        return Ok(());
    }
    page.add("<p class=m>")?;
    page.add_count(
        hidden as u64,
        " array has no columns: no item touches it, or there are too many</p>\n",
        " arrays have no columns: no item touches them, or there are too many</p>\n",
    )
}

/// The table: a row for each item that is shown, and columns for each array and each side.
pub fn add_table(page: &mut Page, scene: &Scene<'_>, lines: &[Line]) -> Result<(), AllocError> {
    if scene.timeline.rows.is_empty() {
        return page.add("<p class=m>the program has no items</p>\n");
    }
    page.add("<div class=tb>\n")?;
    add_heads(page, scene)?;
    let mut kernels = Kernels::new(page.alloc);
    'lines: for line in lines {
        add_line(page, scene, line, &mut kernels)?;
    }
    add_behind(page, scene)?;
    add_hidden(page, scene)?;
    page.add("</div>\n")
}
