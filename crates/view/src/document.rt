// The whole page.

use crate::bars::add_rules;
use crate::faults::{add_diagnosis, add_message, add_remedy};
use crate::page::Page;
use crate::scene::Scene;
use crate::source::{add_lights, add_source};
use crate::style::{LEGEND, STYLE};
use crate::table::add_table;
use base::item::Item;
use reasons::Diagnosis;
use rendering::Told;
use std::alloc::{AllocError, Global};
use timeline::{Line, Row, lines_of};

// Nothing is loaded, and no script runs. Bars are placed by style attributes, which the second part lets through.
const POLICY: &str =
    "<meta http-equiv=Content-Security-Policy content=\"default-src 'none';style-src 'unsafe-inline'\">\n";

// The bars of the states that are shown.
fn shown_bars(alloc: Global, scene: &Scene<'_>) -> Result<Vec<bool>, AllocError> {
    let mut shown = Vec::new(alloc);
    'bars: for _ in &scene.timeline.bars {
        shown.push(false)?;
    }
    Ok(shown)
}

fn mark_state(shown: &mut [bool], scene: &Scene<'_>, state: Option<usize>) {
    let Some(state) = state else {
        return;
    };
    let Some(fields) = scene.timeline.states.get(state) else {
        return;
    };
    'fields: for bar in fields {
        if let Some(mark) = shown.get_mut(*bar) {
            *mark = true;
        }
    }
}

fn state_at(rows: &[Row], number: usize) -> Option<usize> {
    rows.get(number)?.state
}

// The bars of the items that are shown, and of those just before them.
fn bars_of(alloc: Global, scene: &Scene<'_>, lines: &[Line]) -> Result<Vec<bool>, AllocError> {
    let mut shown = shown_bars(alloc, scene)?;
    mark_state(&mut shown, scene, scene.timeline.start);
    'lines: for line in lines {
        if let Line::Item(number) = line {
            let rows = &scene.timeline.rows;
            mark_state(&mut shown, scene, state_at(rows, *number));
            mark_state(&mut shown, scene, state_at(rows, number.saturating_sub(1)));
        }
    }
    Ok(shown)
}

fn add_begin(page: &mut Page, file: &str) -> Result<(), AllocError> {
    page.add("<!DOCTYPE html>\n<html lang=en>\n<head>\n<meta charset=utf-8>\n")?;
    page.add(POLICY)?;
    page.add("<meta name=viewport content=\"width=device-width\">\n<title>")?;
    page.add_text(file)?;
    page.add("</title>\n<style>\n")?;
    page.add(STYLE)
}

// What the program is, in one line, and its faults.
fn add_header(
    page: &mut Page,
    file: &str,
    told: &Told,
    legend: &'static str,
) -> Result<(), AllocError> {
    page.add("<header>\n<h1>")?;
    page.add_text(file)?;
    page.add("</h1>\n")?;
    match told.diagnoses.first() {
        None => page.add("<span class=\"v ok\">accepted</span>\n")?,
        Some(first) => {
            page.add("<span class=\"v no\">refused: ")?;
            page.add(first.code)?;
            page.add("</span>\n")?;
        }
    }
    'told: for diagnosis in &told.diagnoses {
        add_summary(page, diagnosis)?;
    }
    page.add(legend)?;
    page.add("</header>\n")
}

// A fault in one line, which leads to its item.
fn add_summary(page: &mut Page, diagnosis: &Diagnosis) -> Result<(), AllocError> {
    page.add("<p class=sum>")?;
    match diagnosis.item {
        None => {
            page.add("<a href=#L")?;
            page.add_number(diagnosis.place.line as u64)?;
        }
        Some(item) => {
            page.add("<a href=#i")?;
            page.add_number(u64::from(item))?;
        }
    }
    page.add(">")?;
    page.add(diagnosis.code)?;
    page.add("</a> ")?;
    add_message(page, &diagnosis.message)?;
    page.add("</p>\n")
}

// What is told behind the table.
fn add_end(page: &mut Page, told: &Told) -> Result<(), AllocError> {
    'told: for diagnosis in &told.diagnoses {
        if diagnosis.item.is_none() {
            add_diagnosis(page, diagnosis, false)?;
        }
    }
    add_remedy(page, told)?;
    'warnings: for warning in &told.warnings {
        add_diagnosis(page, warning, true)?;
    }
    page.add("</section>\n</div>\n</body>\n</html>\n")
}

// The page from its header to the table.
fn add_body(
    page: &mut Page,
    file: &str,
    bytes: &[u8],
    items: &[Item],
    told: &Told,
    legend: &'static str,
) -> Result<(), AllocError> {
    page.add("</style>\n</head>\n<body>\n")?;
    add_header(page, file, told, legend)?;
    page.add("<div class=two>\n")?;
    add_source(page, bytes, items, told)?;
    page.add("<section>\n")
}

/// The page of a program that is read: its source, its items, and why it is refused where it is.
pub fn program_page(alloc: Global, file: &str, scene: &Scene<'_>) -> Result<Vec<u8>, AllocError> {
    let mut page = Page::new(alloc);
    let columns = scene
        .arrays
        .len()
        .saturating_mul(scene.timeline.sides.len())
        .max(1);
    let lines = lines_of(alloc, scene.outlined, scene.timeline, scene.kept, columns)?;
    let items = scene.outlined.items();
    add_begin(&mut page, file)?;
    page.add(":root{--n:")?;
    page.add_number(columns as u64)?;
    page.add("}\n")?;
    let shown = bars_of(alloc, scene, &lines)?;
    add_rules(&mut page, &scene.timeline.bars, &shown)?;
    add_lights(&mut page, alloc, items)?;
    add_body(&mut page, file, scene.text, items, scene.told, LEGEND)?;
    add_table(&mut page, scene, &lines)?;
    add_end(&mut page, scene.told)?;
    Ok(page.into_bytes())
}

/// The page of a source that has no items: it is not read, or has too many.
pub fn source_page(
    alloc: Global,
    file: &str,
    bytes: &[u8],
    told: &Told,
) -> Result<Vec<u8>, AllocError> {
    let mut page = Page::new(alloc);
    add_begin(&mut page, file)?;
    add_body(&mut page, file, bytes, &[], told, "")?;
    add_end(&mut page, told)?;
    Ok(page.into_bytes())
}
