// The source, with line numbers.

use crate::page::Page;
use base::item::Item;
use reasons::end_of;
use rendering::Told;
use std::alloc::{AllocError, Global};

/// What is known of a line of the source.
#[derive(Clone, Copy)]
struct Mark {
    // The first item that begins here.
    item: Option<usize>,
    // The column of an error, or 0, and the one behind it.
    error: usize,
    end: usize,
    has_note: bool,
}

const NO_MARK: Mark = Mark {
    item: None,
    error: 0,
    end: 0,
    has_note: false,
};

// Of each line, the first of which has number 0.
fn marks_of(
    alloc: Global,
    bytes: &[u8],
    items: &[Item],
    told: &Told,
) -> Result<Vec<Mark>, AllocError> {
    let mut marks = Vec::new(alloc);
    marks.push(NO_MARK)?;
    'lines: for byte in bytes {
        if *byte == b'\n' {
            marks.push(NO_MARK)?;
        }
    }
    'items: for (number, item) in items.iter().enumerate() {
        if let Some(mark) = marks.get_mut(item.place.line.saturating_sub(1)) {
            if mark.item.is_none() {
                mark.item = Some(number);
            }
        }
    }
    mark_told(&mut marks, bytes, told);
    Ok(marks)
}

fn mark_told(marks: &mut [Mark], bytes: &[u8], told: &Told) {
    'told: for diagnosis in &told.diagnoses {
        'notes: for note in &diagnosis.notes {
            if let Some(mark) = marks.get_mut(note.place.line.saturating_sub(1)) {
                mark.has_note = true;
            }
        }
        if let Some(mark) = marks.get_mut(diagnosis.place.line.saturating_sub(1)) {
            mark.error = diagnosis.place.column;
            mark.end = end_of(bytes, diagnosis.place);
        }
    }
}

// A line, in which what stands from a column to another one is wrong.
fn add_wrong(page: &mut Page, line: &[u8], column: usize, end: usize) -> Result<(), AllocError> {
    let at = column.saturating_sub(1).min(line.len());
    let (before, rest) = line.split_at(at);
    let (wrong, behind) = rest.split_at(end.saturating_sub(column).min(rest.len()));
    page.add_bytes(before)?;
    page.add("<b>")?;
    page.add_bytes(wrong)?;
    page.add("</b>")?;
    page.add_bytes(behind)
}

// A line without a carriage return at its end.
fn without_return(line: &[u8]) -> &[u8] {
    match line {
        [front @ .., b'\r'] => front,
        _ => line,
    }
}

fn is_directive(line: &[u8]) -> bool {
    line.trim_ascii().first() == Some(&b'#')
}

// The number of a line, which leads to its first item.
fn add_line_number(page: &mut Page, number: usize, mark: &Mark) -> Result<(), AllocError> {
    match mark.item {
        None => page.add("<span class=n>")?,
        Some(item) => {
            page.add("<a class=n href=#i")?;
            page.add_number(item as u64)?;
            page.add(">")?;
        }
    }
    page.add_number(number as u64)?;
    page.add(if mark.item.is_none() {
        "</span>"
    } else {
        "</a>"
    })
}

fn add_line(page: &mut Page, number: usize, line: &[u8], mark: &Mark) -> Result<(), AllocError> {
    page.add("<div class=\"l")?;
    if is_directive(line) {
        page.add(" p")?;
    }
    if mark.error > 0 {
        page.add(" e")?;
    } else if mark.has_note {
        page.add(" o")?;
    }
    page.add("\" id=L")?;
    page.add_number(number as u64)?;
    page.add(">")?;
    add_line_number(page, number, mark)?;
    page.add("<code>")?;
    if mark.error > 0 {
        add_wrong(page, line, mark.error, mark.end)?;
    } else {
        page.add_bytes(line)?;
    }
    page.add("</code></div>\n")
}

/// The lines of a source, each with its number. The number leads to the first item that begins there.
pub fn add_source(
    page: &mut Page,
    bytes: &[u8],
    items: &[Item],
    told: &Told,
) -> Result<(), AllocError> {
    let marks = marks_of(page.alloc, bytes, items, told)?;
    page.add("<main class=src>\n")?;
    'lines: for (at, line) in bytes.split(|byte| *byte == b'\n').enumerate() {
        let number = at.saturating_add(1);
        if number < marks.len() || !line.is_empty() {
            let mark = marks.get(at).copied().unwrap_or(NO_MARK);
            add_line(page, number, without_return(line), &mark)?;
        }
    }
    page.add("</main>\n")
}

// So many lines light up with their items.
const MOST_LIT: usize = 500;

/// The rules by which a line lights up with its items, and they with it.
pub fn add_lights(page: &mut Page, alloc: Global, items: &[Item]) -> Result<(), AllocError> {
    let mut lines = Vec::new(alloc);
    'items: for item in items {
        if lines.len() < MOST_LIT && !lines.contains(&item.place.line) {
            lines.push(item.place.line)?;
        }
    }
    'lines: for line in &lines {
        let line = *line as u64;
        page.add("body:has(.L")?;
        page.add_number(line)?;
        page.add(":hover) #L")?;
        page.add_number(line)?;
        page.add(",body:has(#L")?;
        page.add_number(line)?;
        page.add(":hover) .L")?;
        page.add_number(line)?;
        page.add("{background:var(--lit)}\n")?;
    }
    Ok(())
}
