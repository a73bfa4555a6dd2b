// Why a program is refused.

use crate::page::Page;
use base::tree::Place;
use mend::{Edit, Mended};
use reasons::{Diagnosis, Note, Weight};
use rendering::{Remedy, Told};
use std::alloc::AllocError;

/// The code of two turns that meet.
pub const MEETING: &str = "E510";

// A place, which leads to its line.
fn add_place(page: &mut Page, place: Place) -> Result<(), AllocError> {
    page.add("<a href=#L")?;
    page.add_number(place.line as u64)?;
    page.add(">line ")?;
    page.add_number(place.line as u64)?;
    page.add("</a>")
}

/// A message, in which what stands between two grave accents is code.
pub fn add_message(page: &mut Page, message: &str) -> Result<(), AllocError> {
    'parts: for (at, part) in message.as_bytes().split(|byte| *byte == b'`').enumerate() {
        if at > 0 {
            page.add(if at % 2 == 1 { "<code>" } else { "</code>" })?;
        }
        page.add_bytes(part)?;
    }
    if count_of(message) % 2 == 1 {
        page.add("</code>")?;
    }
    Ok(())
}

fn count_of(message: &str) -> usize {
    message
        .as_bytes()
        .iter()
        .filter(|byte| **byte == b'`')
        .count()
}

// A fact of two turns that meet is told as the fault itself is.
fn add_note(page: &mut Page, note: &Note, meets: bool) -> Result<(), AllocError> {
    page.add(if meets && note.weight == Weight::Note {
        "<p class=t><b>"
    } else {
        "<p><b>"
    })?;
    page.add(note.weight.as_str())?;
    page.add("</b> ")?;
    add_place(page, note.place)?;
    page.add(" ")?;
    add_message(page, &note.message)?;
    page.add("</p>\n")
}

/// A diagnosis with its notes.
pub fn add_diagnosis(
    page: &mut Page,
    diagnosis: &Diagnosis,
    is_warning: bool,
) -> Result<(), AllocError> {
    page.add(if is_warning {
        "<div class=\"d y\"><p class=h><b>"
    } else {
        "<div class=d><p class=h><b>"
    })?;
    page.add(diagnosis.code)?;
    page.add("</b> ")?;
    add_place(page, diagnosis.place)?;
    page.add(" ")?;
    add_message(page, &diagnosis.message)?;
    page.add("</p>\n")?;
    'notes: for note in &diagnosis.notes {
        add_note(page, note, diagnosis.code == MEETING)?;
    }
    page.add("</div>\n")
}

fn add_line(page: &mut Page, line: usize) -> Result<(), AllocError> {
    page.add("<p>")?;
    add_place(page, Place { line, column: 1 })?;
    page.add("</p>\n")
}

fn add_edit(page: &mut Page, edit: &Edit) -> Result<(), AllocError> {
    if let Some(old) = &edit.old {
        page.add("<code class=old>\u{2212} ")?;
        page.add_bytes(old)?;
        page.add("</code>\n")?;
    }
    if edit.count == 0 {
        return Ok(());
    }
    page.add("<code class=new>+ ")?;
    page.add_bytes(&edit.new)?;
    page.add("</code>\n")
}

fn add_change(page: &mut Page, mended: &Mended) -> Result<(), AllocError> {
    page.add("<div class=\"d g\"><p class=h><b>help</b> this change is accepted</p>\n")?;
    let mut last = 0;
    'edits: for edit in &mended.edits {
        if edit.line != last {
            add_line(page, edit.line)?;
        }
        add_edit(page, edit)?;
        last = edit.line;
    }
    page.add("</div>\n")
}

/// A change by which the program is accepted, where one was found, and how many more faults there are.
pub fn add_remedy(page: &mut Page, told: &Told) -> Result<(), AllocError> {
    if let Remedy::Found(mended) = &told.remedy {
        if !mended.edits.is_empty() {
            add_change(page, mended)?;
        }
    }
    if told.more > 0 {
        page.add("<p class=m>")?;
        page.add_count(
            told.more,
            " more fault was found</p>\n",
            " more faults were found</p>\n",
        )?;
    }
    Ok(())
}
