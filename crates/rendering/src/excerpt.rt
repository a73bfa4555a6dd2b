// A line of a source as a terminal shows it, and what marks a part of it below.

use std::alloc::{AllocError, Global};
use ucd_props::is_bidi_control;
use unicode_width::UnicodeWidthChar;

// A longer line is cut around the part that is marked: behind its number it has no more than 120 columns.
const MOST_COLUMNS: usize = 108;

// What stands where a line is cut.
const CUT: &str = "..";

// How far apart the stops of tabulators are.
const TAB: usize = 4;

// How a character is shown.
#[derive(Clone, Copy, PartialEq, Eq)]
enum Way {
    // As it is.
    Text,
    // As blanks.
    Blank,
    // Its bytes as numbers, since it would show nothing, or change how others are shown.
    Bytes,
}

// A character, by its bytes in the line, and the columns that it takes.
#[derive(Clone, Copy)]
struct Shown {
    first: usize,
    end: usize,
    way: Way,
    columns: usize,
}

// A character of so many bytes.
fn shown_as(c: char, first: usize, len: usize, column: usize) -> Shown {
    let end = first.saturating_add(len);
    let (way, columns) = match c.width() {
        _ if c == '\t' => (Way::Blank, TAB.saturating_sub(column % TAB)),
        Some(columns) if !is_bidi_control(c) => (Way::Text, columns),
        _ => (Way::Bytes, len.saturating_mul(4)),
    };
    Shown {
        first,
        end,
        way,
        columns,
    }
}

fn add_shown(shown: &mut Vec<Shown>, columns: &mut usize, one: Shown) -> Result<(), AllocError> {
    *columns = columns.saturating_add(one.columns);
    shown.push(one)?;
    Ok(())
}

// The characters of a line; of one that is not UTF-8, its bytes.
fn characters(alloc: Global, line: &[u8]) -> Result<Vec<Shown>, AllocError> {
    let mut all = Vec::new(alloc);
    let mut columns = 0usize;
    match str::from_utf8(line) {
        Ok(text) => {
            'characters: for (at, c) in text.char_indices() {
                let one = shown_as(c, at, c.len_utf8(), columns);
                add_shown(&mut all, &mut columns, one)?;
            }
        }
        Err(_) => {
            'bytes: for (at, byte) in line.iter().enumerate() {
                let c = if byte.is_ascii() { *byte as char } else { '\0' };
                let one = shown_as(c, at, 1, columns);
                add_shown(&mut all, &mut columns, one)?;
            }
        }
    }
    Ok(all)
}

// How many columns some characters take.
fn columns_of(shown: &[Shown]) -> usize {
    let mut columns = 0usize;
    'shown: for one in shown {
        columns = columns.saturating_add(one.columns);
    }
    columns
}

// How many characters stand before a byte of the line.
fn number_before(shown: &[Shown], byte: usize) -> usize {
    for i in 0..shown.len() {
        if shown[i].end > byte {
            return i;
        }
    }
    shown.len()
}

// From which character on a line is shown, so that what stands at a place of it is.
fn first_shown(shown: &[Shown], at: usize) -> usize {
    if columns_of(shown) <= MOST_COLUMNS {
        return 0;
    }
    let (before, behind) = shown.split_at(at.min(shown.len()));
    let room = MOST_COLUMNS
        .saturating_sub(columns_of(behind))
        .max(MOST_COLUMNS / 2);
    let mut columns = columns_of(before);
    for i in 0..before.len() {
        if columns <= room {
            return i;
        }
        columns = columns.saturating_sub(before[i].columns);
    }
    before.len()
}

// How many characters are shown from one on.
fn count_shown(shown: &[Shown]) -> usize {
    let mut columns = 0usize;
    for i in 0..shown.len() {
        columns = columns.saturating_add(shown[i].columns);
        if columns > MOST_COLUMNS {
            return i;
        }
    }
    shown.len()
}

/// A line as it is shown, and the line below it.
#[derive(Drop)]
pub struct Excerpt {
    pub text: Vec<u8>,
    /// Blanks, and below the part that is marked `^` and `~`.
    pub marks: Vec<u8>,
}

fn add_many(text: &mut Vec<u8>, byte: u8, count: usize) -> Result<(), AllocError> {
    for _ in 0..count {
        text.push(byte)?;
    }
    Ok(())
}

impl Excerpt {
    // A character of a line.
    fn add(&mut self, alloc: Global, line: &[u8], one: Shown) -> Result<(), AllocError> {
        let bytes = line.get(one.first..one.end).unwrap_or(&[]);
        match one.way {
            Way::Text => self.text.extend_from_slice(bytes),
            Way::Blank => add_many(&mut self.text, b' ', one.columns),
            Way::Bytes => {
                'bytes: for byte in bytes {
                    let number = format!(in alloc; "<{:02X}>", *byte)?;
                    self.text.extend_from_slice(number.as_bytes())?;
                }
                Ok(())
            }
        }
    }

    // What stands where a line is cut.
    fn add_cut(&mut self) -> Result<(), AllocError> {
        self.text.extend_from_slice(CUT.as_bytes())?;
        add_many(&mut self.marks, b' ', CUT.len())
    }

    // What stands below so many columns: the first of those that are marked has a sign of its own.
    fn mark(&mut self, columns: usize, is_first: bool, is_marked: bool) -> Result<(), AllocError> {
        if is_first {
            self.marks.push(b'^')?;
            return add_many(&mut self.marks, b'~', columns.saturating_sub(1));
        }
        add_many(
            &mut self.marks,
            if is_marked { b'~' } else { b' ' },
            columns,
        )
    }
}

/// A line, of which the bytes from one on up to another are marked. Tabulators are shown as blanks, and what is no text
/// as the numbers of its bytes. A line that takes more than 108 columns is cut around the first that is marked.
pub fn excerpt_of(
    alloc: Global,
    line: &[u8],
    at: usize,
    end: usize,
) -> Result<Excerpt, AllocError> {
    let all = characters(alloc, line)?;
    let marked = number_before(&all, at);
    let first = first_shown(&all, marked);
    let rest = all.get(first..).unwrap_or(&[]);
    let count = count_shown(rest);
    let mut shown = Excerpt {
        text: Vec::new(alloc),
        marks: Vec::new(alloc),
    };
    if first > 0 {
        shown.add_cut()?;
    }
    'shown: for (number, one) in rest.iter().take(count).enumerate() {
        shown.add(alloc, line, *one)?;
        let is_first = first.saturating_add(number) == marked;
        if one.first < end || first.saturating_add(number) <= marked {
            shown.mark(one.columns, is_first, one.first > at)?;
        }
    }
    if marked == all.len() {
        shown.mark(1, true, true)?;
    }
    if count < rest.len() {
        shown.text.extend_from_slice(CUT.as_bytes())?;
    }
    Ok(shown)
}
