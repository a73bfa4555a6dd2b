// The lines of a text, and texts in which some of them are changed.

ghost use Rattle.std.specs.Prelude.{◌≡◌, ◌-◌, drop, take};
ghost use Rattle.mend.specs.Bare.{is_space};

use std::alloc::{AllocError, Global};

/// The bytes from one place up to another, as far as there are any.
pub fn cut(text: &[u8], from: usize, to: usize) -> &[u8]
    ensures { result.now ≡ take (to - from) (drop from text.now) }
{
    let to = to.min(text.len());
    if from < to { &text[from..to] } else { &[] }
}

/// The lines, without their line feeds.
pub fn lines(alloc: Global, text: &[u8]) -> Result<Vec<&[u8]>, AllocError> {
    let mut all = Vec::new(alloc);
    let mut first = 0usize;
    for place in 0..text.len() {
        if text[place] == b'\n' {
            all.push(cut(text, first, place))?;
            first = place + 1;
        }
    }
    all.push(cut(text, first, text.len()))?;
    Ok(all)
}

pub fn is_space(byte: u8) -> bool
    ensures { result ≡ is_space byte }
{
    byte == b' ' || byte == b'\t' || byte == b'\r'
}

/// How many blanks a line begins with.
pub fn indent(line: &[u8]) -> usize {
    let mut count = 0usize;
    for byte in line {
        if !is_space(*byte) {
            return count;
        }
        count = count.saturating_add(1);
    }
    count
}

/// What becomes of a line. Lines are counted from 1.
#[derive(Drop)]
pub enum Change {
    /// A text stands in its place.
    Replaced(usize, Vec<u8>),
    /// A line stands before it.
    Preceded(usize, Vec<u8>),
    /// It goes, with its line feed.
    Removed(usize),
}

// What stands in the place of a line, with its line feed where there is one; nothing where it is removed.
fn replaced<'t>(line: &'t [u8], number: usize, changes: &'t [Change]) -> Option<&'t [u8]> {
    for change in changes {
        match change {
            Change::Replaced(at, text) if *at == number => return Some(text.as_slice()),
            Change::Removed(at) if *at == number => return None,
            _ => {}
        }
    }
    Some(line)
}

// Adds what stands before a line.
fn add_before(out: &mut Vec<u8>, number: usize, changes: &[Change]) -> Result<(), AllocError> {
    for change in changes {
        if let Change::Preceded(at, text) = change
            && *at == number
        {
            out.extend_from_slice(text.as_slice())?;
            out.push(b'\n')?;
        }
    }
    Ok(())
}

/// The text of these lines with the changes.
pub fn changed(alloc: Global, lines: &[&[u8]], changes: &[Change]) -> Result<Vec<u8>, AllocError> {
    let mut out = Vec::new(alloc);
    let mut number = 0usize;
    for line in lines {
        number = number.saturating_add(1);
        add_before(&mut out, number, changes)?;
        if let Some(text) = replaced(line, number, changes) {
            out.extend_from_slice(text)?;
            if number < lines.len() {
                out.push(b'\n')?;
            }
        }
    }
    Ok(out)
}
