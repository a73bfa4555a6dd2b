// A changed text with its lines broken where those of its source are.

use crate::edits::{Edit, line_edits};
use crate::lines::{cut, lines};
use std::alloc::{AllocError, Global};

// How many bytes two lines end with alike, behind the first of both.
fn alike_ends(left: &[u8], right: &[u8], front: usize) -> usize {
    let most = left.len().min(right.len()).saturating_sub(front);
    let mut count = 0usize;
    for at in 0..most {
        let (a, b) = (
            left.len().saturating_sub(at),
            right.len().saturating_sub(at),
        );
        if cut(left, a.saturating_sub(1), a) != cut(right, b.saturating_sub(1), b) {
            return count;
        }
        count = count.saturating_add(1);
    }
    count
}

// How many bytes two lines begin with alike.
fn alike_fronts(left: &[u8], right: &[u8]) -> usize {
    let mut count = 0usize;
    for byte in left {
        match right.get(count) {
            Some(other) if *other == *byte => count = count.saturating_add(1),
            _ => return count,
        }
    }
    count
}

// With how many bytes a line goes on: a backslash, and a carriage return behind it.
fn break_len(line: &[u8]) -> usize {
    match line {
        [.., b'\\', b'\r'] => 2,
        [.., b'\\'] => 1,
        _ => 0,
    }
}

// A joined line and what it is changed to, and how far both are alike.
#[derive(Clone, Copy)]
struct Changed<'t> {
    old: &'t [u8],
    new: &'t [u8],
    front: usize,
    end: usize,
}

impl<'t> Changed<'t> {
    fn of(old: &'t [u8], new: &'t [u8]) -> Changed<'t> {
        let front = alike_fronts(old, new);
        Changed {
            old,
            new,
            front,
            end: alike_ends(old, new, front),
        }
    }

    // Where a break stands in the new line that ends at a place of the old one, if what it is made of is there.
    fn place_of(&self, place: usize, len: usize) -> Option<usize> {
        if place <= self.front {
            return Some(place);
        }
        let behind = self.old.len().saturating_sub(place);
        if behind.saturating_add(len) <= self.end {
            return Some(self.new.len().saturating_sub(behind));
        }
        None
    }
}

// Adds a line, behind a line feed where others stand before it.
fn add_line(out: &mut Vec<u8>, line: &[u8], is_first: &mut bool) -> Result<(), AllocError> {
    if !*is_first {
        out.push(b'\n')?;
    }
    *is_first = false;
    out.extend_from_slice(line)
}

// Adds a changed line, broken where the lines from one on of the source are, and answers how many lines of the source
// it stands for. A break whose surroundings are gone is made up for by an empty line.
fn add_changed(
    out: &mut Vec<u8>,
    source: &[&[u8]],
    number: usize,
    changed: Changed<'_>,
    is_first: &mut bool,
) -> Result<usize, AllocError> {
    let (mut old_end, mut from, mut lost, mut count) = (0usize, 0usize, 0usize, 1usize);
    for at in number..source.len() {
        let line = source[at];
        let len = break_len(line);
        if len == 0 {
            break;
        }
        count = count.saturating_add(1);
        old_end = old_end.saturating_add(line.len());
        match changed.place_of(old_end, len) {
            Some(place) if place > from => {
                add_line(
                    out,
                    cut(changed.new, from, place.saturating_sub(len)),
                    is_first,
                )?;
                out.extend_from_slice(cut(line, line.len().saturating_sub(len), line.len()))?;
                from = place;
            }
            _ => lost = lost.saturating_add(1),
        }
    }
    add_line(out, cut(changed.new, from, changed.new.len()), is_first)?;
    for _ in 0..lost {
        add_line(out, &[], is_first)?;
    }
    Ok(count)
}

// Adds an empty line for each break of a line that is removed, and answers how many lines of the source that stood on.
fn add_removed(
    out: &mut Vec<u8>,
    source: &[&[u8]],
    number: usize,
    is_first: &mut bool,
) -> Result<usize, AllocError> {
    let mut count = 1usize;
    for at in number..source.len() {
        if break_len(source[at]) == 0 {
            return Ok(count);
        }
        count = count.saturating_add(1);
        add_line(out, &[], is_first)?;
    }
    Ok(count)
}

// What stands in the place of a line, where it is changed or removed.
fn change_of<'e>(edits: &'e [Edit], number: usize) -> Option<&'e Edit> {
    for edit in edits {
        if edit.line == number && edit.old.is_some() {
            return Some(edit);
        }
    }
    None
}

/// A text that is made of another by changes of lines and by new ones, with its lines broken behind backslashes where
/// those of the source are of which the other one is the text with such lines joined.
pub fn split_as(
    alloc: Global,
    source: &[u8],
    joined: &[u8],
    text: &[u8],
) -> Result<Vec<u8>, AllocError> {
    let edits = line_edits(alloc, joined, text)?;
    let (source, joined) = (lines(alloc, source)?, lines(alloc, joined)?);
    let mut out = Vec::new(alloc);
    let mut is_first = true;
    let mut past = 0usize;
    for at in 0..joined.len() {
        let number = at.saturating_add(1);
        for edit in edits.as_slice() {
            if edit.line == number && edit.old.is_none() {
                add_line(&mut out, &edit.new, &mut is_first)?;
            }
        }
        if at < past {
            continue;
        }
        match change_of(&edits, number) {
            Some(edit) => {
                let changed = Changed::of(joined[at], &edit.new);
                let count = if edit.count == 0 {
                    add_removed(&mut out, &source, at, &mut is_first)?
                } else {
                    add_changed(&mut out, &source, at, changed, &mut is_first)?
                };
                past = at.saturating_add(count);
            }
            None => match source.get(at) {
                Some(line) => add_line(&mut out, line, &mut is_first)?,
                None => {}
            },
        }
    }
    Ok(out)
}
