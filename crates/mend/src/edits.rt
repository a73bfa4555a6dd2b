// Which lines differ.

use crate::lines::{Change, lines};
use std::alloc::{AllocError, Global};

/// Lines in the place of one, or inserted before it, or none in the place of one.
#[derive(Drop)]
pub struct Edit {
    /// The number of the line in the source, counted from 1; of inserted ones, that of the line before which they
    /// stand.
    pub line: usize,
    /// What stood there; none where the lines are inserted.
    pub old: Option<Vec<u8>>,
    /// The new lines, with line feeds between them.
    pub new: Vec<u8>,
    /// How many they are; none where a line is removed, with its line feed.
    pub count: usize,
}

impl Edit {
    /// The same as a change of its line, where it is one.
    pub(crate) fn change(&self, alloc: Global) -> Result<Change, AllocError> {
        if self.count == 0 {
            return Ok(Change::Removed(self.line));
        }
        let text = Vec::from_slice(alloc, self.new.as_slice())?;
        Ok(match self.old {
            Some(_) => Change::Replaced(self.line, text),
            None => Change::Preceded(self.line, text),
        })
    }
}

fn line_at<'t>(lines: &[&'t [u8]], place: usize) -> Option<&'t [u8]> {
    lines.get(place).copied()
}

// Whether one of the next lines of a text, as far as it has more of them, is this line of the other one.
fn comes_later(new: &[&[u8]], place: usize, more: usize, old: &[u8]) -> bool {
    let last = place.saturating_add(more);
    for next in place.saturating_add(1)..last.saturating_add(1) {
        if let Some(line) = line_at(new, next)
            && line == old
        {
            return true;
        }
    }
    false
}

// How many bytes two lines begin with alike.
fn alike(left: &[u8], right: &[u8]) -> usize {
    let mut count = 0usize;
    for byte in left {
        match right.get(count) {
            Some(other) if *other == *byte => count = count.saturating_add(1),
            _ => return count,
        }
    }
    count
}

// Whether one of the next lines of a text, as far as it has more of them, is more like a line of the other one than
// this line is.
fn is_nearer(new: &[&[u8]], place: usize, more: usize, old: &[u8]) -> bool {
    let Some(line) = line_at(new, place) else {
        return false;
    };
    let here = alike(line, old);
    let last = place.saturating_add(more);
    for next in place.saturating_add(1)..last.saturating_add(1) {
        if let Some(other) = line_at(new, next)
            && alike(other, old) > here
        {
            return true;
        }
    }
    false
}

// Whether a line may be another one in the other text, or none: it begins with `#`, goes on a line that ends with a
// backslash, or is empty.
fn is_loose(lines: &[&[u8]], at: usize) -> bool {
    let line = match line_at(lines, at) {
        Some(line) => line.trim_ascii_start(),
        None => &[],
    };
    if line.is_empty() || line.starts_with(b"#".as_slice()) {
        return true;
    }
    match line_at(lines, at.wrapping_sub(1)) {
        Some(before) => before.trim_ascii_end().ends_with(b"\\".as_slice()),
        None => false,
    }
}

// Where the next line from one on stands that both texts have.
fn next_kept(lines: &[&[u8]], from: usize) -> usize {
    for at in from..lines.len() {
        if !is_loose(lines, at) {
            return at;
        }
    }
    lines.len()
}

// The lines of two texts, and how far they are compared.
#[derive(Drop)]
struct Compared<'t> {
    alloc: Global,
    old: &'t [&'t [u8]],
    new: &'t [&'t [u8]],
    /// The lines that come next.
    at: usize,
    place: usize,
    edits: Vec<Edit>,
}

impl Compared<'_> {
    // The next line of the new text is inserted.
    fn insert(&mut self, line: &[u8]) -> Result<(), AllocError> {
        self.place = self.place.saturating_add(1);
        self.edits.push(Edit {
            line: self.at.saturating_add(1),
            old: None,
            new: Vec::from_slice(self.alloc, line)?,
            count: 1,
        })?;
        Ok(())
    }

    // The next line of the old text is removed.
    fn remove(&mut self, was: &[u8]) -> Result<(), AllocError> {
        self.at = self.at.saturating_add(1);
        self.edits.push(Edit {
            line: self.at,
            old: Some(Vec::from_slice(self.alloc, was)?),
            new: Vec::new(self.alloc),
            count: 0,
        })?;
        Ok(())
    }

    // The next line of the new text stands in the place of that of the old one.
    fn replace(&mut self, was: &[u8], line: &[u8]) -> Result<(), AllocError> {
        self.at = self.at.saturating_add(1);
        self.place = self.place.saturating_add(1);
        if was == line {
            return Ok(());
        }
        self.edits.push(Edit {
            line: self.at,
            old: Some(Vec::from_slice(self.alloc, was)?),
            new: Vec::from_slice(self.alloc, line)?,
            count: 1,
        })?;
        Ok(())
    }

    // What becomes of the next lines, where so many of both stand before one that both texts have.
    fn take(
        &mut self,
        was: &[u8],
        line: &[u8],
        gone: usize,
        come: usize,
    ) -> Result<(), AllocError> {
        let (more, fewer) = (come.saturating_sub(gone), gone.saturating_sub(come));
        if was == line {
            return self.replace(was, line);
        }
        if more > 0
            && (comes_later(self.new, self.place, more, was)
                || is_nearer(self.new, self.place, more, was))
        {
            return self.insert(line);
        }
        if fewer > 0
            && (comes_later(self.old, self.at, fewer, line)
                || is_nearer(self.old, self.at, fewer, line))
        {
            return self.remove(was);
        }
        self.replace(was, line)
    }

    // Goes on by one line, up to places of both texts.
    fn step(&mut self, old_end: usize, new_end: usize) -> Result<(), AllocError> {
        let (gone, come) = (
            old_end.saturating_sub(self.at),
            new_end.saturating_sub(self.place),
        );
        match (line_at(self.old, self.at), line_at(self.new, self.place)) {
            (Some(was), Some(line)) if gone > 0 && come > 0 => self.take(was, line, gone, come),
            (Some(was), _) if gone > 0 => self.remove(was),
            (_, Some(line)) if come > 0 => self.insert(line),
            _ => Ok(()),
        }
    }

    // Goes on behind the next line that both texts have.
    fn go_on(&mut self) -> Result<(), AllocError> {
        let (old_end, new_end) = (
            next_kept(self.old, self.at),
            next_kept(self.new, self.place),
        );
        for _ in self.at.saturating_add(self.place)..old_end.saturating_add(new_end) {
            self.step(old_end, new_end)?;
        }
        match (line_at(self.old, self.at), line_at(self.new, self.place)) {
            (Some(was), Some(line)) => self.replace(was, line),
            _ => Ok(()),
        }
    }
}

/// The lines of a text that are not those of another, of which only lines with directives are changed, inserted and
/// removed, each by itself.
pub fn line_edits(alloc: Global, old: &[u8], new: &[u8]) -> Result<Vec<Edit>, AllocError> {
    let (old, new) = (lines(alloc, old)?, lines(alloc, new)?);
    let mut compared = Compared {
        alloc,
        old: &old,
        new: &new,
        at: 0,
        place: 0,
        edits: Vec::new(alloc),
    };
    for _ in 0..old.len() {
        compared.go_on()?;
    }
    let Compared { edits, .. } = compared;
    Ok(edits)
}

/// The line of a text on which the line of a number stands, counted from 1, once these edits of single lines are made;
/// of an inserted one the line before which it stands.
pub fn line_before(edits: &[Edit], number: usize) -> usize {
    let (mut come, mut gone) = (0usize, 0usize);
    for edit in edits {
        let place = edit.line.saturating_add(come).saturating_sub(gone);
        if place == number && edit.old.is_none() {
            return edit.line;
        }
        if place < number {
            come = come.saturating_add(edit.count);
            if edit.old.is_some() {
                gone = gone.saturating_add(1);
            }
        }
    }
    number.saturating_add(gone).saturating_sub(come)
}

// Adds an edit: to the last one, where that inserts lines before the same one.
fn join(edits: &mut Vec<Edit>, edit: Edit) -> Result<(), AllocError> {
    if let Some(last) = edits.last_mut()
        && last.line == edit.line
        && last.old.is_none()
    {
        let Edit {
            old,
            new,
            count,
            ..
        } = edit;
        if count > 0 {
            last.new.push(b'\n')?;
            last.new.extend_from_slice(new.as_slice())?;
        }
        last.count = last.count.saturating_add(count);
        last.old = old;
        return Ok(());
    }
    edits.push(edit)?;
    Ok(())
}

/// The same, those at one place together.
pub fn edits_of(alloc: Global, old: &[u8], new: &[u8]) -> Result<Vec<Edit>, AllocError> {
    let mut edits = Vec::new(alloc);
    for edit in line_edits(alloc, old, new)? {
        join(&mut edits, edit)?;
    }
    Ok(edits)
}
