// A mend without changes that it does not need, and with an exit for each entry that it adds.

ghost use Rattle.std.specs.Prelude.{IfOk};
ghost use Rattle.mend.specs.Mends.{IsAcceptedOf};

use crate::edits::{Edit, line_edits};
use crate::judge::{Verdict, judge};
use crate::lines::{Change, changed, cut, indent, lines};
use crate::places::end_of_block;
use crate::words::{Word, is_text, items_first, words};
use std::alloc::{AllocError, Global};

// The most edits that are taken back one by one.
const MOST_EDITS: usize = 8;

// The source with all edits but one.
fn without_edit(
    alloc: Global,
    source: &[u8],
    edits: &[Edit],
    but: usize,
) -> Result<Vec<u8>, AllocError> {
    let mut changes = Vec::new(alloc);
    for (number, edit) in edits.iter().enumerate() {
        if number != but {
            changes.push(edit.change(alloc)?)?;
        }
    }
    let lines = lines(alloc, source)?;
    changed(alloc, &lines, changes.as_slice())
}

// The text that is tried where it is accepted, else the one that is had.
fn better(alloc: Global, bare: &[u8], had: Vec<u8>, text: Vec<u8>) -> Result<Vec<u8>, AllocError>
    requires { IsAcceptedOf bare.now had.items }
    ensures { IfOk result (λ t. IsAcceptedOf bare.now t.items) }
{
    match judge(alloc, bare, &text)? {
        Verdict::Accepted => Ok(text),
        _ => Ok(had),
    }
}

// Whether the word at a place of a directive line is this one.
fn has_word(alloc: Global, line: &[u8], place: usize, text: &[u8]) -> Result<bool, AllocError> {
    Ok(match words(alloc, line)?.get(place) {
        Some(word) => is_text(line, word, text),
        None => false,
    })
}

// Whether an edit inserts an exit, which leaves what else would stay on a device.
fn is_exit(alloc: Global, edit: &Edit) -> Result<bool, AllocError> {
    Ok(edit.old.is_none() && has_word(alloc, edit.new.as_slice(), 3, b"exit".as_slice())?)
}

// The text without the edit of a number where it is accepted so.
fn without_one(
    alloc: Global,
    bare: &[u8],
    source: &[u8],
    had: Vec<u8>,
    number: usize,
) -> Result<Vec<u8>, AllocError>
    requires { IsAcceptedOf bare.now had.items }
    ensures { IfOk result (λ t. IsAcceptedOf bare.now t.items) }
{
    let edits = line_edits(alloc, source, &had)?;
    let Some(edit) = edits.get(number) else {
        return Ok(had);
    };
    if edits.len() < 2 || is_exit(alloc, edit)? {
        return Ok(had);
    }
    let text = without_edit(alloc, source, &edits, number)?;
    better(alloc, bare, had, text)
}

// The words of the exit of what an entry has, which is written on a line.
fn exit_words(alloc: Global, line: &[u8], words: &[Word]) -> Result<Vec<u8>, AllocError> {
    let mut out = Vec::from_slice(alloc, b"#pragma omp target exit data".as_slice())?;
    for word in words {
        if is_text(line, word, b"map".as_slice()) {
            out.extend_from_slice(b" map(release:".as_slice())?;
            out.extend_from_slice(cut(line, items_first(line, word), word.close))?;
            out.push(b')')?;
        } else if word.has_brackets() {
            out.push(b' ')?;
            out.extend_from_slice(cut(line, word.first, word.whole_end()))?;
        }
    }
    Ok(out)
}

// The exit at the end of its block of what an entry on a line enters; none where the line has no entry.
fn exit_of(
    alloc: Global,
    text: &[u8],
    line: &[u8],
    number: usize,
) -> Result<Option<Change>, AllocError> {
    if !has_word(alloc, line, 3, b"enter".as_slice())? {
        return Ok(None);
    }
    let Some(end) = end_of_block(text, number) else {
        return Ok(None);
    };
    let lines = lines(alloc, text)?;
    let before = match lines.get(end.line.saturating_sub(1)) {
        Some(before) => indent(before),
        None => 0,
    };
    if before < end.column.saturating_sub(1) {
        return Ok(None);
    }
    let mut exit = Vec::from_slice(alloc, cut(line, 0, indent(line)))?;
    exit.extend_from_slice(&exit_words(alloc, line, &words(alloc, line)?)?)?;
    Ok(Some(Change::Preceded(end.line, exit)))
}

// The text with an exit for each entry that an edit inserts, where there are any.
fn with_exits(alloc: Global, source: &[u8], text: &[u8]) -> Result<Option<Vec<u8>>, AllocError> {
    let lines = lines(alloc, text)?;
    let mut changes = Vec::new(alloc);
    let (mut inserted, mut removed) = (0usize, 0usize);
    for edit in line_edits(alloc, source, text)?.as_slice() {
        if edit.count == 0 {
            removed = removed.saturating_add(1);
        }
        if edit.old.is_none() {
            let number = edit.line.saturating_add(inserted).saturating_sub(removed);
            inserted = inserted.saturating_add(1);
            if let Some(exit) = exit_of(alloc, text, edit.new.as_slice(), number)? {
                changes.push(exit)?;
            }
        }
    }
    if changes.is_empty() {
        return Ok(None);
    }
    Ok(Some(changed(alloc, &lines, changes.as_slice())?))
}

// The text with an exit for each entry that it adds to the source, where it is accepted so.
fn left_again(
    alloc: Global,
    bare: &[u8],
    source: &[u8],
    had: Vec<u8>,
) -> Result<Vec<u8>, AllocError>
    requires { IsAcceptedOf bare.now had.items }
    ensures { IfOk result (λ t. IsAcceptedOf bare.now t.items) }
{
    match with_exits(alloc, source, &had)? {
        Some(text) => better(alloc, bare, had, text),
        None => Ok(had),
    }
}

/// A text that is accepted, from one that is, which differs from a source in no more lines than that one but for exits
/// of what it enters. At most so many texts are checked.
pub fn tidied(
    alloc: Global,
    bare: &[u8],
    source: &[u8],
    found: Vec<u8>,
    most: usize,
) -> Result<Vec<u8>, AllocError>
    requires { IsAcceptedOf bare.now found.items }
    ensures { IfOk result (λ t. IsAcceptedOf bare.now t.items) }
{
    if most == 0 {
        return Ok(found);
    }
    let mut kept = found;
    for number in (0..(most - 1).min(MOST_EDITS)).rev() {
        kept = without_one(alloc, bare, source, kept, number)?;
    }
    left_again(alloc, bare, source, kept)
}
