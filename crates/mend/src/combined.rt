// What is tried where two turns of a loop meet that may run in any order.

use crate::atomic::mark_updates;
use crate::candidates::Candidates;
use crate::clauses::without_clause;
use crate::inner::before_inner;
use crate::lines::cut;
use crate::view::View;
use crate::words::{Word, words};
use std::alloc::{AllocError, Global};

// The words that make another construct of `target`.
const WORDS: [&str; 6] = ["parallel", "for", "simd", "teams", "distribute", "loop"];

// The clauses that such a construct alone takes.
const CLAUSES: [&str; 9] = [
    "collapse",
    "num_teams",
    "thread_limit",
    "num_threads",
    "simdlen",
    "safelen",
    "schedule",
    "default",
    "shared",
];

// More loops than a source may have open.
const MOST_LOOPS: u32 = 16;

fn is_among(all: &[&str], text: &[u8]) -> bool {
    for one in all {
        if one.as_bytes() == text {
            return true;
        }
    }
    false
}

fn is_combined(line: &[u8], word: &Word) -> bool {
    let text = cut(line, word.first, word.end);
    is_among(WORDS.as_slice(), text) || is_among(CLAUSES.as_slice(), text)
}

// The line of a directive without the words and the clauses of a combined construct, and the blanks before each.
fn without_combined(alloc: Global, line: &[u8]) -> Result<Vec<u8>, AllocError> {
    let mut out = Vec::new(alloc);
    let mut kept = 0usize;
    let mut last = 0usize;
    for word in words(alloc, line)?.as_slice() {
        let end = word.whole_end();
        if is_combined(line, word) {
            out.extend_from_slice(cut(line, kept, last))?;
            kept = end;
        }
        last = end;
    }
    out.extend_from_slice(cut(line, kept, line.len()))?;
    Ok(out)
}

// The clause that says how many loops are collapsed, and their number.
fn collapse_of(alloc: Global, line: &[u8]) -> Result<Option<(Word, u32)>, AllocError> {
    for word in words(alloc, line)?.as_slice() {
        if cut(line, word.first, word.end) == b"collapse".as_slice() {
            let count = str::from_utf8(cut(line, word.open, word.close)).unwrap_or("");
            return Ok(match count.trim().parse::<u32>() {
                Ok(count) => Some((*word, count)),
                Err(_) => None,
            });
        }
    }
    Ok(None)
}

// The line with another number of collapsed loops. The blanks stay as they are.
fn with_collapse(
    alloc: Global,
    line: &[u8],
    clause: Word,
    count: u32,
) -> Result<Vec<u8>, AllocError> {
    let mut out = Vec::from_slice(alloc, cut(line, 0, clause.open))?;
    let number = format!(in alloc; "{count}")?;
    out.extend_from_slice(number.as_bytes())?;
    out.extend_from_slice(cut(line, clause.close, line.len()))?;
    Ok(out)
}

/// The line without its `collapse`, and the blanks before it, where it has one.
pub fn without_collapse(alloc: Global, line: &[u8]) -> Result<Option<Vec<u8>>, AllocError> {
    match collapse_of(alloc, line)? {
        None => Ok(None),
        Some((clause, _)) => Ok(Some(without_clause(alloc, line, &clause)?)),
    }
}

// Fewer loops are collapsed, as many as can be.
fn collapse_fewer(
    view: &View<'_>,
    place: usize,
    line: &[u8],
    out: &mut Candidates,
) -> Result<(), AllocError> {
    if let Some((clause, count)) = collapse_of(view.alloc, line)? {
        let count = count.min(MOST_LOOPS);
        for less in 2..count {
            let text = with_collapse(view.alloc, line, clause, count + 1 - less)?;
            out.replace(place, Some(text))?;
        }
        if count > 1 {
            let text = without_clause(view.alloc, line, &clause)?;
            out.replace(place, Some(text))?;
        }
    }
    Ok(())
}

/// Two turns of a target meet on a cell: they may update it in any order; with fewer loops in any order they may not, those of a loop inside may not, and as
/// a `target` alone it has its turns in order.
pub fn turns_meet(view: &View<'_>, at: usize, out: &mut Candidates) -> Result<(), AllocError> {
    let Some(item) = view.item(at) else {
        return Ok(());
    };
    let line = view.line_of(item);
    mark_updates(view, item, out)?;
    collapse_fewer(view, item.place.line, line, out)?;
    before_inner(view, item, line, out)?;
    let plain = without_combined(view.alloc, line)?;
    out.replace(item.place.line, Some(plain))
}
