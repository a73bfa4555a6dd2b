// Arrays that are pointers in C: which names stand for them, and where those are known.

use crate::candidates::{Candidate, Candidates};
use crate::clauses::with_map;
use crate::lines::{Change, cut};
use crate::places::statement_tokens;
use crate::view::View;
use base::item::{Item, MapItem};
use c_tokens::{Kind, Sign, Token, tokens};
use std::alloc::{AllocError, Global};

fn is_name_part(byte: u8) -> bool {
    byte.is_ascii_alphanumeric() || byte == b'_'
}

fn has_word(line: &[u8], name: &[u8]) -> bool {
    for word in line.split(|byte| !is_name_part(*byte)) {
        if word == name {
            return true;
        }
    }
    false
}

fn text_of<'t>(text: &'t [u8], token: &Token) -> &'t [u8] {
    cut(text, token.first, token.last.saturating_add(1))
}

// The line of the first token that is a name.
fn first_line(text: &[u8], name: &[u8]) -> Option<usize> {
    for token in tokens(text) {
        if matches!(token.kind, Kind::Name) && text_of(text, &token) == name {
            return Some(token.line);
        }
    }
    None
}

// The names of the arrays, each with the line before which it is not known.
fn known_from<'v>(view: &View<'v>) -> Result<Vec<(&'v [u8], usize)>, AllocError> {
    let mut known = Vec::new(view.alloc);
    for array in 0..view.program.arrays.len() {
        if let Some((name, _)) = view.program.arrays.get_index(array)
            && let Some(line) = first_line(view.text, name.as_bytes())
        {
            known.push((name.as_bytes(), line))?;
        }
    }
    Ok(known)
}

// Whether a text in the place of a line, or before it, names no other array than that line where it is not known.
fn are_known(known: &[(&[u8], usize)], at: usize, old: &[u8], text: &[u8]) -> bool {
    for (name, line) in known {
        if at <= *line && has_word(text, name) && !has_word(old, name) {
            return false;
        }
    }
    true
}

// Whether a candidate names no array on a line before which it is not known.
fn is_known(view: &View<'_>, known: &[(&[u8], usize)], candidate: &Candidate) -> bool {
    for change in candidate.changes.as_slice() {
        let is_known = match change {
            Change::Replaced(line, text) => are_known(known, *line, view.line(*line), text),
            Change::Preceded(line, text) => are_known(known, *line, &[], text),
            Change::Removed(_) => true,
        };
        if !is_known {
            return false;
        }
    }
    true
}

/// The candidates but for those that name an array where C does not know it: in a function before `main`, which
/// allocates it.
pub fn known_alone(view: &View<'_>, candidates: Candidates) -> Result<Candidates, AllocError> {
    let known = known_from(view)?;
    let mut kept = Candidates::new(view.alloc);
    for candidate in candidates.all {
        if is_known(view, &known, &candidate) {
            kept.all.push(candidate)?;
        }
    }
    Ok(kept)
}

/// Whether a map item is of an array that is a pointer in C, which its target uses and names in no clause.
pub fn is_implied(view: &View<'_>, item: &Item, map: &MapItem) -> bool {
    let line = view.line(map.line);
    let first = map.column.saturating_sub(1);
    map.present
        && map.line == item.place.line
        && cut(line, first, first.saturating_add(6)) == b"target".as_slice()
}

// The names with subscripts in the statement behind a line, each once.
fn subscripted<'t>(
    alloc: Global,
    text: &'t [u8],
    line: usize,
) -> Result<Vec<&'t [u8]>, AllocError> {
    let mut names: Vec<&'t [u8]> = Vec::new(alloc);
    let mut last: Option<Token> = None;
    for token in statement_tokens(alloc, text, line)? {
        if let Some(name) = last
            && matches!(name.kind, Kind::Name)
            && matches!(token.kind, Kind::Sign(Sign::OpenBracket))
        {
            let name = text_of(text, &name);
            if !names.contains(&name) {
                names.push(name)?;
            }
        }
        last = Some(token);
    }
    Ok(names)
}

/// A clause on the line of a target for a pointer that it uses, under each name that has a subscript there.
pub fn map_pointer(
    view: &View<'_>,
    item: &Item,
    map: &MapItem,
    out: &mut Candidates,
) -> Result<(), AllocError> {
    let length = map.section.length;
    for name in subscripted(view.alloc, view.text, item.place.line)? {
        let name = str::from_utf8(name).unwrap_or("");
        let text = format!(in view.alloc; "{name}[0:{length}]")?;
        let line = with_map(view.alloc, view.line_of(item), "tofrom", text.as_str())?;
        out.replace(item.place.line, Some(line))?;
    }
    Ok(())
}
