// What is tried where turns that meet do nothing with a cell or a scalar but update it.

use crate::candidates::Candidates;
use crate::clauses::{place_of, with_reduction};
use crate::lines::{Change, cut};
use crate::places::statement_tokens;
use crate::view::View;
use base::item::Item;
use base::tree::Place;
use c_tokens::{Kind, Sign, Token};
use std::alloc::AllocError;

// A statement that begins with a name, and where it stands.
#[derive(Clone, Copy)]
struct Start<'t> {
    name: &'t [u8],
    place: Place,
}

// One that updates a cell or a scalar by an operator that commutes, or assigns it, with no operator.
#[derive(Clone, Copy)]
struct Update<'t> {
    start: Start<'t>,
    operator: Option<&'static str>,
    is_scalar: bool,
}

// How far the beginning of a statement has been read.
#[derive(Clone, Copy)]
enum Read<'t> {
    Inside,
    Start,
    Name(Start<'t>),
    Index(Start<'t>, usize),
    Cell(Start<'t>),
}

// The operator of an update that commutes, where one stands behind the cell or the scalar.
fn commuting(kind: Kind) -> Option<Option<&'static str>> {
    match kind {
        Kind::Sign(Sign::PlusEqual | Sign::PlusPlus) => Some(Some("+")),
        Kind::Sign(Sign::StarEqual) => Some(Some("*")),
        Kind::Sign(Sign::AmpersandEqual) => Some(Some("&")),
        Kind::Sign(Sign::BarEqual) => Some(Some("|")),
        Kind::Sign(Sign::CaretEqual) => Some(Some("^")),
        Kind::Sign(Sign::Equal) => Some(None),
        _ => None,
    }
}

// Behind a token that is none of those of an update.
fn behind_other<'t>(token: &Token) -> Read<'t> {
    match token.kind {
        Kind::Sign(Sign::Semicolon | Sign::OpenBrace | Sign::CloseBrace | Sign::CloseParen) => {
            Read::Start
        }
        _ => Read::Inside,
    }
}

fn behind_index<'t>(start: Start<'t>, depth: usize, token: &Token) -> Read<'t> {
    match token.kind {
        Kind::Sign(Sign::OpenBracket) => Read::Index(start, depth.saturating_add(1)),
        Kind::Sign(Sign::CloseBracket) if depth <= 1 => Read::Cell(start),
        Kind::Sign(Sign::CloseBracket) => Read::Index(start, depth.saturating_sub(1)),
        _ => Read::Index(start, depth),
    }
}

// A second bracket is that of a row.
fn behind<'t>(text: &'t [u8], read: Read<'t>, token: &Token) -> Read<'t> {
    match (read, token.kind) {
        (Read::Start, Kind::Name) => Read::Name(Start {
            name: cut(text, token.first, token.last.saturating_add(1)),
            place: Place {
                line: token.line,
                column: token.column,
            },
        }),
        (Read::Name(start) | Read::Cell(start), Kind::Sign(Sign::OpenBracket)) => {
            Read::Index(start, 1)
        }
        (Read::Index(start, depth), _) => behind_index(start, depth, token),
        _ => behind_other(token),
    }
}

// The update that a statement is, of which so much has been read, with this token.
fn as_update<'t>(read: Read<'t>, token: &Token) -> Option<Update<'t>> {
    let operator = commuting(token.kind)?;
    match read {
        Read::Name(start) => Some(Update {
            start,
            operator,
            is_scalar: true,
        }),
        Read::Cell(start) => Some(Update {
            start,
            operator,
            is_scalar: false,
        }),
        _ => None,
    }
}

// The updates and assignments in the statement behind a line, of arrays and of what is held in arrays.
fn updates<'v>(view: &View<'v>, line: usize) -> Result<Vec<Update<'v>>, AllocError> {
    let mut found = Vec::new(view.alloc);
    let mut read = Read::Start;
    for token in statement_tokens(view.alloc, view.text, line)? {
        if let Some(update) = as_update(read, &token)
            && view.array_of(update.start.name).is_some()
        {
            found.push(update)?;
        }
        read = behind(view.text, read, &token);
    }
    Ok(found)
}

// A line before each update of that name, where each of them begins its line.
fn before_each(
    view: &View<'_>,
    all: &[Update<'_>],
    name: &[u8],
    out: &mut Candidates,
) -> Result<(), AllocError> {
    let mut changes = Vec::new(view.alloc);
    for update in all {
        if update.start.name == name && update.operator.is_some() {
            if !view.begins_line(update.start.place) {
                return Ok(());
            }
            changes.push(view.directive(update.start.place.line, "atomic")?)?;
        }
    }
    if changes.is_empty() {
        return Ok(());
    }
    out.many(changes)
}

// The line with a scalar gathered by the operator, where it is one and is not gathered yet.
fn gathered(
    view: &View<'_>,
    line: &[u8],
    update: Update<'_>,
    operator: &str,
) -> Result<Option<Vec<u8>>, AllocError> {
    if !update.is_scalar {
        return Ok(None);
    }
    let Some(array) = view.array_of(update.start.name) else {
        return Ok(None);
    };
    let name = view.name(array);
    let clause = b"reduction".as_slice();
    if place_of(view.alloc, line, clause, name.as_bytes())?.is_some() {
        return Ok(None);
    }
    let text = with_reduction(view.alloc, line, operator, name)?;
    Ok(Some(text))
}

// The line that sums up each scalar that is updated.
fn summed(view: &View<'_>, all: &[Update<'_>], line: &[u8]) -> Result<Vec<u8>, AllocError> {
    let mut text = Vec::from_slice(view.alloc, line)?;
    for update in all {
        if let Some(operator) = update.operator
            && let Some(more) = gathered(view, text.as_slice(), *update, operator)?
        {
            text = more;
        }
    }
    Ok(text)
}

// The line by which a scalar keeps the greatest number, and the least: whether its assignments say so the check finds.
fn kept(
    view: &View<'_>,
    summed: &[u8],
    at: usize,
    update: Update<'_>,
    out: &mut Candidates,
) -> Result<(), AllocError> {
    for operator in ["max", "min"] {
        if let Some(text) = gathered(view, summed, update, operator)? {
            out.replace(at, Some(text))?;
        }
    }
    Ok(())
}

/// A `reduction` of the scalars that the target updates, also by `max` or `min` of one that it assigns, and `atomic`
/// before each update of an array or a scalar, for each that it updates so.
pub fn mark_updates(view: &View<'_>, item: &Item, out: &mut Candidates) -> Result<(), AllocError> {
    let all = updates(view, item.place.line)?;
    let line = view.line_of(item);
    let summed = summed(view, all.as_slice(), line)?;
    if summed.as_slice() != line {
        out.replace(item.place.line, Some(summed.clone()?))?;
    }
    let mut seen: Vec<&[u8]> = Vec::new(view.alloc);
    for update in all.as_slice() {
        if !seen.contains(&update.start.name) {
            seen.push(update.start.name)?;
            before_each(view, all.as_slice(), update.start.name, out)?;
            kept(view, summed.as_slice(), item.place.line, *update, out)?;
        }
    }
    Ok(())
}
