// Faults of the text (E1xx, E2xx).

use crate::around::{Around, look_around};
use crate::constants::renamed;
use crate::diagnosis::{Diagnosis, Note, Weight};
use crate::forms::{self, Telling, with_help};
use crate::limit::limit_of;
use crate::rules::read_rule;
use crate::source::{declaration_of, naming_of};
use crate::words::add;
use crate::{amounts, lines};
use base::fault::{ReadCode, TextFault};
use base::tree::Place;
use std::alloc::{AllocError, Global};

// What stands at a place.
fn standing(alloc: Global, around: &Around<'_>) -> Result<String, AllocError> {
    match around.word {
        "" if around.line.is_empty() => String::from_str(alloc, "the end of the text"),
        "" => String::from_str(alloc, "the end of the line"),
        "#" => String::from_str(alloc, "this line"),
        "this byte" => String::from_str(alloc, "this byte"),
        word => format!(in alloc; "`{word}`"),
    }
}

// Where the name is declared that is declared again.
fn note_earlier(
    alloc: Global,
    bytes: &[u8],
    fault: &TextFault,
    word: &str,
    notes: &mut Vec<Note>,
) -> Result<(), AllocError> {
    match (fault.code, declaration_of(bytes, word)) {
        (ReadCode::AlreadyDeclared, Some(place)) => {
            let message = format!(in alloc; "`{word}` is declared here")?;
            add(notes, Weight::Note, place, message)
        }
        _ => Ok(()),
    }
}

// What can be written where a token cannot stand.
fn unexpected(bytes: &[u8], around: &Around<'_>) -> Option<&'static str> {
    match renamed(bytes, around) {
        Some(form) => Some(form),
        None => forms::unexpected(around),
    }
}

// What is wrong with what stands at the place, and what can be written.
fn telling_of(bytes: &[u8], code: ReadCode, around: &Around<'_>) -> Telling {
    match code {
        ReadCode::TooMany => limit_of(bytes, around),
        ReadCode::Undeclared => forms::undeclared(naming_of(bytes, around.word), around),
        ReadCode::UnknownByte => forms::unknown_byte(around),
        ReadCode::BadNumber => amounts::bad_number(around),
        ReadCode::BadLength => amounts::bad_length(around),
        ReadCode::BadDevice => amounts::bad_device(around),
        ReadCode::BadOperand => amounts::bad_operand(around),
        ReadCode::TooDeep => forms::too_deep(around),
        ReadCode::ClauseCount => forms::clause_count(around),
        ReadCode::Unexpected => with_help(code, unexpected(bytes, around)),
        ReadCode::UnknownDirective => with_help(code, lines::unknown_directive(around)),
        ReadCode::UnknownClause => lines::no_clause(around),
        ReadCode::BadBound => with_help(code, lines::bad_bound(around)),
        _ => with_help(code, None),
    }
}

/// Of a fault of the text.
pub fn text_diagnosis(
    alloc: Global,
    bytes: &[u8],
    fault: &TextFault,
) -> Result<Diagnosis, AllocError> {
    let place = Place {
        line: fault.line,
        column: fault.column,
    };
    let around = look_around(bytes, place);
    let word = around.word;
    let what = standing(alloc, &around)?;
    let told = telling_of(bytes, fault.code, &around);
    let message = format!(in alloc; "{what} {}", told.said)?;
    let mut notes = Vec::new(alloc);
    note_earlier(alloc, bytes, fault, word, &mut notes)?;
    let help = String::from_str(alloc, told.help)?;
    add(&mut notes, Weight::Help, place, help)?;
    Ok(Diagnosis {
        code: fault.code.as_str(),
        rule: read_rule(fault.code),
        place,
        message,
        item: None,
        cell: None,
        since: None,
        conflict: None,
        loops: Vec::new(alloc),
        notes,
    })
}
