// What is told of expressions that may have another value in C.

use base::tree::Program;
use c_differences::{Difference, InC, Reason, Type, differences_of};
use reasons::{Diagnosis, Note, Weight};
use std::alloc::{AllocError, Global};

const CODE: &str = "W601";

const RULE: &str = "an expression may have another value in C, or none";

// What C makes of it, where that is not known.
fn unknown_text(reason: Reason, ctype: Type) -> &'static str {
    match (reason, ctype.is_signed()) {
        (Reason::Complement, true) => "is negative",
        (Reason::Below, true) => "may be negative",
        (_, true) => "may be undefined, since it may pass that type",
        (_, false) => "may be another number, since that type has 32 bits",
    }
}

// The type in C and the value.
fn value_text(alloc: Global, difference: &Difference) -> Result<String, AllocError> {
    let word = difference.ctype.as_str();
    match difference.in_c {
        InC::Negative(n) => format!(in alloc; "in C this has type `{word}`, and is -{n}"),
        InC::Number(n) => format!(in alloc; "in C this has type `{word}`, and is {n}"),
        InC::Undefined => format!(in alloc; "in C this has type `{word}`, and is undefined"),
        InC::Unknown => {
            let text = unknown_text(difference.reason, difference.ctype);
            format!(in alloc; "in C this has type `{word}`, and {text}")
        }
    }
}

// What C makes of it.
fn c_text(alloc: Global, difference: &Difference) -> Result<String, AllocError> {
    let word = difference.ctype.as_str();
    match difference.reason {
        Reason::Number if difference.ctype == Type::Long => {
            String::from_str(alloc, "in C this number has no type of its own")
        }
        Reason::Printed => {
            format!(in alloc;
                "in C this has type `{word}`, where `printf` takes an `unsigned long`"
            )
        }
        Reason::Counter => {
            format!(in alloc;
                "in C this is an `{word}`, which may not hold the number behind the last turn"
            )
        }
        Reason::Cut => {
            format!(in alloc;
                "in C this has type `{word}`, and what is made of it is cut to an `int`"
            )
        }
        Reason::Other => String::from_str(alloc, "this may have another value in C"),
        _ => value_text(alloc, difference),
    }
}

fn message(alloc: Global, difference: &Difference) -> Result<String, AllocError> {
    let text = c_text(alloc, difference)?;
    match (difference.reason, difference.here) {
        (Reason::Printed | Reason::Cut, _) | (_, None) => Ok(text),
        (_, Some(n)) => format!(in alloc; "{text}; here it is {n}"),
    }
}

/// What could be done with a value that an `int` does not hold.
const WIDER: &str = "give it to a `uint64_t`";

// What could be written where no operand is a number.
fn help_without(alloc: Global, reason: Reason) -> Result<String, AllocError> {
    if reason == Reason::Printed {
        return String::from_str(
            alloc,
            "write `print(..)`, or make it a `uint64_t`: `0ul + (..)`",
        );
    }
    if reason == Reason::Counter {
        return String::from_str(alloc, "let its type be `uint64_t`");
    }
    if reason == Reason::Cut {
        return String::from_str(alloc, WIDER);
    }
    String::from_str(alloc, "make an operand a `uint64_t`: `(0ul + ..)`")
}

// What could be written.
fn help(alloc: Global, difference: &Difference) -> Result<String, AllocError> {
    let reason = difference.reason;
    match difference.operand {
        None => help_without(alloc, reason),
        Some(n) => {
            if reason == Reason::Number || reason == Reason::Printed {
                return format!(in alloc; "write `{n}ul`");
            }
            if reason == Reason::Cut && n <= Type::Int.greatest() {
                return format!(in alloc; "write `{n}`, or give it to a `uint64_t`");
            }
            if reason == Reason::Cut {
                return String::from_str(alloc, WIDER);
            }
            format!(in alloc; "make an operand a `uint64_t`: `{n}ul`")
        }
    }
}

fn warning(alloc: Global, difference: &Difference) -> Result<Diagnosis, AllocError> {
    let mut notes = Vec::new(alloc);
    notes.push(Note {
        weight: Weight::Help,
        place: difference.place,
        message: help(alloc, difference)?,
        loops: Vec::new(alloc),
    })?;
    Ok(Diagnosis {
        code: CODE,
        rule: RULE,
        place: difference.place,
        message: message(alloc, difference)?,
        item: None,
        cell: None,
        since: None,
        conflict: None,
        loops: Vec::new(alloc),
        notes,
    })
}

/// One for each expression of a program that may have another value in C, or none; the bytes are its source. The error
/// comes where an allocation fails.
pub fn warnings_of(
    alloc: Global,
    bytes: &[u8],
    program: &Program,
) -> Result<Vec<Diagnosis>, AllocError> {
    let told = differences_of(alloc, bytes, program)?;
    let mut warnings = Vec::new(alloc);
    'told: for difference in &told.list {
        warnings.push(warning(alloc, difference)?)?;
    }
    Ok(warnings)
}
