// Of a number that is none, or is out of range.

use crate::around::{Around, ends_operand};
use crate::forms::{Telling, is_one_of, with_help};
use base::fault::ReadCode;

const RESULT: Telling = Telling {
    said: "gives no number from 0 to 18446744073709551615 here",
    help: "write the constant expression so that each of its operators gives such a number",
};

const DIVISOR_HELP: &str =
    "write a constant, or a scalar with a value that nothing changes, `int n = 8;`; to divide by another scalar, count in a loop";

const SHIFT_HELP: &str =
    "write a constant, or a scalar with a value that nothing changes, `int n = 8;`; to shift by another scalar, count in a loop";

// Where a constant expression has to stand, nothing stands behind its first token.
fn is_alone(around: &Around<'_>) -> bool {
    matches!(around.next, b')' | b']' | b',' | b';' | 0)
}

// An operator of a constant expression, with its left operand before it.
fn is_operator(around: &Around<'_>) -> bool {
    is_one_of(around.word, &["+", "-", "*", "/", "%", "<<", ">>"]) && around.is_behind_operand()
}

/// Of a number that is too large, or begins with a zero.
pub fn bad_number(around: &Around<'_>) -> Telling {
    match around.word.as_bytes() {
        [b'0', second, ..] if second.is_ascii_digit() => Telling {
            said: "begins with a superfluous 0",
            help: "take the 0 away: a number is decimal, or hexadecimal behind `0x`",
        },
        _ => with_help(ReadCode::BadNumber, None),
    }
}

/// Of the length of an array.
pub fn bad_length(around: &Around<'_>) -> Telling {
    if is_alone(around) {
        return with_help(ReadCode::BadLength, None);
    }
    Telling {
        said: "begins no length of an array, which has from 1 to 65536 cells",
        help: "write a constant expression from 1 to 65536",
    }
}

/// Of the number of a device.
pub fn bad_device(around: &Around<'_>) -> Telling {
    if is_alone(around) {
        return with_help(ReadCode::BadDevice, None);
    }
    Telling {
        said: "begins no device: these are 0, 1, 2 and 3",
        help: "write a constant expression from 0 to 3",
    }
}

// What stands in brackets behind `collapse`.
fn bad_collapse(around: &Around<'_>) -> Telling {
    let said = if is_alone(around) {
        "is no number of loops that `collapse` takes: these are 1, 2, 3 and 4"
    } else {
        "begins no number of loops that `collapse` takes: these are 1, 2, 3 and 4"
    };
    Telling {
        said,
        help: "write one of these numbers",
    }
}

// A number behind a word of a directive's line.
fn bad_amount(around: &Around<'_>) -> Telling {
    if around.is_behind(b"collapse(") || around.is_behind(b"collapse (") {
        return bad_collapse(around);
    }
    let said = if is_alone(around) {
        "is no number from 1 on"
    } else {
        "begins no number from 1 on"
    };
    Telling {
        said,
        help: "write a constant expression from 1 on",
    }
}

// The right operand of `/` or `%`.
fn bad_divisor(around: &Around<'_>) -> Telling {
    let said = if around.word == "(" {
        "begins no divisor: that is a constant, or an expression of constants in brackets, from 1 on"
    } else {
        "is no divisor: that is a constant, or an expression of constants in brackets, from 1 on"
    };
    Telling {
        said,
        help: DIVISOR_HELP,
    }
}

// The right side of `/=` or `%=`.
fn bad_divisor_to(around: &Around<'_>) -> Telling {
    let said = if is_alone(around) {
        "is no divisor: behind `/=` and `%=` all of the right side is a constant expression, from 1 on"
    } else {
        "begins no divisor: behind `/=` and `%=` all of the right side is a constant expression, from 1 on"
    };
    Telling {
        said,
        help: DIVISOR_HELP,
    }
}

// The right operand of `<<` or `>>`.
fn bad_shift(around: &Around<'_>) -> Telling {
    let said = if around.word == "(" {
        "begins no shift count: that is a constant, or an expression of constants in brackets, from 0 to 63"
    } else {
        "is no shift count: that is a constant, or an expression of constants in brackets, from 0 to 63"
    };
    Telling {
        said,
        help: SHIFT_HELP,
    }
}

// The right side of `<<=` or `>>=`.
fn bad_shift_to(around: &Around<'_>) -> Telling {
    let said = if is_alone(around) {
        "is no shift count: behind `<<=` and `>>=` all of the right side is a constant expression, from 0 to 63"
    } else {
        "begins no shift count: behind `<<=` and `>>=` all of the right side is a constant expression, from 0 to 63"
    };
    Telling {
        said,
        help: SHIFT_HELP,
    }
}

// A limit behind `<=`, or a step.
fn bad_in_head(around: &Around<'_>) -> Telling {
    if around.before == "<=" {
        return Telling {
            said: "is no limit that can stand behind `<=`",
            help: "a limit is at most 18446744073709551614 there, and one more behind `<`",
        };
    }
    let said = if is_alone(around) {
        "is no step that can stand here"
    } else {
        "begins no step that can stand here"
    };
    Telling {
        said,
        help: "a step is at least 1, and with `i < NUM` that limit plus the step at most 18446744073709551616",
    }
}

/// Of a number that is none or is out of range: an operand, one in the head of a loop, or one of a clause; or of an
/// operator that gives none.
pub fn bad_operand(around: &Around<'_>) -> Telling {
    if is_operator(around) {
        return RESULT;
    }
    if !around.line.is_empty() {
        return bad_amount(around);
    }
    match around.before {
        "/" | "%" => bad_divisor(around),
        "<<" | ">>" => bad_shift(around),
        "/=" | "%=" => bad_divisor_to(around),
        "<<=" | ">>=" => bad_shift_to(around),
        _ => bad_in_head(around),
    }
}
