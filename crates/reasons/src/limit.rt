// Which limit a text passes.

use crate::around::Around;
use crate::forms::{Telling, is_one_of, with_help};
use crate::source::is_type;
use base::fault::ReadCode;
use c_tokens::limits::{MAX_NAME, MAX_SOURCE};

const SOURCE: Telling = Telling {
    said: "begins a source of more than 1048576 bytes",
    help: "split the program",
};

const NAME: Telling = Telling {
    said: "is too long: a name has at most 64 bytes",
    help: "take a shorter name",
};

const TERMS: Telling = Telling {
    said: "is one term too many: a bound has at most 8",
    help: "add the numbers up",
};

const DEPENDS: Telling = Telling {
    said: "is one item too many: a directive has at most 64 depend items",
    help: "name a section that has several of them",
};

const ARRAYS: Telling = Telling {
    said: "is one array too many: a program has at most 64",
    help: "put two arrays into one",
};

const SCALARS: Telling = Telling {
    said: "is one scalar too many: a program has at most 256",
    help: "use a local for more than one thing, or an array",
};

const STATEMENTS: Telling = Telling {
    said: "is one statement too many: a program has at most 16384, directives counted",
    help: "write a loop, or split the program",
};

// A statement begins there, of which `++` or `--` may stand before.
fn begins_statement(around: &Around<'_>) -> bool {
    around.wants_body
        || around.before.as_bytes().first() == Some(&b'#')
        || is_one_of(around.before, &[";", "{", "}", "++", "--"])
}

/// The limit that is passed at a place.
pub fn limit_of(bytes: &[u8], around: &Around<'_>) -> Telling {
    if bytes.len() > MAX_SOURCE {
        return SOURCE;
    }
    if !around.line.is_empty() {
        return if around.is_in_bound() { TERMS } else { DEPENDS };
    }
    if around.word.len() > MAX_NAME {
        return NAME;
    }
    // a further name of a declaration is a statement of its own
    if around.word == "," {
        return STATEMENTS;
    }
    if is_type(around.before) || around.before == "," {
        return if around.next == b'[' { ARRAYS } else { SCALARS };
    }
    if begins_statement(around) {
        return STATEMENTS;
    }
    with_help(ReadCode::TooMany, None)
}
