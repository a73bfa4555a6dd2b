// Which form is read where a line that begins with `#` has another one.

use crate::around::Around;
use crate::forms::{PARTS, Telling, is_one_of, with_help};
use base::fault::ReadCode;

/// What a bound of a section is.
pub const BOUND: &str =
    "a bound is a constant expression, or terms with `+` and `-` between them: constants, names of loops around, and products `NUM * NAME` of both";

fn is_name_part(byte: u8) -> bool {
    byte.is_ascii_alphanumeric() || byte == b'_'
}

// The clauses that say what is shared and what is not.
const SHARING: [&str; 4] = ["default", "shared", "firstprivate", "private"];

// What stands behind the name that is defined, the blanks between too.
fn behind_name(rest: &[u8]) -> &[u8] {
    let mut in_name = false;
    'bytes: for (at, byte) in rest.iter().enumerate() {
        if is_name_part(*byte) {
            in_name = true;
        } else if in_name {
            return rest.get(at..).unwrap_or(&[]);
        }
    }
    &[]
}

// Of a line whose word is `define`.
fn definition(rest: &[u8]) -> &'static str {
    let behind = behind_name(rest);
    if behind.first() == Some(&b'(') {
        return "of a macro with parameters the text is one of C's tokens with its brackets closed, and each use has as many arguments: where one macro is not so, none is read";
    }
    if behind.trim_ascii().is_empty() {
        return "a constant has a value, `#define N 8`: take the line away, or write one";
    }
    "a constant is defined once, as a number, a constant or an expression of them in brackets: `#define N 8`, `#define M (N + 4)`"
}

/// Of a word that begins no directive.
pub fn unknown_directive(around: &Around<'_>) -> Option<&'static str> {
    let word = around.word;
    if word == "define" {
        return Some(definition(around.rest));
    }
    if word == "undef" {
        return Some(
            "a constant holds up to the end of the text: take another name for the next one",
        );
    }
    if around.before_on_line() == b'#' {
        return Some(
            "of the lines that begin with `#` those of `include`, `define` and `pragma omp` are read",
        );
    }
    if is_one_of(word, &PARTS) {
        return Some("a loop of the host is written without a directive: take the line away");
    }
    None
}

/// Of what is no clause. The word `target`, or that of the directive `taskwait`, stands for a clause that is missing on its
/// line.
pub fn no_clause(around: &Around<'_>) -> Telling {
    let waits = around.word == "taskwait" && around.is_behind(b"omp".as_slice());
    if around.word == "target" || waits {
        return Telling {
            said: "lacks a clause for a variable that stands in its region, or bounds in one",
            help: "`map(tofrom: s)` or `reduction` for a scalar that another line maps, of which C makes a copy here; `private(t)`, or a declaration in the loop, for a scalar that each turn assigns before all else, and for the name of an inner loop, which all turns share; no `nowait` where an array of a block is used; in `depend` a section behind a pointer, `p[0:N]`; in `reduction` the bounds that `map` has",
        };
    }
    with_help(ReadCode::UnknownClause, unknown_clause(around))
}

fn unknown_clause(around: &Around<'_>) -> Option<&'static str> {
    let word = around.word;
    if word == "," {
        return Some("a comma stands between two clauses alone: take it away");
    }
    if word == "{" {
        return Some("the block of a directive stands on the lines behind it");
    }
    if is_one_of(word, &PARTS) {
        return Some(
            "a construct is `target` with `parallel for`, `simd`, `parallel loop`, `teams loop` or `teams distribute` behind it",
        );
    }
    if word == "reduction" {
        return Some(
            "a reduction, by one of `+ * & | ^`, `min` and `max`, is of arrays, each of whose names in the loop begins an update by that operator, `s[0] += e;` or `if (e > s[0]) s[0] = e;`, and stands nowhere else; it stands on a construct with its loop, whose `map` clauses name all of these arrays or none",
        );
    }
    if around.is_behind(b"atomic".as_slice()) {
        return Some(
            "behind `atomic` or `atomic update` stands a statement that changes one cell: `A[e] op= x;`, `A[e]++;` or `A[e] = A[e] op x;`",
        );
    }
    if word == "private" {
        return Some(
            "`private` is left out where the loop declares its names, or assigns a scalar before all else that is declared before it without a value, `uint64_t t;`",
        );
    }
    if word == "if" {
        return Some(
            "a condition is one of constants, `if(N > 8)`, for the directive, a part of it (`parallel: `, `teams: `, `simd: `) or all; where it is 0 the host runs the statement behind the line, in order, so that nothing may stand there of `nowait`, `depend`, `private`, `reduction` and `loop`, no part may hold, and no scalar from outside be assigned that no `map` clause names",
        );
    }
    if is_one_of(word, &SHARING) {
        return Some(
            "arrays are shared, scalars captured and locals private without a clause: `default(shared)`, `shared` of names that are declared before the line and `firstprivate` of such scalars are read, on the constructs that take them",
        );
    }
    None
}

/// Of a token that cannot stand where it does on such a line.
pub fn unexpected_on_line(around: &Around<'_>) -> Option<&'static str> {
    let last = around.before_on_line();
    if last == b':' || last == b',' || around.is_behind(b"map(".as_slice()) {
        return Some("the name of an array stands here: constants and scalars are not mapped");
    }
    None
}

/// Of a token that does not fit into a section.
pub fn bad_bound(around: &Around<'_>) -> Option<&'static str> {
    let word = around.word;
    if word == ":" {
        return Some("a section has no stride: write `A[FIRST:LENGTH]`");
    }
    if word == "]" && around.before_on_line() == b':' {
        return Some(
            "write the length too, `A[FIRST:LENGTH]`: it is left out behind one number alone, that of a cell of the array",
        );
    }
    if word == "]" {
        return Some(
            "one cell is the section `A[FIRST:1]`: `A[FIRST]` is read in `depend`, `to` and `from`",
        );
    }
    if word == "-" || word == "+" {
        return Some("a term stands here: the first one of a bound has no sign, and none has two");
    }
    if word == "(" {
        return Some(
            "a bound has brackets round constants alone: write its terms without them, as `8 - i - 1` for `8 - (i + 1)`",
        );
    }
    if word == "*" {
        return Some("a term has one name, behind its number: write `8 * i` for `i * 8`");
    }
    Some(BOUND)
}
