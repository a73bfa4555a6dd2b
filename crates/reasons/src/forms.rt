// Which form is read where a text has another one that people write.

use crate::around::{Around, begins_word, ends_operand};
use crate::lines::{BOUND, unexpected_on_line};
use crate::rules::{read_help, read_words};
use crate::source::{Naming, has_word, is_type};
use base::fault::ReadCode;

/// What is said of what stands at a place, and what can be written.
#[derive(Clone, Copy)]
pub struct Telling {
    pub said: &'static str,
    pub help: &'static str,
}

// A loop.
const LOOP: &str =
    "a loop counts upwards, `for (uint64_t i = NUM; i < NUM; i += NUM) { .. }`, also with `int i`, with `i <= NUM` and with `i++`, or down, `for (int i = NUM; i >= NUM; i--) { .. }`, also with `i > NUM`, each NUM a constant expression; `int i;` before it, in a block, lets it begin with `i = NUM`";

const MAIN: &str = "a program is its globals, and then `int main(void) { .. }`";

const TYPE: &str =
    "the one type is `uint64_t`, also written `size_t`, `unsigned long` or `unsigned long long`, without other words before it; `int` is read where each value that an `int` gets anywhere in the source is seen to be from 0 to 2^31 - 1: made of such numbers, of cells and names that are an `int` and of comparisons, without `-`, `~` and numbers of 64 bits";

const CONSTANT: &str =
    "a constant is `const uint64_t N = NUM;`, before `main` or in no block within it, or `#define N NUM`: it has a name of its own, and NUM is a constant expression, with `#define` in brackets";

const ENUMERATION: &str =
    "an enumeration is `enum { A = NUM, B = NUM };` before `main`: each of its names has a value, a constant expression";

const POINTER: &str =
    "there are no pointers: an array is a global, `uint64_t A[4];`, or `uint64_t *A;` that `main` assigns once, `A = malloc(4 * sizeof(uint64_t));`";

const ALLOCATION: &str =
    "an array is a global, `uint64_t A[4];`, or `main` allocates it, outside of its blocks, with a number of cells that is a product of constants: `uint64_t *A = malloc(4 * sizeof(uint64_t));`";

const COMMA: &str =
    "of statements the declarations alone have commas, between their names: `uint64_t a = 1, b = 2;`";

const LOCAL: &str =
    "a declaration in a block is of scalars, with values or without: `uint64_t a = 0, b;`";

const LENGTH: &str =
    "an array is `uint64_t A[NUM];`, `uint64_t A[NUM][NUM];` or `uint64_t A[NUM][NUM][NUM];`, each NUM a constant expression";

const ROW: &str =
    "a second or third subscript is surely within its dimension: a sum or a difference of numbers, names of loops and products of these";

const ROW_ALONE: &str =
    "an array of several dimensions has all subscripts, `A[i][j]`, each but the first one surely within its dimension: numbers, names of loops, sums and products of these";

const LOCAL_ARRAY: &str =
    "write numbers as its subscripts, or names of loops around that have numbers for bounds and at most 64 turns; or declare it before `main`";

const FUNCTION: &str =
    "a function stands before `main`, `void f(uint64_t *a, uint64_t n) { .. }` or `uint64_t f(uint64_t n) { .. return e; }` with its one `return` as its last statement, and is called as a statement, `f(A, 8);`, or once in a value that is assigned, `x += f(8) % 4;`, with the name of an array for an array, any value for a `uint64_t`, and a constant or a value that is seen to be small for an `int`";

const CALL: &str =
    "a function is called behind its definition, as a statement, `f(A, 8);`, or, where it gives a value, once in a value that is assigned, `x += f(8) % 4;`, with the name of an array for an array, any value for a `uint64_t`, and a constant or a value that is seen to be small for an `int`";

const SETTING: &str =
    "cells are set one by one: `for (uint64_t i = 0; i < 4; i += 1) { A[i] = 0; }`";

const DECLARED_DATA: &str =
    "`declare target` is read around functions alone: take it away, and enter the global where `main` begins, `#pragma omp target enter data map(to: A)`";

const BLOCK_ARRAY: &str =
    "an array of a block has one dimension and a constant number of cells, at most 256, and no directive names it: declare it before `main`, or in `main` outside of its blocks, and pass it to the function that uses it";

const READ: &str = "`read()` is all of a right side: `x = read();`";

const ASSIGNMENT: &str =
    "an assignment, `x = e;`, `x += e;` or `x++;`, is a statement by itself, and has no value";

// Words of C that stand where a type is.
const TYPES: [&str; 16] = [
    "auto", "bool", "char", "double", "float", "int", "int32_t", "int64_t", "long", "short",
    "static", "struct", "typedef", "uint32_t", "unsigned", "volatile",
];

// Words of C that begin a jump or a loop.
const JUMPS: [&str; 5] = ["do", "break", "goto", "switch", "case"];

const WHILE: &str =
    "`while (c) { .. }` is read where a name in `c` is bounded, `k < NUM` alone or with `&&`, and one statement of the block makes it larger, `k++;` or `k += NUM;`, which nothing else in it changes; or write `for (uint64_t i = 0; i < NUM; i += 1) { if (c) { .. } }`";

const CONTINUE: &str =
    "`continue;` is read at the end of an `if` without `else` that stands in the block of a `for` itself: elsewhere write what follows in an `else`";

/// The parts of a combined construct.
pub const PARTS: [&str; 6] = ["teams", "distribute", "parallel", "for", "simd", "loop"];

/// Whether it is one of these words.
pub fn is_one_of(word: &str, words: &[&str]) -> bool {
    words.iter().any(|it| *it == word)
}

// An operator of an assignment.
fn is_compound(word: &str) -> bool {
    is_one_of(
        word,
        &["+=", "-=", "*=", "/=", "%=", "&=", "|=", "^=", "<<=", ">>="],
    )
}

// An operand has to stand where this stands before.
fn wants_operand(before: &str) -> bool {
    is_compound(before)
        || is_one_of(
            before,
            &[
                "=", "(", "[", ",", "+", "-", "*", "/", "%", "&", "|", "^", "<", ">", "<=", ">=",
                "==", "!=", "<<", ">>", "&&", "||", "!", "~",
            ],
        )
}

// A declaration of such a word, which is none that is read.
fn foreign_type(word: &str) -> Option<&'static str> {
    match word {
        "const" => Some(CONSTANT),
        "enum" => Some(ENUMERATION),
        _ if is_one_of(word, &TYPES) => Some(TYPE),
        _ => None,
    }
}

// A sign before `main`, or behind it.
fn sign_outside(around: &Around<'_>) -> Option<&'static str> {
    match around.word {
        "=" => Some(
            "a global begins as 0, or as numbers or constants, `uint64_t n = 8;` or `uint64_t A[4] = {1, 2};`, no more than it has cells; anything else is assigned in `main`",
        ),
        "*" if is_type(around.before) => Some(POINTER),
        "," if around.next == b'*' => Some(POINTER),
        "," => Some(COMMA),
        "(" => Some(FUNCTION),
        _ => None,
    }
}

// Before `main`, or behind it.
fn outside(around: &Around<'_>) -> Option<&'static str> {
    let Around {
        word,
        before,
        earlier,
        ..
    } = *around;
    if before == "(" && earlier == "main" {
        return Some("`main` is `int main(void) { .. }` or `int main() { .. }`");
    }
    if before == "[" || word == "[" || earlier == "[" {
        return Some(LENGTH);
    }
    if let Some(form) = sign_outside(around) {
        return Some(form);
    }
    if word == "void" || (before == "int" && around.next == b'(') {
        return Some(FUNCTION);
    }
    if before == "int" {
        return Some(TYPE);
    }
    if word.is_empty() {
        return Some(MAIN);
    }
    foreign_type(word)
}

// Behind a name that is declared.
fn declared(word: &str) -> Option<&'static str> {
    match word {
        ";" | "," => Some(LOCAL),
        "[" => Some(BLOCK_ARRAY),
        _ => None,
    }
}

// A word in an expression, or at its end.
fn word_in_expression(around: &Around<'_>) -> Option<&'static str> {
    if wants_operand(around.before) && around.word == "read" {
        return Some(READ);
    }
    if ends_operand(around.before) {
        return Some("an operator or a `;` is missing before it");
    }
    None
}

// In an expression, or at its end.
fn in_expression(around: &Around<'_>) -> Option<&'static str> {
    let Around {
        word,
        before,
        earlier,
        ..
    } = *around;
    match word {
        "-" if wants_operand(before) => Some("there is no minus with one operand: write `0 - e`"),
        "*" | "&" if !ends_operand(before) => Some(POINTER),
        _ if before == ")" && earlier == "(" => Some(READ),
        "=" | "++" | "--" => Some(ASSIGNMENT),
        _ if is_compound(word) => Some(ASSIGNMENT),
        "," => Some(COMMA),
        "[" if before == "]" => Some(ROW),
        "}" if ends_operand(before) => Some("an operator or a `;` is missing before it"),
        _ if begins_word(word) => word_in_expression(around),
        _ => None,
    }
}

// In `main`.
fn inside(around: &Around<'_>) -> Option<&'static str> {
    let Around {
        word,
        before,
        earlier,
        ..
    } = *around;
    if word == "*" && is_type(before) {
        return Some(ALLOCATION);
    }
    if let Some(form) = foreign_type(word) {
        return Some(form);
    }
    if before == "print" {
        return Some("a number is printed by `print(e);`");
    }
    if (is_type(earlier) || earlier == ",")
        && let Some(form) = declared(word)
    {
        return Some(form);
    }
    in_expression(around)
}

/// Of a token that cannot stand where it does.
pub fn unexpected(around: &Around<'_>) -> Option<&'static str> {
    if !around.line.is_empty() {
        return unexpected_on_line(around);
    }
    if around.in_head {
        return Some(LOOP);
    }
    if around.wants_body {
        return Some(
            "a body is a statement: one that is a declaration, a directive or nothing has braces, `{ .. }`",
        );
    }
    if around.word == "else" {
        return Some("an `else` stands right behind the body of an `if`");
    }
    if around.word == "#" && has_word(around.rest, b"declare") {
        return Some(DECLARED_DATA);
    }
    if around.is_outside {
        return outside(around);
    }
    inside(around)
}

// Of a name that is declared, and used as what it is not.
fn misused(naming: Naming, around: &Around<'_>) -> Option<Telling> {
    let is_on_line = !around.line.is_empty();
    match naming {
        Naming::Array if is_on_line => Some(Telling {
            said: "is an array, and stands in a bound",
            help: BOUND,
        }),
        Naming::Array if around.next == b'[' => Some(Telling {
            said: "has more subscripts in its declaration, or one here that may leave its dimension",
            help: ROW_ALONE,
        }),
        Naming::LocalArray if is_on_line => Some(Telling {
            said: "is an array of a block, which no directive names",
            help: "declare it before `main`, or in `main` outside of its blocks, and pass it to the function that uses it; one that a `target` alone uses is declared in its block",
        }),
        Naming::LocalArray if around.next == b'[' => Some(Telling {
            said: "is an array of a block: it ends with that, and its subscripts are numbers below its length",
            help: LOCAL_ARRAY,
        }),
        Naming::Array | Naming::LocalArray => Some(Telling {
            said: "is an array, and has no subscript here",
            help: "write the cell, `A[e]`: an array by itself has no value",
        }),
        Naming::Scalar if is_on_line && !around.is_in_bound() => Some(Telling {
            said: "is a scalar, where the name of an array has to stand",
            help: "declare it in `main`, as a `uint64_t`, or hold it in an array of one cell, `uint64_t s[1];`",
        }),
        Naming::Scalar if is_on_line => Some(Telling {
            said: "is no constant and no name of a loop around, and stands in a bound",
            help: BOUND,
        }),
        Naming::Scalar if around.next == b'[' => Some(Telling {
            said: "is a scalar, and has a subscript here",
            help: "declare it as an array, `uint64_t A[NUM];`",
        }),
        Naming::LoopName if !is_on_line => Some(Telling {
            said: "is the name of loops, and ends with each of them",
            help: "hold it in another scalar where a loop has it, or take another name for the loop",
        }),
        _ => None,
    }
}

// A loop or a jump of C that is not read there.
fn jump(word: &str) -> Option<&'static str> {
    match word {
        "while" => Some(WHILE),
        "continue" => Some(CONTINUE),
        _ if is_one_of(word, &JUMPS) => Some(LOOP),
        _ => None,
    }
}

// A word of C that is not read.
fn foreign(around: &Around<'_>) -> Option<&'static str> {
    let word = around.word;
    if word == "return" {
        return Some(
            "take it away: `main` ends at its last brace, before which `return e;` of names, numbers and comparisons may stand",
        );
    }
    if let Some(form) = jump(word) {
        return Some(form);
    }
    if let Some(form) = foreign_type(word) {
        return Some(form);
    }
    if word == "printf" {
        return Some(
            "a number and a line feed are printed by `print(e);` or `printf(\"%lu\\n\", e);`",
        );
    }
    if is_one_of(word, &["memset", "memcpy"]) {
        return Some(SETTING);
    }
    if around.next == b'(' && around.line.is_empty() {
        return Some(CALL);
    }
    None
}

/// Of a name that is not declared, or is not used as what it is.
pub fn undeclared(naming: Naming, around: &Around<'_>) -> Telling {
    match misused(naming, around) {
        Some(told) => told,
        None => with_help(ReadCode::Undeclared, foreign(around)),
    }
}

// A byte that begins no token.
fn foreign_byte(around: &Around<'_>) -> Option<&'static str> {
    let word = around.word;
    if word == "\\" {
        return Some(
            "a line that begins with `#` goes on where nothing but a line feed stands behind the backslash",
        );
    }
    if word == "?" {
        return Some(
            "`? :` stands in the value or on the left of an assignment, in an initializer in a block, and in what is printed: elsewhere write `if (c) { x = a; } else { x = b; }`",
        );
    }
    if word == "\"" || word == "'" {
        return Some("there are no texts: `print(e);` writes a number");
    }
    if word == "." {
        return Some("there are whole numbers alone, and no members");
    }
    if word == "this byte" && around.before.is_empty() {
        return Some("take the bytes before the text away, as a byte-order mark");
    }
    if word == "#" {
        return Some("nothing but blanks stands before the `#` of a line, no comment either");
    }
    if around.last.is_ascii_digit() {
        return Some(
            "a number is decimal or hexadecimal, 255 or 0xff, with a suffix of C or none: 8ul",
        );
    }
    None
}

/// Of a byte that begins no token, or a comment without end.
pub fn unknown_byte(around: &Around<'_>) -> Telling {
    if around.word == "/" {
        return Telling {
            said: "begins a comment that has no end",
            help: "end the comment by `*/`",
        };
    }
    with_help(ReadCode::UnknownByte, foreign_byte(around))
}

/// Of a bracket that opens one too many, or a body without braces that is one block too many.
pub fn too_deep(around: &Around<'_>) -> Telling {
    if is_one_of(around.word, &["(", "["]) {
        return with_help(ReadCode::TooDeep, None);
    }
    Telling {
        said: "begins one block too many: 16 may be open at once, a body without braces is one",
        help: "write the conditions or loops one behind the other",
    }
}

/// Of a clause that is missing, or stands a second time.
pub fn clause_count(around: &Around<'_>) -> Telling {
    if around.word.is_empty() {
        return Telling {
            said: "stands where a clause is missing",
            help: "write the `map` clause that the directive needs, of an update `to` or `from`",
        };
    }
    with_help(ReadCode::ClauseCount, None)
}

/// What is said of a code wherever it is answered, with a help of its own where there is one.
pub fn with_help(code: ReadCode, help: Option<&'static str>) -> Telling {
    Telling {
        said: read_words(code),
        help: help.unwrap_or(read_help(code)),
    }
}
