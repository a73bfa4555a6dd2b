// What each code stands for, in one sentence.

use base::fault::{RangeCode, ReadCode, RefusalCode};

pub const ORDER_CODE: &str = "E505";

pub const ORDER_RULE: &str = "the sections of two depend items overlap without being identical";

pub const ITEMS_CODE: &str = "E401";

pub const ITEMS_RULE: &str = "a program has at most 65536 items";

pub fn range_rule(code: RangeCode) -> &'static str {
    match code {
        RangeCode::SubscriptOutside => "a subscript lies inside its array wherever it is evaluated",
        RangeCode::SectionOutside => "a section has a cell and lies inside its array",
        RangeCode::TooManyTurns => "the loops of a region have at most 1048576 turns",
    }
}

pub fn refusal_rule(code: RefusalCode) -> &'static str {
    match code {
        RefusalCode::OverlapsInPart => {
            "a section that overlaps what is on the device lies inside it"
        }
        RefusalCode::ExitOfAbsent => "a section that is left is on the device",
        RefusalCode::UpdateOfAbsent => "a section that is updated is on the device",
        RefusalCode::NotPresent => "a section that is said to be present is on the device",
        RefusalCode::Unmapped => "a kernel touches no cell but those that its target maps",
        RefusalCode::HostNotCurrent => "the host reads current values alone",
        RefusalCode::DeviceNotCurrent =>
            "a kernel reads values alone that are current on its device",
        RefusalCode::TurnsMeet =>
            "turns of a loop that may run in any order share no cell that one of them writes",
        RefusalCode::Conflict => {
            "of two items that touch a cell, of which one writes, one is before the other"
        }
    }
}

pub fn read_rule(code: ReadCode) -> &'static str {
    match code {
        ReadCode::UnknownByte =>
            "each byte belongs to a token, a comment or the blanks between, and a comment has its end",
        ReadCode::Unexpected => "what stands here is not what the grammar allows here",
        ReadCode::Undeclared =>
            "a name is declared before it is used; an array has a subscript, a scalar has none",
        ReadCode::AlreadyDeclared => "two names that are visible at the same time differ",
        ReadCode::BadNumber =>
            "a number is at most 18446744073709551615, and begins with no superfluous 0",
        ReadCode::BadLength => "an array has from 1 to 65536 cells",
        ReadCode::LoopNameAssigned => "the name of a loop is not assigned in it",
        ReadCode::BadOperand =>
            "divisors, shift counts, limits, steps and what `collapse` and its like say are constant expressions, each operator of which gives a number below 2^64: a shift count is at most 63, what `collapse` says at most 4, no divisor, no step and none of these is 0, and no loop wraps",
        ReadCode::TooDeep =>
            "at most 16 brackets of a kind are open at once, and a body without braces counts as one with them",
        ReadCode::TooMany =>
            "a source stays below the limits of its length, its names, its statements and the tokens of an expression",
        ReadCode::UnknownDirective =>
            "a line that begins with `#` is an `include`, the `define` of a constant or a directive, and this is `target`, alone or as in `target parallel for`, `target data`, `target enter data`, `target exit data`, `target update` or `taskwait`",
        ReadCode::UnknownClause => "a directive has clauses that it takes, and nothing else",
        ReadCode::ClauseCount =>
            "a directive has the clauses that it needs, and `nowait`, `device`, a modifier and each clause of a number at most once",
        ReadCode::BadMapType =>
            "a `map` clause has modifiers, each of `always` and `present` at most once, and a map type that its directive takes, or neither",
        ReadCode::BadBound =>
            "a section is NAME[FIRST:LENGTH], of constant expressions, or of constants, names of loops around, sums, and a constant times a name",
        ReadCode::ArrayTwice => "an array stands once at most among the map items of a directive",
        ReadCode::DirectiveInTarget => "no directive stands inside a `target`",
        ReadCode::OuterAssigned =>
            "a `target` captures a scalar; one that `main` declares and that a clause names, `map(tofrom: x)`, it assigns",
        ReadCode::HostOnly => "a `target` neither prints nor reads",
        ReadCode::NoBody =>
            "a `target` or a `target data` is followed by a block or a loop, one as `target parallel for` by as many loops, each alone in the one around it, as `collapse` says",
        ReadCode::DirectiveUnderIf => "no directive stands under an `if`",
        ReadCode::BadDevice => "a device is one of the numbers 0 to 3",
    }
}

/// What is wrong with what stands at the place.
pub fn read_words(code: ReadCode) -> &'static str {
    match code {
        ReadCode::UnknownByte => "begins no token",
        ReadCode::Unexpected => "cannot stand here",
        ReadCode::Undeclared => "is not declared here",
        ReadCode::AlreadyDeclared => "is the name of something else that is visible here",
        ReadCode::BadNumber => "is above 18446744073709551615",
        ReadCode::BadLength => "is no length of an array, which has from 1 to 65536 cells",
        ReadCode::LoopNameAssigned => "is the name of a loop, and is assigned in it",
        ReadCode::BadOperand => "is out of range here",
        ReadCode::TooDeep => "opens one bracket too many: 16 of a kind may be open at once",
        ReadCode::TooMany => "is one token too many: an expression has at most 256",
        ReadCode::UnknownDirective => "begins no directive that is read",
        ReadCode::UnknownClause => "is no clause that this directive takes",
        ReadCode::ClauseCount => "stands here a second time",
        ReadCode::BadMapType =>
            "stands where a map type or modifier is missing, or is none that this directive takes",
        ReadCode::BadBound => "does not fit into a section, which is NAME[FIRST:LENGTH]",
        ReadCode::ArrayTwice => "stands twice among the map items of this directive",
        ReadCode::DirectiveInTarget => "is a directive inside a `target`",
        ReadCode::OuterAssigned =>
            "is declared outside the `target`, which takes its value and cannot assign it",
        ReadCode::HostOnly => "cannot stand inside a `target`",
        ReadCode::NoBody =>
            "is not what has to follow the directive: a block or a loop, and a loop where its turns may run in any order",
        ReadCode::DirectiveUnderIf => "is a directive under an `if`",
        ReadCode::BadDevice => "is no device: these are 0, 1, 2 and 3",
    }
}

pub fn read_help(code: ReadCode) -> &'static str {
    match code {
        ReadCode::UnknownByte => "take it away",
        ReadCode::Unexpected => "write the token that is missing before it, or take it away",
        ReadCode::Undeclared => "declare it before, or take it away",
        ReadCode::AlreadyDeclared => "take another name",
        ReadCode::BadNumber => "write a smaller number",
        ReadCode::BadLength => "write a length from 1 to 65536",
        ReadCode::LoopNameAssigned => "assign to a local in its place",
        ReadCode::BadOperand => "write a number in range here",
        ReadCode::TooDeep => "hold a part in a local",
        ReadCode::TooMany => "hold a part in a local",
        ReadCode::UnknownDirective => "take the line away, or write one of these directives",
        ReadCode::UnknownClause => "take the clause away",
        ReadCode::ClauseCount => "take it away",
        ReadCode::BadMapType =>
            "write a type that the directive takes: `to`, `from`, `tofrom`, `alloc` on `target` and `target data`, `to`, `alloc` on `target enter data`, `from`, `release`, `delete` on `target exit data`",
        ReadCode::BadBound => "hold what is more in a loop's name, or name the whole array",
        ReadCode::ArrayTwice => "write one map item that has both sections",
        ReadCode::DirectiveInTarget =>
            "close the `target` before it; a `target` without `nowait` may have several constructs, `parallel for` or `simd`, each right before its loop, and between them loops and blocks: put a statement into a block, `{ .. }`",
        ReadCode::OuterAssigned =>
            "name the scalar in a `map` clause on the line, `map(tofrom: s)`, or write the value to a cell of an array that is mapped `from` or `tofrom`",
        ReadCode::HostOnly => "print after the `target`, once the cells are back on the host",
        ReadCode::NoBody => "put braces around what follows, or write the loop that is missing",
        ReadCode::DirectiveUnderIf => "put the condition into the regions",
        ReadCode::BadDevice => "write 0, 1, 2 or 3",
    }
}
