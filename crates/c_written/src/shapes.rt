//! Where a constant expression may stand: behind which tokens.

ghost use Rattle.std.specs.Prelude.{◌≡◌, ◌+◌, ◌<◌, ◌^◌, ◌∷◌, List, length, map, drop, true};
ghost use Rattle.c_grammar.specs.Terminal.{Terminal as SpecTerminal};
ghost use Rattle.c_grammar.specs.Constants.{ends_with, constant_value, array_length, row_length, inner_length, loop_first, loop_limit, loop_step, in_enumeration, enumerated_value, behind_divider, behind_changing, behind_cell_size, behind_open_size, behind_type_size, cell_count, first_factor, in_factors, wants_expression, wants_factor, wanted};
ghost use Rattle.c_written.specs.Past.{past_of, seen_shape};
ghost use Rattle.c_terminals.specs.Seen.{seen_terminal};

use crate::stack::Stack;
use c_terminals::Terminal;
use c_tokens::Sign;
use directives::Word;

/// What a token is, as far as it is asked.
#[derive(Clone, Copy)]
enum Shape {
    Sign(Sign),
    Word(Word),
    /// The word `const`.
    Const,
    /// The word `enum`.
    Enum,
    /// The word `malloc`.
    Malloc,
    /// The word `calloc`.
    Calloc,
    /// The word `sizeof`.
    Sizeof,
    Name,
    Number,
}

impl Shape {
    ghost use Rattle.std.specs.Prelude.{◌≡◌};
    ghost use Rattle.c_grammar.specs.Constants.{has_shape};
    ghost use Rattle.c_terminals.specs.Seen.{seen_terminal};
    ghost use Rattle.c_written.specs.Past.{seen_shape};

    fn fits(self, terminal: Terminal<'_, '_>) -> bool
        ensures { result ≡ has_shape (seen_shape self) (seen_terminal terminal.entry) }
    {
        match self {
            Shape::Sign(sign) => terminal.is_sign(sign),
            Shape::Word(word) => terminal.is_word(word),
            Shape::Const => terminal.is_named(b"const".as_slice()),
            Shape::Enum => terminal.is_named(b"enum".as_slice()),
            Shape::Malloc => terminal.is_named(b"malloc".as_slice()),
            Shape::Calloc => terminal.is_named(b"calloc".as_slice()),
            Shape::Sizeof => terminal.is_named(b"sizeof".as_slice()),
            Shape::Name => terminal.is_name(),
            Shape::Number => terminal.is_number(),
        }
    }
}

/// Whether the last tokens before so many are of these shapes, the last one first.
fn ends_with(past: &Stack<Terminal<'_, '_>>, behind: usize, shapes: &[Shape]) -> bool
    ensures value { result ≡ ends_with (map seen_shape shapes.now) (drop behind (past_of past.now)) }
    ensures place { result ≡ true → behind + length shapes.now < 2 ^ 64 }
{
    let mut k = behind;
    let mut left = shapes;
    'shapes: while let [shape, rest @ ..] = left {
        match past.peek(k) {
            Some(terminal) => {
                if !shape.fits(terminal) {
                    return false;
                }
            }
            None => return false,
        }
        k += 1;
        left = rest;
    }
    true
}

/// Whether `const uint64_t NAME =` stands before so many tokens.
pub fn at_constant_value(past: &Stack<Terminal<'_, '_>>, behind: usize) -> bool
    ensures { result ≡ ends_with constant_value (drop behind (past_of past.now)) }
{
    let shapes = [
        Shape::Sign(Sign::Equal),
        Shape::Name,
        Shape::Word(Word::Uint64),
        Shape::Const,
    ];
    ends_with(past, behind, &shapes)
}

/// Whether `uint64_t NAME [` stands before so many tokens.
pub fn at_array_length(past: &Stack<Terminal<'_, '_>>, behind: usize) -> bool
    ensures { result ≡ ends_with array_length (drop behind (past_of past.now)) }
{
    let shapes = [
        Shape::Sign(Sign::OpenBracket),
        Shape::Name,
        Shape::Word(Word::Uint64),
    ];
    ends_with(past, behind, &shapes)
}

/// Whether `uint64_t NAME [ NUM ] [` stands before.
fn at_row_length(past: &Stack<Terminal<'_, '_>>) -> bool
    ensures { result ≡ ends_with row_length (past_of past.now) }
{
    let open = Shape::Sign(Sign::OpenBracket);
    let shapes = [
        open,
        Shape::Sign(Sign::CloseBracket),
        Shape::Number,
        open,
        Shape::Name,
        Shape::Word(Word::Uint64),
    ];
    ends_with(past, 0, &shapes)
}

/// Whether `uint64_t NAME [ NUM ] [ NUM ] [` stands before.
fn at_inner_length(past: &Stack<Terminal<'_, '_>>) -> bool
    ensures { result ≡ ends_with inner_length (past_of past.now) }
{
    let open = Shape::Sign(Sign::OpenBracket);
    let close = Shape::Sign(Sign::CloseBracket);
    let shapes = [
        open,
        close,
        Shape::Number,
        open,
        close,
        Shape::Number,
        open,
        Shape::Name,
        Shape::Word(Word::Uint64),
    ];
    ends_with(past, 0, &shapes)
}

/// Whether `for ( uint64_t NAME =` stands before.
fn at_loop_first(past: &Stack<Terminal<'_, '_>>) -> bool
    ensures { result ≡ ends_with loop_first (past_of past.now) }
{
    let shapes = [
        Shape::Sign(Sign::Equal),
        Shape::Name,
        Shape::Word(Word::Uint64),
        Shape::Sign(Sign::OpenParen),
        Shape::Word(Word::For),
    ];
    ends_with(past, 0, &shapes)
}

/// Whether that, `NUM ; NAME` and the sign stand before.
fn at_loop_limit(past: &Stack<Terminal<'_, '_>>, sign: Sign) -> bool
    ensures { result ≡ ends_with (loop_limit sign) (past_of past.now) }
{
    let shapes = [
        Shape::Sign(sign),
        Shape::Name,
        Shape::Sign(Sign::Semicolon),
        Shape::Number,
        Shape::Sign(Sign::Equal),
        Shape::Name,
        Shape::Word(Word::Uint64),
        Shape::Sign(Sign::OpenParen),
        Shape::Word(Word::For),
    ];
    ends_with(past, 0, &shapes)
}

/// Whether that, `NUM ; NAME +=` stands before.
fn at_loop_step(past: &Stack<Terminal<'_, '_>>, sign: Sign) -> bool
    ensures { result ≡ ends_with (loop_step sign) (past_of past.now) }
{
    let shapes = [
        Shape::Sign(Sign::PlusEqual),
        Shape::Name,
        Shape::Sign(Sign::Semicolon),
        Shape::Number,
        Shape::Sign(sign),
        Shape::Name,
        Shape::Sign(Sign::Semicolon),
        Shape::Number,
        Shape::Sign(Sign::Equal),
        Shape::Name,
        Shape::Word(Word::Uint64),
        Shape::Sign(Sign::OpenParen),
        Shape::Word(Word::For),
    ];
    ends_with(past, 0, &shapes)
}

/// Whether an enumeration stands before so many tokens, up to the bracket or comma before a name.
fn in_enumeration(past: &Stack<Terminal<'_, '_>>, behind: usize) -> bool
    ensures { result ≡ in_enumeration (drop behind (past_of past.now)) }
{
    let start = [Shape::Sign(Sign::OpenBrace), Shape::Enum];
    let constant = [
        Shape::Sign(Sign::Comma),
        Shape::Number,
        Shape::Sign(Sign::Equal),
        Shape::Name,
    ];
    let mut k = behind;
    'constants: while !ends_with(past, k, &start) {
        if !ends_with(past, k, &constant) {
            return false;
        }
        k += 4;
    }
    true
}

/// Whether `NAME =` of an enumeration stands before so many tokens.
pub fn at_enumerated_value(past: &Stack<Terminal<'_, '_>>, behind: usize) -> bool
    ensures { result ≡ enumerated_value (drop behind (past_of past.now)) }
{
    let shapes = [Shape::Sign(Sign::Equal), Shape::Name];
    ends_with(past, behind, &shapes) && in_enumeration(past, behind + 2)
}

/// Whether it is an operator with a number on its right.
pub fn is_divider(terminal: Terminal<'_, '_>) -> bool
    ensures { (ts : List SpecTerminal) → result ≡ behind_divider (seen_terminal terminal.entry ∷ ts) }
{
    match terminal {
        Terminal::Sign(Sign::Slash | Sign::Percent | Sign::ShiftLeft | Sign::ShiftRight) => true,
        _ => false,
    }
}

/// Whether it is such an operator with `=` behind it.
pub fn is_changing(terminal: Terminal<'_, '_>) -> bool
    ensures { (ts : List SpecTerminal) → result ≡ behind_changing (seen_terminal terminal.entry ∷ ts) }
{
    match terminal {
        Terminal::Sign(
            Sign::SlashEqual | Sign::PercentEqual | Sign::ShiftLeftEqual | Sign::ShiftRightEqual,
        ) => true,
        _ => false,
    }
}

/// Whether an operator with a number on its right stands before.
fn behind_divider(past: &Stack<Terminal<'_, '_>>) -> bool
    ensures { result ≡ behind_divider (past_of past.now) }
{
    match past.peek(0) {
        Some(terminal) => is_divider(terminal),
        None => false,
    }
}

/// Whether such an operator with `=` behind it stands before.
fn behind_changing(past: &Stack<Terminal<'_, '_>>) -> bool
    ensures { result ≡ behind_changing (past_of past.now) }
{
    match past.peek(0) {
        Some(terminal) => is_changing(terminal),
        None => false,
    }
}

/// Whether `calloc (` stands before.
fn at_cell_count(past: &Stack<Terminal<'_, '_>>) -> bool
    ensures { result ≡ ends_with cell_count (past_of past.now) }
{
    let shapes = [Shape::Sign(Sign::OpenParen), Shape::Calloc];
    ends_with(past, 0, &shapes)
}

/// Whether `malloc (` stands before, or `NUM *` behind that.
fn at_first_factor(past: &Stack<Terminal<'_, '_>>) -> bool
    ensures { result ≡ in_factors first_factor (past_of past.now) }
{
    let first = [Shape::Sign(Sign::OpenParen), Shape::Malloc];
    let next = [
        Shape::Sign(Sign::Star),
        Shape::Number,
        Shape::Sign(Sign::OpenParen),
        Shape::Malloc,
    ];
    ends_with(past, 0, &first) || ends_with(past, 0, &next)
}

/// Whether `malloc ( sizeof ( uint64_t ) *` stands before, or `NUM *` behind that.
fn behind_type_size(past: &Stack<Terminal<'_, '_>>) -> bool
    ensures { result ≡ in_factors behind_type_size (past_of past.now) }
{
    let first = [
        Shape::Sign(Sign::Star),
        Shape::Sign(Sign::CloseParen),
        Shape::Word(Word::Uint64),
        Shape::Sign(Sign::OpenParen),
        Shape::Sizeof,
        Shape::Sign(Sign::OpenParen),
        Shape::Malloc,
    ];
    let next = [
        Shape::Sign(Sign::Star),
        Shape::Number,
        Shape::Sign(Sign::Star),
        Shape::Sign(Sign::CloseParen),
        Shape::Word(Word::Uint64),
        Shape::Sign(Sign::OpenParen),
        Shape::Sizeof,
        Shape::Sign(Sign::OpenParen),
        Shape::Malloc,
    ];
    ends_with(past, 0, &first) || ends_with(past, 0, &next)
}

/// Whether `malloc ( sizeof ( * NAME ) *` stands before, or `NUM *` behind that.
fn behind_cell_size(past: &Stack<Terminal<'_, '_>>) -> bool
    ensures { result ≡ in_factors behind_cell_size (past_of past.now) }
{
    let first = [
        Shape::Sign(Sign::Star),
        Shape::Sign(Sign::CloseParen),
        Shape::Name,
        Shape::Sign(Sign::Star),
        Shape::Sign(Sign::OpenParen),
        Shape::Sizeof,
        Shape::Sign(Sign::OpenParen),
        Shape::Malloc,
    ];
    let next = [
        Shape::Sign(Sign::Star),
        Shape::Number,
        Shape::Sign(Sign::Star),
        Shape::Sign(Sign::CloseParen),
        Shape::Name,
        Shape::Sign(Sign::Star),
        Shape::Sign(Sign::OpenParen),
        Shape::Sizeof,
        Shape::Sign(Sign::OpenParen),
        Shape::Malloc,
    ];
    ends_with(past, 0, &first) || ends_with(past, 0, &next)
}

/// Whether `malloc ( sizeof * NAME *` stands before, or `NUM *` behind that.
fn behind_open_size(past: &Stack<Terminal<'_, '_>>) -> bool
    ensures { result ≡ in_factors behind_open_size (past_of past.now) }
{
    let first = [
        Shape::Sign(Sign::Star),
        Shape::Name,
        Shape::Sign(Sign::Star),
        Shape::Sizeof,
        Shape::Sign(Sign::OpenParen),
        Shape::Malloc,
    ];
    let next = [
        Shape::Sign(Sign::Star),
        Shape::Number,
        Shape::Sign(Sign::Star),
        Shape::Name,
        Shape::Sign(Sign::Star),
        Shape::Sizeof,
        Shape::Sign(Sign::OpenParen),
        Shape::Malloc,
    ];
    ends_with(past, 0, &first) || ends_with(past, 0, &next)
}

/// Whether one of the first factors of what `malloc` is asked for may stand behind these tokens.
fn wants_factor(past: &Stack<Terminal<'_, '_>>) -> bool
    ensures { result ≡ wants_factor (past_of past.now) }
{
    at_first_factor(past)
        || behind_type_size(past)
        || behind_cell_size(past)
        || behind_open_size(past)
}

/// Whether a constant expression may stand behind these tokens.
fn wants_expression(past: &Stack<Terminal<'_, '_>>) -> bool
    ensures { result ≡ wants_expression (past_of past.now) }
{
    at_constant_value(past, 0)
        || at_array_length(past, 0)
        || at_row_length(past)
        || at_inner_length(past)
        || at_loop_first(past)
        || at_loop_limit(past, Sign::Less)
        || at_loop_limit(past, Sign::LessEqual)
        || at_loop_step(past, Sign::Less)
        || at_loop_step(past, Sign::LessEqual)
        || at_enumerated_value(past, 0)
        || behind_changing(past)
        || at_cell_count(past)
}

/// Whether a constant expression may stand behind these tokens, and whether it is a single number or bracket.
pub fn wanted(past: &Stack<Terminal<'_, '_>>) -> Option<bool>
    ensures { result ≡ wanted (past_of past.now) }
{
    if wants_expression(past) {
        return Some(false);
    }
    if behind_divider(past) || wants_factor(past) {
        Some(true)
    } else {
        None
    }
}
