//! Lines that define constants.

ghost use Rattle.std.specs.Prelude.{◌≡◌, [], IfOk, true, drop};
ghost use Rattle.std.specs.Option.{option_map};
ghost use Rattle.c_grammar.specs.Expressions.{Nothing, as_items, expression};
ghost use Rattle.c_grammar.specs.Constants.{defined, definition, definition_in, new_only};
ghost use Rattle.directives.specs.Seen.{seen_placed};
ghost use Rattle.c_written.specs.Forms.{all_placed};
ghost use Rattle.c_written.specs.Work.{seen_worked};
ghost use Rattle.c_terminals.specs.Seen.{seen, seen_terminal};
ghost use Rattle.c_written.specs.Lines.{named, seen_definition};
ghost use Rattle.c_written.specs.Values.{seen_values};

use crate::expressions::{Worked, expression};
use crate::line_forms::as_tokens;
use crate::values::{Constant, Values};
use crate::work::Operator;
use c_terminals::{Terminal, Token, has_parameters, is_remark};
use directives::{Lexeme, PlacedLexeme, same_lexeme};
use std::alloc::{AllocError, Global};

/// What a line defines.
#[derive(Clone, Copy)]
pub enum Definition<'a> {
    Defines(Constant<'a>),
    /// An expression without a value, with the operator that has none.
    Misdefines(Operator),
}

/// The tokens behind so many.
fn behind<'s, 'a>(lexemes: &'s [PlacedLexeme<'a>], count: usize) -> &'s [PlacedLexeme<'a>]
    ensures { result.now ≡ drop count lexemes.now }
{
    &lexemes[count.min(lexemes.len())..]
}

/// What is defined by an expression at the front of these tokens.
fn definition_of<'a>(
    values: &Values<'a>,
    name: &'a [u8],
    lexemes: &[PlacedLexeme<'a>],
    worked: Option<Worked>,
) -> Option<Definition<'a>>
    ensures { option_map seen_definition result ≡ new_only (seen_values values.now)
        (defined name.now (as_items 0 (all_placed lexemes.now)) (option_map seen_worked worked)) }
{
    match worked {
        None => None,
        Some(Worked::Fault(_, operator)) => Some(Definition::Misdefines(operator)),
        Some(Worked::Number(count, value)) => {
            if !is_remark(behind(lexemes, count)) {
                return None;
            }
            match values.value(name) {
                None => Some(Definition::Defines(Constant { name, value })),
                Some(_) => None,
            }
        }
    }
}

/// What is defined by the tokens behind the name.
fn defined<'a>(
    alloc: Global,
    values: &Values<'a>,
    name: &'a [u8],
    line: usize,
    lexemes: &[PlacedLexeme<'a>],
) -> Result<Option<Definition<'a>>, AllocError>
    ensures { IfOk result (λ d. option_map seen_definition d ≡ new_only (seen_values values.now)
        (defined name.now (as_items line (all_placed lexemes.now))
        (expression (seen_values values.now) true Nothing [] 0 (as_items line (all_placed lexemes.now))))) }
{
    let tokens = as_tokens(alloc, line, lexemes)?;
    let worked = expression(alloc, values, true, &tokens)?;
    Ok(definition_of(values, name, lexemes, worked))
}

/// What is defined by the tokens behind the word `define`.
fn named<'a>(
    alloc: Global,
    values: &Values<'a>,
    line: usize,
    name: PlacedLexeme<'a>,
    rest: &[PlacedLexeme<'a>],
) -> Result<Option<Definition<'a>>, AllocError>
    ensures { IfOk result (λ d. option_map seen_definition d ≡ new_only (seen_values values.now)
        (named (seen_values values.now) line (seen_placed name.entry) (all_placed rest.now))) }
{
    match name.lexeme {
        Lexeme::Name(text) => {
            if has_parameters(rest, text, name.column) {
                return Ok(None);
            }
            defined(alloc, values, text, line, rest)
        }
        _ => Ok(None),
    }
}

/// What the tokens of a line define: the word `define`, a name, and a number, a constant or an expression in brackets.
fn definition_in<'a>(
    alloc: Global,
    values: &Values<'a>,
    line: usize,
    lexemes: &[PlacedLexeme<'a>],
) -> Result<Option<Definition<'a>>, AllocError>
    ensures { IfOk result (λ d. option_map seen_definition d ≡
        new_only (seen_values values.now) (definition_in (seen_values values.now) (as_items line (all_placed lexemes.now)))) }
{
    match lexemes {
        [word, name, rest @ ..] => {
            if !same_lexeme(Lexeme::Name(b"define".as_slice()), word.lexeme) {
                return Ok(None);
            }
            named(alloc, values, line, *name, rest)
        }
        _ => Ok(None),
    }
}

/// What a token defines, if it is a line that defines.
pub fn what_defines<'a>(
    alloc: Global,
    values: &Values<'a>,
    token: Token<'a, '_>,
) -> Result<Option<Definition<'a>>, AllocError>
    ensures { IfOk result (λ d. option_map seen_definition d ≡ definition (seen_values values.now) (seen token.entry) (seen_terminal token.entry.terminal)) }
{
    match token.terminal {
        Terminal::Line(line) => definition_in(alloc, values, token.line, line.tokens()),
        _ => Ok(None),
    }
}
