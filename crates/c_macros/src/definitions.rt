//! Lines that define macros.

ghost use Rattle.std.specs.Prelude.{◌≡◌, ◌∷◌, ◌++◌, [], drop, map, IfOk, OnOk};
ghost use Rattle.std.specs.Option.{option_map};
ghost use Rattle.c_grammar.specs.Expressions.{as_items, as_terminal};
ghost use Rattle.c_grammar.specs.Macros.{body_read, defined_in, is_comment, named, opens, parameters, parameters_from};
ghost use Rattle.directives.specs.Seen.{seen_lexeme, seen_placed};
ghost use Rattle.c_macros.specs.Definitions.{seen_defined, seen_head, sure_item};
ghost use Rattle.c_macros.specs.Macros.{all_macros, names_of, read_so_far, seen_reading};
ghost use Rattle.c_terminals.specs.Lines.{item_of};
ghost use Rattle.c_terminals.specs.Seen.{seen};

use crate::macros::Macro;
use crate::reading::Reading;
use c_terminals::{Terminal, Token, has_parameters, is_among, is_pair, is_placed_sign, is_remark};
use c_tokens::Sign;
use directives::{Lexeme, PlacedLexeme, same_lexeme};
use std::alloc::{AllocError, Global};

/// What a line defines: nothing; a name without parameters; one with parameters, before what stands behind the bracket.
#[derive(Clone, Copy)]
pub enum Defined<'s, 'a> {
    Other,
    Plain(&'a [u8]),
    With(&'a [u8], &'s [PlacedLexeme<'a>]),
}

/// The parameters of a macro, and what stands behind them.
#[derive(Drop)]
pub struct Head<'s, 'a> {
    pub parameters: Vec<&'a [u8]>,
    pub body: &'s [PlacedLexeme<'a>],
}

fn behind_one<'s, 'a>(lexemes: &'s [PlacedLexeme<'a>]) -> &'s [PlacedLexeme<'a>]
    ensures { result.now ≡ drop 1 lexemes.now }
{
    match lexemes {
        [_, rest @ ..] => rest,
        [] => lexemes,
    }
}

// What is defined behind the word `define`.
fn named<'s, 'a>(name: PlacedLexeme<'a>, rest: &'s [PlacedLexeme<'a>]) -> Defined<'s, 'a>
    ensures { seen_defined result ≡
        named (as_terminal (seen_lexeme name.entry.lexeme)) name.entry.column (as_items 0 (map seen_placed rest.now)) }
{
    match name.lexeme {
        Lexeme::Name(text) => {
            if has_parameters(rest, text, name.column) {
                return Defined::With(text, behind_one(rest));
            }
            Defined::Plain(text)
        }
        _ => Defined::Other,
    }
}

/// What a line of these tokens defines.
pub fn defined_in<'s, 'a>(lexemes: &'s [PlacedLexeme<'a>]) -> Defined<'s, 'a>
    ensures { seen_defined result ≡ defined_in (as_items 0 (map seen_placed lexemes.now)) }
{
    match lexemes {
        [word, name, rest @ ..] => {
            if same_lexeme(Lexeme::Name(b"define".as_slice()), word.lexeme) {
                return named(*name, rest);
            }
            Defined::Other
        }
        _ => Defined::Other,
    }
}

#[tactic(auto, using(crate::proofs::Steps::names_more))]
fn add_name<'a>(names: &mut Vec<&'a [u8]>, name: &'a [u8]) -> Result<(), AllocError>
    ensures { OnOk result (names_of names.new.items ≡ names_of names.old.items ++ name.now ∷ []) }
{
    names.push(name)?;
    Ok(())
}

// Names with commas between them, and a bracket.
fn parameters_from<'s, 'a>(
    alloc: Global,
    lexemes: &'s [PlacedLexeme<'a>],
) -> Result<Option<Head<'s, 'a>>, AllocError>
    ensures { IfOk result (λ o. option_map seen_head o ≡ parameters_from [] (as_items 0 (map seen_placed lexemes.now))) }
{
    let mut parameters = Vec::new(alloc);
    let mut rest = lexemes;
    'names: while let [name, sign, behind @ ..] = rest {
        let Lexeme::Name(text) = name.lexeme else {
            return Ok(None);
        };
        if is_among(&parameters, text) {
            return Ok(None);
        }
        add_name(&mut parameters, text)?;
        if is_placed_sign(*sign, Sign::CloseParen) {
            return Ok(Some(Head {
                parameters,
                body: behind,
            }));
        }
        if !is_placed_sign(*sign, Sign::Comma) {
            return Ok(None);
        }
        rest = behind;
    }
    Ok(None)
}

/// The parameters behind the bracket.
pub fn parameters<'s, 'a>(
    alloc: Global,
    lexemes: &'s [PlacedLexeme<'a>],
) -> Result<Option<Head<'s, 'a>>, AllocError>
    ensures { IfOk result (λ o. option_map seen_head o ≡ parameters (as_items 0 (map seen_placed lexemes.now))) }
{
    let [first, behind @ ..] = lexemes else {
        return Ok(None);
    };
    if is_placed_sign(*first, Sign::CloseParen) {
        return Ok(Some(Head {
            parameters: Vec::new(alloc),
            body: behind,
        }));
    }
    parameters_from(alloc, lexemes)
}

// Whether a comment begins.
fn is_comment(lexemes: &[PlacedLexeme<'_>]) -> bool
    ensures { result ≡ is_comment (as_items 0 (map seen_placed lexemes.now)) }
{
    match lexemes {
        [first, second, ..] => is_pair(*first, *second, Sign::Slash, Sign::Star),
        _ => false,
    }
}

fn opens(lexemes: &[PlacedLexeme<'_>]) -> bool
    ensures { result ≡ opens (as_items 0 (map seen_placed lexemes.now)) }
{
    match lexemes {
        [first, ..] => is_placed_sign(*first, Sign::OpenParen),
        [] => false,
    }
}

// The token as one of a text, if it is one of C.
fn sure_token<'a, 'l>(placed: PlacedLexeme<'a>) -> Option<Token<'a, 'l>>
    ensures { option_map seen result ≡ sure_item (item_of 0 (seen_placed placed.entry)) }
{
    let terminal = match placed.lexeme {
        Lexeme::Reserved(word) => Terminal::Word(word),
        Lexeme::Sign(sign) => Terminal::Sign(sign),
        Lexeme::Name(text) => Terminal::Name(text),
        Lexeme::Number(n) => Terminal::Number(n),
        _ => return None,
    };
    Some(Token {
        terminal,
        line: 0,
        column: placed.column,
    })
}

/// The tokens of a body, up to the end of the line or a comment that reaches it. False where they are not surely those of C.
pub fn read_body<'a, 'l>(
    macros: &[Macro<'a, 'l>],
    lexemes: &[PlacedLexeme<'a>],
    reading: &mut Reading<'a, 'l>,
) -> Result<bool, AllocError>
    ensures { IfOk result (λ b. read_so_far b reading.new ≡
        body_read (all_macros macros.now) (as_items 0 (map seen_placed lexemes.now)) (seen_reading reading.old)) }
{
    let mut rest = lexemes;
    'lexemes: while let [first, behind @ ..] = rest {
        if is_remark(rest) {
            return Ok(true);
        }
        if is_comment(rest) {
            return Ok(false);
        }
        let Some(token) = sure_token(*first) else {
            return Ok(false);
        };
        rest = behind;
        if !reading.take(macros, opens(behind), token)? {
            return Ok(false);
        }
    }
    Ok(false)
}
