//! Directive lines, with a number in the place of a name that is no device.

ghost use Rattle.std.specs.Prelude.{◌≡◌, ◌++◌, IfOk, OnOk};
ghost use Rattle.c_grammar.specs.LineForms.{is_sign};
ghost use Rattle.c_grammar.specs.Devices.{behind_lexeme, closes, put_lexeme};
ghost use Rattle.directives.specs.Ahead.{seen_line};
ghost use Rattle.directives.specs.Seen.{seen_lexeme};
ghost use Rattle.directives.specs.Spells.{kinds_of};
ghost use Rattle.c_devices.specs.Blocks.{open_blocks};
ghost use Rattle.c_devices.specs.Lines.{all_placed, line_placed, put_placed, seen_before};

use crate::blocks::Blocks;
use c_tokens::Sign;
use directives::{Lexeme, LineTokens, PlacedLexeme, same_lexeme};
use std::alloc::{AllocError, Global};

/// A number that no device has.
const NO_DEVICE: u64 = 4;

/// What stands right before a token.
#[derive(Clone, Copy)]
enum Before {
    Other,
    /// The word `device`.
    Word,
    /// That and a bracket.
    Bracket,
}

fn is_sign(lexeme: Lexeme<'_>, sign: Sign) -> bool
    ensures { result ≡ is_sign sign (seen_lexeme lexeme.entry) }
{
    same_lexeme(Lexeme::Sign(sign), lexeme)
}

// What stands before the next token.
fn behind(before: Before, lexeme: Lexeme<'_>) -> Before
    ensures { seen_before result ≡ behind_lexeme (seen_before before) (seen_lexeme lexeme.entry) }
{
    if same_lexeme(Lexeme::Name(b"device".as_slice()), lexeme) {
        return Before::Word;
    }
    match before {
        Before::Word => {
            if is_sign(lexeme, Sign::OpenParen) {
                Before::Bracket
            } else {
                Before::Other
            }
        }
        Before::Other | Before::Bracket => Before::Other,
    }
}

// Whether a closing bracket comes first.
fn closes(tokens: &[PlacedLexeme<'_>]) -> bool
    ensures { result ≡ closes (kinds_of (all_placed tokens.now)) }
{
    match tokens {
        [] => false,
        [next, ..] => is_sign(next.lexeme, Sign::CloseParen),
    }
}

// A token before others.
fn put_lexeme<'a>(
    blocks: &Blocks<'_>,
    before: Before,
    lexeme: Lexeme<'a>,
    behind: &[PlacedLexeme<'_>],
) -> Lexeme<'a>
    ensures { seen_lexeme result ≡ put_lexeme (open_blocks blocks.now) (seen_before before) (seen_lexeme lexeme.entry)
        (kinds_of (all_placed behind.now)) }
{
    let (Before::Bracket, Lexeme::Name(name)) = (before, lexeme) else {
        return lexeme;
    };
    if closes(behind) && blocks.counts_devices(name) {
        lexeme
    } else {
        Lexeme::Number(NO_DEVICE)
    }
}

// The tokens behind the words `pragma omp`.
fn put_all<'a>(
    done: &mut Vec<PlacedLexeme<'a>>,
    blocks: &Blocks<'_>,
    tokens: &[PlacedLexeme<'a>],
) -> Result<(), AllocError>
    ensures { OnOk result (all_placed done.new.items ≡ all_placed done.old.items ++
        put_placed (open_blocks blocks.now) (seen_before Before.Other) (all_placed tokens.now)) }
{
    let mut before = Before::Other;
    let mut rest = tokens;
    'tokens: while let [token, after @ ..] = rest {
        done.push(PlacedLexeme {
            lexeme: put_lexeme(blocks, before, token.lexeme, after),
            column: token.column,
        })?;
        before = behind(before, token.lexeme);
        rest = after;
    }
    Ok(())
}

// All tokens.
fn put_line<'a>(
    alloc: Global,
    blocks: &Blocks<'_>,
    tokens: &[PlacedLexeme<'a>],
) -> Result<Vec<PlacedLexeme<'a>>, AllocError>
    ensures { IfOk result (λ v. all_placed v.items ≡ line_placed (open_blocks blocks.now) (all_placed tokens.now)) }
{
    let [pragma, omp, rest @ ..] = tokens else {
        return Vec::from_slice(alloc, tokens);
    };
    let mut done = Vec::new(alloc);
    done.push(*pragma)?;
    done.push(*omp)?;
    put_all(&mut done, blocks, rest)?;
    Ok(done)
}

/// The line with a number that no device has in the place of each name in `device(NAME)` that is none.
pub fn line_with<'a>(
    alloc: Global,
    blocks: &Blocks<'_>,
    line: &LineTokens<'a>,
) -> Result<LineTokens<'a>, AllocError>
    ensures { IfOk result (λ l. seen_line l ≡ line_placed (open_blocks blocks.now) (seen_line line.now)) }
{
    let tokens = put_line(alloc, blocks, line.tokens())?;
    Ok(LineTokens::of(tokens))
}
