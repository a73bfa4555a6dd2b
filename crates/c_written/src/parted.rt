//! Sums of an array of which the line maps other cells.

ghost use Rattle.std.specs.Prelude.{◌≡◌, false};
ghost use Rattle.c_grammar.specs.Shared.{fits, fits_on, is_alike, is_number, is_parted, same_bounds, sums_fit};
ghost use Rattle.directives.specs.Seen.{seen_lexeme};
ghost use Rattle.c_written.specs.Spots.{all_kinds};

use crate::line_forms::{is_name, is_sign};
use crate::spots::{closes_list, opens_list};
use c_tokens::Sign;
use directives::{Lexeme, PlacedLexeme, same_lexeme};

fn is_number(number: u64, lexeme: Lexeme<'_>) -> bool
    ensures { result ≡ is_number number (seen_lexeme lexeme.entry) }
{
    match lexeme {
        Lexeme::Number(n) => number == n,
        Lexeme::Reserved(_) => false,
        Lexeme::Name(_) => false,
        Lexeme::BadNumber => false,
        Lexeme::Sign(_) => false,
        Lexeme::Strange => false,
        Lexeme::Ended => false,
    }
}

fn is_alike(left: Lexeme<'_>, right: Lexeme<'_>) -> bool
    ensures { result ≡ is_alike (seen_lexeme left.entry) (seen_lexeme right.entry) }
{
    match left {
        Lexeme::Number(n) => is_number(n, right),
        Lexeme::Reserved(_) => same_lexeme(left, right),
        Lexeme::Name(_) => same_lexeme(left, right),
        Lexeme::BadNumber => same_lexeme(left, right),
        Lexeme::Sign(_) => same_lexeme(left, right),
        Lexeme::Strange => same_lexeme(left, right),
        Lexeme::Ended => same_lexeme(left, right),
    }
}

// Whether the same bounds stand behind the name of an array in two lists, or none.
fn same_bounds(left: &[PlacedLexeme<'_>], right: &[PlacedLexeme<'_>]) -> bool
    ensures { result ≡ same_bounds 0 (all_kinds left.now) (all_kinds right.now) }
{
    let mut depth = 0usize;
    let mut rest = left;
    let mut others = right;
    'tokens: while let [token, behind @ ..] = rest {
        let [other, more @ ..] = others else {
            return false;
        };
        rest = behind;
        others = more;
        if depth == 0 && !is_sign(token.lexeme, Sign::OpenBracket) {
            return !is_sign(other.lexeme, Sign::OpenBracket);
        }
        if !is_alike(token.lexeme, other.lexeme) {
            return false;
        }
        if opens_list(token.lexeme) {
            depth += 1;
        } else if closes_list(token.lexeme) {
            depth = depth.saturating_sub(1);
        }
    }
    false
}

// Whether these bounds stand behind the name wherever a map clause lists it.
fn fits(name: &[u8], bounds: &[PlacedLexeme<'_>], tokens: &[PlacedLexeme<'_>]) -> bool
    ensures { result ≡ fits name.now (all_kinds bounds.now) 0 false (all_kinds tokens.now) }
{
    let mut depth = 0usize;
    let mut map = false;
    let mut rest = tokens;
    'tokens: while let [token, behind @ ..] = rest {
        rest = behind;
        if opens_list(token.lexeme) {
            depth += 1;
        } else if closes_list(token.lexeme) {
            depth = depth.saturating_sub(1);
        } else if depth == 0 {
            map = is_name(token.lexeme, b"map");
        } else if map
            && (depth == 1 && is_name(token.lexeme, name))
            && !same_bounds(bounds, behind)
        {
            return false;
        }
    }
    true
}

// The same of a token, if it is a name.
fn fits_on(line: &[PlacedLexeme<'_>], lexeme: Lexeme<'_>, bounds: &[PlacedLexeme<'_>]) -> bool
    ensures { result ≡ fits_on (all_kinds line.now) (seen_lexeme lexeme.entry) (all_kinds bounds.now) }
{
    match lexeme {
        Lexeme::Name(name) => fits(name, bounds, line),
        _ => true,
    }
}

// Whether it is so for each name of the reduction clauses of a line.
fn sums_fit(line: &[PlacedLexeme<'_>]) -> bool
    ensures { result ≡ sums_fit (all_kinds line.now) 0 false (all_kinds line.now) }
{
    let mut depth = 0usize;
    let mut sum = false;
    let mut rest = line;
    'tokens: while let [token, behind @ ..] = rest {
        rest = behind;
        if opens_list(token.lexeme) {
            depth += 1;
        } else if closes_list(token.lexeme) {
            depth = depth.saturating_sub(1);
        } else if depth == 0 {
            sum = is_name(token.lexeme, b"reduction");
        } else if sum && depth == 1 && !fits_on(line, token.lexeme, behind) {
            return false;
        }
    }
    true
}

/// Whether an array is summed up in other bounds than the line maps it.
pub fn is_parted(line: &[PlacedLexeme<'_>]) -> bool
    ensures { result ≡ is_parted (all_kinds line.now) }
{
    !sums_fit(line)
}
