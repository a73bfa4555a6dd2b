//! Declarations of arrays.

ghost use Rattle.std.specs.Prelude.{◌≡◌};
ghost use Rattle.std.specs.Option.{option_map};
ghost use Rattle.c_grammar.specs.Locals.{declared, declared_as, declared_in, is_ended, opens_list};
ghost use Rattle.c_terminals.specs.Seen.{seen, seen_all, seen_terminal};
ghost use Rattle.c_locals.specs.Blocks.{open_blocks};
ghost use Rattle.c_locals.specs.Declarations.{seen_declared};

use crate::blocks::{Array, Blocks, Cells};
use crate::cells::MAX_CELLS;
use c_terminals::{Terminal, Token};
use c_tokens::Sign;

/// An array that is declared.
#[derive(Clone, Copy)]
pub struct Declared<'a, 'l> {
    /// The token that names it.
    pub token: Token<'a, 'l>,
    pub name: &'a [u8],
    pub len: usize,
    /// A list of values follows.
    pub listed: bool,
}

impl<'a, 'l> Declared<'a, 'l> {
    ghost use Rattle.std.specs.Prelude.{◌≡◌};

    /// The array whose first cell has the name of that number.
    pub fn array(self, first: usize) -> Array<'a>
        ensures name { result.name ≡ self.entry.name }
        ensures first { result.cells.first ≡ first }
        ensures len { result.cells.len ≡ self.entry.len }
    {
        Array {
            name: self.name,
            cells: Cells {
                first,
                len: self.len,
            },
        }
    }
}

// An array of that name with so many cells.
fn declared_as<'a, 'l>(
    token: Token<'a, 'l>,
    count: Terminal<'_, '_>,
    listed: bool,
) -> Option<Declared<'a, 'l>>
    ensures { option_map seen_declared result ≡
        declared_as (seen token.entry) (seen_terminal token.entry.terminal) (seen_terminal count.entry) listed }
{
    let (Terminal::Name(name), Terminal::Number(count)) = (token.terminal, count) else {
        return None;
    };
    if count == 0 || count > MAX_CELLS as u64 {
        return None;
    }
    Some(Declared {
        token,
        name,
        len: count as usize,
        listed,
    })
}

// Whether a list of values begins.
fn opens_list(equal: Token<'_, '_>, behind: &[Token<'_, '_>]) -> bool
    ensures { result ≡ opens_list (seen equal.entry) (seen_all behind.now) }
{
    match behind {
        [] => false,
        [brace, ..] => {
            equal.terminal.is_sign(Sign::Equal) && brace.terminal.is_sign(Sign::OpenBrace)
        }
    }
}

// The array that these tokens behind a type declare.
fn declared_in<'a, 'l>(tokens: &[Token<'a, 'l>]) -> Option<Declared<'a, 'l>>
    ensures { option_map seen_declared result ≡ declared_in (seen_all tokens.now) }
{
    let [name, open, count, close, end, behind @ ..] = tokens else {
        return None;
    };
    if !open.terminal.is_sign(Sign::OpenBracket) || !close.terminal.is_sign(Sign::CloseBracket) {
        return None;
    }
    if !end.terminal.is_sign(Sign::Semicolon) && !opens_list(*end, behind) {
        return None;
    }
    declared_as(*name, count.terminal, end.terminal.is_sign(Sign::Equal))
}

/// The same, in a block.
pub fn declared_by<'a, 'l>(
    blocks: &Blocks<'_>,
    tokens: &[Token<'a, 'l>],
) -> Option<Declared<'a, 'l>>
    ensures { option_map seen_declared result ≡ declared (open_blocks blocks.now) (seen_all tokens.now) }
{
    if blocks.is_inside() {
        declared_in(tokens)
    } else {
        None
    }
}

/// Whether a semicolon comes first.
pub fn is_ended(tokens: &[Token<'_, '_>]) -> bool
    ensures { result ≡ is_ended (seen_all tokens.now) }
{
    match tokens {
        [] => false,
        [next, ..] => next.terminal.is_sign(Sign::Semicolon),
    }
}
