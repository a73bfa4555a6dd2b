//! Structs, by their names.

ghost use Rattle.std.specs.Prelude.{◌≡◌, ◌+◌, IfOk, map};
ghost use Rattle.std.specs.Option.{option_map};
ghost use Rattle.c_grammar.specs.Structs.{is_struct, is_struct_word, struct_of};
ghost use Rattle.c_structs.specs.Definitions.{seen_struct};
ghost use Rattle.c_terminals.specs.Seen.{seen};

use c_terminals::{Ahead, Token};
use std::alloc::AllocError;

/// A struct, known by the name behind the word `struct`, or by one of its own.
#[derive(Clone, Copy)]
pub struct Struct<'a, 'l, 's> {
    pub tagged: bool,
    pub name: &'a [u8],
    pub members: Ahead<'a, 'l, 's>,
}

/// So many tokens more.
pub fn more(len: usize, tokens: usize) -> Result<usize, AllocError>
    ensures { IfOk result (λ n. n ≡ len + tokens) }
{
    len.checked_add(tokens).ok_or(AllocError)
}

/// Whether the token is the word `struct`.
pub fn is_struct_word(token: Token<'_, '_>) -> bool
    ensures { result ≡ is_struct_word (seen token.entry) }
{
    token.terminal.is_named(b"struct")
}

/// Whether it has that name.
pub fn is_struct(tagged: bool, name: &[u8], of: Struct<'_, '_, '_>) -> bool
    ensures { result ≡ is_struct tagged name.now (seen_struct of.entry) }
{
    of.tagged == tagged && of.name == name
}

/// The struct of that name.
pub fn struct_of<'a, 'l, 's>(
    structs: &[Struct<'a, 'l, 's>],
    tagged: bool,
    name: &[u8],
) -> Option<Struct<'a, 'l, 's>>
    ensures { option_map seen_struct result ≡ struct_of (map seen_struct structs.now) tagged name.now }
{
    let mut left = structs;
    'structs: while let [own, rest @ ..] = left {
        if is_struct(tagged, name, *own) {
            return Some(*own);
        }
        left = rest;
    }
    None
}
