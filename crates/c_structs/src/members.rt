//! The members of a struct, from the tokens behind the bracket of its definition.

ghost use Rattle.std.specs.Prelude.{◌≡◌, IfOk};
ghost use Rattle.c_grammar.specs.Structs.{count, number_in, number_of};
ghost use Rattle.c_terminals.specs.Ahead.{ahead};
ghost use Rattle.c_terminals.specs.Seen.{seen_terminal};

use crate::structs::more;
use c_terminals::{Ahead, Terminal};
use c_tokens::Sign;
use std::alloc::AllocError;

fn number_in(members: Ahead<'_, '_, '_>, name: &[u8]) -> Result<Option<usize>, AllocError>
    ensures { IfOk result (λ o. o ≡ number_in 0 (ahead members.entry) name.now) }
{
    let mut ahead = members;
    let mut number = 0usize;
    'tokens: while let Some(token) = ahead.next() {
        if token.terminal.is_sign(Sign::CloseBrace) {
            return Ok(None);
        }
        if token.terminal.is_named(name) {
            return Ok(Some(number));
        }
        if token.terminal.is_name() {
            number = more(number, 1)?;
        }
    }
    Ok(None)
}

/// Which member has that name.
pub fn number_of(
    members: Ahead<'_, '_, '_>,
    terminal: Terminal<'_, '_>,
) -> Result<Option<usize>, AllocError>
    ensures { IfOk result (λ o. o ≡ number_of (ahead members.entry) (seen_terminal terminal.entry)) }
{
    match terminal {
        Terminal::Name(name) => number_in(members, name),
        _ => Ok(None),
    }
}

/// How many members there are.
pub fn count(members: Ahead<'_, '_, '_>) -> Result<usize, AllocError>
    ensures { IfOk result (λ n. n ≡ count (ahead members.entry)) }
{
    let mut ahead = members;
    let mut count = 0usize;
    'tokens: while let Some(token) = ahead.next() {
        if token.terminal.is_sign(Sign::CloseBrace) {
            return Ok(count);
        }
        if token.terminal.is_name() {
            count = more(count, 1)?;
        }
    }
    Ok(count)
}
