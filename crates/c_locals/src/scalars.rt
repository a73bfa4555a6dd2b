//! Declarations of scalars.

ghost use Rattle.std.specs.Prelude.{◌≡◌, ◌+◌, ◌++◌, IfOk, OnOk};
ghost use Rattle.std.specs.Option.{option_map};
ghost use Rattle.c_grammar.specs.Locals.{scalars, scalars_put};
ghost use Rattle.c_terminals.specs.Seen.{seen, seen_all};
ghost use Rattle.c_locals.specs.Declarations.{seen_declared};
ghost use Rattle.c_locals.specs.Puts.{seen_put, seen_state};
ghost use Rattle.c_locals.specs.Scalars.{scalar};

use crate::cells::{MAX_CELLS, cell_name};
use crate::declarations::Declared;
use crate::puts::{Put, State};
use c_terminals::{Terminal, Token};
use c_tokens::Sign;
use std::alloc::{AllocError, Global};

// `uint64_t NAME = 0;`
fn put_scalar<'a, 'l>(
    done: &mut Vec<Token<'a, 'l>>,
    token: Token<'a, 'l>,
    named: Token<'a, 'l>,
    cell: usize,
) -> Result<(), AllocError>
    ensures { OnOk result (seen_all done.new.items ≡ seen_all done.old.items ++ scalar (seen token.entry) (seen named.entry) cell) }
{
    let name = cell_name(cell)?;
    done.push(token)?;
    done.push(named.at(Terminal::Name(name)))?;
    done.push(named.at(Terminal::Sign(Sign::Equal)))?;
    done.push(named.at(Terminal::Number(0)))?;
    done.push(named.at(Terminal::Sign(Sign::Semicolon)))?;
    Ok(())
}

fn next(cell: usize) -> Result<usize, AllocError>
    ensures { IfOk result (λ n. n ≡ cell + 1) }
{
    cell.checked_add(1).ok_or(AllocError)
}

// The same for so many cells.
fn put_scalars<'a, 'l>(
    done: &mut Vec<Token<'a, 'l>>,
    token: Token<'a, 'l>,
    named: Token<'a, 'l>,
    first: usize,
    len: usize,
) -> Result<(), AllocError>
    ensures { OnOk result (seen_all done.new.items ≡
        seen_all done.old.items ++ scalars (seen token.entry) (seen named.entry) first len) }
{
    let mut cell = first;
    let mut left = len;
    'cells: while left > 0 {
        put_scalar(done, token, named, cell)?;
        cell = next(cell)?;
        left -= 1;
    }
    Ok(())
}

/// The declaration of the scalars in the place of that of an array.
pub fn scalars_put<'a, 'l>(
    alloc: Global,
    state: &State<'a>,
    token: Token<'a, 'l>,
    own: Declared<'a, 'l>,
) -> Result<Option<Put<'a, 'l>>, AllocError>
    ensures { IfOk result (λ o. option_map (seen_put (seen_state state.now)) o ≡
        scalars_put (seen_state state.now) (seen token.entry) (seen_declared own.entry)) }
{
    if own.listed || own.len > MAX_CELLS || state.used > MAX_CELLS - own.len {
        return Ok(None);
    }
    let mut done = Vec::new(alloc);
    put_scalars(&mut done, token, own.token, state.used, own.len)?;
    Ok(Some(Put {
        tokens: done,
        array: Some(own.array(state.used)),
        used: state.used + own.len,
        skip: 5,
    }))
}
