//! Tokens outside of directive lines, with what stands for the names of loops.

ghost use Rattle.std.specs.Prelude.{◌≡◌, ◌++◌, OnOk, Some, true};
ghost use Rattle.c_grammar.specs.Descents.{all_at, before_sum, behind_sum, put_all, stand};
ghost use Rattle.c_terminals.specs.Ahead.{next_of};
ghost use Rattle.c_terminals.specs.Seen.{seen, seen_all};
ghost use Rattle.c_descents.specs.Blocks.{open_blocks};
ghost use Rattle.c_descents.specs.Parts.{all_parts, seen_part};
ghost use Rattle.c_descents.specs.State.{put_by};

use crate::blocks::Blocks;
use crate::parts::Part;
use c_terminals::{Terminal, Token};
use c_tokens::Sign;
use std::alloc::AllocError;

/// Whether a sum may stand behind the token without brackets.
pub fn before_sum(token: Token<'_, '_>) -> bool
    ensures { result ≡ before_sum (seen token.entry) }
{
    let terminal = token.terminal;
    terminal.is_sign(Sign::OpenBracket)
        || terminal.is_sign(Sign::Equal)
        || terminal.is_sign(Sign::Plus)
        || terminal.is_sign(Sign::Less)
        || terminal.is_sign(Sign::LessEqual)
        || terminal.is_sign(Sign::NotEqual)
}

/// Whether it may before the token that comes next.
pub fn behind_sum(next: Option<Token<'_, '_>>) -> bool
    ensures { result ≡ behind_sum (next_of next.entry) }
{
    match next {
        None => true,
        Some(token) => {
            token.terminal.is_sign(Sign::CloseBracket)
                || token.terminal.is_sign(Sign::Semicolon)
                || token.terminal.is_sign(Sign::Plus)
                || token.terminal.is_sign(Sign::Minus)
        }
    }
}

// What stands for a token, at its place.
fn put_parts<'a, 'l>(
    done: &mut Vec<Token<'a, 'l>>,
    token: Token<'a, 'l>,
    parts: &[Part<'a>],
) -> Result<(), AllocError>
    ensures { OnOk result (seen_all done.new.items ≡ seen_all done.old.items ++ all_at (seen token.entry) (all_parts parts.now)) }
{
    let mut rest = parts;
    'parts: while let [part, behind @ ..] = rest {
        done.push(token.at(part.terminal()))?;
        rest = behind;
    }
    Ok(())
}

/// The same, in brackets where it may not stand without them.
pub fn put_stand<'a, 'l>(
    done: &mut Vec<Token<'a, 'l>>,
    free: bool,
    token: Token<'a, 'l>,
    parts: &[Part<'a>],
) -> Result<(), AllocError>
    ensures { OnOk result (seen_all done.new.items ≡
        seen_all done.old.items ++ stand free (seen token.entry) (Some (all_parts parts.now))) }
{
    if free {
        return put_parts(done, token, parts);
    }
    done.push(token.at(Terminal::Sign(Sign::OpenParen)))?;
    put_parts(done, token, parts)?;
    done.push(token.at(Terminal::Sign(Sign::CloseParen)))?;
    Ok(())
}

// A token, or what stands for it.
fn put<'a, 'l>(
    done: &mut Vec<Token<'a, 'l>>,
    blocks: &Blocks<'a>,
    free: bool,
    token: Token<'a, 'l>,
) -> Result<(), AllocError>
    ensures { OnOk result (seen_all done.new.items ≡
        seen_all done.old.items ++ put_by (open_blocks blocks.now) free (seen token.entry)) }
{
    match blocks.stands_of(token.terminal) {
        Some(parts) => put_stand(done, free, token, parts),
        None => {
            done.push(token)?;
            Ok(())
        }
    }
}

/// The tokens of a bound.
pub fn put_all<'a, 'l>(
    done: &mut Vec<Token<'a, 'l>>,
    blocks: &Blocks<'a>,
    tokens: &[Token<'a, 'l>],
) -> Result<(), AllocError>
    ensures { OnOk result (seen_all done.new.items ≡
        seen_all done.old.items ++ put_all (open_blocks blocks.now) true (seen_all tokens.now)) }
{
    let mut free = true;
    let mut rest = tokens;
    'tokens: while let [token, behind @ ..] = rest {
        put(
            done,
            blocks,
            free && behind_sum(behind.first().copied()),
            *token,
        )?;
        free = before_sum(*token);
        rest = behind;
    }
    Ok(())
}
