//! Directive lines among tokens that are left out.

ghost use Rattle.std.specs.Prelude.{◌≡◌, IfOk, true};
ghost use Rattle.c_grammar.specs.Blocks.{is_directive};
ghost use Rattle.c_grammar.specs.Locals.{line_at, line_twice, twice};
ghost use Rattle.c_terminals.specs.Held.{seen_written};
ghost use Rattle.c_terminals.specs.Seen.{seen, seen_terminal};
ghost use Rattle.directives.specs.Ahead.{seen_line};
ghost use Rattle.c_locals.specs.Lines.{all_placed};

use c_terminals::{Terminal, Token, Written, WrittenTerminal};
use directives::{LineTokens, PlacedLexeme};
use std::alloc::{AllocError, Global};

// These tokens with the second one twice.
fn twice<'a>(
    alloc: Global,
    tokens: &[PlacedLexeme<'a>],
) -> Result<Vec<PlacedLexeme<'a>>, AllocError>
    ensures { IfOk result (λ v. all_placed v.items ≡ twice (all_placed tokens.now)) }
{
    let mut done = Vec::new(alloc);
    match tokens {
        [first, second, _, ..] => {
            done.push(*first)?;
            done.push(*second)?;
            done.extend_from_slice(&tokens[1..])?;
        }
        _ => done.extend_from_slice(tokens)?,
    }
    Ok(done)
}

// The line with its second word twice, which is a fault there.
fn with_second_twice<'a>(alloc: Global, line: &LineTokens<'a>) -> Result<LineTokens<'a>, AllocError>
    ensures { IfOk result (λ l. seen_line l ≡ twice (seen_line line.now)) }
{
    let tokens = twice(alloc, line.tokens())?;
    Ok(LineTokens::of(tokens))
}

#[tactic(auto, using(crate::proofs::Wholes::line_put))]
fn line_twice<'a>(alloc: Global, token: Token<'a, '_>) -> Result<Written<'a>, AllocError>
    requires { is_directive (seen_terminal token.terminal) ≡ true }
    ensures { IfOk result (λ w. seen_written w ≡ line_twice (seen token.entry) (seen_terminal token.entry.terminal)) }
{
    match token.terminal {
        Terminal::Line(line) => Ok(Written {
            terminal: WrittenTerminal::Line(with_second_twice(alloc, line)?),
            line: token.line,
            column: token.column,
        }),
        _ => Written::of(alloc, token),
    }
}

/// A directive line, where so many tokens are still to be left out.
pub fn line_at<'a>(
    alloc: Global,
    left: usize,
    token: Token<'a, '_>,
) -> Result<Written<'a>, AllocError>
    requires { is_directive (seen_terminal token.terminal) ≡ true }
    ensures { IfOk result (λ w. seen_written w ≡ line_at left (seen token.entry)) }
{
    if left == 0 {
        Written::of(alloc, token)
    } else {
        line_twice(alloc, token)
    }
}
