//! Lines that lack a clause: a clause that names nothing says so, which is no clause of the grammar.

ghost use Rattle.std.specs.Prelude.{◌≡◌, IfOk};
ghost use Rattle.c_grammar.specs.Presence.{before_end, no_clause, target_column};
ghost use Rattle.c_grammar.specs.Shared.{marked_at};
ghost use Rattle.directives.specs.Ahead.{seen_line};
ghost use Rattle.c_terminals.specs.Held.{seen_written};
ghost use Rattle.c_terminals.specs.Seen.{seen, seen_terminal};

use crate::nesting::put_before_end;
use crate::presence::{is_target, target_column};
use c_terminals::{Terminal, Token, Written, WrittenTerminal};
use c_tokens::Sign;
use directives::{Lexeme, LineTokens, PlacedLexeme};
use std::alloc::{AllocError, Global};

/// The line with such a clause.
pub fn noted_line<'a>(alloc: Global, line: &LineTokens<'a>) -> Result<LineTokens<'a>, AllocError>
    ensures { IfOk result (λ l. seen_line l ≡
        before_end (no_clause (target_column (seen_line line.now))) (seen_line line.now)) }
{
    let tokens = line.tokens();
    let column = target_column(tokens);
    let clause = [
        PlacedLexeme {
            lexeme: Lexeme::Name(b"private"),
            column,
        },
        PlacedLexeme {
            lexeme: Lexeme::Sign(Sign::OpenParen),
            column,
        },
        PlacedLexeme {
            lexeme: Lexeme::Sign(Sign::CloseParen),
            column,
        },
    ];
    let mut put = Vec::new(alloc);
    put_before_end(&mut put, &clause, tokens)?;
    Ok(LineTokens::of(put))
}

/// The token, with it where it is the line of a target that lacks one.
pub fn marked<'a>(
    alloc: Global,
    lacks: bool,
    token: Token<'a, '_>,
) -> Result<Written<'a>, AllocError>
    ensures { IfOk result (λ w. seen_written w ≡ marked_at lacks (seen token.entry) (seen_terminal token.entry.terminal)) }
{
    if let Terminal::Line(line) = token.terminal {
        if token.terminal.is_directive() && is_target(line.tokens()) && lacks {
            return Ok(Written {
                terminal: WrittenTerminal::Line(noted_line(alloc, line)?),
                line: token.line,
                column: token.column,
            });
        }
    }
    Written::of(alloc, token)
}
