//! A token as the grammar sees it.

ghost use Rattle.std.specs.Prelude.{◌≡◌};
ghost use Rattle.c_terminals.specs.Held.{seen_written};
ghost use Rattle.c_expressions.specs.Seen.{HasColumns, seen};

use c_terminals::{Written, WrittenTerminal};
use c_tokens::Sign;
use directives::{LineTokens, Word};

#[derive(Clone, Copy)]
pub enum Terminal<'a, 'l> {
    Word(Word),
    Sign(Sign),
    Name(&'a [u8]),
    Number(u64),
    BadNumber,
    /// A line that begins with `#`.
    Line(&'l LineTokens<'a>),
    Unknown,
    /// A constant expression whose value is no number below 2^64.
    Unworked,
    End,
}

pub fn terminal_of<'a, 'l>(token: &'l Written<'a>) -> Terminal<'a, 'l>
    ensures token { seen result ≡ (seen_written token.now).terminal }
    ensures columns { HasColumns result (seen_written token.now).columns }
{
    match &token.terminal {
        WrittenTerminal::Word(word) => Terminal::Word(*word),
        WrittenTerminal::Sign(sign) => Terminal::Sign(*sign),
        WrittenTerminal::Name(text) => Terminal::Name(text),
        WrittenTerminal::Number(n) => Terminal::Number(*n),
        WrittenTerminal::BadNumber => Terminal::BadNumber,
        WrittenTerminal::Line(line) => Terminal::Line(line),
        WrittenTerminal::Unknown => Terminal::Unknown,
        WrittenTerminal::Unworked => Terminal::Unworked,
    }
}
