//! Tokens that own their lines.

ghost use Rattle.std.specs.Prelude.{◌≡◌, IfOk};
ghost use Rattle.c_terminals.specs.Seen.{seen_all, seen_terminal, columns_in};
ghost use Rattle.c_terminals.specs.Held.{seen_held, columns_held, written_all};

use crate::token::{Terminal, Token};
use c_tokens::Sign;
use directives::{LineTokens, Word};
use std::alloc::{AllocError, Global};

/// What a written token is.
#[derive(Drop)]
pub enum WrittenTerminal<'a> {
    Word(Word),
    Sign(Sign),
    Name(&'a [u8]),
    Number(u64),
    BadNumber,
    /// A line that begins with `#`.
    Line(LineTokens<'a>),
    Unknown,
    /// A constant expression whose value is no number below 2^64.
    Unworked,
}

/// A token of a source that is written out, with its place. It owns its line.
#[derive(Drop)]
pub struct Written<'a> {
    pub terminal: WrittenTerminal<'a>,
    pub line: usize,
    pub column: usize,
}

impl<'a> Written<'a> {
    ghost use Rattle.std.specs.Prelude.{◌≡◌, IfOk};
    ghost use Rattle.c_terminals.specs.Seen.{seen, seen_terminal, columns_in};
    ghost use Rattle.c_terminals.specs.Held.{seen_written, seen_held, columns_held};

    /// The token with its line borrowed.
    pub fn token(&self) -> Token<'a, '_>
        ensures { seen result ≡ seen_written self.now }
    {
        Token {
            terminal: self.terminal(),
            line: self.line,
            column: self.column,
        }
    }

    fn terminal(&self) -> Terminal<'a, '_>
        ensures terminal { seen_terminal result ≡ seen_held self.now.terminal }
        ensures columns { columns_in result ≡ columns_held self.now.terminal }
    {
        match &self.terminal {
            WrittenTerminal::Word(word) => Terminal::Word(*word),
            WrittenTerminal::Sign(sign) => Terminal::Sign(*sign),
            WrittenTerminal::Name(text) => Terminal::Name(text),
            WrittenTerminal::Number(n) => Terminal::Number(*n),
            WrittenTerminal::BadNumber => Terminal::BadNumber,
            WrittenTerminal::Line(line) => Terminal::Line(line),
            WrittenTerminal::Unknown => Terminal::Unknown,
            WrittenTerminal::Unworked => Terminal::Unworked,
        }
    }

    /// The token with a copy of its line.
    pub fn of(alloc: Global, token: Token<'a, '_>) -> Result<Written<'a>, AllocError>
        ensures { IfOk result (λ w. seen_written w ≡ seen token.entry) }
    {
        let terminal = written_terminal(alloc, token.terminal)?;
        Ok(Written {
            terminal,
            line: token.line,
            column: token.column,
        })
    }
}

fn written_terminal<'a>(
    alloc: Global,
    terminal: Terminal<'a, '_>,
) -> Result<WrittenTerminal<'a>, AllocError>
    ensures terminal { IfOk result (λ w. seen_held w ≡ seen_terminal terminal.entry) }
    ensures columns { IfOk result (λ w. columns_held w ≡ columns_in terminal.entry) }
{
    Ok(match terminal {
        Terminal::Word(word) => WrittenTerminal::Word(word),
        Terminal::Sign(sign) => WrittenTerminal::Sign(sign),
        Terminal::Name(text) => WrittenTerminal::Name(text),
        Terminal::Number(n) => WrittenTerminal::Number(n),
        Terminal::BadNumber => WrittenTerminal::BadNumber,
        Terminal::Line(line) => WrittenTerminal::Line(line.copy(alloc)?),
        Terminal::Unknown => WrittenTerminal::Unknown,
        Terminal::Unworked => WrittenTerminal::Unworked,
    })
}

/// The tokens with their lines borrowed.
#[tactic(auto, using(crate::proofs::Owning::borrow_step, crate::proofs::Owning::borrow_all))]
pub fn borrowed<'a, 'l>(
    alloc: Global,
    written: &'l [Written<'a>],
) -> Result<Vec<Token<'a, 'l>>, AllocError>
    ensures { IfOk result (λ v. seen_all v.items ≡ written_all written.now) }
{
    let mut tokens = Vec::new(alloc);
    'written: for token in written {
        tokens.push(token.token())?;
    }
    Ok(tokens)
}

/// The tokens with copies of their lines.
#[tactic(auto, using(crate::proofs::Owning::own_step, crate::proofs::Owning::own_all))]
pub fn owned<'a>(alloc: Global, tokens: &[Token<'a, '_>]) -> Result<Vec<Written<'a>>, AllocError>
    ensures { IfOk result (λ v. written_all v.items ≡ seen_all tokens.now) }
{
    let mut written = Vec::new(alloc);
    'tokens: for token in tokens {
        written.push(Written::of(alloc, *token)?)?;
    }
    Ok(written)
}
