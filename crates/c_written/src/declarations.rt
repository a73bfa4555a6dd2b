//! The type `int` of the name of a loop, and of a constant: it is `uint64_t`.

ghost use Rattle.std.specs.Prelude.{◌≡◌, IfOk};
ghost use Rattle.c_grammar.specs.Declarations.{Other, behind_other, is_given, settled};
ghost use Rattle.c_terminals.specs.Ahead.{ahead};
ghost use Rattle.c_written.specs.Declarations.{seen_before};
ghost use Rattle.c_terminals.specs.Seen.{seen, seen_all};

use c_terminals::{Ahead, Terminal, Token};
use c_tokens::Sign;
use directives::Word;
use std::alloc::{AllocError, Global};

/// What stands right before a token.
#[derive(Clone, Copy)]
enum Before {
    Other,
    /// The word `for`.
    IsFor,
    /// That word and a bracket, or `const`: the type may be `int`.
    MayBeInt,
}

// Whether `NAME =` follows.
pub fn is_given(start: Ahead<'_, '_, '_>) -> bool
    ensures { result ≡ is_given (ahead start.entry) }
{
    let mut ahead = start;
    let Some(name) = ahead.next() else {
        return false;
    };
    let Some(equal) = ahead.next() else {
        return false;
    };
    name.terminal.is_name() && equal.terminal.is_sign(Sign::Equal)
}

fn behind_other(token: Token<'_, '_>) -> Before
    ensures { seen_before result ≡ behind_other (seen token.entry) }
{
    if token.terminal.is_word(Word::For) {
        return Before::IsFor;
    }
    if token.terminal.is_named(b"const") {
        return Before::MayBeInt;
    }
    Before::Other
}

impl Before {
    ghost use Rattle.std.specs.Prelude.{◌≡◌};
    ghost use Rattle.c_grammar.specs.Declarations.{behind, is_int};
    ghost use Rattle.c_terminals.specs.Ahead.{ahead};
    ghost use Rattle.c_written.specs.Declarations.{seen_before};
    ghost use Rattle.c_terminals.specs.Seen.{seen};

    /// Whether the token is the word `int` that may stand there.
    fn is_int(self, token: Token<'_, '_>, start: Ahead<'_, '_, '_>) -> bool
        ensures { result ≡ is_int (seen_before self) (seen token.entry) (ahead start.entry) }
    {
        match self {
            Before::MayBeInt => token.terminal.is_word(Word::Int) && is_given(start),
            _ => false,
        }
    }

    /// Behind a token.
    fn behind(self, token: Token<'_, '_>) -> Before
        ensures { seen_before result ≡ behind (seen_before self) (seen token.entry) }
    {
        match self {
            Before::IsFor if token.terminal.is_sign(Sign::OpenParen) => Before::MayBeInt,
            _ => behind_other(token),
        }
    }
}

/// The tokens with these types.
pub fn settled<'a, 'l>(
    alloc: Global,
    tokens: &[Token<'a, 'l>],
) -> Result<Vec<Token<'a, 'l>>, AllocError>
    ensures { IfOk result (λ v. seen_all v.items ≡ settled Other (seen_all tokens.now)) }
{
    let mut done = Vec::new(alloc);
    let mut before = Before::Other;
    let mut rest = tokens;
    'tokens: while let [token, behind @ ..] = rest {
        rest = behind;
        if token.terminal.is_directive() {
            done.push(*token)?;
        } else if before.is_int(*token, Ahead::new(behind)) {
            done.push(token.at(Terminal::Word(Word::Uint64)))?;
            before = Before::Other;
        } else {
            done.push(*token)?;
            before = before.behind(*token);
        }
    }
    Ok(done)
}
