//! Types of several words: `unsigned long` and `unsigned long long`.

ghost use Rattle.std.specs.Prelude.{◌≡◌, ◌≤◌, IfOk, MatchOption, false, codes, if◌then◌else◌};
ghost use Rattle.c_grammar.specs.Terminal.{Name, same};
ghost use Rattle.c_grammar.specs.Blocks.{bare, is_long, longs, typed};
ghost use Rattle.c_terminals.specs.Seen.{seen, seen_all, seen_terminal};

use c_terminals::{Ahead, Terminal, Token};
use directives::Word;
use std::alloc::{AllocError, Global};

/// How many words `long` follow, up to two.
fn longs(rest: &[Token<'_, '_>]) -> usize
    ensures value { result ≡ longs (bare (seen_all rest.now)) }
    ensures few { result ≤ 2 }
{
    let mut ahead = Ahead::new(rest);
    if !is_long(ahead.next()) {
        return 0;
    }
    if is_long(ahead.next()) { 2 } else { 1 }
}

fn is_long(token: Option<Token<'_, '_>>) -> bool
    ensures { MatchOption token.entry (result ≡ false) (λ t. result ≡ is_long (seen t)) }
{
    match token {
        Some(token) => token.terminal.is_named(b"long".as_slice()),
        None => false,
    }
}

/// How many more words of a type follow its first, if it has more than one.
fn more_words(token: Token<'_, '_>, rest: &[Token<'_, '_>]) -> usize
    ensures { result ≡ (if same (Name (codes "unsigned")) (seen_terminal token.entry.terminal) then longs (bare (seen_all rest.now)) else 0) }
{
    if token.terminal.is_named(b"unsigned".as_slice()) {
        return longs(rest);
    }
    0
}

/// The tokens so far, and how many words of a type are still to be left out.
#[derive(Drop)]
struct Types<'a, 'l> {
    done: Vec<Token<'a, 'l>>,
    left: usize,
}

impl<'a, 'l> Types<'a, 'l> {
    ghost use Rattle.std.specs.Prelude.{◌≡◌, ◌∷◌, OnOk};
    ghost use Rattle.c_terminals.specs.Seen.{seen, seen_all};
    ghost use Rattle.c_written.specs.Passes.{with_types};

    /// The next token, before others.
    fn take(&mut self, token: Token<'a, 'l>, rest: &[Token<'a, 'l>]) -> Result<(), AllocError>
        ensures { OnOk result (with_types self.old (seen token.entry ∷ seen_all rest.now) ≡ with_types self.new (seen_all rest.now)) }
    {
        if token.terminal.is_directive() {
            self.done.push(token)?;
            return Ok(());
        }
        if self.left > 0 {
            self.left -= 1;
            return Ok(());
        }
        let count = more_words(token, rest);
        if count > 0 {
            self.done.push(token.at(Terminal::Word(Word::Uint64)))?;
            self.left = count;
            return Ok(());
        }
        self.done.push(token)?;
        Ok(())
    }
}

/// The tokens with one word for each type.
pub fn typed<'a, 'l>(
    alloc: Global,
    tokens: &[Token<'a, 'l>],
) -> Result<Vec<Token<'a, 'l>>, AllocError>
    ensures { IfOk result (λ v. seen_all v.items ≡ typed 0 (seen_all tokens.now)) }
{
    let mut types = Types {
        done: Vec::new(alloc),
        left: 0,
    };
    let mut rest = tokens;
    'tokens: while let [token, behind @ ..] = rest {
        types.take(*token, behind)?;
        rest = behind;
    }
    Ok(types.done)
}
