//! Calls of `printf` with one number, which are `print`.

ghost use Rattle.std.specs.Prelude.{◌≡◌, IfOk, MatchOption, false, codes, if◌then◌else◌};
ghost use Rattle.c_grammar.specs.Terminal.{Name, same};
ghost use Rattle.c_grammar.specs.Blocks.{bare};
ghost use Rattle.c_grammar.specs.Prints.{alone, begins_with, int_text, is_text, joined_text, one_text, printed, stays, text_len};
ghost use Rattle.c_terminals.specs.Seen.{seen, seen_all, seen_terminal};

use crate::targets::is_sign;
use c_terminals::{Ahead, Terminal, Token};
use c_tokens::Sign;
use directives::Word;
use std::alloc::{AllocError, Global};

fn is_number_format(token: Option<Token<'_, '_>>) -> bool
    ensures { MatchOption token.entry (result ≡ false) (λ t. result ≡ same (Name (codes "PRIu64")) (seen t).terminal) }
{
    match token {
        Some(token) => token.terminal.is_named(b"PRIu64".as_slice()),
        None => false,
    }
}

/// Whether a bracket, a whole text and a comma follow.
fn has_one_text(rest: &[Token<'_, '_>]) -> bool
    ensures { result ≡ begins_with one_text (bare (seen_all rest.now)) }
{
    let mut ahead = Ahead::new(rest);
    if !is_sign(ahead.next(), Sign::OpenParen) || !is_sign(ahead.next(), Sign::FormatNumber) {
        return false;
    }
    is_sign(ahead.next(), Sign::Comma)
}

/// Whether a bracket, a text in three parts and a comma follow.
fn has_joined_text(rest: &[Token<'_, '_>]) -> bool
    ensures { result ≡ begins_with joined_text (bare (seen_all rest.now)) }
{
    let mut ahead = Ahead::new(rest);
    if !is_sign(ahead.next(), Sign::OpenParen) || !is_sign(ahead.next(), Sign::FormatStart) {
        return false;
    }
    if !is_number_format(ahead.next()) || !is_sign(ahead.next(), Sign::FormatEnd) {
        return false;
    }
    is_sign(ahead.next(), Sign::Comma)
}

/// Whether a bracket, the text of a number of the type `int` and a comma follow.
fn has_int_text(rest: &[Token<'_, '_>]) -> bool
    ensures { result ≡ begins_with int_text (bare (seen_all rest.now)) }
{
    let mut ahead = Ahead::new(rest);
    if !is_sign(ahead.next(), Sign::OpenParen) || !is_sign(ahead.next(), Sign::FormatInt) {
        return false;
    }
    is_sign(ahead.next(), Sign::Comma)
}

/// How many tokens behind the bracket of a call of `printf` are left out; 0 where it is no such call.
fn text_len(token: Token<'_, '_>, rest: &[Token<'_, '_>]) -> usize
    ensures { result ≡ (if same (Name (codes "printf")) (seen_terminal token.entry.terminal) then text_len (bare (seen_all rest.now)) else 0) }
{
    if !token.terminal.is_named(b"printf".as_slice()) {
        return 0;
    }
    if has_one_text(rest) {
        return 2;
    }
    if has_joined_text(rest) {
        return 4;
    }
    if has_int_text(rest) { 1 } else { 0 }
}

fn is_text(terminal: Terminal<'_, '_>) -> bool
    ensures { result ≡ is_text (seen_terminal terminal.entry) }
{
    terminal.is_sign(Sign::FormatNumber)
        || terminal.is_sign(Sign::FormatStart)
        || terminal.is_sign(Sign::FormatEnd)
        || terminal.is_sign(Sign::FormatInt)
}

fn stays(terminal: Terminal<'_, '_>) -> bool
    ensures { result ≡ stays (seen_terminal terminal.entry) }
{
    terminal.is_sign(Sign::OpenParen) || terminal.is_sign(Sign::FormatInt)
}

/// The token in any other place: there a text is no token of the language.
fn alone<'a, 'l>(token: Token<'a, 'l>) -> Token<'a, 'l>
    ensures { seen result ≡ alone (seen token.entry) }
{
    if is_text(token.terminal) {
        return token.at(Terminal::Unknown);
    }
    token
}

/// The tokens so far, and how many tokens of a call are still to be left out behind its bracket.
#[derive(Drop)]
struct Prints<'a, 'l> {
    done: Vec<Token<'a, 'l>>,
    left: usize,
}

impl<'a, 'l> Prints<'a, 'l> {
    ghost use Rattle.std.specs.Prelude.{◌≡◌, ◌∷◌, OnOk};
    ghost use Rattle.c_terminals.specs.Seen.{seen, seen_all};
    ghost use Rattle.c_written.specs.Passes.{with_prints};

    /// The next token, before others.
    fn take(&mut self, token: Token<'a, 'l>, rest: &[Token<'a, 'l>]) -> Result<(), AllocError>
        ensures { OnOk result (with_prints self.old (seen token.entry ∷ seen_all rest.now) ≡ with_prints self.new (seen_all rest.now)) }
    {
        if token.terminal.is_directive() {
            self.done.push(token)?;
            return Ok(());
        }
        if self.left > 0 {
            if stays(token.terminal) {
                self.done.push(token)?;
                return Ok(());
            }
            self.left -= 1;
            return Ok(());
        }
        let count = text_len(token, rest);
        if count > 0 {
            self.done.push(token.at(Terminal::Word(Word::Print)))?;
            self.left = count;
            return Ok(());
        }
        self.done.push(alone(token))?;
        Ok(())
    }
}

/// The tokens with `print` for `printf`.
pub fn printed<'a, 'l>(
    alloc: Global,
    tokens: &[Token<'a, 'l>],
) -> Result<Vec<Token<'a, 'l>>, AllocError>
    ensures { IfOk result (λ v. seen_all v.items ≡ printed 0 (seen_all tokens.now)) }
{
    let mut prints = Prints {
        done: Vec::new(alloc),
        left: 0,
    };
    let mut rest = tokens;
    'tokens: while let [token, behind @ ..] = rest {
        prints.take(*token, behind)?;
        rest = behind;
    }
    Ok(prints.done)
}
