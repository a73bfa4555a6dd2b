//! Leaving out the definitions of constants by `const` and `enum` outside of blocks.

ghost use Rattle.std.specs.Prelude.{◌≡◌, ◌≤◌, ◌^◌, [], false, length, IfOk, MatchOption};
ghost use Rattle.c_grammar.specs.Constants.{is_number, is_unworked, undefined};
ghost use Rattle.c_grammar.specs.Lexeme.{Uint64};
ghost use Rattle.c_grammar.specs.Terminal.{Fixed, same};
ghost use Rattle.c_terminals.specs.Seen.{seen, seen_all};

use crate::targets::is_sign;
use c_terminals::{Ahead, Terminal, Token};
use c_tokens::Sign;
use directives::Word;
use std::alloc::{AllocError, Global};

/// The tokens so far.
#[derive(Drop)]
struct Definitions<'a, 'l> {
    done: Vec<Token<'a, 'l>>,
    /// The names of the globals.
    names: Vec<&'a [u8]>,
    /// How many blocks are open.
    depth: usize,
    /// How many tokens are still to be left out.
    left: usize,
}

fn is_uint64(token: Option<Token<'_, '_>>) -> bool
    ensures { MatchOption token.entry (result ≡ false) (λ t. result ≡ same (Fixed Uint64) (seen t).terminal) }
{
    match token {
        Some(token) => token.terminal.is_word(Word::Uint64),
        None => false,
    }
}

fn is_number(token: Option<Token<'_, '_>>) -> bool
    ensures { MatchOption token.entry (result ≡ false) (λ t. result ≡ is_number (seen t).terminal) }
{
    match token {
        Some(token) => token.terminal.is_number(),
        None => false,
    }
}

fn is_unworked(token: Option<Token<'_, '_>>) -> bool
    ensures { MatchOption token.entry (result ≡ false) (λ t. result ≡ is_unworked (seen t).terminal) }
{
    match token {
        Some(token) => match token.terminal {
            Terminal::Unworked => true,
            _ => false,
        },
        None => false,
    }
}

impl<'a, 'l> Definitions<'a, 'l> {
    ghost use Rattle.std.specs.Prelude.{◌≡◌, ◌++◌, ◌∷◌, [], false, MatchOption, OnOk};
    ghost use Rattle.c_grammar.specs.Blocks.{bare};
    ghost use Rattle.c_grammar.specs.Constants.{const_len, definition_len, depth_behind, enum_len, enumerators_len, is_among, is_free, with_global};
    ghost use Rattle.c_terminals.specs.Ahead.{ahead};
    ghost use Rattle.c_written.specs.Definitions.{names_of, with_definitions};
    ghost use Rattle.c_terminals.specs.Seen.{seen, seen_all, seen_terminal};

    fn is_global(&self, name: &[u8]) -> bool
        ensures { result ≡ is_among (names_of self.now) name.now }
    {
        let mut found = false;
        'names: for own in &self.names {
            if *own == name {
                found = true;
            }
        }
        found
    }

    /// Whether it is a name that no global has.
    fn is_free(&self, token: Option<Token<'a, 'l>>) -> bool
        ensures { MatchOption token.entry (result ≡ false) (λ t. result ≡ is_free (names_of self.now) (seen t).terminal) }
    {
        match token {
            Some(token) => match token.terminal {
                Terminal::Name(name) => !self.is_global(name),
                _ => false,
            },
            None => false,
        }
    }

    /// How many tokens `uint64_t NAME = NUM;` are, or those before an expression without a value.
    fn const_len(&self, start: Ahead<'a, 'l, '_>) -> Option<usize>
        ensures { result ≡ const_len (names_of self.now) (ahead start.entry) }
    {
        let mut ahead = start;
        if !is_uint64(ahead.next()) || !self.is_free(ahead.next()) {
            return None;
        }
        if !is_sign(ahead.next(), Sign::Equal) {
            return None;
        }
        let number = ahead.next();
        if is_unworked(number) {
            return Some(3);
        }
        if is_number(number) && is_sign(ahead.next(), Sign::Semicolon) {
            Some(5)
        } else {
            None
        }
    }

    /// How many tokens the constants of an enumeration are, with its end and its bracket.
    fn enumerators_len(&self, start: Ahead<'a, 'l, '_>) -> Option<usize>
        requires { length (ahead start) ≤ 2 ^ 63 }
        ensures { result ≡ enumerators_len (names_of self.now) 1 (ahead start.entry) }
    {
        let mut ahead = start;
        let mut count = 1;
        'constants: while self.is_free(ahead.next()) {
            if !is_sign(ahead.next(), Sign::Equal) {
                return None;
            }
            let Some(number) = ahead.next() else {
                return None;
            };
            let Some(sign) = ahead.next() else {
                return None;
            };
            let after = ahead;
            let Some(next) = ahead.next() else {
                return None;
            };
            if is_unworked(Some(number)) {
                return Some(count + 2);
            }
            if !number.terminal.is_number() {
                return None;
            }
            if !sign.terminal.is_sign(Sign::Comma) {
                let ends = sign.terminal.is_sign(Sign::CloseBrace)
                    && next.terminal.is_sign(Sign::Semicolon);
                return if ends { Some(count + 5) } else { None };
            }
            count += 4;
            ahead = after;
        }
        None
    }

    /// Where a definition of constants begins: how many more tokens it has.
    fn definition_len(&self, token: Token<'a, 'l>, rest: &[Token<'a, 'l>]) -> Option<usize>
        ensures { result ≡ definition_len (names_of self.now) (seen token.entry).terminal (bare (seen_all rest.now)) }
    {
        let mut ahead = Ahead::new(rest);
        if token.terminal.is_named(b"const".as_slice()) {
            return self.const_len(ahead);
        }
        if token.terminal.is_named(b"enum".as_slice()) && is_sign(ahead.next(), Sign::OpenBrace) {
            return self.enumerators_len(ahead);
        }
        None
    }

    /// Takes note of the name behind a type.
    fn note_global(
        &mut self,
        token: Token<'a, 'l>,
        rest: &[Token<'a, 'l>],
    ) -> Result<(), AllocError>
        ensures names { OnOk result (names_of self.new ≡ with_global (seen token.entry).terminal (bare (seen_all rest.now)) (names_of self.old)) }
        ensures same { OnOk result ((self.new.done ≡ self.old.done) × ((self.new.depth ≡ self.old.depth) × (self.new.left ≡ self.old.left))) }
    {
        if !token.terminal.is_word(Word::Uint64) {
            return Ok(());
        }
        if let Some(next) = Ahead::new(rest).next() {
            if let Terminal::Name(name) = next.terminal {
                self.names.push(name)?;
            }
        }
        Ok(())
    }

    /// The token by itself.
    fn keep(&mut self, token: Token<'a, 'l>, rest: &[Token<'a, 'l>]) -> Result<(), AllocError>
        ensures done { OnOk result (seen_all self.new.done.items ≡ seen_all self.old.done.items ++ seen token.entry ∷ []) }
        ensures names { OnOk result (names_of self.new ≡ with_global (seen token.entry).terminal (bare (seen_all rest.now)) (names_of self.old)) }
        ensures depth { OnOk result (self.new.depth ≡ depth_behind (seen token.entry).terminal self.old.depth) }
        ensures left { OnOk result (self.new.left ≡ self.old.left) }
    {
        self.note_global(token, rest)?;
        match token.terminal {
            Terminal::Sign(Sign::OpenBrace) => {
                self.depth = self.depth.checked_add(1).ok_or(AllocError)?;
            }
            Terminal::Sign(Sign::CloseBrace) => self.depth = self.depth.saturating_sub(1),
            _ => {}
        }
        self.done.push(token)?;
        Ok(())
    }

    /// The next token, before others.
    fn take(&mut self, token: Token<'a, 'l>, rest: &[Token<'a, 'l>]) -> Result<(), AllocError>
        ensures { OnOk result (with_definitions self.old (seen token.entry ∷ seen_all rest.now) ≡ with_definitions self.new (seen_all rest.now)) }
    {
        if token.terminal.is_directive() {
            self.done.push(token)?;
            return Ok(());
        }
        if self.left > 0 {
            self.left -= 1;
            return Ok(());
        }
        if self.depth <= 1 {
            if let Some(len) = self.definition_len(token, rest) {
                self.left = len;
                return Ok(());
            }
        }
        self.keep(token, rest)
    }
}

/// The tokens without the definitions of constants outside of blocks, and in that of `main`.
pub fn undefined<'a, 'l>(
    alloc: Global,
    tokens: &[Token<'a, 'l>],
) -> Result<Vec<Token<'a, 'l>>, AllocError>
    ensures { IfOk result (λ v. seen_all v.items ≡ undefined [] 0 0 (seen_all tokens.now)) }
{
    let mut definitions = Definitions {
        done: Vec::new(alloc),
        names: Vec::new(alloc),
        depth: 0,
        left: 0,
    };
    let mut rest = tokens;
    'tokens: while let [token, behind @ ..] = rest {
        definitions.take(*token, behind)?;
        rest = behind;
    }
    Ok(definitions.done)
}
