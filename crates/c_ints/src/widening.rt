//! The pass over all tokens.

ghost use Rattle.std.specs.Prelude.{◌≡◌, ◌++◌, IfOk, OnOk};
ghost use Rattle.c_grammar.specs.Blocks.{bare};
ghost use Rattle.c_ints.specs.Ints.{next_depth, other_mode, with_value, widened};
ghost use Rattle.c_ints.specs.Parts.{seen_mode};
ghost use Rattle.c_terminals.specs.Ahead.{ahead};
ghost use Rattle.c_terminals.specs.Seen.{seen, seen_all};

use crate::scopes::{begins_number, first_declared, is_declared, is_last_return, is_set};
use crate::truths::numbered;
use crate::values::{Kind, kind_of};
use c_terminals::{Ahead, Terminal, Token};
use c_tokens::Sign;
use directives::Word;
use std::alloc::{AllocError, Global};

/// Where in a statement the next token stands.
#[derive(Clone, Copy)]
enum Mode {
    Begins,
    Inside,
    /// Behind the last statement.
    Gone,
    /// Behind the type of a declaration.
    Named(Kind),
    /// In a value of one.
    Valued(Kind),
    /// Before a further name of one.
    Further(Kind),
}

/// The tokens so far.
#[derive(Drop)]
struct Widening<'a, 'l> {
    done: Vec<Token<'a, 'l>>,
    /// How many blocks are open.
    depth: usize,
    mode: Mode,
}

fn next_depth(token: Token<'_, '_>, depth: usize) -> Result<usize, AllocError>
    ensures { IfOk result (λ d. d ≡ next_depth (seen token.entry) depth) }
{
    if token.terminal.is_sign(Sign::OpenBrace) {
        return depth.checked_add(1).ok_or(AllocError);
    }
    if token.terminal.is_sign(Sign::CloseBrace) {
        return Ok(depth.saturating_sub(1));
    }
    Ok(depth)
}

fn other_mode(token: Token<'_, '_>) -> Mode
    ensures { seen_mode result ≡ other_mode (seen token.entry) }
{
    if token.terminal.is_sign(Sign::OpenBrace)
        || token.terminal.is_sign(Sign::CloseBrace)
        || token.terminal.is_sign(Sign::Semicolon)
    {
        Mode::Begins
    } else {
        Mode::Inside
    }
}

// A name, with a value where none follows.
fn put_value<'a, 'l>(
    done: &mut Vec<Token<'a, 'l>>,
    token: Token<'a, 'l>,
    rest: Ahead<'a, '_, '_>,
) -> Result<(), AllocError>
    ensures { OnOk result (seen_all done.new.items ≡
        seen_all done.old.items ++ with_value (seen token.entry) (ahead rest.entry)) }
{
    done.push(token)?;
    if !is_set(rest) {
        done.push(token.at(Terminal::Sign(Sign::Equal)))?;
        done.push(token.at(Terminal::Number(0)))?;
    }
    Ok(())
}

impl<'a, 'l> Widening<'a, 'l> {
    ghost use Rattle.std.specs.Prelude.{◌≡◌, ◌∷◌, ◌++◌, IfOk, OnOk};
    ghost use Rattle.std.specs.Option.{option_map};
    ghost use Rattle.c_grammar.specs.Blocks.{bare};
    ghost use Rattle.c_ints.specs.Ints.{declared_at, further_mode, mode_behind, mode_behind_first, put_by, put_first, put_further, put_valued, returns_at, valued_mode};
    ghost use Rattle.c_ints.specs.Parts.{IsPut, seen_kind, seen_mode, seen_state, with_rest};
    ghost use Rattle.c_terminals.specs.Ahead.{ahead};
    ghost use Rattle.c_terminals.specs.Seen.{seen, seen_all};

    // Which kind of declaration begins, if one does.
    fn declared_at(
        &self,
        token: Token<'a, '_>,
        rest: Ahead<'a, '_, '_>,
    ) -> Result<Option<Kind>, AllocError>
        ensures { IfOk result (λ o. option_map seen_kind o ≡ declared_at (seen_state self.now) (seen token.entry) (ahead rest.entry)) }
    {
        if self.depth == 0 {
            return Ok(None);
        }
        let Some(kind) = kind_of(token.terminal) else {
            return Ok(None);
        };
        if first_declared(kind, rest)? {
            Ok(Some(kind))
        } else {
            Ok(None)
        }
    }

    fn returns_at(&self, token: Token<'a, '_>, rest: Ahead<'a, '_, '_>) -> bool
        ensures { result ≡ returns_at (seen_state self.now) (seen token.entry) (ahead rest.entry) }
    {
        self.depth == 1
            && token.terminal.is_named(b"return")
            && !begins_number(rest)
            && is_last_return(rest)
    }

    // The first token of a statement.
    fn take_first(
        &mut self,
        token: Token<'a, 'l>,
        rest: Ahead<'a, '_, '_>,
    ) -> Result<(), AllocError>
        ensures { OnOk result (IsPut self.old (put_first (seen_state self.old) (seen token.entry) (ahead rest.entry))
            (mode_behind_first (seen_state self.old) (seen token.entry) (ahead rest.entry)) self.new) }
    {
        if self.returns_at(token, rest) {
            self.mode = Mode::Gone;
            return Ok(());
        }
        match self.declared_at(token, rest)? {
            None => {
                self.done.push(token)?;
                self.mode = other_mode(token);
            }
            Some(kind) => {
                self.done.push(token.at(Terminal::Word(Word::Uint64)))?;
                self.mode = Mode::Named(kind);
            }
        }
        Ok(())
    }

    // A further name of a declaration.
    fn take_further(
        &mut self,
        kind: Kind,
        token: Token<'a, 'l>,
        rest: Ahead<'a, '_, '_>,
    ) -> Result<(), AllocError>
        ensures { OnOk result (IsPut self.old (put_further (seen_kind kind) (seen token.entry) (ahead rest.entry))
            (further_mode (seen_kind kind) (seen token.entry) (ahead rest.entry)) self.new) }
    {
        if is_declared(kind, token.terminal, rest)? {
            self.done.push(token.at(Terminal::Word(Word::Uint64)))?;
            put_value(&mut self.done, token, rest)?;
            self.mode = Mode::Valued(kind);
            return Ok(());
        }
        match kind {
            Kind::Count => self.done.push(token.at(Terminal::Word(Word::Int)))?,
            Kind::Flag => self.done.push(token.at(Terminal::Name(b"bool")))?,
        }
        self.done.push(token)?;
        self.mode = other_mode(token);
        Ok(())
    }

    // A token of a value.
    fn take_valued(&mut self, kind: Kind, token: Token<'a, 'l>) -> Result<(), AllocError>
        ensures { OnOk result (IsPut self.old (put_valued (seen token.entry)) (valued_mode (seen_kind kind) (seen token.entry)) self.new) }
    {
        if token.terminal.is_sign(Sign::Comma) {
            self.done.push(token.at(Terminal::Sign(Sign::Semicolon)))?;
            self.mode = Mode::Further(kind);
            return Ok(());
        }
        self.done.push(token)?;
        if token.terminal.is_sign(Sign::Semicolon) {
            self.mode = Mode::Begins;
        } else {
            self.mode = Mode::Valued(kind);
        }
        Ok(())
    }

    // The next token, which is no directive, by where it stands.
    fn take_by(&mut self, token: Token<'a, 'l>, rest: Ahead<'a, '_, '_>) -> Result<(), AllocError>
        ensures { OnOk result (IsPut self.old (put_by (seen_mode self.old.mode) (seen_state self.old) (seen token.entry) (ahead rest.entry))
            (mode_behind (seen_mode self.old.mode) (seen_state self.old) (seen token.entry) (ahead rest.entry)) self.new) }
    {
        match self.mode {
            Mode::Begins => self.take_first(token, rest),
            Mode::Inside => {
                self.done.push(token)?;
                self.mode = other_mode(token);
                Ok(())
            }
            Mode::Gone => {
                if token.terminal.is_sign(Sign::CloseBrace) {
                    self.done.push(token)?;
                }
                Ok(())
            }
            Mode::Named(kind) => {
                put_value(&mut self.done, token, rest)?;
                self.mode = Mode::Valued(kind);
                Ok(())
            }
            Mode::Valued(kind) => self.take_valued(kind, token),
            Mode::Further(kind) => self.take_further(kind, token, rest),
        }
    }

    // The next token, before others.
    fn take(&mut self, token: Token<'a, 'l>, rest: &[Token<'a, 'l>]) -> Result<(), AllocError>
        ensures { OnOk result (with_rest self.old (seen token.entry ∷ seen_all rest.now) ≡ with_rest self.new (seen_all rest.now)) }
    {
        if token.terminal.is_directive() {
            self.done.push(token)?;
            return Ok(());
        }
        let depth = next_depth(token, self.depth)?;
        self.take_by(token, Ahead::new(rest))?;
        self.depth = depth;
        Ok(())
    }
}

/// The tokens with `uint64_t` for the types `int` and `bool` of scalars whose values are small.
pub fn widened<'a, 'l>(
    alloc: Global,
    tokens: &[Token<'a, 'l>],
) -> Result<Vec<Token<'a, 'l>>, AllocError>
    ensures { IfOk result (λ v. seen_all v.items ≡ widened (seen_all tokens.now)) }
{
    let tokens = numbered(alloc, tokens)?;
    let mut widening = Widening {
        done: Vec::new(alloc),
        depth: 0,
        mode: Mode::Inside,
    };
    let mut rest = tokens.as_slice();
    'tokens: while let [token, behind @ ..] = rest {
        widening.take(*token, behind)?;
        rest = behind;
    }
    Ok(widening.done)
}
