//! What a source declares, and what it changes.

ghost use Rattle.std.specs.Prelude.{◌≡◌, IfOk};
ghost use Rattle.c_grammar.specs.Blocks.{bare};
ghost use Rattle.c_grammar.specs.Types.{found};
ghost use Rattle.c_terminals.specs.Seen.{seen_all};
ghost use Rattle.c_types.specs.Found.{seen_found};

use crate::functions::{Called, called_of};
use crate::kinds::{Kind, is_qualifier, kind_of};
use crate::names::{MOST_NAMES, begins_change, fits, next_is, next_opens, note};
use crate::numbers::{any_large, is_short};
use crate::states::{Heading, Mode, State};
use c_terminals::{Ahead, Names, Terminal, Token};
use c_tokens::Sign;
use std::alloc::{AllocError, Global};

#[derive(Drop)]
pub struct Found<'a> {
    /// Names of loops.
    pub heads: Names<'a>,
    /// Of those whose heads have no type.
    pub untyped: Names<'a>,
    /// What is declared by `int`.
    pub ints: Names<'a>,
    /// By `uint64_t`.
    pub wides: Names<'a>,
    /// By `bool`.
    pub flags: Names<'a>,
    pub scalars: Names<'a>,
    pub parameters: Names<'a>,
    pub pointers: Names<'a>,
    /// What something changes, or is no scalar.
    pub varied: Names<'a>,
    /// What stays an `int` and may be negative.
    pub loose: Names<'a>,
    pub functions: Vec<Called<'a>>,
    /// Whether a number of 2^31 or more is defined.
    pub defined: bool,
    pub enumerates: bool,
    /// Whether a number of 2^31 or more stands anywhere.
    pub large: bool,
}

impl<'a> Found<'a> {
    ghost use Rattle.std.specs.Prelude.{◌≡◌, OnOk};
    ghost use Rattle.c_grammar.specs.Types.{all_fit, counted, found_in, given, headed_in, named, named_in};
    ghost use Rattle.c_grammar.specs.Types.{nothing_found, scalar, with_function, with_kind};
    ghost use Rattle.c_terminals.specs.Ahead.{ahead};
    ghost use Rattle.c_terminals.specs.Seen.{seen};
    ghost use Rattle.c_types.specs.States.{seen_kind, seen_mode, seen_state};
    ghost use Rattle.c_types.specs.Found.{seen_found};

    fn nothing(alloc: Global) -> Found<'a>
        ensures { seen_found result ≡ nothing_found }
    {
        Found {
            heads: Names::new(alloc),
            untyped: Names::new(alloc),
            ints: Names::new(alloc),
            wides: Names::new(alloc),
            flags: Names::new(alloc),
            scalars: Names::new(alloc),
            parameters: Names::new(alloc),
            pointers: Names::new(alloc),
            varied: Names::new(alloc),
            loose: Names::new(alloc),
            functions: Vec::new(alloc),
            defined: false,
            enumerates: false,
            large: false,
        }
    }

    /// Whether all names could be noted.
    pub fn all_fit(&self) -> bool
        ensures { result ≡ all_fit (seen_found self.now) }
    {
        fits(&self.heads)
            && fits(&self.untyped)
            && fits(&self.ints)
            && fits(&self.wides)
            && fits(&self.flags)
            && fits(&self.scalars)
            && fits(&self.parameters)
            && fits(&self.pointers)
            && fits(&self.varied)
            && fits(&self.loose)
            && self.functions.len() < MOST_NAMES
    }

    // A scalar with a value.
    fn given(&mut self, name: &'a [u8], rest: Ahead<'a, '_, '_>) -> Result<(), AllocError>
        ensures { OnOk result (seen_found self.new ≡ given name.now (ahead rest.entry) (seen_found self.old)) }
    {
        if !self.is_fixed(rest) {
            return note(&mut self.varied, name);
        }
        if self.is_loose(rest) {
            return note(&mut self.loose, name);
        }
        Ok(())
    }

    fn scalar(
        &mut self,
        state: State,
        name: &'a [u8],
        rest: Ahead<'a, '_, '_>,
    ) -> Result<(), AllocError>
        ensures { OnOk result (seen_found self.new ≡
            scalar (seen_state state) name.now (ahead rest.entry) (seen_found self.old)) }
    {
        if state.round > 0 {
            return note(&mut self.parameters, name);
        }
        if next_is(rest, Sign::Equal) {
            let mut ahead = rest;
            ahead.next();
            return self.given(name, ahead);
        }
        note(&mut self.varied, name)
    }

    // A name that is declared by `int`, outside of the head of a loop.
    fn counted(
        &mut self,
        state: State,
        star: bool,
        name: &'a [u8],
        rest: Ahead<'a, '_, '_>,
    ) -> Result<(), AllocError>
        ensures { OnOk result (seen_found self.new ≡
            counted (seen_state state) star name.now (ahead rest.entry) (seen_found self.old)) }
    {
        if star {
            note(&mut self.pointers, name)?;
            return note(&mut self.varied, name);
        }
        if next_opens(rest) {
            return note(&mut self.varied, name);
        }
        note(&mut self.scalars, name)?;
        self.scalar(state, name, rest)
    }

    fn with_kind(&mut self, kind: Kind, name: &'a [u8]) -> Result<(), AllocError>
        ensures { OnOk result (seen_found self.new ≡ with_kind (seen_kind kind) name.now (seen_found self.old)) }
    {
        match kind {
            Kind::Count => note(&mut self.ints, name),
            Kind::Flag => note(&mut self.flags, name),
            Kind::Wide => note(&mut self.wides, name),
        }
    }

    // A name outside of heads.
    fn named_in(
        &mut self,
        state: State,
        name: &'a [u8],
        rest: Ahead<'a, '_, '_>,
    ) -> Result<(), AllocError>
        ensures { OnOk result (seen_found self.new ≡
            named_in (seen_mode state.mode) (seen_state state) name.now (ahead rest.entry) (seen_found self.old)) }
    {
        match state.mode {
            Mode::Typed(kind, star) => {
                self.with_kind(kind, name)?;
                match kind {
                    Kind::Count => self.counted(state, star, name, rest),
                    _ => Ok(()),
                }
            }
            _ => {
                if state.stepped || begins_change(rest) {
                    return note(&mut self.varied, name);
                }
                Ok(())
            }
        }
    }

    // A name in the head of a loop.
    fn headed_in(&mut self, mode: Mode, name: &'a [u8]) -> Result<(), AllocError>
        ensures { OnOk result (seen_found self.new ≡ headed_in (seen_mode mode) name.now (seen_found self.old)) }
    {
        match mode {
            Mode::Typed(kind, _) => self.with_kind(kind, name),
            _ => note(&mut self.untyped, name),
        }
    }

    fn with_function(
        &mut self,
        alloc: Global,
        state: State,
        name: &'a [u8],
        rest: Ahead<'a, '_, '_>,
    ) -> Result<(), AllocError>
        ensures { OnOk result (seen_found self.new ≡
            with_function (seen_state state) name.now (ahead rest.entry) (seen_found self.old)) }
    {
        if state.depth == 0
            && state.round == 0
            && next_is(rest, Sign::OpenParen)
            && self.functions.len() < MOST_NAMES
        {
            self.functions.push(called_of(alloc, name, rest)?)?;
        }
        Ok(())
    }

    fn named(
        &mut self,
        alloc: Global,
        state: State,
        name: &'a [u8],
        rest: Ahead<'a, '_, '_>,
    ) -> Result<(), AllocError>
        ensures { OnOk result (seen_found self.new ≡
            named (seen_state state) name.now (ahead rest.entry) (seen_found self.old)) }
    {
        self.with_function(alloc, state, name, rest)?;
        match state.heading {
            Heading::In => {
                note(&mut self.heads, name)?;
                self.headed_in(state.mode, name)
            }
            Heading::InMain => Ok(()),
            _ => self.named_in(state, name, rest),
        }
    }

    // A token, before others.
    fn take(
        &mut self,
        alloc: Global,
        state: State,
        token: Token<'a, '_>,
        rest: Ahead<'a, '_, '_>,
    ) -> Result<(), AllocError>
        ensures { OnOk result (seen_found self.new ≡
            found_in (seen token.entry).terminal (seen_state state) (ahead rest.entry) (seen_found self.old)) }
    {
        match token.terminal {
            Terminal::Name(name) => {
                if kind_of(token.terminal).is_some() || is_qualifier(token.terminal) {
                    return Ok(());
                }
                if token.terminal.is_named(b"enum".as_slice()) {
                    self.enumerates = true;
                    return Ok(());
                }
                self.named(alloc, state, name, rest)
            }
            Terminal::Number(number) => {
                self.large = self.large || !is_short(number);
                Ok(())
            }
            Terminal::Line(line) => {
                self.defined = self.defined || any_large(line.tokens());
                Ok(())
            }
            _ => Ok(()),
        }
    }
}

/// What these tokens declare and change.
pub fn scanned<'a>(alloc: Global, tokens: &[Token<'a, '_>]) -> Result<Found<'a>, AllocError>
    ensures { IfOk result (λ f. seen_found f ≡ found (bare (seen_all tokens.now))) }
{
    let mut found = Found::nothing(alloc);
    let mut state = State::begin();
    let mut ahead = Ahead::new(tokens);
    'tokens: while let Some(token) = ahead.next() {
        found.take(alloc, state, token, ahead)?;
        state = state.behind(token)?;
    }
    Ok(found)
}
