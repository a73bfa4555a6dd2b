//! Names of loops that are declared before them, in a block and without a value.

ghost use Rattle.std.specs.Prelude.{◌≡◌, IfOk};
ghost use Rattle.c_grammar.specs.Blocks.{bare};
ghost use Rattle.c_grammar.specs.Counters.{Other, ends_name, found, is_set, is_type, nothing_found};
ghost use Rattle.c_terminals.specs.Ahead.{ahead};
ghost use Rattle.c_written.specs.Counters.{seen_before, seen_found};
ghost use Rattle.c_terminals.specs.Seen.{seen, seen_all, seen_terminal};

use crate::boxes::depth_behind;
use crate::targets::is_sign;
use c_terminals::{Ahead, Names, Terminal, Token};
use c_tokens::Sign;
use directives::Word;
use std::alloc::{AllocError, Global};

/// What stands right before a token.
#[derive(Clone, Copy)]
pub enum Before {
    Other,
    /// The word `for`.
    IsFor,
    /// That word and a bracket.
    InHead,
    /// Another bracket, or the word `const`.
    Bars,
    /// A type by which a declaration begins, or a comma in one.
    IsType,
    /// A type behind a bracket or `const`.
    Barred,
    /// A name of a declaration.
    IsNamed,
}

/// The names of loops that declare none, those that a block declares without a value, and the others that are declared.
#[derive(Drop)]
pub struct Found<'a> {
    heads: Names<'a>,
    unset: Names<'a>,
    others: Names<'a>,
}

pub fn is_type(terminal: Terminal<'_, '_>) -> bool
    ensures { result ≡ is_type (seen_terminal terminal.entry) }
{
    terminal.is_word(Word::Uint64) || terminal.is_word(Word::Int)
}

// Whether `=` follows.
pub fn is_set(rest: Ahead<'_, '_, '_>) -> bool
    ensures { result ≡ is_set (ahead rest.entry) }
{
    let mut ahead = rest;
    match ahead.next() {
        Some(next) => next.terminal.is_sign(Sign::Equal),
        None => false,
    }
}

// Whether a name without a value ends there.
fn ends_name(rest: Ahead<'_, '_, '_>) -> bool
    ensures { result ≡ ends_name (ahead rest.entry) }
{
    let mut ahead = rest;
    match ahead.next() {
        Some(next) => {
            next.terminal.is_sign(Sign::Semicolon) || next.terminal.is_sign(Sign::Comma)
        }
        None => false,
    }
}

impl Before {
    ghost use Rattle.std.specs.Prelude.{◌≡◌};
    ghost use Rattle.c_grammar.specs.Counters.{behind, behind_bracket, behind_comma, behind_name, behind_other, behind_type, in_head, may_begin};
    ghost use Rattle.c_grammar.specs.Unset.{is_behind_type};
    ghost use Rattle.c_written.specs.Counters.{seen_before};
    ghost use Rattle.c_terminals.specs.Seen.{seen, seen_terminal};

    fn behind_bracket(self) -> Before
        ensures { seen_before result ≡ behind_bracket (seen_before self) }
    {
        match self {
            Before::IsFor => Before::InHead,
            _ => Before::Bars,
        }
    }

    fn behind_type(self) -> Before
        ensures { seen_before result ≡ behind_type (seen_before self) }
    {
        match self {
            Before::InHead => Before::Other,
            Before::Bars => Before::Barred,
            _ => Before::IsType,
        }
    }

    fn behind_comma(self) -> Before
        ensures { seen_before result ≡ behind_comma (seen_before self) }
    {
        match self {
            Before::IsNamed => Before::IsType,
            _ => Before::Other,
        }
    }

    fn behind_name(self) -> Before
        ensures { seen_before result ≡ behind_name (seen_before self) }
    {
        match self {
            Before::IsType => Before::IsNamed,
            _ => Before::Other,
        }
    }

    fn behind_other(self, terminal: Terminal<'_, '_>) -> Before
        ensures { seen_before result ≡ behind_other (seen_before self) (seen_terminal terminal.entry) }
    {
        if terminal.is_word(Word::For) {
            return Before::IsFor;
        }
        if terminal.is_named(b"const") {
            return Before::Bars;
        }
        if terminal.is_name() {
            return self.behind_name();
        }
        Before::Other
    }

    /// Behind a token.
    pub fn behind(self, token: Token<'_, '_>) -> Before
        ensures { seen_before result ≡ behind (seen_before self) (seen token.entry) }
    {
        if token.terminal.is_sign(Sign::OpenParen) {
            return self.behind_bracket();
        }
        if token.terminal.is_sign(Sign::Comma) {
            return self.behind_comma();
        }
        if is_type(token.terminal) {
            return self.behind_type();
        }
        self.behind_other(token.terminal)
    }

    /// Whether a declaration that is a statement may begin.
    pub fn may_begin(self) -> bool
        ensures { result ≡ may_begin (seen_before self) }
    {
        match self {
            Before::InHead | Before::Bars => false,
            _ => true,
        }
    }

    pub fn is_in_head(self) -> bool
        ensures { result ≡ in_head (seen_before self) }
    {
        match self {
            Before::InHead => true,
            _ => false,
        }
    }

    pub fn is_behind_type(self) -> bool
        ensures { result ≡ is_behind_type (seen_before self) }
    {
        match self {
            Before::IsType => true,
            _ => false,
        }
    }
}

impl<'a> Found<'a> {
    ghost use Rattle.std.specs.Prelude.{◌≡◌, ◌==◌, not, ◌&&◌, IfOk, OnOk};
    ghost use Rattle.c_grammar.specs.Blocks.{bare};
    ghost use Rattle.c_grammar.specs.Counters.{counts, declaration_len, found_at, is_bare, is_counter, list_len, named, nothing_found};
    ghost use Rattle.c_terminals.specs.Ahead.{ahead};
    ghost use Rattle.c_written.specs.Counters.{seen_before, seen_found};
    ghost use Rattle.c_terminals.specs.Seen.{seen, seen_all, seen_terminal};

    fn new(alloc: Global) -> Found<'a>
        ensures { seen_found result ≡ nothing_found }
    {
        Found {
            heads: Names::new(alloc),
            unset: Names::new(alloc),
            others: Names::new(alloc),
        }
    }

    // A name with what stands before it, in so many blocks.
    fn note(
        &mut self,
        depth: usize,
        before: Before,
        name: &'a [u8],
        rest: Ahead<'a, '_, '_>,
    ) -> Result<(), AllocError>
        ensures { OnOk result (seen_found self.new ≡
            named depth (seen_before before) name.now (ahead rest.entry) (seen_found self.old)) }
    {
        match before {
            Before::InHead => {
                if is_set(rest) {
                    self.heads.declare(name)?;
                }
            }
            Before::IsType => {
                if depth != 0 && ends_name(rest) {
                    self.unset.declare(name)?;
                } else {
                    self.others.declare(name)?;
                }
            }
            Before::Barred => self.others.declare(name)?,
            _ => {}
        }
        Ok(())
    }

    // A token with those behind it.
    fn read(
        &mut self,
        depth: usize,
        before: Before,
        terminal: Terminal<'a, '_>,
        rest: Ahead<'a, '_, '_>,
    ) -> Result<(), AllocError>
        ensures { OnOk result (seen_found self.new ≡
            found_at depth (seen_before before) (seen_terminal terminal.entry) (ahead rest.entry) (seen_found self.old)) }
    {
        match terminal {
            Terminal::Name(name) => self.note(depth, before, name, rest),
            _ => Ok(()),
        }
    }

    fn is_counter(&self, name: &[u8]) -> bool
        ensures { result ≡ is_counter (seen_found self.now) name.now }
    {
        self.heads.contains(name) && self.unset.contains(name) && !self.others.contains(name)
    }

    /// Whether the token is the name of a loop that is declared before it, without a value, and nowhere else.
    pub fn counts(&self, terminal: Terminal<'_, '_>) -> bool
        ensures { result ≡ counts (seen_found self.now) (seen_terminal terminal.entry) }
    {
        match terminal {
            Terminal::Name(name) => self.is_counter(name),
            _ => false,
        }
    }

    /// Behind a type: up to the semicolon so many tokens, which are such names with commas between them.
    fn list_len(&self, start: Ahead<'_, '_, '_>) -> Result<Option<usize>, AllocError>
        ensures { IfOk result (λ o. o ≡ list_len (seen_found self.now) 0 (ahead start.entry)) }
    {
        let mut ahead = start;
        let mut len = 0usize;
        'names: while let Some(name) = ahead.next() {
            let Some(sign) = ahead.next() else {
                return Ok(None);
            };
            if !self.counts(name.terminal) {
                return Ok(None);
            }
            len = len.checked_add(2).ok_or(AllocError)?;
            if sign.terminal.is_sign(Sign::Semicolon) {
                return Ok(Some(len));
            }
            if !sign.terminal.is_sign(Sign::Comma) {
                return Ok(None);
            }
        }
        Ok(None)
    }

    /// Where a declaration of such names alone begins: so many tokens stand behind its type.
    pub fn declaration_len(
        &self,
        depth: usize,
        before: Before,
        token: Token<'_, '_>,
        rest: &[Token<'_, '_>],
    ) -> Result<Option<usize>, AllocError>
        ensures { IfOk result (λ o. o ≡
            declaration_len (seen_found self.now) depth (seen_before before) (seen token.entry) (bare (seen_all rest.now))) }
    {
        if depth != 0 && is_type(token.terminal) && before.may_begin() {
            self.list_len(Ahead::new(rest))
        } else {
            Ok(None)
        }
    }

    /// Whether the token is the name of such a loop, in its head.
    pub fn is_bare(&self, before: Before, token: Token<'_, '_>, rest: &[Token<'_, '_>]) -> bool
        ensures { result ≡ is_bare (seen_found self.now) (seen_before before) (seen token.entry) (bare (seen_all rest.now)) }
    {
        before.is_in_head() && is_set(Ahead::new(rest)) && self.counts(token.terminal)
    }
}

/// The names that are declared by these tokens.
pub fn scanned<'a>(alloc: Global, tokens: &[Token<'a, '_>]) -> Result<Found<'a>, AllocError>
    ensures { IfOk result (λ f. seen_found f ≡ found 0 Other nothing_found (bare (seen_all tokens.now))) }
{
    let mut found = Found::new(alloc);
    let mut depth = 0usize;
    let mut before = Before::Other;
    let mut ahead = Ahead::new(tokens);
    'tokens: while let Some(token) = ahead.next() {
        found.read(depth, before, token.terminal, ahead)?;
        depth = depth_behind(token, depth)?;
        before = before.behind(token);
    }
    Ok(found)
}
