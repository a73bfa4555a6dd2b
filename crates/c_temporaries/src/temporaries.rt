//! The pass over all tokens.

ghost use Rattle.std.specs.Prelude.{◌≡◌, ◌++◌, IfOk, OnOk, map};
ghost use Rattle.std.specs.Option.{option_map};
ghost use Rattle.c_grammar.specs.Blocks.{at};
ghost use Rattle.c_grammar.specs.Triangles.{name_in, name_of};
ghost use Rattle.c_temporaries.specs.Parts.{seen_part, seen_parts, seen_whole};
ghost use Rattle.c_temporaries.specs.States.{seen_temporary};
ghost use Rattle.c_temporaries.specs.Temporaries.{in_brackets, in_place, temporary_of};
ghost use Rattle.c_terminals.specs.Ahead.{ahead};
ghost use Rattle.c_terminals.specs.Seen.{seen, seen_all, seen_terminal};

use crate::knowns::{Known, Knowns};
use crate::parts::Part;
use crate::scopes::stays;
use crate::values::{Whole, value_from};
use c_terminals::{Ahead, Terminal, Token};
use c_tokens::Sign;
use directives::Word;
use std::alloc::{AllocError, Global};

/// The most tokens of a value.
const MAX_VALUE: usize = 32;
/// The most names that are known at once.
const MAX_KNOWN: usize = 256;
/// How often temporaries are put in.
const MAX_USES: usize = 65536;

/// A temporary, how many tokens of its declaration stand behind its name, and whether a further name comes.
#[derive(Drop)]
struct Temporary<'a> {
    known: Known<'a>,
    len: usize,
    more: bool,
}

/// The tokens so far.
#[derive(Drop)]
struct Temporaries<'a, 'l> {
    alloc: Global,
    done: Vec<Token<'a, 'l>>,
    /// How many blocks are open.
    depth: usize,
    knowns: Knowns<'a>,
    /// Whether a statement begins.
    begins: bool,
    /// Whether a further name of a declaration comes.
    declares: bool,
    /// How many temporaries may still be put in.
    uses: usize,
    /// How many tokens are still to be left out.
    left: usize,
}

fn name_of<'a>(terminal: Terminal<'a, '_>) -> Option<&'a [u8]>
    ensures { option_map (λ x. x.now) result ≡ name_of (seen_terminal terminal.entry) }
{
    match terminal {
        Terminal::Name(name) => Some(name),
        _ => None,
    }
}

// The name of the loop whose head these tokens begin, behind the word `for`.
fn name_in<'a>(rest: Ahead<'a, '_, '_>) -> Option<&'a [u8]>
    ensures { option_map (λ x. x.now) result ≡ name_in (ahead rest.entry) }
{
    let mut ahead = rest;
    let (open, kind) = (ahead.next()?, ahead.next()?);
    let (name, equal) = (ahead.next()?, ahead.next()?);
    if open.terminal.is_sign(Sign::OpenParen)
        && kind.terminal.is_word(Word::Uint64)
        && equal.terminal.is_sign(Sign::Equal)
    {
        name_of(name.terminal)
    } else {
        None
    }
}

// A token of a value, at the place of another token.
fn placed<'a, 'l>(token: Token<'a, 'l>, part: Part<'a>) -> Token<'a, 'l>
    ensures { seen result ≡ at (seen token.entry) (seen_part part.entry) }
{
    token.at(part.terminal())
}

// The tokens of a value, there.
#[tactic(auto, using(crate::proofs::Putting::part_put, crate::proofs::Putting::all_put))]
fn put_parts<'a, 'l>(
    done: &mut Vec<Token<'a, 'l>>,
    token: Token<'a, 'l>,
    value: &[Part<'a>],
) -> Result<(), AllocError>
    ensures { OnOk result (seen_all done.new.items ≡
        seen_all done.old.items ++ map (at (seen token.entry)) (seen_parts value.now)) }
{
    'parts: for part in value {
        done.push(placed(token, *part))?;
    }
    Ok(())
}

// The value in round brackets.
fn in_brackets<'a>(alloc: Global, tokens: &[Part<'a>]) -> Result<Vec<Part<'a>>, AllocError>
    ensures { IfOk result (λ v. seen_parts v.items ≡ in_brackets (seen_parts tokens.now)) }
{
    let mut value = Vec::new(alloc);
    value.push(Part::Sign(Sign::OpenParen))?;
    value.extend_from_slice(tokens)?;
    value.push(Part::Sign(Sign::CloseParen))?;
    Ok(value)
}

// A temporary of that value, if it is one.
fn temporary_of<'a>(
    alloc: Global,
    depth: usize,
    name: &'a [u8],
    found: Option<Whole<'a, '_, '_>>,
) -> Result<Option<Temporary<'a>>, AllocError>
    ensures { IfOk result (λ o. option_map seen_temporary o ≡ temporary_of depth name.now (option_map seen_whole found.entry)) }
{
    let Some(whole) = found else {
        return Ok(None);
    };
    if whole.tokens.len() > MAX_VALUE {
        return Ok(None);
    }
    if !stays(name, whole.rest)? {
        return Ok(None);
    }
    let value = in_brackets(alloc, &whole.tokens)?;
    let len = whole.len.checked_add(1).ok_or(AllocError)?;
    let known = Known { name, value, depth };
    let more = whole.more;
    Ok(Some(Temporary { known, len, more }))
}

impl<'a, 'l> Temporaries<'a, 'l> {
    ghost use Rattle.std.specs.Prelude.{◌≡◌, ◌∷◌, ◌++◌, [], IfOk, OnOk};
    ghost use Rattle.std.specs.Option.{option_map};
    ghost use Rattle.c_grammar.specs.Blocks.{bare};
    ghost use Rattle.c_grammar.specs.Triangles.{name_in};
    ghost use Rattle.c_temporaries.specs.Parts.{seen_parts};
    ghost use Rattle.c_temporaries.specs.States.{HasPut, IsBehind, entered, seen_state, seen_temporary, with_temporaries};
    ghost use Rattle.c_temporaries.specs.Temporaries.{behind, declared_at, declared_in, further_on, may_begin, placed, typed_in, value_at, with_temporary};
    ghost use Rattle.c_terminals.specs.Ahead.{ahead};
    ghost use Rattle.c_terminals.specs.Seen.{seen, seen_all, seen_terminal};

    fn may_begin(&self, token: Token<'_, '_>) -> bool
        ensures { result ≡ may_begin (seen_state self.now) (seen token.entry) }
    {
        self.begins && self.depth != 0 && token.terminal.is_word(Word::Int)
    }

    // The temporary that a name and what follows it declare.
    fn declared_in(
        &self,
        name: Token<'a, '_>,
        rest: Ahead<'a, '_, '_>,
    ) -> Result<Option<Temporary<'a>>, AllocError>
        ensures { IfOk result (λ o. option_map seen_temporary o ≡
            declared_in (seen_state self.now) (seen name.entry) (ahead rest.entry)) }
    {
        let mut ahead = rest;
        let Some(equal) = ahead.next() else {
            return Ok(None);
        };
        if !equal.terminal.is_sign(Sign::Equal) {
            return Ok(None);
        }
        if self.knowns.len() >= MAX_KNOWN {
            return Ok(None);
        }
        let Terminal::Name(text) = name.terminal else {
            return Ok(None);
        };
        let found = value_from(self.alloc, &self.knowns, ahead)?;
        temporary_of(self.alloc, self.depth, text, found)
    }

    // The temporary that is declared behind a type.
    fn typed_in(&self, rest: Ahead<'a, '_, '_>) -> Result<Option<Temporary<'a>>, AllocError>
        ensures { IfOk result (λ o. option_map seen_temporary o ≡ typed_in (seen_state self.now) (ahead rest.entry)) }
    {
        let mut ahead = rest;
        match ahead.next() {
            None => Ok(None),
            Some(name) => self.declared_in(name, ahead),
        }
    }

    // The temporary that is declared by a token and those behind it.
    fn declared_at(
        &self,
        token: Token<'a, '_>,
        rest: &[Token<'a, '_>],
    ) -> Result<Option<Temporary<'a>>, AllocError>
        ensures { IfOk result (λ o. option_map seen_temporary o ≡
            declared_at (seen_state self.now) (seen token.entry) (bare (seen_all rest.now))) }
    {
        if self.may_begin(token) {
            self.typed_in(Ahead::new(rest))
        } else {
            Ok(None)
        }
    }

    // What a token stands for, if it is a name that is known.
    fn value_at(&self, terminal: Terminal<'_, '_>) -> Option<&[Part<'a>]>
        ensures { option_map (λ v. seen_parts v.now) result ≡ value_at (seen_state self.now) (seen_terminal terminal.entry) }
    {
        match terminal {
            Terminal::Name(name) => {
                if self.uses == 0 {
                    return None;
                }
                self.knowns.value_of(name)
            }
            _ => None,
        }
    }

    // The token, or what it stands for.
    fn put(&mut self, token: Token<'a, 'l>) -> Result<(), AllocError>
        ensures { OnOk result (HasPut self.old (value_at (seen_state self.old) (seen token.entry).terminal) (seen token.entry) self.new) }
    {
        let mut put = Vec::new(self.alloc);
        let mut uses = self.uses;
        match self.value_at(token.terminal) {
            None => put.push(token)?,
            Some(value) => {
                put_parts(&mut put, token, value)?;
                if value.len() > 1 {
                    uses -= 1;
                }
            }
        }
        self.done.append(&mut put)?;
        self.uses = uses;
        Ok(())
    }

    // Goes behind a token, before others.
    fn go_behind(&mut self, token: Token<'a, '_>, rest: &[Token<'a, '_>]) -> Result<(), AllocError>
        ensures { OnOk result
            (IsBehind self.old (behind (seen token.entry) (bare (seen_all rest.now)) (seen_state self.old)) self.new) }
    {
        if token.terminal.is_sign(Sign::OpenBrace) {
            self.depth = self.depth.checked_add(1).ok_or(AllocError)?;
            self.begins = true;
        } else if token.terminal.is_sign(Sign::CloseBrace) {
            self.depth = self.depth.saturating_sub(1);
            self.knowns.leave(self.depth);
            self.begins = true;
        } else if token.terminal.is_sign(Sign::Semicolon) {
            self.begins = true;
        } else if token.terminal.is_word(Word::For) {
            self.enter(Ahead::new(rest))?;
            self.begins = false;
        } else {
            self.begins = false;
        }
        Ok(())
    }

    // The name of a loop is known in its block.
    fn enter(&mut self, rest: Ahead<'a, '_, '_>) -> Result<(), AllocError>
        ensures { OnOk result (IsBehind self.old (entered (name_in (ahead rest.entry)) (seen_state self.old)) self.new) }
    {
        let Some(name) = name_in(rest) else {
            return Ok(());
        };
        let mut value = Vec::new(self.alloc);
        value.push(Part::Name(name))?;
        let depth = self.depth.checked_add(1).ok_or(AllocError)?;
        self.knowns.push(Known { name, value, depth })
    }

    // A temporary is known.
    fn know(&mut self, temporary: Temporary<'a>) -> Result<(), AllocError>
        ensures { OnOk result (IsBehind self.old
            (with_temporary (seen_temporary temporary.entry) (seen_state self.old)) self.new) }
    {
        self.knowns.push(temporary.known)?;
        self.declares = temporary.more;
        Ok(())
    }

    // A further name of a declaration, before others: its type stands before it where it is no temporary.
    fn go_further(&mut self, token: Token<'a, 'l>, rest: &[Token<'a, 'l>]) -> Result<(), AllocError>
        requires none { self.old.left ≡ 0 }
        ensures { OnOk result (seen_all self.old.done.items ++
            further_on (seen_state self.old) (seen token.entry) (bare (seen_all rest.now))
            (declared_in (seen_state self.old) (seen token.entry) (bare (seen_all rest.now)))
            (λ s k. placed s k (seen_all rest.now))
            ≡ with_temporaries self.new (seen_all rest.now)) }
    {
        if let Some(temporary) = self.declared_in(token, Ahead::new(rest))? {
            self.left = temporary.len;
            return self.know(temporary);
        }
        self.done.push(token.at(Terminal::Word(Word::Int)))?;
        self.begins = false;
        self.declares = false;
        self.put(token)?;
        self.go_behind(token, rest)
    }

    // The next token, before others.
    fn take(&mut self, token: Token<'a, 'l>, rest: &[Token<'a, 'l>]) -> Result<(), AllocError>
        ensures { OnOk result (with_temporaries self.old (seen token.entry ∷ seen_all rest.now) ≡
            with_temporaries self.new (seen_all rest.now)) }
    {
        if token.terminal.is_directive() {
            self.done.push(token)?;
            return Ok(());
        }
        if self.left > 0 {
            self.left -= 1;
            return Ok(());
        }
        if self.declares {
            return self.go_further(token, rest);
        }
        if let Some(temporary) = self.declared_at(token, rest)? {
            self.left = temporary.len.checked_add(1).ok_or(AllocError)?;
            return self.know(temporary);
        }
        self.put(token)?;
        self.go_behind(token, rest)
    }
}

/// The tokens with the values of temporaries in their places.
pub fn in_place<'a, 'l>(
    alloc: Global,
    tokens: &[Token<'a, 'l>],
) -> Result<Vec<Token<'a, 'l>>, AllocError>
    ensures { IfOk result (λ v. seen_all v.items ≡ in_place (seen_all tokens.now)) }
{
    let mut temporaries = Temporaries {
        alloc,
        done: Vec::new(alloc),
        depth: 0,
        knowns: Knowns::new(alloc),
        begins: false,
        declares: false,
        uses: MAX_USES,
        left: 0,
    };
    let mut rest = tokens;
    'tokens: while let [token, behind @ ..] = rest {
        temporaries.take(*token, behind)?;
        rest = behind;
    }
    Ok(temporaries.done)
}
