//! Scalars that a block declares without a value, and that are assigned before all else wherever they are used: each is
//! declared where it is first assigned.

ghost use Rattle.std.specs.Prelude.{◌≡◌, [], false, MatchOption, IfOk, OnOk};
ghost use Rattle.c_grammar.specs.Blocks.{bare};
ghost use Rattle.c_grammar.specs.Changes.{is_boundary, is_ended};
ghost use Rattle.c_grammar.specs.Moves.{Starts, all_moved, begin, is_fresh, is_moved, left, moved, moved_names, stands, unset, unspoiled, with_name, with_unset};
ghost use Rattle.c_grammar.specs.Presence.{is_declared};
ghost use Rattle.c_terminals.specs.Ahead.{ahead};
ghost use Rattle.c_terminals.specs.Seen.{seen, seen_all, seen_terminal};
ghost use Rattle.c_written.specs.Boxes.{texts};

use crate::boxes::depth_behind;
use crate::changes::is_boundary;
use crate::targets::is_sign;
use crate::used::is_declared;
use c_terminals::{Ahead, Terminal, Token, is_among};
use c_tokens::Sign;
use directives::Word;
use std::alloc::{AllocError, Global};

/// So many names are looked at.
const MOST_NAMES: usize = 64;

/// What stands right before a token.
#[derive(Clone, Copy)]
pub enum Before {
    Other,
    /// What a statement begins behind.
    Starts,
    /// A type that begins one.
    Typed,
    /// Any other type.
    Barred,
    /// The name that a type declares which begins a statement.
    Ending,
}

/// How many blocks are open, in which the name is declared and first assigned, in none, which is 0, or in one, and whether it
/// was assigned so before.
#[derive(Clone, Copy)]
pub struct Stand {
    pub depth: usize,
    pub declared: usize,
    pub owned: usize,
    pub used: bool,
}

impl Before {
    ghost use Rattle.std.specs.Prelude.{◌≡◌};
    ghost use Rattle.c_grammar.specs.Moves.{begins, behind, behind_name, behind_type, is_ending};
    ghost use Rattle.c_terminals.specs.Seen.{seen};
    ghost use Rattle.c_written.specs.Moves.{seen_before};

    pub fn is_begin(self) -> bool
        ensures { result ≡ begins (seen_before self) }
    {
        match self {
            Before::Starts => true,
            _ => false,
        }
    }

    fn is_ending(self) -> bool
        ensures { result ≡ is_ending (seen_before self) }
    {
        match self {
            Before::Ending => true,
            _ => false,
        }
    }

    fn behind_type(self) -> Before
        ensures { seen_before result ≡ behind_type (seen_before self) }
    {
        match self {
            Before::Starts => Before::Typed,
            _ => Before::Barred,
        }
    }

    fn behind_name(self) -> Before
        ensures { seen_before result ≡ behind_name (seen_before self) }
    {
        match self {
            Before::Typed => Before::Ending,
            _ => Before::Other,
        }
    }

    /// Behind a token, of which the name may be one.
    pub fn behind(self, name: &[u8], token: Token<'_, '_>) -> Before
        ensures { seen_before result ≡ behind name.now (seen_before self) (seen token.entry) }
    {
        if is_boundary(token.terminal) {
            return Before::Starts;
        }
        if token.terminal.is_word(Word::Uint64) {
            return self.behind_type();
        }
        if token.terminal.is_word(Word::Int) {
            return Before::Barred;
        }
        if token.terminal.is_named(name) {
            return self.behind_name();
        }
        Before::Other
    }
}

// Whether the name stands before a semicolon.
fn stands(name: &[u8], rest: Ahead<'_, '_, '_>) -> bool
    ensures { result ≡ stands name.now (ahead rest.entry) }
{
    let mut ahead = rest;
    'tokens: while let Some(token) = ahead.next() {
        if token.terminal.is_sign(Sign::Semicolon) {
            return false;
        }
        if token.terminal.is_named(name) {
            return true;
        }
    }
    false
}

/// Whether something is assigned there that does not have the name.
pub fn is_fresh(name: &[u8], rest: Ahead<'_, '_, '_>) -> bool
    ensures { result ≡ is_fresh name.now (ahead rest.entry) }
{
    let mut ahead = rest;
    match ahead.next() {
        Some(next) => next.terminal.is_sign(Sign::Equal) && !stands(name, ahead),
        None => false,
    }
}

// Whether a semicolon comes next.
fn is_ended(rest: Ahead<'_, '_, '_>) -> bool
    ensures { result ≡ is_ended (ahead rest.entry) }
{
    let mut ahead = rest;
    is_sign(ahead.next(), Sign::Semicolon)
}

// The same block, unless a token closes it where so many are open.
fn left(token: Token<'_, '_>, depth: usize, block: usize) -> usize
    ensures { result ≡ left (seen token.entry) depth block }
{
    if token.terminal.is_sign(Sign::CloseBrace) && block == depth {
        0
    } else {
        block
    }
}

impl Stand {
    ghost use Rattle.std.specs.Prelude.{◌≡◌, IfOk};
    ghost use Rattle.std.specs.Option.{option_map};
    ghost use Rattle.c_grammar.specs.Moves.{begin, behind_put, declares, may_own, mentioned, owns, passed};
    ghost use Rattle.c_terminals.specs.Ahead.{ahead};
    ghost use Rattle.c_terminals.specs.Seen.{seen};
    ghost use Rattle.c_written.specs.Moves.{seen_before, seen_stand};

    fn begin() -> Stand
        ensures { seen_stand result ≡ begin }
    {
        Stand {
            depth: 0,
            declared: 0,
            owned: 0,
            used: false,
        }
    }

    fn owns(self) -> Stand
        ensures { seen_stand result ≡ owns (seen_stand self) }
    {
        Stand {
            depth: self.depth,
            declared: self.declared,
            owned: self.depth,
            used: true,
        }
    }

    fn declares(self) -> Stand
        ensures { seen_stand result ≡ declares (seen_stand self) }
    {
        Stand {
            depth: self.depth,
            declared: self.depth,
            owned: self.owned,
            used: self.used,
        }
    }

    // Behind a token that is not the name.
    fn passed(self, token: Token<'_, '_>) -> Result<Stand, AllocError>
        ensures { IfOk result (λ s. seen_stand s ≡ passed (seen token.entry) (seen_stand self)) }
    {
        Ok(Stand {
            depth: depth_behind(token, self.depth)?,
            declared: left(token, self.depth, self.declared),
            owned: left(token, self.depth, self.owned),
            used: self.used,
        })
    }

    // Whether a block inside the one that declares the name assigns it first.
    fn may_own(self, name: &[u8], rest: Ahead<'_, '_, '_>) -> bool
        ensures { result ≡ may_own name.now (seen_stand self) (ahead rest.entry) }
    {
        self.declared != 0 && self.declared != self.depth && is_fresh(name, rest)
    }

    // Behind the name, unless it spoils it to stand there.
    fn mentioned(self, name: &[u8], before: Before, rest: Ahead<'_, '_, '_>) -> Option<Stand>
        ensures { option_map seen_stand result ≡ mentioned name.now (seen_before before) (seen_stand self) (ahead rest.entry) }
    {
        match before {
            Before::Typed => {
                if is_ended(rest) && self.declared == 0 && self.depth != 0 {
                    Some(self.declares())
                } else {
                    None
                }
            }
            Before::Barred => None,
            Before::Starts => {
                if self.owned != 0 {
                    Some(self)
                } else if self.may_own(name, rest) {
                    Some(self.owns())
                } else {
                    None
                }
            }
            _ => { if self.owned == 0 { None } else { Some(self) } }
        }
    }

    // Behind the name, which nothing spoils.
    fn behind_put(self, before: Before) -> Stand
        ensures { seen_stand result ≡ behind_put (seen_before before) (seen_stand self) }
    {
        if before.is_begin() && self.owned == 0 {
            self.owns()
        } else {
            self
        }
    }
}

// ---- which names these are

// Whether none of the tokens spoils the name, which is used.
fn is_moved(name: &[u8], tokens: &[Token<'_, '_>]) -> Result<bool, AllocError>
    ensures { IfOk result (λ b. b ≡ is_moved name.now Starts begin (bare (seen_all tokens.now))) }
{
    let mut before = Before::Starts;
    let mut stand = Stand::begin();
    let mut ahead = Ahead::new(tokens);
    'tokens: while let Some(token) = ahead.next() {
        if token.terminal.is_named(name) {
            match stand.mentioned(name, before, ahead) {
                Some(next) => stand = next,
                None => return Ok(false),
            }
        } else {
            stand = stand.passed(token)?;
        }
        before = before.behind(name, token);
    }
    Ok(stand.used)
}

// Adds the name, if it is one and not among the others yet, of which there are not too many.
fn add_name<'a>(names: &mut Vec<&'a [u8]>, terminal: Terminal<'a, '_>) -> Result<(), AllocError>
    ensures { OnOk result (texts names.new.items ≡ with_name (seen_terminal terminal.entry) (texts names.old.items)) }
{
    if let Terminal::Name(name) = terminal {
        if !is_among(names, name) && names.len() < MOST_NAMES {
            names.push(name)?;
        }
    }
    Ok(())
}

// Adds the name that is declared by a token and those behind it without a value.
fn add_unset<'a>(
    names: &mut Vec<&'a [u8]>,
    token: Token<'a, '_>,
    rest: Ahead<'a, '_, '_>,
) -> Result<(), AllocError>
    ensures { OnOk result (texts names.new.items ≡ with_unset (seen token.entry) (ahead rest.entry) (texts names.old.items)) }
{
    let mut ahead = rest;
    let Some(next) = ahead.next() else {
        return Ok(());
    };
    if token.terminal.is_word(Word::Uint64) && is_ended(ahead) {
        return add_name(names, next.terminal);
    }
    Ok(())
}

// The names that are declared without a value.
fn unset<'a>(alloc: Global, tokens: &[Token<'a, '_>]) -> Result<Vec<&'a [u8]>, AllocError>
    ensures { IfOk result (λ v. texts v.items ≡ unset [] (bare (seen_all tokens.now))) }
{
    let mut names = Vec::new(alloc);
    let mut ahead = Ahead::new(tokens);
    'tokens: while let Some(token) = ahead.next() {
        add_unset(&mut names, token, ahead)?;
    }
    Ok(names)
}

// Those of the names that no token spoils.
fn unspoiled<'a>(
    alloc: Global,
    names: &[&'a [u8]],
    tokens: &[Token<'a, '_>],
) -> Result<Vec<&'a [u8]>, AllocError>
    ensures { IfOk result (λ v. texts v.items ≡ unspoiled (texts names.now) (bare (seen_all tokens.now))) }
{
    let mut moved = Vec::new(alloc);
    let mut rest = names;
    'names: while let [name, behind @ ..] = rest {
        rest = behind;
        if is_moved(name, tokens)? {
            moved.push(*name)?;
        }
    }
    Ok(moved)
}

/// The names of the scalars that are declared where they are first assigned.
pub fn moved_names<'a>(alloc: Global, tokens: &[Token<'a, '_>]) -> Result<Vec<&'a [u8]>, AllocError>
    ensures { IfOk result (λ v. texts v.items ≡ moved_names (bare (seen_all tokens.now))) }
{
    let names = unset(alloc, tokens)?;
    unspoiled(alloc, &names, tokens)
}

// ---- the tokens

/// The tokens so far.
#[derive(Drop)]
struct Moves<'a, 'l> {
    done: Vec<Token<'a, 'l>>,
    before: Before,
    stand: Stand,
}

impl<'a, 'l> Moves<'a, 'l> {
    ghost use Rattle.std.specs.Prelude.{◌≡◌, ◌∷◌, ◌++◌, OnOk};
    ghost use Rattle.c_grammar.specs.Blocks.{bare};
    ghost use Rattle.c_grammar.specs.Moves.{name_put, other_put};
    ghost use Rattle.c_terminals.specs.Seen.{seen, seen_all};
    ghost use Rattle.c_written.specs.Moves.{seen_before, seen_stand, with_moves};

    // The name, with its type where it is first assigned.
    fn put_name(&mut self, token: Token<'a, 'l>) -> Result<(), AllocError>
        ensures done { OnOk result (seen_all self.new.done.items ≡ seen_all self.old.done.items ++
            name_put (seen_before self.old.before) (seen_stand self.old.stand) (seen token.entry)) }
        ensures before { OnOk result (self.new.before ≡ self.old.before) }
        ensures stand { OnOk result (self.new.stand ≡ self.old.stand) }
    {
        match self.before {
            Before::Typed => {}
            Before::Starts => {
                if self.stand.owned == 0 {
                    self.done.push(token.at(Terminal::Word(Word::Uint64)))?;
                }
                self.done.push(token)?;
            }
            _ => self.done.push(token)?,
        }
        Ok(())
    }

    // Another token, unless it belongs to the declaration.
    fn put_other(
        &mut self,
        name: &[u8],
        token: Token<'a, 'l>,
        rest: &[Token<'a, 'l>],
    ) -> Result<(), AllocError>
        ensures done { OnOk result (seen_all self.new.done.items ≡ seen_all self.old.done.items ++
            other_put name.now (seen_before self.old.before) (seen token.entry) (bare (seen_all rest.now))) }
        ensures before { OnOk result (self.new.before ≡ self.old.before) }
        ensures stand { OnOk result (self.new.stand ≡ self.old.stand) }
    {
        let ends = self.before.is_ending() && token.terminal.is_sign(Sign::Semicolon);
        if !is_declared(name, token, Ahead::new(rest)) && !ends {
            self.done.push(token)?;
        }
        Ok(())
    }

    /// The next token, before others.
    fn take(
        &mut self,
        name: &[u8],
        token: Token<'a, 'l>,
        rest: &[Token<'a, 'l>],
    ) -> Result<(), AllocError>
        ensures { OnOk result (with_moves name.now self.old (seen token.entry ∷ seen_all rest.now) ≡
            with_moves name.now self.new (seen_all rest.now)) }
    {
        if token.terminal.is_directive() {
            self.done.push(token)?;
            return Ok(());
        }
        if token.terminal.is_named(name) {
            self.put_name(token)?;
            self.stand = self.stand.behind_put(self.before);
        } else {
            self.put_other(name, token, rest)?;
            self.stand = self.stand.passed(token)?;
        }
        self.before = self.before.behind(name, token);
        Ok(())
    }
}

// The tokens with the name declared where it is first assigned.
fn moved<'a, 'l>(
    alloc: Global,
    name: &[u8],
    tokens: &[Token<'a, 'l>],
) -> Result<Vec<Token<'a, 'l>>, AllocError>
    ensures { IfOk result (λ v. seen_all v.items ≡ moved name.now Starts begin (seen_all tokens.now)) }
{
    let mut moves = Moves {
        done: Vec::new(alloc),
        before: Before::Starts,
        stand: Stand::begin(),
    };
    let mut rest = tokens;
    'tokens: while let [token, behind @ ..] = rest {
        moves.take(name, *token, behind)?;
        rest = behind;
    }
    Ok(moves.done)
}

/// The tokens with these names declared where they are first assigned.
pub fn all_moved<'a, 'l>(
    alloc: Global,
    names: &[&[u8]],
    tokens: &[Token<'a, 'l>],
) -> Result<Vec<Token<'a, 'l>>, AllocError>
    ensures { IfOk result (λ v. seen_all v.items ≡ all_moved (texts names.now) (seen_all tokens.now)) }
{
    let mut done = Vec::from_slice(alloc, tokens)?;
    let mut rest = names;
    'names: while let [name, behind @ ..] = rest {
        rest = behind;
        done = moved(alloc, name, &done)?;
    }
    Ok(done)
}
