//! The arrays that `main` allocates, before it, and empty blocks where that was.

ghost use Rattle.std.specs.Prelude.{◌≡◌, ◌++◌, map, reverse, IfOk, OnOk};
ghost use Rattle.c_grammar.specs.Blocks.{bare};
ghost use Rattle.c_grammar.specs.Allocations.{all_read, allocated, begins_main, declaration, depth_behind, is_boundary, joined, nothing_read};
ghost use Rattle.c_written.specs.Allocations.{seen_allocation};
ghost use Rattle.c_terminals.specs.Ahead.{ahead};
ghost use Rattle.c_terminals.specs.Held.{written_all};
ghost use Rattle.c_terminals.specs.Seen.{seen, seen_all, seen_terminal};

use crate::allocations::{Array, allocation, freed, is_named};
use crate::presence::guarded;
use c_terminals::{Ahead, Terminal, Token, Written};
use c_tokens::Sign;
use directives::Word;
use std::alloc::{AllocError, Global};

/// There may be so many arrays.
const MAX_ARRAYS: usize = 64;

/// The tokens so far.
#[derive(Drop)]
struct Allocations<'a, 'l> {
    /// Those before `main`.
    before: Vec<Token<'a, 'l>>,
    /// The arrays.
    arrays: Vec<Token<'a, 'l>>,
    /// Those from `main` on, once it has begun.
    done: Vec<Token<'a, 'l>>,
    /// `main` has begun.
    inside: bool,
    /// How many braces and brackets are open.
    depth: usize,
    /// A statement begins.
    starts: bool,
    /// Tokens are left out, up to the end of the statement.
    out: bool,
    /// The names of the arrays.
    names: Vec<&'a [u8]>,
}

/// Whether a statement is over behind the token, or none has begun.
pub fn is_boundary(terminal: Terminal<'_, '_>) -> bool
    ensures { result ≡ is_boundary (seen_terminal terminal.entry) }
{
    terminal.is_sign(Sign::Semicolon)
        || terminal.is_sign(Sign::OpenBrace)
        || terminal.is_sign(Sign::CloseBrace)
}

/// How many braces and brackets are open behind the token.
pub fn depth_behind(terminal: Terminal<'_, '_>, depth: usize) -> Result<usize, AllocError>
    ensures { IfOk result (λ d. d ≡ depth_behind (seen_terminal terminal.entry) depth) }
{
    if terminal.is_sign(Sign::OpenBrace) || terminal.is_sign(Sign::OpenParen) {
        return depth.checked_add(1).ok_or(AllocError);
    }
    if terminal.is_sign(Sign::CloseBrace) || terminal.is_sign(Sign::CloseParen) {
        return Ok(depth.saturating_sub(1));
    }
    Ok(depth)
}

/// Whether the token is `int`, with `main` behind it.
pub fn begins_main(token: Token<'_, '_>, rest: Ahead<'_, '_, '_>) -> bool
    ensures { result ≡ begins_main (seen token.entry) (ahead rest.entry) }
{
    let mut ahead = rest;
    match ahead.next() {
        Some(next) => token.terminal.is_word(Word::Int) && next.terminal.is_word(Word::Main),
        None => false,
    }
}

/// Adds the global array.
fn declare<'a, 'l>(
    arrays: &mut Vec<Token<'a, 'l>>,
    token: Token<'a, 'l>,
    array: Array<'a, 'l>,
) -> Result<(), AllocError>
    ensures { OnOk result (seen_all arrays.new.items ≡
        seen_all arrays.old.items ++ declaration (seen token.entry) (seen_allocation array.entry)) }
{
    let place = array.cells.place;
    arrays.push(token.at(Terminal::Word(Word::Uint64)))?;
    arrays.push(array.named.at(Terminal::Name(array.name)))?;
    arrays.push(place.at(Terminal::Sign(Sign::OpenBracket)))?;
    arrays.push(place.at(Terminal::Number(array.cells.number)))?;
    arrays.push(place.at(Terminal::Sign(Sign::CloseBracket)))?;
    arrays.push(place.at(Terminal::Sign(Sign::Semicolon)))?;
    Ok(())
}

impl<'a, 'l> Allocations<'a, 'l> {
    ghost use Rattle.std.specs.Prelude.{◌≡◌, ◌∷◌, OnOk, Some, false};
    ghost use Rattle.c_grammar.specs.Blocks.{bare};
    ghost use Rattle.c_grammar.specs.Constants.{is_among};
    ghost use Rattle.c_grammar.specs.Allocations.{allocation, allotted, at_statement, by_allocation, closed, entered, given_up, is_allowed, is_freed, kept, next, opened, passed};
    ghost use Rattle.c_written.specs.Allocations.{names_of, reading_of, seen_allocation, with_allocations};
    ghost use Rattle.c_terminals.specs.Seen.{seen, seen_all};

    fn is_array(&self, name: &[u8]) -> bool
        ensures { result ≡ is_among (names_of self.now) name.now }
    {
        let mut found = false;
        'names: for own in &self.names {
            if *own == name {
                found = true;
            }
        }
        found
    }

    /// Whether a statement frees an array whose name stands nowhere behind it.
    fn is_freed(&self, token: Token<'a, 'l>, rest: &[Token<'a, 'l>]) -> bool
        ensures { result ≡ is_freed (names_of self.now) (seen token.entry) (bare (seen_all rest.now)) }
    {
        match freed(token, Ahead::new(rest)) {
            Some(name) => self.is_array(name),
            None => false,
        }
    }

    /// Whether there are not too many arrays, and the name stands nowhere before in `main`.
    fn is_allowed(&self, array: Array<'a, 'l>) -> bool
        ensures { result ≡ is_allowed (seen_allocation array.entry) (reading_of self.now) }
    {
        self.names.len() < MAX_ARRAYS && !is_named(array.name, Ahead::new(&self.done))
    }

    /// A directive line.
    fn pass(&mut self, token: Token<'a, 'l>) -> Result<(), AllocError>
        ensures { OnOk result (reading_of self.new ≡ passed (seen token.entry) (reading_of self.old)) }
    {
        self.done.push(token)?;
        Ok(())
    }

    /// A token by itself.
    fn keep(&mut self, token: Token<'a, 'l>) -> Result<(), AllocError>
        ensures { OnOk result (reading_of self.new ≡ kept (seen token.entry) (reading_of self.old)) }
    {
        self.depth = depth_behind(token.terminal, self.depth)?;
        self.starts = is_boundary(token.terminal);
        self.done.push(token)?;
        Ok(())
    }

    /// The first token of `main`.
    fn enter(&mut self, token: Token<'a, 'l>) -> Result<(), AllocError>
        ensures { OnOk result (reading_of self.new ≡ entered (seen token.entry) (reading_of self.old)) }
    {
        self.before.extend_from_slice(&self.done)?;
        self.done.clear();
        self.done.push(token)?;
        self.inside = true;
        self.starts = false;
        Ok(())
    }

    /// The first token of a statement that is left out.
    fn open(&mut self, token: Token<'a, 'l>) -> Result<(), AllocError>
        ensures { OnOk result (reading_of self.new ≡ opened (seen token.entry) (reading_of self.old)) }
    {
        self.done.push(token.at(Terminal::Sign(Sign::OpenBrace)))?;
        self.out = true;
        Ok(())
    }

    /// The end of a statement that is left out.
    fn close(&mut self, token: Token<'a, 'l>) -> Result<(), AllocError>
        ensures { OnOk result (reading_of self.new ≡ closed (seen token.entry) (reading_of self.old)) }
    {
        self.done.push(token.at(Terminal::Sign(Sign::CloseBrace)))?;
        self.starts = true;
        self.out = false;
        Ok(())
    }

    /// The first token of a statement that allocates an array.
    fn allot(&mut self, token: Token<'a, 'l>, array: Array<'a, 'l>) -> Result<(), AllocError>
        ensures { OnOk result (reading_of self.new ≡ allotted (seen token.entry) (seen_allocation array.entry) (reading_of self.old)) }
    {
        declare(&mut self.arrays, token, array)?;
        self.names.push(array.name)?;
        self.open(token)
    }

    /// The token, behind which no array is read.
    fn give_up(&mut self, token: Token<'a, 'l>) -> Result<(), AllocError>
        ensures { OnOk result (reading_of self.new ≡ given_up (seen token.entry) (reading_of self.old)) }
    {
        self.inside = false;
        self.keep(token)
    }

    /// The first token of a statement of `main`.
    fn begin(&mut self, token: Token<'a, 'l>, rest: &[Token<'a, 'l>]) -> Result<(), AllocError>
        ensures { OnOk result (reading_of self.new ≡ by_allocation (seen token.entry) (bare (seen_all rest.now))
            (allocation (seen token.entry) (bare (seen_all rest.now))) (reading_of self.old)) }
    {
        if let Some(array) = allocation(token, rest) {
            if self.is_allowed(array) {
                return self.allot(token, array);
            }
            return self.give_up(token);
        }
        if self.is_freed(token, rest) {
            return self.open(token);
        }
        self.keep(token)
    }

    /// Whether a statement of `main` begins.
    fn at_statement(&self) -> bool
        ensures { result ≡ at_statement (reading_of self.now) }
    {
        self.inside && self.starts && self.depth == 1
    }

    fn read(&mut self, token: Token<'a, 'l>, rest: &[Token<'a, 'l>]) -> Result<(), AllocError>
        ensures { OnOk result (reading_of self.new ≡ next (seen token.entry) (seen_all rest.now) (reading_of self.old)) }
    {
        if token.terminal.is_directive() {
            return self.pass(token);
        }
        if self.out {
            if token.terminal.is_sign(Sign::Semicolon) {
                return self.close(token);
            }
            return Ok(());
        }
        if self.at_statement() {
            return self.begin(token, rest);
        }
        if !self.inside && begins_main(token, Ahead::new(rest)) {
            return self.enter(token);
        }
        self.keep(token)
    }

    /// The next token, before others.
    fn take(&mut self, token: Token<'a, 'l>, rest: &[Token<'a, 'l>]) -> Result<(), AllocError>
        ensures { OnOk result (with_allocations self.old (seen token.entry ∷ seen_all rest.now) ≡ with_allocations self.new (seen_all rest.now)) }
    {
        self.read(token, rest)
    }
}

/// The tokens with the arrays that `main` allocates before it, and with empty blocks where that was. Where a target uses one
/// and does not map it, its line says that it is present.
pub fn allocated<'a>(
    alloc: Global,
    tokens: &[Token<'a, '_>],
) -> Result<Vec<Written<'a>>, AllocError>
    ensures { IfOk result (λ v. written_all v.items ≡ allocated (seen_all tokens.now)) }
{
    let (names, all) = with_arrays(alloc, tokens)?;
    guarded(alloc, &names, &all)
}

// The names of the arrays, and the tokens with these.
fn with_arrays<'a, 'l>(
    alloc: Global,
    tokens: &[Token<'a, 'l>],
) -> Result<(Vec<&'a [u8]>, Vec<Token<'a, 'l>>), AllocError>
    ensures names { IfOk result (λ p. map (λ x. x.now) p.0.items ≡ reverse (all_read nothing_read (seen_all tokens.now)).names) }
    ensures joined { IfOk result (λ p. seen_all p.1.items ≡ joined (all_read nothing_read (seen_all tokens.now))) }
{
    let mut read = Allocations {
        before: Vec::new(alloc),
        arrays: Vec::new(alloc),
        done: Vec::new(alloc),
        inside: false,
        depth: 0,
        starts: false,
        out: false,
        names: Vec::new(alloc),
    };
    let mut rest = tokens;
    'tokens: while let [token, behind @ ..] = rest {
        read.take(*token, behind)?;
        rest = behind;
    }
    let Allocations {
        before,
        arrays,
        done,
        names,
        ..
    } = read;
    let mut all = before;
    all.extend_from_slice(&arrays)?;
    all.extend_from_slice(&done)?;
    Ok((names, all))
}
