//! The pass over all tokens.

ghost use Rattle.std.specs.Prelude.{◌≡◌, ◌++◌, IfOk};
ghost use Rattle.c_grammar.specs.Allocations.{begins_main, depth_behind, is_boundary, is_named};
ghost use Rattle.c_grammar.specs.MainArrays.{lifted};
ghost use Rattle.c_terminals.specs.Ahead.{ahead};
ghost use Rattle.c_terminals.specs.Seen.{seen, seen_all, seen_terminal};

use crate::declarations::{array_in, closes, is_static};
use c_terminals::{Ahead, Terminal, Token};
use c_tokens::Sign;
use directives::Word;
use std::alloc::{AllocError, Global};

/// So many declarations are looked at: there may be no more arrays.
const MAX_ARRAYS: usize = 64;

/// The tokens so far.
#[derive(Drop)]
struct Arrays<'a, 'l> {
    /// Those before `main`.
    before: Vec<Token<'a, 'l>>,
    /// The arrays.
    arrays: Vec<Token<'a, 'l>>,
    /// Those from `main` on, once it has begun.
    done: Vec<Token<'a, 'l>>,
    /// `main` has begun.
    inside: bool,
    /// How many braces and brackets are open.
    depth: usize,
    /// A statement begins.
    starts: bool,
    /// The tokens of a declaration come, up to its end.
    declares: bool,
    /// The names of the arrays whose declarations have been looked at.
    names: Vec<&'a [u8]>,
}

/// Whether a statement is over behind the token, or none has begun.
fn is_boundary(terminal: Terminal<'_, '_>) -> bool
    ensures { result ≡ is_boundary (seen_terminal terminal.entry) }
{
    terminal.is_sign(Sign::Semicolon)
        || terminal.is_sign(Sign::OpenBrace)
        || terminal.is_sign(Sign::CloseBrace)
}

/// How many braces and brackets are open behind the token.
fn depth_behind(terminal: Terminal<'_, '_>, depth: usize) -> Result<usize, AllocError>
    ensures { IfOk result (λ d. d ≡ depth_behind (seen_terminal terminal.entry) depth) }
{
    if terminal.is_sign(Sign::OpenBrace) || terminal.is_sign(Sign::OpenParen) {
        return depth.checked_add(1).ok_or(AllocError);
    }
    if terminal.is_sign(Sign::CloseBrace) || terminal.is_sign(Sign::CloseParen) {
        return Ok(depth.saturating_sub(1));
    }
    Ok(depth)
}

/// Whether the token is `int`, with `main` behind it.
fn begins_main(token: Token<'_, '_>, rest: Ahead<'_, '_, '_>) -> bool
    ensures { result ≡ begins_main (seen token.entry) (ahead rest.entry) }
{
    let mut ahead = rest;
    match ahead.next() {
        Some(next) => token.terminal.is_word(Word::Int) && next.terminal.is_word(Word::Main),
        None => false,
    }
}

/// Whether a name stands among these tokens.
fn is_named(name: &[u8], start: Ahead<'_, '_, '_>) -> bool
    ensures { result ≡ is_named name.now (ahead start.entry) }
{
    let mut ahead = start;
    'tokens: while let Some(token) = ahead.next() {
        if token.terminal.is_named(name) {
            return true;
        }
    }
    false
}

impl<'a, 'l> Arrays<'a, 'l> {
    ghost use Rattle.std.specs.Prelude.{◌≡◌, ◌∷◌, OnOk};
    ghost use Rattle.c_grammar.specs.Allocations.{at_statement, closed, entered, kept, opened, passed};
    ghost use Rattle.c_grammar.specs.MainArrays.{array_in, begun, by_array, declared_on, is_lifted, lifted_with, looked, next};
    ghost use Rattle.c_arrays.specs.Arrays.{reading_of, with_arrays};
    ghost use Rattle.c_terminals.specs.Ahead.{ahead};
    ghost use Rattle.c_terminals.specs.Seen.{seen, seen_all};

    /// Whether not too many declarations have been looked at, and the name stands nowhere before in `main`.
    fn is_lifted(&self, name: &[u8]) -> bool
        ensures { result ≡ is_lifted name.now (reading_of self.now) }
    {
        self.names.len() < MAX_ARRAYS && !is_named(name, Ahead::new(&self.done))
    }

    /// A directive line.
    fn pass(&mut self, token: Token<'a, 'l>) -> Result<(), AllocError>
        ensures { OnOk result (reading_of self.new ≡ passed (seen token.entry) (reading_of self.old)) }
    {
        self.done.push(token)?;
        Ok(())
    }

    /// A token by itself.
    fn keep(&mut self, token: Token<'a, 'l>) -> Result<(), AllocError>
        ensures { OnOk result (reading_of self.new ≡ kept (seen token.entry) (reading_of self.old)) }
    {
        self.depth = depth_behind(token.terminal, self.depth)?;
        self.starts = is_boundary(token.terminal);
        self.done.push(token)?;
        Ok(())
    }

    /// The first token of `main`.
    fn enter(&mut self, token: Token<'a, 'l>) -> Result<(), AllocError>
        ensures { OnOk result (reading_of self.new ≡ entered (seen token.entry) (reading_of self.old)) }
    {
        self.before.extend_from_slice(&self.done)?;
        self.done.clear();
        self.done.push(token)?;
        self.inside = true;
        self.starts = false;
        Ok(())
    }

    /// The block in the place of a declaration begins.
    fn open(&mut self, token: Token<'a, 'l>) -> Result<(), AllocError>
        ensures { OnOk result (reading_of self.new ≡ opened (seen token.entry) (reading_of self.old)) }
    {
        self.done.push(token.at(Terminal::Sign(Sign::OpenBrace)))?;
        self.declares = true;
        Ok(())
    }

    /// It ends.
    fn close(&mut self, token: Token<'a, 'l>) -> Result<(), AllocError>
        ensures { OnOk result (reading_of self.new ≡ closed (seen token.entry) (reading_of self.old)) }
    {
        self.done.push(token.at(Terminal::Sign(Sign::CloseBrace)))?;
        self.starts = true;
        self.declares = false;
        Ok(())
    }

    /// A token of a declaration.
    fn lift(&mut self, token: Token<'a, 'l>) -> Result<(), AllocError>
        ensures { OnOk result (reading_of self.new ≡ lifted_with (seen token.entry) (reading_of self.old)) }
    {
        self.arrays.push(token)?;
        Ok(())
    }

    /// The first token of a declaration.
    fn begin(&mut self, token: Token<'a, 'l>) -> Result<(), AllocError>
        ensures { OnOk result (reading_of self.new ≡ begun (seen token.entry) (reading_of self.old)) }
    {
        if !is_static(token) {
            self.lift(token)?;
        }
        self.open(token)
    }

    /// A further token of a declaration.
    fn declare(&mut self, token: Token<'a, 'l>, rest: Ahead<'_, '_, '_>) -> Result<(), AllocError>
        ensures { OnOk result (reading_of self.new ≡ declared_on (seen token.entry) (ahead rest.entry) (reading_of self.old)) }
    {
        if token.terminal.is_sign(Sign::Semicolon) {
            self.lift(token)?;
            return self.close(token);
        }
        if token.terminal.is_sign(Sign::Comma) && closes(rest) {
            return Ok(());
        }
        self.lift(token)
    }

    /// A declaration of that name is looked at.
    fn look(&mut self, name: &'a [u8]) -> Result<(), AllocError>
        ensures { OnOk result (reading_of self.new ≡ looked name.now (reading_of self.old)) }
    {
        self.names.push(name)?;
        Ok(())
    }

    /// The first token of a statement of `main`.
    fn state(&mut self, token: Token<'a, 'l>, rest: Ahead<'a, '_, '_>) -> Result<(), AllocError>
        ensures { OnOk result (reading_of self.new ≡
            by_array (seen token.entry) (array_in (seen token.entry) (ahead rest.entry)) (reading_of self.old)) }
    {
        let Some(name) = array_in(token, rest) else {
            return self.keep(token);
        };
        let is_lifted = self.is_lifted(name);
        self.look(name)?;
        if is_lifted {
            return self.begin(token);
        }
        self.keep(token)
    }

    /// Whether a statement of `main` begins.
    fn at_statement(&self) -> bool
        ensures { result ≡ at_statement (reading_of self.now) }
    {
        self.inside && self.starts && self.depth == 1
    }

    /// The next token, before others.
    fn read(&mut self, token: Token<'a, 'l>, rest: &[Token<'a, 'l>]) -> Result<(), AllocError>
        ensures { OnOk result (reading_of self.new ≡ next (seen token.entry) (seen_all rest.now) (reading_of self.old)) }
    {
        if token.terminal.is_directive() {
            return self.pass(token);
        }
        let ahead = Ahead::new(rest);
        if self.declares {
            return self.declare(token, ahead);
        }
        if self.at_statement() {
            return self.state(token, ahead);
        }
        if !self.inside && begins_main(token, ahead) {
            return self.enter(token);
        }
        self.keep(token)
    }

    /// The same, with what is read in the end.
    fn take(&mut self, token: Token<'a, 'l>, rest: &[Token<'a, 'l>]) -> Result<(), AllocError>
        ensures { OnOk result (with_arrays self.old (seen token.entry ∷ seen_all rest.now) ≡ with_arrays self.new (seen_all rest.now)) }
    {
        self.read(token, rest)
    }
}

/// The tokens with the arrays that `main` declares before it, and with empty blocks where that was.
pub fn lifted<'a, 'l>(
    alloc: Global,
    tokens: &[Token<'a, 'l>],
) -> Result<Vec<Token<'a, 'l>>, AllocError>
    ensures { IfOk result (λ v. seen_all v.items ≡ lifted (seen_all tokens.now)) }
{
    let mut read = Arrays {
        before: Vec::new(alloc),
        arrays: Vec::new(alloc),
        done: Vec::new(alloc),
        inside: false,
        depth: 0,
        starts: false,
        declares: false,
        names: Vec::new(alloc),
    };
    let mut rest = tokens;
    'tokens: while let [token, behind @ ..] = rest {
        read.take(*token, behind)?;
        rest = behind;
    }
    let Arrays {
        before,
        arrays,
        done,
        ..
    } = read;
    let mut all = before;
    all.extend_from_slice(&arrays)?;
    all.extend_from_slice(&done)?;
    Ok(all)
}
