//! Which scalars are boxed: those of `main` that stand in the list of a clause.

ghost use Rattle.std.specs.Prelude.{◌≡◌, [], not, ◌&&◌, IfOk, OnOk, false};
ghost use Rattle.c_grammar.specs.Blocks.{bare};
ghost use Rattle.c_grammar.specs.Boxes.{all_listed, boxes_of, ends_name, found, listed_on, nothing_found, only};
ghost use Rattle.c_grammar.specs.Constants.{depth_behind};
ghost use Rattle.c_terminals.specs.Ahead.{ahead};
ghost use Rattle.c_written.specs.Boxes.{seen_found, texts};
ghost use Rattle.c_terminals.specs.Seen.{seen, seen_all, seen_terminal};

use crate::box_lists::add_listed;
use c_terminals::{Ahead, Names, Terminal, Token};
use c_tokens::Sign;
use directives::Word;
use std::alloc::{AllocError, Global};

/// The scalars that `main` declares, and the other names that are declared.
#[derive(Drop)]
pub struct Found<'a> {
    pub locals: Names<'a>,
    pub others: Names<'a>,
}

// Whether a scalar's name ends there.
fn ends_name(rest: Ahead<'_, '_, '_>) -> bool
    ensures { result ≡ ends_name (ahead rest.entry) }
{
    let mut ahead = rest;
    match ahead.next() {
        Some(next) => next.terminal.is_sign(Sign::Equal) || next.terminal.is_sign(Sign::Semicolon),
        None => false,
    }
}

pub fn depth_behind(token: Token<'_, '_>, depth: usize) -> Result<usize, AllocError>
    ensures { IfOk result (λ d. d ≡ depth_behind (seen token.entry).terminal depth) }
{
    if token.terminal.is_sign(Sign::OpenBrace) {
        return depth.checked_add(1).ok_or(AllocError);
    }
    if token.terminal.is_sign(Sign::CloseBrace) {
        return Ok(depth.saturating_sub(1));
    }
    Ok(depth)
}

impl<'a> Found<'a> {
    ghost use Rattle.std.specs.Prelude.{◌≡◌, not, ◌&&◌, OnOk};
    ghost use Rattle.std.specs.Prelude.{◌==◌};
    ghost use Rattle.c_grammar.specs.Boxes.{declared_at, declared_name, with_declared, nothing_found};
    ghost use Rattle.c_grammar.specs.LineRules.{is_among};
    ghost use Rattle.c_terminals.specs.Ahead.{ahead};
    ghost use Rattle.c_written.specs.Boxes.{seen_found};
    ghost use Rattle.c_terminals.specs.Names.{seen_names};
    ghost use Rattle.c_terminals.specs.Seen.{seen, seen_terminal};

    fn new(alloc: Global) -> Found<'a>
        ensures { seen_found result ≡ nothing_found }
    {
        Found {
            locals: Names::new(alloc),
            others: Names::new(alloc),
        }
    }

    // A name behind a type, which may be one of a scalar that is boxed or not.
    fn note(
        &mut self,
        may: bool,
        terminal: Terminal<'a, '_>,
        rest: Ahead<'a, '_, '_>,
    ) -> Result<(), AllocError>
        ensures { OnOk result (seen_found self.new ≡
            with_declared (declared_name may (seen_terminal terminal.entry) (ahead rest.entry)) (seen_found self.old)) }
    {
        if let Terminal::Name(name) = terminal {
            if may && ends_name(rest) {
                self.locals.declare(name)?;
            } else {
                self.others.declare(name)?;
            }
        }
        Ok(())
    }

    /// A token with those behind it, in so many blocks, and behind a bracket or not.
    fn read(
        &mut self,
        depth: usize,
        bracket: bool,
        token: Token<'a, '_>,
        rest: Ahead<'a, '_, '_>,
    ) -> Result<(), AllocError>
        ensures { OnOk result (seen_found self.new ≡
            with_declared (declared_at depth bracket (seen token.entry) (ahead rest.entry)) (seen_found self.old)) }
    {
        let mut ahead = rest;
        let Some(name) = ahead.next() else {
            return Ok(());
        };
        if !token.terminal.is_word(Word::Uint64) {
            return Ok(());
        }
        self.note(depth != 0 && !bracket, name.terminal, ahead)
    }

    /// Whether the name is one of a scalar of `main`, and of nothing else.
    fn is_box(&self, name: &[u8]) -> bool
        ensures { result ≡ (is_among (seen_found self.now).locals name.now && not (is_among (seen_found self.now).others name.now)) }
    {
        self.locals.contains(name) && !self.others.contains(name)
    }
}

// What is declared by these tokens.
fn scanned<'a>(alloc: Global, tokens: &[Token<'a, '_>]) -> Result<Found<'a>, AllocError>
    ensures { IfOk result (λ f. seen_found f ≡ found 0 false nothing_found (bare (seen_all tokens.now))) }
{
    let mut found = Found::new(alloc);
    let mut depth = 0usize;
    let mut bracket = false;
    let mut ahead = Ahead::new(tokens);
    'tokens: while let Some(token) = ahead.next() {
        found.read(depth, bracket, token, ahead)?;
        depth = depth_behind(token, depth)?;
        bracket = token.terminal.is_sign(Sign::OpenParen);
    }
    Ok(found)
}

// The names in the lists of all clauses.
fn all_listed<'a>(alloc: Global, tokens: &[Token<'a, '_>]) -> Result<Vec<&'a [u8]>, AllocError>
    ensures { IfOk result (λ v. texts v.items ≡ all_listed (seen_all tokens.now) []) }
{
    let mut names = Vec::new(alloc);
    let mut rest = tokens;
    'tokens: while let [token, behind @ ..] = rest {
        rest = behind;
        add_listed_on(&mut names, token.terminal)?;
    }
    Ok(names)
}

fn add_listed_on<'a>(
    names: &mut Vec<&'a [u8]>,
    terminal: Terminal<'a, '_>,
) -> Result<(), AllocError>
    ensures { OnOk result (texts names.new.items ≡ listed_on (seen_terminal terminal.entry) (texts names.old.items)) }
{
    if let Terminal::Line(line) = terminal {
        if terminal.is_directive() {
            return add_listed(names, line.tokens());
        }
    }
    Ok(())
}

// Those of the names that are boxed.
fn only<'a>(
    alloc: Global,
    found: &Found<'a>,
    names: &[&'a [u8]],
) -> Result<Vec<&'a [u8]>, AllocError>
    ensures { IfOk result (λ v. texts v.items ≡ only (seen_found found.now) (texts names.now)) }
{
    let mut boxes = Vec::new(alloc);
    let mut rest = names;
    'names: while let [name, behind @ ..] = rest {
        rest = behind;
        if found.is_box(name) {
            boxes.push(*name)?;
        }
    }
    Ok(boxes)
}

/// The names of the boxed scalars.
pub fn boxes_of<'a>(alloc: Global, tokens: &[Token<'a, '_>]) -> Result<Vec<&'a [u8]>, AllocError>
    ensures { IfOk result (λ v. texts v.items ≡ boxes_of (seen_all tokens.now)) }
{
    let listed = all_listed(alloc, tokens)?;
    let found = scanned(alloc, tokens)?;
    only(alloc, &found, &listed)
}
