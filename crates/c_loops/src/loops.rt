//! The pass over all tokens.

ghost use Rattle.std.specs.Prelude.{◌≡◌, ◌++◌, IfOk, OnOk};
ghost use Rattle.c_grammar.specs.Blocks.{braces_at};
ghost use Rattle.c_grammar.specs.Loops.{closing, ends_branch, head_at, looped, turn_name};
ghost use Rattle.c_loops.specs.Blocks.{open_blocks};
ghost use Rattle.c_loops.specs.Heads.{first_at, step_at, test_at};
ghost use Rattle.c_terminals.specs.Ahead.{ahead};
ghost use Rattle.c_terminals.specs.Seen.{seen, seen_all};

use crate::blocks::{Blocks, Open};
use crate::bounds::Limit;
use crate::growth::{bounded, is_continue};
use c_choices::is_boundary;
use c_terminals::{Ahead, Terminal, Token};
use c_tokens::Sign;
use directives::Word;
use std::alloc::{AllocError, Global};

/// A name that no source can spell, the longer the more blocks are open.
fn turn_name(blocks: &Blocks) -> &'static [u8]
    ensures { result.now ≡ turn_name (open_blocks blocks.now) }
{
    let names: &'static [u8] = b"while''''''''''''''''''''".as_slice();
    let len = blocks.len().saturating_add(5).min(names.len());
    &names[..len]
}

// `for (uint64_t NAME = 0;`
fn put_first<'a, 'l>(
    done: &mut Vec<Token<'a, 'l>>,
    token: Token<'a, 'l>,
    name: &'a [u8],
) -> Result<(), AllocError>
    ensures { OnOk result (seen_all done.new.items ≡ seen_all done.old.items ++ first_at (seen token.entry) name.now) }
{
    done.push(token.at(Terminal::Word(Word::For)))?;
    done.push(token.at(Terminal::Sign(Sign::OpenParen)))?;
    done.push(token.at(Terminal::Word(Word::Uint64)))?;
    done.push(token.at(Terminal::Name(name)))?;
    done.push(token.at(Terminal::Sign(Sign::Equal)))?;
    done.push(token.at(Terminal::Number(0)))?;
    done.push(token.at(Terminal::Sign(Sign::Semicolon)))?;
    Ok(())
}

// `NAME < NUM;`
fn put_test<'a, 'l>(
    done: &mut Vec<Token<'a, 'l>>,
    token: Token<'a, 'l>,
    name: &'a [u8],
    most: u64,
) -> Result<(), AllocError>
    ensures { OnOk result (seen_all done.new.items ≡ seen_all done.old.items ++ test_at (seen token.entry) name.now most) }
{
    done.push(token.at(Terminal::Name(name)))?;
    done.push(token.at(Terminal::Sign(Sign::Less)))?;
    done.push(token.at(Terminal::Number(most)))?;
    done.push(token.at(Terminal::Sign(Sign::Semicolon)))?;
    Ok(())
}

// `NAME += 1) { if`
fn put_step<'a, 'l>(
    done: &mut Vec<Token<'a, 'l>>,
    token: Token<'a, 'l>,
    name: &'a [u8],
) -> Result<(), AllocError>
    ensures { OnOk result (seen_all done.new.items ≡ seen_all done.old.items ++ step_at (seen token.entry) name.now) }
{
    done.push(token.at(Terminal::Name(name)))?;
    done.push(token.at(Terminal::Sign(Sign::PlusEqual)))?;
    done.push(token.at(Terminal::Number(1)))?;
    done.push(token.at(Terminal::Sign(Sign::CloseParen)))?;
    done.push(token.at(Terminal::Sign(Sign::OpenBrace)))?;
    done.push(token.at(Terminal::Word(Word::If)))?;
    Ok(())
}

// `for (uint64_t NAME = 0; NAME < NUM; NAME += 1) { if`
fn put_head<'a, 'l>(
    done: &mut Vec<Token<'a, 'l>>,
    token: Token<'a, 'l>,
    name: &'a [u8],
    most: u64,
) -> Result<(), AllocError>
    ensures { OnOk result (seen_all done.new.items ≡ seen_all done.old.items ++ head_at (seen token.entry) name.now most) }
{
    put_first(done, token, name)?;
    put_test(done, token, name, most)?;
    put_step(done, token, name)?;
    Ok(())
}

// So many braces.
fn put_braces<'a, 'l>(
    done: &mut Vec<Token<'a, 'l>>,
    token: Token<'a, 'l>,
    count: usize,
) -> Result<(), AllocError>
    ensures { OnOk result (seen_all done.new.items ≡ seen_all done.old.items ++ braces_at count (seen token.entry)) }
{
    let mut left = count;
    'braces: while left > 0 {
        done.push(token.at(Terminal::Sign(Sign::CloseBrace)))?;
        left -= 1;
    }
    Ok(())
}

// The brace that closes the innermost block, and what stands with it.
fn put_closing<'a, 'l>(
    done: &mut Vec<Token<'a, 'l>>,
    blocks: &Blocks,
    token: Token<'a, 'l>,
) -> Result<(), AllocError>
    ensures { OnOk result (seen_all done.new.items ≡ seen_all done.old.items ++ closing (open_blocks blocks.now) (seen token.entry)) }
{
    match blocks.innermost() {
        Some(Open::Plain(braces)) | Some(Open::Turn(braces)) => {
            put_braces(done, token, braces)?;
            done.push(token)?;
        }
        Some(Open::Left) => {
            done.push(token)?;
            done.push(token.at(Terminal::Word(Word::Else)))?;
            done.push(token.at(Terminal::Sign(Sign::OpenBrace)))?;
        }
        Some(Open::Branch) | None => done.push(token)?,
    }
    Ok(())
}

// `; }` without an `else`.
fn ends_branch(rest: Ahead<'_, '_, '_>) -> bool
    ensures { result ≡ ends_branch (ahead rest.entry) }
{
    let mut ahead = rest;
    let Some(end) = ahead.next() else {
        return false;
    };
    let Some(close) = ahead.next() else {
        return false;
    };
    if !end.terminal.is_sign(Sign::Semicolon) || !close.terminal.is_sign(Sign::CloseBrace) {
        return false;
    }
    match ahead.next() {
        Some(next) => !next.terminal.is_word(Word::Else),
        None => true,
    }
}

/// The tokens so far.
#[derive(Drop)]
struct Loops<'a, 'l> {
    done: Vec<Token<'a, 'l>>,
    blocks: Blocks,
    /// What the next brace opens.
    next: Open,
    /// A statement begins.
    starts: bool,
    /// How many tokens are still to be left out.
    left: usize,
}

impl<'a, 'l> Loops<'a, 'l> {
    ghost use Rattle.std.specs.Prelude.{◌≡◌, ◌∷◌, None, IfOk, OnOk};
    ghost use Rattle.std.specs.Option.{option_map};
    ghost use Rattle.c_grammar.specs.Blocks.{bare};
    ghost use Rattle.c_grammar.specs.Loops.{behind, leaves, loop_at, next_behind};
    ghost use Rattle.c_loops.specs.Blocks.{seen_open};
    ghost use Rattle.c_loops.specs.Limits.{seen_limit};
    ghost use Rattle.c_loops.specs.State.{IsBehind, put_with, seen_state, with_loops};
    ghost use Rattle.c_terminals.specs.Ahead.{ahead};
    ghost use Rattle.c_terminals.specs.Seen.{seen, seen_all};

    // What the next brace opens behind a token that is no brace.
    fn next_behind(&self, token: Token<'a, 'l>) -> Open
        ensures { seen_open result ≡ next_behind (seen_state self.now) (seen token.entry) }
    {
        if token.terminal.is_word(Word::For) {
            return Open::Turn(0);
        }
        if token.terminal.is_word(Word::If) {
            if self.starts && self.blocks.is_turn() {
                return Open::Branch;
            }
            return Open::Plain(0);
        }
        self.next
    }

    /// Goes behind a token.
    fn go_behind(&mut self, token: Token<'a, 'l>) -> Result<(), AllocError>
        ensures { OnOk result (IsBehind self.old (behind (seen_state self.old) (seen token.entry)) self.new) }
    {
        if token.terminal.is_sign(Sign::OpenBrace) {
            self.blocks.push(self.next)?;
            self.next = Open::Plain(0);
            self.starts = true;
            return Ok(());
        }
        if token.terminal.is_sign(Sign::CloseBrace) {
            self.blocks.close()?;
            self.next = Open::Plain(0);
            self.starts = true;
            return Ok(());
        }
        self.next = self.next_behind(token);
        self.starts = is_boundary(token.terminal);
        Ok(())
    }

    fn leaves(&self, token: Token<'a, 'l>, rest: Ahead<'a, 'l, '_>) -> bool
        ensures { result ≡ leaves (seen_state self.now) (seen token.entry) (ahead rest.entry) }
    {
        self.starts && self.blocks.is_branch() && is_continue(token) && ends_branch(rest)
    }

    /// The bound of a loop that begins.
    fn loop_at(
        &self,
        alloc: Global,
        token: Token<'a, 'l>,
        rest: Ahead<'a, 'l, '_>,
    ) -> Result<Option<Limit<'a>>, AllocError>
        ensures { IfOk result (λ o. option_map seen_limit o ≡ loop_at (seen_state self.now) (seen token.entry) (ahead rest.entry)) }
    {
        if self.starts && token.terminal.is_named(b"while".as_slice()) {
            bounded(alloc, rest)
        } else {
            Ok(None)
        }
    }

    // A token where no loop begins.
    fn put(&mut self, token: Token<'a, 'l>, rest: &[Token<'a, 'l>]) -> Result<(), AllocError>
        requires { self.now.left ≡ 0 }
        ensures { OnOk result (put_with self.old (seen token.entry) (bare (seen_all rest.now)) (seen_all rest.now) ≡
            with_loops self.new (seen_all rest.now)) }
    {
        if self.leaves(token, Ahead::new(rest)) {
            self.blocks.leave()?;
            self.next = Open::Plain(0);
            self.starts = true;
            self.left = 1;
            return Ok(());
        }
        if token.terminal.is_sign(Sign::CloseBrace) {
            put_closing(&mut self.done, &self.blocks, token)?;
        } else {
            self.done.push(token)?;
        }
        self.go_behind(token)
    }

    /// The next token, before others.
    fn take(
        &mut self,
        alloc: Global,
        token: Token<'a, 'l>,
        rest: &[Token<'a, 'l>],
    ) -> Result<(), AllocError>
        ensures { OnOk result (with_loops self.old (seen token.entry ∷ seen_all rest.now) ≡
            with_loops self.new (seen_all rest.now)) }
    {
        if token.terminal.is_directive() {
            self.done.push(token)?;
            return Ok(());
        }
        if self.left > 0 {
            self.left -= 1;
            return Ok(());
        }
        if let Some(limit) = self.loop_at(alloc, token, Ahead::new(rest))? {
            put_head(&mut self.done, token, turn_name(&self.blocks), limit.most)?;
            self.next = Open::Plain(1);
            self.starts = false;
            return Ok(());
        }
        self.put(token, rest)
    }
}

/// The tokens with loops that end by a condition as loops with a number of turns, and without `continue`.
pub fn looped<'a, 'l>(
    alloc: Global,
    tokens: &[Token<'a, 'l>],
) -> Result<Vec<Token<'a, 'l>>, AllocError>
    ensures { IfOk result (λ v. seen_all v.items ≡ looped (seen_all tokens.now)) }
{
    let mut loops = Loops {
        done: Vec::new(alloc),
        blocks: Blocks::new(alloc),
        next: Open::Plain(0),
        starts: false,
        left: 0,
    };
    let mut rest = tokens;
    'tokens: while let [token, behind @ ..] = rest {
        loops.take(alloc, *token, behind)?;
        rest = behind;
    }
    Ok(loops.done)
}
