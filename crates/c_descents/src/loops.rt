//! A loop that counts down, and what stands for it.

ghost use Rattle.std.specs.Prelude.{◌≡◌, ◌++◌, ◌+◌, IfOk, OnOk, Some};
ghost use Rattle.std.specs.Option.{option_map};
ghost use Rattle.c_grammar.specs.Descents.{head, is_descent, len, loop_named, loop_with, one_more, parts_of, stands, step, upward_step};
ghost use Rattle.c_descents.specs.Blocks.{open_blocks};
ghost use Rattle.c_descents.specs.Heads.{seen_parts};
ghost use Rattle.c_descents.specs.Loops.{loop_within, seen_loop, upward_steps};
ghost use Rattle.c_descents.specs.Parts.{all_parts};
ghost use Rattle.c_terminals.specs.Seen.{seen, seen_all};

use crate::blocks::Blocks;
use crate::bounds::{ends, is_bound};
use crate::heads::{Parts, counts_down, cut, name_in, names, small_in};
use crate::parts::Part;
use crate::sums::put_all;
use c_terminals::{Terminal, Token};
use c_tokens::Sign;
use std::alloc::{AllocError, Global};

/// At most so many tokens stand behind the word `for`, up to the brace, and in both bounds with what stands for names.
pub const MAX_HEAD: usize = 64;

/// No more blocks may be open before such a loop.
const MAX_OPEN: usize = 16;

#[derive(Drop)]
pub struct Loop<'a, 'l, 's> {
    pub parts: Parts<'a, 'l, 's>,
    pub name: &'a [u8],
    /// The name is an `int`.
    pub small: bool,
    /// From which number on it counts up.
    pub first: Vec<Token<'a, 'l>>,
    /// Up to which number.
    pub last: Vec<Token<'a, 'l>>,
}

// Whether the parts are those of a loop that counts down.
fn is_descent(blocks: &Blocks<'_>, parts: Parts<'_, '_, '_>, name: &[u8], small: bool) -> bool
    ensures { result ≡ is_descent (open_blocks blocks.now) (seen_parts parts.entry) name.now small }
{
    names(name, parts.middle)
        && is_bound(name, parts.start)
        && is_bound(name, parts.limit)
        && counts_down(name, parts.back)
        && ends(blocks, small, parts.compares, parts.limit)
}

// `+ 1`, where the name stays above its limit.
fn put_one_more<'a, 'l>(
    done: &mut Vec<Token<'a, 'l>>,
    compares: Token<'a, 'l>,
) -> Result<(), AllocError>
    ensures { OnOk result (seen_all done.new.items ≡ seen_all done.old.items ++ one_more (seen compares.entry)) }
{
    if compares.terminal.is_sign(Sign::Greater) {
        done.push(compares.at(Terminal::Sign(Sign::Plus)))?;
        done.push(compares.at(Terminal::Number(1)))?;
    }
    Ok(())
}

// The loop, where the two have no more tokens than they may.
fn loop_with<'a, 'l, 's>(
    parts: Parts<'a, 'l, 's>,
    name: &'a [u8],
    small: bool,
    first: Vec<Token<'a, 'l>>,
    last: Vec<Token<'a, 'l>>,
) -> Option<Loop<'a, 'l, 's>>
    ensures { option_map seen_loop result ≡
        loop_with (seen_parts parts.entry) name.now small (seen_all first.entry.items) (seen_all last.entry.items) }
{
    if first.len() > MAX_HEAD || last.len() > MAX_HEAD - first.len() {
        return None;
    }
    Some(Loop {
        parts,
        name,
        small,
        first,
        last,
    })
}

// Of that name.
fn loop_named<'a, 'l, 's>(
    alloc: Global,
    blocks: &Blocks<'a>,
    parts: Parts<'a, 'l, 's>,
    small: bool,
    name: &'a [u8],
) -> Result<Option<Loop<'a, 'l, 's>>, AllocError>
    ensures { IfOk result (λ o. option_map seen_loop o ≡
        loop_named (open_blocks blocks.now) (seen_parts parts.entry) small (Some name.now)) }
{
    if !is_descent(blocks, parts, name, small) {
        return Ok(None);
    }
    let mut first = Vec::new(alloc);
    put_all(&mut first, blocks, parts.limit)?;
    put_one_more(&mut first, parts.compares)?;
    let mut last = Vec::new(alloc);
    put_all(&mut last, blocks, parts.start)?;
    Ok(loop_with(parts, name, small, first, last))
}

/// The loop whose head these tokens begin.
pub fn loop_of<'a, 'l, 's>(
    alloc: Global,
    blocks: &Blocks<'a>,
    tokens: &'s [Token<'a, 'l>],
) -> Result<Option<Loop<'a, 'l, 's>>, AllocError>
    ensures { IfOk result (λ o. option_map seen_loop o ≡ loop_within (open_blocks blocks.now) (seen_all tokens.now)) }
{
    if blocks.len() >= MAX_OPEN {
        return Ok(None);
    }
    let Some(parts) = cut(tokens) else {
        return Ok(None);
    };
    match name_in(parts.front) {
        Some(name) => loop_named(alloc, blocks, parts, small_in(parts.front), name),
        None => Ok(None),
    }
}

fn upward_step<'a, 'l>(token: Token<'a, 'l>) -> Token<'a, 'l>
    ensures { seen result ≡ upward_step (seen token.entry) }
{
    if token.terminal.is_sign(Sign::MinusMinus) {
        token.at(Terminal::Sign(Sign::PlusPlus))
    } else {
        token
    }
}

// The tokens of the step.
fn put_steps<'a, 'l>(
    done: &mut Vec<Token<'a, 'l>>,
    tokens: &[Token<'a, 'l>],
) -> Result<(), AllocError>
    ensures { OnOk result (seen_all done.new.items ≡ seen_all done.old.items ++ upward_steps (seen_all tokens.now)) }
{
    let mut rest = tokens;
    'tokens: while let [token, behind @ ..] = rest {
        done.push(upward_step(*token))?;
        rest = behind;
    }
    Ok(())
}

// The parts of what stands for the name, by the tokens of a bound.
fn put_parts<'a>(done: &mut Vec<Part<'a>>, tokens: &[Token<'a, '_>]) -> Result<(), AllocError>
    ensures { OnOk result (all_parts done.new.items ≡ all_parts done.old.items ++ parts_of (seen_all tokens.now)) }
{
    let mut rest = tokens;
    'tokens: while let [token, behind @ ..] = rest {
        done.push(Part::of(token.terminal))?;
        rest = behind;
    }
    Ok(())
}

fn with(len: usize, more: usize) -> Result<usize, AllocError>
    ensures { IfOk result (λ n. n ≡ len + more) }
{
    len.checked_add(more).ok_or(AllocError)
}

impl<'a, 'l, 's> Loop<'a, 'l, 's> {
    ghost use Rattle.std.specs.Prelude.{◌≡◌, ◌++◌, IfOk, OnOk};
    ghost use Rattle.c_grammar.specs.Descents.{head, len, stands, step};
    ghost use Rattle.c_descents.specs.Loops.{back_of, front_of, seen_loop};
    ghost use Rattle.c_descents.specs.Parts.{all_parts};
    ghost use Rattle.c_terminals.specs.Seen.{seen_all};

    /// Of how many tokens its head was, without the word `for`.
    pub fn len(&self) -> Result<usize, AllocError>
        ensures { IfOk result (λ n. n ≡ len (seen_loop self.now)) }
    {
        let len = with(self.parts.front.len(), self.parts.start.len())?;
        let len = with(len, self.parts.middle.len())?;
        let len = with(len, 1)?;
        let len = with(len, self.parts.limit.len())?;
        with(len, 5)
    }

    /// What stands for the name.
    pub fn stands(&self, alloc: Global) -> Result<Vec<Part<'a>>, AllocError>
        ensures { IfOk result (λ v. all_parts v.items ≡ stands (seen_loop self.now)) }
    {
        let mut parts = Vec::new(alloc);
        put_parts(&mut parts, &self.first)?;
        parts.push(Part::Sign(Sign::Plus))?;
        put_parts(&mut parts, &self.last)?;
        parts.push(Part::Sign(Sign::Minus))?;
        parts.push(Part::Name(self.name))?;
        Ok(parts)
    }

    // The step, with the bracket and the brace.
    fn put_step(&self, done: &mut Vec<Token<'a, 'l>>) -> Result<(), AllocError>
        ensures { OnOk result (seen_all done.new.items ≡ seen_all done.old.items ++ step (seen_loop self.now)) }
    {
        let len = self.parts.back.len().min(5);
        put_steps(done, &self.parts.back[..len])
    }

    // `( TYPE NAME =`, the first number and `; NAME`.
    fn put_front(&self, done: &mut Vec<Token<'a, 'l>>) -> Result<(), AllocError>
        ensures { OnOk result (seen_all done.new.items ≡ seen_all done.old.items ++ front_of (seen_loop self.now)) }
    {
        done.extend_from_slice(self.parts.front)?;
        done.extend_from_slice(&self.first)?;
        done.extend_from_slice(self.parts.middle)?;
        Ok(())
    }

    // `<=`, the last number and the step.
    fn put_back(&self, done: &mut Vec<Token<'a, 'l>>) -> Result<(), AllocError>
        ensures { OnOk result (seen_all done.new.items ≡ seen_all done.old.items ++ back_of (seen_loop self.now)) }
    {
        done.push(self.parts.compares.at(Terminal::Sign(Sign::LessEqual)))?;
        done.extend_from_slice(&self.last)?;
        self.put_step(done)?;
        Ok(())
    }

    /// The head with which it counts up.
    pub fn put_head(&self, done: &mut Vec<Token<'a, 'l>>) -> Result<(), AllocError>
        ensures { OnOk result (seen_all done.new.items ≡ seen_all done.old.items ++ head (seen_loop self.now)) }
    {
        self.put_front(done)?;
        self.put_back(done)?;
        Ok(())
    }
}
