//! A loop with bounds that are understood.

ghost use Rattle.std.specs.Prelude.{◌≡◌, ◌<◌, ◌+◌, [], Some, IfOk};
ghost use Rattle.std.specs.Option.{option_map};
ghost use Rattle.c_grammar.specs.Triangles.{end_of, loop_named, meets};
ghost use Rattle.c_triangles.specs.Blocks.{open_blocks};
ghost use Rattle.c_triangles.specs.Bounds.{seen_bound};
ghost use Rattle.c_triangles.specs.Heads.{seen_parts};
ghost use Rattle.c_triangles.specs.Loops.{loop_within, seen_loop};
ghost use Rattle.c_terminals.specs.Seen.{seen, seen_all};

use crate::blocks::{Blocks, Named, Open};
use crate::bounds::bound_in;
use crate::heads::{Parts, cut, name_in, names, step_in};
use crate::ranges::{Bound, Range};
use crate::steps::Step;
use c_terminals::Token;
use c_tokens::Sign;
use std::alloc::{AllocError, Global};

/// At most so many tokens stand behind the word `for`, up to the brace.
pub const MAX_HEAD: usize = 64;

/// No more blocks may be open before a loop that is written out.
const MAX_OPEN: usize = 16;

#[derive(Clone, Copy)]
pub struct Loop<'a, 'l, 's> {
    pub parts: Parts<'a, 'l, 's>,
    pub name: &'a [u8],
    pub start: Bound,
    pub limit: Bound,
    pub step: Step<'a, 'l, 's>,
    /// The name stays below it.
    pub end: u64,
}

// Whether the name, which begins no later, comes to its limit.
fn meets(start: Bound, limit: Bound, step: u64) -> bool
    requires { 0 < step }
    ensures { result ≡ meets (seen_bound start) (seen_bound limit) step }
{
    if start.range.last() > limit.range.first() {
        return false;
    }
    if step == 1 {
        return true;
    }
    !(start.varies || limit.varies) && (limit.range.last() - start.range.first()) % step == 0
}

// Below which number the name stays.
fn end_of(start: Bound, limit: Bound, step: u64, compares: Token<'_, '_>) -> Option<u64>
    requires { 0 < step }
    ensures { result ≡ end_of (seen_bound start) (seen_bound limit) step (seen compares.entry) }
{
    let less = compares.terminal.is_sign(Sign::Less);
    let differs = compares.terminal.is_sign(Sign::NotEqual) && meets(start, limit, step);
    if less || differs {
        return Some(limit.range.last());
    }
    if compares.terminal.is_sign(Sign::LessEqual) {
        limit.range.last().checked_add(1)
    } else {
        None
    }
}

fn with(len: usize, more: usize) -> Result<usize, AllocError>
    ensures { IfOk result (λ n. n ≡ len + more) }
{
    len.checked_add(more).ok_or(AllocError)
}

impl<'a, 'l, 's> Loop<'a, 'l, 's> {
    ghost use Rattle.std.specs.Prelude.{◌≡◌, IfOk};
    ghost use Rattle.c_grammar.specs.Triangles.{block_of, hull_end, is_guarded, is_written, len, range_of};
    ghost use Rattle.c_triangles.specs.Blocks.{seen_open};
    ghost use Rattle.c_triangles.specs.Bounds.{seen_range};
    ghost use Rattle.c_triangles.specs.Loops.{seen_loop};

    /// The first of the numbers that its name may have.
    pub fn first(self) -> u64
        ensures { result ≡ (seen_loop self.entry).start.range.first }
    {
        self.start.range.first()
    }

    /// By how much its name grows.
    pub fn amount(self) -> u64
        ensures { result ≡ (seen_loop self.entry).step.amount }
    {
        self.step.amount
    }

    /// Whether a name stands in one of the bounds.
    pub fn is_guarded(self) -> bool
        ensures { result ≡ is_guarded (seen_loop self.entry) }
    {
        self.start.varies || self.limit.varies
    }

    /// Whether it is not as it was.
    pub fn is_written(self) -> bool
        ensures { result ≡ is_written (seen_loop self.entry) }
    {
        self.is_guarded() || self.parts.compares.terminal.is_sign(Sign::NotEqual)
    }

    /// Below which number the name stays, where the loop has numbers for bounds.
    pub fn hull_end(self) -> u64
        ensures { result ≡ hull_end (seen_loop self.entry) }
    {
        let first = self.start.range.first();
        if first < self.end { self.end } else { first }
    }

    // The numbers that the name may have.
    fn range(self) -> Range
        ensures { seen_range result ≡ range_of (seen_loop self.entry) }
    {
        let first = self.start.range.first();
        if first < self.end {
            Range::new(first, self.end - 1)
        } else {
            Range::new(first, first)
        }
    }

    /// What its brace opens.
    pub fn block(self) -> Open<'a>
        ensures { seen_open result ≡ block_of (seen_loop self.entry) }
    {
        Open::Named(Named {
            name: self.name,
            range: self.range(),
            guarded: self.is_guarded(),
        })
    }

    /// Of how many tokens the head is, without the word `for`.
    pub fn len(self) -> Result<usize, AllocError>
        ensures { IfOk result (λ n. n ≡ len (seen_loop self.entry)) }
    {
        let len = with(self.parts.front.len(), self.parts.start.len())?;
        let len = with(len, self.parts.middle.len())?;
        let len = with(len, 1)?;
        let len = with(len, self.parts.limit.len())?;
        with(len, self.step.tokens.len())
    }
}

// Of that name.
fn loop_named<'a, 'l, 's>(
    blocks: &Blocks<'a>,
    parts: Parts<'a, 'l, 's>,
    name: &'a [u8],
) -> Option<Loop<'a, 'l, 's>>
    ensures { option_map seen_loop result ≡ loop_named (open_blocks blocks.now) (seen_parts parts.entry) (Some name.now) }
{
    if !names(name, parts.middle) {
        return None;
    }
    let start = bound_in(blocks, parts.start)?;
    let limit = bound_in(blocks, parts.limit)?;
    let step = step_in(name, parts.back)?;
    let end = end_of(start, limit, step.amount, parts.compares)?;
    if start.varies && step.amount != 1 {
        return None;
    }
    Some(Loop {
        parts,
        name,
        start,
        limit,
        step,
        end,
    })
}

/// The loop whose head these tokens begin.
pub fn loop_of<'a, 'l, 's>(
    blocks: &Blocks<'a>,
    tokens: &'s [Token<'a, 'l>],
) -> Option<Loop<'a, 'l, 's>>
    ensures { option_map seen_loop result ≡ loop_within (open_blocks blocks.now) (seen_all tokens.now) }
{
    if blocks.len() >= MAX_OPEN {
        return None;
    }
    let parts = cut(tokens)?;
    let name = name_in(parts.front)?;
    loop_named(blocks, parts, name)
}

/// The same, where both bounds are numbers.
pub fn plain_loop<'a, 'l, 's>(
    alloc: Global,
    tokens: &'s [Token<'a, 'l>],
) -> Option<Loop<'a, 'l, 's>>
    ensures { option_map seen_loop result ≡ loop_within [] (seen_all tokens.now) }
{
    loop_of(&Blocks::new(alloc), tokens)
}
