//! The open blocks.

ghost use Rattle.std.specs.Prelude.{◌≡◌};
ghost use Rattle.std.specs.Option.{option_map};
ghost use Rattle.c_grammar.specs.Triangles.{range_in};
ghost use Rattle.c_triangles.specs.Blocks.{blocks_of};
ghost use Rattle.c_triangles.specs.Bounds.{seen_range};

use crate::ranges::Range;
use std::alloc::{AllocError, Global};

/// A loop that is understood.
#[derive(Clone, Copy)]
pub struct Named<'a> {
    pub name: &'a [u8],
    /// The numbers that its name may have.
    pub range: Range,
    /// An `if` stands in its block.
    pub guarded: bool,
}

/// An open block.
#[derive(Clone, Copy)]
pub enum Open<'a> {
    Plain,
    /// That of such a loop.
    Named(Named<'a>),
}

/// The open blocks, the innermost last.
#[derive(Drop)]
pub struct Blocks<'a> {
    items: Vec<Open<'a>>,
}

impl<'a> Blocks<'a> {
    ghost use Rattle.std.specs.Prelude.{◌≡◌, ◌∷◌, [], drop, length, MatchOption, OnOk};
    ghost use Rattle.std.specs.Option.{option_map};
    ghost use Rattle.c_grammar.specs.Triangles.{range_in};
    ghost use Rattle.c_triangles.specs.Blocks.{is_guarded, open_blocks, seen_open};
    ghost use Rattle.c_triangles.specs.Bounds.{seen_range};

    pub fn new(alloc: Global) -> Blocks<'a>
        ensures { open_blocks result ≡ [] }
    {
        Blocks {
            items: Vec::new(alloc),
        }
    }

    #[tactic(auto, using(crate::proofs::Innermost::pushed))]
    pub fn push(&mut self, block: Open<'a>) -> Result<(), AllocError>
        ensures { OnOk result (open_blocks self.new ≡ seen_open block.entry ∷ open_blocks self.old) }
    {
        self.items.push(block)?;
        Ok(())
    }

    #[tactic(auto, using(crate::proofs::Innermost::pushed))]
    fn pop(&mut self) -> Option<Open<'a>>
        ensures { MatchOption result ((open_blocks self.old ≡ []) × (open_blocks self.new ≡ [])) (λ o. open_blocks self.old ≡ seen_open o ∷ open_blocks self.new) }
    {
        self.items.pop()
    }

    /// Closes the innermost block.
    pub fn close(&mut self)
        ensures { open_blocks self.new ≡ drop 1 (open_blocks self.old) }
    {
        match self.pop() {
            Some(_) | None => (),
        }
    }

    pub fn len(&self) -> usize
        ensures { result ≡ length (open_blocks self.now) }
    {
        self.items.len()
    }

    #[tactic(auto, using(crate::proofs::Innermost::innermost))]
    fn innermost(&self) -> Option<Open<'a>>
        ensures { MatchOption result (open_blocks self.now ≡ []) (λ o. open_blocks self.now ≡ seen_open o ∷ drop 1 (open_blocks self.now)) }
    {
        self.items.last().copied()
    }

    /// Whether an `if` stands in the innermost block.
    #[tactic(auto, using(crate::proofs::Innermost::guarded_of))]
    pub fn is_guarded(&self) -> bool
        ensures { result ≡ is_guarded (open_blocks self.now) }
    {
        match self.innermost() {
            Some(Open::Named(named)) => named.guarded,
            _ => false,
        }
    }

    /// The numbers of the innermost loop of that name.
    pub fn range_of(&self, name: &[u8]) -> Option<Range>
        ensures { option_map seen_range result ≡ range_in (open_blocks self.now) name.now }
    {
        range_among(&self.items, name)
    }
}

#[tactic(auto, using(crate::proofs::Innermost::fewer))]
fn range_among(blocks: &[Open<'_>], name: &[u8]) -> Option<Range>
    ensures { option_map seen_range result ≡ range_in (blocks_of blocks.now) name.now }
{
    let mut rest = blocks;
    'open: while let [around @ .., open] = rest {
        if let Open::Named(named) = open {
            if named.name == name {
                return Some(named.range);
            }
        }
        rest = around;
    }
    None
}
