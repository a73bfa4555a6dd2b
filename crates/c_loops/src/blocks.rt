//! The open blocks.

ghost use Rattle.std.specs.Prelude.{◌≡◌};

use std::alloc::{AllocError, Global};

/// An open block.
#[derive(Clone, Copy)]
pub enum Open {
    /// With how many braces are put before the one that closes it.
    Plain(usize),
    /// That of a loop, with these.
    Turn(usize),
    /// The branch of an `if` in the block of a loop.
    Branch,
    /// Such a branch that `continue` has left.
    Left,
}

/// The open blocks, the innermost last.
#[derive(Drop)]
pub struct Blocks {
    items: Vec<Open>,
}

impl Blocks {
    ghost use Rattle.std.specs.Prelude.{◌≡◌, ◌∷◌, [], drop, length, MatchOption, OnOk};
    ghost use Rattle.c_grammar.specs.Loops.{closed, closing, is_branch, is_turn, left, one_more};
    ghost use Rattle.c_loops.specs.Blocks.{open_blocks, seen_open};

    pub fn new(alloc: Global) -> Blocks
        ensures { open_blocks result ≡ [] }
    {
        Blocks {
            items: Vec::new(alloc),
        }
    }

    #[tactic(auto, using(crate::proofs::Innermost::pushed))]
    pub fn push(&mut self, block: Open) -> Result<(), AllocError>
        ensures { OnOk result (open_blocks self.new ≡ seen_open block ∷ open_blocks self.old) }
    {
        self.items.push(block)?;
        Ok(())
    }

    #[tactic(auto, using(crate::proofs::Innermost::pushed))]
    pub fn pop(&mut self) -> Option<Open>
        ensures { MatchOption result ((open_blocks self.old ≡ []) × (open_blocks self.new ≡ [])) (λ o. open_blocks self.old ≡ seen_open o ∷ open_blocks self.new) }
    {
        self.items.pop()
    }

    pub fn len(&self) -> usize
        ensures { result ≡ length (open_blocks self.now) }
    {
        self.items.len()
    }

    /// The innermost block.
    #[tactic(auto, using(crate::proofs::Innermost::innermost))]
    pub fn innermost(&self) -> Option<Open>
        ensures { MatchOption result (open_blocks self.now ≡ []) (λ o. open_blocks self.now ≡ seen_open o ∷ drop 1 (open_blocks self.now)) }
    {
        self.items.last().copied()
    }

    /// Whether it is that of a loop.
    #[tactic(auto, using(crate::proofs::Innermost::turn_of))]
    pub fn is_turn(&self) -> bool
        ensures { result ≡ is_turn (open_blocks self.now) }
    {
        match self.innermost() {
            Some(Open::Turn(_)) => true,
            _ => false,
        }
    }

    /// Whether it is a branch in one.
    #[tactic(auto, using(crate::proofs::Innermost::branch_of))]
    pub fn is_branch(&self) -> bool
        ensures { result ≡ is_branch (open_blocks self.now) }
    {
        match self.innermost() {
            Some(Open::Branch) => true,
            _ => false,
        }
    }

    // One brace more is put before the one that closes the block of a loop.
    fn one_more(&mut self) -> Result<(), AllocError>
        ensures { OnOk result (open_blocks self.new ≡ one_more (open_blocks self.old)) }
    {
        match self.pop() {
            Some(Open::Turn(braces)) => self.push(Open::Turn(
                braces.checked_add(1).ok_or(AllocError)?,
            )),
            Some(open) => self.push(open),
            None => Ok(()),
        }
    }

    /// Closes the innermost block.
    pub fn close(&mut self) -> Result<(), AllocError>
        ensures { OnOk result (open_blocks self.new ≡ closed (open_blocks self.old)) }
    {
        match self.pop() {
            Some(Open::Left) => self.one_more(),
            _ => Ok(()),
        }
    }

    /// Leaves the innermost branch.
    pub fn leave(&mut self) -> Result<(), AllocError>
        ensures { OnOk result (open_blocks self.new ≡ left (open_blocks self.old)) }
    {
        match self.pop() {
            Some(_) => self.push(Open::Left),
            None => Ok(()),
        }
    }
}
