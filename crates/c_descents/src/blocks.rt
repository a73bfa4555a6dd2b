//! The open blocks.

ghost use Rattle.std.specs.Prelude.{◌≡◌};
ghost use Rattle.std.specs.Option.{option_map};
ghost use Rattle.c_grammar.specs.Descents.{is_small, stands_in};
ghost use Rattle.c_descents.specs.Blocks.{blocks_of};
ghost use Rattle.c_descents.specs.Parts.{all_parts};

use crate::parts::Part;
use c_terminals::Terminal;
use std::alloc::{AllocError, Global};

/// A loop that counts down.
#[derive(Drop)]
pub struct Turned<'a> {
    pub name: &'a [u8],
    /// The name is an `int`.
    pub small: bool,
    /// What stands for the name.
    pub stands: Vec<Part<'a>>,
}

/// An open block.
#[derive(Drop)]
pub enum Open<'a> {
    Plain,
    /// That of a loop that counts up and whose name is an `int`.
    Small(&'a [u8]),
    /// That of a loop that counts down.
    Turned(Turned<'a>),
}

/// The open blocks, the innermost last.
#[derive(Drop)]
pub struct Blocks<'a> {
    items: Vec<Open<'a>>,
}

impl<'a> Blocks<'a> {
    ghost use Rattle.std.specs.Prelude.{◌≡◌, ◌∷◌, [], drop, length, OnOk};
    ghost use Rattle.std.specs.Option.{option_map};
    ghost use Rattle.c_grammar.specs.Descents.{is_small, stands_in, stands_of};
    ghost use Rattle.c_terminals.specs.Seen.{seen_terminal};
    ghost use Rattle.c_descents.specs.Blocks.{open_blocks, seen_open};
    ghost use Rattle.c_descents.specs.Parts.{all_parts};

    pub fn new(alloc: Global) -> Blocks<'a>
        ensures { open_blocks result ≡ [] }
    {
        Blocks {
            items: Vec::new(alloc),
        }
    }

    #[tactic(auto, using(crate::proofs::Innermost::pushed))]
    pub fn push(&mut self, block: Open<'a>) -> Result<(), AllocError>
        ensures { OnOk result (open_blocks self.new ≡ seen_open block.entry ∷ open_blocks self.old) }
    {
        self.items.push(block)?;
        Ok(())
    }

    /// Closes the innermost block.
    #[tactic(auto, using(crate::proofs::Innermost::closed))]
    pub fn close(&mut self)
        ensures { open_blocks self.new ≡ drop 1 (open_blocks self.old) }
    {
        match self.items.pop() {
            Some(_) | None => (),
        }
    }

    pub fn len(&self) -> usize
        ensures { result ≡ length (open_blocks self.now) }
    {
        self.items.len()
    }

    /// Whether the name is an `int`.
    pub fn is_small(&self, name: &[u8]) -> bool
        ensures { result ≡ is_small (open_blocks self.now) name.now }
    {
        is_small_among(&self.items, name)
    }

    /// What stands for the token.
    pub fn stands_of(&self, terminal: Terminal<'_, '_>) -> Option<&[Part<'a>]>
        ensures { option_map (λ p. all_parts p.now) result ≡ stands_of (open_blocks self.now) (seen_terminal terminal.entry) }
    {
        match terminal {
            Terminal::Name(name) => self.stands_in(name),
            _ => None,
        }
    }

    /// What stands for the name.
    pub fn stands_in(&self, name: &[u8]) -> Option<&[Part<'a>]>
        ensures { option_map (λ p. all_parts p.now) result ≡ stands_in (open_blocks self.now) name.now }
    {
        stands_among(&self.items, name)
    }
}

#[tactic(auto, using(crate::proofs::Innermost::fewer))]
fn is_small_among(blocks: &[Open<'_>], name: &[u8]) -> bool
    ensures { result ≡ is_small (blocks_of blocks.now) name.now }
{
    let mut rest = blocks;
    'open: while let [around @ .., open] = rest {
        let found = match open {
            Open::Plain => false,
            Open::Small(own) => *own == name,
            Open::Turned(turned) => turned.small && turned.name == name,
        };
        if found {
            return true;
        }
        rest = around;
    }
    false
}

#[tactic(auto, using(crate::proofs::Innermost::fewer))]
fn stands_among<'a, 's>(blocks: &'s [Open<'a>], name: &[u8]) -> Option<&'s [Part<'a>]>
    ensures { option_map (λ p. all_parts p.now) result ≡ stands_in (blocks_of blocks.now) name.now }
{
    let mut rest = blocks;
    'open: while let [around @ .., open] = rest {
        if let Open::Turned(turned) = open {
            if turned.name == name {
                return Some(turned.stands.as_slice());
            }
        }
        rest = around;
    }
    None
}
