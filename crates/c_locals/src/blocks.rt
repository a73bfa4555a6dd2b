//! The open blocks, and the arrays that are declared in them.

ghost use Rattle.std.specs.Prelude.{◌≡◌};
ghost use Rattle.std.specs.Option.{option_map};
ghost use Rattle.c_grammar.specs.Locals.{array_in, has_array};
ghost use Rattle.c_locals.specs.Blocks.{blocks_of, seen_cells};

use c_terminals::{Terminal, Token};
use c_tokens::Sign;
use std::alloc::{AllocError, Global};

/// So many cells, the first of which has the name of that number.
#[derive(Clone, Copy)]
pub struct Cells {
    pub first: usize,
    pub len: usize,
}

/// An array.
#[derive(Clone, Copy)]
pub struct Array<'a> {
    pub name: &'a [u8],
    pub cells: Cells,
}

/// An open block, or an array that is declared in it.
#[derive(Clone, Copy)]
pub enum Open<'a> {
    Block,
    Array(Array<'a>),
}

/// The open blocks with their arrays, the innermost last.
#[derive(Drop)]
pub struct Blocks<'a> {
    items: Vec<Open<'a>>,
}

impl<'a> Blocks<'a> {
    ghost use Rattle.std.specs.Prelude.{◌≡◌, ◌∷◌, [], MatchOption, OnOk};
    ghost use Rattle.std.specs.Option.{option_map};
    ghost use Rattle.c_grammar.specs.Locals.{array_in, array_of, blocks_behind, closed, has_array, is_inside};
    ghost use Rattle.c_terminals.specs.Seen.{seen, seen_terminal};
    ghost use Rattle.c_locals.specs.Blocks.{open_blocks, seen_cells, seen_open};

    pub fn new(alloc: Global) -> Blocks<'a>
        ensures { open_blocks result ≡ [] }
    {
        Blocks {
            items: Vec::new(alloc),
        }
    }

    #[tactic(auto, using(crate::proofs::Innermost::pushed))]
    pub fn push(&mut self, item: Open<'a>) -> Result<(), AllocError>
        ensures { OnOk result (open_blocks self.new ≡ seen_open item.entry ∷ open_blocks self.old) }
    {
        self.items.push(item)?;
        Ok(())
    }

    #[tactic(auto, using(crate::proofs::Innermost::pushed))]
    fn pop(&mut self) -> Option<Open<'a>>
        ensures { MatchOption result ((open_blocks self.old ≡ []) × (open_blocks self.new ≡ []))
            (λ o. open_blocks self.old ≡ seen_open o ∷ open_blocks self.new) }
    {
        self.items.pop()
    }

    /// Closes the innermost block.
    fn close(&mut self)
        ensures { open_blocks self.new ≡ closed (open_blocks self.old) }
    {
        'open: while let Some(Open::Array(_)) = self.pop() {}
    }

    /// Goes behind a token that declares no array.
    pub fn go_behind(&mut self, token: Token<'a, '_>) -> Result<(), AllocError>
        ensures { OnOk result (open_blocks self.new ≡ blocks_behind (open_blocks self.old) (seen token.entry)) }
    {
        if token.terminal.is_sign(Sign::OpenBrace) {
            return self.push(Open::Block);
        }
        if token.terminal.is_sign(Sign::CloseBrace) {
            self.close();
        }
        Ok(())
    }

    /// Whether a block is open.
    pub fn is_inside(&self) -> bool
        ensures { result ≡ is_inside (open_blocks self.now) }
    {
        !self.items.is_empty()
    }

    /// Whether there is any array.
    pub fn has_array(&self) -> bool
        ensures { result ≡ has_array (open_blocks self.now) }
    {
        has_array_among(&self.items)
    }

    /// The cells of the array that the token names.
    pub fn array_of(&self, terminal: Terminal<'_, '_>) -> Option<Cells>
        ensures { option_map seen_cells result ≡ array_of (open_blocks self.now) (seen_terminal terminal.entry) }
    {
        match terminal {
            Terminal::Name(name) => array_among(&self.items, name),
            _ => None,
        }
    }
}

#[tactic(auto, using(crate::proofs::Innermost::fewer))]
fn has_array_among(blocks: &[Open<'_>]) -> bool
    ensures { result ≡ has_array (blocks_of blocks.now) }
{
    let mut rest = blocks;
    'open: while let [around @ .., last] = rest {
        if let Open::Array(_) = last {
            return true;
        }
        rest = around;
    }
    false
}

#[tactic(auto, using(crate::proofs::Innermost::fewer))]
fn array_among(blocks: &[Open<'_>], name: &[u8]) -> Option<Cells>
    ensures { option_map seen_cells result ≡ array_in (blocks_of blocks.now) name.now }
{
    let mut rest = blocks;
    'open: while let [around @ .., last] = rest {
        if let Open::Array(array) = last {
            if array.name == name {
                return Some(array.cells);
            }
        }
        rest = around;
    }
    None
}
