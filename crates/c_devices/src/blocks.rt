//! The open blocks.

ghost use Rattle.std.specs.Prelude.{◌≡◌};
ghost use Rattle.c_grammar.specs.Devices.{counts_devices};
ghost use Rattle.c_devices.specs.Blocks.{blocks_of};

use std::alloc::{AllocError, Global};

/// The open blocks, the innermost last: each has the name of its loop, if it is that of a loop whose values are devices.
#[derive(Drop)]
pub struct Blocks<'a> {
    items: Vec<Option<&'a [u8]>>,
}

impl<'a> Blocks<'a> {
    ghost use Rattle.std.specs.Prelude.{◌≡◌, ◌∷◌, [], drop, OnOk};
    ghost use Rattle.c_grammar.specs.Devices.{counts_devices};
    ghost use Rattle.c_devices.specs.Blocks.{open_blocks, seen_block};

    pub fn new(alloc: Global) -> Blocks<'a>
        ensures { open_blocks result ≡ [] }
    {
        Blocks {
            items: Vec::new(alloc),
        }
    }

    #[tactic(auto, using(crate::proofs::Innermost::pushed))]
    pub fn push(&mut self, block: Option<&'a [u8]>) -> Result<(), AllocError>
        ensures { OnOk result (open_blocks self.new ≡ seen_block block.entry ∷ open_blocks self.old) }
    {
        self.items.push(block)?;
        Ok(())
    }

    /// Closes the innermost block.
    #[tactic(auto, using(crate::proofs::Innermost::closed))]
    pub fn close(&mut self)
        ensures { open_blocks self.new ≡ drop 1 (open_blocks self.old) }
    {
        match self.items.pop() {
            Some(_) | None => (),
        }
    }

    /// Whether the name is that of such a loop.
    pub fn counts_devices(&self, name: &[u8]) -> bool
        ensures { result ≡ counts_devices (open_blocks self.now) name.now }
    {
        counts_among(&self.items, name)
    }
}

#[tactic(auto, using(crate::proofs::Innermost::fewer))]
fn counts_among(blocks: &[Option<&[u8]>], name: &[u8]) -> bool
    ensures { result ≡ counts_devices (blocks_of blocks.now) name.now }
{
    let mut rest = blocks;
    'open: while let [around @ .., block] = rest {
        if let Some(own) = block {
            if *own == name {
                return true;
            }
        }
        rest = around;
    }
    false
}
