//! The names that are known: of loops, which stand for themselves, and of temporaries.

ghost use Rattle.std.specs.Prelude.{◌≡◌};
ghost use Rattle.std.specs.Option.{option_map};
ghost use Rattle.c_temporaries.specs.Parts.{knowns_of, seen_parts};
ghost use Rattle.c_temporaries.specs.Temporaries.{value_of};

use crate::parts::Part;
use std::alloc::{AllocError, Global};

/// A name that is known in so many blocks, with what it stands for.
#[derive(Drop)]
pub struct Known<'a> {
    pub name: &'a [u8],
    pub value: Vec<Part<'a>>,
    pub depth: usize,
}

/// The names that are known, in the order in which they came.
#[derive(Drop)]
pub struct Knowns<'a> {
    items: Vec<Known<'a>>,
}

impl<'a> Knowns<'a> {
    ghost use Rattle.std.specs.Prelude.{◌≡◌, ◌∷◌, [], OnOk, length};
    ghost use Rattle.std.specs.Option.{option_map};
    ghost use Rattle.c_temporaries.specs.Parts.{seen_known, seen_knowns, seen_parts};
    ghost use Rattle.c_temporaries.specs.Temporaries.{still_known, value_of};

    pub fn new(alloc: Global) -> Knowns<'a>
        ensures { seen_knowns result ≡ [] }
    {
        Knowns {
            items: Vec::new(alloc),
        }
    }

    #[tactic(auto, using(crate::proofs::Innermost::pushed))]
    pub fn push(&mut self, known: Known<'a>) -> Result<(), AllocError>
        ensures { OnOk result (seen_knowns self.new ≡ seen_known known.entry ∷ seen_knowns self.old) }
    {
        self.items.push(known)?;
        Ok(())
    }

    #[tactic(auto, using(crate::proofs::Innermost::as_many))]
    pub fn len(&self) -> usize
        ensures { result ≡ length (seen_knowns self.now) }
    {
        self.items.len()
    }

    /// What the name stands for, if it is known.
    pub fn value_of(&self, name: &[u8]) -> Option<&[Part<'a>]>
        ensures { option_map (λ v. seen_parts v.now) result ≡ value_of (seen_knowns self.now) name.now }
    {
        value_among(&self.items, name)
    }

    /// Forgets the names of inner blocks.
    pub fn leave(&mut self, depth: usize)
        ensures { seen_knowns self.new ≡ still_known depth (seen_knowns self.old) }
    {
        'names: while let Some(last) = self.items.last() {
            if last.depth <= depth {
                return;
            }
            match self.items.pop() {
                Some(_) | None => (),
            }
        }
    }
}

#[tactic(auto, using(crate::proofs::Innermost::fewer))]
fn value_among<'s, 'a>(knowns: &'s [Known<'a>], name: &[u8]) -> Option<&'s [Part<'a>]>
    ensures { option_map (λ v. seen_parts v.now) result ≡ value_of (knowns_of knowns.now) name.now }
{
    let mut rest = knowns;
    'names: while let [around @ .., known] = rest {
        if known.name == name {
            return Some(&known.value);
        }
        rest = around;
    }
    None
}
