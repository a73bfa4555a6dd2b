//! Names that are declared.

ghost use Rattle.std.specs.Prelude.{◌≡◌};

use std::alloc::{AllocError, Global};

/// The names so far, in order of declaration.
#[derive(Drop)]
pub struct Names<'a> {
    names: Vec<&'a [u8]>,
}

impl<'a> Names<'a> {
    ghost use Rattle.std.specs.Prelude.{◌≡◌, ◌∷◌, [], OnOk, length};
    ghost use Rattle.c_grammar.specs.LineRules.{is_among};
    ghost use Rattle.c_terminals.specs.Names.{seen_names};

    pub fn new(alloc: Global) -> Names<'a>
        ensures { seen_names result ≡ [] }
    {
        Names {
            names: Vec::new(alloc),
        }
    }

    pub fn declare(&mut self, name: &'a [u8]) -> Result<(), AllocError>
        ensures { OnOk result (seen_names self.new ≡ name.now ∷ seen_names self.old) }
    {
        self.names.push(name)?;
        Ok(())
    }

    /// How many there are.
    pub fn len(&self) -> usize
        ensures { result ≡ length (seen_names self.now) }
    {
        self.names.len()
    }

    pub fn contains(&self, name: &[u8]) -> bool
        ensures { result ≡ is_among (seen_names self.now) name.now }
    {
        let mut found = false;
        'names: for own in &self.names {
            if *own == name {
                found = true;
            }
        }
        found
    }
}
