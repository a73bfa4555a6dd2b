//! Constants with their numbers.

ghost use Rattle.std.specs.Prelude.{◌≡◌};

use std::alloc::{AllocError, Global};

/// A name that stands for a number.
#[derive(Clone, Copy)]
pub struct Constant<'a> {
    pub name: &'a [u8],
    pub value: u64,
}

/// The constants so far, in order of definition.
#[derive(Drop)]
pub struct Values<'a> {
    constants: Vec<Constant<'a>>,
}

impl<'a> Values<'a> {
    ghost use Rattle.std.specs.Prelude.{◌≡◌, ◌∷◌, [], IfOk, OnOk, OnErr};
    ghost use Rattle.c_grammar.specs.Expressions.{value_of};
    ghost use Rattle.c_written.specs.Values.{seen_values};

    pub fn new(alloc: Global) -> Values<'a>
        ensures { seen_values result ≡ [] }
    {
        Values {
            constants: Vec::new(alloc),
        }
    }

    /// Adds a constant.
    pub fn define(&mut self, name: &'a [u8], value: u64) -> Result<(), AllocError>
        ensures { OnOk result (seen_values self.new ≡ (name.now, value) ∷ seen_values self.old) }
    {
        self.constants.push(Constant { name, value })?;
        Ok(())
    }

    /// The number of the last constant of that name.
    pub fn value(&self, name: &[u8]) -> Option<u64>
        ensures { result ≡ value_of (seen_values self.now) name.now }
    {
        let mut found = None;
        'constants: for constant in &self.constants {
            if constant.name == name {
                found = Some(constant.value);
            }
        }
        found
    }
}
