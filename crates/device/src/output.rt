// What a run has printed.

ghost use Rattle.std.specs.Prelude.{◌≡◌, ◌++◌, ◌∷◌, [], IfOk, OnOk, OnErr, decimal};
ghost use Rattle.base.specs.Meaning.{output_of};

use std::alloc::{AllocError, Global};
use std::marker::Model;

/// The numbers that were printed, and their text: each in decimal, in a line of its own.
#[derive(Drop)]
pub struct Output {
    numbers: Vec<u64>,
    text: Vec<u8>,
}

impl Model for Output {
    ghost use Rattle.std.specs.Prelude.{ℕ, ◌≡◌, List};
    ghost use Rattle.base.specs.Meaning.{output_of};

    ghost Value = { List ℕ };

    ghost view = { λ o. o.numbers.items };

    ghost invariant = { λ o. o.text.items ≡ output_of o.numbers.items };
}

// A number in decimal, with a line feed.
fn add_line(alloc: Global, out: &mut Vec<u8>, n: u64) -> Result<(), AllocError>
    ensures { OnOk result (out.new.items ≡ out.old.items ++ (decimal n ++ 10 ∷ [])) }
{
    let line = format!(in alloc; "{}\n", n)?;
    out.extend_from_slice(line.as_bytes())?;
    Ok(())
}

/// The output's bytes: each number in decimal, in a line of its own.
pub fn text_of(alloc: Global, printed: &[u64]) -> Result<Vec<u8>, AllocError>
    ensures { IfOk result (λ out. out.items ≡ output_of printed.now) }
{
    let mut out = Vec::new(alloc);
    for n in printed {
        add_line(alloc, &mut out, *n)?;
    }
    Ok(out)
}

impl Output {
    /// Nothing is printed.
    pub fn new(alloc: Global) -> Output
        ensures { result ≡ [] }
    {
        Output {
            numbers: Vec::new(alloc),
            text: Vec::new(alloc),
        }
    }

    /// The bytes: each number in decimal, in a line of its own.
    pub fn text(&self) -> &[u8]
        ensures { result.now ≡ output_of self.now }
    {
        &self.text
    }

    /// More numbers. The error comes for want of memory.
    pub fn append(&mut self, alloc: Global, printed: &[u64]) -> Result<(), AllocError>
        ensures more { OnOk result (self.new ≡ self.old ++ printed.now) }
        ensures unchanged { OnErr result (self.new ≡ self.old) }
    {
        let lines = text_of(alloc, printed)?;
        self.text.reserve(lines.len())?;
        self.numbers.extend_from_slice(printed)?;
        if self.text.extend_from_slice(&lines).is_err() {
            unreachable!()
        }
        Ok(())
    }
}
