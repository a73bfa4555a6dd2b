// The scalars of a strand.

ghost use Rattle.std.specs.Prelude.{◌≡◌, ◌≤◌, ℕ, IfOk, OnOk, length, slice_index};
ghost use Rattle.base.specs.Meaning.{set_scalar};

use operators::number_at;
use std::alloc::{AllocError, Global};
use std::marker::Model;

/// The numbers of the scalars, of which there are 256, kept as far as one was not 0: a strand takes memory for those
/// that its text has.
#[derive(Drop)]
pub struct Scalars {
    numbers: Vec<u64>,
}

impl Model for Scalars {
    ghost use Rattle.std.specs.Prelude.{ℕ, ◌≤◌, List, length};

    ghost Value = { List ℕ };

    ghost view = { λ s. s.numbers.items };

    ghost invariant = { λ s. length s.numbers.items ≤ 256 };
}

// Past the last number that is not 0.
fn end_of(numbers: &[u64]) -> usize
    ensures within { result ≤ length numbers.now }
    ensures zeros { (k : ℕ) → result ≤ k → slice_index numbers.now k ≡ 0 }
{
    let mut end = numbers.len();
    'numbers: while end > 0 && numbers[end - 1] == 0 {
        end -= 1;
    }
    end
}

impl Scalars {
    /// Scalars with these numbers. The error comes for want of memory.
    pub fn new(alloc: Global, numbers: &[u64; 256]) -> Result<Scalars, AllocError>
        ensures { IfOk result (λ scalars. slice_index scalars ≡ slice_index numbers.now) }
    {
        let end = end_of(numbers);
        Ok(Scalars {
            numbers: Vec::from_slice(alloc, &numbers[..end])?,
        })
    }

    /// The same scalars once more. The error comes for want of memory.
    pub fn copy(&self, alloc: Global) -> Result<Scalars, AllocError>
        ensures { IfOk result (λ copy. copy ≡ self.now) }
    {
        Ok(Scalars {
            numbers: Vec::from_slice(alloc, &self.numbers)?,
        })
    }

    /// The number of a scalar.
    pub fn number(&self, x: u8) -> u64
        ensures { result ≡ slice_index self.now x }
    {
        number_at(&self.numbers, x as usize)
    }

    /// A scalar has another number. The error comes for want of memory.
    pub fn set(&mut self, x: u8, number: u64) -> Result<(), AllocError>
        ensures { OnOk result (slice_index self.new ≡ set_scalar x number (slice_index self.old)) }
    {
        let place = x as usize;
        if self.numbers.len() <= place {
            self.numbers.resize(place + 1, 0)?;
        }
        self.numbers[place] = number;
        Ok(())
    }

    /// All the numbers.
    pub fn all(&self) -> [u64; 256]
        ensures { slice_index result ≡ slice_index self.now }
    {
        let mut all = [0u64; 256];
        put_first(&mut all, &self.numbers);
        all
    }
}

// The first of these zeros become these numbers.
fn put_first(all: &mut [u64; 256], numbers: &[u64])
    requires zeros { (k : ℕ) → slice_index all.old k ≡ 0 }
    requires few { length numbers.now ≤ 256 }
    ensures { slice_index all.new ≡ slice_index numbers.now }
{
    'numbers: for i in 0..numbers.len() {
        all[i] = numbers[i];
    }
}
