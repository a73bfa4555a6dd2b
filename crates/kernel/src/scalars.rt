// The scalars that a region runs on.

ghost use Rattle.std.specs.Prelude.{◌≡◌, ◌≤◌, ℕ, [], IfOk, length, slice_index};
ghost use Rattle.regions.specs.Footprints.{BoundedScalars};

use crate::runnable::are_numbers;
use std::alloc::{AllocError, Global};
use std::marker::Model;

/// The numbers of the scalars, kept up to the last that is not 0. Those past it are 0, and there are 256 at most.
#[derive(Drop)]
pub struct Scalars {
    numbers: Vec<u64>,
}

impl Model for Scalars {
    ghost use Rattle.std.specs.Prelude.{ℕ, ◌≤◌, List, length};

    ghost Value = { List ℕ };

    ghost view = { λ s. s.numbers.items };

    ghost invariant = { λ s. length s.numbers.items ≤ 256 };
}

// Past the last number that is not 0.
fn end_of(numbers: &[u64]) -> usize
    ensures within { result ≤ length numbers.now }
    ensures zeros { (k : ℕ) → result ≤ k → slice_index numbers.now k ≡ 0 }
{
    let mut end = numbers.len();
    'numbers: while end > 0 && numbers[end - 1] == 0 {
        end -= 1;
    }
    end
}

impl Scalars {
    /// Scalars that are all 0.
    pub fn zeros(alloc: Global) -> Scalars
        ensures { result ≡ [] }
    {
        Scalars {
            numbers: Vec::new(alloc),
        }
    }

    /// Scalars with these numbers. The error comes for want of memory.
    pub fn new(alloc: Global, numbers: &[u64; 256]) -> Result<Scalars, AllocError>
        ensures { IfOk result (λ scalars. slice_index scalars ≡ slice_index numbers.now) }
    {
        let end = end_of(numbers);
        Ok(Scalars {
            numbers: Vec::from_slice(alloc, &numbers[..end])?,
        })
    }

    /// The numbers up to the last that is not 0.
    pub fn numbers(&self) -> &[u64]
        ensures same { result.now ≡ self.now }
        ensures small { BoundedScalars (slice_index self.now) }
    {
        are_numbers(&self.numbers);
        &self.numbers
    }

    /// The same scalars once more. The error comes for want of memory.
    pub fn copy(&self, alloc: Global) -> Result<Scalars, AllocError>
        ensures { IfOk result (λ copy. copy ≡ self.now) }
    {
        Ok(Scalars {
            numbers: Vec::from_slice(alloc, &self.numbers)?,
        })
    }

    /// All the scalars, to be read and written by number. The error comes for want of memory.
    pub fn all(&self, alloc: Global) -> Result<Box<[u64; 256]>, AllocError>
        ensures { IfOk result (λ all. slice_index all.value ≡ slice_index self.now) }
    {
        let mut all = match Box::new(alloc, [0u64; 256]) {
            Ok(all) => all,
            Err(_) => return Err(AllocError),
        };
        put_first(&mut all, &self.numbers);
        Ok(all)
    }
}

// The first of these zeros become these numbers.
fn put_first(all: &mut [u64; 256], numbers: &[u64])
    requires zeros { (k : ℕ) → slice_index all.old k ≡ 0 }
    requires few { length numbers.now ≤ 256 }
    ensures { slice_index all.new ≡ slice_index numbers.now }
{
    'numbers: for i in 0..numbers.len() {
        all[i] = numbers[i];
    }
}
