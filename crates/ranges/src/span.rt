// Values of loops, each from a least up to a greatest one.

ghost use Rattle.std.specs.Prelude.{◌≡◌, ◌++◌, ◌∷◌, [], ℕ, List, IfOk, OnOk};

use std::alloc::{AllocError, Global};

/// The least and the greatest value of each of some loops, the outermost first.
#[derive(Drop)]
pub struct Span {
    pub lows: Vec<u64>,
    pub highs: Vec<u64>,
}

impl Span {
    /// One value of each loop.
    pub fn new(alloc: Global, loops: &[u64]) -> Result<Span, AllocError>
        ensures lows { IfOk result (λ s. s.lows.items ≡ loops.now) }
        ensures highs { IfOk result (λ s. s.highs.items ≡ loops.now) }
    {
        Ok(Span {
            lows: Vec::from_slice(alloc, loops)?,
            highs: Vec::from_slice(alloc, loops)?,
        })
    }

    /// A loop within the others.
    pub fn push(&mut self, low: u64, high: u64) -> Result<(), AllocError>
        ensures lows { OnOk result (self.new.lows.items ≡ self.old.lows.items ++ low ∷ []) }
        ensures highs { OnOk result (self.new.highs.items ≡ self.old.highs.items ++ high ∷ []) }
    {
        self.lows.push(low)?;
        self.highs.push(high)?;
        Ok(())
    }

    /// Forgets the innermost loop.
    pub fn pop(&mut self)
        ensures lows { (xs : List ℕ) (x : ℕ) → self.old.lows.items ≡ xs ++ x ∷ [] → self.new.lows.items ≡ xs }
        ensures highs { (xs : List ℕ) (x : ℕ) → self.old.highs.items ≡ xs ++ x ∷ [] → self.new.highs.items ≡ xs }
    {
        let _ = self.lows.pop();
        let _ = self.highs.pop();
    }
}
