// Values that move on by a multiple of what a loop's name does.

use base::tree::BinaryOp;

/// Such values: the one in the first turn, and by how much they move on where the loop's name moves on by one.
#[derive(Clone, Copy, Drop)]
pub struct Affine {
    pub first: u64,
    pub slope: u64,
}

impl Affine {
    ghost use Rattle.std.specs.Prelude.{◌≡◌, ◌<◌, ◌^◌, ℕ, IfSome};
    ghost use Rattle.ranges.specs.Affines.{Makes, value_at};

    /// What does not move on.
    pub fn still(value: u64) -> Affine
        ensures first { result.first ≡ value }
        ensures slope { result.slope ≡ 0 }
    {
        Affine {
            first: value,
            slope: 0,
        }
    }

    /// The loop's name.
    pub fn name(first: u64) -> Affine
        ensures first { result.first ≡ first }
        ensures slope { result.slope ≡ 1 }
    {
        Affine { first, slope: 1 }
    }

    // Such values, where none wraps before the loop's name has moved on by more than this.
    fn up_to(last: u64, first: u64, slope: u64) -> Option<Affine>
        ensures { IfSome result (λ a. (a.first ≡ first) × (a.slope ≡ slope) × (value_at a last < 2 ^ 64)) }
    {
        slope.checked_mul(last)?.checked_add(first)?;
        Some(Affine { first, slope })
    }

    fn plus(self, other: Affine, last: u64) -> Option<Affine>
        ensures { IfSome result (Makes BinaryOp.Add last self other) }
    {
        let first = self.first.checked_add(other.first)?;
        let slope = self.slope.checked_add(other.slope)?;
        Affine::up_to(last, first, slope)
    }

    fn minus(self, other: Affine) -> Option<Affine>
        ensures { IfSome result (λ a. (last : ℕ) → Makes BinaryOp.Subtract last self other a) }
    {
        Some(Affine {
            first: self.first.checked_sub(other.first)?,
            slope: self.slope.checked_sub(other.slope)?,
        })
    }

    // The product with what does not move on.
    fn times(self, other: Affine, last: u64) -> Option<Affine>
        requires { other.slope ≡ 0 }
        ensures left { IfSome result (Makes BinaryOp.Multiply last self other) }
        ensures right { IfSome result (Makes BinaryOp.Multiply last other self) }
    {
        let first = self.first.checked_mul(other.first)?;
        let slope = self.slope.checked_mul(other.first)?;
        Affine::up_to(last, first, slope)
    }

    /// What an operator makes of two such values, where none wraps before the loop's name has moved on by more than this.
    pub fn of(op: BinaryOp, a: Affine, b: Affine, last: u64) -> Option<Affine>
        ensures { IfSome result (Makes op last a b) }
    {
        match op {
            BinaryOp::Add => a.plus(b, last),
            BinaryOp::Subtract => a.minus(b),
            BinaryOp::Multiply if b.slope == 0 => a.times(b, last),
            BinaryOp::Multiply if a.slope == 0 => b.times(a, last),
            _ => None,
        }
    }
}
