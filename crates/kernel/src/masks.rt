// Which turns of a block take part.

ghost use Rattle.std.specs.Prelude.{ℕ, ◌≡◌, ◌<◌, ◌&&◌, IfOk, not, true, false, if◌then◌else◌, length, slice_index, slice_index_or};
ghost use Rattle.base.specs.Value.{is_zero};
ghost use Rattle.kernel.specs.Lanes.{takes_part};
ghost use Rattle.kernel.specs.Masks.{IsMask, Narrowed};

use crate::turns::Turns;
use std::alloc::{AllocError, Global};

/// The turns of a block that take part, to be narrowed. The error comes for want of memory.
#[tactic(auto, using(crate::proofs::Parts::full_mask, crate::proofs::Parts::given_mask))]
pub fn begin_mask(alloc: Global, at: &Turns<'_, '_>) -> Result<Vec<bool>, AllocError>
    ensures { IfOk result (λ mask. IsMask at.now.count (takes_part at.now) mask.items) }
{
    match at.mask {
        None => vec![in alloc; true; at.count],
        Some(mask) => Vec::from_slice(alloc, mask),
    }
}

/// Only the turns stay in which the number is not 0.
#[inline(never)]
pub fn keep_true(mask: &mut [bool], numbers: &[u64])
    requires { length mask.old ≡ length numbers.now }
    ensures { Narrowed (λ k. not (is_zero (slice_index numbers.now k))) mask.old mask.new }
{
    'lanes: for j in 0..mask.len() {
        mask[j] = mask[j] & (numbers[j] != 0);
    }
}

/// Only the turns stay in which the number is 0.
#[inline(never)]
pub fn keep_false(mask: &mut [bool], numbers: &[u64])
    requires { length mask.old ≡ length numbers.now }
    ensures { Narrowed (λ k. is_zero (slice_index numbers.now k)) mask.old mask.new }
{
    'lanes: for j in 0..mask.len() {
        mask[j] = mask[j] & (numbers[j] == 0);
    }
}

/// Whether some turn takes part.
#[tactic(auto, using(crate::proofs::MaskRows::no_mark_more, crate::proofs::MaskRows::no_mark))]
pub fn has_turns(mask: &[bool]) -> bool
    ensures { result ≡ false → (k : ℕ) → slice_index_or mask.now k false ≡ false }
{
    'lanes: for part in mask {
        if *part {
            return true;
        }
    }
    false
}

#[inline(always)]
fn pick(part: bool, a: u64, b: u64) -> u64
    ensures { result ≡ (if part then a else b) }
{
    if part { a } else { b }
}

/// The numbers of the turns that do not take part become others.
#[inline(never)]
pub fn keep_others(numbers: &mut [u64], mask: &[bool], others: &[u64])
    requires masks { length mask.now ≡ length numbers.old }
    requires others { length others.now ≡ length numbers.old }
    ensures size { length numbers.new ≡ length numbers.old }
    ensures each { (k : ℕ) → k < length numbers.old → slice_index numbers.new k
        ≡ (if slice_index_or mask.now k false then slice_index numbers.old k else slice_index others.now k) }
{
    'lanes: for j in 0..numbers.len() {
        numbers[j] = pick(mask[j], numbers[j], others[j]);
    }
}
