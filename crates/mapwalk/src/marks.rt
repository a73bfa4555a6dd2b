// The marks of the cells of an array.

ghost use Rattle.std.specs.Prelude.{◌≡◌, ◌≤◌, ℕ, false};
ghost use Rattle.bits.specs.Sets.{has, room, start};

use bits::BitSet;

/// A mark for each cell of an array.
#[derive(Drop)]
pub struct Marks {
    pub length: usize,
    /// The cells that are marked.
    pub cells: BitSet,
    ghost starts: { start cells ≡ 0 },
    ghost roomy: { length ≤ room cells },
    ghost ends: { (i : ℕ) → length ≤ i → has cells i ≡ false },
}
