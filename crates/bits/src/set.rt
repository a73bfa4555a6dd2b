// A set of numbers.

ghost use Rattle.std.specs.Prelude.{◌≤◌, ◌+◌, ◌^◌, length};

/// A set of numbers, a bit for each of them from the start of the set up to its room. It has none below its start.
#[derive(Drop)]
pub struct BitSet {
    // So many words, all of them 0, stand before those that are kept.
    pub(crate) skipped: usize,
    pub(crate) words: Vec<u64>,
    ghost few: { skipped + length words.items ≤ 2 ^ 32 },
}
