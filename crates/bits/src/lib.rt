//! Sets of numbers, a bit for each.
#![tactic(auto)]

ghost use Rattle.std.specs.Prelude.{◌≡◌, ◌<◌, ◌≤◌, ◌^◌, ◌||◌, ◌&&◌, ◌==◌, not, ℕ, false, IfOk};
ghost use Rattle.bits.specs.Sets.{IsSame, has, room, room_for, start};

pub use crate::set::BitSet;
use std::alloc::{AllocError, Global};

mod both;
mod first;
mod kept;
mod set;
mod spans;

impl Clone for BitSet {
    ghost is_clone = { IsSame };

    #[tactic(auto, unfolding(crate::specs::Sets::all_words))]
    fn clone(&self) -> Result<BitSet, AllocError> {
        Ok(BitSet {
            skipped: self.skipped,
            words: Vec::from_slice(*self.words.allocator(), &self.words)?,
        })
    }
}

impl BitSet {
    /// The empty set with no room. It takes no memory.
    #[tactic(auto, unfolding(crate::specs::Sets::all_words))]
    pub fn new(alloc: Global) -> BitSet
        ensures empty { (i : ℕ) → has result i ≡ false }
        ensures start { start result ≡ 0 }
        ensures none { room result ≡ 0 }
    {
        BitSet {
            skipped: 0,
            words: Vec::new(alloc),
        }
    }

    /// The empty set, with room for so many numbers, the first ones.
    pub fn with_room(alloc: Global, count: usize) -> Result<BitSet, AllocError>
        requires { count ≤ 2 ^ 32 }
        ensures empty { IfOk result (λ s. (i : ℕ) → has s i ≡ false) }
        ensures start { IfOk result (λ s. start s ≡ 0) }
        ensures roomy { IfOk result (λ s. room s ≡ room_for count) }
    {
        let mut set = BitSet::new(alloc);
        set.keep_up_to(count.div_ceil(64))?;
        Ok(set)
    }

    /// Whether a number is in the set. None below its start is, and none past its room.
    #[inline]
    pub fn contains(&self, i: usize) -> bool
        ensures { result ≡ has self.now i }
    {
        (self.word(i / 64) >> (i % 64)) & 1 == 1
    }

    /// Adds a number.
    #[inline]
    pub fn insert(&mut self, i: usize)
        requires start { start self.old ≤ i }
        requires room { i < room self.old }
        ensures added { (k : ℕ) → has self.new k ≡ (has self.old k || (i == k)) }
        ensures start { start self.new ≡ start self.old }
        ensures room { room self.new ≡ room self.old }
    {
        let word = self.word(i / 64) | 1 << (i % 64);
        self.set_word(i / 64, word);
    }

    /// Takes a number out.
    #[inline]
    pub fn remove(&mut self, i: usize)
        requires start { start self.old ≤ i }
        requires room { i < room self.old }
        ensures removed { (k : ℕ) → has self.new k ≡ (not (i == k) && has self.old k) }
        ensures start { start self.new ≡ start self.old }
        ensures room { room self.new ≡ room self.old }
    {
        let word = self.word(i / 64) & !(1 << (i % 64));
        self.set_word(i / 64, word);
    }
}
