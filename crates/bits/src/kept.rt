// The words of a set, of which the first ones need not be kept.

ghost use Rattle.std.specs.Prelude.{◌≡◌, ◌<◌, ◌≤◌, ◌^◌, ℕ, length, max, min, slice_index, slice_set, OnOk};
ghost use Rattle.bits.specs.Sets.{all_words, has, room, start};

use crate::BitSet;
use std::alloc::AllocError;

impl BitSet {
    // One past the last word that is kept.
    #[inline]
    #[tactic(auto, unfolding(crate::specs::Sets::all_words))]
    pub(crate) fn end_word(&self) -> usize
        ensures end { result ≡ length (all_words self.now) }
        ensures few { result ≤ 2 ^ 32 }
    {
        self.skipped + self.words.len()
    }

    // The word at a place, 0 where it is not kept.
    #[inline]
    #[tactic(auto, unfolding(crate::specs::Sets::all_words))]
    pub(crate) fn word(&self, k: usize) -> u64
        ensures { result ≡ slice_index (all_words self.now) k }
    {
        match k.checked_sub(self.skipped) {
            None => 0,
            Some(place) => self.words.get(place).copied().unwrap_or(0),
        }
    }

    // Changes a word that is kept.
    #[inline]
    #[tactic(auto, unfolding(crate::specs::Sets::all_words))]
    pub(crate) fn set_word(&mut self, k: usize, word: u64)
        requires start { self.old.skipped ≤ k }
        requires end { k < length (all_words self.old) }
        ensures set { all_words self.new ≡ slice_set (all_words self.old) k word }
        ensures start { self.new.skipped ≡ self.old.skipped }
    {
        self.words[k - self.skipped] = word;
    }

    /// One past the last number of which the set has a bit.
    pub fn room(&self) -> usize
        ensures { result ≡ room self.now }
    {
        64 * self.end_word()
    }

    /// Makes room for the numbers from the first up to the end.
    #[inline]
    pub fn make_room(&mut self, first: usize, end: usize) -> Result<(), AllocError>
        requires { end ≤ 2 ^ 32 }
        ensures same { (i : ℕ) → has self.new i ≡ has self.old i }
        ensures start { OnOk result (start self.new ≤ first) }
        ensures room { OnOk result (end ≤ room self.new) }
    {
        self.keep_from(first.min(end) / 64)?;
        self.keep_up_to(end.div_ceil(64))
    }

    // Keeps the words from one on. Where none is kept it is the first to be.
    #[tactic(auto, unfolding(crate::specs::Sets::all_words))]
    fn keep_from(&mut self, first: usize) -> Result<(), AllocError>
        requires { first ≤ 2 ^ 32 }
        ensures same { (i : ℕ) → has self.new i ≡ has self.old i }
        ensures start { OnOk result (self.new.skipped ≤ first) }
    {
        if self.words.is_empty() {
            self.skipped = first;
        } else if first < self.skipped {
            let zeros = self.skipped - first;
            let mut words = Vec::with_capacity(*self.words.allocator(), zeros + self.words.len())?;
            words.resize(zeros, 0)?;
            words.extend_from_slice(&self.words)?;
            self.words = words;
            self.skipped = first;
        }
        Ok(())
    }

    // Keeps the words up to one.
    #[tactic(auto, unfolding(crate::specs::Sets::all_words))]
    pub(crate) fn keep_up_to(&mut self, end: usize) -> Result<(), AllocError>
        requires { end ≤ 2 ^ 32 }
        ensures same { (i : ℕ) → has self.new i ≡ has self.old i }
        ensures start { self.new.skipped ≡ self.old.skipped }
        ensures end { OnOk result (length (all_words self.new) ≡ max (length (all_words self.old)) end) }
    {
        let kept = end.saturating_sub(self.skipped);
        if kept > self.words.len() {
            self.words.resize(kept, 0)?;
        }
        Ok(())
    }
}
