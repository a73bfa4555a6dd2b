// Two sets, word by word, from the word at which both begin.

ghost use Rattle.std.specs.Prelude.{◌≡◌, ◌*◌, ◌^◌, ◌<◌, ◌≤◌, ◌||◌, ◌&&◌, ℕ, length, nat_lt, not, true, OnErr, OnOk};
ghost use Rattle.bits.specs.Sets.{IsFirstAt, all_words, has, is_from, room, start};

use crate::BitSet;
use std::alloc::AllocError;

impl BitSet {
    // Adds the numbers of another set that stand in the words from the first up to the end.
    fn unite_words(&mut self, other: &BitSet, first: usize, end: usize)
        requires start { self.old.skipped ≤ first }
        requires room { end ≤ length (all_words self.old) }
        ensures united { (i : ℕ) → has self.new i ≡ (has self.old i || (is_from (64 * first) (64 * end) i && has other.now i)) }
        ensures start { self.new.skipped ≡ self.old.skipped }
        ensures room { length (all_words self.new) ≡ length (all_words self.old) }
    {
        for k in first..end {
            let word = self.word(k) | other.word(k);
            self.set_word(k, word);
        }
    }

    /// Adds the numbers of another set, as far as there is room for them.
    pub fn union_with(&mut self, other: &BitSet)
        requires { start self.old ≤ start other.now }
        ensures united { (i : ℕ) → has self.new i ≡ (has self.old i || (nat_lt i (room self.old) && has other.now i)) }
        ensures start { start self.new ≡ start self.old }
        ensures room { room self.new ≡ room self.old }
    {
        let end = self.end_word().min(other.end_word());
        self.unite_words(other, other.skipped, end);
    }

    /// Adds the numbers of another set, and makes room for them: from the first of them up to the last. After an error
    /// it has the numbers that it had.
    pub fn extend_with(&mut self, other: &BitSet) -> Result<(), AllocError>
        requires { (i : ℕ) → has other.now i ≡ true → i < 2 ^ 32 }
        ensures all { OnOk result ((i : ℕ) → has self.new i ≡ (has self.old i || has other.now i)) }
        ensures none { OnErr result ((i : ℕ) → has self.new i ≡ has self.old i) }
    {
        if let Some(first) = other.first_from(0) {
            let end = other.end();
            self.make_room(first, end)?;
            self.unite_words(other, first / 64, end.div_ceil(64));
        }
        Ok(())
    }

    /// Takes the numbers of another set out.
    pub fn difference_with(&mut self, other: &BitSet)
        ensures rest { (i : ℕ) → has self.new i ≡ (not (has other.now i) && has self.old i) }
        ensures start { start self.new ≡ start self.old }
        ensures room { room self.new ≡ room self.old }
    {
        for k in self.skipped.max(other.skipped)..self.end_word().min(other.end_word()) {
            let word = self.word(k) & !other.word(k);
            self.set_word(k, word);
        }
    }

    /// The least number that is in both sets. A word in which none is takes one step.
    pub fn first_common(&self, other: &BitSet) -> Option<usize>
        ensures { IsFirstAt (λ i. has self.now i && has other.now i) result }
    {
        for k in self.skipped.max(other.skipped)..self.end_word().min(other.end_word()) {
            let both = self.word(k) & other.word(k);
            if both != 0 {
                return Some(64 * k + both.trailing_zeros() as usize);
            }
        }
        None
    }

    /// The least number that is in this set and not in the other.
    pub fn first_not_in(&self, other: &BitSet) -> Option<usize>
        ensures { IsFirstAt (λ i. has self.now i && not (has other.now i)) result }
    {
        for k in self.skipped..self.end_word() {
            let rest = self.word(k) & !other.word(k);
            if rest != 0 {
                return Some(64 * k + rest.trailing_zeros() as usize);
            }
        }
        None
    }
}
