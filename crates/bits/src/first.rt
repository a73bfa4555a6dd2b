// The first members of a set, and the last one.

ghost use Rattle.std.specs.Prelude.{◌≡◌, ◌&&◌, nat_le};
ghost use Rattle.bits.specs.Sets.{IsEndOf, IsFirstAt, has};

use crate::BitSet;

impl BitSet {
    /// The least member from a number on. A word with no member takes one step.
    pub fn first_from(&self, from: usize) -> Option<usize>
        ensures { IsFirstAt (λ i. nat_le from i && has self.now i) result }
    {
        let rest = self.word(from / 64) >> (from % 64);
        if rest != 0 {
            return Some(from + rest.trailing_zeros() as usize);
        }
        for k in (from / 64 + 1).max(self.skipped)..self.end_word() {
            let word = self.word(k);
            if word != 0 {
                return Some(64 * k + word.trailing_zeros() as usize);
            }
        }
        None
    }

    /// One past the last member, 0 where there is none.
    pub fn end(&self) -> usize
        ensures { IsEndOf (has self.now) result }
    {
        for k in (self.skipped..self.end_word()).rev() {
            let word = self.word(k);
            if word != 0 {
                return 64 * k + (64 - word.leading_zeros() as usize);
            }
        }
        0
    }
}
