// The members of a set from one number up to another.

ghost use Rattle.std.specs.Prelude.{◌≡◌, ◌+◌, ◌-◌, ◌/◌, ◌%◌, ◌^◌, ◌<◌, ◌≤◌, ◌==◌, ◌&&◌, ◌||◌, ◌↔◌, not, ℕ, true, if◌then◌else◌, IsTrue};
ghost use Rattle.bits.specs.Sets.{has, is_from, room, start};

use crate::BitSet;

// Whether the word that begins at a number ends no later than this.
#[inline]
fn is_whole(i: usize, end: usize) -> bool
    requires { i ≤ end }
    ensures { IsTrue result ↔ ((i % 64 ≡ 0) × (i + 64 ≤ end)) }
{
    i % 64 == 0 && end - i >= 64
}

// A word of ones, or of zeros.
fn word_of(on: bool) -> u64
    ensures { result ≡ (if on then 2 ^ 64 - 1 else 0) }
{
    if on { u64::MAX } else { 0 }
}

impl BitSet {
    // Adds a number, or takes it out.
    #[inline]
    fn put(&mut self, i: usize, on: bool)
        requires start { start self.old ≤ i }
        requires room { i < room self.old }
        ensures put { (k : ℕ) → has self.new k ≡ (if i == k then on else has self.old k) }
        ensures start { start self.new ≡ start self.old }
        ensures room { room self.new ≡ room self.old }
    {
        if on {
            self.insert(i);
        } else {
            self.remove(i);
        }
    }

    // Adds the numbers from the first up to the end, or takes them out. A word that is whole in it takes one step.
    fn fill(&mut self, first: usize, end: usize, on: bool)
        requires start { start self.old ≤ first }
        requires room { end ≤ room self.old }
        ensures filled { (k : ℕ) → has self.new k ≡ (if is_from first end k then on else has self.old k) }
        ensures start { start self.new ≡ start self.old }
        ensures room { room self.new ≡ room self.old }
    {
        let word = word_of(on);
        let mut i = first;
        while i < end {
            if is_whole(i, end) {
                self.set_word(i / 64, word);
                i += 64;
            } else {
                self.put(i, on);
                i += 1;
            }
        }
    }

    /// Adds the numbers from the first up to the end.
    pub fn insert_range(&mut self, first: usize, end: usize)
        requires start { start self.old ≤ first }
        requires room { end ≤ room self.old }
        ensures added { (k : ℕ) → has self.new k ≡ (has self.old k || is_from first end k) }
        ensures start { start self.new ≡ start self.old }
        ensures room { room self.new ≡ room self.old }
    {
        self.fill(first, end, true);
    }

    /// Takes the numbers from the first up to the end out.
    pub fn remove_range(&mut self, first: usize, end: usize)
        requires start { start self.old ≤ first }
        requires room { end ≤ room self.old }
        ensures removed { (k : ℕ) → has self.new k ≡ (not (is_from first end k) && has self.old k) }
        ensures start { start self.new ≡ start self.old }
        ensures room { room self.new ≡ room self.old }
    {
        self.fill(first, end, false);
    }

    /// Makes each number from the first up to the end a member exactly where it is one of another set.
    pub fn copy_range(&mut self, from: &BitSet, first: usize, end: usize)
        requires start { start self.old ≤ first }
        requires room { end ≤ room self.old }
        ensures copied { (k : ℕ) → has self.new k ≡ (if is_from first end k then has from.now k else has self.old k) }
        ensures start { start self.new ≡ start self.old }
        ensures room { room self.new ≡ room self.old }
    {
        let mut i = first;
        while i < end {
            if is_whole(i, end) {
                self.set_word(i / 64, from.word(i / 64));
                i += 64;
            } else {
                self.put(i, from.contains(i));
                i += 1;
            }
        }
    }

    /// Whether all of so many numbers, the first ones, are members.
    pub fn has_all(&self, count: usize) -> bool
        ensures { IsTrue result ↔ ((i : ℕ) → i < count → has self.now i ≡ true) }
    {
        for k in 0..self.end_word() {
            let word = self.word(k);
            if word != u64::MAX {
                return count <= 64 * k + word.trailing_ones() as usize;
            }
        }
        count <= self.room()
    }

    // Whether all numbers of a word are members.
    #[inline]
    fn is_full_word(&self, k: usize) -> bool
        ensures { IsTrue result → (i : ℕ) → i / 64 ≡ k → has self.now i ≡ true }
    {
        k < self.end_word() && self.word(k) == u64::MAX
    }

    /// Whether all numbers from the first up to the end are members. A word that is whole in it takes one step.
    pub fn has_range(&self, first: usize, end: usize) -> bool
        ensures { IsTrue result ↔ ((i : ℕ) → first ≤ i → i < end → has self.now i ≡ true) }
    {
        let mut i = first;
        while i < end {
            if is_whole(i, end) && self.is_full_word(i / 64) {
                i += 64;
            } else if self.contains(i) {
                i += 1;
            } else {
                return false;
            }
        }
        true
    }
}
