//! Which numbers an expression may be.

ghost use Rattle.std.specs.Prelude.{◌≤◌};

/// The numbers from the first to the last.
#[derive(Clone, Copy)]
pub struct Range {
    first: u64,
    last: u64,
    ghost ordered: { first ≤ last },
}

impl Range {
    ghost use Rattle.std.specs.Prelude.{◌≡◌, ◌≤◌, nat_lt};
    ghost use Rattle.c_grammar.specs.Grids.{anything, difference, product, range, sum};
    ghost use Rattle.c_written.specs.Ranges.{seen_range};

    /// Any number of a token.
    pub fn anything() -> Range
        ensures { seen_range result ≡ anything }
    {
        Range {
            first: 0,
            last: u64::MAX,
        }
    }

    pub fn new(first: u64, last: u64) -> Range
        requires { first ≤ last }
        ensures { seen_range result ≡ range first last }
    {
        Range { first, last }
    }

    /// Whether all are below that number.
    pub fn is_below(self, limit: u64) -> bool
        ensures { result ≡ nat_lt (seen_range self).last limit }
    {
        self.last < limit
    }

    pub fn sum(self, other: Range) -> Range
        ensures { seen_range result ≡ sum (seen_range self) (seen_range other) }
    {
        match self.last.checked_add(other.last) {
            Some(last) => Range {
                first: self.first + other.first,
                last,
            },
            None => Range::anything(),
        }
    }

    pub fn difference(self, other: Range) -> Range
        ensures { seen_range result ≡ difference (seen_range self) (seen_range other) }
    {
        if other.last <= self.first {
            return Range {
                first: self.first - other.last,
                last: self.last - other.first,
            };
        }
        Range::anything()
    }

    pub fn product(self, other: Range) -> Range
        ensures { seen_range result ≡ product (seen_range self) (seen_range other) }
    {
        match self.last.checked_mul(other.last) {
            Some(last) => Range {
                first: self.first * other.first,
                last,
            },
            None => Range::anything(),
        }
    }
}
