//! Which numbers a bound may be.

ghost use Rattle.std.specs.Prelude.{◌≤◌};

/// The numbers from the first to the last.
#[derive(Clone, Copy)]
pub struct Range {
    first: u64,
    last: u64,
    ghost ordered: { first ≤ last },
}

impl Range {
    ghost use Rattle.std.specs.Prelude.{◌≡◌, ◌≤◌};
    ghost use Rattle.c_grammar.specs.Grids.{range};
    ghost use Rattle.c_triangles.specs.Bounds.{seen_range};

    pub fn new(first: u64, last: u64) -> Range
        requires { first ≤ last }
        ensures { seen_range result ≡ range first last }
    {
        Range { first, last }
    }

    pub fn first(self) -> u64
        ensures { result ≡ (seen_range self).first }
    {
        self.first
    }

    pub fn last(self) -> u64
        ensures value { result ≡ (seen_range self).last }
        ensures ordered { (seen_range self).first ≤ result }
    {
        self.last
    }
}

/// A bound: a sum of numbers and names.
#[derive(Clone, Copy)]
pub struct Bound {
    pub range: Range,
    /// A name stands in it.
    pub varies: bool,
}

impl Bound {
    ghost use Rattle.std.specs.Prelude.{◌≡◌, false, true};
    ghost use Rattle.std.specs.Option.{option_map};
    ghost use Rattle.c_grammar.specs.Triangles.{bound, difference, sum};
    ghost use Rattle.c_triangles.specs.Bounds.{seen_bound, seen_range};

    pub fn number(n: u64) -> Bound
        ensures { seen_bound result ≡ bound n n false }
    {
        Bound {
            range: Range { first: n, last: n },
            varies: false,
        }
    }

    /// The sum, where it is surely a number of the language.
    pub fn sum(self, other: Bound) -> Option<Bound>
        ensures { option_map seen_bound result ≡ sum (seen_bound self) (seen_bound other) }
    {
        let last = self.range.last.checked_add(other.range.last)?;
        Some(Bound {
            range: Range {
                first: self.range.first + other.range.first,
                last,
            },
            varies: self.varies || other.varies,
        })
    }

    /// The difference, where it is surely not below 0.
    pub fn difference(self, other: Bound) -> Option<Bound>
        ensures { option_map seen_bound result ≡ difference (seen_bound self) (seen_bound other) }
    {
        if other.range.last > self.range.first {
            return None;
        }
        Some(Bound {
            range: Range {
                first: self.range.first - other.range.last,
                last: self.range.last - other.range.first,
            },
            varies: self.varies || other.varies,
        })
    }
}
