// Which depend items match.

ghost use Rattle.std.specs.Prelude.{◌≡◌};
ghost use Rattle.std.specs.List.{list_any};
ghost use Rattle.base.specs.Machine.{match_depends, writes_to};
ghost use Rattle.base.specs.Memory.{overlaps};

use crate::item::{Depend, Section};
use crate::tree::DependKind;

/// Whether two sections share a cell, where neither is empty.
pub fn overlap(left: &Section, right: &Section) -> bool
    ensures { result ≡ overlaps left.now right.now }
{
    let (first, second) = (u128::from(left.first), u128::from(right.first));
    left.array == right.array
        && first < second + u128::from(right.length)
        && second < first + u128::from(left.length)
}

impl DependKind {
    /// Whether an item of this kind writes: it is `out` or `inout`.
    pub fn is_written(self) -> bool
        ensures { result ≡ writes_to self }
    {
        match self {
            DependKind::In => false,
            DependKind::Out | DependKind::InOut => true,
        }
    }
}

fn is_match(left: &Depend, right: &Depend) -> bool
    ensures { result ≡ match_depends left.now right.now }
{
    overlap(&left.section, &right.section) && (left.kind.is_written() || right.kind.is_written())
}

// Whether it matches one of them.
fn matches_one(depend: &Depend, others: &[Depend]) -> bool
    ensures { result ≡ list_any (match_depends depend.now) others.now }
{
    'others: for other in others {
        if is_match(depend, other) {
            return true;
        }
    }
    false
}

/// Whether one of the depend items matches one of the others: they share a cell, and one of the two is `out` or `inout`
/// (OpenMP API 5.2, section 15.9.5).
pub fn match_some(depends: &[Depend], others: &[Depend]) -> bool
    ensures { result ≡ list_any (λ d. list_any (match_depends d) others.now) depends.now }
{
    'depends: for depend in depends {
        if matches_one(depend, others) {
            return true;
        }
    }
    false
}
