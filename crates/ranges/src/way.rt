// How accesses treat their cells, and which of them do not commute.

ghost use Rattle.std.specs.Prelude.{◌≡◌, ◌<◌};
ghost use Rattle.base.specs.Turns.{operator_number};
ghost use Rattle.ranges.specs.Ways as spec;

use base::tree::CombineOp;

/// How many ways there are.
pub const WAYS: usize = 9;

/// A plain read, a plain write, or a part of a commuting update.
#[derive(Clone, Copy)]
pub enum Way {
    Read,
    Write,
    Update(CombineOp),
}

fn operator_number(op: CombineOp) -> usize
    ensures number { result ≡ operator_number op }
    ensures few { result < 7 }
{
    match op {
        CombineOp::Add => 0,
        CombineOp::Multiply => 1,
        CombineOp::BitAnd => 2,
        CombineOp::BitOr => 3,
        CombineOp::BitXor => 4,
        CombineOp::Min => 5,
        CombineOp::Max => 6,
    }
}

impl Way {
    /// Its number, below `WAYS`.
    pub fn number(self) -> usize
        ensures number { result ≡ spec.number_of self }
        ensures few { result < 9 }
    {
        match self {
            Way::Read => 0,
            Way::Write => 1,
            Way::Update(op) => 2 + operator_number(op),
        }
    }
}

/// Whether accesses of one cell in these ways, by their numbers, do not commute: they are not both plain reads, nor both
/// updates by one operator.
pub fn opposes(earlier: usize, later: usize) -> bool
    ensures { result ≡ spec.opposes earlier later }
{
    earlier != later || earlier == 1
}
