// What a block of turns of a loop reads.

ghost use Rattle.std.specs.Prelude.{◌≡◌, ◌<◌, ◌+◌, length};
ghost use Rattle.std.specs.Option.{ForSome};
ghost use Rattle.kernel.specs.Offsets.{IsWithin};

use crate::run_row::RunRow;
use base::tree::{BinaryOp, Expr, ScalarId, Stmt};

/// A scalar that the turns of a block have assigned, with its number in each of them.
#[derive(Drop)]
pub struct Lane {
    pub scalar: ScalarId,
    pub numbers: Vec<u64>,
}

/// What a loop begins with: the values of the loops around and the scalars. It stores at the sum of the offset and its
/// own value, or at its own value alone.
#[derive(Clone, Copy)]
pub struct Around<'a> {
    pub outer: &'a [u64],
    pub scalars: &'a [u64; 256],
    pub offset: Option<u64>,
}

/// A block of turns: the first, how many there are, the values of the loops around, the scalars before the block, what is
/// added to a turn's value in the indices at which it stores, and which turns take part, if not all of them do.
#[derive(Clone, Copy)]
pub struct Turns<'a, 'm> {
    pub first: u64,
    pub count: usize,
    pub outer: &'a [u64],
    pub scalars: &'a [u64; 256],
    pub offset: Option<u64>,
    pub mask: Option<&'m [bool]>,
    ghost some: { 0 < count },
    ghost no_wrap: { IsWithin offset (first + count) },
    ghost each: { ForSome mask (λ m. length m.now ≡ count) },
}

/// What the expressions of a block of turns read: beside the turns the scalars that they have assigned, the last first,
/// and the cells.
#[derive(Clone, Copy)]
pub struct Reads<'a> {
    pub at: &'a Turns<'a, 'a>,
    pub lanes: &'a [Lane],
    pub rows: &'a [RunRow<'a>],
}

/// A scalar that the last statement of a turn makes of itself and of the value of an expression, by an operator with the
/// scalar on its left.
#[derive(Clone, Copy)]
pub struct Sum<'b> {
    pub scalar: ScalarId,
    pub op: BinaryOp,
    pub added: &'b Expr,
}

/// How the turns of a loop are done in blocks: the statements that are done for all turns, the scalar that is carried
/// on behind them, and what is added to a turn's value in the indices at which it stores.
#[derive(Clone, Copy)]
pub struct Form<'b> {
    pub front: &'b [Stmt],
    pub sum: Option<Sum<'b>>,
    pub offset: Option<u64>,
}
