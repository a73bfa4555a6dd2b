// A part of what is left of a strand.

use crate::maps::{Held, Maps};
use crate::turns::{Cells, Turns};
use base::tree::{
    ArrayId, BinaryOp, CombineOp, DivideOp, Divisor, Expr, ScalarId, ShiftCount, ShiftOp, Source,
    Stmt, UnaryOp,
};

/// A part of what is left of a strand. Those of an expression take the number at hand.
#[derive(Clone, Copy)]
pub enum Frame<'p> {
    /// The cell with the number as its index is loaded.
    Load(ArrayId),
    Unary(UnaryOp),
    /// The right operand is evaluated.
    Right(BinaryOp, &'p Expr),
    /// The number is the right operand of this left one.
    Both(BinaryOp, u64),
    AndRight(&'p Expr),
    OrRight(&'p Expr),
    /// 1 unless the number is 0.
    Truth,
    Shift(ShiftOp, ShiftCount),
    Divide(DivideOp, Divisor),
    /// The number is the index at which a source's value is stored.
    Subscript(ArrayId, &'p Source),
    /// The number is stored at this index.
    Store(ArrayId, u64),
    /// The number is the index at which an update has this value.
    Place(CombineOp, ArrayId, &'p Expr),
    /// The cell at this index is updated by the number.
    Combine(CombineOp, ArrayId, u64),
    Assign(ScalarId),
    Print,
    /// The first statements at a number that is not 0, and else the second ones.
    Choose(&'p [Stmt], &'p [Stmt]),
    /// Statements.
    Rest(&'p [Stmt]),
    /// The turns of a loop, whose name has a value already.
    Turns(Turns, &'p [Stmt]),
    Entries(Maps<'p>),
    Exits(Maps<'p>),
    CopyIn(Cells),
    CopyOut(Cells),
    Remove(Held),
}
