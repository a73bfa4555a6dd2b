// What is told of an expression.

use crate::literal::Type;
use base::tree::Place;

/// What C makes of an expression.
#[derive(Clone, Copy, Debug, PartialEq, Eq)]
pub enum InC {
    /// The number with a minus before it.
    Negative(u64),
    Number(u64),
    Undefined,
    /// It may depend on what the expression names.
    Unknown,
}

/// Why an expression is told.
#[derive(Clone, Copy, Debug, PartialEq, Eq)]
pub enum Reason {
    /// A number that its type does not hold.
    Number,
    /// A complement, which is negative in a signed type.
    Complement,
    /// A difference that may be negative.
    Below,
    /// A result that its type may not hold.
    Above,
    /// A shift by as many bits as the type has, or more.
    Count,
    /// A loop's name that may pass its type behind the last turn.
    Counter,
    /// A number of another type in what is given to an `int`.
    Cut,
    /// A number that `printf` takes as an `unsigned long`.
    Printed,
    /// Another one.
    Other,
}

/// An expression that may have another value in C than here, all of whose operands have the same.
#[derive(Clone, Copy)]
pub struct Difference {
    /// Where its operator stands, or its number.
    pub place: Place,
    pub reason: Reason,
    /// Its type in C.
    pub ctype: Type,
    /// Its value in C.
    pub in_c: InC,
    /// Its value here, where it is known.
    pub here: Option<u64>,
    /// An operand that is a number, and has to be a `uint64_t` for both to be the same.
    pub operand: Option<u64>,
}
