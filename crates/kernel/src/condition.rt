// The value of an expression where the machine stands, without operations.

ghost use Rattle.std.specs.Prelude.{◌≡◌, Some, IsSome};
ghost use Rattle.base.specs.Value.{value};
ghost use Rattle.kernel.specs.Machine.{names_of};
ghost use Rattle.kernel.specs.States.{at_rest};

use crate::state::{Machine, load, loop_value};
use base::item::Cell;
use base::tree::Expr;
use operators::{flag, of_both, of_division, of_one, of_shift};

/// The value of an expression. The right side of `&&` and `||` may have none where the left one decides.
#[inline(never)]
pub fn value_of(e: &Expr, m: &Machine<'_, '_>) -> u64
    requires { IsSome (value e.now (names_of (at_rest m.now))) }
    ensures { value e.now (names_of (at_rest m.now)) ≡ Some result }
{
    match e {
        Expr::Number(n) => *n,
        Expr::Scalar(x) => m.scalars[x.0 as usize],
        Expr::LoopName(level) => loop_value(&m.loops, *level),
        Expr::Cell(array, _, index) => {
            let (array, index) = (*array, value_of(index, m));
            load(&m.rows, Cell { array, index })
        }
        Expr::Unary(op, a) => of_one(*op, value_of(a, m)),
        Expr::Binary(op, a, b) => {
            let left = value_of(a, m);
            of_both(*op, left, value_of(b, m))
        }
        Expr::And(a, b) => flag(value_of(a, m) != 0 && value_of(b, m) != 0),
        Expr::Or(a, b) => flag(value_of(a, m) != 0 || value_of(b, m) != 0),
        Expr::Shift(op, a, n) => of_shift(*op, value_of(a, m), *n),
        Expr::Divide(op, a, n) => of_division(*op, value_of(a, m), *n),
    }
}
