// Assignments, stores and prints, by the values of their expressions.

ghost use Rattle.std.specs.Prelude.{OnOk};
ghost use Rattle.kernel.specs.Walks.{CanDo, CanGive, HasDone, HasGiven, assign_meaning, print_meaning, store_meaning};

use crate::block::set;
use crate::condition::value_of;
use crate::state::{Machine, store};
use base::item::Cell;
use base::tree::{ArrayId, Expr, ScalarId, Source};
use std::alloc::AllocError;

// What is assigned: the value of an expression, or the next number of the input.
fn given(v: &Source, m: &mut Machine<'_, '_>) -> u64
    requires { CanGive v.now m.old }
    ensures { HasGiven v.now result m.old m.new }
{
    match v {
        Source::Value(e) => value_of(e, m),
        Source::Read => match m.input {
            [] => 0,
            [x, rest @ ..] => {
                m.input = rest;
                *x
            }
        },
    }
}

/// Assigns a scalar.
#[inline(never)]
pub fn assign(x: ScalarId, v: &Source, m: &mut Machine<'_, '_>)
    requires { CanDo (assign_meaning x v.now) m.old }
    ensures { HasDone (assign_meaning x v.now) m.old m.new }
{
    let n = given(v, m);
    set(&mut m.scalars, x, n);
}

/// Stores in a cell. The error comes for want of memory.
#[inline(never)]
pub fn store_at(
    array: ArrayId,
    index: &Expr,
    v: &Source,
    m: &mut Machine<'_, '_>,
) -> Result<(), AllocError>
    requires { CanDo (store_meaning array index.now v.now) m.old }
    ensures { OnOk result (HasDone (store_meaning array index.now v.now) m.old m.new) }
{
    let index = value_of(index, m);
    let n = given(v, m);
    store(m.alloc, &mut m.rows, Cell { array, index }, n)?;
    Ok(())
}

/// Prints a number. The error comes for want of memory.
#[inline(never)]
pub fn print(e: &Expr, m: &mut Machine<'_, '_>) -> Result<(), AllocError>
    requires { CanDo (print_meaning e.now) m.old }
    ensures { OnOk result (HasDone (print_meaning e.now) m.old m.new) }
{
    let n = value_of(e, m);
    m.printed.push(n)?;
    Ok(())
}
