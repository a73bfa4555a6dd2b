//! The commuting update that a store is, or a store under an `if`.

ghost use Rattle.std.specs.Prelude.{◌≡◌, ◌∷◌, [], Some};
ghost use Rattle.base.specs.declared.tree.Stmt.{If, Stmt};
ghost use Rattle.base.specs.declared.tree.Stmt.TheVariants as statement;
ghost use Rattle.c_statements.specs.Updates.{as_update, binary_number, combine_op, divide_number, choice_or, extreme_by, extreme_else, extreme_of, extreme_or, extreme_unless, is_cell, is_own, IsStored, keeps, op_of, over, same_expr, shift_number, unary_number, under};

use base::tree::{
    ArrayId, BinaryOp, CombineOp, DivideOp, Expr, Place, ShiftOp, Source, Stmt, UnaryOp,
};

/// The operator of updates that an operator of expressions is.
fn combine_op(op: BinaryOp) -> Option<CombineOp>
    ensures { result ≡ combine_op op }
{
    match op {
        BinaryOp::Add => Some(CombineOp::Add),
        BinaryOp::Multiply => Some(CombineOp::Multiply),
        BinaryOp::BitAnd => Some(CombineOp::BitAnd),
        BinaryOp::BitOr => Some(CombineOp::BitOr),
        BinaryOp::BitXor => Some(CombineOp::BitXor),
        BinaryOp::Equal
        | BinaryOp::NotEqual
        | BinaryOp::Less
        | BinaryOp::LessOrEqual
        | BinaryOp::Greater
        | BinaryOp::GreaterOrEqual
        | BinaryOp::Subtract => None,
    }
}

fn unary_number(op: UnaryOp) -> u8
    ensures { result ≡ unary_number op }
{
    match op {
        UnaryOp::Not => 0,
        UnaryOp::Complement => 1,
    }
}

fn binary_number(op: BinaryOp) -> u8
    ensures { result ≡ binary_number op }
{
    match op {
        BinaryOp::BitOr => 0,
        BinaryOp::BitXor => 1,
        BinaryOp::BitAnd => 2,
        BinaryOp::Equal => 3,
        BinaryOp::NotEqual => 4,
        BinaryOp::Less => 5,
        BinaryOp::LessOrEqual => 6,
        BinaryOp::Greater => 7,
        BinaryOp::GreaterOrEqual => 8,
        BinaryOp::Add => 9,
        BinaryOp::Subtract => 10,
        BinaryOp::Multiply => 11,
    }
}

fn shift_number(op: ShiftOp) -> u8
    ensures { result ≡ shift_number op }
{
    match op {
        ShiftOp::Left => 0,
        ShiftOp::Right => 1,
    }
}

fn divide_number(op: DivideOp) -> u8
    ensures { result ≡ divide_number op }
{
    match op {
        DivideOp::Quotient => 0,
        DivideOp::Remainder => 1,
    }
}

/// Whether the expressions are the same, wherever their tokens stand.
fn is_same_expr(left: &Expr, right: &Expr) -> bool
    ensures { result ≡ same_expr left.now right.now }
{
    match (left, right) {
        (Expr::Number(m), Expr::Number(n)) => *m == *n,
        (Expr::Scalar(x), Expr::Scalar(y)) => x.0 == y.0,
        (Expr::LoopName(m), Expr::LoopName(n)) => *m == *n,
        (Expr::Cell(x, _, i), Expr::Cell(y, _, j)) => x.0 == y.0 && is_same_expr(i, j),
        (Expr::Unary(o, a), Expr::Unary(u, b)) => {
            unary_number(*o) == unary_number(*u) && is_same_expr(a, b)
        }
        (Expr::Binary(o, a, c), Expr::Binary(u, b, d)) => {
            binary_number(*o) == binary_number(*u) && (is_same_expr(a, b) && is_same_expr(c, d))
        }
        (Expr::And(a, c), Expr::And(b, d)) => is_same_expr(a, b) && is_same_expr(c, d),
        (Expr::Or(a, c), Expr::Or(b, d)) => is_same_expr(a, b) && is_same_expr(c, d),
        (Expr::Shift(o, a, m), Expr::Shift(u, b, n)) => {
            shift_number(*o) == shift_number(*u) && (m.count == n.count && is_same_expr(a, b))
        }
        (Expr::Divide(o, a, m), Expr::Divide(u, b, n)) => {
            divide_number(*o) == divide_number(*u) && (m.value == n.value && is_same_expr(a, b))
        }
        _ => false,
    }
}

/// The operator of the update that a store of the value in an array's cell is, if it is one.
fn update_op(array: ArrayId, index: &Expr, value: &Source) -> Option<CombineOp>
    ensures { result ≡ op_of array index.now value.now }
{
    let Source::Value(Expr::Binary(op, left, _)) = value else {
        return None;
    };
    let Expr::Cell(other, _, subscript) = &**left else {
        return None;
    };
    if array.0 == other.0 && is_same_expr(index, subscript) {
        combine_op(*op)
    } else {
        None
    }
}

/// The update that the store of a value in an array's cell is, or the store.
fn store_or_update(array: ArrayId, place: Place, index: Expr, value: Source) -> Stmt
    ensures { result ≡ as_update (statement.Store array place index value) }
{
    let Some(op) = update_op(array, &index, &value) else {
        return Stmt::Store(array, place, index, value);
    };
    let expr = match value {
        Source::Value(expr) => expr,
        Source::Read => return Stmt::Store(array, place, index, Source::Read),
    };
    match expr {
        Expr::Binary(_op, left, right) => {
            // A call, since an expression dropped here without one is proved for each kind of expression.
            drop(left);
            Stmt::Combine(op, array, place, index, Box::into_inner(right))
        }
        other => Stmt::Store(array, place, index, Source::Value(other)),
    }
}

/// Which number is kept where a value stands in the relation to it, and then takes its place.
fn over(op: BinaryOp) -> Option<CombineOp>
    ensures { result ≡ over op }
{
    match op {
        BinaryOp::Less | BinaryOp::LessOrEqual => Some(CombineOp::Min),
        BinaryOp::Greater | BinaryOp::GreaterOrEqual => Some(CombineOp::Max),
        BinaryOp::Equal
        | BinaryOp::NotEqual
        | BinaryOp::BitOr
        | BinaryOp::BitXor
        | BinaryOp::BitAnd
        | BinaryOp::Add
        | BinaryOp::Subtract
        | BinaryOp::Multiply => None,
    }
}

/// The same where it stands in the relation to the value.
fn under(op: BinaryOp) -> Option<CombineOp>
    ensures { result ≡ under op }
{
    match op {
        BinaryOp::Less | BinaryOp::LessOrEqual => Some(CombineOp::Max),
        BinaryOp::Greater | BinaryOp::GreaterOrEqual => Some(CombineOp::Min),
        BinaryOp::Equal
        | BinaryOp::NotEqual
        | BinaryOp::BitOr
        | BinaryOp::BitXor
        | BinaryOp::BitAnd
        | BinaryOp::Add
        | BinaryOp::Subtract
        | BinaryOp::Multiply => None,
    }
}

/// Whether the value is the number of the array's cell with that subscript.
fn is_cell(array: ArrayId, index: &Expr, value: &Expr) -> bool
    ensures { result ≡ is_cell array index.now value.now }
{
    match value {
        Expr::Cell(other, _, subscript) => array.0 == other.0 && is_same_expr(index, subscript),
        _ => false,
    }
}

/// The operator of a store of the value in the cell, under this test.
fn extreme_by(array: ArrayId, index: &Expr, value: &Expr, test: &Expr) -> Option<CombineOp>
    ensures { result ≡ extreme_by array index.now value.now test.now }
{
    let Expr::Binary(op, left, right) = test else {
        return None;
    };
    if is_cell(array, index, right) && is_same_expr(left, value) {
        return over(*op);
    }
    if is_cell(array, index, left) && is_same_expr(right, value) {
        return under(*op);
    }
    None
}

/// The operator of a store of the value in the cell, where this test does not hold.
fn extreme_unless(array: ArrayId, index: &Expr, value: &Expr, test: &Expr) -> Option<CombineOp>
    ensures { result ≡ extreme_unless array index.now value.now test.now }
{
    let Expr::Binary(op, left, right) = test else {
        return None;
    };
    if is_cell(array, index, left) && is_same_expr(right, value) {
        return over(*op);
    }
    if is_cell(array, index, right) && is_same_expr(left, value) {
        return under(*op);
    }
    None
}

/// Whether the statements store the cell's own number in it.
fn is_own(array: ArrayId, index: &Expr, statements: &[Stmt]) -> bool
    ensures { result ≡ is_own array index.now statements.now }
{
    match statements {
        [Stmt::Store(other, _, subscript, Source::Value(value))] => {
            array.0 == other.0 && (is_same_expr(index, subscript) && is_cell(array, index, value))
        }
        _ => false,
    }
}

/// Whether the statements store nothing, or the cell's own number in it.
fn keeps(array: ArrayId, index: &Expr, others: &[Stmt]) -> bool
    ensures { result ≡ keeps array index.now others.now }
{
    match others {
        [] => true,
        _ => is_own(array, index, others),
    }
}

/// The operator of an `if` whose first statements store a value, if it is an update.
fn extreme_of(test: &Expr, first: &[Stmt], others: &[Stmt]) -> Option<CombineOp>
    ensures { result ≡ extreme_of test.now first.now others.now }
{
    let [Stmt::Store(array, _, index, Source::Value(value))] = first else {
        return None;
    };
    if keeps(*array, index, others) {
        extreme_by(*array, index, value, test)
    } else {
        None
    }
}

/// The operator of an `if` whose `else` stores a value, if it is an update.
fn extreme_else(test: &Expr, first: &[Stmt], others: &[Stmt]) -> Option<CombineOp>
    ensures { result ≡ extreme_else test.now first.now others.now }
{
    let [Stmt::Store(array, _, index, Source::Value(value))] = others else {
        return None;
    };
    if is_own(*array, index, first) {
        extreme_unless(*array, index, value, test)
    } else {
        None
    }
}

/// The update by an operator in the place of a store.
fn store_combined(op: CombineOp, store: Stmt) -> Stmt
    requires { IsStored (store ∷ []) }
    ensures { (s : Stmt) → result ≡ extreme_or (Some op) (store ∷ []) s }
{
    match store {
        Stmt::Store(array, place, index, value) => match value {
            Source::Value(value) => Stmt::Combine(op, array, place, index, value),
            Source::Read => unreachable!(),
        },
        _ => unreachable!(),
    }
}

/// The update by an operator in the place of the one store.
fn combined(op: CombineOp, stores: Vec<Stmt>) -> Stmt
    requires { IsStored stores.items }
    ensures { (s : Stmt) → result ≡ extreme_or (Some op) stores.items s }
{
    let mut stores = stores;
    match stores.pop() {
        Some(store) => store_combined(op, store),
        None => unreachable!(),
    }
}

/// The update that an `if` is, or the `if`.
fn extreme_or_choice(test: Expr, first: Vec<Stmt>, others: Vec<Stmt>) -> Stmt
    ensures { result ≡ choice_or test first.items others.items (If test first others) }
{
    if let Some(op) = extreme_of(&test, &first, &others) {
        drop(test);
        drop(others);
        return combined(op, first);
    }
    if let Some(op) = extreme_else(&test, &first, &others) {
        drop(test);
        drop(first);
        return combined(op, others);
    }
    Stmt::If(test, first, others)
}

/// The update that a statement is, or the statement.
pub fn as_update(statement: Stmt) -> Stmt
    ensures { result ≡ as_update statement }
{
    match statement {
        Stmt::Store(array, place, index, value) => store_or_update(array, place, index, value),
        Stmt::If(test, first, others) => extreme_or_choice(test, first, others),
        other => other,
    }
}
