// A walk over a program, beside the tokens of its source that is written out.

use crate::constants::{Numbers, SmallType};
use crate::difference::{Difference, InC, Reason};
use crate::literal::{Type, is_plain};
use crate::shape::{
    Misfit, Outcome, Shape, binary, counter, division, flag, number, shift, unary, unsigned,
};
use crate::stream::Stream;
use base::tree::{
    BinaryOp, Bounds, CombineOp, DivideOp, Divisor, Expr, Part, Place, ScalarId, ShiftCount,
    ShiftOp, Source, Stmt, UnaryOp,
};
use std::alloc::AllocError;

/// A loop around: what is known of its name, where that stands in the head, and its first number and its end.
#[derive(Clone, Copy)]
pub struct Known {
    shape: Shape,
    name: Place,
    first: u64,
    end: u64,
}

/// A scalar of the type `int` or `bool`.
#[derive(Clone, Copy)]
pub struct Small {
    scalar: ScalarId,
    shape: Shape,
}

/// What has been told so far.
#[derive(Drop)]
pub struct Walk<'a, 'w> {
    pub numbers: &'w Numbers<'a>,
    pub stream: Stream<'a, 'w>,
    pub found: Vec<Difference>,
    /// The loops around, the outermost first.
    pub loops: Vec<Known>,
    /// The scalars with small values.
    pub small: Vec<Small>,
    /// How often it may still be asked whether a temporary stands at a place, which is looked for in all tokens.
    pub questions: u32,
    /// Each number so far is written as a decimal without a suffix, `printf` prints none of a type with 32 bits, and no
    /// loop's name and no scalar is of the type `int` or `bool`.
    pub plain: bool,
}

// The number that an expression is, if it is one.
fn literal(e: &Expr) -> Option<u64> {
    match e {
        Expr::Number(n) => Some(*n),
        _ => None,
    }
}

// The operator of an update in an expression. None is the least or the greatest of two numbers.
fn operator_of(op: CombineOp) -> Option<BinaryOp> {
    match op {
        CombineOp::Add => Some(BinaryOp::Add),
        CombineOp::Multiply => Some(BinaryOp::Multiply),
        CombineOp::BitAnd => Some(BinaryOp::BitAnd),
        CombineOp::BitOr => Some(BinaryOp::BitOr),
        CombineOp::BitXor => Some(BinaryOp::BitXor),
        CombineOp::Min | CombineOp::Max => None,
    }
}

// What a logical operator gives.
fn logical(left: Option<Shape>, right: Option<Shape>) -> Option<Shape> {
    match (left, right) {
        (Some(_), Some(_)) => Some(flag()),
        _ => None,
    }
}

// What is known of a number of the type `int`.
fn any_int() -> Shape {
    counter(0, Type::Int.greatest().saturating_add(1))
}

fn is_any_int(shape: Shape) -> bool {
    shape.lo == 0 && shape.hi == Type::Int.greatest() && shape.ctype == Type::Int
}

// Whether what an operator gives is an `int`, where C says anything of it.
fn is_open(op: BinaryOp, s: Shape, t: Shape) -> bool {
    (is_any_int(s) || is_any_int(t))
        && s.ctype == Type::Int
        && t.ctype == Type::Int
        && matches!(
            op,
            BinaryOp::Add | BinaryOp::Multiply | BinaryOp::BitOr | BinaryOp::BitXor
        )
}

impl Walk<'_, '_> {
    // Whether nothing has been told of the place. What is written once and stands twice in the source that is written out,
    // as `e` of `A[e] += 1` and what stands in a function, is so told once.
    fn is_new(&self, place: Place) -> bool {
        'found: for back in 1..self.found.len().saturating_add(1) {
            if let Some(told) = self.found.get(self.found.len() - back) {
                if told.place.line == place.line && told.place.column == place.column {
                    return false;
                }
            }
        }
        true
    }

    fn tell(
        &mut self,
        place: Place,
        misfit: Misfit,
        operand: Option<u64>,
    ) -> Result<(), AllocError> {
        if !self.is_new(place) {
            return Ok(());
        }
        self.found.push(Difference {
            place,
            reason: misfit.reason,
            ctype: misfit.ctype,
            in_c: misfit.in_c,
            here: misfit.here,
            operand,
        })?;
        Ok(())
    }

    // What an operator gives, whose place this is. One that may not be the same in C is told.
    fn result(
        &mut self,
        place: Place,
        outcome: Outcome,
        operand: Option<u64>,
    ) -> Result<Option<Shape>, AllocError> {
        match outcome {
            Ok(shape) => Ok(Some(shape)),
            Err(misfit) => {
                self.tell(place, misfit, operand)?;
                Ok(None)
            }
        }
    }

    // The number that stands next, whether it is the whole of a constant expression or not.
    fn number(&mut self, n: u64, is_whole: bool) -> Result<Option<Shape>, AllocError> {
        let place = self.stream.number();
        let ctype = self.numbers.type_at(place, n);
        if !is_plain(n, ctype) || !self.numbers.is_decimal_at(place, n) {
            self.plain = false;
        }
        if is_whole && !self.numbers.is_last_at(place) {
            self.plain = false;
        }
        self.result(place, number(ctype, n), Some(n))
    }

    #[cycle(expressions)]
    fn of_unary(&mut self, op: UnaryOp, a: &Expr) -> Result<Option<Shape>, AllocError> {
        let place = self.stream.unary(op);
        match self.expr(a)? {
            None => Ok(None),
            Some(s) => self.result(place, unary(op, s), literal(a)),
        }
    }

    // What both operands of an operator give.
    fn of_both(
        &mut self,
        place: Place,
        op: BinaryOp,
        operands: (Option<Shape>, Option<Shape>),
        operand: Option<u64>,
    ) -> Result<Option<Shape>, AllocError> {
        match operands {
            (Some(s), Some(t)) => {
                if !self.plain && is_open(op, s, t) {
                    return Ok(Some(any_int()));
                }
                self.result(place, binary(op, s, t), operand)
            }
            _ => Ok(None),
        }
    }

    #[cycle(expressions)]
    fn of_shift(
        &mut self,
        op: ShiftOp,
        a: &Expr,
        n: ShiftCount,
    ) -> Result<Option<Shape>, AllocError> {
        let left = self.expr(a)?;
        let place = self.stream.shift(op);
        let is_whole = self.numbers.is_changing_at(place);
        self.number(n.count as u64, is_whole)?;
        match left {
            None => Ok(None),
            Some(s) => self.result(place, shift(op, s, n), literal(a)),
        }
    }

    #[cycle(expressions)]
    fn of_division(
        &mut self,
        op: DivideOp,
        a: &Expr,
        n: Divisor,
    ) -> Result<Option<Shape>, AllocError> {
        let left = self.expr(a)?;
        let place = self.stream.divide(op);
        let is_whole = self.numbers.is_changing_at(place);
        let right = self.number(n.value, is_whole)?;
        match (left, right) {
            (Some(s), Some(t)) => self.result(place, division(op, s, n, t), literal(a)),
            _ => Ok(None),
        }
    }

    // A cell, which is a name alone where that is a boxed scalar's.
    #[cycle(expressions)]
    fn of_cell(&mut self, subscript: &Expr) -> Result<Option<Shape>, AllocError> {
        let place = self.stream.name();
        if !self.stream.is_indexed() {
            return Ok(Some(self.named(place, unsigned())));
        }
        match self.expr(subscript)? {
            None => Ok(None),
            Some(_) => Ok(Some(self.named(place, unsigned()))),
        }
    }

    // What is known of a name, or of its cell: one that is declared by `int` has small values.
    fn named(&mut self, place: Place, shape: Shape) -> Shape {
        if !self.numbers.is_int_name_at(place) {
            return shape;
        }
        self.plain = false;
        any_int()
    }

    // The type and the bounds of an expression, or none where one of it was told.
    #[cycle(expressions)]
    fn expr(&mut self, e: &Expr) -> Result<Option<Shape>, AllocError> {
        match e {
            Expr::Number(n) => self.number(*n, false),
            Expr::Scalar(scalar) => {
                let place = self.stream.name();
                let shape = self.scalar(*scalar);
                Ok(Some(self.named(place, shape)))
            }
            Expr::LoopName(level) => {
                let place = self.stream.name();
                Ok(Some(self.loop_name(*level as usize, place)))
            }
            Expr::Cell(_, _, subscript) => self.of_cell(subscript),
            Expr::Unary(op, a) => self.of_unary(*op, a),
            Expr::Binary(op, a, b) => {
                let left = self.expr(a)?;
                let place = self.stream.binary(*op);
                let right = self.expr(b)?;
                self.of_both(place, *op, (left, right), literal(a).or(literal(b)))
            }
            Expr::And(a, b) => {
                let left = self.expr(a)?;
                self.stream.and();
                Ok(logical(left, self.expr(b)?))
            }
            Expr::Or(a, b) => {
                let left = self.expr(a)?;
                self.stream.or();
                Ok(logical(left, self.expr(b)?))
            }
            Expr::Shift(op, a, n) => self.of_shift(*op, a, *n),
            Expr::Divide(op, a, n) => self.of_division(*op, a, *n),
        }
    }

    fn source(&mut self, v: &Source) -> Result<(), AllocError> {
        self.stream.assigns();
        if let Source::Value(e) = v {
            self.expr(e)?;
        }
        Ok(())
    }

    // A number of 32 bits is not what `printf` takes for `%lu`.
    fn printed(&mut self, e: &Expr) -> Result<(), AllocError> {
        let place = self.stream.print();
        let is_printf = self.numbers.is_printf_at(place);
        let Some(shape) = self.expr(e)? else {
            return Ok(());
        };
        if !is_printf || shape.ctype.width() == 64 {
            return Ok(());
        }
        self.plain = false;
        let misfit = Misfit {
            reason: Reason::Printed,
            ctype: shape.ctype,
            in_c: InC::Undefined,
            here: shape.single(),
        };
        self.tell(place, misfit, literal(e))
    }

    // What is known of a scalar: one of a type that is no `uint64_t` has small values.
    fn scalar(&self, scalar: ScalarId) -> Shape {
        'small: for known in &self.small {
            if known.scalar.0 == scalar.0 {
                return known.shape;
            }
        }
        unsigned()
    }

    // A scalar whose name stands at a place where it is declared.
    fn declare(&mut self, scalar: ScalarId, place: Place) -> Result<(), AllocError> {
        let shape = match self.numbers.small_type_at(place) {
            None => return Ok(()),
            Some(SmallType::Int) => any_int(),
            Some(SmallType::Bool) => flag(),
        };
        self.plain = false;
        self.small.push(Small { scalar, shape })?;
        Ok(())
    }

    // An assignment. Of what is added to an `int` that has small values the sum is one, or C says nothing of it.
    fn assign(&mut self, scalar: ScalarId, v: &Source) -> Result<(), AllocError> {
        if self.scalar(scalar).ctype.width() == 32 {
            if let Source::Value(Expr::Binary(BinaryOp::Add, own, added)) = v {
                if let Expr::Scalar(other) = &**own {
                    if other.0 == scalar.0 {
                        self.stream.assigns();
                        self.stream.name();
                        self.stream.binary(BinaryOp::Add);
                        self.expr(added)?;
                        return Ok(());
                    }
                }
            }
        }
        self.source(v)
    }

    // The name of a loop. Where it stands for a temporary, it is an `int` in C, whatever the loop's is.
    fn loop_name(&mut self, level: usize, place: Place) -> Shape {
        let Some(known) = self.loops.get(level).copied() else {
            return unsigned();
        };
        if !self.numbers.is_another_at(place, known.name) {
            return known.shape;
        }
        if self.questions == 0 {
            self.plain = false;
            return known.shape;
        }
        self.questions -= 1;
        if !self.numbers.is_temporary_at(place) {
            return known.shape;
        }
        self.plain = false;
        counter(known.first, known.end)
    }

    // The name of a loop of the type `int`, whose end is told where the type may not hold the number behind the last turn.
    fn counted(&mut self, bounds: &Bounds, end: Place) -> Result<Shape, AllocError> {
        self.plain = false;
        let behind = bounds.end.saturating_sub(1).saturating_add(bounds.step);
        if behind > Type::Int.greatest() {
            let misfit = Misfit {
                reason: Reason::Counter,
                ctype: Type::Int,
                in_c: InC::Unknown,
                here: None,
            };
            self.tell(end, misfit, None)?;
        }
        Ok(counter(bounds.first, bounds.end))
    }

    // The head of a loop, behind which its name is known.
    fn head(&mut self, bounds: &Bounds) -> Result<(), AllocError> {
        let name = self.stream.name();
        self.number(bounds.first, true)?;
        let end = self.stream.name();
        self.number(bounds.end, true)?;
        self.stream.name();
        self.number(bounds.step, true)?;
        let shape = if self.numbers.is_int_at(name) {
            self.counted(bounds, end)?
        } else {
            unsigned()
        };
        self.loops.push(Known {
            shape,
            name,
            first: bounds.first,
            end: bounds.end,
        })?;
        Ok(())
    }

    // An update: the cell, and behind the sign `=` the cell again, the operator and the value.
    fn update(&mut self, op: CombineOp, subscript: &Expr, value: &Expr) -> Result<(), AllocError> {
        let Some(op) = operator_of(op) else {
            return self.extreme(subscript, value);
        };
        self.of_cell(subscript)?;
        self.stream.assigns();
        self.of_cell(subscript)?;
        self.stream.binary(op);
        self.expr(value)?;
        Ok(())
    }

    // The cell, and behind the sign `=` the cell again.
    fn own_store(&mut self, subscript: &Expr) -> Result<(), AllocError> {
        self.of_cell(subscript)?;
        self.stream.assigns();
        self.of_cell(subscript)?;
        Ok(())
    }

    // An `if` that stores the value where the cell's number is less, or greater. The value is told where it is stored.
    fn extreme(&mut self, subscript: &Expr, value: &Expr) -> Result<(), AllocError> {
        self.stream.opens();
        let stores_own = self.stream.stores_own();
        let others = !stores_own && self.stream.has_else();
        if stores_own {
            self.own_store(subscript)?;
            self.stream.opens();
        }
        self.of_cell(subscript)?;
        self.stream.assigns();
        self.expr(value)?;
        if others {
            self.stream.opens();
            self.own_store(subscript)?;
        }
        Ok(())
    }

    #[cycle(statements)]
    fn stmt(&mut self, s: &Stmt) -> Result<(), AllocError> {
        match s {
            Stmt::Declare(scalar, v) => {
                let place = self.stream.name();
                self.declare(*scalar, place)?;
                self.source(v)
            }
            Stmt::Assign(scalar, v) => {
                self.stream.name();
                self.assign(*scalar, v)
            }
            Stmt::Store(_, _, e, v) => {
                self.of_cell(e)?;
                self.source(v)
            }
            Stmt::Combine(op, _, _, e, v) => self.update(*op, e, v),
            Stmt::Print(e) => self.printed(e),
            Stmt::Block(all) => self.stmts(all),
            Stmt::Loop(bounds, body) => {
                self.head(bounds)?;
                self.stmts(body)?;
                self.loops.pop();
                Ok(())
            }
            Stmt::If(c, first, second) => {
                self.expr(c)?;
                self.stmts(first)?;
                self.stmts(second)
            }
        }
    }

    #[cycle(statements)]
    fn stmts(&mut self, all: &[Stmt]) -> Result<(), AllocError> {
        'all: for s in all {
            self.stmt(s)?;
        }
        Ok(())
    }

    #[cycle(parts)]
    fn part(&mut self, part: &Part) -> Result<(), AllocError> {
        match part {
            Part::Host(region) | Part::Target(_, region) => self.stmts(&region.body),
            Part::Block(all) | Part::Data(_, all) => self.parts(all),
            Part::Loop(bounds, body) => {
                self.head(bounds)?;
                self.parts(body)?;
                self.loops.pop();
                Ok(())
            }
            Part::Alone(_, _) => Ok(()),
        }
    }

    /// Tells what is different in some parts of a program.
    #[cycle(parts)]
    pub fn parts(&mut self, parts: &[Part]) -> Result<(), AllocError> {
        'parts: for part in parts {
            self.part(part)?;
        }
        Ok(())
    }
}
