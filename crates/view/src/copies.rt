// Copies of statements.

use base::tree::{Expr, Source, Stmt};
use std::alloc::{AllocError, Global};

fn copy_of(alloc: Global, e: &Expr) -> Result<Expr, AllocError> {
    match e {
        Expr::Number(number) => Ok(Expr::Number(*number)),
        Expr::Scalar(id) => Ok(Expr::Scalar(*id)),
        Expr::LoopName(level) => Ok(Expr::LoopName(*level)),
        Expr::Cell(array, place, index) => {
            let index = copy_of(alloc, index)?;
            Ok(Expr::Cell(*array, *place, Box::new(alloc, index)?))
        }
        Expr::Unary(op, a) => {
            let a = copy_of(alloc, a)?;
            Ok(Expr::Unary(*op, Box::new(alloc, a)?))
        }
        Expr::Binary(op, a, b) => {
            let (a, b) = (copy_of(alloc, a)?, copy_of(alloc, b)?);
            Ok(Expr::Binary(*op, Box::new(alloc, a)?, Box::new(alloc, b)?))
        }
        Expr::And(a, b) => {
            let (a, b) = (copy_of(alloc, a)?, copy_of(alloc, b)?);
            Ok(Expr::And(Box::new(alloc, a)?, Box::new(alloc, b)?))
        }
        Expr::Or(a, b) => {
            let (a, b) = (copy_of(alloc, a)?, copy_of(alloc, b)?);
            Ok(Expr::Or(Box::new(alloc, a)?, Box::new(alloc, b)?))
        }
        Expr::Shift(op, a, by) => {
            let a = copy_of(alloc, a)?;
            Ok(Expr::Shift(*op, Box::new(alloc, a)?, *by))
        }
        Expr::Divide(op, a, by) => {
            let a = copy_of(alloc, a)?;
            Ok(Expr::Divide(*op, Box::new(alloc, a)?, *by))
        }
    }
}

fn copy_of_source(alloc: Global, source: &Source) -> Result<Source, AllocError> {
    match source {
        Source::Value(e) => copy_of(alloc, e).map(Source::Value),
        Source::Read => Ok(Source::Read),
    }
}

#[cycle(copies)]
fn copy_of_stmt(alloc: Global, stmt: &Stmt) -> Result<Stmt, AllocError> {
    match stmt {
        Stmt::Declare(id, source) => Ok(Stmt::Declare(*id, copy_of_source(alloc, source)?)),
        Stmt::Assign(id, source) => Ok(Stmt::Assign(*id, copy_of_source(alloc, source)?)),
        Stmt::Store(array, place, index, source) => {
            let index = copy_of(alloc, index)?;
            Ok(Stmt::Store(*array, *place, index, copy_of_source(alloc, source)?))
        }
        Stmt::Combine(op, array, place, index, value) => {
            let index = copy_of(alloc, index)?;
            Ok(Stmt::Combine(*op, *array, *place, index, copy_of(alloc, value)?))
        }
        Stmt::Print(e) => copy_of(alloc, e).map(Stmt::Print),
        Stmt::Block(inner) => copies_of(alloc, inner).map(Stmt::Block),
        Stmt::Loop(bounds, inner) => Ok(Stmt::Loop(*bounds, copies_of(alloc, inner)?)),
        Stmt::If(test, first, second) => {
            let test = copy_of(alloc, test)?;
            let first = copies_of(alloc, first)?;
            Ok(Stmt::If(test, first, copies_of(alloc, second)?))
        }
    }
}

/// The same statements again.
#[cycle(copies)]
pub fn copies_of(alloc: Global, all: &[Stmt]) -> Result<Vec<Stmt>, AllocError> {
    let mut copies = Vec::new(alloc);
    for stmt in all {
        copies.push(copy_of_stmt(alloc, stmt)?)?;
    }
    Ok(copies)
}
