// What expressions are in C, in programs that are read.

use base::tree::{Bounds, Expr, Part, Program, Stmt};
use c_differences::{InC, Reason, Type, differences_of};
use c_meaning::{CType, Constant, constant_of, has_types, is_same_in_c, shape_of};
use c_read::read_program;
use std::alloc::{AllocError, Global};
use std::test::Fail;

// A program that prints one expression.
fn source(alloc: Global, expression: &str) -> Result<Vec<u8>, AllocError> {
    let mut text = Vec::new(alloc);
    text.extend_from_slice(b"uint64_t A[4];\nint main(void) {\nuint64_t a = 5;\nprint(")?;
    text.extend_from_slice(expression.as_bytes())?;
    text.extend_from_slice(b");\n}\n")?;
    Ok(text)
}

fn printed(program: &Program) -> Option<&Expr> {
    let Some(Part::Host(region)) = program.body.last() else {
        return None;
    };
    match region.body.last() {
        Some(Stmt::Print(e)) => Some(e),
        _ => None,
    }
}

const UNSIGNED: (CType, u64, u64) = (CType::Unsigned, 0, u64::MAX);

// Expressions with their types and bounds, where they are the same in C.
const SHAPES: [(&str, Option<(CType, u64, u64)>); 12] = [
    ("1 + 2 * 3", Some((CType::Int, 7, 7))),
    ("2147483647", Some((CType::Int, 2147483647, 2147483647))),
    ("2147483648", Some((CType::Long, 2147483648, 2147483648))),
    ("1 - (a < 3)", Some((CType::Int, 0, 1))),
    ("(a < 3) + (a < 4)", Some((CType::Int, 0, 2))),
    ("a - 7", Some(UNSIGNED)),
    ("~a", Some(UNSIGNED)),
    ("A[2 - 1]", Some(UNSIGNED)),
    ("2147483647 + 1", None),
    ("(a < 3) - 1", None),
    ("~0", None),
    ("1 << 40", None),
];

fn is_type(t: CType, other: CType) -> bool {
    matches!(
        (t, other),
        (CType::Int, CType::Int) | (CType::Long, CType::Long) | (CType::Unsigned, CType::Unsigned)
    )
}

fn has_shape(e: &Expr, wanted: Option<(CType, u64, u64)>) -> bool {
    match (shape_of(e), wanted) {
        (None, None) => true,
        (Some(shape), Some((ctype, lo, hi))) => {
            is_type(shape.ctype, ctype) && shape.bounds.lo == lo && shape.bounds.hi == hi
        }
        _ => false,
    }
}

// The shape of an expression, and whether the program that prints it is the same in C, are as wanted.
fn is_as_wanted(
    alloc: Global,
    expression: &str,
    wanted: Option<(CType, u64, u64)>,
) -> Result<bool, Fail> {
    let text = source(alloc, expression)?;
    let program = read_program(alloc, &text)?;
    let Some(e) = printed(&program) else {
        return Ok(false);
    };
    Ok(has_shape(e, wanted) && is_same_in_c(&program) == wanted.is_some())
}

#[test]
fn shapes_are_those_of_c(rt: HostRuntime) -> Result<(), Fail> {
    for (expression, wanted) in SHAPES {
        assert!(rt; is_as_wanted(rt.alloc(), expression, wanted)?);
    }
    Ok(())
}

// Expressions with their values in C: a number, none, or what depends on names.
const VALUES: [(&str, Constant); 8] = [
    ("0 - 7", Constant::Known(CType::Int, -7)),
    ("(0 - 7) / 2", Constant::Known(CType::Int, -3)),
    ("~2147483648", Constant::Known(CType::Long, -2147483649)),
    ("!3", Constant::Known(CType::Int, 0)),
    ("1 << 31", Constant::Undefined),
    ("65536 * 65536", Constant::Undefined),
    ("a + 1", Constant::Unknown),
    ("(a < 3) - 1", Constant::Unknown),
];

fn is_constant(found: Constant, wanted: Constant) -> bool {
    match (found, wanted) {
        (Constant::Known(t, n), Constant::Known(u, m)) => is_type(t, u) && n == m,
        (Constant::Undefined, Constant::Undefined) => true,
        (Constant::Unknown, Constant::Unknown) => true,
        _ => false,
    }
}

fn has_value(alloc: Global, expression: &str, wanted: Constant) -> Result<bool, Fail> {
    let text = source(alloc, expression)?;
    let program = read_program(alloc, &text)?;
    let Some(e) = printed(&program) else {
        return Ok(false);
    };
    Ok(is_constant(constant_of(e), wanted))
}

#[test]
fn values_are_those_of_c(rt: HostRuntime) -> Result<(), Fail> {
    for (expression, wanted) in VALUES {
        assert!(rt; has_value(rt.alloc(), expression, wanted)?);
    }
    Ok(())
}

#[test]
fn heads_have_types(rt: HostRuntime) -> Result<(), Fail> {
    let greatest = 9223372036854775807;
    let typed = Bounds {
        first: 0,
        end: greatest,
        step: 1,
    };
    let untyped = Bounds {
        first: 0,
        end: greatest + 1,
        step: 1,
    };
    assert!(rt; has_types(&typed));
    assert!(rt; !has_types(&untyped));
    Ok(())
}

// Expressions of which something is told: the column of it, why, the type, and the value in C.
const TOLD: [(&str, usize, Reason, Type, InC); 6] = [
    (
        "~0 >> 60",
        7,
        Reason::Complement,
        Type::Int,
        InC::Negative(1),
    ),
    (
        "(0 - 7) / 2",
        10,
        Reason::Below,
        Type::Int,
        InC::Negative(7),
    ),
    (
        "(a < 3) - 1 > 0",
        15,
        Reason::Below,
        Type::Int,
        InC::Unknown,
    ),
    ("1 << 40", 9, Reason::Count, Type::Int, InC::Undefined),
    (
        "0xFFFFFFFF + 1",
        18,
        Reason::Above,
        Type::UnsignedInt,
        InC::Number(0),
    ),
    (
        "2147483647 + 1",
        18,
        Reason::Above,
        Type::Int,
        InC::Undefined,
    ),
];

// Nothing is told of these; of the last three the numbers are no plain decimals.
const SILENT: [(&str, bool); 6] = [
    ("1 + 2 * 3", true),
    ("a - 7", true),
    ("A[1 - 1]", true),
    ("0ul - 7", false),
    ("~0ul >> 60", false),
    ("0xFFFFFFFFFF + 1", false),
];

fn is_told(alloc: Global, row: (&str, usize, Reason, Type, InC)) -> Result<bool, Fail> {
    let (expression, column, reason, ctype, in_c) = row;
    let text = source(alloc, expression)?;
    let program = read_program(alloc, &text)?;
    let told = differences_of(alloc, &text, &program)?;
    let [only] = &told.list[..] else {
        return Ok(false);
    };
    let placed = only.place.line == 4 && only.place.column == column;
    Ok(placed && only.reason == reason && only.ctype == ctype && only.in_c == in_c)
}

fn is_silent(alloc: Global, expression: &str, plain: bool) -> Result<bool, Fail> {
    let text = source(alloc, expression)?;
    let program = read_program(alloc, &text)?;
    let told = differences_of(alloc, &text, &program)?;
    Ok(told.list.is_empty() && told.plain == plain)
}

#[test]
fn differences_are_told(rt: HostRuntime) -> Result<(), Fail> {
    for row in TOLD {
        assert!(rt; is_told(rt.alloc(), row)?);
    }
    for (expression, plain) in SILENT {
        assert!(rt; is_silent(rt.alloc(), expression, plain)?);
    }
    Ok(())
}
