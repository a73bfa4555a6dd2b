// Which programs are the same in C.

ghost use Rattle.std.specs.Prelude.{◌≡◌, ℕ, List, IsTrue, is_some};
ghost use Rattle.std.specs.List.{list_all};
ghost use Rattle.base.specs.Meaning.{erased};
ghost use Rattle.c_meaning.specs.Programs.{c_erased, has_types};
ghost use Rattle.c_meaning.specs.Same.{same_in_c, same_part, same_program, same_region, same_source, same_stmt};

use crate::shape::{has_literal_type, shape_of};
use base::tree::{Bounds, Expr, Part, Program, Region, Source, Stmt};

fn expr_is_same(e: &Expr) -> bool
    ensures { result ≡ same_in_c e.now }
{
    shape_of(e).is_some()
}

fn source_is_same(v: &Source) -> bool
    ensures { result ≡ same_source v.now }
{
    match v {
        Source::Value(e) => expr_is_same(e),
        Source::Read => true,
    }
}

/// Whether the literals of a loop's head have types in C.
pub fn has_types(b: &Bounds) -> bool
    ensures { result ≡ has_types b.now }
{
    has_literal_type(b.first) && has_literal_type(b.end) && has_literal_type(b.step)
}

#[tactic(auto, using(crate::proofs::SameRows::same_Block))]
#[cycle(statements)]
fn stmt_is_same(s: &Stmt) -> bool
    ensures { result ≡ same_stmt s.now }
{
    match s {
        Stmt::Declare(_, v) | Stmt::Assign(_, v) => source_is_same(v),
        Stmt::Store(_, _, e, v) => expr_is_same(e) && source_is_same(v),
        Stmt::Combine(_, _, _, e, v) => expr_is_same(e) && expr_is_same(v),
        Stmt::Print(e) => expr_is_same(e),
        Stmt::Block(all) => body_is_same(all),
        Stmt::Loop(b, body) => has_types(b) & body_is_same(body),
        Stmt::If(c, first, second) => {
            expr_is_same(c) & body_is_same(first) & body_is_same(second)
        }
    }
}

#[cycle(statements)]
fn body_is_same(all: &[Stmt]) -> bool
    ensures { result ≡ list_all same_stmt all.now }
{
    'all: for s in all {
        if !stmt_is_same(s) {
            return false;
        }
    }
    true
}

fn region_is_same(r: &Region) -> bool
    ensures { result ≡ same_region r.now }
{
    body_is_same(&r.body)
}

#[cycle(parts)]
fn part_is_same(part: &Part) -> bool
    ensures { result ≡ same_part part.now }
{
    match part {
        Part::Host(r) | Part::Target(_, r) => region_is_same(r),
        Part::Block(all) => parts_are_same(all),
        Part::Loop(b, body) => has_types(b) & parts_are_same(body),
        Part::Data(_, body) => parts_are_same(body),
        Part::Alone(_, _) => true,
    }
}

#[cycle(parts)]
fn parts_are_same(parts: &[Part]) -> bool
    ensures { result ≡ list_all same_part parts.now }
{
    'parts: for part in parts {
        if !part_is_same(part) {
            return false;
        }
    }
    true
}

/// Whether every expression of a program, and each literal of its loops' heads, passes the test. Such a program does in C
/// what it does here without its directives, for every input. It takes one pass, and no memory.
pub fn is_same_in_c(p: &Program) -> bool
    ensures value { result ≡ same_program p.now }
    ensures same { IsTrue result → (input : List ℕ) → c_erased p.now input ≡ erased p.now input }
{
    parts_are_same(&p.body)
}
