//! What a program of the language means as C, and a test by which it means the same.
#![tactic(auto)]

ghost use Rattle.c_meaning.specs.Same.{SameErased, SameRuns, SameValue};
ghost use Rattle.c_meaning.specs.Worked.{ExamplesAsSaid};

pub use crate::constant::{Constant, constant_of};
pub use crate::program::{has_types, is_same_in_c};
pub use crate::shape::{
    CType, Shape, common, has_literal_type, literal_type, result_type, shape_of, width,
};

mod constant;
mod program;
mod shape;

/// An expression that passes the test has in C the value that it has in the language.
pub fn same_value()
    ensures { SameValue }
{}

/// Statements and regions whose expressions pass the test do in C what they do in the language.
pub fn same_runs()
    ensures { SameRuns }
{}

/// A program whose expressions all pass the test does in C what it does in the language, for every input.
pub fn same_erased()
    ensures { SameErased }
{}

/// What the definitions say of some expressions.
pub fn examples_as_said()
    ensures { ExamplesAsSaid }
{}
