//! What is known where an expression or a statement stands.

use base::tree::{ArrayId, ScalarId};
use std::alloc::Global;

/// What a visible name means.
#[derive(Clone, Copy)]
pub enum Meaning {
    Array(ArrayId),
    /// Whether it is declared inside a target.
    Scalar(ScalarId, bool),
    /// A scalar that is the one cell of the array.
    Boxed(ArrayId, ScalarId),
    /// How many loops stand around the loop.
    Loop(u32),
}

/// A scalar of that name is the cell of the array, where it is declared outside of targets.
#[derive(Clone, Copy)]
pub struct BoxedName<'a> {
    pub name: &'a [u8],
    pub array: ArrayId,
}

/// A name that is declared.
#[derive(Clone, Copy)]
pub struct Name<'a> {
    pub text: &'a [u8],
    pub meaning: Meaning,
}

/// An open block.
#[derive(Drop)]
pub struct Frame<'a> {
    /// The names declared in it, in order of declaration.
    pub names: Vec<Name<'a>>,
    /// It is inside a target.
    pub inside: bool,
    /// It is under an `if`.
    pub choice: bool,
}

#[derive(Drop)]
pub struct Scope<'a> {
    pub alloc: Global,
    /// The open blocks, the outermost first: that of the globals.
    pub frames: Vec<Frame<'a>>,
    /// The scalars that are boxed where they are declared.
    pub boxes: Vec<BoxedName<'a>>,
    /// The name that is being declared. It is not visible yet.
    pub fresh: Option<&'a [u8]>,
    /// The next block is that of a target.
    pub target: bool,
    /// The next block is that of an `if`.
    pub choice: bool,
    /// The limit in the head of the last loop.
    pub limit: u64,
    /// The length of the last array.
    pub cells: u64,
    /// How many arrays are declared.
    pub arrays: u32,
    /// How many scalars are declared: the number of the next.
    pub scalars: u32,
    /// How many statements have begun.
    pub statements: u32,
}

impl<'a> Frame<'a> {
    ghost use Rattle.std.specs.Prelude.{◌≡◌};
    ghost use Rattle.c_expressions.specs.Means.{meaning_of};
    ghost use Rattle.c_expressions.specs.Scopes.{names_in};

    /// What a name that is declared in the block means.
    #[tactic(auto, using(crate::proofs::Contexts::newest_is, crate::proofs::Contexts::newest_not))]
    fn meaning(&self, name: &[u8]) -> Option<Meaning>
        ensures { result ≡ meaning_of (names_in self.now) name.now }
    {
        let mut found = None;
        'names: for declared in &self.names {
            if declared.text == name {
                found = Some(declared.meaning);
            }
        }
        found
    }
}

impl<'a> Scope<'a> {
    ghost use Rattle.std.specs.Prelude.{◌≡◌, ℕ, IfSome, IsSome, true};
    ghost use Rattle.std.specs.Option.{option_map};
    ghost use Rattle.c_grammar.specs.Rules.{sort_of};
    ghost use Rattle.c_expressions.specs.Means.{meaning_of};
    ghost use Rattle.std.specs.Prelude.{is_some};
    ghost use Rattle.c_grammar.specs.Rules.{is_boxes_name};
    ghost use Rattle.c_expressions.specs.Scopes.{box_numbers, box_of, boxes_of, context_of, names_of, sort_of_meaning, is_array_meaning, is_operand};

    /// The array whose cell a scalar of that name is, if it is boxed where it is declared.
    pub fn box_of(&self, name: &[u8]) -> Option<ArrayId>
        ensures array { result ≡ box_of (boxes_of self.now) name.now }
        ensures named { is_some result ≡ is_boxes_name (box_numbers self.now) name.now }
    {
        let mut rest = self.boxes.as_slice();
        'boxes: while let [boxed, behind @ ..] = rest {
            rest = behind;
            if boxed.name == name {
                return Some(boxed.array);
            }
        }
        None
    }

    /// What a visible name means.
    #[tactic(auto, using(crate::proofs::Contexts::innermost_is, crate::proofs::Contexts::innermost_not, crate::proofs::Contexts::sort_is))]
    pub fn meaning(&self, name: &[u8]) -> Option<Meaning>
        ensures means { result ≡ meaning_of (names_of self.now) name.now }
        ensures sort { (d n : ℕ) → option_map sort_of_meaning result ≡ sort_of (context_of self.now d n) name.now }
    {
        let mut found = None;
        'frames: for frame in &self.frames {
            if let Some(meaning) = frame.meaning(name) {
                found = Some(meaning);
            }
        }
        found
    }
}
