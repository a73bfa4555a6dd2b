//! How the open blocks and their names change.

use crate::scope::{Frame, Meaning, Name, Scope};
use std::alloc::AllocError;

/// The name of a loop whose block is opened.
#[derive(Clone, Copy)]
pub struct Turn<'a> {
    pub name: &'a [u8],
    /// How many loops stand around the loop.
    pub level: u32,
}

impl<'a> Scope<'a> {
    ghost use Rattle.std.specs.Prelude.{◌≡◌, ◌∷◌, ◌++◌, [], ◌||◌, ◌+◌, ◌<◌, ℕ, List, Some, length, map, reverse, OnOk, OnErr, IfOk};
    ghost use Rattle.c_grammar.specs.Rules.{inside, under_if, opened, declared, below};
    ghost use Rattle.c_expressions.specs.Scopes.{context_of, names_of, seen_name, sort_of_meaning};
    ghost use Rattle.c_expressions.specs.Changes.{turn_name, turn_names, names_below, IsSameScope};

    /// Whether the innermost block is inside a target.
    #[tactic(auto, using(crate::proofs::Blocks::inside_none, crate::proofs::Blocks::inside_last))]
    pub fn is_inside(&self) -> bool
        ensures { (d n : ℕ) → result ≡ inside (context_of self.now d n) }
    {
        match self.frames.last() {
            None => false,
            Some(frame) => frame.inside,
        }
    }

    /// Whether the innermost block is under an `if`.
    #[tactic(auto, using(crate::proofs::Blocks::choice_none, crate::proofs::Blocks::choice_last))]
    pub fn is_under_if(&self) -> bool
        ensures { (d n : ℕ) → result ≡ under_if (context_of self.now d n) }
    {
        match self.frames.last() {
            None => false,
            Some(frame) => frame.choice,
        }
    }

    /// The names of a block that is opened.
    fn first_names(&self, turn: Option<Turn<'a>>) -> Result<Vec<Name<'a>>, AllocError>
        ensures { IfOk result (λ v. map seen_name (reverse v.items) ≡ turn_names turn.entry) }
    {
        let mut names = Vec::new(self.alloc);
        if let Some(turn) = turn {
            names.push(Name {
                text: turn.name,
                meaning: Meaning::Loop(turn.level),
            })?;
        }
        Ok(names)
    }

    /// Whether the block that is opened next is inside a target.
    fn is_next_inside(&self) -> bool
        ensures { (d n : ℕ) → result ≡ (inside (context_of self.now d n) || self.now.target) }
    {
        if self.is_inside() {
            return true;
        }
        self.target
    }

    /// Whether the block that is opened next is under an `if`.
    fn is_next_under_if(&self) -> bool
        ensures { (d n : ℕ) → result ≡ (under_if (context_of self.now d n) || self.now.choice) }
    {
        if self.is_under_if() {
            return true;
        }
        self.choice
    }

    /// The block that is opened next.
    fn next_frame(&self, names: Vec<Name<'a>>) -> Frame<'a>
        ensures names { result.names.items ≡ names.entry.items }
        ensures inside { (d n : ℕ) → result.inside ≡ (inside (context_of self.now d n) || self.now.target) }
        ensures choice { (d n : ℕ) → result.choice ≡ (under_if (context_of self.now d n) || self.now.choice) }
    {
        Frame {
            names,
            inside: self.is_next_inside(),
            choice: self.is_next_under_if(),
        }
    }

    /// Opens a block, with the name of the loop whose block it is. An error is want of memory, and changes nothing.
    pub fn open_frame(&mut self, turn: Option<Turn<'a>>) -> Result<(), AllocError>
        ensures opened { OnOk result ((d n : ℕ) → context_of self.new d n ≡
            opened (record (context_of self.old d n) { turn = turn_name turn.entry })) }
        ensures names { OnOk result (names_of self.new ≡ turn_names turn.entry ++ names_of self.old) }
        ensures next { self.new.scalars ≡ self.old.scalars }
        ensures memory { OnErr result (IsSameScope self.old self.new) }
    {
        let names = self.first_names(turn)?;
        let frame = self.next_frame(names);
        self.frames.push(frame)?;
        self.target = false;
        self.choice = false;
        Ok(())
    }

    /// Closes the innermost block, if one is open.
    pub fn close_frame(&mut self)
        ensures closed { (d n : ℕ) → context_of self.new d n ≡
            record (context_of self.old d n) { frames = below (context_of self.old d n).frames } }
        ensures names { names_of self.new ≡ names_below self.old }
        ensures next { self.new.scalars ≡ self.old.scalars }
    {
        self.frames.pop();
    }

    /// Declares a name in the innermost block; where none is open, in a new one. An error is want of memory, and
    /// changes nothing.
    pub fn declare(&mut self, text: &'a [u8], meaning: Meaning) -> Result<(), AllocError>
        ensures declared { OnOk result ((d n : ℕ) → context_of self.new d n ≡
            declared (sort_of_meaning meaning) (record (context_of self.old d n) { fresh = Some text.now })) }
        ensures names { OnOk result (names_of self.new ≡ (text.now, meaning) ∷ names_of self.old) }
        ensures next { self.new.scalars ≡ self.old.scalars }
        ensures memory { OnErr result (IsSameScope self.old self.new) }
    {
        if self.frames.is_empty() {
            return self.declare_alone(text, meaning);
        }
        let last = self.frames.len() - 1;
        let frame = &mut self.frames[last];
        frame.names.push(Name { text, meaning })?;
        self.fresh = None;
        Ok(())
    }

    /// Declares a name where no block is open.
    fn declare_alone(&mut self, text: &'a [u8], meaning: Meaning) -> Result<(), AllocError>
        requires { self.old.frames.items ≡ [] }
        ensures declared { OnOk result ((d n : ℕ) → context_of self.new d n ≡
            declared (sort_of_meaning meaning) (record (context_of self.old d n) { fresh = Some text.now })) }
        ensures names { OnOk result (names_of self.new ≡ (text.now, meaning) ∷ names_of self.old) }
        ensures next { self.new.scalars ≡ self.old.scalars }
        ensures memory { OnErr result (IsSameScope self.old self.new) }
    {
        let mut names = Vec::new(self.alloc);
        names.push(Name { text, meaning })?;
        self.frames.push(Frame {
            names,
            inside: false,
            choice: false,
        })?;
        self.fresh = None;
        Ok(())
    }
}
