//! What stands right before a token.

ghost use Rattle.std.specs.Prelude.{◌≡◌};

use crate::declarations::Form;
use crate::found::{Found, depth_behind};
use c_terminals::{Ahead, Terminal, Token};
use c_tokens::Sign;
use std::alloc::{AllocError, Global};

/// What stands right before a token, by the members of a struct.
#[derive(Clone, Copy)]
pub enum Before<'a, 'l, 's> {
    Nothing,
    /// The name of one.
    OfOne(Ahead<'a, 'l, 's>),
    /// The name of many.
    OfMany(Ahead<'a, 'l, 's>),
    /// One of many.
    OfRow(Ahead<'a, 'l, 's>),
    /// The name in the declaration of an array.
    OfLength(Ahead<'a, 'l, 's>),
    /// The type in a declaration.
    OfType(Form, Ahead<'a, 'l, 's>),
}

/// What stands before each `[` that is open, the innermost last.
#[derive(Drop)]
struct Indices<'a, 'l, 's> {
    indices: Vec<Before<'a, 'l, 's>>,
}

#[derive(Drop)]
pub struct State<'a, 'l, 's> {
    /// How many brackets are open.
    pub depth: usize,
    indices: Indices<'a, 'l, 's>,
    pub before: Before<'a, 'l, 's>,
}

impl<'a, 'l, 's> Before<'a, 'l, 's> {
    ghost use Rattle.std.specs.Prelude.{◌≡◌};
    ghost use Rattle.c_grammar.specs.Structs.{before_name, behind_index, behind_other};
    ghost use Rattle.c_structs.specs.Found.{seen_found};
    ghost use Rattle.c_structs.specs.Rows.{seen_before};
    ghost use Rattle.c_terminals.specs.Seen.{seen_terminal};

    // A token by itself.
    fn named(found: &Found<'a, 'l, 's>, terminal: Terminal<'_, '_>) -> Before<'a, 'l, 's>
        ensures { seen_before result ≡ before_name (seen_found found.now) (seen_terminal terminal.entry) }
    {
        let Terminal::Name(name) = terminal else {
            return Before::Nothing;
        };
        match found.holder_of(name) {
            Some(holder) => {
                if holder.many {
                    Before::OfMany(holder.of.members)
                } else {
                    Before::OfOne(holder.of.members)
                }
            }
            None => Before::Nothing,
        }
    }

    // Behind the bracket that closes an index of it.
    fn behind_index(self) -> Before<'a, 'l, 's>
        ensures { seen_before result ≡ behind_index (seen_before self.entry) }
    {
        match self {
            Before::OfMany(members) => Before::OfRow(members),
            _ => Before::Nothing,
        }
    }

    // Behind it comes a token that is another one by itself.
    fn behind_other(self, other: Before<'a, 'l, 's>) -> Before<'a, 'l, 's>
        ensures { seen_before result ≡ behind_other (seen_before self.entry) (seen_before other.entry) }
    {
        match self {
            Before::OfType(Form::Array, members) => Before::OfLength(members),
            _ => other,
        }
    }
}

impl<'a, 'l, 's> Indices<'a, 'l, 's> {
    ghost use Rattle.std.specs.Prelude.{◌≡◌, ◌∷◌, [], OnOk};
    ghost use Rattle.c_grammar.specs.Structs.{closed, innermost};
    ghost use Rattle.c_structs.specs.Rows.{seen_before, seen_indices};

    fn new(alloc: Global) -> Indices<'a, 'l, 's>
        ensures { seen_indices result ≡ [] }
    {
        Indices {
            indices: Vec::new(alloc),
        }
    }

    fn push(&mut self, before: Before<'a, 'l, 's>) -> Result<(), AllocError>
        ensures { OnOk result (seen_indices self.new ≡ seen_before before.entry ∷ seen_indices self.old) }
    {
        self.indices.push(before)?;
        Ok(())
    }

    fn pop(&mut self) -> Before<'a, 'l, 's>
        ensures first { seen_before result ≡ innermost (seen_indices self.old) }
        ensures others { seen_indices self.new ≡ closed (seen_indices self.old) }
    {
        match self.indices.pop() {
            Some(before) => before,
            None => Before::Nothing,
        }
    }

    fn innermost(&self) -> Before<'a, 'l, 's>
        ensures { seen_before result ≡ innermost (seen_indices self.now) }
    {
        match self.indices.last() {
            Some(before) => *before,
            None => Before::Nothing,
        }
    }
}

impl<'a, 'l, 's> State<'a, 'l, 's> {
    ghost use Rattle.std.specs.Prelude.{◌≡◌, OnOk};
    ghost use Rattle.c_grammar.specs.Structs.{begin, behind, innermost};
    ghost use Rattle.c_structs.specs.Found.{seen_found};
    ghost use Rattle.c_structs.specs.Rows.{seen_before, seen_state};
    ghost use Rattle.c_terminals.specs.Seen.{seen};

    pub fn begin(alloc: Global) -> State<'a, 'l, 's>
        ensures { seen_state result ≡ begin }
    {
        State {
            depth: 0,
            indices: Indices::new(alloc),
            before: Before::Nothing,
        }
    }

    /// What stands before the innermost `[`.
    pub fn innermost(&self) -> Before<'a, 'l, 's>
        ensures { seen_before result ≡ innermost (seen_state self.now).indices }
    {
        self.indices.innermost()
    }

    /// Goes behind a token.
    pub fn pass(
        &mut self,
        found: &Found<'a, 'l, 's>,
        token: Token<'a, 'l>,
    ) -> Result<(), AllocError>
        ensures { OnOk result (seen_state self.new ≡ behind (seen_found found.now) (seen token.entry) (seen_state self.old)) }
    {
        self.depth = depth_behind(token.terminal, self.depth)?;
        if token.terminal.is_sign(Sign::CloseBracket) {
            self.before = self.indices.pop().behind_index();
            return Ok(());
        }
        if token.terminal.is_sign(Sign::OpenBracket) {
            self.indices.push(self.before)?;
        }
        self.before = self
            .before
            .behind_other(Before::named(found, token.terminal));
        Ok(())
    }
}
