//! Global pointers, and what `main` gives them.

ghost use Rattle.std.specs.Prelude.{◌≡◌, ◌++◌, ◌∷◌, [], IfOk, OnOk};
ghost use Rattle.std.specs.Option.{option_map};
ghost use Rattle.c_grammar.specs.Blocks.{bare};
ghost use Rattle.c_grammar.specs.Pointers.{allocation_at, begin, found, is_pointer, nothing_found};
ghost use Rattle.c_terminals.specs.Ahead.{ahead};
ghost use Rattle.c_terminals.specs.Seen.{seen, seen_all};
ghost use Rattle.c_written.specs.Allocations.{seen_allocation};
ghost use Rattle.c_written.specs.Pointers.{seen_found, seen_place};

use crate::allocated::{begins_main, depth_behind, is_boundary};
use crate::allocations::{Array, Cells, array_named};
use crate::counters::is_set;
use crate::targets::is_sign;
use c_terminals::{Ahead, Terminal, Token, is_among};
use c_tokens::Sign;
use directives::Word;
use std::alloc::{AllocError, Global};

/// Where a token stands.
#[derive(Clone, Copy)]
pub struct Place {
    /// How many braces and brackets are open.
    depth: usize,
    /// `main` has begun.
    inside: bool,
    /// A statement or a declaration begins.
    starts: bool,
}

/// The names of global pointers, the calls that are given to names, and each name that is assigned.
#[derive(Drop)]
pub struct Found<'a, 'l> {
    declared: Vec<&'a [u8]>,
    allocated: Vec<Array<'a, 'l>>,
    assigned: Vec<&'a [u8]>,
    /// Names that are declared or assigned once more.
    spoiled: Vec<&'a [u8]>,
}

/// Whether the token begins `uint64_t *NAME;`.
pub fn is_pointer(token: Token<'_, '_>, rest: Ahead<'_, '_, '_>) -> bool
    ensures { result ≡ is_pointer (seen token.entry) (ahead rest.entry) }
{
    let mut ahead = rest;
    let Some(star) = ahead.next() else {
        return false;
    };
    if ahead.next().is_none() {
        return false;
    }
    let Some(end) = ahead.next() else {
        return false;
    };
    token.terminal.is_word(Word::Uint64)
        && star.terminal.is_sign(Sign::Star)
        && end.terminal.is_sign(Sign::Semicolon)
}

/// The array that a name is given: `NAME =` and a call.
pub fn allocation_at<'a, 'l>(token: Token<'a, 'l>, rest: Ahead<'a, 'l, '_>) -> Option<Array<'a, 'l>>
    ensures { option_map seen_allocation result ≡ allocation_at (seen token.entry) (ahead rest.entry) }
{
    let mut ahead = rest;
    if !is_sign(ahead.next(), Sign::Equal) {
        return None;
    }
    array_named(token, ahead)
}

impl Place {
    ghost use Rattle.std.specs.Prelude.{◌≡◌, IfOk};
    ghost use Rattle.c_grammar.specs.Pointers.{at_global, at_statement, begin, behind};
    ghost use Rattle.c_terminals.specs.Ahead.{ahead};
    ghost use Rattle.c_terminals.specs.Seen.{seen};
    ghost use Rattle.c_written.specs.Pointers.{seen_place};

    pub fn begin() -> Place
        ensures { seen_place result ≡ begin }
    {
        Place {
            depth: 0,
            inside: false,
            starts: true,
        }
    }

    /// Behind a token, before others.
    pub fn behind(self, token: Token<'_, '_>, rest: Ahead<'_, '_, '_>) -> Result<Place, AllocError>
        ensures { IfOk result (λ p. seen_place p ≡ behind (seen token.entry) (ahead rest.entry) (seen_place self)) }
    {
        Ok(Place {
            depth: depth_behind(token.terminal, self.depth)?,
            inside: self.inside || begins_main(token, rest),
            starts: is_boundary(token.terminal),
        })
    }

    /// Whether a declaration of a global begins.
    pub fn at_global(self) -> bool
        ensures { result ≡ at_global (seen_place self) }
    {
        self.starts && !self.inside && self.depth == 0
    }

    /// Whether a statement of `main` begins, in none of its blocks.
    pub fn at_statement(self) -> bool
        ensures { result ≡ at_statement (seen_place self) }
    {
        self.starts && self.inside && self.depth == 1
    }
}

impl<'a, 'l> Found<'a, 'l> {
    ghost use Rattle.std.specs.Prelude.{◌≡◌, IfOk, OnOk, map};
    ghost use Rattle.std.specs.Option.{option_map};
    ghost use Rattle.c_grammar.specs.Pointers.{arrays, assign, cells_for, declare, declare_first, is_array, noted, nothing_found, spoil, with_allocation, with_assigned, with_pointer};
    ghost use Rattle.c_terminals.specs.Ahead.{ahead};
    ghost use Rattle.c_terminals.specs.Seen.{seen};
    ghost use Rattle.c_written.specs.Allocations.{seen_cells};
    ghost use Rattle.c_written.specs.Pointers.{seen_found, seen_place};

    fn new(alloc: Global) -> Found<'a, 'l>
        ensures { seen_found result ≡ nothing_found }
    {
        Found {
            declared: Vec::new(alloc),
            allocated: Vec::new(alloc),
            assigned: Vec::new(alloc),
            spoiled: Vec::new(alloc),
        }
    }

    fn spoil(&mut self, name: &'a [u8]) -> Result<(), AllocError>
        ensures { OnOk result (seen_found self.new ≡ spoil name.now (seen_found self.old)) }
    {
        self.spoiled.push(name)?;
        Ok(())
    }

    fn declare(&mut self, name: &'a [u8]) -> Result<(), AllocError>
        ensures { OnOk result (seen_found self.new ≡ declare name.now (seen_found self.old)) }
    {
        if is_among(&self.declared, name) {
            return self.spoil(name);
        }
        self.declared.push(name)?;
        Ok(())
    }

    fn assign(&mut self, name: &'a [u8]) -> Result<(), AllocError>
        ensures { OnOk result (seen_found self.new ≡ assign name.now (seen_found self.old)) }
    {
        if is_among(&self.assigned, name) {
            return self.spoil(name);
        }
        self.assigned.push(name)?;
        Ok(())
    }

    // The name behind the star.
    fn declare_first(&mut self, rest: Ahead<'a, 'l, '_>) -> Result<(), AllocError>
        ensures { OnOk result (seen_found self.new ≡ declare_first (ahead rest.entry) (seen_found self.old)) }
    {
        let mut ahead = rest;
        if ahead.next().is_none() {
            return Ok(());
        }
        let Some(named) = ahead.next() else {
            return Ok(());
        };
        match named.terminal {
            Terminal::Name(name) => self.declare(name),
            _ => Ok(()),
        }
    }

    fn note_pointer(
        &mut self,
        place: Place,
        token: Token<'a, 'l>,
        rest: Ahead<'a, 'l, '_>,
    ) -> Result<(), AllocError>
        ensures { OnOk result (seen_found self.new ≡
            with_pointer (seen_place place) (seen token.entry) (ahead rest.entry) (seen_found self.old)) }
    {
        if place.at_global() && is_pointer(token, rest) {
            return self.declare_first(rest);
        }
        Ok(())
    }

    fn note_allocation(
        &mut self,
        place: Place,
        token: Token<'a, 'l>,
        rest: Ahead<'a, 'l, '_>,
    ) -> Result<(), AllocError>
        ensures { OnOk result (seen_found self.new ≡
            with_allocation (seen_place place) (seen token.entry) (ahead rest.entry) (seen_found self.old)) }
    {
        if place.at_statement() {
            if let Some(array) = allocation_at(token, rest) {
                self.allocated.push(array)?;
            }
        }
        Ok(())
    }

    fn note_assigned(
        &mut self,
        token: Token<'a, 'l>,
        rest: Ahead<'a, 'l, '_>,
    ) -> Result<(), AllocError>
        ensures { OnOk result (seen_found self.new ≡
            with_assigned (seen token.entry) (ahead rest.entry) (seen_found self.old)) }
    {
        if !is_set(rest) {
            return Ok(());
        }
        match token.terminal {
            Terminal::Name(name) => self.assign(name),
            _ => Ok(()),
        }
    }

    // A token, before others.
    fn note(
        &mut self,
        place: Place,
        token: Token<'a, 'l>,
        rest: Ahead<'a, 'l, '_>,
    ) -> Result<(), AllocError>
        ensures { OnOk result (seen_found self.new ≡
            noted (seen_place place) (seen token.entry) (ahead rest.entry) (seen_found self.old)) }
    {
        self.note_pointer(place, token, rest)?;
        self.note_allocation(place, token, rest)?;
        self.note_assigned(token, rest)
    }

    /// The cells of a pointer that is declared once, and assigned once, which is where it gets them.
    pub fn cells_for(&self, name: &[u8]) -> Option<Cells<'a, 'l>>
        ensures { option_map seen_cells result ≡ cells_for (seen_found self.now) name.now }
    {
        if !is_among(&self.declared, name) || is_among(&self.spoiled, name) {
            return None;
        }
        let mut left = self.allocated.as_slice();
        'arrays: while let [array, rest @ ..] = left {
            if array.name == name {
                return Some(array.cells);
            }
            left = rest;
        }
        None
    }

    pub fn is_array(&self, name: &[u8]) -> bool
        ensures { result ≡ is_array (seen_found self.now) name.now }
    {
        match self.cells_for(name) {
            Some(_) => true,
            None => false,
        }
    }

    /// The names of the pointers that are arrays.
    pub fn arrays(&self, alloc: Global) -> Result<Vec<&'a [u8]>, AllocError>
        ensures { IfOk result (λ v. map (λ x. x.now) v.items ≡ arrays (seen_found self.now)) }
    {
        let mut arrays = Vec::new(alloc);
        let mut left = self.declared.as_slice();
        'names: while let [name, rest @ ..] = left {
            left = rest;
            if self.is_array(name) {
                arrays.push(*name)?;
            }
        }
        Ok(arrays)
    }
}

/// The pointers that are declared and given cells by these tokens.
pub fn scanned<'a, 'l>(alloc: Global, tokens: &[Token<'a, 'l>]) -> Result<Found<'a, 'l>, AllocError>
    ensures { IfOk result (λ f. seen_found f ≡ found begin nothing_found (bare (seen_all tokens.now))) }
{
    let mut found = Found::new(alloc);
    let mut place = Place::begin();
    let mut ahead = Ahead::new(tokens);
    'tokens: while let Some(token) = ahead.next() {
        found.note(place, token, ahead)?;
        place = place.behind(token, ahead)?;
    }
    Ok(found)
}
