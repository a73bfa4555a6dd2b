//! All structs that a source defines, and the names that are structs.

ghost use Rattle.std.specs.Prelude.{◌≡◌, IfOk, map};
ghost use Rattle.std.specs.Option.{option_map};
ghost use Rattle.c_grammar.specs.Allocations.{depth_behind};
ghost use Rattle.c_grammar.specs.Blocks.{bare};
ghost use Rattle.c_grammar.specs.Structs.{agree, agreed, found, holder_of, nothing_found};
ghost use Rattle.c_structs.specs.Found.{seen_found, seen_holder};
ghost use Rattle.c_terminals.specs.Ahead.{ahead};
ghost use Rattle.c_terminals.specs.Seen.{seen_all, seen_terminal};

use crate::declarations::{Declared, Holder, declaration_at};
use crate::definitions::{Definition, definition_at};
use crate::structs::{Struct, is_struct, struct_of};
use c_terminals::{Ahead, Terminal, Token};
use c_tokens::Sign;
use std::alloc::{AllocError, Global};

/// The structs, by their names, and the names that are structs.
#[derive(Drop)]
pub struct Found<'a, 'l, 's> {
    pub structs: Vec<Struct<'a, 'l, 's>>,
    holders: Vec<Holder<'a, 'l, 's>>,
    /// Two of these do not agree.
    pub spoiled: bool,
}

/// How many braces and brackets are open behind the token.
pub fn depth_behind(terminal: Terminal<'_, '_>, depth: usize) -> Result<usize, AllocError>
    ensures { IfOk result (λ d. d ≡ depth_behind (seen_terminal terminal.entry) depth) }
{
    if terminal.is_sign(Sign::OpenBrace) || terminal.is_sign(Sign::OpenParen) {
        return depth.checked_add(1).ok_or(AllocError);
    }
    if terminal.is_sign(Sign::CloseBrace) || terminal.is_sign(Sign::CloseParen) {
        return Ok(depth.saturating_sub(1));
    }
    Ok(depth)
}

fn agree(own: Holder<'_, '_, '_>, other: Holder<'_, '_, '_>) -> bool
    ensures { result ≡ agree (seen_holder own.entry) (seen_holder other.entry) }
{
    own.many == other.many && is_struct(own.of.tagged, own.of.name, other.of)
}

impl<'a, 'l, 's> Found<'a, 'l, 's> {
    ghost use Rattle.std.specs.Prelude.{◌≡◌, OnOk, map};
    ghost use Rattle.std.specs.Option.{option_map};
    ghost use Rattle.c_grammar.specs.Structs.{hold, holder_of, nothing_found, noted, spoil, with_declared, with_definition, with_name, with_struct};
    ghost use Rattle.c_structs.specs.Definitions.{name_of, seen_definition};
    ghost use Rattle.c_structs.specs.Found.{seen_declared, seen_found, seen_holder};
    ghost use Rattle.c_terminals.specs.Ahead.{ahead};
    ghost use Rattle.c_terminals.specs.Seen.{seen};

    fn new(alloc: Global) -> Found<'a, 'l, 's>
        ensures { seen_found result ≡ nothing_found }
    {
        Found {
            structs: Vec::new(alloc),
            holders: Vec::new(alloc),
            spoiled: false,
        }
    }

    fn spoil(&mut self)
        ensures { seen_found self.new ≡ spoil (seen_found self.old) }
    {
        self.spoiled = true;
    }

    /// What the name holds.
    pub fn holder_of(&self, name: &[u8]) -> Option<Holder<'a, 'l, 's>>
        ensures { option_map seen_holder result ≡ holder_of (seen_found self.now).holders name.now }
    {
        let mut left = self.holders.as_slice();
        'holders: while let [own, rest @ ..] = left {
            if own.name == name {
                return Some(*own);
            }
            left = rest;
        }
        None
    }

    fn add_struct(
        &mut self,
        tagged: bool,
        name: &'a [u8],
        members: Ahead<'a, 'l, 's>,
    ) -> Result<(), AllocError>
        ensures { OnOk result (seen_found self.new ≡
            with_struct tagged name.now (ahead members.entry) (seen_found self.old)) }
    {
        if struct_of(&self.structs, tagged, name).is_some() {
            self.spoil();
            return Ok(());
        }
        self.structs.push(Struct {
            tagged,
            name,
            members,
        })?;
        Ok(())
    }

    fn add_name(
        &mut self,
        tagged: bool,
        name: Option<&'a [u8]>,
        members: Ahead<'a, 'l, 's>,
    ) -> Result<(), AllocError>
        ensures { OnOk result (seen_found self.new ≡
            with_name tagged (option_map name_of name.entry) (ahead members.entry) (seen_found self.old)) }
    {
        match name {
            Some(name) => self.add_struct(tagged, name, members),
            None => Ok(()),
        }
    }

    fn define(&mut self, definition: Option<Definition<'a, 'l, 's>>) -> Result<(), AllocError>
        ensures { OnOk result (seen_found self.new ≡
            with_definition (option_map seen_definition definition.entry) (seen_found self.old)) }
    {
        let Some(definition) = definition else {
            return Ok(());
        };
        self.add_name(true, definition.tag, definition.members)?;
        self.add_name(false, definition.own, definition.members)
    }

    fn hold(&mut self, holder: Holder<'a, 'l, 's>) -> Result<(), AllocError>
        ensures { OnOk result (seen_found self.new ≡
            hold (holder_of (seen_found self.old).holders (seen_holder holder.entry).name) (seen_holder holder.entry) (seen_found self.old)) }
    {
        match self.holder_of(holder.name) {
            Some(own) => {
                if !agree(own, holder) {
                    self.spoil();
                }
            }
            None => self.holders.push(holder)?,
        }
        Ok(())
    }

    fn declare(&mut self, declared: Option<Declared<'a, 'l, 's>>) -> Result<(), AllocError>
        ensures { OnOk result (seen_found self.new ≡
            with_declared (option_map seen_declared declared.entry) (seen_found self.old)) }
    {
        match declared {
            Some(declared) => self.hold(declared.holder),
            None => Ok(()),
        }
    }

    // A token, before others.
    fn note(
        &mut self,
        depth: usize,
        token: Token<'a, 'l>,
        rest: Ahead<'a, 'l, 's>,
    ) -> Result<(), AllocError>
        ensures { OnOk result (seen_found self.new ≡
            noted depth (seen token.entry) (ahead rest.entry) (seen_found self.old)) }
    {
        if depth == 0 {
            let definition = definition_at(&self.structs, token, rest)?;
            self.define(definition)?;
        }
        let declared = declaration_at(depth, &self.structs, token, rest);
        self.declare(declared)
    }
}

fn all_found<'a, 'l, 's>(
    alloc: Global,
    tokens: &'s [Token<'a, 'l>],
) -> Result<Found<'a, 'l, 's>, AllocError>
    ensures { IfOk result (λ f. seen_found f ≡ found 0 nothing_found (bare (seen_all tokens.now))) }
{
    let mut found = Found::new(alloc);
    let mut depth = 0usize;
    let mut ahead = Ahead::new(tokens);
    'tokens: while let Some(token) = ahead.next() {
        found.note(depth, token, ahead)?;
        depth = depth_behind(token.terminal, depth)?;
    }
    Ok(found)
}

/// The structs of these tokens, where all agree.
pub fn scanned<'a, 'l, 's>(
    alloc: Global,
    tokens: &'s [Token<'a, 'l>],
) -> Result<Found<'a, 'l, 's>, AllocError>
    ensures { IfOk result (λ f. seen_found f ≡ agreed (found 0 nothing_found (bare (seen_all tokens.now)))) }
{
    let found = all_found(alloc, tokens)?;
    if found.spoiled {
        let mut none = Found::new(alloc);
        none.spoil();
        return Ok(none);
    }
    Ok(found)
}
