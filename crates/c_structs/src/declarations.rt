//! Declarations of names that are structs.

ghost use Rattle.std.specs.Prelude.{◌≡◌, map};
ghost use Rattle.std.specs.Option.{option_map};
ghost use Rattle.c_grammar.specs.Allocations.{is_boundary};
ghost use Rattle.c_grammar.specs.FunctionHeads.{is_qualifier};
ghost use Rattle.c_grammar.specs.Structs.{declared, declared_behind, declared_by, ends, ends_first, ends_length, is_many, pointer, pointer_on, struct_at, tagged_use, use_at, variable, variable_on};
ghost use Rattle.c_structs.specs.Found.{seen_declared, seen_form, seen_use};
ghost use Rattle.c_structs.specs.Definitions.{seen_struct};
ghost use Rattle.c_terminals.specs.Ahead.{ahead};
ghost use Rattle.c_terminals.specs.Seen.{seen, seen_terminal};

use crate::structs::{Struct, is_struct_word, struct_of};
use c_terminals::{Ahead, Terminal, Token};
use c_tokens::Sign;

/// A name that is one struct, or many: an array of them, or the parameter that stands for one.
#[derive(Clone, Copy)]
pub struct Holder<'a, 'l, 's> {
    pub name: &'a [u8],
    pub many: bool,
    pub of: Struct<'a, 'l, 's>,
}

/// One struct; an array, before the bracket; a pointer.
#[derive(Clone, Copy)]
pub enum Form {
    One,
    Array,
    Pointer,
}

/// A name, and how many tokens there are between the first and it.
#[derive(Clone, Copy)]
pub struct Declared<'a, 'l, 's> {
    pub form: Form,
    pub holder: Holder<'a, 'l, 's>,
    pub len: usize,
}

/// A type, whether it has a token behind its first, and what follows.
#[derive(Clone, Copy)]
struct Use<'a, 'l, 's> {
    of: Struct<'a, 'l, 's>,
    long: bool,
    rest: Ahead<'a, 'l, 's>,
}

fn struct_at<'a, 'l, 's>(
    structs: &[Struct<'a, 'l, 's>],
    tagged: bool,
    terminal: Terminal<'_, '_>,
) -> Option<Struct<'a, 'l, 's>>
    ensures { option_map seen_struct result ≡ struct_at (map seen_struct structs.now) tagged (seen_terminal terminal.entry) }
{
    match terminal {
        Terminal::Name(name) => struct_of(structs, tagged, name),
        _ => None,
    }
}

fn tagged_use<'a, 'l, 's>(
    structs: &[Struct<'a, 'l, 's>],
    rest: Ahead<'a, 'l, 's>,
) -> Option<Use<'a, 'l, 's>>
    ensures { option_map seen_use result ≡ tagged_use (map seen_struct structs.now) (ahead rest.entry) }
{
    let mut ahead = rest;
    let name = ahead.next()?;
    let of = struct_at(structs, true, name.terminal)?;
    Some(Use {
        of,
        long: true,
        rest: ahead,
    })
}

// The type that the token begins.
fn use_at<'a, 'l, 's>(
    structs: &[Struct<'a, 'l, 's>],
    token: Token<'a, 'l>,
    rest: Ahead<'a, 'l, 's>,
) -> Option<Use<'a, 'l, 's>>
    ensures { option_map seen_use result ≡ use_at (map seen_struct structs.now) (seen token.entry) (ahead rest.entry) }
{
    if is_struct_word(token) {
        return tagged_use(structs, rest);
    }
    let of = struct_at(structs, false, token.terminal)?;
    Some(Use {
        of,
        long: false,
        rest,
    })
}

fn is_many(form: Form) -> bool
    ensures { result ≡ is_many (seen_form form) }
{
    match form {
        Form::One => false,
        Form::Array | Form::Pointer => true,
    }
}

impl<'a, 'l, 's> Use<'a, 'l, 's> {
    ghost use Rattle.std.specs.Prelude.{◌≡◌, ◌≤◌};
    ghost use Rattle.c_structs.specs.Found.{seen_use};

    fn len(self) -> usize
        ensures value { result ≡ (seen_use self.entry).len }
        ensures small { result ≤ 1 }
    {
        if self.long { 1 } else { 0 }
    }
}

fn declared_by<'a, 'l, 's>(
    terminal: Terminal<'a, '_>,
    form: Form,
    of: Struct<'a, 'l, 's>,
    len: usize,
) -> Option<Declared<'a, 'l, 's>>
    ensures { option_map seen_declared result ≡
        declared_by (seen_terminal terminal.entry) (seen_form form) (seen_struct of.entry) len }
{
    match terminal {
        Terminal::Name(name) => Some(Declared {
            form,
            holder: Holder {
                name,
                many: is_many(form),
                of,
            },
            len,
        }),
        _ => None,
    }
}

// Whether a declaration ends, outside of all brackets or in some.
fn ends(depth: usize, token: Token<'_, '_>) -> bool
    ensures { result ≡ ends depth (seen token.entry) }
{
    if depth == 0 {
        return token.terminal.is_sign(Sign::Semicolon);
    }
    token.terminal.is_sign(Sign::Comma) || token.terminal.is_sign(Sign::CloseParen)
}

fn ends_first(depth: usize, rest: Ahead<'_, '_, '_>) -> bool
    ensures { result ≡ ends_first depth (ahead rest.entry) }
{
    let mut ahead = rest;
    match ahead.next() {
        Some(token) => ends(depth, token),
        None => false,
    }
}

fn is_boundary(terminal: Terminal<'_, '_>) -> bool
    ensures { result ≡ is_boundary (seen_terminal terminal.entry) }
{
    terminal.is_sign(Sign::Semicolon)
        || terminal.is_sign(Sign::OpenBrace)
        || terminal.is_sign(Sign::CloseBrace)
}

// Behind a bracket: whether a length, the bracket that closes it, and the end follow.
fn ends_length(depth: usize, start: Ahead<'_, '_, '_>) -> bool
    ensures { result ≡ ends_length depth (ahead start.entry) }
{
    let mut ahead = start;
    'tokens: while let Some(token) = ahead.next() {
        if token.terminal.is_sign(Sign::CloseBracket) {
            return ends_first(depth, ahead);
        }
        if is_boundary(token.terminal) || token.terminal.is_sign(Sign::OpenBracket) {
            return false;
        }
    }
    false
}

fn variable_on<'a, 'l, 's>(
    depth: usize,
    of: Use<'a, 'l, 's>,
    name: Token<'a, 'l>,
    next: Token<'a, 'l>,
    rest: Ahead<'a, 'l, 's>,
) -> Option<Declared<'a, 'l, 's>>
    ensures { option_map seen_declared result ≡
        variable_on depth (seen_use of.entry) (seen name.entry) (seen next.entry) (ahead rest.entry) }
{
    if next.terminal.is_sign(Sign::OpenBracket) {
        if ends_length(depth, rest) {
            return declared_by(name.terminal, Form::Array, of.of, of.len());
        }
        return None;
    }
    if depth == 0 && ends(depth, next) {
        return declared_by(name.terminal, Form::One, of.of, of.len());
    }
    None
}

// Behind the type: a name.
fn variable<'a, 'l, 's>(
    depth: usize,
    of: Use<'a, 'l, 's>,
    name: Token<'a, 'l>,
    rest: Ahead<'a, 'l, 's>,
) -> Option<Declared<'a, 'l, 's>>
    ensures { option_map seen_declared result ≡
        variable depth (seen_use of.entry) (seen name.entry) (ahead rest.entry) }
{
    let mut ahead = rest;
    let next = ahead.next()?;
    variable_on(depth, of, name, next, ahead)
}

fn is_qualifier(terminal: Terminal<'_, '_>) -> bool
    ensures { result ≡ is_qualifier (seen_terminal terminal.entry) }
{
    terminal.is_named(b"const")
        || terminal.is_named(b"restrict")
        || terminal.is_named(b"__restrict__")
        || terminal.is_named(b"__restrict")
}

fn pointer_on<'a, 'l, 's>(
    depth: usize,
    of: Use<'a, 'l, 's>,
    between: u8,
    rest: Ahead<'a, 'l, 's>,
) -> Option<Declared<'a, 'l, 's>>
    ensures { option_map seen_declared result ≡ pointer_on depth (seen_use of.entry) between (ahead rest.entry) }
{
    let mut ahead = rest;
    let name = ahead.next()?;
    let next = ahead.next()?;
    if depth != 0 && ends(depth, next) {
        let len = of.len() + between as usize;
        return declared_by(name.terminal, Form::Pointer, of.of, len);
    }
    None
}

// Behind a star.
fn pointer<'a, 'l, 's>(
    depth: usize,
    of: Use<'a, 'l, 's>,
    rest: Ahead<'a, 'l, 's>,
) -> Option<Declared<'a, 'l, 's>>
    ensures { option_map seen_declared result ≡ pointer depth (seen_use of.entry) (ahead rest.entry) }
{
    let mut ahead = rest;
    let first = ahead.next()?;
    if is_qualifier(first.terminal) {
        return pointer_on(depth, of, 2, ahead);
    }
    pointer_on(depth, of, 1, rest)
}

fn declared_behind<'a, 'l, 's>(depth: usize, of: Use<'a, 'l, 's>) -> Option<Declared<'a, 'l, 's>>
    ensures { option_map seen_declared result ≡ declared_behind depth (seen_use of.entry) (seen_use of.entry).rest }
{
    let mut ahead = of.rest;
    let next = ahead.next()?;
    if next.terminal.is_sign(Sign::Star) {
        return pointer(depth, of, ahead);
    }
    variable(depth, of, next, ahead)
}

/// What a token declares, with so many brackets open.
pub fn declaration_at<'a, 'l, 's>(
    depth: usize,
    structs: &[Struct<'a, 'l, 's>],
    token: Token<'a, 'l>,
    rest: Ahead<'a, 'l, 's>,
) -> Option<Declared<'a, 'l, 's>>
    ensures { option_map seen_declared result ≡
        declared depth (map seen_struct structs.now) (seen token.entry) (ahead rest.entry) }
{
    declared_behind(depth, use_at(structs, token, rest)?)
}
