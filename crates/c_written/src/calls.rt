//! Statements that call functions, as blocks with the bodies of these.

ghost use Rattle.std.specs.Prelude.{◌≡◌, ◌==◌, ◌&&◌, ◌<◌, ◌^◌, ◌++◌, ◌∷◌, [], length, map, IfOk, OnOk};
ghost use Rattle.std.specs.Option.{option_map};
ghost use Rattle.c_grammar.specs.Terminal.{Mark};
ghost use Rattle.c_grammar.specs.Blocks.{at, bare};
ghost use Rattle.c_grammar.specs.Functions.{arguments, called, closes, constant_in, index_len, left_len, opens, passed_to, put_all, stays};
ghost use Rattle.c_grammar.specs.Changes.{is_mark};
ghost use Rattle.c_tokens.specs.declared.kind.Sign.TheVariants as signs;
ghost use Rattle.c_terminals.specs.Ahead.{ahead};
ghost use Rattle.c_written.specs.Functions.{all_parameters, functions_of, globals_of, puts_of, seen_given, seen_passed};
ghost use Rattle.c_terminals.specs.Held.{columns_held, seen_held, seen_written, written_all};
ghost use Rattle.c_written.specs.Names.{name_alone, text_in};
ghost use Rattle.c_terminals.specs.Seen.{seen, seen_all};

use crate::changes::is_boundary;
use crate::expressions::{Worked, expression};
use crate::fronts::{Front, before_call, taken};
use crate::heads::{Sort, passed};
use crate::puts::{Other, Put, Puts};
use crate::values::Values;
use c_choices::is_setting;
use c_terminals::{Ahead, Terminal, Token, Written, WrittenTerminal, is_among};
use c_tokens::Sign;
use directives::Word;
use std::alloc::{AllocError, Global};

/// The largest `int`.
const MAX_INT: u64 = 2_147_483_647;

/// A parameter: the name that it has in the body, and whether the body assigns it.
#[derive(Clone, Copy)]
pub struct Parameter {
    pub name: &'static [u8],
    pub sort: Sort,
    pub assigned: bool,
}

/// A function that stands before.
#[derive(Drop)]
pub struct Function<'a> {
    pub name: &'a [u8],
    pub parameters: Vec<Parameter>,
    pub body: Vec<Written<'a>>,
    /// What it gives; nothing of one without a value.
    pub value: Vec<Written<'a>>,
}

/// The globals and the functions that are known.
#[derive(Drop)]
pub struct Scope<'a> {
    pub globals: Vec<&'a [u8]>,
    pub functions: Vec<Function<'a>>,
}

// What stands between the brackets of a call, with how many tokens up to the closing one.
#[derive(Drop)]
struct Given<'a, 'l> {
    list: Vec<Vec<Token<'a, 'l>>>,
    len: usize,
}

// A call as it stands, and what it is.
#[derive(Drop)]
pub struct Expanded<'a> {
    pub len: usize,
    pub items: Vec<Written<'a>>,
}

// What is passed: declarations before the body, and what stands for parameters in it.
#[derive(Drop)]
struct Passed<'a> {
    before: Vec<Written<'a>>,
    puts: Puts<'a>,
}

fn opens(token: Token<'_, '_>) -> bool
    ensures { result ≡ opens (seen token.entry) }
{
    token.terminal.is_sign(Sign::OpenParen) || token.terminal.is_sign(Sign::OpenBracket)
}

fn closes(token: Token<'_, '_>) -> bool
    ensures { result ≡ closes (seen token.entry) }
{
    token.terminal.is_sign(Sign::CloseParen) || token.terminal.is_sign(Sign::CloseBracket)
}

// Whether another argument follows.
fn ends_argument(depth: usize, token: Token<'_, '_>) -> bool
    ensures { result ≡ (is_mark signs.Comma (seen token.entry) && (depth == 0)) }
{
    token.terminal.is_sign(Sign::Comma) && depth == 0
}

fn arguments<'a, 'l>(
    alloc: Global,
    start: Ahead<'a, 'l, '_>,
) -> Result<Option<Given<'a, 'l>>, AllocError>
    requires { length (ahead start) < 2 ^ 63 }
    ensures { IfOk result (λ o. option_map seen_given o ≡ arguments 0 [] [] 0 (ahead start.entry)) }
{
    let mut ahead = start;
    let mut depth = 0;
    let mut len = 0;
    let mut list = Vec::new(alloc);
    let mut now = Vec::new(alloc);
    'tokens: while let Some(token) = ahead.next() {
        len += 1;
        if is_boundary(token.terminal) {
            return Ok(None);
        }
        if opens(token) {
            depth += 1;
            now.push(token)?;
            continue;
        }
        if closes(token) {
            if depth == 0 {
                if !token.terminal.is_sign(Sign::CloseParen) {
                    return Ok(None);
                }
                list.push(now)?;
                return Ok(Some(Given { list, len }));
            }
            depth -= 1;
            now.push(token)?;
            continue;
        }
        if ends_argument(depth, token) {
            list.push(now)?;
            now = Vec::new(alloc);
            continue;
        }
        now.push(token)?;
    }
    Ok(None)
}

/// How many tokens there are, directives aside.
pub fn bare_len(tokens: &[Written<'_>]) -> usize
    ensures { result ≡ length (bare (written_all tokens.now)) }
{
    let mut len = 0;
    'tokens: for written in tokens {
        if written.token().terminal.is_directive() {
            continue;
        }
        len += 1;
    }
    len
}

// A token at the place of another one.
fn placed<'a>(token: Token<'a, '_>, terminal: WrittenTerminal<'a>) -> Written<'a>
    ensures terminal { (seen_written result).terminal ≡ seen_held terminal.entry }
    ensures line { result.line ≡ token.entry.line }
    ensures column { result.column ≡ token.entry.column }
    ensures columns { (seen_written result).columns ≡ columns_held terminal.entry }
{
    Written {
        terminal,
        line: token.line,
        column: token.column,
    }
}

#[tactic(auto, using(crate::proofs::CallTexts::placed_at, crate::proofs::CallTexts::put_one))]
fn put_sign<'a>(
    done: &mut Vec<Written<'a>>,
    token: Token<'a, '_>,
    sign: Sign,
) -> Result<(), AllocError>
    ensures { OnOk result (written_all done.new.items ≡ written_all done.old.items ++ at (seen token.entry) (Mark sign) ∷ []) }
{
    done.push(placed(token, WrittenTerminal::Sign(sign)))?;
    Ok(())
}

/// The tokens behind others.
#[tactic(auto, using(crate::proofs::CallTexts::put_step, crate::proofs::CallTexts::put_end))]
pub fn put_tokens<'a>(
    alloc: Global,
    done: &mut Vec<Written<'a>>,
    tokens: &[Token<'a, '_>],
) -> Result<(), AllocError>
    ensures { OnOk result (written_all done.new.items ≡ written_all done.old.items ++ seen_all tokens.now) }
{
    'tokens: for token in tokens {
        done.push(Written::of(alloc, *token)?)?;
    }
    Ok(())
}

// The number that a constant expression has.
fn constant_in(alloc: Global, tokens: &[Token<'_, '_>]) -> Result<Option<u64>, AllocError>
    ensures { IfOk result (λ o. o ≡ constant_in (seen_all tokens.now)) }
{
    let values = Values::new(alloc);
    match expression(alloc, &values, false, tokens)? {
        Some(Worked::Number(len, n)) => {
            if len == tokens.len() {
                Ok(Some(n))
            } else {
                Ok(None)
            }
        }
        Some(Worked::Fault(_, _)) => Ok(None),
        None => Ok(None),
    }
}

// The name that some tokens are, if they are one.
fn name_alone<'a>(tokens: &[Token<'a, '_>]) -> Option<&'a [u8]>
    ensures { text_in result ≡ name_alone (seen_all tokens.now) }
{
    let [only] = tokens else {
        return None;
    };
    match only.terminal {
        Terminal::Name(name) => Some(name),
        _ => None,
    }
}

impl<'a> Passed<'a> {
    ghost use Rattle.std.specs.Prelude.{◌≡◌, map, Some, IfOk};
    ghost use Rattle.c_grammar.specs.Functions.{both, local, passes, passes_scalar, passes_small, stands_for};
    ghost use Rattle.c_written.specs.Functions.{passed_so_far, seen_parameter, seen_passed, seen_put};
    ghost use Rattle.c_terminals.specs.Seen.{seen_all};

    // A local of the block with the value.
    fn local(
        &mut self,
        alloc: Global,
        name: &'a [u8],
        value: &[Token<'a, '_>],
    ) -> Result<bool, AllocError>
        ensures { IfOk result (λ b. passed_so_far b self.new ≡ both (Some (seen_passed self.old)) (local name.now (seen_all value.now))) }
    {
        let [first, ..] = value else {
            return Ok(false);
        };
        let before = &mut self.before;
        before.push(placed(*first, WrittenTerminal::Word(Word::Uint64)))?;
        before.push(placed(*first, WrittenTerminal::Name(name)))?;
        put_sign(before, *first, Sign::Equal)?;
        put_tokens(alloc, before, value)?;
        put_sign(before, *first, Sign::Semicolon)?;
        Ok(true)
    }

    // What stands for a parameter, behind what stands for others.
    #[tactic(auto, using(crate::proofs::CallParameters::stands_more))]
    fn stands(&mut self, name: &'a [u8], put: Put<'a>) -> Result<bool, AllocError>
        ensures { IfOk result (λ b. passed_so_far b self.new ≡ both (Some (seen_passed self.old)) (stands_for name.now (seen_put put.entry))) }
    {
        self.puts.list.push((name, put))?;
        Ok(true)
    }

    fn value(
        &mut self,
        alloc: Global,
        globals: &[&[u8]],
        parameter: &Parameter,
        value: &[Token<'a, '_>],
    ) -> Result<bool, AllocError>
        ensures { IfOk result (λ b. passed_so_far b self.new ≡ both (Some (seen_passed self.old)) (passes_scalar (map (λ x. x.now) globals.now) (seen_parameter parameter.now) (seen_all value.now))) }
    {
        if parameter.assigned {
            return self.local(alloc, parameter.name, value);
        }
        if let Some(n) = constant_in(alloc, value)? {
            return self.stands(parameter.name, Put::Number(n));
        }
        let Some(name) = name_alone(value) else {
            return self.local(alloc, parameter.name, value);
        };
        if is_among(globals, name) {
            return self.local(alloc, parameter.name, value);
        }
        self.stands(parameter.name, Put::Name(name))
    }

    // A number of the type `int` stands for its parameter, which the function does not assign.
    fn small(
        &mut self,
        alloc: Global,
        parameter: &Parameter,
        value: &[Token<'a, '_>],
    ) -> Result<bool, AllocError>
        ensures { IfOk result (λ b. passed_so_far b self.new ≡ both (Some (seen_passed self.old)) (passes_small (seen_parameter parameter.now) (seen_all value.now))) }
    {
        if parameter.assigned {
            return Ok(false);
        }
        match constant_in(alloc, value)? {
            Some(n) if n <= MAX_INT => self.stands(parameter.name, Put::Number(n)),
            _ => Ok(false),
        }
    }

    // False where what is passed is nothing that the parameter may be.
    fn pass(
        &mut self,
        alloc: Global,
        globals: &[&[u8]],
        parameter: &Parameter,
        value: &[Token<'a, '_>],
    ) -> Result<bool, AllocError>
        ensures { IfOk result (λ b. passed_so_far b self.new ≡ both (Some (seen_passed self.old)) (passes (map (λ x. x.now) globals.now) (seen_parameter parameter.now) (seen_all value.now))) }
    {
        match parameter.sort {
            Sort::Scalar => self.value(alloc, globals, parameter, value),
            Sort::Array => match name_alone(value) {
                Some(name) => self.stands(parameter.name, Put::Name(name)),
                None => Ok(false),
            },
            Sort::Small => self.small(alloc, parameter, value),
        }
    }
}

fn passed_to<'a>(
    alloc: Global,
    globals: &[&[u8]],
    parameters: &[Parameter],
    list: &[Vec<Token<'a, '_>>],
) -> Result<Option<Passed<'a>>, AllocError>
    ensures { IfOk result (λ o. option_map seen_passed o ≡ passed_to (map (λ x. x.now) globals.now) (all_parameters parameters.now) (map (λ v. seen_all v.items) list.now)) }
{
    let mut passed = Passed {
        before: Vec::new(alloc),
        puts: Puts::new(alloc),
    };
    if parameters.is_empty() {
        return Ok(match list {
            [only] if only.is_empty() => Some(passed),
            _ => None,
        });
    }
    if parameters.len() != list.len() {
        return Ok(None);
    }
    'parameters: for k in 0..parameters.len() {
        if !passed.pass(alloc, globals, &parameters[k], &list[k])? {
            return Ok(None);
        }
    }
    Ok(Some(passed))
}

// The tokens with their lines borrowed, with what stands for parameters, behind others.
fn put_body<'a>(
    alloc: Global,
    puts: &Puts<'a>,
    body: &[Written<'a>],
    done: &mut Vec<Written<'a>>,
) -> Result<(), AllocError>
    ensures { OnOk result (written_all done.new.items ≡ written_all done.old.items ++ put_all (puts_of puts.now) stays (written_all body.now)) }
{
    'tokens: for written in body {
        puts.put_all(alloc, Other::Stays, &[written.token()], done)?;
    }
    Ok(())
}

impl<'a> Function<'a> {
    ghost use Rattle.std.specs.Prelude.{◌≡◌, ◌++◌, ◌<◌, ◌^◌, length, map, IfOk, OnOk, Some};
    ghost use Rattle.std.specs.Option.{option_map};
    ghost use Rattle.c_grammar.specs.Functions.{block_of, expanded_of, given, in_value, put_all, stays};
    ghost use Rattle.c_terminals.specs.Ahead.{ahead};
    ghost use Rattle.c_written.specs.Functions.{lacks_value, puts_of, seen_expanded, seen_front, seen_function, seen_passed};
    ghost use Rattle.c_terminals.specs.Held.{written_all};
    ghost use Rattle.c_terminals.specs.Seen.{seen, seen_all};

    // The value, in brackets where other tokens stand beside the call, behind others.
    fn put_value(
        &self,
        alloc: Global,
        token: Token<'a, '_>,
        front: &[Token<'a, '_>],
        back: &[Token<'a, '_>],
        puts: &Puts<'a>,
        done: &mut Vec<Written<'a>>,
    ) -> Result<(), AllocError>
        ensures { OnOk result (written_all done.new.items ≡ written_all done.old.items ++ in_value (seen token.entry) (seen_all front.now) (put_all (puts_of puts.now) stays (written_all self.now.value.items)) (seen_all back.now)) }
    {
        if front.is_empty() && back.is_empty() {
            return put_body(alloc, puts, &self.value, done);
        }
        put_tokens(alloc, done, front)?;
        put_sign(done, token, Sign::OpenParen)?;
        put_body(alloc, puts, &self.value, done)?;
        put_sign(done, token, Sign::CloseParen)?;
        put_tokens(alloc, done, back)
    }

    // The assignment of the value, where there is one, behind others.
    fn put_given(
        &self,
        alloc: Global,
        token: Token<'a, '_>,
        front: Front<'a, '_, '_>,
        back: &[Token<'a, '_>],
        puts: &Puts<'a>,
        done: &mut Vec<Written<'a>>,
    ) -> Result<(), AllocError>
        ensures { OnOk result (written_all done.new.items ≡ written_all done.old.items ++ given (seen token.entry) (seen_front front.entry) (put_all (puts_of puts.now) stays (written_all self.now.value.items)) (seen_all back.now)) }
    {
        if front.left.is_empty() {
            return Ok(());
        }
        put_tokens(alloc, done, front.left)?;
        self.put_value(alloc, token, front.value, back, puts, done)?;
        put_sign(done, token, Sign::Semicolon)?;
        Ok(())
    }

    // The block of a call, with the assignment of its value; behind the call stand such tokens.
    fn block(
        &self,
        alloc: Global,
        token: Token<'a, '_>,
        front: Front<'a, '_, '_>,
        back: &[Token<'a, '_>],
        passed: Passed<'a>,
    ) -> Result<Vec<Written<'a>>, AllocError>
        ensures { IfOk result (λ v. written_all v.items ≡ block_of (seen_function self.now) (seen token.entry) (seen_front front.entry) (seen_all back.now) (seen_passed passed.entry)) }
    {
        let Passed { mut before, puts } = passed;
        let mut done = Vec::new(alloc);
        put_sign(&mut done, token, Sign::OpenBrace)?;
        done.append(&mut before)?;
        put_body(alloc, &puts, &self.body, &mut done)?;
        self.put_given(alloc, token, front, back, &puts, &mut done)?;
        put_sign(&mut done, token, Sign::CloseBrace)?;
        Ok(done)
    }

    // Whether a value is wanted of a function that gives none.
    fn lacks_value(&self, front: Front<'_, '_, '_>) -> bool
        ensures { result ≡ lacks_value (seen_front front.entry) (written_all self.now.value.items) }
    {
        !front.left.is_empty() && bare_len(&self.value) == 0
    }

    // The call at the name of the function, behind such tokens and before what follows the bracket.
    fn called_at(
        &self,
        alloc: Global,
        globals: &[&[u8]],
        token: Token<'a, '_>,
        front: Front<'a, '_, '_>,
        start: Ahead<'a, '_, '_>,
    ) -> Result<Option<Expanded<'a>>, AllocError>
        requires { length (ahead start) < 2 ^ 63 }
        ensures { IfOk result (λ o. option_map seen_expanded o ≡
            expanded_of (map (λ x. x.now) globals.now) (Some (seen_function self.now)) (seen token.entry) (seen_front front.entry) (ahead start.entry)) }
    {
        if self.lacks_value(front) {
            return Ok(None);
        }
        let Some(Given { list, len }) = arguments(alloc, start)? else {
            return Ok(None);
        };
        let rest = passed(start, len);
        let Some(count) = front.back_len(rest)? else {
            return Ok(None);
        };
        let Some(given) = passed_to(alloc, globals, &self.parameters, &list)? else {
            return Ok(None);
        };
        let back = taken(alloc, rest, count)?;
        let len = len.checked_add(3).ok_or(AllocError)?;
        Ok(Some(Expanded {
            len: len.checked_add(count).ok_or(AllocError)?,
            items: self.block(alloc, token, front, &back, given)?,
        }))
    }
}

impl<'a> Scope<'a> {
    ghost use Rattle.std.specs.Prelude.{◌≡◌, ◌<◌, ◌^◌, [], length, IfOk};
    ghost use Rattle.std.specs.Option.{option_map};
    ghost use Rattle.c_grammar.specs.Functions.{assigned_call, call, declared_call, expansion, function_of, left_len, valued_call};
    ghost use Rattle.c_terminals.specs.Ahead.{ahead};
    ghost use Rattle.c_grammar.specs.Blocks.{bare};
    ghost use Rattle.c_written.specs.Functions.{functions_of, globals_of, seen_expanded, seen_front, seen_function, statement_at};
    ghost use Rattle.c_terminals.specs.Seen.{seen_all};

    fn function(&self, name: &[u8]) -> Option<&Function<'a>>
        ensures { option_map (λ f. seen_function f.now) result ≡ function_of (functions_of self.now) name.now }
    {
        'functions: for function in &self.functions {
            if function.name == name {
                return Some(function);
            }
        }
        None
    }

    // A call at the front, behind such tokens.
    fn call(
        &self,
        alloc: Global,
        front: Front<'a, '_, '_>,
        start: Ahead<'a, '_, '_>,
    ) -> Result<Option<Expanded<'a>>, AllocError>
        requires { length (ahead start) < 2 ^ 63 }
        ensures { IfOk result (λ o. option_map seen_expanded o ≡ call (globals_of self.now) (functions_of self.now) (seen_front front.entry) (ahead start.entry)) }
    {
        let mut ahead = start;
        let Some(first) = ahead.next() else {
            return Ok(None);
        };
        let Some(second) = ahead.next() else {
            return Ok(None);
        };
        let Terminal::Name(name) = first.terminal else {
            return Ok(None);
        };
        if !second.terminal.is_sign(Sign::OpenParen) {
            return Ok(None);
        }
        let Some(function) = self.function(name) else {
            return Ok(None);
        };
        function.called_at(alloc, &self.globals, first, front, ahead)
    }

    // The first call in a value, behind what it is given to.
    fn valued_call(
        &self,
        alloc: Global,
        left: &[Token<'a, '_>],
        start: Ahead<'a, '_, '_>,
    ) -> Result<Option<Expanded<'a>>, AllocError>
        requires { length (ahead start) < 2 ^ 63 }
        ensures { IfOk result (λ o. option_map seen_expanded o ≡ valued_call (globals_of self.now) (functions_of self.now) (seen_all left.now) (ahead start.entry)) }
    {
        let Some(count) = before_call(start)? else {
            return Ok(None);
        };
        let value = taken(alloc, start, count)?;
        let front = Front {
            left,
            value: value.as_slice(),
        };
        let Some(Expanded { len, items }) = self.call(alloc, front, passed(start, count))? else {
            return Ok(None);
        };
        Ok(Some(Expanded {
            len: count.checked_add(len).ok_or(AllocError)?,
            items,
        }))
    }

    // `uint64_t NAME =` and a value with a call.
    fn declared_call(
        &self,
        alloc: Global,
        start: Ahead<'a, '_, '_>,
    ) -> Result<Option<Expanded<'a>>, AllocError>
        requires { length (ahead start) < 2 ^ 63 }
        ensures { IfOk result (λ o. option_map seen_expanded o ≡ declared_call (globals_of self.now) (functions_of self.now) (ahead start.entry)) }
    {
        let mut ahead = start;
        let Some(word) = ahead.next() else {
            return Ok(None);
        };
        let Some(name) = ahead.next() else {
            return Ok(None);
        };
        let Some(sign) = ahead.next() else {
            return Ok(None);
        };
        if !word.terminal.is_word(Word::Uint64) {
            return Ok(None);
        }
        if !name.terminal.is_name() || !sign.terminal.is_sign(Sign::Equal) {
            return Ok(None);
        }
        let Some(Expanded { len, mut items }) = self.valued_call(alloc, &[name, sign], ahead)?
        else {
            return Ok(None);
        };
        let mut done = Vec::new(alloc);
        put_tokens(alloc, &mut done, &[word, name])?;
        put_sign(&mut done, name, Sign::Equal)?;
        done.push(placed(name, WrittenTerminal::Number(0)))?;
        put_sign(&mut done, name, Sign::Semicolon)?;
        done.append(&mut items)?;
        Ok(Some(Expanded {
            len: len.checked_add(3).ok_or(AllocError)?,
            items: done,
        }))
    }

    // A name or a cell, the sign that assigns it, and a value with a call.
    fn assigned_call(
        &self,
        alloc: Global,
        start: Ahead<'a, '_, '_>,
    ) -> Result<Option<Expanded<'a>>, AllocError>
        requires { length (ahead start) < 2 ^ 63 }
        ensures { IfOk result (λ o. option_map seen_expanded o ≡ assigned_call (globals_of self.now) (functions_of self.now) (ahead start.entry) (left_len (ahead start.entry))) }
    {
        let Some(count) = left_len(start) else {
            return Ok(None);
        };
        let before = count.checked_add(1).ok_or(AllocError)?;
        let left = taken(alloc, start, before)?;
        let Some(Expanded { len, items }) = self.valued_call(alloc, &left, passed(start, before))?
        else {
            return Ok(None);
        };
        Ok(Some(Expanded {
            len: before.checked_add(len).ok_or(AllocError)?,
            items,
        }))
    }

    /// The statement that these tokens begin with, if it is a call.
    fn expansion(
        &self,
        alloc: Global,
        start: Ahead<'a, '_, '_>,
    ) -> Result<Option<Expanded<'a>>, AllocError>
        requires { length (ahead start) < 2 ^ 63 }
        ensures { IfOk result (λ o. option_map seen_expanded o ≡ expansion (globals_of self.now) (functions_of self.now) (ahead start.entry)) }
    {
        if let Some(found) = self.call(alloc, Front::alone(), start)? {
            return Ok(Some(found));
        }
        if let Some(found) = self.declared_call(alloc, start)? {
            return Ok(Some(found));
        }
        self.assigned_call(alloc, start)
    }

    // The statement that these tokens begin with, if it is a call for which there is room.
    fn statement_at(
        &self,
        alloc: Global,
        begins: bool,
        room: usize,
        tokens: &[Token<'a, '_>],
    ) -> Result<Option<Expanded<'a>>, AllocError>
        ensures { IfOk result (λ o. option_map seen_expanded o ≡ statement_at (globals_of self.now) (functions_of self.now) begins room (bare (seen_all tokens.now))) }
    {
        if !begins {
            return Ok(None);
        }
        let Some(found) = self.expansion(alloc, Ahead::new(tokens))? else {
            return Ok(None);
        };
        if bare_len(&found.items) < room {
            return Ok(Some(found));
        }
        Ok(None)
    }
}

// How many tokens of a name or a cell stand before the sign that assigns it.
fn left_len(start: Ahead<'_, '_, '_>) -> Option<usize>
    requires { length (ahead start) < 2 ^ 63 }
    ensures { result ≡ left_len (ahead start.entry) }
{
    let mut ahead = start;
    let name = ahead.next()?;
    if !name.terminal.is_name() {
        return None;
    }
    let index = ahead;
    let next = ahead.next()?;
    if is_setting(next.terminal) {
        return Some(1);
    }
    if !next.terminal.is_sign(Sign::OpenBracket) {
        return None;
    }
    let len = index_len(index)?;
    let equal = passed(index, len).next()?;
    if is_setting(equal.terminal) {
        Some(len + 1)
    } else {
        None
    }
}

/// How many tokens there are up to the bracket that closes the first one.
pub fn index_len(start: Ahead<'_, '_, '_>) -> Option<usize>
    requires { length (ahead start) < 2 ^ 63 }
    ensures { result ≡ index_len 0 0 (ahead start.entry) }
{
    let mut ahead = start;
    let mut depth = 0usize;
    let mut len = 0;
    'tokens: while let Some(token) = ahead.next() {
        len += 1;
        if is_boundary(token.terminal) {
            return None;
        }
        if token.terminal.is_sign(Sign::OpenBracket) {
            depth += 1;
        } else if token.terminal.is_sign(Sign::CloseBracket) {
            if depth <= 1 {
                return Some(len);
            }
            depth -= 1;
        }
    }
    None
}

/// The tokens with their calls, behind others. The room is that for so many tokens more.
pub fn called<'a>(
    alloc: Global,
    scope: &Scope<'a>,
    begins: bool,
    room: usize,
    tokens: &[Token<'a, '_>],
    done: &mut Vec<Written<'a>>,
) -> Result<(), AllocError>
    ensures { OnOk result (written_all done.new.items ≡ written_all done.old.items ++ called (globals_of scope.now) (functions_of scope.now) begins room 0 (seen_all tokens.now)) }
{
    let mut begins = begins;
    let mut room = room;
    let mut left = 0;
    let mut rest = tokens;
    'tokens: while let [token, behind @ ..] = rest {
        let here = rest;
        rest = behind;
        if token.terminal.is_directive() {
            done.push(Written::of(alloc, *token)?)?;
            continue;
        }
        if left > 0 {
            left -= 1;
            continue;
        }
        if let Some(found) = scope.statement_at(alloc, begins, room, here)? {
            let Expanded { len, mut items } = found;
            begins = true;
            room = room.saturating_sub(bare_len(&items));
            left = len.saturating_sub(1);
            done.append(&mut items)?;
            continue;
        }
        done.push(Written::of(alloc, *token)?)?;
        begins = is_boundary(token.terminal);
    }
    Ok(())
}
