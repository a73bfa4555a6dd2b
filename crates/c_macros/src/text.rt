//! The tokens of a text with what its macros stand for.

ghost use Rattle.std.specs.Prelude.{◌≡◌, ◌∷◌, ◌++◌, ◌||◌, [], map, IfOk, OnOk, false};
ghost use Rattle.std.specs.Option.{option_map};
ghost use Rattle.c_grammar.specs.Blocks.{bare};
ghost use Rattle.c_grammar.specs.Constants.{is_among};
ghost use Rattle.c_grammar.specs.Macros.{as_argument, begin, body_of, defined_at, has_call, has_macro, is_argument, is_known, is_with, macro, opens, read, replaced};
ghost use Rattle.c_macros.specs.Definitions.{seen_defined};
ghost use Rattle.c_macros.specs.Macros.{all_macros, seen_call, seen_macro, seen_reading};
ghost use Rattle.c_macros.specs.Text.{seen_state, whole};
ghost use Rattle.c_terminals.specs.Ahead.{ahead};
ghost use Rattle.c_terminals.specs.Names.{seen_names};
ghost use Rattle.c_terminals.specs.Seen.{seen, seen_all, seen_terminal};

use crate::definitions::{Defined, Head, defined_in, parameters, read_body};
use crate::macros::{Macro, has_name, is_macro, is_used, macro_of};
use crate::reading::{Call, Calls, Reading};
use c_terminals::{Ahead, Names, Terminal, Token, is_among};
use c_tokens::Sign;
use directives::PlacedLexeme;
use std::alloc::{AllocError, Global};

/// So many tokens may be written, those of arguments and bodies each time.
const MOST_WRITTEN: usize = 4_194_304;

/// The macros so far, the other names that are defined, and what is read.
#[derive(Drop)]
struct State<'a, 'l> {
    macros: Vec<Macro<'a, 'l>>,
    others: Names<'a>,
    reading: Reading<'a, 'l>,
}

#[tactic(auto, using(crate::proofs::Steps::among_same))]
fn is_declared(names: &Names<'_>, name: &[u8]) -> bool
    ensures { result ≡ is_among (seen_names names.now) name.now }
{
    names.contains(name)
}

// A body is read as if it were the argument of a call.
fn as_argument<'a, 'l>(alloc: Global, room: usize) -> Result<Reading<'a, 'l>, AllocError>
    ensures { IfOk result (λ r. seen_reading r ≡ as_argument room) }
{
    let mut calls = Calls::new(alloc);
    calls.push(Call {
        place: Token {
            terminal: Terminal::Sign(Sign::OpenParen),
            line: 0,
            column: 0,
        },
        depth: 1,
        before: Vec::new(alloc),
        now: Vec::new(alloc),
    })?;
    Ok(Reading {
        alloc,
        done: Vec::new(alloc),
        calls,
        room,
    })
}

// Whether it is one argument, and nothing else.
fn is_argument(call: &Call<'_, '_>) -> bool
    ensures { result ≡ is_argument (seen_call call.entry.now) }
{
    call.depth == 1 && call.before.is_empty() && !call.now.is_empty()
}

fn terminals<'a, 'l>(
    alloc: Global,
    tokens: &[Token<'a, 'l>],
) -> Result<Vec<Terminal<'a, 'l>>, AllocError>
    ensures { IfOk result (λ v. map seen_terminal v.items ≡ map (λ i. i.terminal) (seen_all tokens.now)) }
{
    let mut terminals = Vec::new(alloc);
    let mut rest = tokens;
    'tokens: while let [token, behind @ ..] = rest {
        terminals.push(token.terminal)?;
        rest = behind;
    }
    Ok(terminals)
}

// The body that was read.
fn body_of<'a, 'l>(
    alloc: Global,
    reading: Reading<'a, 'l>,
) -> Result<Option<Vec<Terminal<'a, 'l>>>, AllocError>
    ensures { IfOk result (λ o. option_map (λ v. map seen_terminal v.items) o ≡ body_of (seen_reading reading.entry)) }
{
    let Reading {
        alloc: _,
        done,
        mut calls,
        room: _,
    } = reading;
    if !done.is_empty() {
        return Ok(None);
    }
    let Some(call) = calls.pop() else {
        return Ok(None);
    };
    if calls.is_open() || !is_argument(&call) {
        return Ok(None);
    }
    Ok(Some(terminals(alloc, &call.now)?))
}

// Whether an opening bracket follows.
fn opens(rest: &[Token<'_, '_>]) -> bool
    ensures { result ≡ opens (bare (seen_all rest.now)) }
{
    let mut ahead = Ahead::new(rest);
    match ahead.next() {
        Some(next) => next.terminal.is_sign(Sign::OpenParen),
        None => false,
    }
}

impl<'a, 'l> State<'a, 'l> {
    ghost use Rattle.std.specs.Prelude.{◌≡◌, map, IfOk};
    ghost use Rattle.c_grammar.specs.Blocks.{bare};
    ghost use Rattle.c_grammar.specs.Expressions.{as_items};
    ghost use Rattle.c_grammar.specs.Macros.{is_new, line_on, parameters, put_line, token_on, with_head, with_macro};
    ghost use Rattle.directives.specs.Seen.{seen_placed};
    ghost use Rattle.c_macros.specs.Definitions.{seen_defined};
    ghost use Rattle.c_macros.specs.Macros.{seen_macro};
    ghost use Rattle.c_macros.specs.Text.{seen_state, state_so_far, taken};
    ghost use Rattle.c_terminals.specs.Seen.{seen, seen_all, seen_terminal};

    fn is_new(&self, one: &Macro<'_, '_>) -> bool
        ensures { result ≡ is_new (seen_state self.now) (seen_macro one.now) }
    {
        !is_declared(&self.others, one.name)
            && !is_used(one.name, &self.macros)
            && !is_among(&one.parameters, one.name)
            && !has_name(one.name, &one.body)
            && !is_macro(&self.macros, &one.parameters)
    }

    fn add(&mut self, one: Macro<'a, 'l>, room: usize) -> Result<bool, AllocError>
        ensures { IfOk result (λ b. state_so_far b self.new ≡ with_macro (seen_state self.old) (seen_macro one.entry) room) }
    {
        if !self.is_new(&one) {
            return Ok(false);
        }
        self.macros.push(one)?;
        self.reading.room = room;
        Ok(true)
    }

    // A macro with these tokens behind the bracket.
    fn define(&mut self, name: &'a [u8], lexemes: &[PlacedLexeme<'a>]) -> Result<bool, AllocError>
        ensures { IfOk result (λ b. state_so_far b self.new ≡
            with_head (seen_state self.old) name.now (parameters (as_items 0 (map seen_placed lexemes.now)))) }
    {
        let alloc = self.reading.alloc;
        let Some(
            Head {
                parameters,
                body: behind,
            },
        ) = parameters(alloc, lexemes)?
        else {
            return Ok(false);
        };
        let mut reading = as_argument(alloc, self.reading.room)?;
        if !read_body(&self.macros, behind, &mut reading)? {
            return Ok(false);
        }
        let room = reading.room;
        let Some(body) = body_of(alloc, reading)? else {
            return Ok(false);
        };
        self.add(
            Macro {
                name,
                parameters,
                body,
            },
            room,
        )
    }

    fn put_line(&mut self, token: Token<'a, 'l>) -> Result<bool, AllocError>
        ensures { IfOk result (λ b. state_so_far b self.new ≡ put_line (seen_state self.old) (seen token.entry)) }
    {
        self.reading.put(token)
    }

    // A line: one that defines a macro is left out.
    fn line(&mut self, token: Token<'a, 'l>, defined: Defined<'_, 'a>) -> Result<bool, AllocError>
        ensures { IfOk result (λ b. state_so_far b self.new ≡
            line_on (seen_state self.old) (seen token.entry) (seen_defined defined.entry)) }
    {
        match defined {
            Defined::Other => self.put_line(token),
            Defined::Plain(name) => {
                if macro_of(&self.macros, name).is_some() {
                    return Ok(false);
                }
                self.others.declare(name)?;
                self.put_line(token)
            }
            Defined::With(name, rest) => self.define(name, rest),
        }
    }

    fn token(&mut self, token: Token<'a, 'l>, rest: &[Token<'a, 'l>]) -> Result<bool, AllocError>
        ensures { IfOk result (λ b. state_so_far b self.new ≡
            token_on (seen_state self.old) (seen token.entry) (bare (seen_all rest.now)) (seen_terminal token.entry.terminal)) }
    {
        match token.terminal {
            Terminal::Line(line) => {
                if self.reading.calls.is_open() {
                    return Ok(false);
                }
                self.line(token, defined_in(line.tokens()))
            }
            _ => self.reading.take(&self.macros, opens(rest), token),
        }
    }

    // The next token, before others. False where it is not surely one of C.
    fn take(&mut self, token: Token<'a, 'l>, rest: &[Token<'a, 'l>]) -> Result<bool, AllocError>
        ensures { IfOk result (λ b. state_so_far b self.new ≡
            taken (seen_state self.old) (seen token.entry) (bare (seen_all rest.now))) }
    {
        if token.terminal.is_directive() {
            self.reading.done.push(token)?;
            return Ok(true);
        }
        self.token(token, rest)
    }
}

// Whether the token is a line that defines a macro.
fn defines(token: Token<'_, '_>) -> bool
    ensures { result ≡ is_with (defined_at (seen token.entry) (seen_terminal token.entry.terminal)) }
{
    match token.terminal {
        Terminal::Line(line) => match defined_in(line.tokens()) {
            Defined::With(_, _) => true,
            _ => false,
        },
        _ => false,
    }
}

fn has_macro(tokens: &[Token<'_, '_>]) -> bool
    ensures { result ≡ has_macro (bare (seen_all tokens.now)) }
{
    let mut ahead = Ahead::new(tokens);
    'tokens: while let Some(token) = ahead.next() {
        if defines(token) {
            return true;
        }
    }
    false
}

const NUM_DEVICES: &[u8] = b"omp_get_num_devices";

const DEFAULT_DEVICE: &[u8] = b"omp_get_default_device";

// A function without parameters, which stands for that token.
fn put_known<'a, 'l>(
    alloc: Global,
    macros: &mut Vec<Macro<'a, 'l>>,
    name: &'static [u8],
    value: Terminal<'a, 'l>,
) -> Result<(), AllocError>
    ensures { OnOk result (all_macros macros.new.items ≡
        all_macros macros.old.items ++ macro name.now [] (seen_terminal value.entry ∷ []) ∷ []) }
{
    let mut body = Vec::new(alloc);
    body.push(value)?;
    macros.push(Macro {
        name,
        parameters: Vec::new(alloc),
        body,
    })?;
    Ok(())
}

fn is_known(terminal: Terminal<'_, '_>) -> bool
    ensures { result ≡ is_known (seen_terminal terminal.entry) }
{
    terminal.is_named(NUM_DEVICES) || terminal.is_named(DEFAULT_DEVICE)
}

// Whether one of them is called.
fn has_call(tokens: &[Token<'_, '_>]) -> bool
    ensures { result ≡ has_call false (bare (seen_all tokens.now)) }
{
    let mut named = false;
    let mut ahead = Ahead::new(tokens);
    'tokens: while let Some(token) = ahead.next() {
        if named && token.terminal.is_sign(Sign::OpenParen) {
            return true;
        }
        named = is_known(token.terminal);
    }
    false
}

fn has_any(tokens: &[Token<'_, '_>]) -> bool
    ensures { result ≡ (has_macro (bare (seen_all tokens.now)) || has_call false (bare (seen_all tokens.now))) }
{
    has_macro(tokens) || has_call(tokens)
}

// What is read of all tokens, if they are surely those of C.
fn read<'a, 'l>(
    alloc: Global,
    tokens: &[Token<'a, 'l>],
) -> Result<Option<State<'a, 'l>>, AllocError>
    ensures { IfOk result (λ o. option_map seen_state o ≡ read begin (seen_all tokens.now)) }
{
    let mut macros = Vec::new(alloc);
    put_known(alloc, &mut macros, NUM_DEVICES, Terminal::Number(4))?;
    put_known(alloc, &mut macros, DEFAULT_DEVICE, Terminal::Number(0))?;
    let mut state = State {
        macros,
        others: Names::new(alloc),
        reading: Reading {
            alloc,
            done: Vec::new(alloc),
            calls: Calls::new(alloc),
            room: MOST_WRITTEN,
        },
    };
    let mut rest = tokens;
    'tokens: while let [token, behind @ ..] = rest {
        rest = behind;
        if !state.take(*token, behind)? {
            return Ok(None);
        }
    }
    Ok(Some(state))
}

// The tokens that were read, if no call is open.
fn whole<'a, 'l>(state: State<'a, 'l>) -> Option<Vec<Token<'a, 'l>>>
    ensures { option_map (λ v. seen_all v.items) result ≡ whole (seen_state state.entry) }
{
    let State {
        macros: _,
        others: _,
        reading,
    } = state;
    let Reading {
        alloc: _,
        done,
        calls,
        room: _,
    } = reading;
    if calls.is_open() {
        return None;
    }
    Some(done)
}

/// All tokens, with what macros and known functions of OpenMP stand for; as they are, where that is not surely so in C.
pub fn replaced<'a, 'l>(
    alloc: Global,
    tokens: &[Token<'a, 'l>],
) -> Result<Vec<Token<'a, 'l>>, AllocError>
    ensures { IfOk result (λ v. seen_all v.items ≡ replaced (seen_all tokens.now)) }
{
    if has_any(tokens) {
        if let Some(state) = read(alloc, tokens)? {
            if let Some(done) = whole(state) {
                return Ok(done);
            }
        }
    }
    Vec::from_slice(alloc, tokens)
}
