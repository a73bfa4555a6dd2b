//! Heads of functions.

ghost use Rattle.std.specs.Prelude.{◌≡◌, ◌≤◌, ◌<◌, ◌+◌, ◌^◌, [], length, drop, IfOk, IfSome};
ghost use Rattle.std.specs.Option.{option_map};
ghost use Rattle.c_grammar.specs.FunctionHeads.{Begins, behind, behind_name, behind_rows, closing, columns, head_at, headed, named, no_parameters, parameters, parameters_in};
ghost use Rattle.c_terminals.specs.Ahead.{ahead};
ghost use Rattle.c_written.specs.Functions.{all_declared, seen_gives, seen_headed, seen_sort, seen_step};
ghost use Rattle.c_terminals.specs.Seen.{seen, seen_terminal};

use c_terminals::{Ahead, Terminal, Token};
use c_tokens::Sign;
use c_types::is_qualifier;
use directives::Word;
use std::alloc::{AllocError, Global};

/// What a parameter is.
#[derive(Clone, Copy)]
pub enum Sort {
    /// A number of 64 bits.
    Scalar,
    Array,
    /// A number of the type `int`.
    Small,
}

/// A parameter as it is declared.
#[derive(Clone, Copy)]
pub struct Declared<'a> {
    pub name: &'a [u8],
    pub sort: Sort,
}

/// What a function gives.
#[derive(Clone, Copy)]
pub enum Gives {
    NoValue,
    /// A number of 64 bits.
    AValue,
    /// A number of the type `int`, which no call uses.
    AStatus,
}

/// The head of a function that is defined.
#[derive(Drop)]
pub struct Headed<'a> {
    pub name: &'a [u8],
    pub gives: Gives,
    pub declared: Vec<Declared<'a>>,
    /// How many more tokens the head has, up to the brace.
    pub len: usize,
}

// What has been read of a parameter.
#[derive(Clone, Copy)]
enum Head<'a> {
    Begins,
    Typed,
    /// Behind the type `int`.
    IntTyped,
    Starred,
    Named(Declared<'a>),
    /// In brackets, before their number.
    Opened(&'a [u8]),
    /// Behind this number.
    Sized(&'a [u8]),
    /// Behind brackets.
    Rows(&'a [u8]),
    /// In others behind those, before their number.
    Inner(&'a [u8]),
}

#[derive(Clone, Copy)]
enum Step<'a> {
    Goes(Head<'a>),
    Adds(Declared<'a>),
    Closes(Declared<'a>),
    Stops,
}

fn named<'a>(terminal: Terminal<'a, '_>, sort: Sort) -> Step<'a>
    ensures { seen_step result ≡ named (seen_terminal terminal.entry) (seen_sort sort) }
{
    match terminal {
        Terminal::Name(name) => Step::Goes(Head::Named(Declared { name, sort })),
        _ => Step::Stops,
    }
}

fn behind_name<'a>(declared: Declared<'a>, terminal: Terminal<'a, '_>) -> Step<'a>
    ensures { seen_step result ≡ behind_name declared.entry.name.now (seen_sort declared.entry.sort) (seen_terminal terminal.entry) }
{
    if terminal.is_sign(Sign::Comma) {
        return Step::Adds(declared);
    }
    if terminal.is_sign(Sign::CloseParen) {
        return Step::Closes(declared);
    }
    if terminal.is_sign(Sign::OpenBracket) && declared.sort.is_scalar() {
        return Step::Goes(Head::Opened(declared.name));
    }
    Step::Stops
}

fn closing<'a>(name: &'a [u8], terminal: Terminal<'a, '_>) -> Step<'a>
    ensures { seen_step result ≡ closing name.now (seen_terminal terminal.entry) }
{
    if terminal.is_sign(Sign::CloseBracket) {
        return Step::Goes(Head::Rows(name));
    }
    Step::Stops
}

fn behind_rows<'a>(name: &'a [u8], terminal: Terminal<'a, '_>) -> Step<'a>
    ensures { seen_step result ≡ behind_rows name.now (seen_terminal terminal.entry) }
{
    if terminal.is_sign(Sign::OpenBracket) {
        return Step::Goes(Head::Inner(name));
    }
    let sort = Sort::Array;
    behind_name(Declared { name, sort }, terminal)
}

fn columns<'a>(name: &'a [u8], terminal: Terminal<'a, '_>) -> Step<'a>
    ensures { seen_step result ≡ columns name.now (seen_terminal terminal.entry) }
{
    if terminal.is_number() {
        return Step::Goes(Head::Sized(name));
    }
    Step::Stops
}

impl Sort {
    ghost use Rattle.std.specs.Prelude.{◌≡◌};
    ghost use Rattle.c_grammar.specs.FunctionHeads.{is_array, is_scalar};
    ghost use Rattle.c_written.specs.Functions.{seen_sort};

    pub fn is_array(self) -> bool
        ensures { result ≡ is_array (seen_sort self) }
    {
        match self {
            Sort::Array => true,
            _ => false,
        }
    }

    fn is_scalar(self) -> bool
        ensures { result ≡ is_scalar (seen_sort self) }
    {
        match self {
            Sort::Scalar => true,
            _ => false,
        }
    }
}

impl<'a> Head<'a> {
    ghost use Rattle.std.specs.Prelude.{◌≡◌};
    ghost use Rattle.c_grammar.specs.FunctionHeads.{behind};
    ghost use Rattle.c_written.specs.Functions.{seen_head, seen_step};
    ghost use Rattle.c_terminals.specs.Seen.{seen_terminal};

    fn behind(self, terminal: Terminal<'a, '_>) -> Step<'a>
        ensures { seen_step result ≡ behind (seen_head self.entry) (seen_terminal terminal.entry) }
    {
        match self {
            Head::Begins => {
                if is_qualifier(terminal) {
                    Step::Goes(Head::Begins)
                } else if terminal.is_word(Word::Uint64) {
                    Step::Goes(Head::Typed)
                } else if terminal.is_word(Word::Int) {
                    Step::Goes(Head::IntTyped)
                } else {
                    Step::Stops
                }
            }
            Head::Typed => {
                if is_qualifier(terminal) {
                    Step::Goes(Head::Typed)
                } else if terminal.is_sign(Sign::Star) {
                    Step::Goes(Head::Starred)
                } else {
                    named(terminal, Sort::Scalar)
                }
            }
            Head::IntTyped => {
                if is_qualifier(terminal) {
                    Step::Goes(Head::IntTyped)
                } else {
                    named(terminal, Sort::Small)
                }
            }
            Head::Starred => {
                if is_qualifier(terminal) {
                    Step::Goes(Head::Starred)
                } else {
                    named(terminal, Sort::Array)
                }
            }
            Head::Named(declared) => behind_name(declared, terminal),
            Head::Opened(name) => {
                if terminal.is_number() {
                    Step::Goes(Head::Sized(name))
                } else {
                    closing(name, terminal)
                }
            }
            Head::Sized(name) => closing(name, terminal),
            Head::Rows(name) => behind_rows(name, terminal),
            Head::Inner(name) => columns(name, terminal),
        }
    }
}

// The parameters up to the closing bracket, with how many tokens these are.
fn parameters<'a>(
    alloc: Global,
    start: Ahead<'a, '_, '_>,
) -> Result<Option<(Vec<Declared<'a>>, usize)>, AllocError>
    requires { length (ahead start) < 2 ^ 63 }
    ensures parameters { IfOk result (λ o. option_map (λ p. (all_declared p.0.items, p.1)) o ≡ parameters Begins [] 0 (ahead start.entry)) }
    ensures few { IfOk result (λ o. IfSome o (λ p. p.1 ≤ 2 + length (ahead start.entry))) }
{
    let mut ahead = start;
    let mut head = Head::Begins;
    let mut declared = Vec::new(alloc);
    let mut len = 0;
    'tokens: while let Some(token) = ahead.next() {
        len += 1;
        match head.behind(token.terminal) {
            Step::Goes(next) => head = next,
            Step::Adds(one) => {
                declared.push(one)?;
                head = Head::Begins;
            }
            Step::Closes(one) => {
                declared.push(one)?;
                return Ok(Some((declared, len)));
            }
            Step::Stops => return Ok(None),
        }
    }
    Ok(None)
}

// How many tokens stand for no parameters: one bracket, or `void` and one.
fn no_parameters(start: Ahead<'_, '_, '_>) -> Option<usize>
    ensures none { result ≡ no_parameters (ahead start.entry) }
    ensures few { IfSome result (λ k. k ≤ 2 + length (ahead start.entry)) }
{
    let mut ahead = start;
    let first = ahead.next()?;
    if first.terminal.is_sign(Sign::CloseParen) {
        return Some(1);
    }
    if !first.terminal.is_word(Word::Void) {
        return None;
    }
    let second = ahead.next()?;
    if second.terminal.is_sign(Sign::CloseParen) {
        return Some(2);
    }
    None
}

fn parameters_in<'a>(
    alloc: Global,
    start: Ahead<'a, '_, '_>,
) -> Result<Option<(Vec<Declared<'a>>, usize)>, AllocError>
    requires { length (ahead start) < 2 ^ 63 }
    ensures parameters { IfOk result (λ o. option_map (λ p. (all_declared p.0.items, p.1)) o ≡ parameters_in (no_parameters (ahead start.entry)) (ahead start.entry)) }
    ensures few { IfOk result (λ o. IfSome o (λ p. p.1 ≤ 2 + length (ahead start.entry))) }
{
    match no_parameters(start) {
        Some(len) => Ok(Some((Vec::new(alloc), len))),
        None => parameters(alloc, start),
    }
}

/// So many tokens on.
pub fn passed<'a, 'l, 's>(start: Ahead<'a, 'l, 's>, len: usize) -> Ahead<'a, 'l, 's>
    ensures { ahead result ≡ drop len (ahead start.entry) }
{
    let mut ahead = start;
    let mut left = len;
    'tokens: while left > 0 {
        let mut behind = ahead;
        if behind.next().is_none() {
            return ahead;
        }
        ahead = behind;
        left -= 1;
    }
    ahead
}

fn function_head<'a>(
    alloc: Global,
    gives: Gives,
    start: Ahead<'a, '_, '_>,
) -> Result<Option<Headed<'a>>, AllocError>
    requires { length (ahead start) < 2 ^ 63 }
    ensures { IfOk result (λ o. option_map seen_headed o ≡ headed (seen_gives gives) (ahead start.entry)) }
{
    let mut ahead = start;
    let Some(first) = ahead.next() else {
        return Ok(None);
    };
    let Some(second) = ahead.next() else {
        return Ok(None);
    };
    let Terminal::Name(name) = first.terminal else {
        return Ok(None);
    };
    if !second.terminal.is_sign(Sign::OpenParen) {
        return Ok(None);
    }
    let Some((declared, len)) = parameters_in(alloc, ahead)? else {
        return Ok(None);
    };
    match passed(ahead, len).next() {
        Some(brace) if brace.terminal.is_sign(Sign::OpenBrace) => Ok(Some(Headed {
            name,
            gives,
            declared,
            len: len + 3,
        })),
        _ => Ok(None),
    }
}

/// The head of a function that begins at a token, before these.
pub fn head_at<'a>(
    alloc: Global,
    token: Token<'a, '_>,
    rest: Ahead<'a, '_, '_>,
) -> Result<Option<Headed<'a>>, AllocError>
    requires { length (ahead rest) < 2 ^ 63 }
    ensures { IfOk result (λ o. option_map seen_headed o ≡ head_at (seen token.entry).terminal (ahead rest.entry)) }
{
    if token.terminal.is_word(Word::Void) {
        return function_head(alloc, Gives::NoValue, rest);
    }
    if token.terminal.is_word(Word::Uint64) {
        return function_head(alloc, Gives::AValue, rest);
    }
    if token.terminal.is_word(Word::Int) {
        return function_head(alloc, Gives::AStatus, rest);
    }
    Ok(None)
}
