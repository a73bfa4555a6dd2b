//! Names that stand for numbers, and expressions of numbers where C wants a constant.

ghost use Rattle.std.specs.Prelude.{◌≡◌, [], IfOk, MatchOption, None, OnOk, Some};
ghost use Rattle.std.specs.Option.{option_map};
ghost use Rattle.c_grammar.specs.Constants.{worked};
ghost use Rattle.c_written.specs.Constants.{constant_ended, ends_by, ends_constant, length_ended, name_in, named_number, number_in, with_constant};
ghost use Rattle.c_terminals.specs.Seen.{seen_all, seen_terminal};
ghost use Rattle.c_written.specs.Past.{past_of};
ghost use Rattle.c_terminals.specs.Held.{written_all};
ghost use Rattle.c_written.specs.Values.{seen_constant, seen_values};
ghost use Rattle.c_terminals.specs.Names.{seen_names};
ghost use Rattle.c_written.specs.Names.{declared_last, is_uint64, name_at, text_in, with_name};

use crate::clauses::clauses_in_full;
use crate::definition::{Definition, what_defines};
use crate::expressions::{Worked, expression};
use crate::line_forms::line_in_full;
use crate::shapes::{at_array_length, at_constant_value, at_enumerated_value, wanted};
use crate::stack::Stack;
use crate::values::{Constant, Values};
use crate::work::Operator;
use c_terminals::{Names, Terminal, Token, Written, WrittenTerminal};
use c_tokens::Sign;
use directives::Word;
use std::alloc::{AllocError, Global};

/// The tokens so far.
#[derive(Drop)]
struct Constants<'a, 'l> {
    alloc: Global,
    done: Vec<Written<'a>>,
    values: Values<'a>,
    /// The lengths of the arrays.
    lengths: Values<'a>,
    /// The names that are declared.
    names: Names<'a>,
    /// The tokens so far that are no directive lines.
    past: Stack<Terminal<'a, 'l>>,
    /// How many tokens are still to be left out.
    left: usize,
}

/// The number that the token is.
fn number_of(terminal: Terminal<'_, '_>) -> Option<u64>
    ensures { result ≡ number_in (seen_terminal terminal.entry) }
{
    match terminal {
        Terminal::Number(n) => Some(n),
        _ => None,
    }
}

/// The name that the token is.
fn name_of<'a>(terminal: Terminal<'a, '_>) -> Option<&'a [u8]>
    ensures { MatchOption result (name_in (seen_terminal terminal.entry) ≡ None) (λ x. name_in (seen_terminal terminal.entry) ≡ Some x.now) }
{
    match terminal {
        Terminal::Name(text) => Some(text),
        _ => None,
    }
}

/// A name and its number.
fn named_number<'a>(
    name: Option<Terminal<'a, '_>>,
    number: Option<Terminal<'a, '_>>,
) -> Option<Constant<'a>>
    ensures { option_map seen_constant result ≡ named_number (option_map seen_terminal name.entry) (option_map seen_terminal number.entry) }
{
    let name = name_of(name?)?;
    let value = number_of(number?)?;
    Some(Constant { name, value })
}

/// Whether a constant ends with the last token, if its name and number stand before.
fn ends_by(last: Terminal<'_, '_>, past: &Stack<Terminal<'_, '_>>) -> bool
    ensures { result ≡ ends_by (seen_terminal last.entry) (past_of past.now) }
{
    (last.is_sign(Sign::Semicolon) && at_constant_value(past, 2))
        || ((last.is_sign(Sign::Comma) || last.is_sign(Sign::CloseBrace))
            && at_enumerated_value(past, 2))
}

fn ends_constant(past: &Stack<Terminal<'_, '_>>) -> bool
    ensures { result ≡ ends_constant (past_of past.now) }
{
    match past.peek(0) {
        Some(last) => ends_by(last, past),
        None => false,
    }
}

/// The constant that the last token ends, if it ends one.
fn ended_constant<'a>(past: &Stack<Terminal<'a, '_>>) -> Option<Constant<'a>>
    ensures { option_map seen_constant result ≡ constant_ended (past_of past.now) }
{
    if ends_constant(past) {
        named_number(past.peek(3), past.peek(1))
    } else {
        None
    }
}

/// The length of an array that the last token is.
fn array_length<'a>(past: &Stack<Terminal<'a, '_>>) -> Option<Constant<'a>>
    ensures { option_map seen_constant result ≡ length_ended (past_of past.now) }
{
    if at_array_length(past, 1) {
        named_number(past.peek(2), past.peek(0))
    } else {
        None
    }
}

/// Adds a constant, if there is one.
fn define<'a>(values: &mut Values<'a>, constant: Option<Constant<'a>>) -> Result<(), AllocError>
    ensures { OnOk result (seen_values values.new ≡ with_constant (option_map seen_constant constant.entry) (seen_values values.old)) }
{
    match constant {
        Some(constant) => values.define(constant.name, constant.value),
        None => Ok(()),
    }
}

/// The name that the token is.
fn name_at<'a>(terminal: Option<Terminal<'a, '_>>) -> Option<&'a [u8]>
    ensures { text_in result ≡ name_at (option_map seen_terminal terminal.entry) }
{
    match terminal {
        Some(Terminal::Name(text)) => Some(text),
        _ => None,
    }
}

fn is_uint64(terminal: Option<Terminal<'_, '_>>) -> bool
    ensures { result ≡ is_uint64 (option_map seen_terminal terminal.entry) }
{
    match terminal {
        Some(terminal) => terminal.is_word(Word::Uint64),
        None => false,
    }
}

/// The name that the last token declares.
fn declared_last<'a>(past: &Stack<Terminal<'a, '_>>) -> Option<&'a [u8]>
    ensures { text_in result ≡ declared_last (past_of past.now) }
{
    if is_uint64(past.peek(1)) {
        name_at(past.peek(0))
    } else {
        None
    }
}

/// Adds a name, if there is one.
fn declare<'a>(names: &mut Names<'a>, name: Option<&'a [u8]>) -> Result<(), AllocError>
    ensures { OnOk result (seen_names names.new ≡ with_name (text_in name.entry) (seen_names names.old)) }
{
    match name {
        Some(name) => names.declare(name),
        None => Ok(()),
    }
}

impl<'a, 'l> Constants<'a, 'l> {
    ghost use Rattle.std.specs.Prelude.{◌≡◌, ◌++◌, ◌∷◌, [], IfOk, OnOk, drop, false, true};
    ghost use Rattle.std.specs.Option.{option_map};
    ghost use Rattle.c_grammar.specs.Terminal.{Unworked};
    ghost use Rattle.c_grammar.specs.Blocks.{Items, bare, is_directive};
    ghost use Rattle.c_grammar.specs.Expressions.{put};
    ghost use Rattle.c_grammar.specs.Constants.{at_wanted, ended_constant, expressed, goes_on, put_item, wanted, with_terminal};
    ghost use Rattle.c_written.specs.Constants.{HasNotes, behind, with_constants};
    ghost use Rattle.c_terminals.specs.Seen.{columns_in, seen, seen_all, seen_terminal};
    ghost use Rattle.c_terminals.specs.Held.{written_all};
    ghost use Rattle.c_written.specs.Past.{past_of};
    ghost use Rattle.c_written.specs.Values.{seen_values};
    ghost use Rattle.c_written.specs.Work.{seen_operator, seen_worked};

    /// Takes note of a token that goes on.
    fn note(&mut self, terminal: Terminal<'a, 'l>) -> Result<(), AllocError>
        requires { HasNotes self.old }
        ensures past { OnOk result (past_of self.new.past ≡ seen_terminal terminal.entry ∷ past_of self.old.past) }
        ensures values { OnOk result (seen_values self.new.values ≡
            ended_constant (seen_values self.old.values) (seen_terminal terminal.entry ∷ past_of self.old.past)) }
        ensures notes { OnOk result (HasNotes self.new) }
        ensures done { self.new.done.items ≡ self.old.done.items }
        ensures left { self.new.left ≡ self.old.left }
    {
        self.past.push(terminal)?;
        define(&mut self.values, ended_constant(&self.past))?;
        define(&mut self.lengths, array_length(&self.past))?;
        declare(&mut self.names, declared_last(&self.past))
    }

    /// The token goes on, and so many more are read with it.
    fn go_on(&mut self, token: Token<'a, 'l>, more: usize) -> Result<(), AllocError>
        requires { HasNotes self.old }
        ensures gone { OnOk result ((is : Items) → written_all self.old.done.items ++
            goes_on (seen_values self.old.values) (past_of self.old.past) (seen token.entry) more (behind is) ≡ with_constants self.new is) }
        ensures notes { OnOk result (HasNotes self.new) }
    {
        self.done.push(Written::of(self.alloc, token)?)?;
        self.left = more;
        self.note(token.terminal)
    }

    /// An expression without a value.
    fn fail(&mut self, operator: Operator, more: usize) -> Result<(), AllocError>
        requires { HasNotes self.old }
        ensures gone { OnOk result ((is : Items) → written_all self.old.done.items ++
            goes_on (seen_values self.old.values) (past_of self.old.past) (with_terminal (seen_operator operator) Unworked) more (behind is) ≡
            with_constants self.new is) }
        ensures notes { OnOk result (HasNotes self.new) }
    {
        let token = Token {
            terminal: Terminal::Unworked,
            line: operator.line,
            column: operator.column,
        };
        self.go_on(token, more)
    }

    /// The token, or its number where it is a constant's name.
    fn number_for(&self, terminal: Terminal<'a, 'l>) -> Terminal<'a, 'l>
        ensures terminal { seen_terminal result ≡ put (seen_values self.now.values) (seen_terminal terminal.entry) }
        ensures columns { columns_in result ≡ columns_in terminal.entry }
    {
        match terminal {
            Terminal::Name(name) => match self.values.value(name) {
                Some(n) => Terminal::Number(n),
                None => terminal,
            },
            _ => terminal,
        }
    }

    /// The token, with its number where it is a constant's name.
    fn put(&self, token: Token<'a, 'l>) -> Token<'a, 'l>
        requires { is_directive (seen_terminal token.terminal) ≡ false }
        ensures { seen result ≡ put_item (seen_values self.now.values) (past_of self.now.past) (seen token.entry) (seen_terminal token.entry.terminal) }
    {
        token.at(self.number_for(token.terminal))
    }

    /// A directive line in full.
    fn write_line(&mut self, token: Token<'a, 'l>) -> Result<(), AllocError>
        requires line { is_directive (seen_terminal token.terminal) ≡ true }
        requires notes { HasNotes self.old }
        ensures gone { OnOk result ((is : Items) → written_all self.old.done.items ++
            (put_item (seen_values self.old.values) (past_of self.old.past) (seen token.entry) (seen_terminal token.entry.terminal) ∷
            behind is (seen_values self.old.values) (past_of self.old.past) self.old.left) ≡ with_constants self.new is) }
        ensures notes { OnOk result (HasNotes self.new) }
    {
        if let Terminal::Line(line) = token.terminal {
            let line = clauses_in_full(self.alloc, &self.names, &self.lengths, line)?;
            let line = line_in_full(self.alloc, &self.values, &self.lengths, &line)?;
            self.done.push(Written {
                terminal: WrittenTerminal::Line(line),
                line: token.line,
                column: token.column,
            })?;
        }
        Ok(())
    }

    /// The expression at the front, where one may stand.
    fn worked(&self, tokens: &[Token<'a, 'l>]) -> Result<Option<Worked>, AllocError>
        ensures { IfOk result (λ w. option_map seen_worked w ≡
            at_wanted (seen_values self.now.values) (bare (seen_all tokens.now)) (wanted (past_of self.now.past))) }
    {
        match wanted(&self.past) {
            Some(single) => expression(self.alloc, &self.values, single, tokens),
            None => Ok(None),
        }
    }

    /// A token that stands where an expression may stand, or by itself.
    fn work(&mut self, token: Token<'a, 'l>, tokens: &[Token<'a, 'l>]) -> Result<(), AllocError>
        requires other { is_directive (seen_terminal token.terminal) ≡ false }
        requires first { bare (seen_all tokens.now) ≡ seen token ∷ drop 1 (bare (seen_all tokens.now)) }
        requires notes { HasNotes self.old }
        ensures gone { OnOk result ((is : Items) → written_all self.old.done.items ++
            expressed (seen_values self.old.values) (past_of self.old.past) (seen token.entry)
            (at_wanted (seen_values self.old.values) (bare (seen_all tokens.now)) (wanted (past_of self.old.past))) (behind is) ≡
            with_constants self.new is) }
        ensures notes { OnOk result (HasNotes self.new) }
    {
        match self.worked(tokens)? {
            None => {
                let put = self.put(token);
                self.go_on(put, 0)
            }
            Some(Worked::Number(count, value)) => {
                self.go_on(token.at(Terminal::Number(value)), count.saturating_sub(1))
            }
            Some(Worked::Fault(count, operator)) => self.fail(operator, count.saturating_sub(1)),
        }
    }

    /// The next token, which stands first among the rest.
    fn take(
        &mut self,
        token: Token<'a, 'l>,
        behind: &[Token<'a, 'l>],
        rest: &[Token<'a, 'l>],
    ) -> Result<(), AllocError>
        requires rest { seen_all rest.now ≡ seen token ∷ seen_all behind.now }
        requires notes { HasNotes self.old }
        ensures taken { OnOk result (with_constants self.old (seen_all rest.now) ≡ with_constants self.new (seen_all behind.now)) }
        ensures notes { OnOk result (HasNotes self.new) }
    {
        if token.terminal.is_directive() {
            return self.write_line(token);
        }
        if self.left > 0 {
            self.left -= 1;
            return Ok(());
        }
        match what_defines(self.alloc, &self.values, token)? {
            Some(Definition::Defines(constant)) => self
                .values
                .define(constant.name, constant.value),
            Some(Definition::Misdefines(operator)) => self.fail(operator, 0),
            None => self.work(token, rest),
        }
    }
}

/// The tokens with their constants worked out.
pub fn worked<'a, 'l>(
    alloc: Global,
    tokens: &[Token<'a, 'l>],
) -> Result<Vec<Written<'a>>, AllocError>
    ensures { IfOk result (λ v. written_all v.items ≡ worked [] [] 0 (seen_all tokens.now)) }
{
    let mut constants = Constants {
        alloc,
        done: Vec::new(alloc),
        values: Values::new(alloc),
        lengths: Values::new(alloc),
        names: Names::new(alloc),
        past: Stack::new(alloc),
        left: 0,
    };
    let mut rest = tokens;
    'tokens: while let [token, behind @ ..] = rest {
        constants.take(*token, behind, rest)?;
        rest = behind;
    }
    Ok(constants.done)
}
