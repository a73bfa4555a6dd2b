//! Expressions of numbers.

ghost use Rattle.std.specs.Prelude.{◌≡◌, [], IfOk};
ghost use Rattle.std.specs.Option.{option_map};
ghost use Rattle.c_grammar.specs.Blocks.{bare};
ghost use Rattle.c_grammar.specs.Expressions.{Nothing, expression};
ghost use Rattle.c_terminals.specs.Seen.{seen_all};
ghost use Rattle.c_written.specs.Values.{seen_values};
ghost use Rattle.c_written.specs.Work.{seen_worked};

use crate::stack::Stack;
use crate::values::Values;
use crate::work::{Operator, Work};
use c_terminals::{Ahead, Terminal, Token};
use c_tokens::Sign;
use std::alloc::{AllocError, Global};

/// What an expression is: of so many tokens, with its value or the operator that has none.
#[derive(Clone, Copy)]
pub enum Worked {
    Number(usize, u64),
    Fault(usize, Operator),
}

/// What waits for an operand on its right.
#[derive(Clone, Copy)]
enum Waiting {
    /// A number with an operator behind it.
    Behind(u64, Operator),
    /// An open bracket.
    Bracket,
}

/// So many numbers and brackets may wait behind a bracket.
const MOST_WAITING: usize = 256;

/// An expression that is being read.
#[derive(Drop)]
struct Reader<'v, 'a> {
    values: &'v Values<'a>,
    /// One number or bracket alone is read.
    single: bool,
    /// The value that was read last, if it was one.
    value: Option<u64>,
    waiting: Stack<Waiting>,
    /// How many tokens have been read.
    count: usize,
}

/// How an expression goes on.
#[derive(Clone, Copy)]
enum Going {
    On,
    /// It is over, with what it is, if it is one.
    Over(Option<Worked>),
}

impl<'v, 'a> Reader<'v, 'a> {
    ghost use Rattle.std.specs.Prelude.{◌≡◌, ◌∷◌, [], List, Option, IfOk, OnOk, Some, None, if◌then◌else◌};
    ghost use Rattle.std.specs.Option.{option_map};
    ghost use Rattle.c_grammar.specs.Blocks.{Items};
    ghost use Rattle.c_grammar.specs.Expressions.{Read, Waiting as SpecWaiting, Worked as SpecWorked, Number, reduce, tightness, work_of, is_over, at_end, with_close, with_operator, behind_value, at_operand, put};
    ghost use Rattle.c_terminals.specs.Seen.{seen, seen_terminal};
    ghost use Rattle.c_written.specs.Values.{seen_values};
    ghost use Rattle.c_written.specs.Work.{seen_work, seen_operator, seen_worked, waiting_of, read_of};
    ghost use Rattle.c_written.specs.Reader.{reduced, IsKept, Goes, GoesOn, rest_of, stepped};

    /// Works out the operators that bind that tight, or tighter. Fails with the operator that has no value.
    fn reduce(&mut self, tightness: u8, value: u64) -> Result<u64, Operator>
        ensures reduced { reduce tightness (waiting_of self.old.waiting) value ≡ reduced result (waiting_of self.new.waiting) }
        ensures kept { IsKept self.old self.new }
    {
        let mut value = value;
        'waiting: while let Some(Waiting::Behind(left, operator)) = self.waiting.peek(0) {
            if operator.work.tightness() < tightness {
                return Ok(value);
            }
            match operator.work.result(left, value) {
                None => return Err(operator),
                Some(v) => value = v,
            }
            self.waiting.pop();
        }
        Ok(value)
    }

    /// What the expression is where it ends behind a value.
    fn ended(&mut self, value: u64) -> Option<Worked>
        ensures value { option_map seen_worked result ≡ at_end self.old.count (reduce 0 (waiting_of self.old.waiting) value) }
        ensures kept { IsKept self.old self.new }
    {
        match self.reduce(0, value) {
            Err(operator) => Some(Worked::Fault(self.count, operator)),
            Ok(value) => {
                if self.waiting.peek(0).is_none() {
                    return Some(Worked::Number(self.count, value));
                }
                None
            }
        }
    }

    /// A closing bracket behind a value.
    fn close(&mut self, value: u64) -> Going
        ensures goes { (go : Read → List SpecWaiting → Option SpecWorked) →
            with_close self.old.count (reduce 0 (waiting_of self.old.waiting) value) go ≡ Goes result self.new go }
        ensures kept { IsKept self.old self.new }
    {
        match self.reduce(0, value) {
            Err(operator) => Going::Over(Some(Worked::Fault(self.count, operator))),
            Ok(value) => match self.waiting.pop() {
                None => Going::Over(Some(Worked::Number(self.count, value))),
                Some(Waiting::Bracket) => {
                    self.value = Some(value);
                    Going::On
                }
                Some(Waiting::Behind(_, _)) => Going::Over(None),
            },
        }
    }

    /// An operator behind a value.
    fn operate(&mut self, value: u64, operator: Operator) -> Result<Going, AllocError>
        ensures goes { (go : Read → List SpecWaiting → Option SpecWorked) → IfOk result (λ x.
            with_operator self.old.count (seen_operator operator) (seen_work operator.work)
            (reduce (tightness (seen_work operator.work)) (waiting_of self.old.waiting) value) go ≡ Goes x self.new go) }
        ensures kept { OnOk result (IsKept self.old self.new) }
    {
        match self.reduce(operator.work.tightness(), value) {
            Err(stuck) => Ok(Going::Over(Some(Worked::Fault(self.count, stuck)))),
            Ok(value) => {
                self.waiting.push(Waiting::Behind(value, operator))?;
                self.value = None;
                Ok(Going::On)
            }
        }
    }

    /// A token behind a value.
    fn behind_value(&mut self, value: u64, token: Token<'_, '_>) -> Result<Going, AllocError>
        ensures goes { (go : Read → List SpecWaiting → Option SpecWorked) → IfOk result (λ x.
            (if is_over self.old.single (waiting_of self.old.waiting) then Some (Number self.old.count value)
            else behind_value self.old.count value (waiting_of self.old.waiting) (seen token.entry)
            (work_of (seen_terminal token.entry.terminal)) go) ≡ Goes x self.new go) }
        ensures kept { OnOk result (IsKept self.old self.new) }
    {
        if self.single && self.waiting.peek(0).is_none() {
            return Ok(Going::Over(Some(Worked::Number(self.count, value))));
        }
        match Operator::of(token) {
            Some(operator) => self.operate(value, operator),
            None => {
                if token.terminal.is_sign(Sign::CloseParen) {
                    return Ok(self.close(value));
                }
                Ok(Going::Over(self.ended(value)))
            }
        }
    }

    /// A token where a value may begin.
    fn operand(&mut self, token: Token<'_, '_>) -> Result<Going, AllocError>
        requires { self.old.value ≡ None }
        ensures goes { (go : Read → List SpecWaiting → Option SpecWorked) → IfOk result (λ x.
            at_operand (waiting_of self.old.waiting) (put (seen_values self.old.values.now) (seen_terminal token.entry.terminal)) go ≡ Goes x self.new go) }
        ensures kept { OnOk result (IsKept self.old self.new) }
    {
        match token.terminal {
            Terminal::Number(n) => self.value = Some(n),
            Terminal::Name(name) => match self.values.value(name) {
                Some(n) => self.value = Some(n),
                None => return Ok(Going::Over(None)),
            },
            Terminal::Sign(Sign::OpenParen) if self.waiting.len() < MOST_WAITING => {
                self.waiting.push(Waiting::Bracket)?;
            }
            _ => return Ok(Going::Over(None)),
        }
        Ok(Going::On)
    }

    /// The next token, which is not counted yet.
    fn step(&mut self, token: Token<'_, '_>) -> Result<Going, AllocError>
        ensures goes { (go : Read → List SpecWaiting → Option SpecWorked) → IfOk result (λ x.
            stepped self.old (seen token.entry) go ≡ Goes x self.new go) }
        ensures kept { OnOk result (IsKept self.old self.new) }
    {
        match self.value {
            None => self.operand(token),
            Some(value) => self.behind_value(value, token),
        }
    }

    /// The next token.
    fn take(&mut self, token: Token<'_, '_>) -> Result<Going, AllocError>
        ensures { (is : Items) → IfOk result (λ x. rest_of self.old (seen token.entry ∷ is) ≡ GoesOn x self.new is) }
    {
        let going = self.step(token)?;
        self.count = self.count.checked_add(1).ok_or(AllocError)?;
        Ok(going)
    }

    /// What the expression is where no token follows.
    fn finish(&mut self) -> Option<Worked>
        ensures { option_map seen_worked result ≡ rest_of self.old [] }
    {
        match self.value {
            None => None,
            Some(value) => self.ended(value),
        }
    }
}

/// The expression at the front: one number or bracket alone if single, else with the operators behind it.
pub fn expression(
    alloc: Global,
    values: &Values<'_>,
    single: bool,
    tokens: &[Token<'_, '_>],
) -> Result<Option<Worked>, AllocError>
    ensures { IfOk result (λ w. option_map seen_worked w ≡ expression (seen_values values.now) single Nothing [] 0 (bare (seen_all tokens.now))) }
{
    let mut reader = Reader {
        values,
        single,
        value: None,
        waiting: Stack::new(alloc),
        count: 0,
    };
    let mut ahead = Ahead::new(tokens);
    'tokens: while let Some(token) = ahead.next() {
        if let Going::Over(worked) = reader.take(token)? {
            return Ok(worked);
        }
    }
    Ok(reader.finish())
}
