//! Conditions of numbers.

ghost use Rattle.std.specs.Prelude.{◌≡◌, ◌≤◌, [], length, IfOk, IfSome};
ghost use Rattle.std.specs.Option.{option_map};
ghost use Rattle.c_grammar.specs.Conditions.{condition, truth};
ghost use Rattle.c_grammar.specs.Expressions.{Nothing};
ghost use Rattle.c_written.specs.Conditions.{seen_found};
ghost use Rattle.c_written.specs.Spots.{all_kinds};

use crate::line_forms::is_sign;
use crate::stack::Stack;
use crate::work::Work;
use c_tokens::Sign;
use directives::{Lexeme, PlacedLexeme};
use std::alloc::{AllocError, Global};

#[derive(Clone, Copy)]
enum Operator {
    Or,
    And,
    Same,
    Other,
    Less,
    AtMost,
    Greater,
    AtLeast,
    By(Work),
}

fn truth(holds: bool) -> u64
    ensures { result ≡ truth holds }
{
    if holds { 1 } else { 0 }
}

impl Operator {
    ghost use Rattle.std.specs.Prelude.{◌≡◌};
    ghost use Rattle.std.specs.Option.{option_map};
    ghost use Rattle.c_grammar.specs.Conditions.{operator_at, result as value_of_operator, tightness};
    ghost use Rattle.c_written.specs.Conditions.{seen_operator};

    fn of(sign: Sign) -> Option<Operator>
        ensures { option_map seen_operator result ≡ operator_at sign }
    {
        match sign {
            Sign::OrOr => Some(Operator::Or),
            Sign::AndAnd => Some(Operator::And),
            Sign::EqualEqual => Some(Operator::Same),
            Sign::NotEqual => Some(Operator::Other),
            Sign::Less => Some(Operator::Less),
            Sign::LessEqual => Some(Operator::AtMost),
            Sign::Greater => Some(Operator::Greater),
            Sign::GreaterEqual => Some(Operator::AtLeast),
            Sign::Plus => Some(Operator::By(Work::Sum)),
            Sign::Minus => Some(Operator::By(Work::Difference)),
            Sign::Star => Some(Operator::By(Work::Product)),
            Sign::Slash => Some(Operator::By(Work::Quotient)),
            Sign::Percent => Some(Operator::By(Work::Rest)),
            Sign::ShiftLeft => Some(Operator::By(Work::Left)),
            Sign::ShiftRight => Some(Operator::By(Work::Right)),
            _ => None,
        }
    }

    fn tightness(self) -> u8
        ensures { result ≡ tightness (seen_operator self) }
    {
        match self {
            Operator::Or => 0,
            Operator::And => 1,
            Operator::Same | Operator::Other => 2,
            Operator::Less | Operator::AtMost | Operator::Greater | Operator::AtLeast => 3,
            Operator::By(Work::Left | Work::Right) => 4,
            Operator::By(Work::Sum | Work::Difference) => 5,
            Operator::By(Work::Product | Work::Quotient | Work::Rest) => 6,
        }
    }

    /// The value, if it is a number below 2^64.
    fn result(self, a: u64, b: u64) -> Option<u64>
        ensures { result ≡ value_of_operator (seen_operator self) a b }
    {
        match self {
            Operator::Or => Some(truth(!(a == 0 && b == 0))),
            Operator::And => Some(truth(a != 0 && b != 0)),
            Operator::Same => Some(truth(a == b)),
            Operator::Other => Some(truth(a != b)),
            Operator::Less => Some(truth(a < b)),
            Operator::AtMost => Some(truth(a <= b)),
            Operator::Greater => Some(truth(b < a)),
            Operator::AtLeast => Some(truth(b <= a)),
            Operator::By(work) => work.result(a, b),
        }
    }
}

/// What waits for an operand on its right.
#[derive(Clone, Copy)]
enum Waiting {
    /// A number with an operator behind it.
    Behind(u64, Operator),
    /// An open bracket.
    Bracket,
    /// The sign `!`.
    Negated,
}

/// How a condition goes on behind a token.
#[derive(Clone, Copy)]
enum Going {
    On,
    /// The bracket round the whole is closed.
    Ends(u64),
    Fails,
}

/// The value of a condition, and how many tokens it has with the bracket that closes it.
#[derive(Clone, Copy)]
pub struct Found {
    pub value: u64,
    pub len: usize,
}

/// A condition that is being read.
#[derive(Drop)]
struct Reader {
    /// The value that was read last, if it was one.
    value: Option<u64>,
    waiting: Stack<Waiting>,
}

impl Reader {
    ghost use Rattle.std.specs.Prelude.{◌≡◌, [], None, Some, IfOk};
    ghost use Rattle.c_grammar.specs.Conditions.{at_operator, behind_value, closed, operand, operated, reduce, step, tightness};
    ghost use Rattle.c_written.specs.Conditions.{gone, read_in, reduced, seen_operator, waiting_of};
    ghost use Rattle.directives.specs.Seen.{seen_lexeme};

    /// Works out the operators that bind that tight, or tighter. None where one has no value.
    fn reduce(&mut self, tightness: u8, value: u64) -> Option<u64>
        ensures { reduce tightness (waiting_of self.old.waiting) value ≡ reduced result (waiting_of self.new.waiting) }
    {
        let mut value = value;
        'waiting: while let Some(waiting) = self.waiting.peek(0) {
            match waiting {
                Waiting::Bracket => return Some(value),
                Waiting::Negated => value = truth(value == 0),
                Waiting::Behind(left, operator) => {
                    if operator.tightness() < tightness {
                        return Some(value);
                    }
                    match operator.result(left, value) {
                        None => return None,
                        Some(v) => value = v,
                    }
                }
            }
            self.waiting.pop();
        }
        Some(value)
    }

    /// A token where a value may begin.
    fn operand(&mut self, lexeme: Lexeme<'_>) -> Result<Going, AllocError>
        requires { self.old.value ≡ None }
        ensures { IfOk result (λ g. operand (waiting_of self.old.waiting) (seen_lexeme lexeme.entry) ≡ gone g self.new) }
    {
        match lexeme {
            Lexeme::Number(n) => {
                self.value = Some(n);
                Ok(Going::On)
            }
            Lexeme::Sign(_) => {
                if is_sign(lexeme, Sign::OpenParen) {
                    self.waiting.push(Waiting::Bracket)?;
                    Ok(Going::On)
                } else if is_sign(lexeme, Sign::Bang) {
                    self.waiting.push(Waiting::Negated)?;
                    Ok(Going::On)
                } else {
                    Ok(Going::Fails)
                }
            }
            _ => Ok(Going::Fails),
        }
    }

    /// A closing bracket behind a value.
    fn close(&mut self, value: u64) -> Going
        ensures { closed (reduce 0 (waiting_of self.old.waiting) value) ≡ gone result self.new }
    {
        match self.reduce(0, value) {
            None => Going::Fails,
            Some(value) => match self.waiting.pop() {
                None => Going::Ends(value),
                Some(Waiting::Bracket) => {
                    self.value = Some(value);
                    Going::On
                }
                Some(_) => Going::Fails,
            },
        }
    }

    /// An operator behind a value.
    fn operate(&mut self, value: u64, operator: Operator) -> Result<Going, AllocError>
        ensures { IfOk result (λ g. operated (seen_operator operator)
            (reduce (tightness (seen_operator operator)) (waiting_of self.old.waiting) value) ≡ gone g self.new) }
    {
        match self.reduce(operator.tightness(), value) {
            None => Ok(Going::Fails),
            Some(value) => {
                self.waiting.push(Waiting::Behind(value, operator))?;
                self.value = None;
                Ok(Going::On)
            }
        }
    }

    /// A token behind a value.
    fn behind_value(&mut self, value: u64, lexeme: Lexeme<'_>) -> Result<Going, AllocError>
        ensures { IfOk result (λ g. behind_value value (waiting_of self.old.waiting) (seen_lexeme lexeme.entry) ≡ gone g self.new) }
    {
        match lexeme {
            Lexeme::Sign(sign) => match Operator::of(sign) {
                Some(operator) => self.operate(value, operator),
                None => {
                    if is_sign(lexeme, Sign::CloseParen) {
                        Ok(self.close(value))
                    } else {
                        Ok(Going::Fails)
                    }
                }
            },
            _ => Ok(Going::Fails),
        }
    }

    /// The next token.
    fn step(&mut self, lexeme: Lexeme<'_>) -> Result<Going, AllocError>
        ensures { IfOk result (λ g. step (read_in self.old) (waiting_of self.old.waiting) (seen_lexeme lexeme.entry) ≡ gone g self.new) }
    {
        match self.value {
            None => self.operand(lexeme),
            Some(value) => self.behind_value(value, lexeme),
        }
    }
}

/// The condition at the front, with the bracket that closes it. None where it is none of numbers.
pub fn condition(alloc: Global, tokens: &[PlacedLexeme<'_>]) -> Result<Option<Found>, AllocError>
    ensures found { IfOk result (λ f. option_map seen_found f ≡ condition Nothing [] 0 (all_kinds tokens.now)) }
    ensures within { IfOk result (λ f. IfSome f (λ f. f.len ≤ length tokens.now)) }
{
    let mut reader = Reader {
        value: None,
        waiting: Stack::new(alloc),
    };
    let mut len = 0usize;
    let mut rest = tokens;
    'tokens: while let [token, behind @ ..] = rest {
        rest = behind;
        len += 1;
        match reader.step(token.lexeme)? {
            Going::On => {}
            Going::Ends(value) => return Ok(Some(Found { value, len })),
            Going::Fails => return Ok(None),
        }
    }
    Ok(None)
}
