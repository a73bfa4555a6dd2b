//! The operators that stand behind an operand.

ghost use Rattle.std.specs.Prelude.{◌≡◌, MatchOption, Some, None};
ghost use Rattle.c_expressions.specs.declared.operators.Operator.TheVariants as given;
ghost use Rattle.c_expressions.specs.declared.operators.Infix.TheVariants as kind;
ghost use Rattle.c_grammar.specs.Terminal.{Mark};
ghost use Rattle.c_grammar.specs.Program.{operator_in, fraction_in, all_operators, all_fractions};
ghost use Rattle.c_expressions.specs.Signs.{infix_sign};

use crate::cursor::Cursor;
use crate::terminal::Terminal;
use base::tree::{BinaryOp, DivideOp, ShiftOp};
use c_tokens::Sign;

/// An operator with any operand on its right.
#[derive(Clone, Copy)]
pub enum Operator {
    Or,
    And,
    Binary(BinaryOp),
}

/// An operator with a number on its right.
#[derive(Clone, Copy)]
pub enum Fraction {
    Shift(ShiftOp),
    Divide(DivideOp),
}

#[derive(Clone, Copy)]
pub enum Infix {
    Operator(Operator),
    Fraction(Fraction),
}

impl Operator {
    ghost use Rattle.std.specs.Prelude.{◌≡◌, ◌≤◌};
    ghost use Rattle.c_grammar.specs.Grammar.{level};
    ghost use Rattle.c_expressions.specs.Signs.{seen_operator};

    /// How tight it binds: 0 to 9.
    pub fn level(self) -> u8
        ensures level { result ≡ level (seen_operator self) }
        ensures high { result ≤ 9 }
    {
        match self {
            Operator::Or => 0,
            Operator::And => 1,
            Operator::Binary(BinaryOp::BitOr) => 2,
            Operator::Binary(BinaryOp::BitXor) => 3,
            Operator::Binary(BinaryOp::BitAnd) => 4,
            Operator::Binary(BinaryOp::Equal | BinaryOp::NotEqual) => 5,
            Operator::Binary(
                BinaryOp::Less
                | BinaryOp::LessOrEqual
                | BinaryOp::Greater
                | BinaryOp::GreaterOrEqual,
            ) => 6,
            Operator::Binary(BinaryOp::Add | BinaryOp::Subtract) => 8,
            Operator::Binary(BinaryOp::Multiply) => 9,
        }
    }
}

impl Fraction {
    ghost use Rattle.std.specs.Prelude.{◌≡◌, ◌≤◌};
    ghost use Rattle.c_grammar.specs.Grammar.{fraction_level};
    ghost use Rattle.c_expressions.specs.Signs.{seen_fraction};

    /// How tight it binds: 7 or 9.
    pub fn level(self) -> u8
        ensures level { result ≡ fraction_level (seen_fraction self) }
        ensures high { result ≤ 9 }
    {
        match self {
            Fraction::Shift(_) => 7,
            Fraction::Divide(_) => 9,
        }
    }
}

impl Infix {
    ghost use Rattle.std.specs.Prelude.{◌≡◌, ◌≤◌};
    ghost use Rattle.c_expressions.specs.Signs.{infix_level};

    pub fn level(self) -> u8
        ensures { result ≡ infix_level self }
    {
        match self {
            Infix::Operator(op) => op.level(),
            Infix::Fraction(op) => op.level(),
        }
    }
}

/// The operator of a sign, if it stands behind an operand.
pub fn infix_of(sign: Sign) -> Option<Infix>
    ensures { MatchOption result
        ((operator_in all_operators (Mark sign) ≡ None) × (fraction_in all_fractions (Mark sign) ≡ None))
        (λ op. sign ≡ infix_sign op) }
{
    match sign {
        Sign::OrOr => Some(Infix::Operator(Operator::Or)),
        Sign::AndAnd => Some(Infix::Operator(Operator::And)),
        Sign::Bar => binary(BinaryOp::BitOr),
        Sign::Caret => binary(BinaryOp::BitXor),
        Sign::Ampersand => binary(BinaryOp::BitAnd),
        Sign::EqualEqual => binary(BinaryOp::Equal),
        Sign::NotEqual => binary(BinaryOp::NotEqual),
        Sign::Less => binary(BinaryOp::Less),
        Sign::LessEqual => binary(BinaryOp::LessOrEqual),
        Sign::Greater => binary(BinaryOp::Greater),
        Sign::GreaterEqual => binary(BinaryOp::GreaterOrEqual),
        Sign::ShiftLeft => Some(Infix::Fraction(Fraction::Shift(ShiftOp::Left))),
        Sign::ShiftRight => Some(Infix::Fraction(Fraction::Shift(ShiftOp::Right))),
        Sign::Plus => binary(BinaryOp::Add),
        Sign::Minus => binary(BinaryOp::Subtract),
        Sign::Star => binary(BinaryOp::Multiply),
        Sign::Slash => Some(Infix::Fraction(Fraction::Divide(DivideOp::Quotient))),
        Sign::Percent => Some(Infix::Fraction(Fraction::Divide(DivideOp::Remainder))),
        _ => None,
    }
}

fn binary(op: BinaryOp) -> Option<Infix>
    ensures { result ≡ Some (kind.Operator (given.Binary op)) }
{
    Some(Infix::Operator(Operator::Binary(op)))
}

impl Cursor<'_, '_> {
    ghost use Rattle.std.specs.Prelude.{◌≡◌, ◌≤◌, MatchOption};
    ghost use Rattle.c_grammar.specs.Terminal.{Mark};
    ghost use Rattle.c_expressions.specs.Cursor.{first_item};
    ghost use Rattle.c_expressions.specs.Signs.{Stops, infix_sign, infix_level};

    /// The operator that stands next, if its level is from `least` to `top`.
    #[tactic(auto, using(crate::proofs::Signs::no_sign, crate::proofs::Signs::no_infix, crate::proofs::Signs::too_low, crate::proofs::Signs::too_high))]
    pub fn infix(&self, least: u8, top: u8) -> Option<Infix>
        ensures { MatchOption result (Stops least top (first_item self.now).terminal)
            (λ op. ((first_item self.now).terminal ≡ Mark (infix_sign op)) × (least ≤ infix_level op)
            × (infix_level op ≤ top)) }
    {
        let Terminal::Sign(sign) = self.peek() else {
            return None;
        };
        let op = infix_of(sign)?;
        let level = op.level();
        if least <= level && level <= top {
            return Some(op);
        }
        None
    }
}
