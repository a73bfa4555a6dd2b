//! Operators on numbers.

ghost use Rattle.std.specs.Prelude.{◌≡◌};
ghost use Rattle.c_grammar.specs.Expressions.{Left, Right, result as value_of_work};

use c_terminals::{Terminal, Token};
use c_tokens::Sign;

#[derive(Clone, Copy)]
pub enum Work {
    Sum,
    Difference,
    Product,
    Quotient,
    Rest,
    Left,
    Right,
}

/// An operator with its place.
#[derive(Clone, Copy)]
pub struct Operator {
    pub work: Work,
    pub line: usize,
    pub column: usize,
}

impl Work {
    ghost use Rattle.std.specs.Prelude.{◌≡◌};
    ghost use Rattle.std.specs.Option.{option_map};
    ghost use Rattle.c_grammar.specs.Expressions.{tightness, work_of, result as value_of_work};
    ghost use Rattle.c_terminals.specs.Seen.{seen_terminal};
    ghost use Rattle.c_written.specs.Work.{seen_work};

    pub fn tightness(self) -> u8
        ensures { result ≡ tightness (seen_work self) }
    {
        match self {
            Work::Left | Work::Right => 0,
            Work::Sum | Work::Difference => 1,
            Work::Product | Work::Quotient | Work::Rest => 2,
        }
    }

    /// The operator that is a terminal.
    fn of(terminal: Terminal<'_, '_>) -> Option<Work>
        ensures { option_map seen_work result ≡ work_of (seen_terminal terminal.entry) }
    {
        match terminal {
            Terminal::Sign(Sign::Plus) => Some(Work::Sum),
            Terminal::Sign(Sign::Minus) => Some(Work::Difference),
            Terminal::Sign(Sign::Star) => Some(Work::Product),
            Terminal::Sign(Sign::Slash) => Some(Work::Quotient),
            Terminal::Sign(Sign::Percent) => Some(Work::Rest),
            Terminal::Sign(Sign::ShiftLeft) => Some(Work::Left),
            Terminal::Sign(Sign::ShiftRight) => Some(Work::Right),
            _ => None,
        }
    }

    /// The value, if it is a number below 2^64.
    pub fn result(self, a: u64, b: u64) -> Option<u64>
        ensures { result ≡ value_of_work (seen_work self) a b }
    {
        match self {
            Work::Sum => a.checked_add(b),
            Work::Difference => a.checked_sub(b),
            Work::Product => a.checked_mul(b),
            Work::Quotient => a.checked_div(b),
            Work::Rest => a.checked_rem(b),
            Work::Left => shifted_left(a, b),
            Work::Right => shifted_right(a, b),
        }
    }
}

fn shifted_left(a: u64, b: u64) -> Option<u64>
    ensures { result ≡ value_of_work Left a b }
{
    if b > 63 {
        return None;
    }
    a.checked_mul(1 << b)
}

fn shifted_right(a: u64, b: u64) -> Option<u64>
    ensures { result ≡ value_of_work Right a b }
{
    if b > 63 {
        return None;
    }
    Some(a >> b)
}

impl Operator {
    ghost use Rattle.std.specs.Prelude.{◌≡◌, IfSome};
    ghost use Rattle.std.specs.Option.{option_map};
    ghost use Rattle.c_grammar.specs.Expressions.{work_of};
    ghost use Rattle.c_terminals.specs.Seen.{seen, seen_terminal};
    ghost use Rattle.c_written.specs.Work.{seen_work, seen_operator};

    /// The operator that is a token.
    pub fn of(token: Token<'_, '_>) -> Option<Operator>
        ensures work { option_map (λ o. seen_work o.work) result ≡ work_of (seen_terminal token.entry.terminal) }
        ensures place { IfSome result (λ o. seen_operator o ≡ seen token.entry) }
    {
        let work = Work::of(token.terminal)?;
        Some(Operator {
            work,
            line: token.line,
            column: token.column,
        })
    }
}
