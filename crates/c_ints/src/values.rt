//! Values, and whether they are small.

ghost use Rattle.std.specs.Prelude.{◌≡◌, ℕ, IfOk};
ghost use Rattle.std.specs.Option.{option_map};
ghost use Rattle.c_ints.specs.Ints.{adds_to, closes, ends, is_arithmetic, is_comparison, is_logical, is_of_bits, is_small_number, kind_of, max_value, most, nothing_read, opens, rank_of, small_behind, small_from};
ghost use Rattle.c_ints.specs.Parts.{seen_kind};
ghost use Rattle.c_terminals.specs.Ahead.{ahead};
ghost use Rattle.c_terminals.specs.Seen.{seen, seen_terminal};

use crate::truths::is_flag_type;
use c_terminals::{Ahead, Terminal, Token};
use c_tokens::Sign;
use directives::Word;
use std::alloc::AllocError;

/// The most tokens of a value.
pub const MAX_VALUE: usize = 256;

/// An `int`, or a `bool`.
#[derive(Clone, Copy)]
pub enum Kind {
    Count,
    Flag,
}

/// Which of them a type is.
pub fn kind_of(terminal: Terminal<'_, '_>) -> Option<Kind>
    ensures { option_map seen_kind result ≡ kind_of (seen_terminal terminal.entry) }
{
    if terminal.is_word(Word::Int) {
        Some(Kind::Count)
    } else if is_flag_type(terminal) {
        Some(Kind::Flag)
    } else {
        None
    }
}

fn most(kind: Kind) -> u64
    ensures { result ≡ most (seen_kind kind) }
{
    match kind {
        Kind::Count => 2147483647,
        Kind::Flag => 1,
    }
}

/// A value so far: how many brackets are open; in how many its outermost operator stands, and that operator's rank; whether
/// it is but numbers in brackets that are small enough.
#[derive(Clone, Copy)]
struct Value {
    depth: usize,
    base: usize,
    rank: u8,
    alone: bool,
}

fn is_arithmetic(token: Token<'_, '_>) -> bool
    ensures { result ≡ is_arithmetic (seen token.entry) }
{
    token.terminal.is_sign(Sign::Plus)
        || token.terminal.is_sign(Sign::Minus)
        || token.terminal.is_sign(Sign::Star)
        || token.terminal.is_sign(Sign::Slash)
        || token.terminal.is_sign(Sign::Percent)
        || token.terminal.is_sign(Sign::ShiftLeft)
        || token.terminal.is_sign(Sign::ShiftRight)
}

/// Whether it is a comparison.
pub fn is_comparison(token: Token<'_, '_>) -> bool
    ensures { result ≡ is_comparison (seen token.entry) }
{
    token.terminal.is_sign(Sign::EqualEqual)
        || token.terminal.is_sign(Sign::NotEqual)
        || token.terminal.is_sign(Sign::Less)
        || token.terminal.is_sign(Sign::LessEqual)
        || token.terminal.is_sign(Sign::Greater)
        || token.terminal.is_sign(Sign::GreaterEqual)
}

fn is_of_bits(token: Token<'_, '_>) -> bool
    ensures { result ≡ is_of_bits (seen token.entry) }
{
    token.terminal.is_sign(Sign::Ampersand)
        || token.terminal.is_sign(Sign::Caret)
        || token.terminal.is_sign(Sign::Bar)
}

/// Whether it is a logical operator.
pub fn is_logical(token: Token<'_, '_>) -> bool
    ensures { result ≡ is_logical (seen token.entry) }
{
    token.terminal.is_sign(Sign::AndAnd) || token.terminal.is_sign(Sign::OrOr)
}

// The rank of an operator: the greater it is, the less it binds.
fn rank_of(token: Token<'_, '_>) -> Option<u8>
    ensures { option_map (λ (r : ℕ). r) result ≡ rank_of (seen token.entry) }
{
    if is_arithmetic(token) {
        Some(0)
    } else if is_comparison(token) {
        Some(1)
    } else if is_of_bits(token) {
        Some(2)
    } else if is_logical(token) {
        Some(3)
    } else {
        None
    }
}

fn opens(token: Token<'_, '_>) -> bool
    ensures { result ≡ opens (seen token.entry) }
{
    token.terminal.is_sign(Sign::OpenParen) || token.terminal.is_sign(Sign::OpenBracket)
}

fn closes(token: Token<'_, '_>) -> bool
    ensures { result ≡ closes (seen token.entry) }
{
    token.terminal.is_sign(Sign::CloseParen) || token.terminal.is_sign(Sign::CloseBracket)
}

/// Whether a value ends before the token.
pub fn ends(token: Token<'_, '_>) -> bool
    ensures { result ≡ ends (seen token.entry) }
{
    token.terminal.is_sign(Sign::Semicolon) || token.terminal.is_sign(Sign::Comma)
}

fn is_small_number(kind: Kind, terminal: Terminal<'_, '_>) -> bool
    ensures { result ≡ is_small_number (seen_kind kind) (seen_terminal terminal.entry) }
{
    match terminal {
        Terminal::Number(number) => number <= most(kind),
        _ => false,
    }
}

impl Value {
    ghost use Rattle.std.specs.Prelude.{◌≡◌, IfOk};
    ghost use Rattle.std.specs.Option.{option_map};
    ghost use Rattle.c_ints.specs.Ints.{closed, is_small, opened, operand_on, value_by, with_operand, with_rank};
    ghost use Rattle.c_ints.specs.Parts.{seen_kind, seen_value};
    ghost use Rattle.c_terminals.specs.Seen.{seen};

    fn with_rank(self, rank: u8) -> Value
        ensures { seen_value result ≡ with_rank rank (seen_value self) }
    {
        let mut value = self;
        value.alone = false;
        if value.depth < value.base {
            value.base = value.depth;
            value.rank = rank;
        } else if value.depth == value.base {
            value.rank = value.rank.max(rank);
        }
        value
    }

    fn opened(self, token: Token<'_, '_>) -> Result<Value, AllocError>
        ensures { IfOk result (λ v. seen_value v ≡ opened (seen token.entry) (seen_value self)) }
    {
        let mut value = self;
        value.depth = value.depth.checked_add(1).ok_or(AllocError)?;
        value.alone = value.alone && token.terminal.is_sign(Sign::OpenParen);
        Ok(value)
    }

    fn closed(self) -> Option<Value>
        ensures { option_map seen_value result ≡ closed (seen_value self) }
    {
        if self.depth == 0 {
            return None;
        }
        let mut value = self;
        value.depth -= 1;
        Some(value)
    }

    // With an operand.
    fn with_operand(self, small: bool) -> Value
        ensures { seen_value result ≡ with_operand small (seen_value self) }
    {
        let mut value = self;
        if value.depth < value.base {
            value.base = value.depth;
            value.rank = 0;
        }
        value.alone = value.alone && small;
        value
    }

    fn operand_on(self, kind: Kind, token: Token<'_, '_>) -> Option<Value>
        ensures { option_map seen_value result ≡ operand_on (seen_kind kind) (seen_value self) (seen token.entry) }
    {
        if token.terminal.is_sign(Sign::Bang) {
            let mut value = self;
            value.alone = false;
            return Some(value);
        }
        if token.terminal.is_name()
            || token.terminal.is_number()
            || token.terminal.is_sign(Sign::Tilde)
        {
            return Some(self.with_operand(is_small_number(kind, token.terminal)));
        }
        None
    }

    // With the next token, if the value may go on so.
    fn value_by(self, kind: Kind, token: Token<'_, '_>) -> Result<Option<Value>, AllocError>
        ensures { IfOk result (λ o. option_map seen_value o ≡ value_by (seen_kind kind) (seen_value self) (seen token.entry)) }
    {
        if opens(token) {
            return Ok(Some(self.opened(token)?));
        }
        if closes(token) {
            return Ok(self.closed());
        }
        match rank_of(token) {
            Some(rank) => Ok(Some(self.with_rank(rank))),
            None => Ok(self.operand_on(kind, token)),
        }
    }

    fn is_small(self) -> bool
        ensures { result ≡ is_small (seen_value self) }
    {
        self.depth == 0 && (self.alone || self.rank == 1 || self.rank == 3)
    }
}

/// Whether the value that these tokens begin is small.
pub fn small_from(kind: Kind, start: Ahead<'_, '_, '_>) -> Result<bool, AllocError>
    ensures { IfOk result (λ b. b ≡ small_from max_value (seen_kind kind) nothing_read (ahead start.entry)) }
{
    let mut left = MAX_VALUE;
    let mut ahead = start;
    let mut value = Value {
        depth: 0,
        base: MAX_VALUE,
        rank: 0,
        alone: true,
    };
    'tokens: while left > 0 {
        left -= 1;
        let Some(token) = ahead.next() else {
            return Ok(false);
        };
        if ends(token) {
            return Ok(value.is_small());
        }
        match value.value_by(kind, token)? {
            None => return Ok(false),
            Some(next) => value = next,
        }
    }
    Ok(false)
}

// Whether the name and the sign `+` stand before a value.
fn adds_to(kind: Kind, name: &[u8], token: Token<'_, '_>, rest: Ahead<'_, '_, '_>) -> bool
    ensures { result ≡ adds_to (seen_kind kind) name.now (seen token.entry) (ahead rest.entry) }
{
    let mut ahead = rest;
    match (kind, ahead.next()) {
        (Kind::Count, Some(sign)) => {
            token.terminal.is_named(name) && sign.terminal.is_sign(Sign::Plus)
        }
        _ => false,
    }
}

/// Whether the value that these tokens begin is small, or, of an `int`, is one that is added to the name.
pub fn small_behind(kind: Kind, name: &[u8], start: Ahead<'_, '_, '_>) -> Result<bool, AllocError>
    ensures { IfOk result (λ b. b ≡ small_behind (seen_kind kind) name.now (ahead start.entry)) }
{
    let mut ahead = start;
    let Some(token) = ahead.next() else {
        return Ok(false);
    };
    if adds_to(kind, name, token, ahead) {
        ahead.next();
        return small_from(kind, ahead);
    }
    small_from(kind, start)
}
