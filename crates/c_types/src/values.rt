//! Values, and whether they are small.

ghost use Rattle.std.specs.Prelude.{◌≡◌, ◌-◌, ◌<◌, ℕ, IfOk};
ghost use Rattle.std.specs.Option.{option_map};
ghost use Rattle.c_grammar.specs.Types.{are_small, begins_skip, ends_value, is_arithmetic, is_comparison};
ghost use Rattle.c_grammar.specs.Types.{is_listed_small, is_logical, is_of_bits, is_small_given, is_small_value};
ghost use Rattle.c_grammar.specs.Types.{rank_of, skipped};
ghost use Rattle.c_terminals.specs.Ahead.{ahead};
ghost use Rattle.c_terminals.specs.Seen.{seen};
ghost use Rattle.c_types.specs.Found.{seen_found};

use crate::found::Found;
use crate::names::{ends, next_is};
use crate::numbers::is_short;
use crate::states::{closes, is_round, opens};
use c_terminals::{Ahead, Terminal, Token};
use c_tokens::Sign;
use std::alloc::{AllocError, Global};

/// What has been read of an expression in brackets.
#[derive(Clone, Copy)]
struct Part {
    /// That of its loosest operator.
    rank: u8,
    /// Whether all operands are small, and nothing is taken away.
    alone: bool,
    /// Whether what may be chosen before it is small.
    before: bool,
}

fn is_arithmetic(token: Token<'_, '_>) -> bool
    ensures { result ≡ is_arithmetic (seen token.entry) }
{
    token.terminal.is_sign(Sign::Plus)
        || token.terminal.is_sign(Sign::Minus)
        || token.terminal.is_sign(Sign::Star)
        || token.terminal.is_sign(Sign::Slash)
        || token.terminal.is_sign(Sign::Percent)
        || token.terminal.is_sign(Sign::ShiftLeft)
        || token.terminal.is_sign(Sign::ShiftRight)
}

fn is_comparison(token: Token<'_, '_>) -> bool
    ensures { result ≡ is_comparison (seen token.entry) }
{
    token.terminal.is_sign(Sign::EqualEqual)
        || token.terminal.is_sign(Sign::NotEqual)
        || token.terminal.is_sign(Sign::Less)
        || token.terminal.is_sign(Sign::LessEqual)
        || token.terminal.is_sign(Sign::Greater)
        || token.terminal.is_sign(Sign::GreaterEqual)
}

fn is_of_bits(token: Token<'_, '_>) -> bool
    ensures { result ≡ is_of_bits (seen token.entry) }
{
    token.terminal.is_sign(Sign::Ampersand)
        || token.terminal.is_sign(Sign::Caret)
        || token.terminal.is_sign(Sign::Bar)
}

fn is_logical(token: Token<'_, '_>) -> bool
    ensures { result ≡ is_logical (seen token.entry) }
{
    token.terminal.is_sign(Sign::AndAnd) || token.terminal.is_sign(Sign::OrOr)
}

// The rank of an operator: the greater it is, the less it binds.
fn rank_of(token: Token<'_, '_>) -> Option<u8>
    ensures { option_map (λ (r : ℕ). r) result ≡ rank_of (seen token.entry) }
{
    if is_arithmetic(token) {
        Some(0)
    } else if is_comparison(token) {
        Some(1)
    } else if is_of_bits(token) {
        Some(2)
    } else if is_logical(token) {
        Some(3)
    } else {
        None
    }
}

// How many brackets are open behind a token of an index or a call, in which one is.
fn skipped(skips: usize, token: Token<'_, '_>) -> Result<usize, AllocError>
    requires { 0 < skips }
    ensures { IfOk result (λ n. n ≡ skipped (skips - 1) (seen token.entry)) }
{
    if opens(token) {
        return skips.checked_add(1).ok_or(AllocError);
    }
    if closes(token) {
        return Ok(skips - 1);
    }
    Ok(skips)
}

fn begins_skip(named: bool, token: Token<'_, '_>) -> bool
    ensures { result ≡ begins_skip named (seen token.entry) }
{
    token.terminal.is_sign(Sign::OpenBracket) || (named && token.terminal.is_sign(Sign::OpenParen))
}

fn ends_value(token: Token<'_, '_>) -> bool
    ensures { result ≡ ends_value (seen token.entry) }
{
    ends(token) || token.terminal.is_sign(Sign::CloseBrace)
}

impl Part {
    ghost use Rattle.std.specs.Prelude.{◌≡◌};
    ghost use Rattle.std.specs.Option.{option_map};
    ghost use Rattle.c_grammar.specs.Types.{chosen, is_small, nothing_read, operand_on, otherwise, token_on};
    ghost use Rattle.c_grammar.specs.Types.{with_operand, with_rank};
    ghost use Rattle.c_terminals.specs.Seen.{seen};
    ghost use Rattle.c_types.specs.Found.{seen_found};
    ghost use Rattle.c_types.specs.Values.{seen_part};

    fn nothing_read() -> Part
        ensures { seen_part result ≡ nothing_read }
    {
        Part {
            rank: 0,
            alone: true,
            before: true,
        }
    }

    fn is_small(self) -> bool
        ensures { result ≡ is_small (seen_part self) }
    {
        self.before && (self.alone || self.rank == 1 || self.rank == 3)
    }

    fn with_rank(self, rank: u8, token: Token<'_, '_>) -> Part
        ensures { seen_part result ≡ with_rank rank (seen token.entry) (seen_part self) }
    {
        Part {
            rank: self.rank.max(rank),
            alone: self.alone && !token.terminal.is_sign(Sign::Minus),
            before: self.before,
        }
    }

    fn with_operand(self, small: bool) -> Part
        ensures { seen_part result ≡ with_operand small (seen_part self) }
    {
        Part {
            rank: self.rank,
            alone: self.alone && small,
            before: self.before,
        }
    }

    // Behind a condition, of which nothing is asked.
    fn chosen(self) -> Part
        ensures { seen_part result ≡ chosen (seen_part self) }
    {
        Part {
            rank: 0,
            alone: true,
            before: self.before,
        }
    }

    // Behind what is chosen where it holds.
    fn otherwise(self) -> Part
        ensures { seen_part result ≡ otherwise (seen_part self) }
    {
        Part {
            rank: 0,
            alone: true,
            before: self.is_small(),
        }
    }

    fn operand_on(self, found: &Found<'_>, token: Token<'_, '_>) -> Option<Part>
        ensures { option_map seen_part result ≡
            operand_on (seen_found found.now) (seen_part self) (seen token.entry) (seen token.entry).terminal }
    {
        match token.terminal {
            Terminal::Name(name) => Some(self.with_operand(found.is_small_name(name))),
            Terminal::Number(number) => Some(self.with_operand(is_short(number))),
            Terminal::BadNumber => Some(self.with_operand(false)),
            _ => {
                if token.terminal.is_sign(Sign::Bang) {
                    return Some(self);
                }
                if token.terminal.is_sign(Sign::Tilde) {
                    return Some(self.with_operand(false));
                }
                None
            }
        }
    }

    // With the next token, if the value may go on so.
    fn token_on(self, found: &Found<'_>, token: Token<'_, '_>) -> Option<Part>
        ensures { option_map seen_part result ≡ token_on (seen_found found.now) (seen_part self) (seen token.entry) }
    {
        if let Some(rank) = rank_of(token) {
            return Some(self.with_rank(rank, token));
        }
        if token.terminal.is_sign(Sign::Question) {
            return Some(self.chosen());
        }
        if token.terminal.is_sign(Sign::Colon) {
            return Some(self.otherwise());
        }
        self.operand_on(found, token)
    }
}

/// A value so far.
#[derive(Drop)]
struct Value {
    /// What has been read around the brackets that are open, the innermost last.
    outer: Vec<Part>,
    part: Part,
    /// How many brackets are open in an index or a call.
    skips: usize,
    /// Behind a name.
    named: bool,
}

impl Value {
    ghost use Rattle.std.specs.Prelude.{◌≡◌, ◌∷◌, ◌&&◌, IfOk};
    ghost use Rattle.c_grammar.specs.Types.{is_only, is_small};
    ghost use Rattle.c_terminals.specs.Ahead.{ahead};
    ghost use Rattle.c_terminals.specs.Seen.{seen};
    ghost use Rattle.c_types.specs.Found.{seen_found};
    ghost use Rattle.c_types.specs.Values.{Closes, all_parts, answered, seen_part, value_rest};

    // Whether the value is small, were it to end here.
    #[tactic(auto, using(crate::proofs::Opened::none_open))]
    fn is_whole(&self) -> bool
        ensures { result ≡ (is_only (all_parts self.now.outer.items) && is_small (seen_part self.now.part)) }
    {
        self.outer.is_empty() && self.part.is_small()
    }

    // Behind a closing bracket; or whether the value, which ends there, is small.
    fn close(&mut self) -> Option<bool>
        ensures { Closes self.old self.new result }
    {
        let small = self.part.is_small();
        match self.outer.pop() {
            None => Some(small),
            Some(outer) => {
                self.part = outer.with_operand(small);
                self.named = false;
                None
            }
        }
    }

    // The next token, before others: whether the value, which ends there, is small; none where it goes on.
    fn take(
        &mut self,
        found: &Found<'_>,
        token: Token<'_, '_>,
        rest: Ahead<'_, '_, '_>,
    ) -> Result<Option<bool>, AllocError>
        ensures { IfOk result (λ o.
            value_rest (seen_found found.now) self.old (seen token.entry ∷ ahead rest.entry) ≡
            answered o (value_rest (seen_found found.now) self.new (ahead rest.entry))) }
    {
        if self.skips > 0 {
            self.skips = skipped(self.skips, token)?;
            self.named = false;
            return Ok(None);
        }
        if begins_skip(self.named, token) {
            self.skips = 1;
            self.named = false;
            return Ok(None);
        }
        if token.terminal.is_sign(Sign::OpenParen) {
            self.outer.push(self.part)?;
            self.part = Part::nothing_read();
            self.named = false;
            return Ok(None);
        }
        if token.terminal.is_sign(Sign::CloseParen) {
            return Ok(self.close());
        }
        if ends_value(token) {
            return Ok(Some(self.is_whole()));
        }
        let Some(part) = self.part.token_on(found, token) else {
            return Ok(Some(false));
        };
        self.part = part;
        self.named = token.terminal.is_name();
        Ok(None)
    }
}

/// Whether the value that these tokens begin is small.
pub fn is_small_value(
    alloc: Global,
    found: &Found<'_>,
    rest: Ahead<'_, '_, '_>,
) -> Result<bool, AllocError>
    ensures { IfOk result (λ b. b ≡ is_small_value (seen_found found.now) (ahead rest.entry)) }
{
    let mut value = Value {
        outer: Vec::new(alloc),
        part: Part::nothing_read(),
        skips: 0,
        named: false,
    };
    let mut ahead = rest;
    'tokens: while let Some(token) = ahead.next() {
        if let Some(small) = value.take(found, token, ahead)? {
            return Ok(small);
        }
    }
    Ok(false)
}

fn is_listed(found: &Found<'_>, token: Token<'_, '_>) -> bool
    ensures { result ≡ is_listed_small (seen_found found.now) (seen token.entry) }
{
    token.terminal.is_sign(Sign::Comma)
        || is_round(token)
        || found.is_small_terminal(token.terminal)
        || (is_arithmetic(token) && !token.terminal.is_sign(Sign::Minus))
}

// Whether the values of a list are small, of which these are the tokens behind its bracket.
fn are_small(found: &Found<'_>, rest: Ahead<'_, '_, '_>) -> bool
    ensures { result ≡ are_small (seen_found found.now) (ahead rest.entry) }
{
    let mut ahead = rest;
    'tokens: while let Some(token) = ahead.next() {
        if token.terminal.is_sign(Sign::CloseBrace) {
            return true;
        }
        if !is_listed(found, token) {
            return false;
        }
    }
    false
}

/// Whether the value, or the list of values, that these tokens begin is small.
pub fn is_small_given(
    alloc: Global,
    found: &Found<'_>,
    rest: Ahead<'_, '_, '_>,
) -> Result<bool, AllocError>
    ensures { IfOk result (λ b. b ≡ is_small_given (seen_found found.now) (ahead rest.entry)) }
{
    if next_is(rest, Sign::OpenBrace) {
        let mut ahead = rest;
        ahead.next();
        return Ok(are_small(found, ahead));
    }
    is_small_value(alloc, found, rest)
}
