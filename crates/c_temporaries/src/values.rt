//! The values of temporaries.

ghost use Rattle.std.specs.Prelude.{◌≡◌, ◌||◌, IfOk};
ghost use Rattle.std.specs.Option.{option_map};
ghost use Rattle.c_grammar.specs.Constants.{is_mark};
ghost use Rattle.c_tokens.specs.declared.kind.Sign.TheVariants as sign;
ghost use Rattle.c_temporaries.specs.Parts.{seen_knowns, seen_wanted, seen_whole};
ghost use Rattle.c_temporaries.specs.Temporaries.{is_operator, nothing_read, value_from, wanted_behind};
ghost use Rattle.c_terminals.specs.Ahead.{ahead};
ghost use Rattle.c_terminals.specs.Seen.{seen};

use crate::knowns::Knowns;
use crate::parts::Part;
use c_terminals::{Ahead, Terminal, Token};
use c_tokens::Sign;
use std::alloc::{AllocError, Global};

/// What has to come next.
#[derive(Clone, Copy)]
pub enum Wanted {
    Operand,
    /// A number that is not 0.
    Divisor,
    /// A number below 64.
    Shift,
    /// An operator, or the end.
    Operator,
}

/// A value so far.
#[derive(Drop)]
struct Value<'a> {
    wanted: Wanted,
    /// How many brackets are open.
    brackets: usize,
    tokens: Vec<Part<'a>>,
}

/// A whole value, how many tokens it has with that behind it, whether that is a comma, and what follows.
#[derive(Drop)]
pub struct Whole<'a, 'l, 's> {
    pub tokens: Vec<Part<'a>>,
    pub len: usize,
    pub more: bool,
    pub rest: Ahead<'a, 'l, 's>,
}

fn is_operator(token: Token<'_, '_>) -> bool
    ensures { result ≡ is_operator (seen token.entry) }
{
    token.terminal.is_sign(Sign::Plus)
        || token.terminal.is_sign(Sign::Minus)
        || token.terminal.is_sign(Sign::Star)
        || token.terminal.is_sign(Sign::Ampersand)
        || token.terminal.is_sign(Sign::Bar)
        || token.terminal.is_sign(Sign::Caret)
}

// Whether the token stands behind a value.
fn ends_value(token: Token<'_, '_>) -> bool
    ensures { result ≡ (is_mark sign.Semicolon (seen token.entry) || is_mark sign.Comma (seen token.entry)) }
{
    token.terminal.is_sign(Sign::Semicolon) || token.terminal.is_sign(Sign::Comma)
}

// What has to come behind an operator.
fn wanted_behind(token: Token<'_, '_>) -> Option<Wanted>
    ensures { option_map seen_wanted result ≡ wanted_behind (seen token.entry) }
{
    if token.terminal.is_sign(Sign::Slash) || token.terminal.is_sign(Sign::Percent) {
        Some(Wanted::Divisor)
    } else if token.terminal.is_sign(Sign::ShiftLeft) || token.terminal.is_sign(Sign::ShiftRight) {
        Some(Wanted::Shift)
    } else if is_operator(token) {
        Some(Wanted::Operand)
    } else {
        None
    }
}

impl<'a> Value<'a> {
    ghost use Rattle.std.specs.Prelude.{◌≡◌, ◌∷◌, ◌&&◌, [], IfOk, OnOk, true};
    ghost use Rattle.c_temporaries.specs.Parts.{seen_knowns, seen_part, seen_value, seen_wanted, so_far};
    ghost use Rattle.c_temporaries.specs.Temporaries.{divisor_on, goes_on, is_whole, operand_on, operator_on, shift_on, value_by};
    ghost use Rattle.c_terminals.specs.Seen.{seen, seen_terminal};

    // With a further token.
    fn go_on(&mut self, wanted: Wanted, brackets: usize, part: Part<'a>) -> Result<bool, AllocError>
        ensures goes { IfOk result (λ b. b ≡ true) }
        ensures value { OnOk result (seen_value self.new ≡
            goes_on (seen_wanted wanted) brackets (seen_part part.entry ∷ []) (seen_value self.old)) }
    {
        self.tokens.push(part)?;
        self.wanted = wanted;
        self.brackets = brackets;
        Ok(true)
    }

    fn operand_on(
        &mut self,
        knowns: &Knowns<'a>,
        terminal: Terminal<'a, '_>,
    ) -> Result<bool, AllocError>
        ensures { IfOk result (λ b. so_far b self.new ≡
            operand_on (seen_knowns knowns.now) (seen_value self.old) (seen_terminal terminal.entry)) }
    {
        match terminal {
            Terminal::Name(name) => {
                let Some(value) = knowns.value_of(name) else {
                    return Ok(false);
                };
                self.tokens.extend_from_slice(value)?;
                self.wanted = Wanted::Operator;
                Ok(true)
            }
            Terminal::Number(number) => {
                self.go_on(Wanted::Operator, self.brackets, Part::Number(number))
            }
            _ => {
                if !terminal.is_sign(Sign::OpenParen) {
                    return Ok(false);
                }
                let brackets = self.brackets.checked_add(1).ok_or(AllocError)?;
                self.go_on(Wanted::Operand, brackets, Part::Sign(Sign::OpenParen))
            }
        }
    }

    fn divisor_on(&mut self, terminal: Terminal<'a, '_>) -> Result<bool, AllocError>
        ensures { IfOk result (λ b. so_far b self.new ≡ divisor_on (seen_value self.old) (seen_terminal terminal.entry)) }
    {
        match terminal {
            Terminal::Number(number) => {
                if number == 0 {
                    return Ok(false);
                }
                self.go_on(Wanted::Operator, self.brackets, Part::Number(number))
            }
            _ => Ok(false),
        }
    }

    fn shift_on(&mut self, terminal: Terminal<'a, '_>) -> Result<bool, AllocError>
        ensures { IfOk result (λ b. so_far b self.new ≡ shift_on (seen_value self.old) (seen_terminal terminal.entry)) }
    {
        match terminal {
            Terminal::Number(number) => {
                if number >= 64 {
                    return Ok(false);
                }
                self.go_on(Wanted::Operator, self.brackets, Part::Number(number))
            }
            _ => Ok(false),
        }
    }

    fn operator_on(&mut self, token: Token<'a, '_>) -> Result<bool, AllocError>
        ensures { IfOk result (λ b. so_far b self.new ≡ operator_on (seen_value self.old) (seen token.entry)) }
    {
        let Terminal::Sign(sign) = token.terminal else {
            return Ok(false);
        };
        if token.terminal.is_sign(Sign::CloseParen) {
            if self.brackets == 0 {
                return Ok(false);
            }
            return self.go_on(
                Wanted::Operator,
                self.brackets - 1,
                Part::Sign(Sign::CloseParen),
            );
        }
        match wanted_behind(token) {
            None => Ok(false),
            Some(wanted) => self.go_on(wanted, self.brackets, Part::Sign(sign)),
        }
    }

    // The next token, if the value may go on so; false otherwise.
    fn on(&mut self, knowns: &Knowns<'a>, token: Token<'a, '_>) -> Result<bool, AllocError>
        ensures { IfOk result (λ b. so_far b self.new ≡
            value_by (seen_wanted self.old.wanted) (seen_knowns knowns.now) (seen_value self.old) (seen token.entry)) }
    {
        match self.wanted {
            Wanted::Operand => self.operand_on(knowns, token.terminal),
            Wanted::Divisor => self.divisor_on(token.terminal),
            Wanted::Shift => self.shift_on(token.terminal),
            Wanted::Operator => self.operator_on(token),
        }
    }

    // Whether the value ends before the token.
    fn is_whole(&self, token: Token<'_, '_>) -> bool
        ensures { result ≡ is_whole (seen_value self.now) (seen token.entry) }
    {
        match self.wanted {
            Wanted::Operator => self.brackets == 0 && ends_value(token),
            Wanted::Operand | Wanted::Divisor | Wanted::Shift => false,
        }
    }
}

/// The value that these tokens begin with, if they do.
pub fn value_from<'a, 'l, 's>(
    alloc: Global,
    knowns: &Knowns<'a>,
    start: Ahead<'a, 'l, 's>,
) -> Result<Option<Whole<'a, 'l, 's>>, AllocError>
    ensures { IfOk result (λ o. option_map seen_whole o ≡
        value_from (seen_knowns knowns.now) 0 nothing_read (ahead start.entry)) }
{
    let mut value = Value {
        wanted: Wanted::Operand,
        brackets: 0,
        tokens: Vec::new(alloc),
    };
    let mut ahead = start;
    let mut len = 0usize;
    'tokens: while let Some(token) = ahead.next() {
        len = len.checked_add(1).ok_or(AllocError)?;
        if value.is_whole(token) {
            return Ok(Some(Whole {
                tokens: value.tokens,
                len,
                more: token.terminal.is_sign(Sign::Comma),
                rest: ahead,
            }));
        }
        if !value.on(knowns, token)? {
            return Ok(None);
        }
    }
    Ok(None)
}
