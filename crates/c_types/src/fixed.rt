//! Values of numbers, names that stay an `int`, and arithmetic.

ghost use Rattle.std.specs.Prelude.{◌≡◌};
ghost use Rattle.c_grammar.specs.Types.{is_operator};
ghost use Rattle.c_terminals.specs.Seen.{seen};

use crate::found::Found;
use crate::names::ends;
use crate::numbers::is_short;
use crate::states::is_round;
use c_terminals::{Ahead, Terminal, Token};
use c_tokens::Sign;

fn is_operator(token: Token<'_, '_>) -> bool
    ensures { result ≡ is_operator (seen token.entry) }
{
    token.terminal.is_sign(Sign::Plus)
        || token.terminal.is_sign(Sign::Minus)
        || token.terminal.is_sign(Sign::Star)
        || token.terminal.is_sign(Sign::Slash)
        || token.terminal.is_sign(Sign::Percent)
        || token.terminal.is_sign(Sign::ShiftLeft)
        || token.terminal.is_sign(Sign::ShiftRight)
        || token.terminal.is_sign(Sign::Ampersand)
        || token.terminal.is_sign(Sign::Bar)
        || token.terminal.is_sign(Sign::Caret)
}

impl Found<'_> {
    ghost use Rattle.std.specs.Prelude.{◌≡◌};
    ghost use Rattle.c_grammar.specs.Types.{is_fixed, is_fixed_terminal, is_loose, is_loose_terminal, may_be_fixed};
    ghost use Rattle.c_terminals.specs.Ahead.{ahead};
    ghost use Rattle.c_terminals.specs.Seen.{seen_terminal};
    ghost use Rattle.c_types.specs.Found.{seen_found};

    // Whether the name stays an `int`, or is not declared.
    fn may_be_fixed(&self, name: &[u8]) -> bool
        ensures { result ≡ may_be_fixed (seen_found self.now) name.now }
    {
        self.heads.contains(name)
            || !(self.varied.contains(name)
                || self.wides.contains(name)
                || self.flags.contains(name))
    }

    fn is_fixed_terminal(&self, terminal: Terminal<'_, '_>) -> bool
        ensures { result ≡ is_fixed_terminal (seen_found self.now) (seen_terminal terminal.entry) }
    {
        match terminal {
            Terminal::Name(name) => self.may_be_fixed(name),
            Terminal::Number(_) | Terminal::BadNumber => true,
            _ => false,
        }
    }

    /// Whether the value that these tokens begin has numbers, such names and arithmetic alone.
    pub fn is_fixed(&self, rest: Ahead<'_, '_, '_>) -> bool
        ensures { result ≡ is_fixed (seen_found self.now) (ahead rest.entry) }
    {
        let mut ahead = rest;
        'tokens: while let Some(token) = ahead.next() {
            if ends(token) {
                return true;
            }
            if !is_operator(token) && !is_round(token) && !self.is_fixed_terminal(token.terminal) {
                return false;
            }
        }
        false
    }

    fn is_loose_terminal(&self, terminal: Terminal<'_, '_>) -> bool
        ensures { result ≡ is_loose_terminal (seen_found self.now) (seen_terminal terminal.entry) }
    {
        match terminal {
            Terminal::Name(name) => self.loose.contains(name) || self.wides.contains(name),
            Terminal::Number(number) => !is_short(number),
            _ => false,
        }
    }

    /// Whether that value may be negative, or 2^31 and more.
    pub fn is_loose(&self, rest: Ahead<'_, '_, '_>) -> bool
        ensures { result ≡ is_loose (seen_found self.now) (ahead rest.entry) }
    {
        let mut ahead = rest;
        'tokens: while let Some(token) = ahead.next() {
            if ends(token) {
                return false;
            }
            if token.terminal.is_sign(Sign::Minus) || self.is_loose_terminal(token.terminal) {
                return true;
            }
        }
        false
    }
}
