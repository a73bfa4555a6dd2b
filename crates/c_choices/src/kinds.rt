//! What a token is to a conditional operator.

ghost use Rattle.std.specs.Prelude.{◌≡◌, ◌<◌, ◌≤◌, ◌+◌, ◌^◌};
ghost use Rattle.c_grammar.specs.Changes.{is_boundary};
ghost use Rattle.c_grammar.specs.Choices.{alone, begins_condition, brackets_before, brackets_behind, closes, ends_second, is_question, is_setting, opens, sets_by};
ghost use Rattle.c_terminals.specs.Seen.{seen, seen_terminal};

use c_terminals::{Terminal, Token};
use c_tokens::Sign;

pub fn is_question(token: Token<'_, '_>) -> bool
    ensures { result ≡ is_question (seen token.entry) }
{
    token.terminal.is_sign(Sign::Question)
}

/// The token in any other place: there a question mark is no token of the language.
pub fn alone<'a, 'l>(token: Token<'a, 'l>) -> Token<'a, 'l>
    ensures { seen result ≡ alone (seen token.entry) }
{
    if is_question(token) {
        return token.at(Terminal::Unknown);
    }
    token
}

pub fn opens(token: Token<'_, '_>) -> bool
    ensures { result ≡ opens (seen token.entry) }
{
    token.terminal.is_sign(Sign::OpenParen) || token.terminal.is_sign(Sign::OpenBracket)
}

pub fn closes(token: Token<'_, '_>) -> bool
    ensures { result ≡ closes (seen token.entry) }
{
    token.terminal.is_sign(Sign::CloseParen) || token.terminal.is_sign(Sign::CloseBracket)
}

/// How many brackets are open behind a token.
pub fn brackets_behind(token: Token<'_, '_>, brackets: usize) -> usize
    requires { brackets < 2 ^ 63 }
    ensures value { result ≡ brackets_behind (seen token.entry) brackets }
    ensures within { result ≤ brackets + 1 }
{
    if opens(token) {
        return brackets + 1;
    }
    if closes(token) {
        return brackets.saturating_sub(1);
    }
    brackets
}

fn sets_by(sign: Sign) -> bool
    ensures { result ≡ sets_by sign }
{
    match sign {
        Sign::Equal
        | Sign::PlusEqual
        | Sign::MinusEqual
        | Sign::StarEqual
        | Sign::SlashEqual
        | Sign::PercentEqual
        | Sign::AmpersandEqual
        | Sign::BarEqual
        | Sign::CaretEqual
        | Sign::ShiftLeftEqual
        | Sign::ShiftRightEqual => true,
        _ => false,
    }
}

/// Whether it is a sign that assigns.
pub fn is_setting(terminal: Terminal<'_, '_>) -> bool
    ensures { result ≡ is_setting (seen_terminal terminal.entry) }
{
    match terminal {
        Terminal::Sign(sign) => sets_by(sign),
        _ => false,
    }
}

/// How many brackets are closed from a token on.
pub fn brackets_before(token: Token<'_, '_>, brackets: usize) -> usize
    requires { brackets < 2 ^ 63 }
    ensures value { result ≡ brackets_before (seen token.entry) brackets }
    ensures within { result ≤ brackets + 1 }
{
    if closes(token) {
        return brackets + 1;
    }
    if opens(token) {
        return brackets.saturating_sub(1);
    }
    brackets
}

/// Whether a condition begins behind the token, where no brackets are closed in between.
pub fn begins_condition(token: Token<'_, '_>) -> bool
    ensures { result ≡ begins_condition (seen token.entry) }
{
    opens(token) || token.terminal.is_sign(Sign::Comma) || is_setting(token.terminal)
}

/// Whether a second choice ends before the token, in the same brackets.
pub fn ends_second(token: Token<'_, '_>) -> bool
    ensures { result ≡ ends_second (seen token.entry) }
{
    closes(token) || token.terminal.is_sign(Sign::Comma) || token.terminal.is_sign(Sign::Semicolon)
}

/// Whether a statement is over, or none has begun.
pub fn is_boundary(terminal: Terminal<'_, '_>) -> bool
    ensures { result ≡ is_boundary (seen_terminal terminal.entry) }
{
    match terminal {
        Terminal::Sign(Sign::Semicolon | Sign::OpenBrace | Sign::CloseBrace) => true,
        _ => false,
    }
}
