//! Where a token stands: in a declaration, in a head, in brackets.

ghost use Rattle.std.specs.Prelude.{◌≡◌, IfOk};
ghost use Rattle.c_grammar.specs.Choices.{closes, opens};
ghost use Rattle.c_grammar.specs.Constants.{depth_behind};
ghost use Rattle.c_grammar.specs.Loops.{steps};
ghost use Rattle.c_grammar.specs.Types.{behind_listed, behind_type, closes_any, is_round, opens_any, round_behind};
ghost use Rattle.c_terminals.specs.Seen.{seen};
ghost use Rattle.c_types.specs.States.{seen_kind, seen_mode};

use crate::kinds::{Kind, is_qualifier, kind_of};
use c_terminals::{Terminal, Token};
use c_tokens::Sign;
use directives::Word;
use std::alloc::AllocError;

#[derive(Clone, Copy)]
pub enum Mode {
    Free,
    /// Behind a type, and a star or none, before a name.
    Typed(Kind, bool),
    /// Behind a name that is declared, in so many brackets.
    Listed(Kind, usize),
}

#[derive(Clone, Copy)]
pub enum Heading {
    Out,
    /// Behind the word `for`.
    At,
    /// Behind that and a bracket, or the type there.
    In,
    /// Behind the word `main`.
    AtMain,
    /// In its brackets.
    InMain,
}

#[derive(Clone, Copy)]
pub struct State {
    pub mode: Mode,
    pub heading: Heading,
    /// How many round brackets are open.
    pub round: usize,
    /// How many blocks are open.
    pub depth: usize,
    /// Behind `++` or `--`.
    pub stepped: bool,
}

pub fn opens(token: Token<'_, '_>) -> bool
    ensures { result ≡ opens (seen token.entry) }
{
    token.terminal.is_sign(Sign::OpenParen) || token.terminal.is_sign(Sign::OpenBracket)
}

pub fn closes(token: Token<'_, '_>) -> bool
    ensures { result ≡ closes (seen token.entry) }
{
    token.terminal.is_sign(Sign::CloseParen) || token.terminal.is_sign(Sign::CloseBracket)
}

/// Whether it is a round bracket.
pub fn is_round(token: Token<'_, '_>) -> bool
    ensures { result ≡ is_round (seen token.entry) }
{
    token.terminal.is_sign(Sign::OpenParen) || token.terminal.is_sign(Sign::CloseParen)
}

fn opens_any(token: Token<'_, '_>) -> bool
    ensures { result ≡ opens_any (seen token.entry) }
{
    opens(token) || token.terminal.is_sign(Sign::OpenBrace)
}

fn closes_any(token: Token<'_, '_>) -> bool
    ensures { result ≡ closes_any (seen token.entry) }
{
    closes(token) || token.terminal.is_sign(Sign::CloseBrace)
}

pub fn steps(token: Token<'_, '_>) -> bool
    ensures { result ≡ steps (seen token.entry) }
{
    token.terminal.is_sign(Sign::PlusPlus) || token.terminal.is_sign(Sign::MinusMinus)
}

fn behind_type(kind: Kind, star: bool, token: Token<'_, '_>) -> Mode
    ensures { seen_mode result ≡ behind_type (seen_kind kind) star (seen token.entry) }
{
    if token.terminal.is_sign(Sign::Star) {
        return Mode::Typed(kind, true);
    }
    if is_qualifier(token.terminal) {
        return Mode::Typed(kind, star);
    }
    if token.terminal.is_name() {
        return Mode::Listed(kind, 0);
    }
    Mode::Free
}

fn behind_listed(kind: Kind, brackets: usize, token: Token<'_, '_>) -> Result<Mode, AllocError>
    ensures { IfOk result (λ m. seen_mode m ≡ behind_listed (seen_kind kind) brackets (seen token.entry)) }
{
    if opens_any(token) {
        let brackets = brackets.checked_add(1).ok_or(AllocError)?;
        return Ok(Mode::Listed(kind, brackets));
    }
    if closes_any(token) {
        if brackets == 0 {
            return Ok(Mode::Free);
        }
        return Ok(Mode::Listed(kind, brackets - 1));
    }
    if token.terminal.is_sign(Sign::Comma) && brackets == 0 {
        return Ok(Mode::Typed(kind, false));
    }
    Ok(Mode::Listed(kind, brackets))
}

/// How many blocks are open behind a token.
pub fn depth_behind(depth: usize, token: Token<'_, '_>) -> Result<usize, AllocError>
    ensures { IfOk result (λ d. d ≡ depth_behind (seen token.entry).terminal depth) }
{
    if token.terminal.is_sign(Sign::OpenBrace) {
        return depth.checked_add(1).ok_or(AllocError);
    }
    if token.terminal.is_sign(Sign::CloseBrace) {
        return Ok(depth.saturating_sub(1));
    }
    Ok(depth)
}

fn round_behind(round: usize, token: Token<'_, '_>) -> Result<usize, AllocError>
    ensures { IfOk result (λ n. n ≡ round_behind round (seen token.entry)) }
{
    if token.terminal.is_sign(Sign::OpenParen) {
        return round.checked_add(1).ok_or(AllocError);
    }
    if token.terminal.is_sign(Sign::CloseParen) {
        return Ok(round.saturating_sub(1));
    }
    Ok(round)
}

impl Mode {
    ghost use Rattle.std.specs.Prelude.{◌≡◌, IfOk};
    ghost use Rattle.c_grammar.specs.Types.{behind_mode, is_listed, mode_behind};
    ghost use Rattle.c_terminals.specs.Seen.{seen};
    ghost use Rattle.c_types.specs.States.{seen_mode};

    fn behind_other(self, token: Token<'_, '_>) -> Result<Mode, AllocError>
        ensures { IfOk result (λ m. seen_mode m ≡ behind_mode (seen_mode self) (seen token.entry)) }
    {
        match self {
            Mode::Free => Ok(Mode::Free),
            Mode::Typed(kind, star) => Ok(behind_type(kind, star, token)),
            Mode::Listed(kind, brackets) => behind_listed(kind, brackets, token),
        }
    }

    fn behind(self, token: Token<'_, '_>) -> Result<Mode, AllocError>
        ensures { IfOk result (λ m. seen_mode m ≡ mode_behind (seen_mode self) (seen token.entry)) }
    {
        if token.terminal.is_sign(Sign::Semicolon) {
            return Ok(Mode::Free);
        }
        match kind_of(token.terminal) {
            None => self.behind_other(token),
            Some(kind) => Ok(Mode::Typed(kind, false)),
        }
    }

    /// Whether it is behind a name of a declaration by `int`, and in no brackets.
    pub fn is_listed(self) -> bool
        ensures { result ≡ is_listed (seen_mode self) }
    {
        match self {
            Mode::Listed(Kind::Count, brackets) => brackets == 0,
            _ => false,
        }
    }
}

impl Heading {
    ghost use Rattle.std.specs.Prelude.{◌≡◌};
    ghost use Rattle.c_grammar.specs.Types.{behind_heading, heading_behind, is_in_main};
    ghost use Rattle.c_terminals.specs.Seen.{seen};
    ghost use Rattle.c_types.specs.States.{seen_heading};

    fn behind_other(self, token: Token<'_, '_>) -> Heading
        ensures { seen_heading result ≡ behind_heading (seen_heading self) (seen token.entry) }
    {
        match self {
            Heading::Out => Heading::Out,
            Heading::At => {
                if token.terminal.is_sign(Sign::OpenParen) {
                    return Heading::In;
                }
                Heading::Out
            }
            Heading::In => match kind_of(token.terminal) {
                Some(_) => Heading::In,
                None => Heading::Out,
            },
            Heading::AtMain => {
                if token.terminal.is_sign(Sign::OpenParen) {
                    return Heading::InMain;
                }
                Heading::Out
            }
            Heading::InMain => {
                if token.terminal.is_sign(Sign::CloseParen) {
                    return Heading::Out;
                }
                Heading::InMain
            }
        }
    }

    fn behind(self, token: Token<'_, '_>) -> Heading
        ensures { seen_heading result ≡ heading_behind (seen_heading self) (seen token.entry) }
    {
        if token.terminal.is_word(Word::For) {
            return Heading::At;
        }
        if token.terminal.is_word(Word::Main) {
            return Heading::AtMain;
        }
        self.behind_other(token)
    }

    /// Whether it is in the brackets of `main`.
    pub fn is_in_main(self) -> bool
        ensures { result ≡ is_in_main (seen_heading self) }
    {
        match self {
            Heading::InMain => true,
            _ => false,
        }
    }
}

impl State {
    ghost use Rattle.std.specs.Prelude.{◌≡◌, IfOk};
    ghost use Rattle.c_grammar.specs.Types.{begin, behind};
    ghost use Rattle.c_terminals.specs.Seen.{seen};
    ghost use Rattle.c_types.specs.States.{seen_state};

    /// Before the first token.
    pub fn begin() -> State
        ensures { seen_state result ≡ begin }
    {
        State {
            mode: Mode::Free,
            heading: Heading::Out,
            round: 0,
            depth: 0,
            stepped: false,
        }
    }

    pub fn behind(self, token: Token<'_, '_>) -> Result<State, AllocError>
        ensures { IfOk result (λ s. seen_state s ≡ behind (seen_state self) (seen token.entry)) }
    {
        Ok(State {
            mode: self.mode.behind(token)?,
            heading: self.heading.behind(token),
            round: round_behind(self.round, token)?,
            depth: depth_behind(self.depth, token)?,
            stepped: steps(token),
        })
    }
}
