//! The pass over all tokens.

ghost use Rattle.std.specs.Prelude.{◌≡◌, IfOk};
ghost use Rattle.c_grammar.specs.Types.{first_place, is_cast, is_zero, is_zero_given, of_one_type, retyped, type_at};
ghost use Rattle.c_terminals.specs.Ahead.{ahead};
ghost use Rattle.c_terminals.specs.Seen.{seen, seen_all, seen_terminal};
ghost use Rattle.c_types.specs.Found.{seen_found};

use crate::checks::all_fine;
use crate::found::{Found, scanned};
use crate::names::{ends, name_of, named_behind, next_is};
use crate::states::State;
use c_terminals::{Ahead, Terminal, Token};
use c_tokens::Sign;
use directives::Word;
use std::alloc::{AllocError, Global};

#[derive(Clone, Copy)]
enum Sized {
    Unsized,
    /// Behind the word `sizeof`.
    IsSizeof,
    /// Behind that and a bracket.
    Sizing,
}

/// Where a token stands.
#[derive(Clone, Copy)]
struct Place<'a> {
    state: State,
    sized: Sized,
    /// Whether the type of the declaration is to be `uint64_t`.
    wide: bool,
    /// The name before the token, or none.
    name: &'a [u8],
    /// The name that is given what is read, or none.
    given: &'a [u8],
}

impl Sized {
    ghost use Rattle.std.specs.Prelude.{◌≡◌};
    ghost use Rattle.c_grammar.specs.Types.{is_sizing, sized_behind};
    ghost use Rattle.c_terminals.specs.Seen.{seen};
    ghost use Rattle.c_types.specs.Places.{seen_sized};

    fn behind(self, token: Token<'_, '_>) -> Sized
        ensures { seen_sized result ≡ sized_behind (seen_sized self) (seen token.entry) }
    {
        if token.terminal.is_named(b"sizeof".as_slice()) {
            return Sized::IsSizeof;
        }
        match self {
            Sized::IsSizeof => {
                if token.terminal.is_sign(Sign::OpenParen) {
                    return Sized::Sizing;
                }
                Sized::Unsized
            }
            _ => Sized::Unsized,
        }
    }

    fn is_sizing(self) -> bool
        ensures { result ≡ is_sizing (seen_sized self) }
    {
        match self {
            Sized::Sizing => true,
            _ => false,
        }
    }
}

// A star and a closing bracket.
fn is_cast(rest: Ahead<'_, '_, '_>) -> bool
    ensures { result ≡ is_cast (ahead rest.entry) }
{
    let mut ahead = rest;
    let Some(star) = ahead.next() else {
        return false;
    };
    let Some(bracket) = ahead.next() else {
        return false;
    };
    star.terminal.is_sign(Sign::Star) && bracket.terminal.is_sign(Sign::CloseParen)
}

fn is_zero(terminal: Terminal<'_, '_>) -> bool
    ensures { result ≡ is_zero (seen_terminal terminal.entry) }
{
    match terminal {
        Terminal::Number(n) => n == 0,
        _ => false,
    }
}

// `=` and 0, behind which a declaration ends or goes on.
fn is_zero_given(token: Token<'_, '_>, rest: Ahead<'_, '_, '_>) -> bool
    ensures { result ≡ is_zero_given (seen token.entry) (ahead rest.entry) }
{
    let mut ahead = rest;
    let Some(number) = ahead.next() else {
        return false;
    };
    let Some(end) = ahead.next() else {
        return false;
    };
    token.terminal.is_sign(Sign::Equal) && is_zero(number.terminal) && ends(end)
}

fn type_at<'a, 'l>(wide: bool, token: Token<'a, 'l>) -> Token<'a, 'l>
    ensures { seen result ≡ type_at wide (seen token.entry) }
{
    if wide {
        return token.at(Terminal::Word(Word::Uint64));
    }
    token.at(Terminal::Word(Word::Int))
}

impl<'a> Place<'a> {
    ghost use Rattle.std.specs.Prelude.{◌≡◌, ◌++◌, IfOk, OnOk};
    ghost use Rattle.c_grammar.specs.Types.{first_place, given_behind, is_needless, parts, place_behind, put, put_comma};
    ghost use Rattle.c_grammar.specs.Types.{sizes, wide_behind, widens};
    ghost use Rattle.c_terminals.specs.Ahead.{ahead};
    ghost use Rattle.c_terminals.specs.Seen.{seen, seen_all, seen_terminal};
    ghost use Rattle.c_types.specs.Found.{seen_found};
    ghost use Rattle.c_types.specs.Places.{seen_place};

    fn first() -> Place<'a>
        ensures { seen_place result ≡ first_place }
    {
        Place {
            state: State::begin(),
            sized: Sized::Unsized,
            wide: false,
            name: b"".as_slice(),
            given: b"".as_slice(),
        }
    }

    // Whether the word `int` tells there how many bytes a cell of a name has whose type is to be `uint64_t`.
    fn sizes(self, found: &Found<'_>, rest: Ahead<'_, '_, '_>) -> bool
        ensures { result ≡ sizes (seen_found found.now) (seen_place self.entry) (ahead rest.entry) }
    {
        self.sized.is_sizing() && next_is(rest, Sign::CloseParen) && found.converts(self.given)
    }

    // Whether the word `int` is to be `uint64_t` there.
    fn widens(self, found: &Found<'_>, rest: Ahead<'_, '_, '_>) -> bool
        ensures { result ≡ widens (seen_found found.now) (seen_place self.entry) (ahead rest.entry) }
    {
        !self.state.heading.is_in_main()
            && (found.converts(named_behind(rest)) || is_cast(rest) || self.sizes(found, rest))
    }

    // Whether the token is the comma behind a declared name.
    fn parts(self, token: Token<'_, '_>) -> bool
        ensures { result ≡ parts (seen_place self.entry) (seen token.entry) }
    {
        self.state.mode.is_listed() && self.state.round == 0 && token.terminal.is_sign(Sign::Comma)
    }

    // Whether the token is before the first value of a name of loops, which it has without that too.
    fn is_needless(self, found: &Found<'_>, token: Token<'_, '_>, rest: Ahead<'_, '_, '_>) -> bool
        ensures { result ≡
            is_needless (seen_found found.now) (seen_place self.entry) (seen token.entry) (ahead rest.entry) }
    {
        self.state.mode.is_listed()
            && self.state.round == 0
            && found.untyped.contains(self.name)
            && is_zero_given(token, rest)
    }

    fn put_comma<'l>(
        self,
        done: &mut Vec<Token<'a, 'l>>,
        found: &Found<'_>,
        token: Token<'a, 'l>,
        rest: Ahead<'_, '_, '_>,
    ) -> Result<(), AllocError>
        ensures { OnOk result (seen_all done.new.items ≡ seen_all done.old.items ++
            put_comma (seen_found found.now) (seen_place self.entry) (seen token.entry) (ahead rest.entry)) }
    {
        let wide = found.converts(named_behind(rest));
        if wide == self.wide {
            done.push(token)?;
            return Ok(());
        }
        done.push(token.at(Terminal::Sign(Sign::Semicolon)))?;
        done.push(type_at(wide, token))?;
        Ok(())
    }

    // What is written of a token.
    fn put<'l>(
        self,
        done: &mut Vec<Token<'a, 'l>>,
        found: &Found<'_>,
        token: Token<'a, 'l>,
        rest: Ahead<'_, '_, '_>,
    ) -> Result<(), AllocError>
        ensures { OnOk result (seen_all done.new.items ≡ seen_all done.old.items ++
            put (seen_found found.now) (seen_place self.entry) (seen token.entry) (ahead rest.entry)) }
    {
        if token.terminal.is_word(Word::Int) {
            if self.widens(found, rest) {
                done.push(token.at(Terminal::Word(Word::Uint64)))?;
                return Ok(());
            }
            done.push(token)?;
            return Ok(());
        }
        if self.parts(token) {
            return self.put_comma(done, found, token, rest);
        }
        if token.terminal.is_sign(Sign::FormatInt) {
            return Ok(());
        }
        done.push(token)?;
        Ok(())
    }

    fn wide_behind(self, found: &Found<'_>, token: Token<'_, '_>, rest: Ahead<'_, '_, '_>) -> bool
        ensures { result ≡
            wide_behind (seen_found found.now) (seen_place self.entry) (seen token.entry) (ahead rest.entry) }
    {
        if token.terminal.is_word(Word::Int) {
            return self.widens(found, rest);
        }
        if self.parts(token) {
            return found.converts(named_behind(rest));
        }
        self.wide
    }

    // The name that is given what is read behind the token.
    fn given_behind(self, token: Token<'_, '_>) -> &'a [u8]
        ensures { result.now ≡ given_behind (seen_place self.entry) (seen token.entry) }
    {
        if token.terminal.is_sign(Sign::Equal) {
            return self.name;
        }
        if token.terminal.is_sign(Sign::Semicolon) {
            return b"".as_slice();
        }
        self.given
    }

    fn behind(
        self,
        found: &Found<'_>,
        token: Token<'a, '_>,
        rest: Ahead<'_, '_, '_>,
    ) -> Result<Place<'a>, AllocError>
        ensures { IfOk result (λ p. seen_place p ≡
            place_behind (seen_found found.now) (seen_place self.entry) (seen token.entry) (ahead rest.entry)) }
    {
        Ok(Place {
            state: self.state.behind(token)?,
            sized: self.sized.behind(token),
            wide: self.wide_behind(found, token, rest),
            name: name_of(token.terminal),
            given: self.given_behind(token),
        })
    }
}

/// The tokens so far.
#[derive(Drop)]
struct Retyping<'a, 'l> {
    done: Vec<Token<'a, 'l>>,
    place: Place<'a>,
    /// How many tokens are still left out.
    left: usize,
}

impl<'a, 'l> Retyping<'a, 'l> {
    ghost use Rattle.std.specs.Prelude.{◌≡◌, ◌∷◌, OnOk};
    ghost use Rattle.c_terminals.specs.Ahead.{ahead};
    ghost use Rattle.c_terminals.specs.Seen.{seen, seen_all, seen_terminal};
    ghost use Rattle.c_types.specs.Found.{seen_found};
    ghost use Rattle.c_types.specs.Places.{IsPut, with_rest};

    // What is written of the next token, which is no directive, and how many more are left out then.
    fn put(
        &mut self,
        found: &Found<'_>,
        token: Token<'a, 'l>,
        rest: Ahead<'_, '_, '_>,
    ) -> Result<(), AllocError>
        ensures { OnOk result (IsPut (seen_found found.now) self.old (seen token.entry) (ahead rest.entry) self.new) }
    {
        let place = self.place;
        if self.left > 0 {
            self.left -= 1;
        } else if place.is_needless(found, token, rest) {
            self.left = 1;
        } else {
            place.put(&mut self.done, found, token, rest)?;
        }
        Ok(())
    }

    // The next token, before others.
    fn take(
        &mut self,
        found: &Found<'_>,
        token: Token<'a, 'l>,
        behind: &[Token<'a, 'l>],
    ) -> Result<(), AllocError>
        ensures { OnOk result (with_rest (seen_found found.now) self.old (seen token.entry ∷ seen_all behind.now) ≡
            with_rest (seen_found found.now) self.new (seen_all behind.now)) }
    {
        if token.terminal.is_directive() {
            self.done.push(token)?;
            return Ok(());
        }
        let rest = Ahead::new(behind);
        let place = self.place.behind(found, token, rest)?;
        self.put(found, token, rest)?;
        self.place = place;
        Ok(())
    }
}

fn retyped<'a, 'l>(
    alloc: Global,
    found: &Found<'_>,
    tokens: &[Token<'a, 'l>],
) -> Result<Vec<Token<'a, 'l>>, AllocError>
    ensures { IfOk result (λ v. seen_all v.items ≡
        retyped (seen_found found.now) first_place 0 (seen_all tokens.now)) }
{
    let mut retyping = Retyping {
        done: Vec::new(alloc),
        place: Place::first(),
        left: 0,
    };
    let mut rest = tokens;
    'tokens: while let [token, behind @ ..] = rest {
        retyping.take(found, *token, behind)?;
        rest = behind;
    }
    Ok(retyping.done)
}

/// The tokens with `uint64_t` for `int` where each value is small. The error comes where an allocation fails.
pub fn of_one_type<'a, 'l>(
    alloc: Global,
    tokens: &[Token<'a, 'l>],
) -> Result<Vec<Token<'a, 'l>>, AllocError>
    ensures { IfOk result (λ v. seen_all v.items ≡ of_one_type (seen_all tokens.now)) }
{
    let found = scanned(alloc, tokens)?;
    if found.all_fit() && all_fine(alloc, &found, tokens)? {
        return retyped(alloc, &found, tokens);
    }
    let mut done = Vec::new(alloc);
    done.extend_from_slice(tokens)?;
    Ok(done)
}
