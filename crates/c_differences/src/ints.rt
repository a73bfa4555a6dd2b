// What a source declares by the type `int`.

use crate::constants::{Numbers, text_of};
use base::tree::Place;
use c_tokens::{Kind, Sign, Token};
use std::alloc::AllocError;

/// Of so many names it is known that they are declared by `int`.
const MOST_INTS: usize = 1024;

/// Where a token stands in a declaration by `int`.
#[derive(Clone, Copy)]
enum Declares {
    Nothing,
    /// Behind the type, before a name.
    Typed,
    /// Behind a name, in so many brackets.
    Named(u32),
}

fn is_qualifier(text: &[u8]) -> bool {
    text == b"const".as_slice() || text == b"restrict".as_slice() || text == b"static".as_slice()
}

impl Declares {
    // Behind a token.
    fn behind(self, kind: Kind, text: &[u8]) -> Declares {
        if text == b"int".as_slice() {
            return Declares::Typed;
        }
        match (self, kind) {
            (Declares::Typed, Kind::Sign(Sign::Star)) => Declares::Typed,
            (Declares::Typed, Kind::Name) => {
                if is_qualifier(text) {
                    return Declares::Typed;
                }
                Declares::Named(0)
            }
            (Declares::Named(0), Kind::Sign(Sign::Comma)) => Declares::Typed,
            (
                Declares::Named(depth),
                Kind::Sign(Sign::OpenParen | Sign::OpenBracket | Sign::OpenBrace),
            ) => Declares::Named(depth.saturating_add(1)),
            (Declares::Named(0), Kind::Sign(Sign::CloseParen)) => Declares::Nothing,
            (Declares::Named(_), Kind::Sign(Sign::Semicolon)) => Declares::Nothing,
            (
                Declares::Named(depth),
                Kind::Sign(Sign::CloseParen | Sign::CloseBracket | Sign::CloseBrace),
            ) => Declares::Named(depth.saturating_sub(1)),
            (Declares::Named(depth), _) => Declares::Named(depth),
            _ => Declares::Nothing,
        }
    }
}

impl<'a> Numbers<'a> {
    fn note_int(&mut self, name: &'a [u8]) -> Result<(), AllocError> {
        if self.ints.len() < MOST_INTS && !self.ints.contains(&name) {
            self.ints.push(name)?;
        }
        Ok(())
    }

    /// Notes every array, pointer, parameter, function and scalar of the type `int`.
    pub fn note_ints(&mut self) -> Result<(), AllocError> {
        let mut place = Declares::Nothing;
        for number in 0..self.tokens.len() {
            let Some(token) = self.tokens.get(number).copied() else {
                break;
            };
            let text = text_of(self.bytes, &token);
            if let (Declares::Typed, Kind::Name) = (place, token.kind) {
                if !is_qualifier(text) && text != b"int".as_slice() {
                    self.note_int(text)?;
                }
            }
            place = place.behind(token.kind, text);
        }
        Ok(())
    }

    fn is_int_name(&self, token: Option<&Token>) -> bool {
        match token {
            None => false,
            Some(token) => self.ints.contains(&text_of(self.bytes, token)),
        }
    }

    /// Whether the name that stands at a place is declared by the type `int`.
    pub fn is_int_name_at(&self, place: Place) -> bool {
        self.is_int_name(self.tokens.get(self.index_of(place)))
    }

    /// Whether what stands before the token of that number is declared by `int`: a name, or one with brackets behind it.
    pub fn is_int_before(&self, number: usize) -> bool {
        let mut depth = 0u32;
        for back in 1..crate::given::MOST_BEFORE {
            let Some(token) = self.tokens.get(number.wrapping_sub(back)) else {
                return false;
            };
            match token.kind {
                Kind::Sign(Sign::CloseBracket) => depth = depth.saturating_add(1),
                Kind::Sign(Sign::OpenBracket) => depth = depth.saturating_sub(1),
                _ => {
                    if depth == 0 {
                        return self.is_int_name(Some(token));
                    }
                }
            }
        }
        false
    }
}
