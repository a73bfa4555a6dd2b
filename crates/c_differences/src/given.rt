// What is given to something of the type `int`, to which C cuts it, and constants that C computes in 32 bits.

use crate::constants::{Numbers, text_of};
use crate::difference::{Difference, InC, Reason};
use crate::literal::Type;
use base::tree::Place;
use c_tokens::{Kind, Sign, Token};
use std::alloc::AllocError;

/// So many tokens of a statement are looked at before a number.
pub const MOST_BEFORE: usize = 512;

/// A function of the source: whether it gives an `int`, whether one of its parameters is one, and where its body stands.
#[derive(Clone, Copy)]
pub struct Function<'a> {
    name: &'a [u8],
    gives: bool,
    takes: bool,
    from: usize,
    to: usize,
}

// Whether a sign assigns what stands before it.
fn assigns(sign: Sign) -> bool {
    matches!(
        sign,
        Sign::Equal
            | Sign::PlusEqual
            | Sign::MinusEqual
            | Sign::StarEqual
            | Sign::SlashEqual
            | Sign::PercentEqual
            | Sign::AmpersandEqual
            | Sign::BarEqual
            | Sign::CaretEqual
            | Sign::ShiftLeftEqual
            | Sign::ShiftRightEqual
    )
}

// Whether an operator gives 0 or 1, whatever its operands are.
fn gives_flag(sign: Sign) -> bool {
    matches!(
        sign,
        Sign::EqualEqual
            | Sign::NotEqual
            | Sign::Less
            | Sign::LessEqual
            | Sign::Greater
            | Sign::GreaterEqual
            | Sign::AndAnd
            | Sign::OrOr
    )
}

/// Whether a value of 32 bits may be another one than of 64.
pub fn computes(sign: Sign) -> bool {
    matches!(
        sign,
        Sign::Plus | Sign::Minus | Sign::Star | Sign::ShiftLeft | Sign::Tilde
    )
}

fn place_of(token: Token) -> Place {
    Place {
        line: token.line,
        column: token.column,
    }
}

fn is_at_or_behind(place: Place, other: Place) -> bool {
    place.line > other.line || (place.line == other.line && place.column >= other.column)
}

// What may be another number in 32 bits.
fn half_at(place: Place) -> Difference {
    Difference {
        place,
        reason: Reason::Above,
        ctype: Type::UnsignedInt,
        in_c: InC::Unknown,
        here: None,
        operand: None,
    }
}

// Puts what is told before the first that stands behind it, unless something is told of its place.
fn put_in_order(found: &mut Vec<Difference>, told: Difference) -> Result<(), AllocError> {
    let mut at = found.len();
    'found: for (number, other) in found.iter().enumerate() {
        if is_at_or_behind(other.place, told.place) {
            if is_at_or_behind(told.place, other.place) {
                return Ok(());
            }
            at = number;
            break;
        }
    }
    found.insert(at.min(found.len()), told)?;
    Ok(())
}

// Whether something is told between two places.
fn is_told(found: &[Difference], from: Place, to: Place) -> bool {
    'found: for other in found {
        if is_at_or_behind(other.place, from) && is_at_or_behind(to, other.place) {
            return true;
        }
    }
    false
}

impl<'a> Numbers<'a> {
    fn text(&self, number: usize) -> &'a [u8] {
        match self.tokens.get(number) {
            None => &[],
            Some(token) => text_of(self.bytes, token),
        }
    }

    fn sign(&self, number: usize) -> Option<Sign> {
        match self.tokens.get(number) {
            Some(
                Token {
                    kind: Kind::Sign(sign),
                    ..
                },
            ) => Some(*sign),
            _ => None,
        }
    }

    // The function whose parameters begin behind the token of that number.
    fn headed(&self, number: usize) -> Function<'a> {
        let mut gives = false;
        for back in 1..MOST_BEFORE {
            let at = number.wrapping_sub(back);
            match self.tokens.get(at).map(|token| token.kind) {
                Some(Kind::Name) => gives = gives || self.text(at) == b"int".as_slice(),
                _ => break,
            }
        }
        Function {
            name: self.text(number.wrapping_sub(1)),
            gives,
            takes: false,
            from: number,
            to: number,
        }
    }

    /// Notes every function.
    pub fn note_functions(&mut self) -> Result<(), AllocError> {
        let mut depth = 0usize;
        let mut head: Option<Function<'a>> = None;
        for number in 0..self.tokens.len() {
            let is_int = self.text(number) == b"int".as_slice();
            match (self.sign(number), &mut head) {
                (Some(Sign::OpenBrace), _) => depth = depth.saturating_add(1),
                (Some(Sign::CloseBrace), _) => {
                    depth = depth.saturating_sub(1);
                    if depth == 0 {
                        if let Some(mut function) = head {
                            function.to = number;
                            self.functions.push(function)?;
                        }
                        head = None;
                    }
                }
                (Some(Sign::Semicolon), _) if depth == 0 => head = None,
                (Some(Sign::OpenParen), None) if depth == 0 => head = Some(self.headed(number)),
                (None, Some(function)) if depth == 0 && is_int => {
                    function.takes = function.takes || self.sign(number.wrapping_add(1)).is_none();
                }
                _ => {}
            }
        }
        Ok(())
    }

    // Whether a function that has a parameter of the type `int` is called by the bracket of that number; none where no function
    // is.
    fn passes(&self, number: usize) -> Option<bool> {
        let name = self.text(number.wrapping_sub(1));
        'functions: for function in &self.functions {
            if function.name == name {
                return Some(function.takes);
            }
        }
        None
    }

    // Whether the token of that number stands in a function that gives an `int`.
    fn is_in_int(&self, number: usize) -> bool {
        'functions: for function in &self.functions {
            if function.from <= number && number <= function.to {
                return function.gives;
            }
        }
        false
    }

    // Whether the token of that number is an operand of what is given to something of the type `int`, as far as is seen: what
    // is assigned to it, returned, or passed, or of a value in a list. The condition of a choice is none, nor is an operand of a
    // comparison.
    fn is_given_to_int(&self, number: usize) -> bool {
        let mut depth = 0u32;
        let mut chosen = false;
        for back in 1..MOST_BEFORE {
            let at = number.wrapping_sub(back);
            let Some(token) = self.tokens.get(at) else {
                return false;
            };
            match token.kind {
                Kind::Sign(Sign::CloseParen | Sign::CloseBracket) => depth = depth.saturating_add(
                    1,
                ),
                Kind::Sign(Sign::OpenBracket) if depth == 0 => return false,
                Kind::Sign(Sign::OpenParen) if depth == 0 => {
                    if let Some(passes) = self.passes(at) {
                        return passes;
                    }
                }
                Kind::Sign(Sign::OpenParen | Sign::OpenBracket) => depth = depth.saturating_sub(1),
                Kind::Sign(Sign::OpenBrace) => return self.sign(at.wrapping_sub(1))
                    == Some(Sign::Equal)
                    && self.is_int_before(at.wrapping_sub(1)),
                Kind::Sign(Sign::Semicolon | Sign::CloseBrace) | Kind::Line => return false,
                Kind::Sign(Sign::Question | Sign::Colon) if depth == 0 => chosen = true,
                Kind::Sign(sign) if depth == 0 && !chosen && gives_flag(sign) => return false,
                Kind::Sign(sign) if depth == 0 && assigns(sign) => return self.is_int_before(at),
                Kind::Name if self.text(at) == b"return".as_slice() => return self.is_in_int(at),
                _ => {}
            }
        }
        false
    }

    // The type of the token of that number, which is a number or a constant.
    fn ctype(&self, number: usize) -> Type {
        match self.tokens.get(number) {
            None => Type::Int,
            Some(token) => self.type_of(token),
        }
    }

    // A number or a constant of another type that is given to an `int`. Such a one is told by itself, since that of a constant
    // or a temporary has no place in the program.
    fn cut(&self, number: usize, token: Token) -> Option<Difference> {
        let ctype = self.ctype(number);
        if ctype == Type::Int || !self.is_given_to_int(number) {
            return None;
        }
        let here = match token.kind {
            Kind::Number(n) => Some(n),
            _ => None,
        };
        Some(Difference {
            place: place_of(token),
            reason: Reason::Cut,
            ctype,
            in_c: InC::Unknown,
            here,
            operand: here,
        })
    }

    // What numbers, constants and operators behind the token of that number are computed in, up to the end of a declaration or of
    // an argument, and where that is; none where they are of another form, or do not compute.
    fn computed(&self, number: usize) -> Option<(Type, usize)> {
        let mut ctype = Type::Int;
        let mut any = false;
        let mut depth = 0u32;
        for front in 1..MOST_BEFORE {
            let at = number.saturating_add(front);
            let token = self.tokens.get(at)?;
            match token.kind {
                Kind::Number(_) => ctype = ctype.common(self.type_of(token)),
                Kind::Name if self.is_constant(token) => ctype = ctype.common(self.type_of(token)),
                Kind::Sign(Sign::Semicolon | Sign::Comma | Sign::CloseParen) if depth == 0 =>
                    return if any { Some((ctype, at)) } else { None },
                Kind::Sign(Sign::OpenParen) => depth = depth.saturating_add(1),
                Kind::Sign(Sign::CloseParen) => depth = depth.saturating_sub(1),
                Kind::Sign(sign) => any = any || computes(sign),
                _ => return None,
            }
        }
        None
    }

    // Whether an expression may begin behind the token of that number.
    fn begins(&self, number: usize) -> bool {
        matches!(
            self.sign(number),
            Some(Sign::Equal | Sign::OpenParen | Sign::Comma)
        ) || self.text(number) == b"return".as_slice()
    }

    // A constant expression that C computes as an `unsigned int`, where nothing is told of it yet.
    fn halved(&self, number: usize, token: Token, found: &[Difference]) -> Option<Difference> {
        if self.defines_half(token) {
            return Some(half_at(place_of(token)));
        }
        if !self.begins(number) {
            return None;
        }
        let (ctype, end) = self.computed(number)?;
        let first = place_of(*self.tokens.get(number.saturating_add(1))?);
        let last = place_of(*self.tokens.get(end)?);
        if ctype != Type::UnsignedInt || is_told(found, first, last) {
            return None;
        }
        Some(half_at(first))
    }

    /// Tells besides of what is given to an `int` and of constants, whether they stand in the program or not. Whether anything
    /// is told.
    pub fn tell_given(&self, found: &mut Vec<Difference>) -> Result<bool, AllocError> {
        let mut any = false;
        for number in 0..self.tokens.len() {
            let Some(token) = self.tokens.get(number).copied() else {
                break;
            };
            let told = match self.cut(number, token) {
                None => self.halved(number, token, found),
                told => told,
            };
            if let Some(told) = told {
                any = true;
                put_in_order(found, told)?;
            }
        }
        Ok(any)
    }
}
