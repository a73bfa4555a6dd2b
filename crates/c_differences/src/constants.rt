// The types in C of the numbers of a source: as they are written, or those of constants.

use crate::given::{Function, computes};
use crate::literal::{Type, decimal_type, type_of_text};
use base::tree::Place;
use c_tokens::{Kind, Sign, Token, Tokens};
use std::alloc::{AllocError, Global};

/// A type of scalars whose values are small.
#[derive(Clone, Copy)]
pub enum SmallType {
    Int,
    Bool,
}

// A constant or a macro, and the type of its numbers in C.
#[derive(Clone, Copy)]
struct Constant<'a> {
    name: &'a [u8],
    ctype: Type,
}

/// The tokens of a source as they stand, its constants, and what it declares by the type `int`.
#[derive(Drop)]
pub struct Numbers<'a> {
    pub bytes: &'a [u8],
    pub tokens: Vec<Token>,
    constants: Vec<Constant<'a>>,
    /// The names of what is declared by `int`.
    pub ints: Vec<&'a [u8]>,
    pub functions: Vec<Function<'a>>,
}

pub fn text_of<'a>(bytes: &'a [u8], token: &Token) -> &'a [u8] {
    match bytes.get(token.first..token.last.saturating_add(1)) {
        None => &[],
        Some(text) => text,
    }
}

fn are_digits(text: &[u8]) -> bool {
    for byte in text {
        if !byte.is_ascii_digit() {
            return false;
        }
    }
    true
}

fn is_before(token: &Token, place: Place) -> bool {
    token.line < place.line || (token.line == place.line && token.column < place.column)
}

fn type_of_name(constants: &[Constant<'_>], name: &[u8]) -> Option<Type> {
    for constant in constants {
        if constant.name == name {
            return Some(constant.ctype);
        }
    }
    None
}

// The type of a number, or of a constant; of another token that of the smallest numbers.
fn type_of_token(bytes: &[u8], constants: &[Constant<'_>], token: &Token) -> Type {
    match token.kind {
        Kind::Number(n) => type_of_text(text_of(bytes, token), n),
        Kind::Name => type_of_name(constants, text_of(bytes, token)).unwrap_or(Type::Int),
        _ => Type::Int,
    }
}

// The common type of the numbers and the constants of a text.
fn type_of_all(bytes: &[u8], constants: &[Constant<'_>]) -> Type {
    let mut ctype = Type::Int;
    'tokens: for token in Tokens::new(bytes) {
        ctype = ctype.common(type_of_token(bytes, constants, &token));
    }
    ctype
}

// The common type of the numbers and the constants of an expression, up to the bracket that closes its first one.
fn type_of_group(bytes: &[u8], constants: &[Constant<'_>], tokens: Tokens<'_>) -> Type {
    let mut ctype = Type::Int;
    let mut depth = 0u32;
    'tokens: for token in tokens {
        ctype = ctype.common(type_of_token(bytes, constants, &token));
        match token.kind {
            Kind::Sign(Sign::OpenParen) => depth = depth.saturating_add(1),
            Kind::Sign(Sign::CloseParen) => depth = depth.saturating_sub(1),
            _ => {}
        }
        if depth == 0 {
            break;
        }
    }
    ctype
}

// What stands behind `#define` on a line: the name, and the text behind it.
fn definition_on(line: &[u8]) -> Option<(&[u8], &[u8])> {
    let mut words = Tokens::new(line.get(1..)?);
    let define = words.next_token()?;
    let inner = line.get(1..)?;
    if text_of(inner, &define) != b"define".as_slice() {
        return None;
    }
    let name = words.next_token()?;
    Some((
        text_of(inner, &name),
        inner.get(name.last.saturating_add(1)..)?,
    ))
}

// What stands behind the first closing bracket.
fn behind_bracket(text: &[u8]) -> &[u8] {
    'tokens: for token in Tokens::new(text) {
        if let Kind::Sign(Sign::CloseParen) = token.kind {
            return text.get(token.last.saturating_add(1)..).unwrap_or(&[]);
        }
    }
    &[]
}

impl<'a> Numbers<'a> {
    /// The numbers of a source.
    pub fn new(alloc: Global, bytes: &'a [u8]) -> Result<Numbers<'a>, AllocError> {
        let mut tokens = Vec::new(alloc);
        'tokens: for token in Tokens::new(bytes) {
            tokens.push(token)?;
        }
        let mut numbers = Numbers {
            bytes,
            tokens,
            constants: Vec::new(alloc),
            ints: Vec::new(alloc),
            functions: Vec::new(alloc),
        };
        numbers.define()?;
        numbers.note_ints()?;
        numbers.note_functions()?;
        Ok(numbers)
    }

    /// The type of a number or a constant; of another token that of the smallest numbers.
    pub fn type_of(&self, token: &Token) -> Type {
        type_of_token(self.bytes, &self.constants, token)
    }

    /// Whether it is the name of a constant, or of a macro.
    pub fn is_constant(&self, token: &Token) -> bool {
        type_of_name(&self.constants, text_of(self.bytes, token)).is_some()
    }

    fn add(&mut self, name: &'a [u8], ctype: Type) -> Result<(), AllocError> {
        self.constants.push(Constant { name, ctype })?;
        Ok(())
    }

    /// Whether the token is a line that defines a constant by an expression of the type `unsigned int`.
    pub fn defines_half(&self, token: Token) -> bool {
        let Kind::Line = token.kind else {
            return false;
        };
        let Some((_, text)) = definition_on(text_of(self.bytes, &token)) else {
            return false;
        };
        if text.first() == Some(&b'(')
            || type_of_group(text, &self.constants, Tokens::new(text)) != Type::UnsignedInt
        {
            return false;
        }
        'tokens: for token in Tokens::new(text) {
            if let Kind::Sign(sign) = token.kind {
                if computes(sign) {
                    return true;
                }
            }
        }
        false
    }

    // The type of an enumerator by the number behind it.
    fn enumerated(&self, number: usize) -> Type {
        match self.tokens.get(number.saturating_add(2)) {
            Some(value) => match value.kind {
                Kind::Number(_) => self.type_of(value),
                _ => Type::Int,
            },
            None => Type::Int,
        }
    }

    // The constant of a line, or the macro, whose numbers stand at the place of its name where it is used.
    fn define_on(&mut self, token: Token) -> Result<(), AllocError> {
        let line = text_of(self.bytes, &token);
        if let Some((name, text)) = definition_on(line) {
            if text.first() == Some(&b'(') {
                let ctype = type_of_all(behind_bracket(text), &self.constants);
                return self.add(name, ctype);
            }
            let ctype = type_of_group(text, &self.constants, Tokens::new(text));
            self.add(name, ctype)?;
        }
        Ok(())
    }

    // Every constant of the source, in its order: of a `const`, of an enumeration, or of a line.
    fn define(&mut self) -> Result<(), AllocError> {
        let mut in_const = false;
        let mut in_enum = false;
        let mut ctype = Type::Unsigned;
        for number in 0..self.tokens.len() {
            let Some(token) = self.tokens.get(number).copied() else {
                break;
            };
            let text = text_of(self.bytes, &token);
            match token.kind {
                Kind::Line => self.define_on(token)?,
                Kind::Name if text == b"const".as_slice() => {
                    in_const = true;
                    ctype = Type::Unsigned;
                }
                Kind::Name if in_const && text == b"int".as_slice() => ctype = Type::Int,
                Kind::Name if text == b"enum".as_slice() => in_enum = true,
                Kind::Name if in_enum => {
                    let ctype = self.enumerated(number);
                    self.add(text, ctype)?;
                }
                Kind::Name if in_const => self.add(text, ctype)?,
                Kind::Sign(Sign::Semicolon) => {
                    in_const = false;
                    in_enum = false;
                }
                _ => {}
            }
        }
        Ok(())
    }

    /// How many tokens stand before a place.
    pub fn index_of(&self, place: Place) -> usize {
        self.tokens.partition_point(|token| is_before(token, place))
    }

    // The token that stands at a place.
    fn token_at(&self, place: Place) -> Option<&Token> {
        self.tokens.get(self.index_of(place))
    }

    /// The type of the number that stands at a place in the source that is written out.
    pub fn type_at(&self, place: Place, n: u64) -> Type {
        let Some(token) = self.token_at(place) else {
            return decimal_type(n);
        };
        match token.kind {
            Kind::Number(own) if own == n => type_of_text(text_of(self.bytes, token), n),
            Kind::Name => {
                let named = type_of_name(&self.constants, text_of(self.bytes, token));
                named.unwrap_or(decimal_type(n))
            }
            Kind::Sign(Sign::OpenParen) | Kind::Number(_) => {
                let rest = self.bytes.get(token.first..).unwrap_or(&[]);
                type_of_group(rest, &self.constants, Tokens::new(rest))
            }
            _ => decimal_type(n),
        }
    }

    // Whether a declaration by the type `int` has the name, and no name before it a value.
    fn is_int(&self, name: &[u8]) -> bool {
        let mut is_declaration = false;
        for token in &self.tokens {
            let text = text_of(self.bytes, token);
            match token.kind {
                Kind::Name if text == b"int".as_slice() => is_declaration = true,
                Kind::Name if is_declaration && text == name => return true,
                Kind::Name | Kind::Sign(Sign::Comma) => {}
                _ => is_declaration = false,
            }
        }
        false
    }

    /// Whether the name of the loop in whose head it stands at a place is of the type `int`: by that word before it, or
    /// by a declaration where the head has none.
    pub fn is_int_at(&self, place: Place) -> bool {
        let number = self.index_of(place);
        let Some(before) = self.tokens.get(number.wrapping_sub(1)) else {
            return false;
        };
        match (before.kind, self.tokens.get(number)) {
            (Kind::Sign(_), Some(name)) => self.is_int(text_of(self.bytes, name)),
            _ => text_of(self.bytes, before) == b"int".as_slice(),
        }
    }

    /// The type by which the scalar is declared whose name stands at a place, if it is none of 64 bits.
    pub fn small_type_at(&self, place: Place) -> Option<SmallType> {
        let mut first: &[u8] = &[];
        for token in self.tokens.get(..self.index_of(place)).unwrap_or(&[]) {
            match token.kind {
                Kind::Line | Kind::Sign(Sign::Semicolon | Sign::OpenBrace | Sign::CloseBrace) =>
                    first = &[],
                _ => {
                    if first.is_empty() {
                        first = text_of(self.bytes, token);
                    }
                }
            }
        }
        if first == b"int".as_slice() {
            Some(SmallType::Int)
        } else if first == b"bool".as_slice() || first == b"_Bool".as_slice() {
            Some(SmallType::Bool)
        } else {
            None
        }
    }

    /// Whether other names stand at both places.
    pub fn is_another_at(&self, place: Place, name: Place) -> bool {
        match (self.token_at(place), self.token_at(name)) {
            (Some(one), Some(other)) => text_of(self.bytes, one) != text_of(self.bytes, other),
            _ => false,
        }
    }

    /// Whether a name stands at a place that is declared by the type `int`, as a temporary is, whose value stands there in
    /// the source that is written out.
    pub fn is_temporary_at(&self, place: Place) -> bool {
        match self.token_at(place) {
            None => false,
            Some(token) => self.is_int(text_of(self.bytes, token)),
        }
    }

    /// Whether the number that stands at a place is written there as a decimal without a suffix, or is the 1 of `++`
    /// or `--`.
    pub fn is_decimal_at(&self, place: Place, n: u64) -> bool {
        let Some(token) = self.token_at(place) else {
            return false;
        };
        match token.kind {
            Kind::Number(own) => own == n && are_digits(text_of(self.bytes, token)),
            Kind::Sign(Sign::PlusPlus | Sign::MinusMinus) => true,
            _ => false,
        }
    }

    /// Whether the token at a place ends an expression.
    pub fn is_last_at(&self, place: Place) -> bool {
        match self.tokens.get(self.index_of(place).saturating_add(1)) {
            None => false,
            Some(next) => { matches!(next.kind, Kind::Sign(Sign::Semicolon | Sign::CloseParen)) }
        }
    }

    /// Whether the operator at a place is one with `=` behind it.
    pub fn is_changing_at(&self, place: Place) -> bool {
        match self.token_at(place) {
            None => false,
            Some(token) => text_of(self.bytes, token).last() == Some(&b'='),
        }
    }

    /// Whether a call of `printf` stands at a place that takes a number of 64 bits.
    pub fn is_printf_at(&self, place: Place) -> bool {
        match self.token_at(place) {
            None => false,
            Some(token) => {
                text_of(self.bytes, token) == b"printf".as_slice() && !self.takes_int_at(place)
            }
        }
    }

    // Whether a bracket and the text of a number of the type `int` follow.
    fn takes_int_at(&self, place: Place) -> bool {
        match self.tokens.get(self.index_of(place).saturating_add(2)) {
            None => false,
            Some(text) => matches!(text.kind, Kind::Sign(Sign::FormatInt)),
        }
    }
}
