// The types of numbers in C.

use c_meaning::{CType, has_literal_type, literal_type};

/// A type that an expression has in C. `Unsigned` is `uint64_t`.
#[derive(Clone, Copy, Debug, PartialEq, Eq)]
pub enum Type {
    Int,
    UnsignedInt,
    Long,
    Unsigned,
}

impl Type {
    /// How it is written.
    pub fn as_str(self) -> &'static str {
        match self {
            Type::Int => "int",
            Type::UnsignedInt => "unsigned int",
            Type::Long => "long",
            Type::Unsigned => "uint64_t",
        }
    }

    pub fn greatest(self) -> u64 {
        match self {
            Type::Int => 2_147_483_647,
            Type::UnsignedInt => 4_294_967_295,
            Type::Long => 9_223_372_036_854_775_807,
            Type::Unsigned => u64::MAX,
        }
    }

    /// How many bits it has.
    pub fn width(self) -> u8 {
        match self {
            Type::Int | Type::UnsignedInt => 32,
            Type::Long | Type::Unsigned => 64,
        }
    }

    pub fn is_signed(self) -> bool {
        matches!(self, Type::Int | Type::Long)
    }

    /// The type to which operands of two types are converted.
    pub fn common(self, other: Type) -> Type {
        match (self, other) {
            (Type::Unsigned, _) | (_, Type::Unsigned) => Type::Unsigned,
            (Type::Long, _) | (_, Type::Long) => Type::Long,
            (Type::UnsignedInt, _) | (_, Type::UnsignedInt) => Type::UnsignedInt,
            (Type::Int, Type::Int) => Type::Int,
        }
    }
}

/// The type of a decimal number without a suffix.
pub fn decimal_type(n: u64) -> Type {
    match literal_type(n) {
        CType::Int => Type::Int,
        CType::Long | CType::Unsigned => Type::Long,
    }
}

/// Whether this is the type of the decimal number without a suffix.
pub fn is_plain(n: u64, ctype: Type) -> bool {
    ctype == decimal_type(n)
}

fn is_hexadecimal(text: &[u8]) -> bool {
    matches!(text, [b'0', b'x' | b'X', ..])
}

fn has_letter(text: &[u8], lower: u8, upper: u8) -> bool {
    text.contains(&lower) || text.contains(&upper)
}

// The type of a hexadecimal number without a suffix: the first that holds it.
fn hexadecimal_type(n: u64) -> Type {
    if n <= Type::Int.greatest() {
        Type::Int
    } else if n <= Type::UnsignedInt.greatest() {
        Type::UnsignedInt
    } else if n <= Type::Long.greatest() {
        Type::Long
    } else {
        Type::Unsigned
    }
}

/// The type of a number that is written so. No digit of one is the letter of a suffix.
pub fn type_of_text(text: &[u8], n: u64) -> Type {
    let long = has_letter(text, b'l', b'L');
    let hexadecimal = is_hexadecimal(text);
    if has_letter(text, b'u', b'U') {
        if !long && n <= Type::UnsignedInt.greatest() {
            return Type::UnsignedInt;
        }
        return Type::Unsigned;
    }
    if long {
        if hexadecimal && !has_literal_type(n) {
            return Type::Unsigned;
        }
        return Type::Long;
    }
    if hexadecimal {
        hexadecimal_type(n)
    } else {
        decimal_type(n)
    }
}
