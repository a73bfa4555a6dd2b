//! The tokens of a line that begins with `#`.

ghost use Rattle.std.specs.Prelude.{◌≡◌, ◌<◌, length};
ghost use Rattle.c_tokens.specs.Piece.{IsWithin};
ghost use Rattle.c_grammar.specs.Lexeme.{lexeme_of, same, piece_on_line, sign_number};
ghost use Rattle.directives.specs.Seen.{seen_lexeme};
ghost use Rattle.directives.specs.Pieces.{piece_on};

use crate::word::{Word, word_of};
use c_tokens::{
    Kind, Mood, Piece, Sign, after_blank, is_blank, is_digit, is_name_start, name_len,
    number_piece, sign_at,
};

/// A token of such a line.
#[derive(Clone, Copy)]
pub enum Lexeme<'a> {
    Reserved(Word),
    Name(&'a [u8]),
    Number(u64),
    BadNumber,
    Sign(Sign),
    Strange,
    /// The end of the line.
    Ended,
}

/// A token and its column.
#[derive(Clone, Copy)]
pub struct PlacedLexeme<'a> {
    pub lexeme: Lexeme<'a>,
    pub column: usize,
}

/// The number of a sign, another one for each.
pub fn sign_number(sign: Sign) -> u8
    ensures { result ≡ sign_number sign }
{
    match sign {
        Sign::AndAnd => 0,
        Sign::OrOr => 1,
        Sign::EqualEqual => 2,
        Sign::NotEqual => 3,
        Sign::LessEqual => 4,
        Sign::GreaterEqual => 5,
        Sign::ShiftLeft => 6,
        Sign::ShiftRight => 7,
        Sign::PlusEqual => 8,
        Sign::Plus => 9,
        Sign::Minus => 10,
        Sign::Star => 11,
        Sign::Slash => 12,
        Sign::Percent => 13,
        Sign::Ampersand => 14,
        Sign::Bar => 15,
        Sign::Caret => 16,
        Sign::Tilde => 17,
        Sign::Bang => 18,
        Sign::Less => 19,
        Sign::Greater => 20,
        Sign::Equal => 21,
        Sign::OpenParen => 22,
        Sign::CloseParen => 23,
        Sign::OpenBracket => 24,
        Sign::CloseBracket => 25,
        Sign::OpenBrace => 26,
        Sign::CloseBrace => 27,
        Sign::Semicolon => 28,
        Sign::Comma => 29,
        Sign::Colon => 30,
        Sign::MinusEqual => 31,
        Sign::StarEqual => 32,
        Sign::SlashEqual => 33,
        Sign::PercentEqual => 34,
        Sign::AmpersandEqual => 35,
        Sign::BarEqual => 36,
        Sign::CaretEqual => 37,
        Sign::ShiftLeftEqual => 38,
        Sign::ShiftRightEqual => 39,
        Sign::PlusPlus => 40,
        Sign::MinusMinus => 41,
        Sign::FormatNumber => 42,
        Sign::FormatStart => 43,
        Sign::FormatEnd => 44,
        Sign::FormatInt => 47,
        Sign::Question => 45,
        Sign::Dot => 46,
    }
}

/// Whether two are the same token, which is no number.
pub fn same_lexeme(left: Lexeme<'_>, right: Lexeme<'_>) -> bool
    ensures { result ≡ same (seen_lexeme left.entry) (seen_lexeme right.entry) }
{
    match (left, right) {
        (Lexeme::Reserved(v), Lexeme::Reserved(w)) => v.number() == w.number(),
        (Lexeme::Name(x), Lexeme::Name(y)) => x == y,
        (Lexeme::Sign(r), Lexeme::Sign(s)) => sign_number(r) == sign_number(s),
        (Lexeme::Ended, Lexeme::Ended) => true,
        _ => false,
    }
}

pub fn lexeme_of<'a>(kind: Kind, text: &'a [u8]) -> Lexeme<'a>
    ensures { seen_lexeme result ≡ lexeme_of kind text.now }
{
    match kind {
        Kind::Name => match word_of(text) {
            Some(word) => Lexeme::Reserved(word),
            None => Lexeme::Name(text),
        },
        Kind::Number(n) => Lexeme::Number(n),
        Kind::BadNumber => Lexeme::BadNumber,
        Kind::Sign(sign) => Lexeme::Sign(sign),
        Kind::Line | Kind::Unknown => Lexeme::Strange,
    }
}

/// What stands at the front of the rest of a line: no comment is read there.
#[tactic(auto, unfolding(c_grammar::specs::Lexeme::piece_on_line))]
pub fn piece_on(mood: Mood, bytes: &[u8]) -> Piece
    ensures value { result ≡ piece_on mood bytes.now }
    ensures within { 0 < length bytes.now → IsWithin (length bytes.now) result }
{
    match bytes {
        [] => Piece::Unknown,
        [b, ..] => {
            if is_blank(*b) {
                return Piece::Layout(1, after_blank(*b, mood));
            }
            if is_digit(*b) {
                return number_piece(&bytes[..name_len(bytes)]);
            }
            if is_name_start(*b) {
                return match mood {
                    Mood::AfterNumber => Piece::Unknown,
                    _ => Piece::Token(Kind::Name, name_len(bytes)),
                };
            }
            match sign_at(bytes) {
                Some((sign, len)) => Piece::Token(Kind::Sign(sign), len),
                None => Piece::Unknown,
            }
        }
    }
}
