//! The reserved words.

ghost use Rattle.std.specs.Prelude.{◌≡◌};
ghost use Rattle.std.specs.Option.{option_map};
ghost use Rattle.c_grammar.specs.Lexeme.{word_of, word_number};
ghost use Rattle.directives.specs.Seen.{seen_word};

/// The reserved words.
#[derive(Clone, Copy)]
pub enum Word {
    Uint64,
    Int,
    Main,
    Void,
    For,
    If,
    Else,
    Print,
    Read,
}

impl Word {
    ghost use Rattle.std.specs.Prelude.{◌≡◌};
    ghost use Rattle.c_grammar.specs.Lexeme.{word_number};
    ghost use Rattle.directives.specs.Seen.{seen_word};

    /// Its number in the order of the reserved words.
    pub fn number(self) -> u8
        ensures { result ≡ word_number (seen_word self) }
    {
        match self {
            Word::Uint64 => 0,
            Word::Int => 1,
            Word::Main => 2,
            Word::Void => 3,
            Word::For => 4,
            Word::If => 5,
            Word::Else => 6,
            Word::Print => 7,
            Word::Read => 8,
        }
    }
}

/// The reserved word of that spelling.
#[tactic(auto, unfolding(c_grammar::specs::Lexeme::word_of))]
pub fn word_of(text: &[u8]) -> Option<Word>
    ensures { option_map seen_word result ≡ word_of text.now }
{
    if text == b"uint64_t".as_slice() {
        return Some(Word::Uint64);
    }
    if text == b"size_t".as_slice() {
        return Some(Word::Uint64);
    }
    if text == b"int".as_slice() {
        return Some(Word::Int);
    }
    if text == b"main".as_slice() {
        return Some(Word::Main);
    }
    if text == b"void".as_slice() {
        return Some(Word::Void);
    }
    if text == b"for".as_slice() {
        return Some(Word::For);
    }
    if text == b"if".as_slice() {
        return Some(Word::If);
    }
    if text == b"else".as_slice() {
        return Some(Word::Else);
    }
    if text == b"print".as_slice() {
        return Some(Word::Print);
    }
    if text == b"read".as_slice() {
        return Some(Word::Read);
    }
    None
}
