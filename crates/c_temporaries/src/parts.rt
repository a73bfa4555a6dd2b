//! The tokens of a value.

use c_terminals::Terminal;
use c_tokens::Sign;

/// A token of a value.
#[derive(Clone, Copy)]
pub enum Part<'a> {
    Sign(Sign),
    Name(&'a [u8]),
    Number(u64),
}

impl<'a> Part<'a> {
    ghost use Rattle.std.specs.Prelude.{◌≡◌, []};
    ghost use Rattle.c_temporaries.specs.Parts.{seen_part};
    ghost use Rattle.c_terminals.specs.Seen.{columns_in, seen_terminal};

    /// The token by itself.
    pub fn terminal<'l>(self) -> Terminal<'a, 'l>
        ensures terminal { seen_terminal result ≡ seen_part self.entry }
        ensures columns { columns_in result ≡ [] }
    {
        match self {
            Part::Sign(sign) => Terminal::Sign(sign),
            Part::Name(name) => Terminal::Name(name),
            Part::Number(number) => Terminal::Number(number),
        }
    }
}
