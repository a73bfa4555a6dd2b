//! The operators of changes.

ghost use Rattle.std.specs.Prelude.{◌≡◌};

use c_terminals::Terminal;
use c_tokens::Sign;

/// The operator of a sign that changes what it stands behind.
#[derive(Clone, Copy)]
pub enum Change {
    /// With any operand on its right.
    With(Sign),
    /// With a number on its right.
    ByNumber(Sign),
    /// By one.
    ByOne(Sign),
}

impl Change {
    ghost use Rattle.std.specs.Prelude.{◌≡◌};
    ghost use Rattle.std.specs.Option.{option_map};
    ghost use Rattle.c_grammar.specs.Changes.{kind_at, kind_of};
    ghost use Rattle.c_terminals.specs.Seen.{seen_terminal};
    ghost use Rattle.c_written.specs.Changes.{seen_change};

    /// The change that a terminal makes.
    pub fn of(terminal: Terminal<'_, '_>) -> Option<Change>
        ensures { option_map seen_change result ≡ kind_of (seen_terminal terminal.entry) }
    {
        match terminal {
            Terminal::Sign(sign) => Change::at(sign),
            _ => None,
        }
    }

    fn at(sign: Sign) -> Option<Change>
        ensures { option_map seen_change result ≡ kind_at sign }
    {
        match sign {
            Sign::PlusEqual => Some(Change::With(Sign::Plus)),
            Sign::MinusEqual => Some(Change::With(Sign::Minus)),
            Sign::StarEqual => Some(Change::With(Sign::Star)),
            Sign::AmpersandEqual => Some(Change::With(Sign::Ampersand)),
            Sign::CaretEqual => Some(Change::With(Sign::Caret)),
            Sign::BarEqual => Some(Change::With(Sign::Bar)),
            Sign::SlashEqual => Some(Change::ByNumber(Sign::Slash)),
            Sign::PercentEqual => Some(Change::ByNumber(Sign::Percent)),
            Sign::ShiftLeftEqual => Some(Change::ByNumber(Sign::ShiftLeft)),
            Sign::ShiftRightEqual => Some(Change::ByNumber(Sign::ShiftRight)),
            Sign::PlusPlus => Some(Change::ByOne(Sign::Plus)),
            Sign::MinusMinus => Some(Change::ByOne(Sign::Minus)),
            _ => None,
        }
    }
}
