//! Types, and the words that stand beside them.

ghost use Rattle.std.specs.Prelude.{◌≡◌};
ghost use Rattle.std.specs.Option.{option_map};
ghost use Rattle.c_grammar.specs.FunctionHeads.{is_qualifier};
ghost use Rattle.c_grammar.specs.Types.{kind_of};
ghost use Rattle.c_terminals.specs.Seen.{seen_terminal};
ghost use Rattle.c_types.specs.States.{seen_kind};

use c_terminals::Terminal;
use directives::Word;

/// `int`, `bool`, or `uint64_t`.
#[derive(Clone, Copy)]
pub enum Kind {
    Count,
    Flag,
    Wide,
}

/// Which of them a type is.
pub fn kind_of(terminal: Terminal<'_, '_>) -> Option<Kind>
    ensures { option_map seen_kind result ≡ kind_of (seen_terminal terminal.entry) }
{
    if terminal.is_word(Word::Int) {
        return Some(Kind::Count);
    }
    if terminal.is_word(Word::Uint64) {
        return Some(Kind::Wide);
    }
    if terminal.is_named(b"bool".as_slice()) || terminal.is_named(b"_Bool".as_slice()) {
        return Some(Kind::Flag);
    }
    None
}

/// Whether it is a word that stands beside the type of a parameter.
pub fn is_qualifier(terminal: Terminal<'_, '_>) -> bool
    ensures { result ≡ is_qualifier (seen_terminal terminal.entry) }
{
    terminal.is_named(b"const".as_slice())
        || terminal.is_named(b"restrict".as_slice())
        || terminal.is_named(b"__restrict__".as_slice())
        || terminal.is_named(b"__restrict".as_slice())
}
