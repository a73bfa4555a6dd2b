//! From a line of a source that begins with `#` to its directive.
#![tactic(auto)]

mod amounts;
mod bounds;
mod clauses;
mod code;
mod fault;
mod first_words;
mod heads;
mod items;
mod kinds;
mod known;
mod lexeme;
mod lexemes;
mod line;
mod line_bytes;
mod line_tokens;
mod tree;
mod types;
mod word;

pub use code::lower;
pub use fault::{DirectiveFault, LineFault};
pub use first_words::{is_atomic, is_directive, is_directive_at};
pub use heads::{read_directive, read_directive_in};
pub use lexeme::{Lexeme, PlacedLexeme, same_lexeme, sign_number};
pub use lexemes::Lexemes;
pub use line_tokens::LineTokens;
pub use tree::{
    Amount, Bound, Clause, Construct, DependClause, DependType, DeviceClause, Directive,
    DirectiveKind, MapClause, MapType, Modifier, MotionClause, MotionType, Name, ScheduleType,
    Section, Sections, SignedTerm, Term, TermSign,
};
pub use word::{Word, word_of};
