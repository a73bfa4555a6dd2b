//! Names in the lists of clauses.

ghost use Rattle.std.specs.Prelude.{◌≡◌, IfOk, OnOk};
ghost use Rattle.c_grammar.specs.Boxes.{at_begin, lists, listed, with_item};
ghost use Rattle.directives.specs.Seen.{seen_lexeme};
ghost use Rattle.c_written.specs.Boxes.{texts};
ghost use Rattle.c_written.specs.Spots.{all_kinds};

use crate::line_forms::is_name;
use crate::spots::{Spot, opens_list};
use c_terminals::is_among;
use directives::{Lexeme, PlacedLexeme};
use std::alloc::AllocError;

/// Where a token of a line stands, and whether behind the word of a clause with a list.
#[derive(Clone, Copy)]
pub struct Listing {
    pub spot: Spot,
    pub lists: bool,
}

// A clause with a list of what is mapped, copied, ordered or summed up.
fn lists(lexeme: Lexeme<'_>) -> bool
    ensures { result ≡ lists (seen_lexeme lexeme.entry) }
{
    is_name(lexeme, b"map")
        || is_name(lexeme, b"to")
        || is_name(lexeme, b"from")
        || is_name(lexeme, b"depend")
        || is_name(lexeme, b"reduction")
}

impl Listing {
    ghost use Rattle.std.specs.Prelude.{◌≡◌, IfOk};
    ghost use Rattle.c_grammar.specs.Boxes.{at_begin, behind, is_item};
    ghost use Rattle.directives.specs.Seen.{seen_lexeme};
    ghost use Rattle.c_written.specs.Boxes.{seen_listing};
    ghost use Rattle.c_written.specs.Spots.{all_kinds};

    pub fn begin() -> Listing
        ensures { seen_listing result ≡ at_begin }
    {
        Listing {
            spot: Spot::begin(),
            lists: false,
        }
    }

    /// Whether a name there is in the list of such a clause.
    pub fn is_item(self) -> bool
        ensures { result ≡ is_item (seen_listing self) }
    {
        self.lists && self.spot.names && self.spot.depth == 1
    }

    /// Behind a token, before others.
    pub fn behind(
        self,
        lexeme: Lexeme<'_>,
        others: &[PlacedLexeme<'_>],
    ) -> Result<Listing, AllocError>
        ensures { IfOk result (λ s. seen_listing s ≡ behind (seen_listing self) (seen_lexeme lexeme.entry) (all_kinds others.now)) }
    {
        let lists = if self.spot.depth == 0 && !opens_list(lexeme) {
            lists(lexeme)
        } else {
            self.lists
        };
        let spot = self.spot.behind(lexeme, others)?;
        Ok(Listing { spot, lists })
    }
}

// Adds the name, if it is one in a list and not among the others yet.
fn add_item<'a>(
    names: &mut Vec<&'a [u8]>,
    listed: bool,
    lexeme: Lexeme<'a>,
) -> Result<(), AllocError>
    ensures { OnOk result (texts names.new.items ≡ with_item listed (seen_lexeme lexeme.entry) (texts names.old.items)) }
{
    if let Lexeme::Name(name) = lexeme {
        if listed && !is_among(names, name) {
            names.push(name)?;
        }
    }
    Ok(())
}

/// Adds the names in the lists of the clauses of a line.
pub fn add_listed<'a>(
    names: &mut Vec<&'a [u8]>,
    tokens: &[PlacedLexeme<'a>],
) -> Result<(), AllocError>
    ensures { OnOk result (texts names.new.items ≡ listed at_begin (all_kinds tokens.now) (texts names.old.items)) }
{
    let mut listing = Listing::begin();
    let mut rest = tokens;
    'tokens: while let [token, behind @ ..] = rest {
        rest = behind;
        add_item(names, listing.is_item(), token.lexeme)?;
        listing = listing.behind(token.lexeme, behind)?;
    }
    Ok(())
}
