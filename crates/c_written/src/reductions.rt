//! Reduction clauses of combined constructs whose arrays are summed up by updates that commute.

ghost use Rattle.std.specs.Prelude.{◌≡◌, ◌∷◌, ◌++◌, [], map, IfOk, OnOk};
ghost use Rattle.std.specs.Option.{option_map};
ghost use Rattle.c_grammar.specs.Updates.{AtName, all_mapped, is_combined, is_number, listed, mapped_words, none_mapped, operation_of, reduction_at};
ghost use Rattle.directives.specs.Seen.{seen_lexeme};
ghost use Rattle.c_written.specs.Forms.{all_placed};
ghost use Rattle.c_written.specs.Reductions.{seen_reduction};
ghost use Rattle.c_written.specs.Regions.{seen_operation};
ghost use Rattle.c_written.specs.Spots.{all_kinds};

use crate::cell_updates::commutes;
use crate::line_forms::{is_name, is_sign};
use crate::nesting::name_len;
use crate::presence::{is_mapped, is_target};
use crate::regions::{Operation, are_summed};
use c_terminals::Token;
use c_tokens::Sign;
use directives::{Lexeme, PlacedLexeme};
use std::alloc::{AllocError, Global};

/// Where a token of a list of arrays stands.
#[derive(Clone, Copy)]
enum Slot {
    AtName,
    BehindName,
    /// At the first number of a section.
    AtFirst,
    AtColon,
    /// At its second number.
    AtCount,
    AtEnd,
    BehindSection,
}

fn is_number(lexeme: Lexeme<'_>) -> bool
    ensures { result ≡ is_number (seen_lexeme lexeme.entry) }
{
    match lexeme {
        Lexeme::Number(_) | Lexeme::BadNumber => true,
        _ => false,
    }
}

impl Slot {
    ghost use Rattle.std.specs.Prelude.{◌≡◌};
    ghost use Rattle.std.specs.Option.{option_map};
    ghost use Rattle.c_grammar.specs.Updates.{may_end, next_slot, slot_if};
    ghost use Rattle.directives.specs.Seen.{seen_lexeme};
    ghost use Rattle.c_written.specs.Reductions.{seen_slot};

    fn only(self, holds: bool) -> Option<Slot>
        ensures { option_map seen_slot result ≡ slot_if holds (seen_slot self) }
    {
        if holds { Some(self) } else { None }
    }

    /// Behind a token. There is none where it may not stand there.
    fn next(self, lexeme: Lexeme<'_>) -> Option<Slot>
        ensures { option_map seen_slot result ≡ next_slot (seen_slot self) (seen_lexeme lexeme.entry) }
    {
        match self {
            Slot::AtName => match lexeme {
                Lexeme::Name(_) => Some(Slot::BehindName),
                _ => None,
            },
            Slot::BehindName => {
                if is_sign(lexeme, Sign::OpenBracket) {
                    Some(Slot::AtFirst)
                } else {
                    Slot::AtName.only(is_sign(lexeme, Sign::Comma))
                }
            }
            Slot::AtFirst => Slot::AtColon.only(is_number(lexeme)),
            Slot::AtColon => Slot::AtCount.only(is_sign(lexeme, Sign::Colon)),
            Slot::AtCount => Slot::AtEnd.only(is_number(lexeme)),
            Slot::AtEnd => Slot::BehindSection.only(is_sign(lexeme, Sign::CloseBracket)),
            Slot::BehindSection => Slot::AtName.only(is_sign(lexeme, Sign::Comma)),
        }
    }

    /// Whether the list may end there.
    fn may_end(self) -> bool
        ensures { result ≡ may_end (seen_slot self) }
    {
        match self {
            Slot::BehindName | Slot::BehindSection => true,
            _ => false,
        }
    }
}

/// A reduction: its operator, its arrays, the last one first, and how many tokens the clause has.
#[derive(Drop)]
struct Reduction<'a> {
    op: Operation,
    names: Vec<&'a [u8]>,
    len: usize,
}

// Behind the colon of the clause.
fn listed<'a>(
    alloc: Global,
    op: Operation,
    tokens: &[PlacedLexeme<'a>],
) -> Result<Option<Reduction<'a>>, AllocError>
    ensures { IfOk result (λ o. option_map seen_reduction o ≡ listed (seen_operation op) [] 4 AtName (all_kinds tokens.now)) }
{
    let mut names = Vec::new(alloc);
    let mut len = 4usize;
    let mut slot = Slot::AtName;
    let mut rest = tokens;
    'tokens: while let [token, behind @ ..] = rest {
        rest = behind;
        len += 1;
        if slot.may_end() && is_sign(token.lexeme, Sign::CloseParen) {
            return Ok(Some(Reduction { op, names, len }));
        }
        let Some(next) = slot.next(token.lexeme) else {
            return Ok(None);
        };
        slot = next;
        if let Lexeme::Name(name) = token.lexeme {
            names.insert(0, name)?;
        }
    }
    Ok(None)
}

fn operation_of(lexeme: Lexeme<'_>) -> Option<Operation>
    ensures { option_map seen_operation result ≡ operation_of (seen_lexeme lexeme.entry) }
{
    if let Lexeme::Sign(op) = lexeme {
        return if commutes(op) {
            Some(Operation::BySign(op))
        } else {
            None
        };
    }
    if is_name(lexeme, b"max") {
        return Some(Operation::ByExtreme(true));
    }
    if is_name(lexeme, b"min") {
        return Some(Operation::ByExtreme(false));
    }
    None
}

// The clause at the front.
fn reduction_at<'a>(
    alloc: Global,
    tokens: &[PlacedLexeme<'a>],
) -> Result<Option<Reduction<'a>>, AllocError>
    ensures { IfOk result (λ o. option_map seen_reduction o ≡ reduction_at (all_kinds tokens.now)) }
{
    let [word, open, sign, colon, list @ ..] = tokens else {
        return Ok(None);
    };
    if !is_name(word.lexeme, b"reduction") || !is_sign(open.lexeme, Sign::OpenParen) {
        return Ok(None);
    }
    if !is_sign(colon.lexeme, Sign::Colon) {
        return Ok(None);
    }
    match operation_of(sign.lexeme) {
        Some(op) => listed(alloc, op, list),
        None => Ok(None),
    }
}

fn all_mapped(names: &[&[u8]], tokens: &[PlacedLexeme<'_>]) -> bool
    ensures { result ≡ all_mapped (map (λ x. x.now) names.now) (all_kinds tokens.now) }
{
    'names: for name in names {
        if !is_mapped(name, tokens) {
            return false;
        }
    }
    true
}

fn none_mapped(names: &[&[u8]], tokens: &[PlacedLexeme<'_>]) -> bool
    ensures { result ≡ none_mapped (map (λ x. x.now) names.now) (all_kinds tokens.now) }
{
    'names: for name in names {
        if is_mapped(name, tokens) {
            return false;
        }
    }
    true
}

// Puts `map(tofrom:`.
fn put_map(done: &mut Vec<PlacedLexeme<'_>>, column: usize) -> Result<(), AllocError>
    ensures { OnOk result (all_placed done.new.items ≡ all_placed done.old.items ++ mapped_words column) }
{
    done.extend_from_slice(&[
        PlacedLexeme {
            lexeme: Lexeme::Name(b"map"),
            column,
        },
        PlacedLexeme {
            lexeme: Lexeme::Sign(Sign::OpenParen),
            column,
        },
        PlacedLexeme {
            lexeme: Lexeme::Name(b"tofrom"),
            column,
        },
        PlacedLexeme {
            lexeme: Lexeme::Sign(Sign::Colon),
            column,
        },
    ])?;
    Ok(())
}

/// Whether this is the line of a target that is a combined construct.
pub fn is_combined(tokens: &[PlacedLexeme<'_>]) -> bool
    ensures { result ≡ is_combined (all_kinds tokens.now) }
{
    is_target(tokens) && name_len(&tokens[3..]) > 0
}

/// The line of a construct, and what stands behind it.
#[derive(Clone, Copy)]
pub struct Construct<'a, 'l, 's> {
    pub line: &'s [PlacedLexeme<'a>],
    pub region: &'s [Token<'a, 'l>],
}

impl<'a, 'l, 's> Construct<'a, 'l, 's> {
    ghost use Rattle.std.specs.Prelude.{◌≡◌, map, IfOk};
    ghost use Rattle.std.specs.Option.{option_map};
    ghost use Rattle.c_grammar.specs.Updates.{is_taken, reduced, summed, taken_at};
    ghost use Rattle.c_written.specs.Forms.{all_placed};
    ghost use Rattle.c_written.specs.Reductions.{seen_reduction};
    ghost use Rattle.c_terminals.specs.Seen.{seen_all};
    ghost use Rattle.c_written.specs.Spots.{all_kinds};

    // Whether the arrays stand in updates by the operator alone, and all of them are mapped by the line, or none.
    fn is_taken(self, alloc: Global, reduction: &Reduction<'a>) -> Result<bool, AllocError>
        ensures { IfOk result (λ b. b ≡
            is_taken (all_kinds self.entry.line.now) (seen_all self.entry.region.now) (seen_reduction reduction.now)) }
    {
        if !are_summed(alloc, &reduction.names, reduction.op, self.region)? {
            return Ok(false);
        }
        Ok(all_mapped(&reduction.names, self.line) || none_mapped(&reduction.names, self.line))
    }

    // The clause that is taken at the front.
    fn taken_at(
        self,
        alloc: Global,
        tokens: &[PlacedLexeme<'a>],
    ) -> Result<Option<Reduction<'a>>, AllocError>
        ensures { IfOk result (λ o. option_map seen_reduction o ≡
            taken_at (all_kinds self.entry.line.now) (seen_all self.entry.region.now) (all_kinds tokens.now)) }
    {
        let Some(reduction) = reduction_at(alloc, tokens)? else {
            return Ok(None);
        };
        if self.is_taken(alloc, &reduction)? {
            return Ok(Some(reduction));
        }
        Ok(None)
    }

    /// The arrays of all clauses that are taken.
    pub fn summed(self, alloc: Global) -> Result<Vec<&'a [u8]>, AllocError>
        ensures { IfOk result (λ v. map (λ x. x.now) v.items ≡
            summed (all_kinds self.entry.line.now) (seen_all self.entry.region.now) (all_kinds self.entry.line.now)) }
    {
        let mut names = Vec::new(alloc);
        let mut rest = self.line;
        'tokens: while let [_, behind @ ..] = rest {
            if let Some(reduction) = self.taken_at(alloc, rest)? {
                names.extend_from_slice(&reduction.names)?;
            }
            rest = behind;
        }
        Ok(names)
    }

    /// The tokens of the line without the clauses that are taken, or with maps in their place.
    pub fn reduced(self, alloc: Global) -> Result<Vec<PlacedLexeme<'a>>, AllocError>
        ensures { IfOk result (λ v. all_placed v.items ≡
            reduced (all_kinds self.entry.line.now) (seen_all self.entry.region.now) 0 (all_placed self.entry.line.now)) }
    {
        let mut done = Vec::new(alloc);
        let mut left = 0usize;
        let mut rest = self.line;
        'tokens: while let [token, behind @ ..] = rest {
            let here = rest;
            rest = behind;
            if left > 0 {
                left -= 1;
                continue;
            }
            let Some(reduction) = self.taken_at(alloc, here)? else {
                done.push(*token)?;
                continue;
            };
            if all_mapped(&reduction.names, self.line) {
                left = reduction.len.saturating_sub(1);
                continue;
            }
            put_map(&mut done, token.column)?;
            left = 3;
        }
        Ok(done)
    }
}
