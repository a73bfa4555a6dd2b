//! Clauses `if` of a directive line.

ghost use Rattle.std.specs.Prelude.{◌≡◌, ◌≤◌, ◌++◌, ◌<◌, ◌+◌, ◌^◌, [], drop, length, take, IfOk, None, Some};
ghost use Rattle.std.specs.Option.{option_map};
ghost use Rattle.c_grammar.specs.Conditions.{are_idle, are_orderly, are_read, are_same, clause_at, clause_in, clauses, collide, depth_behind, inner_part, is_apart, is_for, is_idle, is_if, is_off, is_orderly, is_read, is_region, kept, modifier_len, part_for, takes, with_colon};
ghost use Rattle.directives.specs.Seen.{seen_lexeme};
ghost use Rattle.c_written.specs.Forms.{all_placed};
ghost use Rattle.c_written.specs.Ifs.{seen_clause, seen_clauses, seen_heading, seen_part};
ghost use Rattle.c_written.specs.Spots.{all_kinds};

use crate::condition::condition;
use crate::line_forms::{is_name, is_sign};
use crate::nesting::has;
use crate::spots::{closes_list, opens_list};
use c_tokens::Sign;
use directives::{Lexeme, PlacedLexeme, Word, same_lexeme};
use std::alloc::{AllocError, Global};

/// What a clause is for.
#[derive(Clone, Copy)]
pub enum Part<'a> {
    /// The whole of a construct.
    Whole,
    Target,
    /// Another part, which this word names.
    Inner(Lexeme<'a>),
    /// The clause is none that is read.
    Unread,
}

/// A clause, with how many tokens stand behind its word.
#[derive(Clone, Copy)]
pub struct Clause<'a> {
    pub part: Part<'a>,
    pub holds: bool,
    pub len: usize,
}

/// The words of a directive: of its own name, and of the parts behind `target`.
#[derive(Clone, Copy)]
pub struct Heading<'l, 'a> {
    pub own: &'l [PlacedLexeme<'a>],
    pub parts: &'l [PlacedLexeme<'a>],
}

// ---- the clause

/// The tokens behind so many others.
pub fn behind_words<'l, 'a>(count: usize, tokens: &'l [PlacedLexeme<'a>]) -> &'l [PlacedLexeme<'a>]
    ensures { all_kinds result.now ≡ drop count (all_kinds tokens.now) }
{
    if count < tokens.len() {
        return &tokens[count..];
    }
    &tokens[tokens.len()..]
}

/// So many tokens.
pub fn front_words<'l, 'a>(count: usize, tokens: &'l [PlacedLexeme<'a>]) -> &'l [PlacedLexeme<'a>]
    ensures { all_kinds result.now ≡ take count (all_kinds tokens.now) }
{
    if count < tokens.len() {
        return &tokens[..count];
    }
    tokens
}

/// Behind so many words stands a colon; or 0.
fn modifier_len(tokens: &[PlacedLexeme<'_>]) -> usize
    ensures len { result ≡ modifier_len 0 (all_kinds tokens.now) }
    ensures within { with_colon result ≤ length tokens.now }
{
    let mut len = 0usize;
    let mut rest = tokens;
    'tokens: while let [token, behind @ ..] = rest {
        match token.lexeme {
            Lexeme::Name(_) => len += 1,
            _ => {
                if is_sign(token.lexeme, Sign::Colon) {
                    return len;
                }
                return 0;
            }
        }
        rest = behind;
    }
    0
}

/// Whether these tokens stand there, and no others.
fn are_same(tokens: &[PlacedLexeme<'_>], others: &[PlacedLexeme<'_>]) -> bool
    ensures { result ≡ are_same (all_kinds tokens.now) (all_kinds others.now) }
{
    let mut right = others;
    let mut rest = tokens;
    'tokens: while let [token, behind @ ..] = rest {
        let [other, beyond @ ..] = right else {
            return false;
        };
        if !same_lexeme(token.lexeme, other.lexeme) {
            return false;
        }
        rest = behind;
        right = beyond;
    }
    right.is_empty()
}

// Whether it is a part that takes the clause.
fn takes(parts: &[PlacedLexeme<'_>], lexeme: Lexeme<'_>) -> bool
    ensures { result ≡ takes (all_kinds parts.now) (seen_lexeme lexeme.entry) }
{
    (is_name(lexeme, b"parallel") && has(b"parallel", parts))
        || (is_name(lexeme, b"teams") && has(b"teams", parts))
        || (is_name(lexeme, b"simd") && has(b"simd", parts))
}

fn inner_part<'a>(parts: &[PlacedLexeme<'_>], words: &[PlacedLexeme<'a>]) -> Part<'a>
    ensures { seen_part result ≡ inner_part (all_kinds parts.now) (all_kinds words.now) }
{
    match words {
        [word] => {
            if takes(parts, word.lexeme) {
                Part::Inner(word.lexeme)
            } else {
                Part::Unread
            }
        }
        _ => Part::Unread,
    }
}

/// By the words of the modifier.
fn part_for<'a>(heading: Heading<'_, 'a>, words: &[PlacedLexeme<'a>]) -> Part<'a>
    ensures { seen_part result ≡ part_for (seen_heading heading.entry) (all_kinds words.now) }
{
    if words.is_empty() {
        return Part::Whole;
    }
    if are_same(heading.own, words) {
        Part::Target
    } else {
        inner_part(heading.parts, words)
    }
}

// How many tokens the modifier and its colon are.
fn with_colon(words: usize, tokens: &[PlacedLexeme<'_>]) -> usize
    requires { with_colon words ≤ length tokens.now }
    ensures { result ≡ with_colon words }
{
    if words == 0 { 0 } else { words + 1 }
}

/// Behind the word `if` and a bracket.
fn clause_in<'a>(
    alloc: Global,
    heading: Heading<'_, 'a>,
    tokens: &[PlacedLexeme<'a>],
) -> Result<Clause<'a>, AllocError>
    ensures { IfOk result (λ c. seen_clause c ≡ clause_in (seen_heading heading.entry) (modifier_len 0 (all_kinds tokens.now)) (all_kinds tokens.now)) }
{
    let words = modifier_len(tokens);
    let colon = with_colon(words, tokens);
    match condition(alloc, behind_words(colon, tokens))? {
        None => Ok(Clause {
            part: Part::Unread,
            holds: true,
            len: 0,
        }),
        Some(found) => Ok(Clause {
            part: part_for(heading, front_words(words, tokens)),
            holds: found.value != 0,
            len: colon + 1 + found.len,
        }),
    }
}

/// Behind the word `if`.
fn clause_at<'a>(
    alloc: Global,
    heading: Heading<'_, 'a>,
    tokens: &[PlacedLexeme<'a>],
) -> Result<Clause<'a>, AllocError>
    ensures { IfOk result (λ c. seen_clause c ≡ clause_at (seen_heading heading.entry) (all_kinds tokens.now)) }
{
    match tokens {
        [bracket, behind @ ..] if is_sign(bracket.lexeme, Sign::OpenParen) => {
            clause_in(alloc, heading, behind)
        }
        _ => Ok(Clause {
            part: Part::Unread,
            holds: true,
            len: 0,
        }),
    }
}

// ---- the clauses of a line

fn is_if(lexeme: Lexeme<'_>) -> bool
    ensures { result ≡ is_if (seen_lexeme lexeme.entry) }
{
    same_lexeme(Lexeme::Reserved(Word::If), lexeme)
}

fn depth_behind(lexeme: Lexeme<'_>, depth: usize) -> usize
    requires { depth < 2 ^ 63 }
    ensures depth { result ≡ depth_behind (seen_lexeme lexeme.entry) depth }
    ensures within { result ≤ depth + 1 }
{
    if opens_list(lexeme) {
        depth + 1
    } else if closes_list(lexeme) {
        depth.saturating_sub(1)
    } else {
        depth
    }
}

/// The clauses so far.
#[derive(Drop)]
struct Listing<'l, 'a> {
    heading: Heading<'l, 'a>,
    done: Vec<Clause<'a>>,
    depth: usize,
    /// How many tokens still belong to the last one.
    left: usize,
}

impl<'l, 'a> Listing<'l, 'a> {
    ghost use Rattle.std.specs.Prelude.{◌≡◌, ◌∷◌, ◌<◌, ◌≤◌, ◌+◌, ◌^◌, OnOk};
    ghost use Rattle.directives.specs.Seen.{seen_lexeme};
    ghost use Rattle.c_written.specs.Ifs.{with_clauses};
    ghost use Rattle.c_written.specs.Spots.{all_kinds};

    /// The next token, before others.
    fn take(
        &mut self,
        alloc: Global,
        lexeme: Lexeme<'a>,
        behind: &[PlacedLexeme<'a>],
    ) -> Result<(), AllocError>
        requires { self.old.depth < 2 ^ 63 }
        ensures taken { OnOk result (with_clauses self.old (seen_lexeme lexeme.entry ∷ all_kinds behind.now) ≡
            with_clauses self.new (all_kinds behind.now)) }
        ensures depth { OnOk result (self.new.depth ≤ self.old.depth + 1) }
    {
        if self.left > 0 {
            self.left -= 1;
            return Ok(());
        }
        if self.depth == 0 && is_if(lexeme) {
            let clause = clause_at(alloc, self.heading, behind)?;
            self.left = clause.len;
            self.done.push(clause)?;
        } else {
            self.depth = depth_behind(lexeme, self.depth);
        }
        Ok(())
    }
}

/// The clauses `if` of a line.
pub fn clauses<'a>(
    alloc: Global,
    heading: Heading<'_, 'a>,
    tokens: &[PlacedLexeme<'a>],
) -> Result<Vec<Clause<'a>>, AllocError>
    ensures { IfOk result (λ v. seen_clauses v.items ≡ clauses (seen_heading heading.entry) 0 0 (all_kinds tokens.now)) }
{
    let mut listing = Listing {
        heading,
        done: Vec::new(alloc),
        depth: 0,
        left: 0,
    };
    let mut rest = tokens;
    'tokens: while let [token, behind @ ..] = rest {
        rest = behind;
        listing.take(alloc, token.lexeme, behind)?;
    }
    Ok(listing.done)
}

/// A line without these clauses, so far.
#[derive(Drop)]
struct Rest<'l, 'a> {
    heading: Heading<'l, 'a>,
    done: Vec<PlacedLexeme<'a>>,
    depth: usize,
    /// How many tokens are still to be left out.
    left: usize,
}

impl<'l, 'a> Rest<'l, 'a> {
    ghost use Rattle.std.specs.Prelude.{◌≡◌, ◌∷◌, ◌<◌, ◌≤◌, ◌+◌, ◌^◌, IfOk, OnOk};
    ghost use Rattle.c_grammar.specs.Conditions.{leaves};
    ghost use Rattle.directives.specs.Seen.{seen_placed};
    ghost use Rattle.c_written.specs.Forms.{all_placed};
    ghost use Rattle.c_written.specs.Ifs.{seen_heading, with_kept};

    // How many tokens more are left out with the first, if it begins such a clause.
    fn leaves(
        &self,
        alloc: Global,
        placed: PlacedLexeme<'a>,
        behind: &[PlacedLexeme<'a>],
    ) -> Result<Option<usize>, AllocError>
        ensures { IfOk result (λ o. o ≡ leaves (seen_heading self.now.heading) self.now.depth (seen_placed placed.entry ∷ all_placed behind.now)) }
    {
        if self.depth == 0 && is_if(placed.lexeme) {
            Ok(Some(clause_at(alloc, self.heading, behind)?.len))
        } else {
            Ok(None)
        }
    }

    /// The next token, before others.
    fn take(
        &mut self,
        alloc: Global,
        placed: PlacedLexeme<'a>,
        behind: &[PlacedLexeme<'a>],
    ) -> Result<(), AllocError>
        requires { self.old.depth < 2 ^ 63 }
        ensures taken { OnOk result (with_kept self.old (seen_placed placed.entry ∷ all_placed behind.now) ≡ with_kept self.new (all_placed behind.now)) }
        ensures depth { OnOk result (self.new.depth ≤ self.old.depth + 1) }
    {
        if behind.is_empty() {
            self.done.push(placed)?;
            return Ok(());
        }
        if self.left > 0 {
            self.left -= 1;
            return Ok(());
        }
        match self.leaves(alloc, placed, behind)? {
            Some(more) => {
                self.left = more;
                self.depth = 0;
            }
            None => {
                self.done.push(placed)?;
                self.depth = depth_behind(placed.lexeme, self.depth);
            }
        }
        Ok(())
    }
}

/// The tokens without these clauses.
pub fn kept<'a>(
    alloc: Global,
    heading: Heading<'_, 'a>,
    tokens: &[PlacedLexeme<'a>],
) -> Result<Vec<PlacedLexeme<'a>>, AllocError>
    ensures { IfOk result (λ v. all_placed v.items ≡ kept (seen_heading heading.entry) 0 0 (all_placed tokens.now)) }
{
    let mut line = Rest {
        heading,
        done: Vec::new(alloc),
        depth: 0,
        left: 0,
    };
    let mut rest = tokens;
    'tokens: while let [placed, behind @ ..] = rest {
        line.take(alloc, *placed, behind)?;
        rest = behind;
    }
    Ok(line.done)
}

// ---- what they say

// Whether two may not stand on one line.
fn collide(part: Part<'_>, other: Part<'_>) -> bool
    ensures { result ≡ collide (seen_part part.entry) (seen_part other.entry) }
{
    match (part, other) {
        (Part::Whole, _) | (Part::Unread, _) => true,
        (Part::Target, Part::Whole) | (Part::Target, Part::Target) => true,
        (Part::Inner(_), Part::Whole) => true,
        (Part::Inner(word), Part::Inner(next)) => same_lexeme(word, next),
        _ => false,
    }
}

fn is_apart(part: Part<'_>, clauses: &[Clause<'_>]) -> bool
    ensures { result ≡ is_apart (seen_part part.entry) (seen_clauses clauses.now) }
{
    let mut rest = clauses;
    'clauses: while let [clause, behind @ ..] = rest {
        if collide(part, clause.part) {
            return false;
        }
        rest = behind;
    }
    true
}

fn is_read(part: Part<'_>) -> bool
    ensures { result ≡ is_read (seen_part part.entry) }
{
    match part {
        Part::Unread => false,
        _ => true,
    }
}

/// Whether all of them are read, and no two collide.
pub fn are_read(clauses: &[Clause<'_>]) -> bool
    ensures { result ≡ are_read (seen_clauses clauses.now) }
{
    let mut rest = clauses;
    'clauses: while let [clause, behind @ ..] = rest {
        if !is_read(clause.part) || !is_apart(clause.part, behind) {
            return false;
        }
        rest = behind;
    }
    true
}

fn is_for(part: Part<'_>, other: Part<'_>) -> bool
    ensures { result ≡ is_for (seen_part part.entry) (seen_part other.entry) }
{
    match (part, other) {
        (_, Part::Whole) | (Part::Target, Part::Target) => true,
        (Part::Inner(word), Part::Inner(next)) => same_lexeme(word, next),
        _ => false,
    }
}

/// Whether a clause says that this part does nothing.
pub fn is_off(part: Part<'_>, clauses: &[Clause<'_>]) -> bool
    ensures { result ≡ is_off (seen_part part.entry) (seen_clauses clauses.now) }
{
    let mut rest = clauses;
    'clauses: while let [clause, behind @ ..] = rest {
        if is_for(part, clause.part) && !clause.holds {
            return true;
        }
        rest = behind;
    }
    false
}

fn is_orderly(placed: PlacedLexeme<'_>, clauses: &[Clause<'_>]) -> bool
    ensures { result ≡ is_orderly (seen_lexeme placed.entry.lexeme) (seen_clauses clauses.now) }
{
    let word = placed.lexeme;
    (takes(&[placed], word) && is_off(Part::Inner(word), clauses))
        || is_name(word, b"distribute")
        || same_lexeme(Lexeme::Reserved(Word::For), word)
}

/// Whether the host runs the turns of a construct with these parts one by one, in order.
pub fn are_orderly(parts: &[PlacedLexeme<'_>], clauses: &[Clause<'_>]) -> bool
    ensures { result ≡ are_orderly (all_kinds parts.now) (seen_clauses clauses.now) }
{
    let mut rest = parts;
    'parts: while let [part, behind @ ..] = rest {
        if !is_orderly(*part, clauses) {
            return false;
        }
        rest = behind;
    }
    true
}

fn is_idle(lexeme: Lexeme<'_>) -> bool
    ensures { result ≡ is_idle (seen_lexeme lexeme.entry) }
{
    is_name(lexeme, b"map")
        || is_name(lexeme, b"to")
        || is_name(lexeme, b"from")
        || is_name(lexeme, b"device")
        || is_name(lexeme, b"collapse")
        || is_name(lexeme, b"num_teams")
        || is_name(lexeme, b"thread_limit")
        || is_name(lexeme, b"num_threads")
        || is_name(lexeme, b"schedule")
        || is_name(lexeme, b"simdlen")
        || is_name(lexeme, b"safelen")
        || same_lexeme(Lexeme::Ended, lexeme)
}

/// Whether only clauses stand there that say nothing of a region on the host.
pub fn are_idle(tokens: &[PlacedLexeme<'_>]) -> bool
    ensures { result ≡ are_idle 0 (all_kinds tokens.now) }
{
    let mut depth = 0usize;
    let mut rest = tokens;
    'tokens: while let [token, behind @ ..] = rest {
        rest = behind;
        if depth == 0 && !(opens_list(token.lexeme) || is_idle(token.lexeme)) {
            return false;
        }
        depth = depth_behind(token.lexeme, depth);
    }
    true
}

/// Whether the directive has a region that runs on a device.
pub fn is_region(own: &[PlacedLexeme<'_>]) -> bool
    ensures { result ≡ is_region (all_kinds own.now) }
{
    match own {
        [word] => is_name(word.lexeme, b"target"),
        _ => false,
    }
}
