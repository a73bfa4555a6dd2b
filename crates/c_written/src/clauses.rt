//! A directive line with the map types that its clauses leave out, and without the clauses that say what holds anyway.

ghost use Rattle.std.specs.Prelude.{◌≡◌, ◌<◌, ◌^◌, ◌++◌, IfOk, map};
ghost use Rattle.c_grammar.specs.Clauses.{after_item, at_begin, begins_clause, behind_first, BeforeName, are_items, clauses_from, clauses_in_full, default_len, first_sign, first_word, has_body, has_nowait, has_threads, is_any_kind, is_default, maps_so, part_after, place_after, scope_of, type_for, type_step, with_comma};
ghost use Rattle.c_grammar.specs.LineForms.{begins_word, is_worded};
ghost use Rattle.directives.specs.Ahead.{seen_line};
ghost use Rattle.directives.specs.Seen.{seen_lexeme, seen_placed};
ghost use Rattle.c_written.specs.Clauses.{seen_part, seen_place, seen_scope, seen_step};
ghost use Rattle.c_written.specs.Forms.{all_placed};
ghost use Rattle.c_terminals.specs.Names.{seen_names};
ghost use Rattle.c_written.specs.Values.{seen_values};

use crate::line_forms::{is_name, is_sign};
use crate::values::Values;
use c_terminals::Names;
use c_tokens::Sign;
use directives::{Lexeme, LineTokens, PlacedLexeme, Word, same_lexeme};
use std::alloc::{AllocError, Global};

/// What the clauses of a line are read with.
#[derive(Clone, Copy)]
pub struct Scope<'v, 'a> {
    /// The names that are declared before.
    names: &'v Names<'a>,
    /// The arrays among them, with their lengths.
    arrays: &'v Values<'a>,
    /// The type of a map clause without one.
    map_type: &'static [u8],
    /// Whether the line has threads, which share what is not their own.
    shares: bool,
    /// Whether the line captures scalars.
    captures: bool,
    /// Whether it may be done later.
    defers: bool,
}

/// Where a token stands: how many brackets are open, and whether a clause ends before it.
#[derive(Clone, Copy)]
pub struct Place {
    pub depth: usize,
    pub ended: bool,
}

/// What has been read of map items.
#[derive(Clone, Copy)]
enum Part {
    BeforeName,
    AfterName,
    InBounds,
    AfterBounds,
    Closed,
    Broken,
}

/// What becomes of a token.
#[derive(Clone, Copy)]
enum Step<'a> {
    Keep,
    /// It is left out, and so many more.
    LeaveOut(usize),
    /// Behind this bracket, which follows it, a type is put, at that column.
    PutType(PlacedLexeme<'a>, usize),
}

// ---- the directive

fn first_word(rest: &[PlacedLexeme<'_>], word: &[u8]) -> bool
    ensures { result ≡ first_word word.now (all_placed rest.now) }
{
    match rest {
        [first, ..] => is_name(first.lexeme, word),
        [] => false,
    }
}

fn first_sign(rest: &[PlacedLexeme<'_>], sign: Sign) -> bool
    ensures { result ≡ first_sign sign (all_placed rest.now) }
{
    match rest {
        [first, ..] => is_sign(first.lexeme, sign),
        [] => false,
    }
}

fn behind_first<'l, 'a>(rest: &'l [PlacedLexeme<'a>]) -> &'l [PlacedLexeme<'a>]
    ensures { all_placed result.now ≡ behind_first (all_placed rest.now) }
{
    match rest {
        [_, behind @ ..] => behind,
        [] => rest,
    }
}

/// The type of a map clause without one, by the words behind `target` (section 5.8.3).
fn type_for(rest: &[PlacedLexeme<'_>]) -> &'static [u8]
    ensures { result.now ≡ type_for (all_placed rest.now) }
{
    if first_word(rest, b"enter".as_slice()) {
        return b"to".as_slice();
    }
    if first_word(rest, b"exit".as_slice()) {
        return b"from".as_slice();
    }
    b"tofrom".as_slice()
}

/// Whether the construct with these words behind `target` has threads.
fn has_threads(rest: &[PlacedLexeme<'_>]) -> bool
    ensures { result ≡ has_threads (all_placed rest.now) }
{
    first_word(rest, b"parallel".as_slice()) || first_word(rest, b"teams".as_slice())
}

/// Whether the construct with these words behind `target` has a block or a loop of its own.
fn has_body(rest: &[PlacedLexeme<'_>]) -> bool
    ensures { result ≡ has_body (all_placed rest.now) }
{
    !(first_word(rest, b"data".as_slice())
        || first_word(rest, b"enter".as_slice())
        || first_word(rest, b"exit".as_slice())
        || first_word(rest, b"update".as_slice()))
}

fn has_nowait(tokens: &[PlacedLexeme<'_>]) -> bool
    ensures { result ≡ has_nowait (all_placed tokens.now) }
{
    let mut rest = tokens;
    'tokens: while let [placed, behind @ ..] = rest {
        if is_name(placed.lexeme, b"nowait".as_slice()) {
            return true;
        }
        rest = behind;
    }
    false
}

/// What the clauses are read with on a line with these tokens behind `pragma omp`.
fn scope_of<'v, 'a>(
    names: &'v Names<'a>,
    arrays: &'v Values<'a>,
    rest: &[PlacedLexeme<'a>],
) -> Scope<'v, 'a>
    ensures { seen_scope result ≡ scope_of (seen_names names.now) (seen_values arrays.now) (all_placed rest.now) }
{
    let is_target = first_word(rest, b"target".as_slice());
    let behind = behind_first(rest);
    Scope {
        names,
        arrays,
        map_type: type_for(behind),
        shares: is_target && has_threads(behind),
        captures: is_target && has_body(behind),
        defers: has_nowait(rest),
    }
}

// ---- the clauses that are left out

pub fn is_worded(lexeme: Lexeme<'_>) -> bool
    ensures { result ≡ is_worded (seen_lexeme lexeme.entry) }
{
    match lexeme {
        Lexeme::Name(_) => true,
        _ => false,
    }
}

/// Whether a clause may begin by it.
pub fn begins_word(lexeme: Lexeme<'_>) -> bool
    ensures { result ≡ begins_word (seen_lexeme lexeme.entry) }
{
    is_worded(lexeme) || same_lexeme(Lexeme::Reserved(Word::If), lexeme)
}

fn begins_clause(rest: &[PlacedLexeme<'_>]) -> bool
    ensures { result ≡ begins_clause (all_placed rest.now) }
{
    match rest {
        [first, behind @ ..] => {
            is_name(first.lexeme, b"nowait".as_slice())
                || (begins_word(first.lexeme) && first_sign(behind, Sign::OpenParen))
        }
        [] => false,
    }
}

// What may stand in the brackets of `default`.
fn is_default(lexeme: Lexeme<'_>) -> bool
    ensures { result ≡ is_default (seen_lexeme lexeme.entry) }
{
    is_name(lexeme, b"shared".as_slice()) || is_name(lexeme, b"none".as_slice())
}

/// How many tokens such a word and the bracket behind it are, and the bracket of `default`.
fn default_len(rest: &[PlacedLexeme<'_>]) -> Option<usize>
    ensures { result ≡ default_len (all_placed rest.now) }
{
    match rest {
        [word, bracket, ..] => {
            if is_default(word.lexeme) && is_sign(bracket.lexeme, Sign::CloseParen) {
                Some(3)
            } else {
                None
            }
        }
        _ => None,
    }
}

/// The same number, and one more where a comma stands behind the clause, if the line goes on with a clause or ends.
pub fn with_comma(count: usize, rest: &[PlacedLexeme<'_>]) -> Option<usize>
    requires { count < 2 ^ 63 }
    ensures { result ≡ with_comma count (all_placed rest.now) }
{
    let [first, behind @ ..] = rest else {
        return None;
    };
    if same_lexeme(Lexeme::Ended, first.lexeme) || begins_clause(rest) {
        return Some(count);
    }
    if is_sign(first.lexeme, Sign::Comma) && begins_clause(behind) {
        Some(count + 1)
    } else {
        None
    }
}

// ---- the types of map clauses

fn after_item(lexeme: Lexeme<'_>) -> Part
    ensures { seen_part result ≡ after_item (seen_lexeme lexeme.entry) }
{
    if is_sign(lexeme, Sign::Comma) {
        return Part::BeforeName;
    }
    if is_sign(lexeme, Sign::CloseParen) {
        Part::Closed
    } else {
        Part::Broken
    }
}

fn part_after(part: Part, lexeme: Lexeme<'_>) -> Part
    ensures { seen_part result ≡ part_after (seen_part part) (seen_lexeme lexeme.entry) }
{
    match part {
        Part::BeforeName => {
            if is_worded(lexeme) {
                Part::AfterName
            } else {
                Part::Broken
            }
        }
        Part::AfterName => {
            if is_sign(lexeme, Sign::OpenBracket) {
                Part::InBounds
            } else {
                after_item(lexeme)
            }
        }
        Part::InBounds => {
            if is_sign(lexeme, Sign::CloseBracket) {
                Part::AfterBounds
            } else {
                Part::InBounds
            }
        }
        Part::AfterBounds => after_item(lexeme),
        Part::Closed | Part::Broken => part,
    }
}

/// Whether these are map items and the bracket behind them.
fn are_items(rest: &[PlacedLexeme<'_>]) -> bool
    ensures { result ≡ are_items BeforeName (all_placed rest.now) }
{
    let mut part = Part::BeforeName;
    let mut rest = rest;
    'items: while let [placed, behind @ ..] = rest {
        part = part_after(part, placed.lexeme);
        match part {
            Part::Closed => return true,
            Part::Broken => return false,
            _ => {}
        }
        rest = behind;
    }
    false
}

fn type_step<'a>(rest: &[PlacedLexeme<'a>]) -> Step<'a>
    ensures { seen_step result ≡ type_step (all_placed rest.now) }
{
    match rest {
        [word, bracket, first, ..] => {
            if is_name(word.lexeme, b"map".as_slice())
                && is_sign(bracket.lexeme, Sign::OpenParen)
                && are_items(&rest[2..])
            {
                Step::PutType(*bracket, first.column)
            } else {
                Step::Keep
            }
        }
        _ => Step::Keep,
    }
}

impl Place {
    ghost use Rattle.std.specs.Prelude.{◌≡◌};
    ghost use Rattle.c_grammar.specs.Clauses.{at_begin};
    ghost use Rattle.c_written.specs.Clauses.{seen_place};

    pub fn begin() -> Place
        ensures { seen_place result ≡ at_begin }
    {
        Place {
            depth: 0,
            ended: false,
        }
    }
}

// Whether what is used without a map item is mapped so anyway.
fn maps_so(word: PlacedLexeme<'_>) -> bool
    ensures { result ≡ maps_so (seen_placed word.entry) }
{
    is_name(word.lexeme, b"default".as_slice())
}

// `so)`
fn is_any_kind(rest: &[PlacedLexeme<'_>]) -> bool
    ensures { result ≡ is_any_kind (all_placed rest.now) }
{
    match rest {
        [word, bracket, ..] => maps_so(*word) && is_sign(bracket.lexeme, Sign::CloseParen),
        _ => false,
    }
}

impl<'v, 'a> Scope<'v, 'a> {
    ghost use Rattle.std.specs.Prelude.{◌≡◌, ◌≤◌, ◌+◌, [], length, IfSome};
    ghost use Rattle.c_grammar.specs.Clauses.{clause_len, clause_step, idle_len, is_one_kind, list_len, map_len, maps_kind_so, may_stand, names_len, step_at};
    ghost use Rattle.c_grammar.specs.Privates.{scope};
    ghost use Rattle.directives.specs.Seen.{seen_lexeme, seen_placed};
    ghost use Rattle.c_terminals.specs.Names.{seen_names};
    ghost use Rattle.c_written.specs.Clauses.{seen_place, seen_scope, seen_step};
    ghost use Rattle.c_written.specs.Forms.{all_placed};
    ghost use Rattle.c_written.specs.Values.{seen_values};

    /// What clauses are read with that name these alone.
    pub fn of_names(names: &'v Names<'a>, arrays: &'v Values<'a>) -> Scope<'v, 'a>
        requires { seen_values arrays.now ≡ [] }
        ensures { seen_scope result ≡ scope (seen_names names.now) }
    {
        Scope {
            names,
            arrays,
            map_type: b"".as_slice(),
            shares: false,
            captures: false,
            defers: false,
        }
    }

    /// Whether it is a declared name, of a scalar where only such may stand.
    fn may_stand(&self, scalar: bool, lexeme: Lexeme<'a>) -> bool
        ensures { result ≡ may_stand (seen_scope self.now) scalar (seen_lexeme lexeme.entry) }
    {
        match lexeme {
            Lexeme::Name(name) => {
                self.names.contains(name) && !(scalar && self.arrays.value(name).is_some())
            }
            _ => false,
        }
    }

    /// How many tokens names and the bracket behind them are, and the bracket before.
    pub fn names_len(&self, scalar: bool, rest: &[PlacedLexeme<'a>]) -> Option<usize>
        ensures { result ≡ names_len (seen_scope self.now) scalar 1 (all_placed rest.now) }
    {
        let mut count = 1;
        let mut rest = rest;
        'names: while let [name, sign, behind @ ..] = rest {
            if !self.may_stand(scalar, name.lexeme) {
                return None;
            }
            if is_sign(sign.lexeme, Sign::CloseParen) {
                return Some(count + 2);
            }
            if !is_sign(sign.lexeme, Sign::Comma) {
                return None;
            }
            count += 2;
            rest = behind;
        }
        None
    }

    /// Whether variables of a kind are.
    fn maps_kind_so(&self, word: PlacedLexeme<'a>, kind: PlacedLexeme<'a>) -> bool
        ensures { result ≡ maps_kind_so (seen_scope self.now) (seen_placed word.entry) (seen_placed kind.entry) }
    {
        let scalars = is_name(kind.lexeme, b"scalar".as_slice());
        (is_name(word.lexeme, b"default".as_slice()) && is_worded(kind.lexeme))
            || (is_name(word.lexeme, b"tofrom".as_slice())
                && (is_name(kind.lexeme, b"aggregate".as_slice()) || (scalars && !self.defers)))
            || (is_name(word.lexeme, b"firstprivate".as_slice()) && scalars)
    }

    // `so: kind)`
    fn is_one_kind(&self, rest: &[PlacedLexeme<'a>]) -> bool
        ensures { result ≡ is_one_kind (seen_scope self.now) (all_placed rest.now) }
    {
        match rest {
            [word, colon, kind, bracket, ..] => {
                self.maps_kind_so(*word, *kind)
                    && is_sign(colon.lexeme, Sign::Colon)
                    && is_sign(bracket.lexeme, Sign::CloseParen)
            }
            _ => false,
        }
    }

    /// How many tokens the brackets behind `defaultmap` and what stands in them are.
    fn map_len(&self, rest: &[PlacedLexeme<'a>]) -> Option<usize>
        ensures { result ≡ map_len (seen_scope self.now) (all_placed rest.now) }
    {
        if is_any_kind(rest) {
            return Some(3);
        }
        if self.is_one_kind(rest) {
            Some(5)
        } else {
            None
        }
    }

    /// How many tokens are behind the word of a clause that says what holds anyway, by that word.
    fn list_len(&self, word: Lexeme<'a>, rest: &[PlacedLexeme<'a>]) -> Option<usize>
        ensures { result ≡ list_len (seen_scope self.now) (seen_lexeme word.entry) (all_placed rest.now) }
    {
        if self.shares && is_name(word, b"default".as_slice()) {
            return default_len(rest);
        }
        if self.shares && is_name(word, b"shared".as_slice()) {
            return self.names_len(false, rest);
        }
        if self.captures && is_name(word, b"firstprivate".as_slice()) {
            return self.names_len(true, rest);
        }
        if self.captures && is_name(word, b"defaultmap".as_slice()) {
            self.map_len(rest)
        } else {
            None
        }
    }

    fn clause_len(&self, rest: &[PlacedLexeme<'a>]) -> Option<usize>
        ensures len { result ≡ clause_len (seen_scope self.now) (all_placed rest.now) }
        ensures within { IfSome result (λ k. k + 1 ≤ length rest.now) }
    {
        match rest {
            [word, bracket, behind @ ..] => {
                if is_sign(bracket.lexeme, Sign::OpenParen) {
                    self.list_len(word.lexeme, behind)
                } else {
                    None
                }
            }
            _ => None,
        }
    }

    /// How many tokens go with the first, if it begins a clause that says what holds anyway.
    fn idle_len(&self, rest: &[PlacedLexeme<'a>]) -> Option<usize>
        ensures { result ≡ idle_len (seen_scope self.now) (all_placed rest.now) }
    {
        let count = self.clause_len(rest)?;
        with_comma(count, &rest[count + 1..])
    }

    fn clause_step(&self, ended: bool, rest: &[PlacedLexeme<'a>]) -> Step<'a>
        ensures { seen_step result ≡ clause_step (seen_scope self.now) ended (all_placed rest.now) }
    {
        let [first, behind @ ..] = rest else {
            return Step::Keep;
        };
        if ended && is_sign(first.lexeme, Sign::Comma) && self.idle_len(behind).is_some() {
            return Step::LeaveOut(0);
        }
        match self.idle_len(rest) {
            Some(more) => Step::LeaveOut(more),
            None => type_step(rest),
        }
    }

    /// What becomes of the first token at a place.
    fn step_at(&self, place: Place, rest: &[PlacedLexeme<'a>]) -> Step<'a>
        ensures { seen_step result ≡ step_at (seen_scope self.now) (seen_place place) (all_placed rest.now) }
    {
        if place.depth == 0 {
            self.clause_step(place.ended, rest)
        } else {
            Step::Keep
        }
    }
}

/// The place behind a token.
pub fn place_after(lexeme: Lexeme<'_>, place: Place) -> Place
    requires { place.depth < 2 ^ 63 }
    ensures { seen_place result ≡ place_after (seen_lexeme lexeme.entry) (seen_place place) }
{
    if is_sign(lexeme, Sign::OpenParen) {
        return Place {
            depth: place.depth + 1,
            ended: false,
        };
    }
    if is_sign(lexeme, Sign::CloseParen) {
        return Place {
            depth: place.depth.saturating_sub(1),
            ended: place.depth <= 1,
        };
    }
    Place {
        depth: place.depth,
        ended: place.depth == 0 && is_name(lexeme, b"nowait".as_slice()),
    }
}

/// A line so far.
#[derive(Drop)]
struct Clauses<'v, 'a> {
    scope: Scope<'v, 'a>,
    done: Vec<PlacedLexeme<'a>>,
    place: Place,
    /// How many tokens are still to be left out.
    left: usize,
}

impl<'v, 'a> Clauses<'v, 'a> {
    ghost use Rattle.std.specs.Prelude.{◌≡◌, ◌<◌, ◌≤◌, ◌+◌, ◌^◌, ◌++◌, ◌∷◌, List, OnOk};
    ghost use Rattle.c_grammar.specs.Lexeme.{Placed};
    ghost use Rattle.c_grammar.specs.Clauses.{Keep, PutType, put_step};
    ghost use Rattle.directives.specs.Seen.{seen_placed};
    ghost use Rattle.c_written.specs.Clauses.{behind, seen_place, seen_scope, with_clauses};
    ghost use Rattle.c_written.specs.Forms.{all_placed};

    fn keep(&mut self, placed: PlacedLexeme<'a>) -> Result<(), AllocError>
        requires none { self.old.left ≡ 0 }
        requires depth { self.old.place.depth < 2 ^ 63 }
        ensures gone { OnOk result ((ps : List Placed) → all_placed self.old.done.items ++
            put_step (seen_scope self.old.scope) (seen_place self.old.place) (seen_placed placed.entry) Keep
            (behind (seen_scope self.old.scope) ps) ≡ with_clauses self.new ps) }
        ensures depth { OnOk result (self.new.place.depth ≤ self.old.place.depth + 1) }
    {
        self.done.push(placed)?;
        self.place = place_after(placed.lexeme, self.place);
        Ok(())
    }

    /// The word `map` and the bracket behind it, with the type that is left out.
    fn put_type(
        &mut self,
        word: PlacedLexeme<'a>,
        bracket: PlacedLexeme<'a>,
        column: usize,
    ) -> Result<(), AllocError>
        ensures gone { OnOk result ((ps : List Placed) → all_placed self.old.done.items ++
            put_step (seen_scope self.old.scope) (seen_place self.old.place) (seen_placed word.entry)
            (PutType (seen_placed bracket.entry) column) (behind (seen_scope self.old.scope) ps) ≡ with_clauses self.new ps) }
        ensures depth { OnOk result (self.new.place.depth ≤ self.old.place.depth + 1) }
    {
        self.done.push(word)?;
        self.done.push(bracket)?;
        self.done.push(PlacedLexeme {
            lexeme: Lexeme::Name(self.scope.map_type),
            column,
        })?;
        self.done.push(PlacedLexeme {
            lexeme: Lexeme::Sign(Sign::Colon),
            column,
        })?;
        self.place = Place {
            depth: 1,
            ended: false,
        };
        self.left = 1;
        Ok(())
    }

    /// The next token, which stands first among the rest of the line.
    fn take(
        &mut self,
        placed: PlacedLexeme<'a>,
        behind: &[PlacedLexeme<'a>],
        rest: &[PlacedLexeme<'a>],
    ) -> Result<(), AllocError>
        requires rest { all_placed rest.now ≡ seen_placed placed ∷ all_placed behind.now }
        requires depth { self.old.place.depth < 2 ^ 63 }
        ensures taken { OnOk result (with_clauses self.old (all_placed rest.now) ≡ with_clauses self.new (all_placed behind.now)) }
        ensures depth { OnOk result (self.new.place.depth ≤ self.old.place.depth + 1) }
    {
        if self.left > 0 {
            self.left -= 1;
            return Ok(());
        }
        match self.scope.step_at(self.place, rest) {
            Step::Keep => self.keep(placed),
            Step::LeaveOut(more) => {
                self.left = more;
                Ok(())
            }
            Step::PutType(bracket, column) => self.put_type(placed, bracket, column),
        }
    }
}

/// The tokens behind the words `pragma omp`.
fn clauses_behind<'v, 'a>(
    alloc: Global,
    scope: Scope<'v, 'a>,
    words: [PlacedLexeme<'a>; 2],
    rest: &[PlacedLexeme<'a>],
) -> Result<Vec<PlacedLexeme<'a>>, AllocError>
    ensures { IfOk result (λ v. all_placed v.items ≡ all_placed words.entry ++
        clauses_from (seen_scope scope.entry) at_begin 0 (all_placed rest.now)) }
{
    let mut clauses = Clauses {
        scope,
        done: Vec::from_slice(alloc, &words)?,
        place: Place::begin(),
        left: 0,
    };
    let mut rest = rest;
    'tokens: while let [placed, behind @ ..] = rest {
        clauses.take(*placed, behind, rest)?;
        rest = behind;
    }
    Ok(clauses.done)
}

/// A directive line with the types of its map clauses, and without the clauses that say what holds anyway, where these names
/// and arrays are declared before it.
pub fn clauses_in_full<'a>(
    alloc: Global,
    names: &Names<'a>,
    arrays: &Values<'a>,
    line: &LineTokens<'a>,
) -> Result<LineTokens<'a>, AllocError>
    ensures { IfOk result (λ l. seen_line l ≡ clauses_in_full (seen_names names.now) (seen_values arrays.now) (seen_line line.now)) }
{
    match line.tokens() {
        [first, second, rest @ ..] => {
            let scope = scope_of(names, arrays, rest);
            let tokens = clauses_behind(alloc, scope, [*first, *second], rest)?;
            Ok(LineTokens::of(tokens))
        }
        _ => line.copy(alloc),
    }
}
