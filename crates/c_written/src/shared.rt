//! What C shares between threads, and what it does not: names of loops that are declared before a construct, arrays of
//! blocks that a target with `nowait` uses, boxed scalars that a target uses and does not map, and sums of other cells than
//! those that are mapped.

ghost use Rattle.std.specs.Prelude.{◌≡◌, [], IfOk, OnOk, false};
ghost use Rattle.c_grammar.specs.Blocks.{bare};
ghost use Rattle.c_grammar.specs.Boxes.{at_begin, listed};
ghost use Rattle.c_grammar.specs.Shared.{all_kept, apart, array_at, awaited, block_arrays, copies_at, copies_one, is_copied, is_listed, is_mapped, is_own, keeps_data, kept_on, loops_behind, loops_on, maps, maps_too, owns, region_of, shares, shares_at, unshared, uses_one, waits_at};
ghost use Rattle.c_grammar.specs.Counters.{is_set};
ghost use Rattle.directives.specs.Seen.{seen_lexeme};
ghost use Rattle.c_terminals.specs.Ahead.{ahead};
ghost use Rattle.c_terminals.specs.Held.{written_all};
ghost use Rattle.c_terminals.specs.Seen.{seen, seen_all, seen_terminal};
ghost use Rattle.c_written.specs.Boxes.{texts};
ghost use Rattle.c_written.specs.Spots.{all_kinds};

use crate::box_lists::add_listed;
use crate::boxes::{boxes_of, depth_behind};
use crate::counters::{Before, is_set};
use crate::lacks::marked;
use crate::line_forms::is_name;
use crate::nesting::has;
use crate::parted::is_parted;
use crate::presence::opens_part;
use crate::reductions::is_combined;
use crate::spots::{closes_list, opens_list};
use crate::used::{goes_on, uses};
use c_terminals::{Ahead, Names, Terminal, Token, Written, is_among};
use c_tokens::Sign;
use directives::{Lexeme, PlacedLexeme, Word};
use std::alloc::{AllocError, Global};

/// More loops than a nest may have.
const MANY: u64 = 16;

// How many loops it has by what stands behind `collapse`.
fn loops_behind(tokens: &[PlacedLexeme<'_>]) -> u64
    ensures { result ≡ loops_behind (all_kinds tokens.now) }
{
    let [_, number, ..] = tokens else {
        return MANY;
    };
    match number.lexeme {
        Lexeme::Number(n) => n,
        Lexeme::Reserved(_) => MANY,
        Lexeme::Name(_) => MANY,
        Lexeme::BadNumber => MANY,
        Lexeme::Sign(_) => MANY,
        Lexeme::Strange => MANY,
        Lexeme::Ended => MANY,
    }
}

// How many loops the construct of a line has.
fn loops_on(tokens: &[PlacedLexeme<'_>]) -> u64
    ensures { result ≡ loops_on (all_kinds tokens.now) }
{
    let mut rest = tokens;
    'tokens: while let [token, behind @ ..] = rest {
        if is_name(token.lexeme, b"collapse") {
            return loops_behind(behind);
        }
        rest = behind;
    }
    1
}

fn owns(lexeme: Lexeme<'_>) -> bool
    ensures { result ≡ owns (seen_lexeme lexeme.entry) }
{
    is_name(lexeme, b"private") || is_name(lexeme, b"firstprivate")
}

// Whether the name stands in a clause that gives each turn a variable of its own.
fn is_own(name: &[u8], tokens: &[PlacedLexeme<'_>]) -> bool
    ensures { result ≡ is_own name.now 0 false (all_kinds tokens.now) }
{
    let mut depth = 0usize;
    let mut own = false;
    let mut rest = tokens;
    'tokens: while let [token, behind @ ..] = rest {
        rest = behind;
        if opens_list(token.lexeme) {
            depth += 1;
        } else if closes_list(token.lexeme) {
            depth = depth.saturating_sub(1);
        } else if depth == 0 {
            own = owns(token.lexeme);
        } else if own && is_name(token.lexeme, name) {
            return true;
        }
    }
    false
}

/// What has been read of a region.
#[derive(Drop)]
struct Region<'a> {
    /// How many loops of the construct are to come.
    loops: u64,
    /// Whether the last loop was another one.
    inner: bool,
    before: Before,
    /// The names that are declared in it.
    names: Names<'a>,
}

impl<'a> Region<'a> {
    ghost use Rattle.std.specs.Prelude.{◌≡◌, OnOk};
    ghost use Rattle.c_grammar.specs.Shared.{behind, is_free, is_shared};
    ghost use Rattle.c_terminals.specs.Ahead.{ahead};
    ghost use Rattle.c_terminals.specs.Seen.{seen, seen_terminal};
    ghost use Rattle.c_written.specs.Shared.{seen_region};
    ghost use Rattle.c_written.specs.Spots.{all_kinds};

    // Whether it neither declares the name, nor the line gives each turn one.
    fn is_free(&self, line: &[PlacedLexeme<'_>], terminal: Terminal<'_, '_>) -> bool
        ensures { result ≡ is_free (all_kinds line.now) (seen_region self.now) (seen_terminal terminal.entry) }
    {
        match terminal {
            Terminal::Name(name) => !self.names.contains(name) && !is_own(name, line),
            _ => false,
        }
    }

    // Whether a token is the name of an inner loop that is free.
    fn is_shared(
        &self,
        line: &[PlacedLexeme<'_>],
        token: Token<'_, '_>,
        rest: Ahead<'_, '_, '_>,
    ) -> bool
        ensures { result ≡ is_shared (all_kinds line.now) (seen_region self.now) (seen token.entry) (ahead rest.entry) }
    {
        self.inner && self.before.is_in_head() && is_set(rest) && self.is_free(line, token.terminal)
    }

    fn go_behind(&mut self, token: Token<'a, '_>) -> Result<(), AllocError>
        ensures { OnOk result (seen_region self.new ≡ behind (seen_region self.old) (seen token.entry)) }
    {
        if let Terminal::Name(name) = token.terminal {
            if self.before.is_behind_type() {
                self.names.declare(name)?;
            }
        }
        if token.terminal.is_word(Word::For) {
            self.inner = self.loops == 0;
            self.loops = self.loops.saturating_sub(1);
        }
        self.before = self.before.behind(token);
        Ok(())
    }
}

// Whether the turns of the construct of a line share the name of a loop.
fn shares(
    alloc: Global,
    line: &[PlacedLexeme<'_>],
    tokens: &[Token<'_, '_>],
) -> Result<bool, AllocError>
    ensures { IfOk result (λ b. b ≡ shares (all_kinds line.now) (region_of (all_kinds line.now)) 0 (bare (seen_all tokens.now))) }
{
    let mut region = Region {
        loops: loops_on(line),
        inner: false,
        before: Before::Other,
        names: Names::new(alloc),
    };
    let mut depth = 0usize;
    let mut ahead = Ahead::new(tokens);
    'tokens: while let Some(token) = ahead.next() {
        if region.is_shared(line, token, ahead) {
            return Ok(true);
        }
        if opens_part(token) {
            depth += 1;
        } else if token.terminal.is_sign(Sign::CloseBrace) {
            if !goes_on(depth, ahead) {
                return Ok(false);
            }
            depth = depth.saturating_sub(1);
        } else if token.terminal.is_sign(Sign::CloseParen) {
            depth = depth.saturating_sub(1);
        } else if token.terminal.is_sign(Sign::Semicolon) && depth == 0 {
            return Ok(false);
        }
        region.go_behind(token)?;
    }
    Ok(false)
}

// Whether the name stands in the list of a map clause, and in no bound.
fn is_listed(name: &[u8], tokens: &[PlacedLexeme<'_>]) -> bool
    ensures { result ≡ is_listed name.now 0 false (all_kinds tokens.now) }
{
    let mut depth = 0usize;
    let mut map = false;
    let mut rest = tokens;
    'tokens: while let [token, behind @ ..] = rest {
        rest = behind;
        if opens_list(token.lexeme) {
            depth += 1;
        } else if closes_list(token.lexeme) {
            depth = depth.saturating_sub(1);
        } else if depth == 0 {
            map = is_name(token.lexeme, b"map");
        } else if map && (depth == 1 && is_name(token.lexeme, name)) {
            return true;
        }
    }
    false
}

// Whether the token, if it is a name, stands in the list of a map clause of the line.
fn maps_too(line: &[PlacedLexeme<'_>], lexeme: Lexeme<'_>) -> bool
    ensures { result ≡ maps_too (all_kinds line.now) (seen_lexeme lexeme.entry) }
{
    match lexeme {
        Lexeme::Name(name) => is_listed(name, line),
        _ => false,
    }
}

// Whether a name of a clause `firstprivate` is mapped on the line.
fn is_copied(line: &[PlacedLexeme<'_>]) -> bool
    ensures { result ≡ is_copied (all_kinds line.now) 0 false (all_kinds line.now) }
{
    let mut depth = 0usize;
    let mut own = false;
    let mut rest = line;
    'tokens: while let [token, behind @ ..] = rest {
        rest = behind;
        if opens_list(token.lexeme) {
            depth += 1;
        } else if closes_list(token.lexeme) {
            depth = depth.saturating_sub(1);
        } else if depth == 0 {
            own = is_name(token.lexeme, b"firstprivate");
        } else if own && maps_too(line, token.lexeme) {
            return true;
        }
    }
    false
}

fn shares_at(
    alloc: Global,
    terminal: Terminal<'_, '_>,
    behind: &[Token<'_, '_>],
) -> Result<bool, AllocError>
    ensures { IfOk result (λ b. b ≡ shares_at (seen_terminal terminal.entry) (bare (seen_all behind.now))) }
{
    match terminal {
        Terminal::Line(line) => {
            if is_copied(line.tokens()) || is_parted(line.tokens()) {
                return Ok(true);
            }
            if !is_combined(line.tokens()) {
                return Ok(false);
            }
            shares(alloc, line.tokens(), behind)
        }
        _ => Ok(false),
    }
}

/// The tokens with a clause that names nothing on the lines of constructs whose turns share the name of a loop, have a copy
/// of what the line maps, or sum up other cells of an array than it maps.
pub fn unshared<'a>(alloc: Global, tokens: &[Token<'a, '_>]) -> Result<Vec<Written<'a>>, AllocError>
    ensures { IfOk result (λ v. written_all v.items ≡ unshared (seen_all tokens.now)) }
{
    let mut done = Vec::new(alloc);
    let mut rest = tokens;
    'tokens: while let [token, behind @ ..] = rest {
        rest = behind;
        let lacks = shares_at(alloc, token.terminal, behind)?;
        done.push(marked(alloc, lacks, *token)?)?;
    }
    Ok(done)
}

// Notes the array that a token in so many blocks and those behind it declare.
fn note_array<'a>(
    names: &mut Vec<&'a [u8]>,
    depth: usize,
    token: Token<'a, '_>,
    rest: Ahead<'a, '_, '_>,
) -> Result<(), AllocError>
    ensures { OnOk result (texts names.new.items ≡ array_at depth (seen token.entry) (ahead rest.entry) (texts names.old.items)) }
{
    let mut ahead = rest;
    let Some(name) = ahead.next() else {
        return Ok(());
    };
    let Some(bracket) = ahead.next() else {
        return Ok(());
    };
    if depth != 0
        && token.terminal.is_word(Word::Uint64)
        && bracket.terminal.is_sign(Sign::OpenBracket)
    {
        if let Terminal::Name(text) = name.terminal {
            names.push(text)?;
        }
    }
    Ok(())
}

// The arrays that are declared in blocks.
fn block_arrays<'a>(alloc: Global, tokens: &[Token<'a, '_>]) -> Result<Vec<&'a [u8]>, AllocError>
    ensures { IfOk result (λ v. texts v.items ≡ block_arrays 0 [] (bare (seen_all tokens.now))) }
{
    let mut names = Vec::new(alloc);
    let mut depth = 0usize;
    let mut ahead = Ahead::new(tokens);
    'tokens: while let Some(token) = ahead.next() {
        note_array(&mut names, depth, token, ahead)?;
        depth = depth_behind(token, depth)?;
    }
    Ok(names)
}

// Whether the statement that begins there uses one of the names.
fn uses_one(names: &[&[u8]], tokens: &[Token<'_, '_>]) -> bool
    ensures { result ≡ uses_one (texts names.now) (bare (seen_all tokens.now)) }
{
    let mut rest = names;
    'names: while let [name, behind @ ..] = rest {
        rest = behind;
        if uses(name, tokens) {
            return true;
        }
    }
    false
}

fn waits_at(names: &[&[u8]], terminal: Terminal<'_, '_>, behind: &[Token<'_, '_>]) -> bool
    ensures { result ≡ waits_at (texts names.now) (seen_terminal terminal.entry) (bare (seen_all behind.now)) }
{
    match terminal {
        Terminal::Line(line) => has(b"nowait", line.tokens()) && uses_one(names, behind),
        _ => false,
    }
}

/// The tokens with a clause that names nothing on the lines of targets with `nowait` that use an array of a block.
pub fn awaited<'a>(alloc: Global, tokens: &[Token<'a, '_>]) -> Result<Vec<Written<'a>>, AllocError>
    ensures { IfOk result (λ v. written_all v.items ≡ awaited (seen_all tokens.now)) }
{
    let names = block_arrays(alloc, tokens)?;
    let mut done = Vec::new(alloc);
    let mut rest = tokens;
    'tokens: while let [token, behind @ ..] = rest {
        rest = behind;
        let lacks = waits_at(&names, token.terminal, behind);
        done.push(marked(alloc, lacks, *token)?)?;
    }
    Ok(done)
}

fn keeps_data(tokens: &[PlacedLexeme<'_>]) -> bool
    ensures { result ≡ keeps_data (all_kinds tokens.now) }
{
    match tokens {
        [_, _, target, word, ..] => {
            is_name(target.lexeme, b"target")
                && (is_name(word.lexeme, b"data") || is_name(word.lexeme, b"enter"))
        }
        _ => false,
    }
}

fn add_kept_on<'a>(names: &mut Vec<&'a [u8]>, terminal: Terminal<'a, '_>) -> Result<(), AllocError>
    ensures { OnOk result (texts names.new.items ≡ kept_on (seen_terminal terminal.entry) (texts names.old.items)) }
{
    if let Terminal::Line(line) = terminal {
        if terminal.is_directive() && keeps_data(line.tokens()) {
            return add_listed(names, line.tokens());
        }
    }
    Ok(())
}

// The names in the lists of lines behind which data stay on a device.
fn all_kept<'a>(alloc: Global, tokens: &[Token<'a, '_>]) -> Result<Vec<&'a [u8]>, AllocError>
    ensures { IfOk result (λ v. texts v.items ≡ all_kept (seen_all tokens.now) []) }
{
    let mut names = Vec::new(alloc);
    let mut rest = tokens;
    'tokens: while let [token, behind @ ..] = rest {
        rest = behind;
        add_kept_on(&mut names, token.terminal)?;
    }
    Ok(names)
}

fn maps(lexeme: Lexeme<'_>) -> bool
    ensures { result ≡ maps (seen_lexeme lexeme.entry) }
{
    is_name(lexeme, b"map") || is_name(lexeme, b"reduction")
}

// Whether the name stands in a clause by which a target has the variable itself.
fn is_mapped(name: &[u8], tokens: &[PlacedLexeme<'_>]) -> bool
    ensures { result ≡ is_mapped name.now 0 false (all_kinds tokens.now) }
{
    let mut depth = 0usize;
    let mut map = false;
    let mut rest = tokens;
    'tokens: while let [token, behind @ ..] = rest {
        rest = behind;
        if opens_list(token.lexeme) {
            depth += 1;
        } else if closes_list(token.lexeme) {
            depth = depth.saturating_sub(1);
        } else if depth == 0 {
            map = maps(token.lexeme);
        } else if map && is_name(token.lexeme, name) {
            return true;
        }
    }
    false
}

// Whether C copies one of the names for the target of a line, though a device may have it.
fn copies_one(
    names: &[&[u8]],
    kept: &[&[u8]],
    others: &[&[u8]],
    line: &[PlacedLexeme<'_>],
    tokens: &[Token<'_, '_>],
) -> bool
    requires { texts others.now ≡ listed at_begin (all_kinds line.now) [] }
    ensures { result ≡ copies_one (texts names.now) (texts kept.now) (all_kinds line.now) (bare (seen_all tokens.now)) }
{
    let mut rest = names;
    'names: while let [name, behind @ ..] = rest {
        rest = behind;
        if uses(name, tokens)
            && !is_mapped(name, line)
            && (is_among(kept, name) || is_among(others, name))
        {
            return true;
        }
    }
    false
}

fn copies_at(
    alloc: Global,
    names: &[&[u8]],
    kept: &[&[u8]],
    terminal: Terminal<'_, '_>,
    behind: &[Token<'_, '_>],
) -> Result<bool, AllocError>
    ensures { IfOk result (λ b. b ≡ copies_at (texts names.now) (texts kept.now) (seen_terminal terminal.entry) (bare (seen_all behind.now))) }
{
    match terminal {
        Terminal::Line(line) => {
            let mut others = Vec::new(alloc);
            add_listed(&mut others, line.tokens())?;
            Ok(copies_one(names, kept, &others, line.tokens(), behind))
        }
        _ => Ok(false),
    }
}

/// The tokens with a clause that names nothing on the lines of targets that use a boxed scalar of which C makes a copy for
/// them, while there may be another one on the device.
pub fn apart<'a>(alloc: Global, tokens: &[Token<'a, '_>]) -> Result<Vec<Written<'a>>, AllocError>
    ensures { IfOk result (λ v. written_all v.items ≡ apart (seen_all tokens.now)) }
{
    let names = boxes_of(alloc, tokens)?;
    let kept = all_kept(alloc, tokens)?;
    let mut done = Vec::new(alloc);
    let mut rest = tokens;
    'tokens: while let [token, behind @ ..] = rest {
        rest = behind;
        let lacks = copies_at(alloc, &names, &kept, token.terminal, behind)?;
        done.push(marked(alloc, lacks, *token)?)?;
    }
    Ok(done)
}
