//! Lines whose conditions are constants: clauses `if` are left out, and lines of what the host does.

ghost use Rattle.std.specs.Prelude.{◌≡◌, ◌∷◌, ◌++◌, ◌||◌, codes, false, IfOk, OnOk};
ghost use Rattle.std.specs.Option.{option_map};
ghost use Rattle.c_grammar.specs.Blocks.{bare};
ghost use Rattle.c_grammar.specs.Choices.{is_setting};
ghost use Rattle.c_grammar.specs.Conditions.{decided, decided_item, first_word, heading, is_counting, is_outer, is_same_region, is_set, line_outcome, may_go, outcome, own_len, sets_outer, with_words};
ghost use Rattle.c_grammar.specs.Presence.{is_word};
ghost use Rattle.c_grammar.specs.Updates.{begins_index};
ghost use Rattle.directives.specs.Ahead.{seen_line};
ghost use Rattle.directives.specs.Seen.{seen_lexeme, seen_placed};
ghost use Rattle.directives.specs.Spells.{kinds_of};
ghost use Rattle.c_terminals.specs.Ahead.{ahead};
ghost use Rattle.c_terminals.specs.Held.{written_all};
ghost use Rattle.c_terminals.specs.Names.{seen_names};
ghost use Rattle.c_terminals.specs.Seen.{seen, seen_all, seen_terminal};
ghost use Rattle.c_written.specs.Forms.{all_placed};
ghost use Rattle.c_written.specs.Decided.{put_list};
ghost use Rattle.c_written.specs.Ifs.{seen_clauses, seen_heading};
ghost use Rattle.c_written.specs.Spots.{all_kinds};

use crate::conditions::{
    Clause, Heading, Part, are_idle, are_orderly, are_read, behind_words, clauses, front_words,
    is_off, is_region, kept,
};
use crate::line_forms::is_name;
use crate::nesting::name_len;
use crate::presence::{is_mapped, opens_part};
use crate::privates::declared;
use crate::used::goes_on;
use c_terminals::{Ahead, Names, Terminal, Token, Written, WrittenTerminal};
use c_tokens::Sign;
use directives::{Lexeme, LineTokens, PlacedLexeme};
use std::alloc::{AllocError, Global};

// ---- the region

// A sign that assigns.
fn is_setting(terminal: Terminal<'_, '_>) -> bool
    ensures { result ≡ is_setting (seen_terminal terminal.entry) }
{
    match terminal {
        Terminal::Sign(sign) => match sign {
            Sign::Equal
            | Sign::PlusEqual
            | Sign::MinusEqual
            | Sign::StarEqual
            | Sign::SlashEqual
            | Sign::PercentEqual
            | Sign::AmpersandEqual
            | Sign::BarEqual
            | Sign::CaretEqual
            | Sign::ShiftLeftEqual
            | Sign::ShiftRightEqual => true,
            _ => false,
        },
        _ => false,
    }
}

fn is_counting(token: Token<'_, '_>) -> bool
    ensures { result ≡ is_counting (seen token.entry) }
{
    token.terminal.is_sign(Sign::PlusPlus) || token.terminal.is_sign(Sign::MinusMinus)
}

// Whether a scalar is assigned, where these tokens stand behind its name.
fn is_set(rest: Ahead<'_, '_, '_>) -> bool
    ensures { result ≡ is_set (ahead rest.entry) }
{
    let mut ahead = rest;
    match ahead.next() {
        Some(token) => is_setting(token.terminal) || is_counting(token),
        None => false,
    }
}

fn begins_index(rest: Ahead<'_, '_, '_>) -> bool
    ensures { result ≡ begins_index (ahead rest.entry) }
{
    let mut ahead = rest;
    match ahead.next() {
        Some(token) => token.terminal.is_sign(Sign::OpenBracket),
        None => false,
    }
}

// A name that is none of these, and stands in no map clause of the line.
fn is_outer(names: &Names<'_>, line: &[PlacedLexeme<'_>], terminal: Terminal<'_, '_>) -> bool
    ensures { result ≡ is_outer (seen_names names.now) (all_kinds line.now) (seen_terminal terminal.entry) }
{
    match terminal {
        Terminal::Name(name) => !names.contains(name) && !is_mapped(name, line),
        _ => false,
    }
}

// Whether the statement that begins there assigns such a scalar.
fn sets_outer(names: &Names<'_>, line: &[PlacedLexeme<'_>], tokens: &[Token<'_, '_>]) -> bool
    ensures { result ≡ sets_outer (seen_names names.now) (all_kinds line.now) false 0 (bare (seen_all tokens.now)) }
{
    let mut depth = 0usize;
    let mut counts = false;
    let mut ahead = Ahead::new(tokens);
    'tokens: while let Some(token) = ahead.next() {
        if is_outer(names, line, token.terminal)
            && (is_set(ahead) || (counts && !begins_index(ahead)))
        {
            return true;
        }
        if opens_part(token) {
            depth += 1;
        } else if token.terminal.is_sign(Sign::CloseBrace) {
            if !goes_on(depth, ahead) {
                return false;
            }
            depth = depth.saturating_sub(1);
        } else if token.terminal.is_sign(Sign::CloseParen) {
            depth = depth.saturating_sub(1);
        } else if token.terminal.is_sign(Sign::Semicolon) && depth == 0 {
            return false;
        }
        counts = is_counting(token);
    }
    false
}

fn is_same_region(
    alloc: Global,
    line: &[PlacedLexeme<'_>],
    behind: &[Token<'_, '_>],
) -> Result<bool, AllocError>
    ensures { IfOk result (λ b. b ≡ is_same_region (all_kinds line.now) (bare (seen_all behind.now))) }
{
    let names = declared(alloc, behind)?;
    Ok(!sets_outer(&names, line, behind))
}

// ---- the line

fn is_of_two(lexeme: Lexeme<'_>) -> bool
    ensures { result ≡ (is_word (codes "data") (seen_lexeme lexeme.entry) || is_word (codes "update") (seen_lexeme lexeme.entry)) }
{
    is_name(lexeme, b"data") || is_name(lexeme, b"update")
}

fn is_of_three(lexeme: Lexeme<'_>) -> bool
    ensures { result ≡ (is_word (codes "enter") (seen_lexeme lexeme.entry) || is_word (codes "exit") (seen_lexeme lexeme.entry)) }
{
    is_name(lexeme, b"enter") || is_name(lexeme, b"exit")
}

/// How many words name the directive, with those of other directives of a target.
fn own_len(tokens: &[PlacedLexeme<'_>]) -> usize
    ensures { result ≡ own_len (all_kinds tokens.now) }
{
    match tokens {
        [_, next, _, ..] => {
            if is_of_two(next.lexeme) {
                2
            } else if is_of_three(next.lexeme) {
                3
            } else {
                1
            }
        }
        [_, ..] => 1,
        [] => 0,
    }
}

/// The words of a directive, with these tokens behind the words `pragma omp`.
fn heading<'l, 'a>(tokens: &'l [PlacedLexeme<'a>]) -> Heading<'l, 'a>
    ensures { seen_heading result ≡ heading (all_kinds tokens.now) }
{
    let len = own_len(tokens);
    let behind = behind_words(len, tokens);
    let parts = if len == 1 { name_len(behind) } else { 0 };
    Heading {
        own: front_words(len, tokens),
        parts: front_words(parts, behind),
    }
}

// Whether the line may be left out, which has these other clauses.
fn may_go(
    alloc: Global,
    heading: Heading<'_, '_>,
    clauses: &[Clause<'_>],
    rest: &[PlacedLexeme<'_>],
    line: &[PlacedLexeme<'_>],
    behind: &[Token<'_, '_>],
) -> Result<bool, AllocError>
    ensures { IfOk result (λ b. b ≡
        may_go (seen_heading heading.entry) (seen_clauses clauses.now) (all_kinds rest.now) (all_kinds line.now) (bare (seen_all behind.now))) }
{
    if !are_orderly(heading.parts, clauses) || !are_idle(rest) {
        return Ok(false);
    }
    if !is_region(heading.own) {
        return Ok(true);
    }
    is_same_region(alloc, line, behind)
}

fn with_words<'a>(
    alloc: Global,
    first: PlacedLexeme<'a>,
    second: PlacedLexeme<'a>,
    rest: &[PlacedLexeme<'a>],
) -> Result<Vec<PlacedLexeme<'a>>, AllocError>
    ensures { IfOk result (λ v. all_placed v.items ≡ seen_placed first.entry ∷ seen_placed second.entry ∷ all_placed rest.now) }
{
    let mut put = Vec::new(alloc);
    put.push(first)?;
    put.push(second)?;
    put.extend_from_slice(rest)?;
    Ok(put)
}

// The line with these words, and these tokens behind them, if it is not left out.
fn outcome<'a>(
    alloc: Global,
    line: &LineTokens<'a>,
    first: PlacedLexeme<'a>,
    second: PlacedLexeme<'a>,
    rest: &[PlacedLexeme<'a>],
    behind: &[Token<'_, '_>],
) -> Result<Option<LineTokens<'a>>, AllocError>
    requires { seen_line line.now ≡ seen_placed first ∷ seen_placed second ∷ all_placed rest.now }
    ensures { IfOk result (λ o. option_map seen_line o ≡ with_words (seen_placed first.entry) (seen_placed second.entry)
        (outcome (all_placed rest.now) (kinds_of (seen_line line.now)) (bare (seen_all behind.now)))) }
{
    let tokens = line.tokens();
    let heading = heading(rest);
    let clauses = clauses(alloc, heading, rest)?;
    if !are_read(&clauses) {
        return Ok(Some(line.copy(alloc)?));
    }
    let kept = kept(alloc, heading, rest)?;
    if !is_off(Part::Target, &clauses) {
        return Ok(Some(LineTokens::of(with_words(alloc, first, second, &kept)?)));
    }
    let others = behind_words(heading.own.len() + heading.parts.len(), &kept);
    if may_go(alloc, heading, &clauses, others, tokens, behind)? {
        return Ok(None);
    }
    Ok(Some(line.copy(alloc)?))
}

fn begins_target(tokens: &[PlacedLexeme<'_>]) -> bool
    ensures { result ≡ first_word (all_placed tokens.now) }
{
    match tokens {
        [word, ..] => is_name(word.lexeme, b"target"),
        [] => false,
    }
}

// What becomes of a line, if it is not left out.
fn line_outcome<'a>(
    alloc: Global,
    line: &LineTokens<'a>,
    behind: &[Token<'_, '_>],
) -> Result<Option<LineTokens<'a>>, AllocError>
    ensures { IfOk result (λ o. option_map seen_line o ≡
        line_outcome (seen_line line.now) (kinds_of (seen_line line.now)) (bare (seen_all behind.now))) }
{
    let tokens = line.tokens();
    let [first, second, rest @ ..] = tokens else {
        return Ok(Some(line.copy(alloc)?));
    };
    if begins_target(rest) {
        return outcome(alloc, line, *first, *second, rest, behind);
    }
    Ok(Some(line.copy(alloc)?))
}

// ---- all tokens

// The token, or its line without clauses `if`, if it is not left out.
fn decided_token<'a>(
    alloc: Global,
    token: Token<'a, '_>,
    behind: &[Token<'a, '_>],
) -> Result<Option<Written<'a>>, AllocError>
    ensures { IfOk result (λ o. put_list o ≡
        decided_item (seen token.entry) (seen token.entry).terminal (bare (seen_all behind.now))) }
{
    if let Terminal::Line(line) = token.terminal {
        if token.terminal.is_directive() {
            let Some(put) = line_outcome(alloc, line, behind)? else {
                return Ok(None);
            };
            return Ok(Some(Written {
                terminal: WrittenTerminal::Line(put),
                line: token.line,
                column: token.column,
            }));
        }
    }
    Ok(Some(Written::of(alloc, token)?))
}

// Adds what becomes of the token.
fn put_decided<'a>(
    alloc: Global,
    done: &mut Vec<Written<'a>>,
    token: Token<'a, '_>,
    behind: &[Token<'a, '_>],
) -> Result<(), AllocError>
    ensures { OnOk result (written_all done.new.items ≡
        written_all done.old.items ++ decided_item (seen token.entry) (seen token.entry).terminal (bare (seen_all behind.now))) }
{
    if let Some(put) = decided_token(alloc, token, behind)? {
        done.push(put)?;
    }
    Ok(())
}

/// The tokens without clauses `if` that are constants, and without the lines that say nothing of the host.
pub fn decided<'a>(alloc: Global, tokens: &[Token<'a, '_>]) -> Result<Vec<Written<'a>>, AllocError>
    ensures { IfOk result (λ v. written_all v.items ≡ decided (seen_all tokens.now)) }
{
    let mut done = Vec::new(alloc);
    let mut rest = tokens;
    'tokens: while let [token, behind @ ..] = rest {
        rest = behind;
        put_decided(alloc, &mut done, *token, behind)?;
    }
    Ok(done)
}
