//! Constructs inside a target: the line of one goes on that of the target, where both are one combined construct.

ghost use Rattle.std.specs.Prelude.{◌≡◌, ◌≤◌, ◌++◌, false, length, map, true, IfOk, OnOk};
ghost use Rattle.c_grammar.specs.Nesting.{are_inner, are_own, closes_block, construct_end, follows, has, has_construct, has_for, inner_at, is_between, is_for, is_if, is_last, is_mapped_on, is_misplaced, is_named, is_of_construct, is_of_outer, is_only, is_own, is_part, is_strange, join_lines, joined, joined_line, joined_tokens, joins, last_word, may_follow, moves, name_len, nested, sums_fit, sums_mapped, takes};
ghost use Rattle.c_grammar.specs.Presence.{before_end};
ghost use Rattle.directives.specs.Ahead.{seen_line};
ghost use Rattle.directives.specs.Seen.{is_whole, seen_lexeme};
ghost use Rattle.directives.specs.Spells.{kinds_of};
ghost use Rattle.c_written.specs.Forms.{all_placed};
ghost use Rattle.c_terminals.specs.Held.{seen_written, written_all};
ghost use Rattle.c_terminals.specs.Seen.{seen, seen_all, seen_terminal};
ghost use Rattle.c_written.specs.Spots.{all_kinds};

use crate::line_forms::{is_name, is_sign};
use crate::own_ifs::conditioned;
use crate::presence::{goes_on, is_else, is_mapped, is_target, opens_part, target_column};
use crate::spots::{closes_list, opens_list};
use c_terminals::{Terminal, Token, Written, WrittenTerminal};
use c_tokens::Sign;
use directives::{Lexeme, LineTokens, PlacedLexeme, Word, is_directive, same_lexeme};
use std::alloc::{AllocError, Global};

fn is_for(lexeme: Lexeme<'_>) -> bool
    ensures { result ≡ is_for (seen_lexeme lexeme.entry) }
{
    same_lexeme(Lexeme::Reserved(Word::For), lexeme)
}

// A word of the name of a combined construct, behind `target`.
fn is_part(lexeme: Lexeme<'_>) -> bool
    ensures { result ≡ is_part (seen_lexeme lexeme.entry) }
{
    is_name(lexeme, b"teams")
        || is_name(lexeme, b"distribute")
        || is_name(lexeme, b"parallel")
        || is_for(lexeme)
        || is_name(lexeme, b"simd")
        || is_name(lexeme, b"loop")
}

/// How many of them stand at the front.
pub fn name_len(tokens: &[PlacedLexeme<'_>]) -> usize
    ensures value { result ≡ name_len (all_kinds tokens.now) }
    ensures within { result ≤ length tokens.now }
{
    let mut len = 0usize;
    let mut rest = tokens;
    'tokens: while let [token, behind @ ..] = rest {
        if !is_part(token.lexeme) {
            return len;
        }
        len += 1;
        rest = behind;
    }
    len
}

// The last of them, behind a word.
fn last_word<'a>(word: Lexeme<'a>, tokens: &[PlacedLexeme<'a>]) -> Lexeme<'a>
    ensures { seen_lexeme result ≡ last_word (seen_lexeme word.entry) (all_kinds tokens.now) }
{
    let mut last = word;
    let mut rest = tokens;
    'tokens: while let [token, behind @ ..] = rest {
        if !is_part(token.lexeme) {
            return last;
        }
        last = token.lexeme;
        rest = behind;
    }
    last
}

// Whether a name goes on with the second word behind the first, on a line of its own.
fn may_follow(word: Lexeme<'_>, next: Lexeme<'_>) -> bool
    ensures { result ≡ may_follow (seen_lexeme word.entry) (seen_lexeme next.entry) }
{
    if is_name(word, b"target") {
        is_name(next, b"teams") || is_name(next, b"parallel") || is_name(next, b"simd")
    } else if is_name(word, b"teams") {
        is_name(next, b"distribute") || is_name(next, b"loop")
    } else {
        is_name(word, b"parallel") && (is_for(next) || is_name(next, b"loop"))
    }
}

pub fn has(word: &[u8], tokens: &[PlacedLexeme<'_>]) -> bool
    ensures { result ≡ has word.now (all_kinds tokens.now) }
{
    let mut rest = tokens;
    'tokens: while let [token, behind @ ..] = rest {
        if is_name(token.lexeme, word) {
            return true;
        }
        rest = behind;
    }
    false
}

fn has_for(tokens: &[PlacedLexeme<'_>]) -> bool
    ensures { result ≡ has_for (all_kinds tokens.now) }
{
    let mut rest = tokens;
    'tokens: while let [token, behind @ ..] = rest {
        if is_for(token.lexeme) {
            return true;
        }
        rest = behind;
    }
    false
}

// Whether a construct with these words takes a clause with this one.
fn takes(words: &[PlacedLexeme<'_>], lexeme: Lexeme<'_>) -> bool
    ensures { result ≡ takes (all_kinds words.now) (seen_lexeme lexeme.entry) }
{
    if is_name(lexeme, b"collapse") {
        has(b"distribute", words) || has_for(words) || has(b"simd", words) || has(b"loop", words)
    } else if is_name(lexeme, b"num_teams") || is_name(lexeme, b"thread_limit") {
        has(b"teams", words)
    } else if is_name(lexeme, b"num_threads") {
        has(b"parallel", words)
    } else if is_name(lexeme, b"schedule") {
        has_for(words)
    } else if is_name(lexeme, b"simdlen") || is_name(lexeme, b"safelen") {
        has(b"simd", words)
    } else if is_name(lexeme, b"default") || is_name(lexeme, b"shared") {
        has(b"teams", words) || has(b"parallel", words)
    } else if is_name(lexeme, b"reduction") {
        has(b"teams", words)
            || has(b"parallel", words)
            || has(b"simd", words)
            || has(b"loop", words)
    } else {
        is_name(lexeme, b"firstprivate") || is_name(lexeme, b"private")
    }
}

// Whether a target by itself does not take a clause with this word.
fn is_of_construct(lexeme: Lexeme<'_>) -> bool
    ensures { result ≡ is_of_construct (seen_lexeme lexeme.entry) }
{
    is_name(lexeme, b"collapse")
        || is_name(lexeme, b"num_teams")
        || is_name(lexeme, b"num_threads")
        || is_name(lexeme, b"schedule")
        || is_name(lexeme, b"simdlen")
        || is_name(lexeme, b"safelen")
        || is_name(lexeme, b"default")
        || is_name(lexeme, b"shared")
        || is_name(lexeme, b"reduction")
}

// Whether a clause with this word would be of the construct inside too, where it stood on one line with it.
fn is_of_outer(lexeme: Lexeme<'_>) -> bool
    ensures { result ≡ is_of_outer (seen_lexeme lexeme.entry) }
{
    is_name(lexeme, b"private")
}

/// The word of a condition.
pub fn is_if(lexeme: Lexeme<'_>) -> bool
    ensures { result ≡ is_if (seen_lexeme lexeme.entry) }
{
    same_lexeme(Lexeme::Reserved(Word::If), lexeme)
}

// Whether the token is one of these words.
fn is_named(words: &[PlacedLexeme<'_>], lexeme: Lexeme<'_>) -> bool
    ensures { result ≡ is_named (all_kinds words.now) (seen_lexeme lexeme.entry) }
{
    match lexeme {
        Lexeme::Name(word) => has(word, words),
        _ => false,
    }
}

// Whether a condition is for a part that a target's construct with these words does not have; behind the word `if`.
fn is_misplaced(words: &[PlacedLexeme<'_>], behind: &[PlacedLexeme<'_>]) -> bool
    ensures { result ≡ is_misplaced (all_kinds words.now) (all_kinds behind.now) }
{
    match behind {
        [_, part, colon, ..] => {
            is_sign(colon.lexeme, Sign::Colon)
                && !(is_name(part.lexeme, b"target") || is_named(words, part.lexeme))
        }
        _ => false,
    }
}

// Whether a clause of a target's line is neither its own, nor one of a construct with these words.
fn is_strange(words: &[PlacedLexeme<'_>], lexeme: Lexeme<'_>, behind: &[PlacedLexeme<'_>]) -> bool
    ensures { result ≡ is_strange (all_kinds words.now) (seen_lexeme lexeme.entry) (all_kinds behind.now) }
{
    is_of_outer(lexeme)
        || (is_if(lexeme) && is_misplaced(words, behind))
        || (is_of_construct(lexeme) && !takes(words, lexeme))
}

// What stands between clauses.
fn is_between(lexeme: Lexeme<'_>) -> bool
    ensures { result ≡ is_between (seen_lexeme lexeme.entry) }
{
    is_sign(lexeme, Sign::Comma) || same_lexeme(Lexeme::Ended, lexeme)
}

// Whether there are clauses alone that a construct with these words takes.
fn are_inner(words: &[PlacedLexeme<'_>], tokens: &[PlacedLexeme<'_>]) -> bool
    ensures { result ≡ are_inner (all_kinds words.now) 0 (all_kinds tokens.now) }
{
    let mut depth = 0usize;
    let mut rest = tokens;
    'tokens: while let [token, behind @ ..] = rest {
        rest = behind;
        if opens_list(token.lexeme) {
            depth += 1;
        } else if closes_list(token.lexeme) {
            depth = depth.saturating_sub(1);
        } else if depth == 0 && !(takes(words, token.lexeme) || is_between(token.lexeme)) {
            return false;
        }
    }
    true
}

// Whether the clauses of a target's line are its own, or those of a construct with these words.
fn are_own(words: &[PlacedLexeme<'_>], tokens: &[PlacedLexeme<'_>]) -> bool
    ensures { result ≡ are_own (all_kinds words.now) 0 (all_kinds tokens.now) }
{
    let mut depth = 0usize;
    let mut rest = tokens;
    'tokens: while let [token, behind @ ..] = rest {
        rest = behind;
        if opens_list(token.lexeme) {
            depth += 1;
        } else if closes_list(token.lexeme) {
            depth = depth.saturating_sub(1);
        } else if depth == 0 && is_strange(words, token.lexeme, behind) {
            return false;
        }
    }
    true
}

// Whether the token, if it is a name, stands in a map clause of the line.
fn is_mapped_on(target: &[PlacedLexeme<'_>], lexeme: Lexeme<'_>) -> bool
    ensures { result ≡ is_mapped_on (all_kinds target.now) (seen_lexeme lexeme.entry) }
{
    match lexeme {
        Lexeme::Name(name) => is_mapped(name, target),
        _ => true,
    }
}

// Whether the names of the reduction clauses of a line inside stand in map clauses of the line of the target.
fn sums_mapped(target: &[PlacedLexeme<'_>], tokens: &[PlacedLexeme<'_>]) -> bool
    ensures { result ≡ sums_mapped (all_kinds target.now) 0 false (all_kinds tokens.now) }
{
    let mut depth = 0usize;
    let mut sum = false;
    let mut rest = tokens;
    'tokens: while let [token, behind @ ..] = rest {
        rest = behind;
        if opens_list(token.lexeme) {
            depth += 1;
        } else if closes_list(token.lexeme) {
            depth = depth.saturating_sub(1);
        } else if depth == 0 {
            sum = is_name(token.lexeme, b"reduction");
        } else if sum && depth == 1 && !is_mapped_on(target, token.lexeme) {
            return false;
        }
    }
    true
}

// Whether what the line of the target sums up is so for each thread of the construct on the line inside, whose sums it maps.
fn sums_fit(target: &[PlacedLexeme<'_>], tokens: &[PlacedLexeme<'_>]) -> bool
    ensures { result ≡ sums_fit (all_kinds target.now) (all_kinds tokens.now) }
{
    (!has(b"reduction", target)
        || has(b"reduction", tokens)
        || is_name(construct_end(target), b"parallel"))
        && sums_mapped(target, tokens)
}

// Whether a construct with these tokens goes on with the name that ends so.
fn follows(last: Lexeme<'_>, tokens: &[PlacedLexeme<'_>]) -> bool
    ensures { result ≡ follows (seen_lexeme last.entry) (all_kinds tokens.now) }
{
    let len = name_len(tokens);
    match tokens {
        [word, ..] => may_follow(last, word.lexeme) && are_inner(&tokens[..len], &tokens[len..]),
        [] => false,
    }
}

// Whether what stands behind the word target is its own.
fn is_own(tokens: &[PlacedLexeme<'_>]) -> bool
    ensures { result ≡ is_own (all_kinds tokens.now) }
{
    let len = name_len(tokens);
    are_own(&tokens[..len], &tokens[len..])
}

// The last word of the name of a target's construct.
fn construct_end<'a>(tokens: &[PlacedLexeme<'a>]) -> Lexeme<'a>
    ensures { seen_lexeme result ≡ construct_end (all_kinds tokens.now) }
{
    match tokens {
        [_, _, word, behind @ ..] => last_word(word.lexeme, behind),
        _ => Lexeme::Ended,
    }
}

// Whether the construct on the second line belongs to the target on the first.
fn join_lines(target: &LineTokens<'_>, inner: &LineTokens<'_>) -> bool
    ensures { result ≡ join_lines (kinds_of (seen_line target.now)) (kinds_of (seen_line inner.now)) }
{
    let tokens = target.tokens();
    if !is_directive(target) || !is_target(tokens) || !is_directive(inner) {
        return false;
    }
    if !is_own(&tokens[3..]) {
        return false;
    }
    let words = inner.tokens();
    let [_, _, behind @ ..] = words else {
        return false;
    };
    follows(construct_end(tokens), behind) && sums_fit(tokens, words)
}

// All but the end of a line, at this column.
fn inner_at<'a>(
    alloc: Global,
    column: usize,
    tokens: &[PlacedLexeme<'a>],
) -> Result<Vec<PlacedLexeme<'a>>, AllocError>
    ensures { IfOk result (λ v. all_placed v.items ≡ inner_at column (all_placed tokens.now)) }
{
    let mut put = Vec::new(alloc);
    let mut rest = tokens;
    'tokens: while let [token, behind @ ..] = rest {
        rest = behind;
        if !behind.is_empty() {
            put.push(PlacedLexeme {
                lexeme: token.lexeme,
                column,
            })?;
        }
    }
    Ok(put)
}

/// Adds the tokens of a line with others before its end.
pub fn put_before_end<'a>(
    put: &mut Vec<PlacedLexeme<'a>>,
    others: &[PlacedLexeme<'a>],
    tokens: &[PlacedLexeme<'a>],
) -> Result<(), AllocError>
    ensures { OnOk result (all_placed put.new.items ≡ all_placed put.old.items ++ before_end (all_placed others.now) (all_placed tokens.now)) }
{
    let mut rest = tokens;
    'tokens: while let [token, behind @ ..] = rest {
        rest = behind;
        if behind.is_empty() {
            put.extend_from_slice(others)?;
        }
        put.push(*token)?;
    }
    Ok(())
}

// The tokens of a target's line with the words and the clauses of a construct's line.
fn joined_tokens<'a>(
    alloc: Global,
    tokens: &[PlacedLexeme<'a>],
    inner: &[PlacedLexeme<'a>],
) -> Result<Vec<PlacedLexeme<'a>>, AllocError>
    requires tokens { 3 ≤ length tokens.now }
    requires inner { 2 ≤ length inner.now }
    requires whole { is_whole (all_placed inner.now) ≡ true }
    ensures { IfOk result (λ v. all_placed v.items ≡ joined_tokens (all_kinds tokens.now) (all_kinds inner.now) (all_placed tokens.now) (all_placed inner.now)) }
{
    let moved = inner_at(alloc, target_column(tokens), &inner[2..])?;
    let (words, clauses) = moved.split_at(name_len(&moved));
    let (name, behind) = tokens.split_at(3 + name_len(&tokens[3..]));
    let mut put = Vec::from_slice(alloc, name)?;
    put.extend_from_slice(words)?;
    put_before_end(&mut put, clauses, behind)?;
    Ok(put)
}

fn joined_line<'a>(
    alloc: Global,
    target: &LineTokens<'a>,
    inner: &LineTokens<'a>,
) -> Result<LineTokens<'a>, AllocError>
    requires { join_lines (kinds_of (seen_line target.now)) (kinds_of (seen_line inner.now)) ≡ true }
    ensures { IfOk result (λ l. seen_line l ≡ joined_line (kinds_of (seen_line target.now)) (kinds_of (seen_line inner.now)) (seen_line target.now) (seen_line inner.now)) }
{
    let own = conditioned(alloc, target.tokens())?;
    let tokens = joined_tokens(alloc, &own, inner.tokens())?;
    Ok(LineTokens::of(tokens))
}

/// Whether the second token is the line of a construct that belongs to the target on the first.
pub fn joins(held: Token<'_, '_>, next: Token<'_, '_>) -> bool
    ensures { result ≡ joins (seen held.entry).terminal (seen next.entry).terminal }
{
    match (held.terminal, next.terminal) {
        (Terminal::Line(target), Terminal::Line(inner)) => join_lines(target, inner),
        _ => false,
    }
}

// The line of the target with what stands on that of the construct inside.
fn joined<'a>(
    alloc: Global,
    held: Token<'a, '_>,
    next: Token<'a, '_>,
) -> Result<Written<'a>, AllocError>
    requires { joins (seen held).terminal (seen next).terminal ≡ true }
    ensures { IfOk result (λ w. seen_written w ≡ joined (seen held.entry) (seen next.entry)) }
{
    match (held.terminal, next.terminal) {
        (Terminal::Line(target), Terminal::Line(inner)) => Ok(Written {
            terminal: WrittenTerminal::Line(joined_line(alloc, target, inner)?),
            line: held.line,
            column: held.column,
        }),
        _ => Written::of(alloc, held),
    }
}

// Behind the statement its block ends.
fn closes_block(behind: &[Token<'_, '_>]) -> bool
    ensures { result ≡ closes_block (seen_all behind.now) }
{
    match behind {
        [next, ..] => next.terminal.is_sign(Sign::CloseBrace),
        [] => false,
    }
}

// Whether the statement that begins there is the last one of its block.
fn is_last(tokens: &[Token<'_, '_>]) -> bool
    ensures { result ≡ is_last 0 (seen_all tokens.now) }
{
    let mut depth = 0usize;
    let mut rest = tokens;
    'tokens: while let [token, behind @ ..] = rest {
        rest = behind;
        if token.terminal.is_directive() {
            continue;
        }
        if opens_part(*token) {
            depth += 1;
        } else if token.terminal.is_sign(Sign::CloseBrace) {
            if !goes_on(depth, behind) {
                return closes_block(behind);
            }
            depth = depth.saturating_sub(1);
        } else if token.terminal.is_sign(Sign::CloseParen) {
            depth = depth.saturating_sub(1);
        } else if token.terminal.is_sign(Sign::Semicolon) && depth == 0 && !is_else(behind) {
            return closes_block(behind);
        }
    }
    false
}

// Whether a loop begins there, which the block has alone.
fn is_only(tokens: &[Token<'_, '_>]) -> bool
    ensures { result ≡ is_only (seen_all tokens.now) }
{
    let mut rest = tokens;
    'tokens: while let [token, behind @ ..] = rest {
        if !token.terminal.is_directive() {
            return token.terminal.is_word(Word::For) && is_last(behind);
        }
        rest = behind;
    }
    false
}

fn has_construct(held: Token<'_, '_>, tokens: &[Token<'_, '_>]) -> bool
    ensures { result ≡ has_construct (seen held.entry).terminal (seen_all tokens.now) }
{
    match tokens {
        [next, behind @ ..] => joins(held, *next) && is_only(behind),
        [] => false,
    }
}

/// Whether the block of a target begins, which has a construct and its loop alone.
pub fn moves(held: Token<'_, '_>, next: Token<'_, '_>, behind: &[Token<'_, '_>]) -> bool
    ensures { result ≡ moves (seen held.entry).terminal (seen next.entry) (seen_all behind.now) }
{
    next.terminal.is_sign(Sign::OpenBrace) && has_construct(held, behind)
}

/// The tokens, with each target and the construct inside it on one line.
pub fn nested<'a>(alloc: Global, tokens: &[Token<'a, '_>]) -> Result<Vec<Written<'a>>, AllocError>
    ensures { IfOk result (λ v. written_all v.items ≡ nested (seen_all tokens.now)) }
{
    let mut done = Vec::new(alloc);
    let [first, behind @ ..] = tokens else {
        return Ok(done);
    };
    let mut held = Written::of(alloc, *first)?;
    let mut rest = behind;
    'tokens: while let [next, behind @ ..] = rest {
        rest = behind;
        if joins(held.token(), *next) {
            held = joined(alloc, held.token(), *next)?;
        } else if moves(held.token(), *next, behind) {
            done.push(Written::of(alloc, *next)?)?;
        } else {
            done.push(held)?;
            held = Written::of(alloc, *next)?;
        }
    }
    done.push(held)?;
    Ok(done)
}
