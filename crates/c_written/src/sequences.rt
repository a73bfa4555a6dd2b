//! Several constructs inside a target, one after the other: each of them, and each block and loop between them, is a target.

ghost use Rattle.std.specs.Prelude.{◌≡◌, ◌≤◌, ◌<◌, ◌+◌, ◌^◌, ◌++◌, ◌∷◌, ◌||◌, codes, false, true, None, Some, IfOk, IfSome, OnOk};
ghost use Rattle.c_grammar.specs.Nesting.{has};
ghost use Rattle.c_grammar.specs.Sequences as sequences;
ghost use Rattle.c_grammar.specs.Sequences.{begins_block, begins_loop, begun, between, construct, data_line, data_tokens, ended, fits, goes_to, has_clause, has_if, has_teams, head_closed, holds, in_head, in_parts, is_of_data, lead, left, may_part, of_data, open_behind, opened, parts, parts_line, passed, passing, step};
ghost use Rattle.directives.specs.Ahead.{seen_line};
ghost use Rattle.directives.specs.Seen.{seen_lexeme};
ghost use Rattle.directives.specs.Spells.{kinds_of};
ghost use Rattle.c_written.specs.Forms.{all_placed};
ghost use Rattle.c_written.specs.Sequences.{IsWithin, opens_at, opens_in, seen_at, seen_inside, seen_next, with_parts};
ghost use Rattle.c_written.specs.Spots.{all_kinds};
ghost use Rattle.c_terminals.specs.Held.{written_all};
ghost use Rattle.c_terminals.specs.Seen.{seen, seen_all};

use crate::blocks::is_atomic_line;
use crate::line_forms::is_name;
use crate::nesting::{has, joins, moves, name_len};
use crate::presence::{goes_on, is_else, is_target, opens_part};
use crate::spots::{closes_list, opens_list};
use c_terminals::{Terminal, Token, Written, WrittenTerminal};
use c_tokens::Sign;
use directives::{Lexeme, LineTokens, PlacedLexeme, Word, is_directive, same_lexeme};
use std::alloc::{AllocError, Global};

/// So many blocks may be open around a construct.
const MOST_BLOCKS: usize = 16;

/// Where a token of a target stands, with how many blocks are open.
#[derive(Clone, Copy)]
pub enum At {
    /// Before a statement.
    Between(usize),
    /// Before the brace behind the head of a loop with constructs.
    Opening(usize),
    /// In the head of such a loop, with so many brackets.
    Head(usize, usize),
    /// In a construct, block or loop that is a target by itself, with so many parts.
    Passing(usize, usize),
}

/// Where the next token stands; or the target is over, or is none that can be taken apart.
#[derive(Clone, Copy)]
pub enum Next {
    On(At),
    Over,
    Stuck,
}

/// The line of a target that is taken apart, and where a token in it stands.
#[derive(Clone, Copy)]
pub struct Inside<'a, 'l> {
    pub target: Token<'a, 'l>,
    pub at: At,
}

// Whether a clause with the word stands there.
fn has_clause(word: &[u8], tokens: &[PlacedLexeme<'_>]) -> bool
    ensures { result ≡ has_clause word.now 0 (all_kinds tokens.now) }
{
    let mut depth = 0usize;
    let mut rest = tokens;
    'tokens: while let [token, behind @ ..] = rest {
        rest = behind;
        if opens_list(token.lexeme) {
            depth += 1;
        } else if closes_list(token.lexeme) {
            depth = depth.saturating_sub(1);
        } else if depth == 0 && is_name(token.lexeme, word) {
            return true;
        }
    }
    false
}

fn has_if(tokens: &[PlacedLexeme<'_>]) -> bool
    ensures { result ≡ has_if (all_kinds tokens.now) }
{
    let mut rest = tokens;
    'tokens: while let [token, behind @ ..] = rest {
        if same_lexeme(Lexeme::Reserved(Word::If), token.lexeme) {
            return true;
        }
        rest = behind;
    }
    false
}

// Whether the line has a clause with which its target is not taken apart.
fn is_bound(tokens: &[PlacedLexeme<'_>]) -> bool
    ensures { result ≡ (has_clause (codes "nowait") 0 (all_kinds tokens.now) || has_clause (codes "depend") 0 (all_kinds tokens.now) ||
        has_if (all_kinds tokens.now) || has (codes "always") (all_kinds tokens.now)) }
{
    has_clause(b"nowait", tokens)
        || has_clause(b"depend", tokens)
        || has_if(tokens)
        || has(b"always", tokens)
}

// Whether it is the line of a target that may be taken apart.
fn may_part(line: &LineTokens<'_>) -> bool
    ensures { result ≡ may_part (kinds_of (seen_line line.now)) }
{
    let tokens = line.tokens();
    let [_, _, _, behind @ ..] = tokens else {
        return false;
    };
    is_directive(line) && is_target(tokens) && name_len(behind) == 0 && !is_bound(tokens)
}

fn parts_line(token: Token<'_, '_>) -> bool
    ensures { result ≡ parts_line (seen token.entry).terminal }
{
    match token.terminal {
        Terminal::Line(line) => may_part(line),
        _ => false,
    }
}

fn is_of_data(lexeme: Lexeme<'_>) -> bool
    ensures { result ≡ is_of_data (seen_lexeme lexeme.entry) }
{
    is_name(lexeme, b"map") || is_name(lexeme, b"device")
}

// Adds the clauses that a region of data has too, and the end of the line.
fn put_of_data<'a>(
    put: &mut Vec<PlacedLexeme<'a>>,
    tokens: &[PlacedLexeme<'a>],
) -> Result<(), AllocError>
    ensures { OnOk result (all_placed put.new.items ≡ all_placed put.old.items ++ of_data false 0 (all_placed tokens.now)) }
{
    let mut stays = false;
    let mut depth = 0usize;
    let mut rest = tokens;
    'tokens: while let [token, behind @ ..] = rest {
        rest = behind;
        if opens_list(token.lexeme) {
            depth += 1;
        } else if closes_list(token.lexeme) {
            depth = depth.saturating_sub(1);
        } else if depth == 0 {
            stays = is_of_data(token.lexeme);
        }
        if stays || behind.is_empty() {
            put.push(*token)?;
        }
    }
    Ok(())
}

// The tokens of the line of the region of data.
fn data_tokens<'a>(
    alloc: Global,
    tokens: &[PlacedLexeme<'a>],
) -> Result<Vec<PlacedLexeme<'a>>, AllocError>
    ensures { IfOk result (λ v. all_placed v.items ≡ data_tokens (all_placed tokens.now)) }
{
    let mut put = Vec::new(alloc);
    let [first, second, target, behind @ ..] = tokens else {
        put.extend_from_slice(tokens)?;
        return Ok(put);
    };
    put.push(*first)?;
    put.push(*second)?;
    put.push(*target)?;
    put.push(PlacedLexeme {
        lexeme: Lexeme::Name(b"data"),
        column: target.column,
    })?;
    put_of_data(&mut put, behind)?;
    Ok(put)
}

// The line of the region of data.
fn data_of<'a>(alloc: Global, line: &LineTokens<'a>) -> Result<LineTokens<'a>, AllocError>
    requires { may_part (kinds_of (seen_line line.now)) ≡ true }
    ensures { IfOk result (λ l. seen_line l ≡ data_tokens (seen_line line.now)) }
{
    let tokens = data_tokens(alloc, line.tokens())?;
    Ok(LineTokens::of(tokens))
}

// Adds the line of the region of data.
fn put_data<'a>(
    alloc: Global,
    done: &mut Vec<Written<'a>>,
    token: Token<'a, '_>,
) -> Result<(), AllocError>
    requires { parts_line (seen token).terminal ≡ true }
    ensures { OnOk result (written_all done.new.items ≡ written_all done.old.items ++ data_line (seen token.entry) (seen token.entry).terminal) }
{
    let Terminal::Line(line) = token.terminal else {
        return Ok(());
    };
    if has_clause(b"map", line.tokens()) {
        done.push(Written {
            terminal: WrittenTerminal::Line(data_of(alloc, line)?),
            line: token.line,
            column: token.column,
        })?;
    }
    Ok(())
}

// How many parts of a statement are open behind a token, before which so many are; none where the statement is over.
fn open_behind(depth: usize, token: Token<'_, '_>, behind: &[Token<'_, '_>]) -> Option<usize>
    requires { depth < 2 ^ 63 }
    ensures behind { result ≡ open_behind depth (seen token.entry) (seen_all behind.now) }
    ensures few { IfSome result (λ d. d ≤ depth + 1) }
{
    if opens_part(token) {
        return Some(depth + 1);
    }
    if token.terminal.is_sign(Sign::CloseBrace) {
        if !goes_on(depth, behind) {
            return None;
        }
        return Some(depth.saturating_sub(1));
    }
    if token.terminal.is_sign(Sign::CloseParen) {
        return Some(depth.saturating_sub(1));
    }
    if token.terminal.is_sign(Sign::Semicolon) && depth == 0 {
        if is_else(behind) {
            return Some(0);
        }
        return None;
    }
    Some(depth)
}

// Whether the statement that begins there has the line of a construct that belongs to the target, and none before it but
// those of atomic updates.
fn holds(target: Token<'_, '_>, tokens: &[Token<'_, '_>]) -> bool
    ensures { result ≡ holds (seen target.entry).terminal 0 (seen_all tokens.now) }
{
    let mut depth = 0usize;
    let mut rest = tokens;
    'tokens: while let [token, behind @ ..] = rest {
        rest = behind;
        if token.terminal.is_directive() {
            if joins(target, *token) {
                return true;
            }
            if !is_atomic_line(token.terminal) {
                return false;
            }
            continue;
        }
        let Some(left) = open_behind(depth, *token, behind) else {
            return false;
        };
        depth = left;
    }
    false
}

fn begins_block(tokens: &[Token<'_, '_>]) -> bool
    ensures { result ≡ begins_block (seen_all tokens.now) }
{
    match tokens {
        [next, ..] => next.terminal.is_sign(Sign::OpenBrace),
        [] => false,
    }
}

fn begins_loop(tokens: &[Token<'_, '_>]) -> bool
    ensures { result ≡ begins_loop (seen_all tokens.now) }
{
    match tokens {
        [next, ..] => next.terminal.is_word(Word::For),
        [] => false,
    }
}

// Whether it is the line of a construct `teams`, which the target has alone.
fn has_teams(token: Token<'_, '_>) -> bool
    ensures { result ≡ has_teams (seen token.entry).terminal }
{
    match token.terminal {
        Terminal::Line(line) => match line.tokens() {
            [_, _, word, ..] => is_name(word.lexeme, b"teams"),
            _ => false,
        },
        _ => false,
    }
}

// Behind the end of a statement.
fn ended(blocks: usize) -> Next
    ensures next { seen_next result ≡ ended blocks }
    ensures few { IsWithin blocks result }
{
    if blocks == 0 {
        Next::Over
    } else {
        Next::On(At::Between(blocks))
    }
}

// A block or loop with constructs begins.
fn opened(blocks: usize, token: Token<'_, '_>) -> Next
    requires { blocks < 2 ^ 63 }
    ensures next { seen_next result ≡ opened blocks (seen token.entry) }
    ensures few { IsWithin (blocks + 1) result }
{
    if blocks >= MOST_BLOCKS {
        Next::Stuck
    } else if token.terminal.is_sign(Sign::OpenBrace) {
        Next::On(At::Between(blocks + 1))
    } else if token.terminal.is_word(Word::For) {
        Next::On(At::Head(blocks, 0))
    } else {
        Next::Stuck
    }
}

// A block or loop without constructs begins.
fn begun(blocks: usize, token: Token<'_, '_>) -> Next
    requires { blocks < 2 ^ 63 }
    ensures next { seen_next result ≡ begun blocks (seen token.entry) }
    ensures few { IsWithin (blocks + 1) result }
{
    if token.terminal.is_sign(Sign::OpenBrace) {
        Next::On(At::Passing(blocks, 1))
    } else if token.terminal.is_word(Word::For) {
        Next::On(At::Passing(blocks, 0))
    } else {
        Next::Stuck
    }
}

// Behind a token before which a statement ends. The tokens begin with it.
fn between(
    target: Token<'_, '_>,
    blocks: usize,
    token: Token<'_, '_>,
    tokens: &[Token<'_, '_>],
    behind: &[Token<'_, '_>],
) -> Next
    requires few { blocks < 2 ^ 63 }
    requires tokens { seen_all tokens.now ≡ seen token ∷ seen_all behind.now }
    ensures next { seen_next result ≡ between (seen target.entry).terminal blocks (seen token.entry) (seen_all behind.now) }
    ensures few { IsWithin (blocks + 1) result }
{
    if token.terminal.is_directive() {
        if joins(target, token) && !has_teams(token) && begins_loop(behind) {
            return Next::On(At::Passing(blocks, 0));
        }
        return Next::Stuck;
    }
    if token.terminal.is_sign(Sign::CloseBrace) {
        if blocks <= 1 {
            return Next::Over;
        }
        return Next::On(At::Between(blocks - 1));
    }
    if holds(target, tokens) {
        opened(blocks, token)
    } else {
        begun(blocks, token)
    }
}

// Behind a token in the head of a loop with constructs.
fn in_head(blocks: usize, brackets: usize, token: Token<'_, '_>, behind: &[Token<'_, '_>]) -> Next
    requires { blocks + brackets < 2 ^ 63 }
    ensures next { seen_next result ≡ in_head blocks brackets (seen token.entry) (seen_all behind.now) }
    ensures few { IsWithin (blocks + brackets + 1) result }
{
    if token.terminal.is_directive() {
        return Next::Stuck;
    }
    if token.terminal.is_sign(Sign::OpenParen) {
        return Next::On(At::Head(blocks, brackets + 1));
    }
    if !token.terminal.is_sign(Sign::CloseParen) {
        return Next::On(At::Head(blocks, brackets));
    }
    if brackets > 1 {
        return Next::On(At::Head(blocks, brackets - 1));
    }
    if begins_block(behind) {
        Next::On(At::Opening(blocks))
    } else {
        Next::Stuck
    }
}

// Behind a token of a part.
fn passing(blocks: usize, depth: usize, token: Token<'_, '_>, behind: &[Token<'_, '_>]) -> Next
    requires { blocks + depth < 2 ^ 63 }
    ensures next { seen_next result ≡ passing blocks depth (seen token.entry) (seen_all behind.now) }
    ensures few { IsWithin (blocks + depth + 1) result }
{
    if token.terminal.is_directive() {
        if is_atomic_line(token.terminal) {
            return Next::On(At::Passing(blocks, depth));
        }
        return Next::Stuck;
    }
    match open_behind(depth, token, behind) {
        Some(depth) => Next::On(At::Passing(blocks, depth)),
        None => ended(blocks),
    }
}

impl At {
    // Behind a token of the target's statement. The tokens begin with it.
    fn step(
        self,
        target: Token<'_, '_>,
        token: Token<'_, '_>,
        tokens: &[Token<'_, '_>],
        behind: &[Token<'_, '_>],
    ) -> Next
        requires few { opens_at self < 2 ^ 63 }
        requires tokens { seen_all tokens.now ≡ seen token ∷ seen_all behind.now }
        ensures next { seen_next result ≡ step (seen target.entry).terminal (seen_at self) (seen token.entry) (seen_all behind.now) }
        ensures few { IsWithin (opens_at self + 1) result }
    {
        match self {
            At::Between(blocks) => between(target, blocks, token, tokens, behind),
            At::Opening(blocks) => Next::On(At::Between(blocks + 1)),
            At::Head(blocks, brackets) => in_head(blocks, brackets, token, behind),
            At::Passing(blocks, depth) => passing(blocks, depth, token, behind),
        }
    }

    fn begins_part(self, next: Next) -> bool
        ensures { result ≡ sequences.begins_part (seen_at self) (seen_next next) }
    {
        matches!(self, At::Between(_)) && matches!(next, Next::On(At::Passing(_, _)))
    }
}

// Whether the statement behind the line can be taken apart up to its end.
fn fits(target: Token<'_, '_>, tokens: &[Token<'_, '_>]) -> bool
    ensures { result ≡ fits (seen target.entry).terminal (sequences.Between 0) (seen_all tokens.now) }
{
    let mut at = At::Between(0);
    let mut rest = tokens;
    'tokens: while let [token, behind @ ..] = rest {
        match at.step(target, *token, rest, behind) {
            Next::On(next) => at = next,
            Next::Over => return true,
            Next::Stuck => return false,
        }
        rest = behind;
    }
    false
}

// Whether it is a target that has constructs, other than one with its loop alone.
fn parts(token: Token<'_, '_>, tokens: &[Token<'_, '_>]) -> bool
    ensures { result ≡ parts (seen token.entry).terminal (seen_all tokens.now) }
{
    let [first, behind @ ..] = tokens else {
        return false;
    };
    parts_line(token)
        && !first.terminal.is_directive()
        && !moves(token, *first, behind)
        && holds(token, tokens)
        && fits(token, tokens)
}

// Adds a token outside of targets that are taken apart.
fn put_outside<'a, 'l>(
    alloc: Global,
    done: &mut Vec<Written<'a>>,
    token: Token<'a, 'l>,
    behind: &[Token<'a, 'l>],
) -> Result<Option<Inside<'a, 'l>>, AllocError>
    ensures put { IfOk result (λ w. with_parts done.new.items w (seen_all behind.now) ≡ with_parts done.old.items None (seen token.entry ∷ seen_all behind.now)) }
    ensures few { IfOk result (λ w. opens_in w ≡ 0) }
{
    if parts(token, behind) {
        put_data(alloc, done, token)?;
        return Ok(Some(Inside {
            target: token,
            at: At::Between(0),
        }));
    }
    done.push(Written::of(alloc, token)?)?;
    Ok(None)
}

impl<'a, 'l> Inside<'a, 'l> {
    // Adds a token, and before it the line of the target where a part begins.
    fn put(
        self,
        alloc: Global,
        done: &mut Vec<Written<'a>>,
        token: Token<'a, 'l>,
        tokens: &[Token<'a, 'l>],
        behind: &[Token<'a, 'l>],
    ) -> Result<Option<Inside<'a, 'l>>, AllocError>
        requires few { opens_at self.at < 2 ^ 63 }
        requires tokens { seen_all tokens.now ≡ seen token ∷ seen_all behind.now }
        ensures put { IfOk result (λ w. with_parts done.new.items w (seen_all behind.now) ≡ with_parts done.old.items (Some self.entry) (seen token.entry ∷ seen_all behind.now)) }
        ensures few { IfOk result (λ w. opens_in w ≤ opens_at self.entry.at + 1) }
    {
        let next = self.at.step(self.target, token, tokens, behind);
        if self.at.begins_part(next) {
            done.push(Written::of(alloc, self.target)?)?;
        }
        done.push(Written::of(alloc, token)?)?;
        Ok(match next {
            Next::On(at) => Some(Inside {
                target: self.target,
                at,
            }),
            Next::Over | Next::Stuck => None,
        })
    }
}

/// The tokens, with a target for each part of one that has several constructs.
pub fn in_parts<'a>(alloc: Global, tokens: &[Token<'a, '_>]) -> Result<Vec<Written<'a>>, AllocError>
    ensures { IfOk result (λ v. written_all v.items ≡ in_parts (seen_all tokens.now)) }
{
    let mut done = Vec::new(alloc);
    let mut inside = None;
    let mut rest = tokens;
    'tokens: while let [token, behind @ ..] = rest {
        inside = match inside {
            None => put_outside(alloc, &mut done, *token, behind)?,
            Some(region) => region.put(alloc, &mut done, *token, rest, behind)?,
        };
        rest = behind;
    }
    Ok(done)
}
