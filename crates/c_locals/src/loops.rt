//! Loops that are unrolled.

ghost use Rattle.std.specs.Prelude.{◌≡◌, ◌++◌, ◌+◌, ◌*◌, ◌^◌, ◌<◌, ◌≤◌, [], IfOk, IfSome, OnOk, Some, None, false, if◌then◌else◌, length, nat_le};
ghost use Rattle.std.specs.Option.{option_map};
ghost use Rattle.c_grammar.specs.Blocks.{bare};
ghost use Rattle.c_grammar.specs.Locals.{body_len, depth_behind, is_indexed, max_put, numbers, turns, turns_put, unrolled_at, with_number};
ghost use Rattle.c_grammar.specs.Triangles.{loop_in};
ghost use Rattle.c_terminals.specs.Seen.{seen, seen_all};
ghost use Rattle.c_triangles.specs.Loops.{seen_loop};
ghost use Rattle.c_locals.specs.Blocks.{open_blocks};
ghost use Rattle.c_locals.specs.Loops.{all_with, turn, turn_numbers, turns_in_block, unrolled_body, unrolled_loop, used_behind};
ghost use Rattle.c_locals.specs.Puts.{seen_put, seen_state};

use crate::blocks::Blocks;
use crate::puts::{Put, State, parted};
use c_choices::next_tokens;
use c_terminals::{Ahead, Terminal, Token};
use c_tokens::Sign;
use c_triangles::{Loop, MAX_HEAD, plain_loop};
use directives::Word;
use std::alloc::{AllocError, Global};

/// At most so many tokens of a loop, or of a declaration, are looked at.
pub const MAX_AHEAD: usize = 16384;

const MAX_TURNS: usize = 64;

/// So many tokens may be put in, in all.
const MAX_PUT: usize = 65536;

// How many tokens stand before the brace that closes the block.
fn body_len(tokens: &[Token<'_, '_>]) -> Option<usize>
    ensures value { result ≡ body_len 0 0 (seen_all tokens.now) }
    ensures within { IfSome result (λ n. n ≤ length tokens.now) }
{
    let mut depth = 0usize;
    let mut len = 0usize;
    let mut rest = tokens;
    'tokens: while let [token, behind @ ..] = rest {
        if token.terminal.is_sign(Sign::CloseBrace) {
            if depth == 0 {
                return Some(len);
            }
            depth -= 1;
        } else if token.terminal.is_sign(Sign::OpenBrace) {
            depth += 1;
        }
        len += 1;
        rest = behind;
    }
    None
}

// The first numbers of the name, so many at most.
fn numbers(
    alloc: Global,
    most: usize,
    first: u64,
    step: u64,
    end: u64,
) -> Result<Vec<u64>, AllocError>
    ensures { IfOk result (λ v. v.items ≡ numbers most first step end) }
{
    let mut numbers = Vec::new(alloc);
    let mut number = first;
    let mut left = most;
    'turns: while left > 0 && number < end {
        numbers.push(number)?;
        left -= 1;
        match number.checked_add(step) {
            Some(next) => number = next,
            None => return Ok(numbers),
        }
    }
    Ok(numbers)
}

// How many brackets of a subscript are open behind the token.
fn depth_behind(token: Token<'_, '_>, depth: usize) -> Result<usize, AllocError>
    ensures { IfOk result (λ d. d ≡ depth_behind (seen token.entry) depth) }
{
    if token.terminal.is_sign(Sign::OpenBracket) {
        return depth.checked_add(1).ok_or(AllocError);
    }
    if token.terminal.is_sign(Sign::CloseBracket) {
        return Ok(depth.saturating_sub(1));
    }
    Ok(depth)
}

// Whether the name stands in a subscript of an array.
fn is_indexed(
    blocks: &Blocks<'_>,
    name: &[u8],
    tokens: &[Token<'_, '_>],
) -> Result<bool, AllocError>
    ensures { IfOk result (λ b. b ≡ is_indexed (open_blocks blocks.now) name.now false 0 (seen_all tokens.now)) }
{
    let mut named = false;
    let mut depth = 0usize;
    let mut rest = tokens;
    'tokens: while let [token, behind @ ..] = rest {
        if depth == 0 {
            if named && token.terminal.is_sign(Sign::OpenBracket) {
                depth = 1;
            }
            named = blocks.array_of(token.terminal).is_some();
        } else {
            if token.terminal.is_named(name) {
                return Ok(true);
            }
            depth = depth_behind(*token, depth)?;
            named = false;
        }
        rest = behind;
    }
    Ok(false)
}

// A token in the turn of that number.
fn with_number<'a, 'l>(token: Token<'a, 'l>, name: &[u8], number: u64) -> Token<'a, 'l>
    ensures { seen result ≡ with_number name.now number (seen token.entry) }
{
    if token.terminal.is_named(name) {
        token.at(Terminal::Number(number))
    } else {
        token
    }
}

// All tokens in that turn.
fn put_all<'a, 'l>(
    done: &mut Vec<Token<'a, 'l>>,
    name: &[u8],
    number: u64,
    tokens: &[Token<'a, 'l>],
) -> Result<(), AllocError>
    ensures { OnOk result (seen_all done.new.items ≡
        seen_all done.old.items ++ all_with name.now number (seen_all tokens.now)) }
{
    let mut rest = tokens;
    'tokens: while let [token, behind @ ..] = rest {
        done.push(with_number(*token, name, number))?;
        rest = behind;
    }
    Ok(())
}

// A turn in a block.
fn put_turn<'a, 'l>(
    done: &mut Vec<Token<'a, 'l>>,
    token: Token<'a, 'l>,
    name: &[u8],
    number: u64,
    tokens: &[Token<'a, 'l>],
) -> Result<(), AllocError>
    ensures { OnOk result (seen_all done.new.items ≡
        seen_all done.old.items ++ turn (seen token.entry) name.now number (seen_all tokens.now)) }
{
    done.push(token.at(Terminal::Sign(Sign::OpenBrace)))?;
    put_all(done, name, number, tokens)?;
    done.push(token.at(Terminal::Sign(Sign::CloseBrace)))?;
    Ok(())
}

// All turns.
fn put_turns<'a, 'l>(
    done: &mut Vec<Token<'a, 'l>>,
    token: Token<'a, 'l>,
    name: &[u8],
    tokens: &[Token<'a, 'l>],
    numbers: &[u64],
) -> Result<(), AllocError>
    ensures { OnOk result (seen_all done.new.items ≡
        seen_all done.old.items ++ turns (seen token.entry) name.now (seen_all tokens.now) numbers.now) }
{
    let mut rest = numbers;
    'turns: while let [number, behind @ ..] = rest {
        put_turn(done, token, name, *number, tokens)?;
        rest = behind;
    }
    Ok(())
}

// How many tokens have been put in with those of so many turns, where they may.
fn used_with(used: usize, turns: usize, len: usize) -> Option<usize>
    requires { len < 2 ^ 63 }
    ensures { result ≡
        (if nat_le (used + turns * (len + 2)) max_put then Some (used + turns * (len + 2)) else None) }
{
    let len = turns.checked_mul(len + 2)?;
    let used = used.checked_add(len)?;
    if used <= MAX_PUT { Some(used) } else { None }
}

// The numbers of the turns, one more than there may be.
fn turn_numbers(alloc: Global, own: Loop<'_, '_, '_>) -> Result<Vec<u64>, AllocError>
    ensures { IfOk result (λ v. v.items ≡ turn_numbers (seen_loop own.entry)) }
{
    numbers(alloc, MAX_TURNS + 1, own.first(), own.amount(), own.end)
}

// How many tokens have been put in with all turns, where the loop is unrolled.
fn used_behind(
    state: &State<'_>,
    name: &[u8],
    tokens: &[Token<'_, '_>],
    numbers: &[u64],
) -> Result<Option<usize>, AllocError>
    ensures { IfOk result (λ o. o ≡ used_behind (seen_state state.now) name.now (seen_all tokens.now) numbers.now) }
{
    if numbers.is_empty() || numbers.len() > MAX_TURNS {
        return Ok(None);
    }
    let Some(used) = used_with(state.used, numbers.len(), tokens.len()) else {
        return Ok(None);
    };
    if is_indexed(&state.blocks, name, tokens)? {
        Ok(Some(used))
    } else {
        Ok(None)
    }
}

// All turns of a loop, in a block.
fn put_block<'a, 'l>(
    alloc: Global,
    token: Token<'a, 'l>,
    name: &[u8],
    tokens: &[Token<'a, 'l>],
    numbers: &[u64],
) -> Result<Vec<Token<'a, 'l>>, AllocError>
    ensures { IfOk result (λ v. seen_all v.items ≡ turns_in_block (seen token.entry) name.now (seen_all tokens.now) numbers.now) }
{
    let mut done = Vec::new(alloc);
    done.push(token.at(Terminal::Sign(Sign::OpenBrace)))?;
    put_turns(&mut done, token, name, tokens, numbers)?;
    done.push(token.at(Terminal::Sign(Sign::CloseBrace)))?;
    Ok(done)
}

// How many tokens stand behind the word of a loop with so many in its head and so many in its block.
fn all_len(head: usize, body: usize) -> Result<usize, AllocError>
    ensures { IfOk result (λ n. n ≡ head + body + 1) }
{
    let len = head.checked_add(body).ok_or(AllocError)?;
    len.checked_add(1).ok_or(AllocError)
}

// What stands for a loop with that body and these numbers.
fn turns_put<'a, 'l>(
    alloc: Global,
    state: &State<'a>,
    token: Token<'a, 'l>,
    own: Loop<'a, 'l, '_>,
    tokens: &[Token<'a, 'l>],
    numbers: &[u64],
) -> Result<Option<Put<'a, 'l>>, AllocError>
    ensures { IfOk result (λ o. option_map (seen_put (seen_state state.now)) o ≡
        turns_put (seen_state state.now) (seen token.entry) (seen_loop own.entry) (seen_all tokens.now) numbers.now) }
{
    let Some(used) = used_behind(state, own.name, tokens, numbers)? else {
        return Ok(None);
    };
    let done = put_block(alloc, token, own.name, tokens, numbers)?;
    let skip = all_len(own.len()?, tokens.len())?;
    Ok(Some(Put {
        tokens: done,
        array: None,
        used,
        skip,
    }))
}

// What stands for a loop, of these tokens behind its head.
fn body_put<'a, 'l>(
    alloc: Global,
    state: &State<'a>,
    token: Token<'a, 'l>,
    own: Loop<'a, 'l, '_>,
    behind: &[Token<'a, 'l>],
) -> Result<Option<Put<'a, 'l>>, AllocError>
    ensures { IfOk result (λ o. option_map (seen_put (seen_state state.now)) o ≡
        unrolled_body (seen_state state.now) (seen token.entry) (seen_loop own.entry) (seen_all behind.now)
        (body_len 0 0 (seen_all behind.now))) }
{
    let Some(len) = body_len(behind) else {
        return Ok(None);
    };
    let (body, _) = parted(behind, len);
    let numbers = turn_numbers(alloc, own)?;
    turns_put(alloc, state, token, own, body, &numbers)
}

// The loop whose head and body these tokens begin.
fn loop_put<'a, 'l>(
    alloc: Global,
    state: &State<'a>,
    token: Token<'a, 'l>,
    tokens: &[Token<'a, 'l>],
) -> Result<Option<Put<'a, 'l>>, AllocError>
    ensures { IfOk result (λ o. option_map (seen_put (seen_state state.now)) o ≡
        unrolled_loop (seen_state state.now) (seen token.entry) (seen_all tokens.now) (loop_in [] (seen_all tokens.now))) }
{
    let (head, _) = parted(tokens, MAX_HEAD);
    let Some(own) = plain_loop(alloc, head) else {
        return Ok(None);
    };
    let (_, behind) = parted(tokens, own.len()?);
    body_put(alloc, state, token, own, behind)
}

/// What stands for a loop, where it is unrolled.
pub fn unrolled_at<'a, 'l>(
    alloc: Global,
    state: &State<'a>,
    token: Token<'a, 'l>,
    rest: &[Token<'a, 'l>],
) -> Result<Option<Put<'a, 'l>>, AllocError>
    ensures { IfOk result (λ o. option_map (seen_put (seen_state state.now)) o ≡
        unrolled_at (seen_state state.now) (seen token.entry) (bare (seen_all rest.now))) }
{
    if !token.terminal.is_word(Word::For) || !state.blocks.has_array() {
        return Ok(None);
    }
    let tokens = next_tokens(alloc, Ahead::new(rest), MAX_AHEAD)?;
    loop_put(alloc, state, token, &tokens)
}
