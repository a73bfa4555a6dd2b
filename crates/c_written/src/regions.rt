//! The regions of constructs, and names that stand in updates alone there.

ghost use Rattle.std.specs.Prelude.{◌≡◌, false, map, IfOk};
ghost use Rattle.std.specs.Option.{option_map};
ghost use Rattle.c_grammar.specs.Blocks.{bare};
ghost use Rattle.c_grammar.specs.Lexeme.{If};
ghost use Rattle.c_grammar.specs.Terminal.{Fixed, same};
ghost use Rattle.c_grammar.specs.Updates.{allowed, allowed_at, are_summed, is_gathered, is_reduced, is_summed};
ghost use Rattle.c_written.specs.Extremes.{seen_extreme};
ghost use Rattle.c_written.specs.Regions.{mentioned, seen_operation};
ghost use Rattle.c_terminals.specs.Seen.{seen, seen_all, seen_terminal};

use crate::cell_updates::{again_at, is_by, update};
use crate::changes::is_boundary;
use crate::extremes::{Extreme, extreme_at};
use crate::presence::{goes_on, opens_part};
use c_terminals::{Ahead, Terminal, Token};
use c_tokens::Sign;
use directives::Word;
use std::alloc::{AllocError, Global};

/// The operator of a reduction: a sign, or the word `max` or `min`.
#[derive(Clone, Copy)]
pub enum Operation {
    BySign(Sign),
    /// Whether it is `max`.
    ByExtreme(bool),
}

/// A place in a region: how many parts are open, and whether a statement begins.
#[derive(Clone, Copy)]
pub struct Place {
    pub depth: usize,
    pub starts: bool,
}

impl Place {
    ghost use Rattle.std.specs.Prelude.{◌≡◌, ◌≤◌, ◌<◌, ◌+◌, ◌^◌, IfSome};
    ghost use Rattle.std.specs.Option.{option_map};
    ghost use Rattle.c_written.specs.Regions.{place_behind, seen_place};
    ghost use Rattle.c_terminals.specs.Seen.{seen, seen_all};

    /// Behind a token, before others. There is none where the region ends.
    pub fn behind(self, token: Token<'_, '_>, rest: &[Token<'_, '_>]) -> Option<Place>
        requires { self.depth < 2 ^ 63 }
        ensures place { option_map seen_place result ≡ place_behind self.depth (seen token.entry) (seen_all rest.now) }
        ensures few { IfSome result (λ p. p.depth ≤ self.depth + 1) }
    {
        let depth = self.depth;
        let starts = is_boundary(token.terminal);
        if opens_part(token) {
            return Some(Place {
                depth: depth + 1,
                starts,
            });
        }
        if token.terminal.is_sign(Sign::CloseBrace) {
            if !goes_on(depth, rest) {
                return None;
            }
            return Some(Place {
                depth: depth.saturating_sub(1),
                starts: true,
            });
        }
        if token.terminal.is_sign(Sign::CloseParen) {
            return Some(Place {
                depth: depth.saturating_sub(1),
                starts: false,
            });
        }
        if token.terminal.is_sign(Sign::Semicolon) && depth == 0 {
            return None;
        }
        Some(Place { depth, starts })
    }
}

// Behind the name, how many tokens there are up to the name that may stand again: so many were left before it. There is
// none where the name stands in no update by the operator.
fn mentioned(
    name: &[u8],
    op: Sign,
    starts: bool,
    left: usize,
    rest: &[Token<'_, '_>],
) -> Option<usize>
    ensures { result ≡ mentioned name.now op starts left (bare (seen_all rest.now)) }
{
    let start = Ahead::new(rest);
    if left == 1 {
        return Some(0);
    }
    if starts && is_by(op, update(name, start)) {
        return Some(again_at(start));
    }
    None
}

// Whether the name stands in updates by the operator alone, up to the end of the region.
fn is_summed(name: &[u8], op: Sign, tokens: &[Token<'_, '_>]) -> bool
    ensures { result ≡ is_summed name.now op 0 false 0 (seen_all tokens.now) }
{
    let mut place = Place {
        depth: 0,
        starts: false,
    };
    let mut left = 0usize;
    let mut rest = tokens;
    'tokens: while let [token, behind @ ..] = rest {
        rest = behind;
        if token.terminal.is_directive() {
            continue;
        }
        if token.terminal.is_named(name) {
            let Some(again) = mentioned(name, op, place.starts, left, behind) else {
                return false;
            };
            left = again;
            place.starts = false;
            continue;
        }
        let Some(next) = place.behind(*token, behind) else {
            return true;
        };
        place = next;
        left = left.saturating_sub(1);
    }
    true
}

// The number left, or how often the name stands in such an `if`.
fn allowed(name: &[u8], greatest: bool, left: usize, extreme: Option<Extreme<'_>>) -> usize
    ensures { result ≡ allowed name.now greatest left (option_map seen_extreme extreme.entry) }
{
    let Some(extreme) = extreme else {
        return left;
    };
    let same = if greatest {
        extreme.greatest
    } else {
        !extreme.greatest
    };
    if name == extreme.name && same {
        extreme.mentions
    } else {
        left
    }
}

/// Whether it is the word `if`.
pub fn is_if(terminal: Terminal<'_, '_>) -> bool
    ensures { result ≡ same (Fixed If) (seen_terminal terminal.entry) }
{
    match terminal {
        Terminal::Word(Word::If) => true,
        _ => false,
    }
}

// The same at a token, before others.
fn allowed_at(
    alloc: Global,
    name: &[u8],
    greatest: bool,
    starts: bool,
    left: usize,
    token: Token<'_, '_>,
    rest: &[Token<'_, '_>],
) -> Result<usize, AllocError>
    ensures { IfOk result (λ n. n ≡ allowed_at name.now greatest starts left (seen token.entry) (seen_all rest.now)) }
{
    if !starts || !is_if(token.terminal) {
        return Ok(left);
    }
    let extreme = extreme_at(alloc, rest)?;
    Ok(allowed(name, greatest, left, extreme))
}

// Whether the name stands alone in an `if` that stores the greater number in it, or the lesser, up to the end of the region.
#[tactic(auto, using(crate::proofs::Summing::few_behind, crate::proofs::Summing::gathered_name, crate::proofs::Summing::gathered_none, crate::proofs::Summing::gathered_token, crate::proofs::Summing::gathered_ends))]
fn is_gathered(
    alloc: Global,
    name: &[u8],
    greatest: bool,
    tokens: &[Token<'_, '_>],
) -> Result<bool, AllocError>
    ensures { IfOk result (λ b. b ≡ is_gathered name.now greatest 0 false 0 (seen_all tokens.now)) }
{
    let mut place = Place {
        depth: 0,
        starts: false,
    };
    let mut left = 0usize;
    let mut rest = tokens;
    'tokens: while let [token, behind @ ..] = rest {
        rest = behind;
        if token.terminal.is_directive() {
            continue;
        }
        if token.terminal.is_named(name) {
            if left == 0 {
                return Ok(false);
            }
            left -= 1;
            place.starts = false;
            continue;
        }
        let mentions = allowed_at(alloc, name, greatest, place.starts, left, *token, behind)?;
        let Some(next) = place.behind(*token, behind) else {
            return Ok(true);
        };
        place = next;
        left = mentions;
    }
    Ok(true)
}

fn is_reduced(
    alloc: Global,
    name: &[u8],
    op: Operation,
    tokens: &[Token<'_, '_>],
) -> Result<bool, AllocError>
    ensures { IfOk result (λ b. b ≡ is_reduced name.now (seen_operation op) (seen_all tokens.now)) }
{
    match op {
        Operation::BySign(sign) => Ok(is_summed(name, sign, tokens)),
        Operation::ByExtreme(greatest) => is_gathered(alloc, name, greatest, tokens),
    }
}

/// Whether all the names stand in updates by the operator alone.
pub fn are_summed(
    alloc: Global,
    names: &[&[u8]],
    op: Operation,
    tokens: &[Token<'_, '_>],
) -> Result<bool, AllocError>
    ensures { IfOk result (λ b. b ≡ are_summed (map (λ x. x.now) names.now) (seen_operation op) (seen_all tokens.now)) }
{
    'names: for name in names {
        if !is_reduced(alloc, name, op, tokens)? {
            return Ok(false);
        }
    }
    Ok(true)
}
