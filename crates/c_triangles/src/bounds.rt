//! Bounds, as they are read.

ghost use Rattle.std.specs.Prelude.{◌≡◌};
ghost use Rattle.std.specs.Option.{option_map};
ghost use Rattle.c_grammar.specs.Triangles.{adds, bound_in, operand, with_operand};
ghost use Rattle.c_triangles.specs.Blocks.{open_blocks};
ghost use Rattle.c_triangles.specs.Bounds.{next_bound, seen_bound};
ghost use Rattle.c_terminals.specs.Seen.{seen, seen_all, seen_terminal};

use crate::blocks::Blocks;
use crate::ranges::Bound;
use c_terminals::{Terminal, Token};
use c_tokens::Sign;

// A number, or the name of a loop around.
fn operand(blocks: &Blocks<'_>, terminal: Terminal<'_, '_>) -> Option<Bound>
    ensures { option_map seen_bound result ≡ operand (open_blocks blocks.now) (seen_terminal terminal.entry) }
{
    match terminal {
        Terminal::Number(n) => Some(Bound::number(n)),
        Terminal::Name(name) => {
            let range = blocks.range_of(name)?;
            Some(Bound {
                range,
                varies: true,
            })
        }
        _ => None,
    }
}

fn adds(token: Token<'_, '_>) -> bool
    ensures { result ≡ adds (seen token.entry) }
{
    token.terminal.is_sign(Sign::Plus) || token.terminal.is_sign(Sign::Minus)
}

fn with_operand(minus: bool, bound: Bound, operand: Option<Bound>) -> Option<Bound>
    ensures { option_map seen_bound result ≡ with_operand minus (seen_bound bound) (option_map seen_bound operand) }
{
    let operand = operand?;
    if minus {
        bound.difference(operand)
    } else {
        bound.sum(operand)
    }
}

// With what is added to it or taken away.
fn next_bound(
    blocks: &Blocks<'_>,
    bound: Bound,
    sign: Token<'_, '_>,
    token: Token<'_, '_>,
) -> Option<Bound>
    ensures { option_map seen_bound result ≡
        next_bound (open_blocks blocks.now) (seen_bound bound) (seen sign.entry) (seen token.entry) }
{
    if !adds(sign) {
        return None;
    }
    let minus = sign.terminal.is_sign(Sign::Minus);
    with_operand(minus, bound, operand(blocks, token.terminal))
}

/// The bound that these tokens are.
pub fn bound_in(blocks: &Blocks<'_>, tokens: &[Token<'_, '_>]) -> Option<Bound>
    ensures { option_map seen_bound result ≡ bound_in (open_blocks blocks.now) (seen_all tokens.now) }
{
    let [first, rest @ ..] = tokens else {
        return None;
    };
    let mut bound = operand(blocks, first.terminal)?;
    let mut rest = rest;
    'tokens: while let [sign, token, behind @ ..] = rest {
        let next = next_bound(blocks, bound, *sign, *token)?;
        bound = next;
        rest = behind;
    }
    if rest.is_empty() { Some(bound) } else { None }
}
