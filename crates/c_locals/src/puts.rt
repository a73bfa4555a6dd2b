//! What has been read, and what stands for a token and some behind it.

ghost use Rattle.std.specs.Prelude.{◌≡◌, drop, take};
ghost use Rattle.c_terminals.specs.Seen.{seen_all};

use crate::blocks::{Array, Blocks};
use c_terminals::Token;

/// What has been read.
#[derive(Drop)]
pub struct State<'a> {
    pub blocks: Blocks<'a>,
    /// How many tokens have been put in, or how many cells named.
    pub used: usize,
}

/// What stands for a token and some behind it.
#[derive(Drop)]
pub struct Put<'a, 'l> {
    pub tokens: Vec<Token<'a, 'l>>,
    /// The array that is declared.
    pub array: Option<Array<'a>>,
    /// How many tokens have been put in then, or how many cells named.
    pub used: usize,
    /// How many tokens behind it are left out.
    pub skip: usize,
}

/// So many tokens, or as many as there are, and the others.
#[tactic(auto, using(crate::proofs::Parting::front, crate::proofs::Parting::back, crate::proofs::Parting::all, crate::proofs::Parting::none))]
pub fn parted<'a, 'l, 's>(
    tokens: &'s [Token<'a, 'l>],
    len: usize,
) -> (&'s [Token<'a, 'l>], &'s [Token<'a, 'l>])
    ensures front { seen_all result.0.now ≡ take len (seen_all tokens.now) }
    ensures back { seen_all result.1.now ≡ drop len (seen_all tokens.now) }
{
    if tokens.len() <= len {
        return tokens.split_at(tokens.len());
    }
    tokens.split_at(len)
}
