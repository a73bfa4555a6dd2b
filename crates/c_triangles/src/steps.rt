//! By how much the name of a loop grows.

ghost use Rattle.std.specs.Prelude.{◌<◌};

use c_terminals::Token;

#[derive(Clone, Copy)]
pub struct Step<'a, 'l, 's> {
    pub amount: u64,
    /// What says so, up to the brace.
    pub tokens: &'s [Token<'a, 'l>],
    ghost positive: { 0 < amount },
}
