//! The pass over all tokens.

ghost use Rattle.std.specs.Prelude.{◌≡◌, IfOk};
ghost use Rattle.c_grammar.specs.Needless.{needed};
ghost use Rattle.c_terminals.specs.Seen.{seen_all};

use crate::prototypes::declared;
use crate::states::State;
use c_terminals::{Ahead, Terminal, Token};
use c_tokens::Sign;
use std::alloc::{AllocError, Global};

/// The tokens so far.
#[derive(Drop)]
struct Leaving<'a, 'l> {
    done: Vec<Token<'a, 'l>>,
    state: State,
    /// How many tokens are still left out.
    left: usize,
}

impl<'a, 'l> Leaving<'a, 'l> {
    ghost use Rattle.std.specs.Prelude.{◌≡◌, ◌∷◌, ℕ, IfOk, OnOk};
    ghost use Rattle.std.specs.Option.{option_map};
    ghost use Rattle.c_grammar.specs.Blocks.{bare};
    ghost use Rattle.c_grammar.specs.Needless.{left_out};
    ghost use Rattle.c_terminals.specs.Ahead.{ahead};
    ghost use Rattle.c_terminals.specs.Seen.{seen, seen_all};
    ghost use Rattle.c_needless.specs.States.{IsEmptied, IsKept, seen_state, with_rest};

    // How many tokens are left out with this one, which is the first of all, if it is.
    fn left_out(
        &self,
        token: Token<'a, 'l>,
        all: &[Token<'a, 'l>],
        rest: Ahead<'a, 'l, '_>,
    ) -> Result<Option<usize>, AllocError>
        requires { bare (seen_all all.now) ≡ seen token ∷ ahead rest }
        ensures { IfOk result (λ o. option_map (λ (n : ℕ). n) o ≡
            left_out (seen_state self.now.state) (seen token.entry) (ahead rest.entry)) }
    {
        if !self.state.is_begin() {
            return Ok(None);
        }
        if token.terminal.is_sign(Sign::Semicolon) {
            return Ok(Some(0));
        }
        if self.state.is_outside() {
            return declared(Ahead::new(all));
        }
        Ok(None)
    }

    fn keep(&mut self, token: Token<'a, 'l>) -> Result<(), AllocError>
        ensures { OnOk result (IsKept self.old (seen token.entry) self.new) }
    {
        self.done.push(token)?;
        self.state.take(token)?;
        Ok(())
    }

    // What stands for a token that is left out: in a block an empty one.
    fn empty(&mut self, token: Token<'a, 'l>) -> Result<(), AllocError>
        ensures { OnOk result (IsEmptied self.old (seen token.entry) self.new) }
    {
        if self.state.is_outside() {
            return Ok(());
        }
        self.done.push(token.at(Terminal::Sign(Sign::OpenBrace)))?;
        self.done.push(token.at(Terminal::Sign(Sign::CloseBrace)))?;
        Ok(())
    }

    // The next token, before others.
    fn take(
        &mut self,
        token: Token<'a, 'l>,
        behind: &[Token<'a, 'l>],
        all: &[Token<'a, 'l>],
    ) -> Result<(), AllocError>
        requires { seen_all all.now ≡ seen token ∷ seen_all behind.now }
        ensures { OnOk result (with_rest self.old (seen token.entry ∷ seen_all behind.now) ≡
            with_rest self.new (seen_all behind.now)) }
    {
        if token.terminal.is_directive() {
            self.done.push(token)?;
            return Ok(());
        }
        if self.left > 0 {
            self.left -= 1;
            return Ok(());
        }
        match self.left_out(token, all, Ahead::new(behind))? {
            None => {
                self.keep(token)?;
                Ok(())
            }
            Some(count) => {
                self.left = count;
                self.empty(token)
            }
        }
    }
}

/// The tokens without declarations of functions, and with empty blocks for empty statements. The error comes where an allocation fails.
pub fn needed<'a, 'l>(
    alloc: Global,
    tokens: &[Token<'a, 'l>],
) -> Result<Vec<Token<'a, 'l>>, AllocError>
    ensures { IfOk result (λ v. seen_all v.items ≡ needed (seen_all tokens.now)) }
{
    let mut leaving = Leaving {
        done: Vec::new(alloc),
        state: State::begin(alloc),
        left: 0,
    };
    let mut rest = tokens;
    'tokens: while let [token, behind @ ..] = rest {
        leaving.take(*token, behind, rest)?;
        rest = behind;
    }
    Ok(leaving.done)
}
