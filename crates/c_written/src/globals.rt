//! Globals without their initializers, which `main` begins with.

ghost use Rattle.std.specs.Prelude.{◌≡◌, IfOk};
ghost use Rattle.c_grammar.specs.Initial.{initialized, no_globals};
ghost use Rattle.c_terminals.specs.Seen.{seen_all};

use crate::initial::initial;
use c_terminals::Token;
use c_tokens::Sign;
use std::alloc::{AllocError, Global};

/// The tokens so far.
#[derive(Drop)]
struct Globals<'a, 'l> {
    done: Vec<Token<'a, 'l>>,
    /// The tokens of the declaration so far.
    since: Vec<Token<'a, 'l>>,
    /// What is set at the beginning of `main`.
    late: Vec<Token<'a, 'l>>,
    /// A block has begun.
    inside: bool,
    /// How many tokens are still to be left out.
    left: usize,
}

impl<'a, 'l> Globals<'a, 'l> {
    ghost use Rattle.std.specs.Prelude.{◌≡◌, ◌∷◌, OnOk, false};
    ghost use Rattle.c_grammar.specs.Blocks.{bare};
    ghost use Rattle.c_grammar.specs.Initial.{begun, declared, initial, set_late};
    ghost use Rattle.c_written.specs.Globals.{IsGone, seen_initial, state_of, with_globals};
    ghost use Rattle.c_terminals.specs.Seen.{seen, seen_all};

    /// A token of a declaration.
    fn declare(&mut self, token: Token<'a, 'l>) -> Result<(), AllocError>
        requires outside { self.old.inside ≡ false }
        requires none { self.old.left ≡ 0 }
        ensures { OnOk result (IsGone self.old self.new (declared (seen token.entry) (state_of self.old))) }
    {
        self.done.push(token)?;
        if token.terminal.is_sign(Sign::Semicolon) {
            self.since.clear();
        } else {
            self.since.push(token)?;
        }
        Ok(())
    }

    /// The brace of the first block, with what is set behind it.
    fn begin(&mut self, token: Token<'a, 'l>) -> Result<(), AllocError>
        requires { self.old.left ≡ 0 }
        ensures { OnOk result (IsGone self.old self.new (begun (seen token.entry) (state_of self.old))) }
    {
        self.done.push(token)?;
        self.done.extend_from_slice(&self.late)?;
        self.since.clear();
        self.late.clear();
        self.inside = true;
        Ok(())
    }

    /// `=`, with an initializer behind it that is left out, if one follows.
    fn set(
        &mut self,
        alloc: Global,
        token: Token<'a, 'l>,
        rest: &[Token<'a, 'l>],
    ) -> Result<(), AllocError>
        requires outside { self.old.inside ≡ false }
        requires none { self.old.left ≡ 0 }
        ensures { OnOk result (IsGone self.old self.new (λ go. set_late (seen token.entry) (state_of self.old)
            (initial (seen_all self.old.since.items) (bare (seen_all rest.now))) go)) }
    {
        match initial(alloc, &self.since, rest)? {
            Some(found) => {
                self.since.clear();
                self.late.extend_from_slice(&found.sets)?;
                self.left = found.len;
                Ok(())
            }
            None => self.declare(token),
        }
    }

    /// The next token, before others.
    fn take(
        &mut self,
        alloc: Global,
        token: Token<'a, 'l>,
        rest: &[Token<'a, 'l>],
    ) -> Result<(), AllocError>
        ensures { OnOk result (with_globals self.old (seen token.entry ∷ seen_all rest.now) ≡ with_globals self.new (seen_all rest.now)) }
    {
        if token.terminal.is_directive() {
            self.done.push(token)?;
            return Ok(());
        }
        if self.left > 0 {
            self.left -= 1;
            return Ok(());
        }
        if self.inside {
            self.done.push(token)?;
            return Ok(());
        }
        if token.terminal.is_sign(Sign::OpenBrace) {
            return self.begin(token);
        }
        if token.terminal.is_sign(Sign::Equal) {
            return self.set(alloc, token, rest);
        }
        self.declare(token)
    }
}

/// The tokens without the initializers of globals, and with what they set at the beginning of `main`.
pub fn initialized<'a, 'l>(
    alloc: Global,
    tokens: &[Token<'a, 'l>],
) -> Result<Vec<Token<'a, 'l>>, AllocError>
    ensures { IfOk result (λ v. seen_all v.items ≡ initialized no_globals 0 (seen_all tokens.now)) }
{
    let mut globals = Globals {
        done: Vec::new(alloc),
        since: Vec::new(alloc),
        late: Vec::new(alloc),
        inside: false,
        left: 0,
    };
    let mut rest = tokens;
    'tokens: while let [token, behind @ ..] = rest {
        globals.take(alloc, *token, behind)?;
        rest = behind;
    }
    Ok(globals.done)
}
