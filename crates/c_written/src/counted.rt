//! Loops whose names are declared before them get their type, and the declarations are left out.

ghost use Rattle.std.specs.Prelude.{◌≡◌, IfOk};
ghost use Rattle.c_grammar.specs.Counters.{counted};
ghost use Rattle.c_terminals.specs.Seen.{seen_all};

use crate::boxes::depth_behind;
use crate::counters::{Before, Found, scanned};
use c_terminals::{Terminal, Token};
use directives::Word;
use std::alloc::{AllocError, Global};

/// The tokens so far.
#[derive(Drop)]
struct Counters<'a, 'l> {
    done: Vec<Token<'a, 'l>>,
    /// How many blocks are open.
    depth: usize,
    before: Before,
    /// How many tokens are still to be left out.
    left: usize,
}

impl<'a, 'l> Counters<'a, 'l> {
    ghost use Rattle.std.specs.Prelude.{◌≡◌, ◌∷◌, ◌++◌, [], OnOk};
    ghost use Rattle.c_grammar.specs.Blocks.{bare};
    ghost use Rattle.c_grammar.specs.Counters.{type_for};
    ghost use Rattle.c_written.specs.Counters.{seen_before, seen_found, with_counters};
    ghost use Rattle.c_terminals.specs.Seen.{seen, seen_all};

    /// The token, with its type where it lacks one.
    fn put(
        &mut self,
        found: &Found<'a>,
        token: Token<'a, 'l>,
        rest: &[Token<'a, 'l>],
    ) -> Result<(), AllocError>
        ensures done { OnOk result (seen_all self.new.done.items ≡ seen_all self.old.done.items ++
            (type_for (seen_found found.now) (seen_before self.old.before) (seen token.entry) (bare (seen_all rest.now)) ++
            seen token.entry ∷ [])) }
        ensures depth { OnOk result (self.new.depth ≡ self.old.depth) }
        ensures before { OnOk result (self.new.before ≡ self.old.before) }
        ensures left { OnOk result (self.new.left ≡ self.old.left) }
    {
        if found.is_bare(self.before, token, rest) {
            self.done.push(token.at(Terminal::Word(Word::Uint64)))?;
        }
        self.done.push(token)?;
        Ok(())
    }

    /// The next token, before others.
    fn take(
        &mut self,
        found: &Found<'a>,
        token: Token<'a, 'l>,
        rest: &[Token<'a, 'l>],
    ) -> Result<(), AllocError>
        ensures { OnOk result (with_counters (seen_found found.now) self.old (seen token.entry ∷ seen_all rest.now) ≡
            with_counters (seen_found found.now) self.new (seen_all rest.now)) }
    {
        if token.terminal.is_directive() {
            self.done.push(token)?;
            return Ok(());
        }
        if self.left > 0 {
            self.left -= 1;
            return Ok(());
        }
        if let Some(len) = found.declaration_len(self.depth, self.before, token, rest)? {
            self.left = len;
            self.before = Before::Other;
            return Ok(());
        }
        self.put(found, token, rest)?;
        self.depth = depth_behind(token, self.depth)?;
        self.before = self.before.behind(token);
        Ok(())
    }
}

/// The tokens with the types of these names in the heads of their loops.
pub fn counted<'a, 'l>(
    alloc: Global,
    tokens: &[Token<'a, 'l>],
) -> Result<Vec<Token<'a, 'l>>, AllocError>
    ensures { IfOk result (λ v. seen_all v.items ≡ counted (seen_all tokens.now)) }
{
    let found = scanned(alloc, tokens)?;
    let mut counters = Counters {
        done: Vec::new(alloc),
        depth: 0,
        before: Before::Other,
        left: 0,
    };
    let mut rest = tokens;
    'tokens: while let [token, behind @ ..] = rest {
        counters.take(&found, *token, behind)?;
        rest = behind;
    }
    Ok(counters.done)
}
