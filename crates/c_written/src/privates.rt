//! Clauses `private` of a target: a name in one that the region declares itself is private to each of its turns anyway. So is
//! a scalar that each turn assigns before all else, which is declared there.

ghost use Rattle.std.specs.Prelude.{◌≡◌, ◌++◌, IfOk, OnOk, []};
ghost use Rattle.c_grammar.specs.Blocks.{bare};
ghost use Rattle.c_grammar.specs.Clauses.{at_begin};
ghost use Rattle.c_grammar.specs.Privates.{declared, kept, owned, owned_item, owned_lines, owned_tokens, scope, with_declared};
ghost use Rattle.directives.specs.Ahead.{seen_line};
ghost use Rattle.c_terminals.specs.Ahead.{ahead};
ghost use Rattle.c_terminals.specs.Held.{seen_written, written_all};
ghost use Rattle.c_terminals.specs.Names.{seen_names};
ghost use Rattle.c_terminals.specs.Seen.{seen, seen_all};
ghost use Rattle.c_written.specs.Forms.{all_placed};

use crate::clauses::{Place, Scope, place_after, with_comma};
use crate::line_forms::{is_name, is_sign};
use crate::moves::{all_moved, moved_names};
use crate::noted::noted;
use crate::presence::{is_target, opens_part};
use crate::used::goes_on;
use crate::values::Values;
use c_terminals::{Ahead, Names, Terminal, Token, Written, WrittenTerminal, borrowed};
use c_tokens::Sign;
use directives::{LineTokens, PlacedLexeme, Word};
use std::alloc::{AllocError, Global};

// ---- the names that a region declares

// Adds the name that is declared by a token and the next one.
fn add_declared<'a>(
    names: &mut Names<'a>,
    token: Token<'a, '_>,
    rest: Ahead<'a, '_, '_>,
) -> Result<(), AllocError>
    ensures { OnOk result (seen_names names.new ≡ with_declared (seen token.entry) (ahead rest.entry) (seen_names names.old)) }
{
    let mut ahead = rest;
    let Some(next) = ahead.next() else {
        return Ok(());
    };
    if !token.terminal.is_word(Word::Uint64) {
        return Ok(());
    }
    if let Terminal::Name(name) = next.terminal {
        names.declare(name)?;
    }
    Ok(())
}

// The names that the statement declares that begins there.
pub fn declared<'a>(alloc: Global, tokens: &[Token<'a, '_>]) -> Result<Names<'a>, AllocError>
    ensures { IfOk result (λ n. seen_names n ≡ declared [] 0 (bare (seen_all tokens.now))) }
{
    let mut names = Names::new(alloc);
    let mut depth = 0usize;
    let mut ahead = Ahead::new(tokens);
    'tokens: while let Some(token) = ahead.next() {
        add_declared(&mut names, token, ahead)?;
        if opens_part(token) {
            depth += 1;
        } else if token.terminal.is_sign(Sign::CloseBrace) {
            if !goes_on(depth, ahead) {
                return Ok(names);
            }
            depth = depth.saturating_sub(1);
        } else if token.terminal.is_sign(Sign::CloseParen) {
            depth = depth.saturating_sub(1);
        } else if token.terminal.is_sign(Sign::Semicolon) && depth == 0 {
            return Ok(names);
        }
    }
    Ok(names)
}

// ---- the clauses

/// A line so far.
#[derive(Drop)]
struct Kept<'v, 'a> {
    scope: Scope<'v, 'a>,
    done: Vec<PlacedLexeme<'a>>,
    place: Place,
    /// How many tokens are still to be left out.
    left: usize,
}

impl<'v, 'a> Kept<'v, 'a> {
    ghost use Rattle.std.specs.Prelude.{◌≡◌, ◌<◌, ◌≤◌, ◌+◌, ◌^◌, ◌++◌, ◌∷◌, length, IfSome, OnOk};
    ghost use Rattle.c_grammar.specs.Privates.{leaves, owned_len, private_len};
    ghost use Rattle.directives.specs.Seen.{seen_placed};
    ghost use Rattle.c_written.specs.Clauses.{seen_place, seen_scope};
    ghost use Rattle.c_written.specs.Forms.{all_placed};
    ghost use Rattle.c_written.specs.Privates.{with_kept};

    // How many tokens stand behind the word of a clause with such names.
    fn private_len(&self, rest: &[PlacedLexeme<'a>]) -> Option<usize>
        ensures len { result ≡ private_len (seen_scope self.now.scope) (all_placed rest.now) }
        ensures within { IfSome result (λ k. k + 1 ≤ length rest.now) }
    {
        match rest {
            [word, bracket, behind @ ..] => {
                if is_name(word.lexeme, b"private") && is_sign(bracket.lexeme, Sign::OpenParen) {
                    self.scope.names_len(false, behind)
                } else {
                    None
                }
            }
            _ => None,
        }
    }

    // With the comma behind it.
    fn owned_len(&self, rest: &[PlacedLexeme<'a>]) -> Option<usize>
        ensures { result ≡ owned_len (seen_scope self.now.scope) (all_placed rest.now) }
    {
        let count = self.private_len(rest)?;
        with_comma(count, &rest[count + 1..])
    }

    // How many tokens more are left out with the first, if it is.
    fn leaves(&self, rest: &[PlacedLexeme<'a>]) -> Option<usize>
        ensures { result ≡ leaves (seen_scope self.now.scope) (seen_place self.now.place) (all_placed rest.now) }
    {
        let [first, behind @ ..] = rest else {
            return None;
        };
        if self.place.depth != 0 {
            return None;
        }
        if self.place.ended
            && is_sign(first.lexeme, Sign::Comma)
            && self.owned_len(behind).is_some()
        {
            return Some(0);
        }
        self.owned_len(rest)
    }

    /// The next token, which stands first among the rest of the line.
    fn take(
        &mut self,
        placed: PlacedLexeme<'a>,
        behind: &[PlacedLexeme<'a>],
        rest: &[PlacedLexeme<'a>],
    ) -> Result<(), AllocError>
        requires rest { all_placed rest.now ≡ seen_placed placed ∷ all_placed behind.now }
        requires depth { self.old.place.depth < 2 ^ 63 }
        ensures taken { OnOk result (with_kept self.old (all_placed rest.now) ≡ with_kept self.new (all_placed behind.now)) }
        ensures depth { OnOk result (self.new.place.depth ≤ self.old.place.depth + 1) }
    {
        if behind.is_empty() {
            self.done.push(placed)?;
            return Ok(());
        }
        if self.left > 0 {
            self.left -= 1;
            return Ok(());
        }
        match self.leaves(rest) {
            Some(more) => self.left = more,
            None => {
                self.done.push(placed)?;
                self.place = place_after(placed.lexeme, self.place);
            }
        }
        Ok(())
    }
}

// The tokens behind the words `pragma omp target`.
fn kept_behind<'a>(
    alloc: Global,
    names: &Names<'a>,
    words: [PlacedLexeme<'a>; 3],
    rest: &[PlacedLexeme<'a>],
) -> Result<Vec<PlacedLexeme<'a>>, AllocError>
    ensures { IfOk result (λ v. all_placed v.items ≡
        all_placed words.entry ++ kept (scope (seen_names names.now)) at_begin 0 (all_placed rest.now)) }
{
    let arrays = Values::new(alloc);
    let mut kept = Kept {
        scope: Scope::of_names(names, &arrays),
        done: Vec::from_slice(alloc, &words)?,
        place: Place::begin(),
        left: 0,
    };
    let mut rest = rest;
    'tokens: while let [placed, behind @ ..] = rest {
        kept.take(*placed, behind, rest)?;
        rest = behind;
    }
    Ok(kept.done)
}

// A line without the clauses of these names.
fn owned_line<'a>(
    alloc: Global,
    names: &Names<'a>,
    line: &LineTokens<'a>,
) -> Result<LineTokens<'a>, AllocError>
    ensures { IfOk result (λ l. seen_line l ≡ owned_tokens (seen_names names.now) (seen_line line.now)) }
{
    match line.tokens() {
        [first, second, third, rest @ ..] => {
            let tokens = kept_behind(alloc, names, [*first, *second, *third], rest)?;
            Ok(LineTokens::of(tokens))
        }
        _ => line.copy(alloc),
    }
}

// ---- all tokens

fn owned_token<'a>(
    alloc: Global,
    token: Token<'a, '_>,
    behind: &[Token<'a, '_>],
) -> Result<Written<'a>, AllocError>
    ensures { IfOk result (λ w. seen_written w ≡ owned_item (seen token.entry) (seen token.entry).terminal (bare (seen_all behind.now))) }
{
    if let Terminal::Line(line) = token.terminal {
        if token.terminal.is_directive() && is_target(line.tokens()) {
            let names = declared(alloc, behind)?;
            return Ok(Written {
                terminal: WrittenTerminal::Line(owned_line(alloc, &names, line)?),
                line: token.line,
                column: token.column,
            });
        }
    }
    Written::of(alloc, token)
}

// The tokens without the clauses `private` of names that the region declares.
fn owned_lines<'a>(alloc: Global, tokens: &[Token<'a, '_>]) -> Result<Vec<Written<'a>>, AllocError>
    ensures { IfOk result (λ v. written_all v.items ≡ owned_lines (seen_all tokens.now)) }
{
    let mut done = Vec::new(alloc);
    let mut rest = tokens;
    'tokens: while let [token, behind @ ..] = rest {
        rest = behind;
        done.push(owned_token(alloc, *token, behind)?)?;
    }
    Ok(done)
}

/// The tokens with scalars declared where they are first assigned, and without the clauses `private` of names that the
/// region declares.
pub fn owned<'a>(alloc: Global, tokens: &[Token<'a, '_>]) -> Result<Vec<Written<'a>>, AllocError>
    ensures { IfOk result (λ v. written_all v.items ≡ owned (seen_all tokens.now)) }
{
    let names = moved_names(alloc, tokens)?;
    let noted = noted(alloc, &names, tokens)?;
    let tokens = borrowed(alloc, &noted)?;
    let tokens = all_moved(alloc, &names, &tokens)?;
    owned_lines(alloc, &tokens)
}
