//! Updates that commute: where a reduction clause gathers them, each is an atomic update in its place.

ghost use Rattle.std.specs.Prelude.{◌≡◌, IfOk, map, true};
ghost use Rattle.c_grammar.specs.Blocks.{is_directive};
ghost use Rattle.c_grammar.specs.Updates.{Outside, commuting, has_extreme, is_changed, reduced};
ghost use Rattle.directives.specs.Ahead.{seen_line};
ghost use Rattle.directives.specs.Spells.{kinds_of};
ghost use Rattle.c_terminals.specs.Held.{seen_written, written_all};
ghost use Rattle.c_terminals.specs.Seen.{seen, seen_all, seen_terminal};
ghost use Rattle.c_written.specs.Updates.{line_put};

use crate::atomics::{atomic_line, compare_line, is_atomic, is_compare, mark_at};
use crate::cell_updates::{commutes, has_update, update};
use crate::extremes::extreme_at;
use crate::reductions::{Construct, is_combined};
use crate::regions::{Place, is_if};
use c_terminals::{Ahead, Terminal, Token, Written, WrittenTerminal, is_among};
use directives::LineTokens;
use std::alloc::{AllocError, Global};

// The line of a construct without the clauses that are taken, or with maps in their place.
fn reduced_line<'a>(
    alloc: Global,
    line: &LineTokens<'a>,
    region: &[Token<'a, '_>],
) -> Result<LineTokens<'a>, AllocError>
    ensures { IfOk result (λ l. seen_line l ≡ reduced (kinds_of (seen_line line.now)) (seen_all region.now) 0 (seen_line line.now)) }
{
    let construct = Construct {
        line: line.tokens(),
        region,
    };
    Ok(LineTokens::of(construct.reduced(alloc)?))
}

// Whether an `if` follows that stores the greater or the lesser of two numbers, without an `else`.
fn has_extreme(alloc: Global, rest: &[Token<'_, '_>]) -> Result<bool, AllocError>
    ensures { IfOk result (λ b. b ≡ has_extreme (seen_all rest.now)) }
{
    let [first, behind @ ..] = rest else {
        return Ok(false);
    };
    if !is_if(first.terminal) {
        return Ok(false);
    }
    match extreme_at(alloc, behind)? {
        Some(extreme) => Ok(extreme.mentions == 2),
        None => Ok(false),
    }
}

// Whether an update of one of the names begins at the token, before others.
fn is_changed(
    alloc: Global,
    names: &[&[u8]],
    token: Token<'_, '_>,
    rest: &[Token<'_, '_>],
) -> Result<bool, AllocError>
    ensures { IfOk result (λ b. b ≡ is_changed (map (λ x. x.now) names.now) (seen token.entry) (seen_all rest.now)) }
{
    if is_if(token.terminal) {
        return match extreme_at(alloc, rest)? {
            Some(extreme) => Ok(is_among(names, extreme.name)),
            None => Ok(false),
        };
    }
    let Terminal::Name(name) = token.terminal else {
        return Ok(false);
    };
    if !is_among(names, name) {
        return Ok(false);
    }
    match update(name, Ahead::new(rest)) {
        Some(op) => Ok(commutes(op)),
        None => Ok(false),
    }
}

// A directive line as it is put.
fn line_put<'a>(
    alloc: Global,
    token: Token<'a, '_>,
    behind: &[Token<'a, '_>],
) -> Result<Written<'a>, AllocError>
    requires { is_directive (seen_terminal token.terminal) ≡ true }
    ensures { IfOk result (λ w. seen_written w ≡ line_put (seen token.entry) (seen token.entry).terminal (seen_all behind.now)) }
{
    let Terminal::Line(line) = token.terminal else {
        return Written::of(alloc, token);
    };
    if is_combined(line.tokens()) {
        return Ok(Written {
            terminal: WrittenTerminal::Line(reduced_line(alloc, line, behind)?),
            line: token.line,
            column: token.column,
        });
    }
    if is_atomic(line.tokens()) {
        let updates = has_update(Ahead::new(behind));
        return Ok(Written {
            terminal: WrittenTerminal::Line(atomic_line(alloc, updates, line)?),
            line: token.line,
            column: token.column,
        });
    }
    if is_compare(line.tokens()) && has_extreme(alloc, behind)? {
        return Ok(Written {
            terminal: WrittenTerminal::Line(compare_line(alloc, line)?),
            line: token.line,
            column: token.column,
        });
    }
    Written::of(alloc, token)
}

/// What has been read, and the tokens so far.
#[derive(Drop)]
struct Updates<'a> {
    alloc: Global,
    done: Vec<Written<'a>>,
    /// The arrays that the clauses of a construct gather.
    names: Vec<&'a [u8]>,
    /// The place in that region; none outside of one.
    place: Option<Place>,
}

impl<'a> Updates<'a> {
    ghost use Rattle.std.specs.Prelude.{◌≡◌, ◌≤◌, ◌<◌, ◌+◌, ◌^◌, ◌∷◌, ◌++◌, [], false, true, IfOk, OnOk};
    ghost use Rattle.c_grammar.specs.Blocks.{is_directive};
    ghost use Rattle.c_grammar.specs.Updates.{mark_at};
    ghost use Rattle.c_terminals.specs.Held.{written_all};
    ghost use Rattle.c_terminals.specs.Seen.{seen, seen_all, seen_terminal};
    ghost use Rattle.c_written.specs.Updates.{depth_of, is_marked, line_region, region_behind, region_of, with_updates};

    /// The region of the construct on a line begins.
    fn begin_region(
        &mut self,
        token: Token<'a, '_>,
        behind: &[Token<'a, '_>],
    ) -> Result<(), AllocError>
        ensures region { OnOk result (region_of self.new ≡ line_region (seen token.entry).terminal (seen_all behind.now) (region_of self.old)) }
        ensures done { OnOk result (self.new.done ≡ self.old.done) }
        ensures few { OnOk result (depth_of self.new ≤ depth_of self.old) }
    {
        let Terminal::Line(line) = token.terminal else {
            return Ok(());
        };
        let construct = Construct {
            line: line.tokens(),
            region: behind,
        };
        if is_combined(construct.line) {
            self.names = construct.summed(self.alloc)?;
            self.place = Some(Place {
                depth: 0,
                starts: false,
            });
        }
        Ok(())
    }

    /// A directive line, before others.
    fn read_line(
        &mut self,
        token: Token<'a, '_>,
        behind: &[Token<'a, '_>],
    ) -> Result<(), AllocError>
        requires { is_directive (seen_terminal token.terminal) ≡ true }
        ensures done { OnOk result
            (with_updates self.old (seen token.entry ∷ seen_all behind.now) ≡ with_updates self.new (seen_all behind.now)) }
        ensures few { OnOk result (depth_of self.new ≤ depth_of self.old) }
    {
        self.done.push(line_put(self.alloc, token, behind)?)?;
        self.begin_region(token, behind)?;
        Ok(())
    }

    /// Whether a line is put in front of the token, before others.
    fn is_marked(&self, token: Token<'a, '_>, behind: &[Token<'a, '_>]) -> Result<bool, AllocError>
        ensures { IfOk result (λ b. b ≡ is_marked (region_of self.now) (seen token.entry) (seen_all behind.now)) }
    {
        let Some(place) = self.place else {
            return Ok(false);
        };
        if !place.starts {
            return Ok(false);
        }
        is_changed(self.alloc, &self.names, token, behind)
    }

    /// The region goes on behind the token, or ends.
    fn go_on(&mut self, token: Token<'a, '_>, behind: &[Token<'a, '_>])
        requires { depth_of self.old < 2 ^ 63 }
        ensures region { region_of self.new ≡ region_behind (region_of self.old) (seen token.entry) (seen_all behind.now) }
        ensures done { self.new.done ≡ self.old.done }
        ensures few { depth_of self.new ≤ depth_of self.old + 1 }
    {
        if let Some(place) = self.place {
            self.place = place.behind(token, behind);
        }
    }

    /// A token that is no such line, before others.
    fn read(&mut self, token: Token<'a, '_>, behind: &[Token<'a, '_>]) -> Result<(), AllocError>
        requires few { depth_of self.old < 2 ^ 63 }
        requires no_line { is_directive (seen_terminal token.terminal) ≡ false }
        ensures done { OnOk result
            (with_updates self.old (seen token.entry ∷ seen_all behind.now) ≡ with_updates self.new (seen_all behind.now)) }
        ensures few { OnOk result (depth_of self.new ≤ depth_of self.old + 1) }
    {
        if self.is_marked(token, behind)? {
            self.done.push(mark_at(self.alloc, token)?)?;
        }
        self.done.push(Written::of(self.alloc, token)?)?;
        self.go_on(token, behind);
        Ok(())
    }
}

/// The tokens, where each update that a reduction gathers is atomic, and `atomic` before an update is `atomic update`.
pub fn commuting<'a>(
    alloc: Global,
    tokens: &[Token<'a, '_>],
) -> Result<Vec<Written<'a>>, AllocError>
    ensures { IfOk result (λ v. written_all v.items ≡ commuting Outside (seen_all tokens.now)) }
{
    let mut updates = Updates {
        alloc,
        done: Vec::new(alloc),
        names: Vec::new(alloc),
        place: None,
    };
    let mut rest = tokens;
    'tokens: while let [token, behind @ ..] = rest {
        rest = behind;
        if token.terminal.is_directive() {
            updates.read_line(*token, behind)?;
        } else {
            updates.read(*token, behind)?;
        }
    }
    Ok(updates.done)
}
