//! Functions that stand before `main`, which are left out where they are defined.

ghost use Rattle.std.specs.Prelude.{◌≡◌, ◌&&◌, ◌||◌, ◌++◌, ◌∷◌, [], true, map, IfOk, OnOk};
ghost use Rattle.std.specs.Option.{option_map};
ghost use Rattle.c_grammar.specs.Blocks.{bare};
ghost use Rattle.c_grammar.specs.Lexeme.{Int};
ghost use Rattle.c_grammar.specs.Terminal.{Fixed, same};
ghost use Rattle.c_grammar.specs.Functions.{Outside, begins_declaration, begins_function, declared_in, defined, expanded, has_function, has_value, is_assigned, is_assigning, is_main, is_specifier, is_static, is_step, main_follows, name_in, nothing_known, returned, specifies, value_at, words};
ghost use Rattle.c_grammar.specs.FunctionHeads.{is_type};
ghost use Rattle.c_terminals.specs.Ahead.{ahead};
ghost use Rattle.c_written.specs.Functions.{is_outside, seen_returned};
ghost use Rattle.c_terminals.specs.Held.{written_all};
ghost use Rattle.c_terminals.specs.Seen.{seen, seen_all, seen_terminal};

use crate::calls::{Function, Parameter, Scope, bare_len, called, put_tokens};
use crate::changes::is_boundary;
use crate::constants::worked;
use crate::heads::{Declared, Gives, Headed, head_at};
use crate::operators::Change;
use crate::presence::guarded;
use crate::puts::{Other, Put, Puts, unspelled};
use c_terminals::{Ahead, Terminal, Token, Written, borrowed, is_among, owned};
use c_tokens::Sign;
use directives::Word;
use std::alloc::{AllocError, Global};

const MOST_NAMES: usize = 512;

const MOST_EXPANDED: usize = 131_072;

const MOST_LINES: usize = 16;

const MOST_KNOWN: usize = 1026;

// Where a token stands.
#[derive(Drop)]
enum Place<'a> {
    Outside(bool),
    InHead(Headed<'a>, usize),
    // In so many blocks, behind so many directives in a row.
    InBody(Headed<'a>, usize, usize),
}

// The source so far.
#[derive(Drop)]
struct Source<'a, 'l> {
    done: Vec<Written<'a>>,
    scope: Scope<'a>,
    // Which of the names that no source can spell comes next.
    next: usize,
    room: usize,
    // The function so far, and its body.
    raw: Vec<Token<'a, 'l>>,
    body: Vec<Token<'a, 'l>>,
}

fn is_specifier(terminal: Terminal<'_, '_>) -> bool
    ensures { result ≡ is_specifier (seen_terminal terminal.entry) }
{
    terminal.is_named(b"static") || terminal.is_named(b"inline")
}

fn is_type(terminal: Terminal<'_, '_>) -> bool
    ensures { result ≡ is_type (seen_terminal terminal.entry) }
{
    terminal.is_word(Word::Void) || terminal.is_word(Word::Uint64) || terminal.is_word(Word::Int)
}

fn specifies(start: Ahead<'_, '_, '_>) -> bool
    ensures { result ≡ specifies (ahead start.entry) }
{
    let mut ahead = start;
    match ahead.next() {
        Some(token) => is_specifier(token.terminal) || is_type(token.terminal),
        None => false,
    }
}

// Whether it is a type that a declaration begins with.
fn begins_declaration(terminal: Terminal<'_, '_>) -> bool
    ensures { result ≡ begins_declaration (seen_terminal terminal.entry) }
{
    terminal.is_word(Word::Uint64)
        || terminal.is_word(Word::Int)
        || terminal.is_named(b"bool")
        || terminal.is_named(b"_Bool")
}

// The names right behind a type.
fn add_declared<'a>(tokens: &[Token<'a, '_>], names: &mut Vec<&'a [u8]>) -> Result<(), AllocError>
    ensures { OnOk result (map (λ x. x.now) names.new.items ≡ map (λ x. x.now) names.old.items ++ declared_in (bare (seen_all tokens.now))) }
{
    let mut ahead = Ahead::new(tokens);
    let mut typed = false;
    'tokens: while let Some(token) = ahead.next() {
        if let Terminal::Name(name) = token.terminal {
            if typed {
                names.push(name)?;
            }
        }
        typed = begins_declaration(token.terminal);
    }
    Ok(())
}

fn is_step(terminal: Terminal<'_, '_>) -> bool
    ensures { result ≡ is_step (seen_terminal terminal.entry) }
{
    terminal.is_sign(Sign::PlusPlus) || terminal.is_sign(Sign::MinusMinus)
}

fn is_assigning(terminal: Terminal<'_, '_>) -> bool
    ensures { result ≡ is_assigning (seen_terminal terminal.entry) }
{
    terminal.is_sign(Sign::Equal) || Change::of(terminal).is_some()
}

// Whether behind the name stands what assigns it, or before it `++` or `--`.
fn is_assigned(name: &[u8], tokens: &[Token<'_, '_>]) -> bool
    ensures { result ≡ is_assigned name.now (bare (seen_all tokens.now)) }
{
    let mut ahead = Ahead::new(tokens);
    let Some(first) = ahead.next() else {
        return false;
    };
    let mut before = first;
    'tokens: while let Some(token) = ahead.next() {
        if before.terminal.is_named(name) && is_assigning(token.terminal) {
            return true;
        }
        if is_step(before.terminal) && token.terminal.is_named(name) {
            return true;
        }
        before = token;
    }
    false
}

// Whether there is a token that is no directive.
fn has_value(tokens: &[Token<'_, '_>]) -> bool
    ensures { result ≡ has_value (bare (seen_all tokens.now)) }
{
    Ahead::new(tokens).next().is_some()
}

// The front of a body, and what is returned at its end.
#[derive(Drop)]
struct Returned<'a, 'l> {
    front: Vec<Token<'a, 'l>>,
    value: Vec<Token<'a, 'l>>,
}

// What is returned by these tokens, if they are a value up to a semicolon behind which stand directives alone.
fn value_at<'a, 'l>(
    alloc: Global,
    front: Vec<Token<'a, 'l>>,
    tokens: &[Token<'a, 'l>],
) -> Result<Option<Returned<'a, 'l>>, AllocError>
    ensures { IfOk result (λ o. option_map seen_returned o ≡ value_at (seen_all front.entry.items) [] (seen_all tokens.now)) }
{
    let mut value = Vec::new(alloc);
    let mut rest = tokens;
    'tokens: while let [token, behind @ ..] = rest {
        rest = behind;
        if token.terminal.is_sign(Sign::Semicolon) {
            if !has_value(&value) || has_value(behind) {
                return Ok(None);
            }
            value.extend_from_slice(behind)?;
            return Ok(Some(Returned { front, value }));
        }
        if is_boundary(token.terminal) {
            return Ok(None);
        }
        value.push(*token)?;
    }
    Ok(None)
}

// A body with what is returned at its end.
fn returned_in<'a, 'l>(
    alloc: Global,
    body: &[Token<'a, 'l>],
) -> Result<Option<Returned<'a, 'l>>, AllocError>
    ensures { IfOk result (λ o. option_map seen_returned o ≡ returned [] (seen_all body.now)) }
{
    let mut front = Vec::new(alloc);
    let mut rest = body;
    'tokens: while let [token, behind @ ..] = rest {
        rest = behind;
        if token.terminal.is_named(b"return") {
            return value_at(alloc, front, rest);
        }
        front.push(*token)?;
    }
    Ok(None)
}

impl<'a, 'l> Source<'a, 'l> {
    ghost use Rattle.std.specs.Prelude.{◌≡◌, ◌++◌, ◌∷◌, ◌+◌, ◌<◌, ◌&&◌, [], false, true, not, length, map, nat_lt, Some, IfOk, OnOk, if◌then◌else◌};
    ghost use Rattle.c_grammar.specs.Blocks.{bare, is_directive};
    ghost use Rattle.c_grammar.specs.Constants.{is_among};
    ghost use Rattle.c_grammar.specs.Functions.{InBody, Onward, Outside, added, array_names, called, closed, function_with, in_body, is_main, known_names, line_in, most_known, names_in, outside, parameters_from, puts_from, raw_in, returned_by};
    ghost use Rattle.c_grammar.specs.Unspelled.{most_names};
    ghost use Rattle.c_terminals.specs.Ahead.{ahead};
    ghost use Rattle.c_written.specs.Functions.{all_declared, all_parameters, functions_of, globals_of, known_in, place_in, puts_of, seen_function, seen_gives, seen_headed, seen_returned, with_source};
    ghost use Rattle.c_terminals.specs.Held.{written_all};
    ghost use Rattle.c_terminals.specs.Seen.{seen, seen_all};

    // The names that a function may know.
    fn names(&self, alloc: Global) -> Result<Vec<&'a [u8]>, AllocError>
        ensures { IfOk result (λ v. map (λ x. x.now) v.items ≡ known_names (known_in self.now)) }
    {
        let mut names = Vec::new(alloc);
        names.extend_from_slice(&self.scope.globals)?;
        'functions: for function in &self.scope.functions {
            names.push(function.name)?;
        }
        Ok(names)
    }

    fn parameters(
        &self,
        alloc: Global,
        declared: &[Declared<'a>],
        front: &[Token<'a, 'l>],
    ) -> Result<Vec<Parameter>, AllocError>
        requires { self.now.next + length declared.now < most_names }
        ensures { IfOk result (λ v. all_parameters v.items ≡ parameters_from self.now.next (bare (seen_all front.now)) (all_declared declared.now)) }
    {
        let mut parameters = Vec::new(alloc);
        'declared: for one in declared {
            let number = self.next + parameters.len();
            parameters.push(Parameter {
                name: unspelled(number),
                sort: one.sort,
                assigned: is_assigned(one.name, front),
            })?;
        }
        Ok(parameters)
    }

    // The names of the parameters that are arrays.
    fn arrays(&self, alloc: Global, declared: &[Declared<'a>]) -> Result<Vec<&'a [u8]>, AllocError>
        requires { self.now.next < most_names }
        ensures { IfOk result (λ v. map (λ x. x.now) v.items ≡ array_names self.now.next (all_declared declared.now)) }
    {
        let mut arrays = Vec::new(alloc);
        let mut number = self.next;
        'declared: for one in declared {
            if one.sort.is_array() {
                arrays.push(unspelled(number))?;
            }
            number = number.saturating_add(1);
        }
        Ok(arrays)
    }

    fn puts(&self, alloc: Global, names: &[&'a [u8]]) -> Result<Puts<'a>, AllocError>
        requires { self.now.next + length names.now < most_names }
        ensures { IfOk result (λ p. puts_of p ≡ puts_from self.now.next (map (λ x. x.now) names.now)) }
    {
        let mut puts = Puts::new(alloc);
        'names: for name in names {
            let number = self.next + puts.list.len();
            puts.list.push((*name, Put::Name(unspelled(number))))?;
        }
        Ok(puts)
    }

    // The names that the head and the body of a function declare.
    fn declared(
        &self,
        alloc: Global,
        head: &Headed<'a>,
        front: &[Token<'a, 'l>],
    ) -> Result<Vec<&'a [u8]>, AllocError>
        ensures { IfOk result (λ v. map (λ x. x.now) v.items ≡ names_in (seen_headed head.now) (seen_all front.now)) }
    {
        let mut names = Vec::new(alloc);
        'declared: for declared in &head.declared {
            names.push(declared.name)?;
        }
        add_declared(front, &mut names)?;
        Ok(names)
    }

    // Whether a function of that name, with so many names, may be added to these.
    fn may_add(&self, known: &[&'a [u8]], name: &[u8], names: usize) -> bool
        ensures { result ≡ (not (is_among (map (λ x. x.now) known.now) name.now) && nat_lt (length (map (λ x. x.now) known.now)) most_known &&
            nat_lt (self.now.next + names) most_names) }
    {
        if is_among(known, name) || known.len() >= MOST_KNOWN {
            return false;
        }
        match self.next.checked_add(names) {
            Some(all) => all < MOST_NAMES,
            None => false,
        }
    }

    // The function with these names, among those that are known.
    fn function(
        &self,
        alloc: Global,
        head: &Headed<'a>,
        returned: &Returned<'a, 'l>,
        known: &[&'a [u8]],
        names: &[&'a [u8]],
    ) -> Result<Function<'a>, AllocError>
        requires few { self.now.next + length names.now < most_names }
        requires known { map (λ x. x.now) known.now ≡ known_names (known_in self.now) }
        requires names { map (λ x. x.now) names.now ≡ names_in (seen_headed head.now) (seen_all returned.now.front.items) }
        ensures { IfOk result (λ f. seen_function f ≡ function_with (known_in self.now) (seen_headed head.now) (seen_returned returned.now)) }
    {
        let puts = self.puts(alloc, names)?;
        let other = Other::Known(known);
        let mut front = Vec::new(alloc);
        puts.put_all(alloc, other, &returned.front, &mut front)?;
        let arrays = self.arrays(alloc, &head.declared)?;
        let front = guarded(alloc, &arrays, &borrowed(alloc, &front)?)?;
        let mut value = Vec::new(alloc);
        puts.put_all(alloc, other, &returned.value, &mut value)?;
        Ok(Function {
            name: head.name,
            parameters: self.parameters(alloc, &head.declared, &returned.front)?,
            body: self.called(alloc, &front)?,
            value,
        })
    }

    // The tokens of a body with their calls.
    fn called(&self, alloc: Global, front: &[Written<'a>]) -> Result<Vec<Written<'a>>, AllocError>
        ensures { IfOk result (λ v. written_all v.items ≡ called (globals_of self.now.scope) (functions_of self.now.scope) true self.now.room 0 (written_all front.now)) }
    {
        let mut body = Vec::new(alloc);
        let front = borrowed(alloc, front)?;
        called(alloc, &self.scope, true, self.room, &front, &mut body)?;
        Ok(body)
    }

    // Adds a function with this body and value. False where it is none.
    fn add(
        &mut self,
        alloc: Global,
        head: &Headed<'a>,
        returned: &Returned<'a, 'l>,
    ) -> Result<bool, AllocError>
        ensures added { IfOk result (λ b. (if b then Some (known_in self.new) else None) ≡ added (known_in self.old) (seen_headed head.now) (Some (seen_returned returned.now))) }
        ensures refused { IfOk result (λ b. b ≡ false → known_in self.new ≡ known_in self.old) }
        ensures raw { IfOk result (λ b. self.new.raw ≡ self.old.raw) }
        ensures done { IfOk result (λ b. self.new.done ≡ self.old.done) }
    {
        let known = self.names(alloc)?;
        let names = self.declared(alloc, head, &returned.front)?;
        if !self.may_add(&known, head.name, names.len()) {
            return Ok(false);
        }
        let function = self.function(alloc, head, returned, &known, &names)?;
        self.room = self.room.saturating_sub(bare_len(&function.body));
        self.next += names.len();
        self.scope.functions.push(function)?;
        Ok(true)
    }

    // What is returned by the body that was read.
    fn returned(&self, alloc: Global, gives: Gives) -> Result<Option<Returned<'a, 'l>>, AllocError>
        ensures { IfOk result (λ o. option_map seen_returned o ≡ returned_by (seen_gives gives) (seen_all self.now.body.items)) }
    {
        match gives {
            Gives::NoValue => Ok(Some(Returned {
                front: Vec::from_slice(alloc, &self.body)?,
                value: Vec::new(alloc),
            })),
            Gives::AValue => returned_in(alloc, &self.body),
            Gives::AStatus => match returned_in(alloc, &self.body)? {
                Some(returned) => Ok(Some(Returned {
                    front: returned.front,
                    value: Vec::new(alloc),
                })),
                None => Ok(None),
            },
        }
    }

    // Behind the last brace of a body. What is no function stays as it is.
    fn close(&mut self, alloc: Global, head: &Headed<'a>) -> Result<(), AllocError>
        ensures { OnOk result ((go : Onward) → written_all self.old.done.items ++ closed (known_in self.old) (seen_all self.old.raw.items) (added (known_in self.old) (seen_headed head.now) (returned_by (seen_gives head.now.gives) (seen_all self.old.body.items))) go ≡
            written_all self.new.done.items ++ go (known_in self.new) (Outside true)) }
    {
        if let Some(found) = self.returned(alloc, head.gives)? {
            if self.add(alloc, head, &found)? {
                return Ok(());
            }
        }
        self.give_back(alloc)
    }

    // The tokens of what is no function.
    fn give_back(&mut self, alloc: Global) -> Result<(), AllocError>
        ensures done { OnOk result (written_all self.new.done.items ≡ written_all self.old.done.items ++ seen_all self.old.raw.items) }
        ensures known { OnOk result (known_in self.new ≡ known_in self.old) }
    {
        put_tokens(alloc, &mut self.done, &self.raw)
    }

    // A token that stays as it is.
    fn keep(&mut self, alloc: Global, token: Token<'a, 'l>) -> Result<(), AllocError>
        ensures done { OnOk result (written_all self.new.done.items ≡ written_all self.old.done.items ++ seen token.entry ∷ []) }
        ensures known { OnOk result (known_in self.new ≡ known_in self.old) }
        ensures raw { OnOk result (self.new.raw ≡ self.old.raw) }
        ensures body { OnOk result (self.new.body ≡ self.old.body) }
    {
        self.done.push(Written::of(alloc, token)?)?;
        Ok(())
    }

    fn outside(
        &mut self,
        alloc: Global,
        begins: bool,
        token: Token<'a, 'l>,
        behind: &[Token<'a, 'l>],
    ) -> Result<Place<'a>, AllocError>
        ensures { IfOk result (λ p. (go : Onward) → written_all self.old.done.items ++ outside (known_in self.old) begins (seen token.entry) (bare (seen_all behind.now)) go ≡
            written_all self.new.done.items ++ go (known_in self.new) (place_in self.new p)) }
    {
        if begins {
            if is_specifier(token.terminal) && specifies(Ahead::new(behind)) {
                return Ok(Place::Outside(true));
            }
            if let Some(head) = head_at(alloc, token, Ahead::new(behind))? {
                self.raw.clear();
                self.raw.push(token)?;
                let left = head.len;
                return Ok(Place::InHead(head, left));
            }
        }
        if token.terminal.is_word(Word::Uint64) {
            add_name(behind, &mut self.scope.globals)?;
        }
        self.keep(alloc, token)?;
        Ok(Place::Outside(is_boundary(token.terminal)))
    }

    fn in_body(
        &mut self,
        alloc: Global,
        head: Headed<'a>,
        depth: usize,
        token: Token<'a, 'l>,
    ) -> Result<Place<'a>, AllocError>
        ensures { IfOk result (λ p. (go : Onward) → written_all self.old.done.items ++ in_body (known_in self.old) (seen_headed head.entry) (seen_all self.old.raw.items) (seen_all self.old.body.items) depth (seen token.entry) go ≡
            written_all self.new.done.items ++ go (known_in self.new) (place_in self.new p)) }
    {
        if token.terminal.is_sign(Sign::OpenBrace) {
            let deeper = depth.checked_add(1).ok_or(AllocError)?;
            return self.inside(head, deeper, token);
        }
        if !token.terminal.is_sign(Sign::CloseBrace) {
            return self.inside(head, depth, token);
        }
        if depth > 0 {
            return self.inside(head, depth - 1, token);
        }
        self.close(alloc, &head)?;
        Ok(Place::Outside(true))
    }

    // A token of a body, behind which so many blocks are open.
    fn inside(
        &mut self,
        head: Headed<'a>,
        depth: usize,
        token: Token<'a, 'l>,
    ) -> Result<Place<'a>, AllocError>
        ensures place { IfOk result (λ p. place_in self.new p ≡ InBody (seen_headed head.entry) (seen_all self.old.raw.items) (seen_all self.old.body.items ++ seen token.entry ∷ []) depth 0) }
        ensures known { IfOk result (λ p. known_in self.new ≡ known_in self.old) }
        ensures done { IfOk result (λ p. self.new.done ≡ self.old.done) }
    {
        self.body.push(token)?;
        Ok(Place::InBody(head, depth, 0))
    }

    // The next token, before others, which does not begin `main`.
    fn take(
        &mut self,
        alloc: Global,
        place: Place<'a>,
        token: Token<'a, 'l>,
        behind: &[Token<'a, 'l>],
    ) -> Result<Place<'a>, AllocError>
        requires token { is_directive (seen token).terminal ≡ false }
        requires main { is_main (place_in self.old place) (seen token) (bare (seen_all behind.now)) ≡ false }
        ensures { IfOk result (λ p. with_source self.old place.entry (seen token.entry ∷ seen_all behind.now) ≡ with_source self.new p (seen_all behind.now)) }
    {
        match place {
            Place::Outside(begins) => self.outside(alloc, begins, token, behind),
            Place::InHead(head, left) => {
                self.raw.push(token)?;
                if left > 1 {
                    return Ok(Place::InHead(head, left - 1));
                }
                self.body.clear();
                Ok(Place::InBody(head, 0, 0))
            }
            Place::InBody(head, depth, _) => {
                self.raw.push(token)?;
                self.in_body(alloc, head, depth, token)
            }
        }
    }

    // A directive. In a body it belongs to it, unless too many stand in a row.
    fn line(
        &mut self,
        alloc: Global,
        place: Place<'a>,
        token: Token<'a, 'l>,
    ) -> Result<Place<'a>, AllocError>
        ensures { IfOk result (λ p. (go : Onward) → written_all self.old.done.items ++ line_in (known_in self.old) (place_in self.old place.entry) (seen token.entry) go ≡
            written_all self.new.done.items ++ go (known_in self.new) (place_in self.new p)) }
    {
        match place {
            Place::InBody(head, depth, lines) if lines < MOST_LINES => {
                self.raw.push(token)?;
                self.body.push(token)?;
                Ok(Place::InBody(head, depth, lines + 1))
            }
            place => {
                self.keep(alloc, token)?;
                Ok(place)
            }
        }
    }

    // From the first token of `main` on.
    fn main(
        mut self,
        alloc: Global,
        token: Token<'a, 'l>,
        behind: &[Token<'a, 'l>],
    ) -> Result<Vec<Written<'a>>, AllocError>
        ensures { IfOk result (λ v. written_all v.items ≡ written_all self.entry.done.items ++ (seen token.entry ∷
            called (globals_of self.entry.scope) (functions_of self.entry.scope) false self.entry.room 0 (seen_all behind.now))) }
    {
        self.keep(alloc, token)?;
        let mut done = self.done;
        called(alloc, &self.scope, false, self.room, behind, &mut done)?;
        Ok(done)
    }

    // Where the tokens end. What is no function stays as it is.
    fn end(mut self, alloc: Global, place: Place<'a>) -> Result<Vec<Written<'a>>, AllocError>
        ensures { IfOk result (λ v. written_all v.items ≡ written_all self.entry.done.items ++ raw_in (place_in self.entry place.entry)) }
    {
        match place {
            Place::Outside(_) => Ok(self.done),
            _ => {
                self.give_back(alloc)?;
                Ok(self.done)
            }
        }
    }
}

// The name that comes next, if one does.
fn add_name<'a>(behind: &[Token<'a, '_>], names: &mut Vec<&'a [u8]>) -> Result<(), AllocError>
    ensures { OnOk result (map (λ x. x.now) names.new.items ≡ map (λ x. x.now) names.old.items ++ name_in (bare (seen_all behind.now))) }
{
    if let Some(next) = Ahead::new(behind).next() {
        if let Terminal::Name(name) = next.terminal {
            names.push(name)?;
        }
    }
    Ok(())
}

// Whether the token begins `main`.
fn is_main(place: &Place<'_>, token: Token<'_, '_>, behind: &[Token<'_, '_>]) -> bool
    ensures { result ≡ (is_outside place.now && (same (Fixed Int) (seen token.entry).terminal && main_follows (bare (seen_all behind.now)))) }
{
    match place {
        Place::Outside(_) => token.terminal.is_word(Word::Int) && follows_main(behind),
        _ => false,
    }
}

fn follows_main(behind: &[Token<'_, '_>]) -> bool
    ensures { result ≡ main_follows (bare (seen_all behind.now)) }
{
    match Ahead::new(behind).next() {
        Some(next) => next.terminal.is_word(Word::Main),
        None => false,
    }
}

/// Words of C that a body may have, which are names here.
fn words<'a>(alloc: Global) -> Result<Vec<&'a [u8]>, AllocError>
    ensures { IfOk result (λ v. map (λ x. x.now) v.items ≡ words) }
{
    let mut words = Vec::new(alloc);
    words.push(b"while".as_slice())?;
    words.push(b"continue".as_slice())?;
    Ok(words)
}

fn defined<'a>(alloc: Global, tokens: &[Token<'a, '_>]) -> Result<Vec<Written<'a>>, AllocError>
    ensures { IfOk result (λ v. written_all v.items ≡ defined nothing_known (Outside true) (seen_all tokens.now)) }
{
    let mut source = Source {
        done: Vec::new(alloc),
        scope: Scope {
            globals: words(alloc)?,
            functions: Vec::new(alloc),
        },
        next: 1,
        room: MOST_EXPANDED,
        raw: Vec::new(alloc),
        body: Vec::new(alloc),
    };
    let mut place = Place::Outside(true);
    let mut rest = tokens;
    'tokens: while let [token, behind @ ..] = rest {
        rest = behind;
        if token.terminal.is_directive() {
            place = source.line(alloc, place, *token)?;
            continue;
        }
        if is_main(&place, *token, behind) {
            return source.main(alloc, *token, behind);
        }
        place = source.take(alloc, place, *token, behind)?;
    }
    source.end(alloc, place)
}

// Whether a function may be defined, or something is static.
fn has_function(tokens: &[Token<'_, '_>]) -> bool
    ensures { result ≡ (has_function (bare (seen_all tokens.now)) || is_static (bare (seen_all tokens.now))) }
{
    let mut ahead = Ahead::new(tokens);
    'tokens: while let Some(token) = ahead.next() {
        if is_specifier(token.terminal) {
            return true;
        }
        if begins_function(token, ahead) {
            return true;
        }
    }
    false
}

// Whether a type, a name and a bracket stand there.
fn begins_function(token: Token<'_, '_>, behind: Ahead<'_, '_, '_>) -> bool
    ensures { result ≡ begins_function (seen token.entry ∷ ahead behind.entry) }
{
    let mut ahead = behind;
    let Some(name) = ahead.next() else {
        return false;
    };
    let Some(bracket) = ahead.next() else {
        return false;
    };
    is_type(token.terminal) && name.terminal.is_name() && bracket.terminal.is_sign(Sign::OpenParen)
}

/// The tokens with functions expanded, and with the constants that stand where a number does then.
pub fn expanded<'a>(alloc: Global, tokens: &[Token<'a, '_>]) -> Result<Vec<Written<'a>>, AllocError>
    ensures { IfOk result (λ v. written_all v.items ≡ expanded (seen_all tokens.now)) }
{
    if !has_function(tokens) {
        return owned(alloc, tokens);
    }
    let defined = defined(alloc, tokens)?;
    let tokens = borrowed(alloc, &defined)?;
    worked(alloc, &tokens)
}
