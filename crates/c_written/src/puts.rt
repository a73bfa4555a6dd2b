//! Names in the body of a function, and what stands for them.

ghost use Rattle.std.specs.Prelude.{◌≡◌, drop, take};
ghost use Rattle.c_grammar.specs.Unspelled.{unspelled};

use crate::spots::Spot;
use c_terminals::{Terminal, Token, Written, WrittenTerminal, is_among};
use directives::{Lexeme, LineTokens, PlacedLexeme};
use std::alloc::{AllocError, Global};

// Each three digits in a row stand once.
const DIGITS: &[u8] =
    b"0001002003004005006007011012013014015016017021022023024025026027031032033034035036037041042\
    0430440450460470510520530540550560570610620630640650660670710720730740750760771112113114115\
    1161171221231241251261271321331341351361371421431441451461471521531541551561571621631641651\
    6616717217317417517617722232242252262272332342352362372432442452462472532542552562572632642\
    6526626727327427527627733343353363373443453463473543553563573643653663673743753763774445446\
    44745545645746546646747547647755565575665675765776667677700";

/// What names of types and numbers are in C.
const FLAG_NAMES: &[&[u8]] = &[b"bool", b"_Bool", b"true", b"false"];

// Three bytes from there on, or what is left.
fn three_at(bytes: &[u8], first: usize) -> &[u8]
    ensures { result.now ≡ take 3 (drop first bytes.now) }
{
    let first = first.min(bytes.len());
    let rest = &bytes[first..];
    if rest.len() <= 3 {
        return rest;
    }
    &rest[..3]
}

/// A name that no source can spell.
pub fn unspelled(number: usize) -> &'static [u8]
    ensures { result.now ≡ unspelled number }
{
    three_at(DIGITS, number)
}

/// What stands for a name.
#[derive(Clone, Copy)]
pub enum Put<'a> {
    Name(&'a [u8]),
    Number(u64),
}

/// Names with what stands for them, the first of several alike before the others.
#[derive(Drop)]
pub struct Puts<'a> {
    pub list: Vec<(&'a [u8], Put<'a>)>,
}

/// What a name is for which nothing stands: itself where all stay, or where it is known.
#[derive(Clone, Copy)]
pub enum Other<'k, 'a> {
    Stays,
    Known(&'k [&'a [u8]]),
}

impl Other<'_, '_> {
    ghost use Rattle.std.specs.Prelude.{◌≡◌};
    ghost use Rattle.c_written.specs.Functions.{others_of};

    fn of<'a>(self, name: &'a [u8]) -> &'a [u8]
        ensures { result.now ≡ others_of self.entry name.now }
    {
        match self {
            Other::Stays => name,
            Other::Known(known) => {
                if is_among(known, name) || is_among(FLAG_NAMES, name) {
                    name
                } else {
                    unspelled(0)
                }
            }
        }
    }
}

impl<'a> Puts<'a> {
    ghost use Rattle.std.specs.Prelude.{◌≡◌, ◌++◌, [], IfOk, OnOk};
    ghost use Rattle.std.specs.Option.{option_map};
    ghost use Rattle.c_grammar.specs.Functions.{put_all, put_at, put_for, put_lexeme, put_line, put_terminal};
    ghost use Rattle.directives.specs.Ahead.{seen_line};
    ghost use Rattle.directives.specs.Seen.{seen_lexeme};
    ghost use Rattle.directives.specs.Spells.{kinds_of, columns_of};
    ghost use Rattle.c_written.specs.Functions.{others_of, puts_of, seen_put};
    ghost use Rattle.c_terminals.specs.Held.{columns_held, seen_held, written_all};
    ghost use Rattle.c_terminals.specs.Seen.{columns_in, seen_all, seen_terminal};
    ghost use Rattle.c_written.specs.Spots.{seen_spot};

    pub fn new(alloc: Global) -> Puts<'a>
        ensures { puts_of result ≡ [] }
    {
        Puts {
            list: Vec::new(alloc),
        }
    }

    fn find(&self, name: &[u8]) -> Option<Put<'a>>
        ensures { option_map seen_put result ≡ put_for (puts_of self.now) name.now }
    {
        'puts: for (own, put) in &self.list {
            if *own == name {
                return Some(*put);
            }
        }
        None
    }

    fn lexeme(&self, lexeme: Lexeme<'a>) -> Lexeme<'a>
        ensures { seen_lexeme result ≡ put_lexeme (puts_of self.now) (seen_lexeme lexeme.entry) }
    {
        match lexeme {
            Lexeme::Name(name) => match self.find(name) {
                Some(Put::Name(other)) => Lexeme::Name(other),
                Some(Put::Number(n)) => Lexeme::Number(n),
                None => Lexeme::Name(name),
            },
            other => other,
        }
    }

    // The token at a place of a line, with what stands for its name.
    fn lexeme_at(&self, spot: Spot, lexeme: Lexeme<'a>) -> Lexeme<'a>
        ensures { seen_lexeme result ≡ put_at (puts_of self.now) (seen_spot spot) (seen_lexeme lexeme.entry) }
    {
        if spot.stays() {
            return lexeme;
        }
        self.lexeme(lexeme)
    }

    // A line with what stands for its names.
    fn line(&self, alloc: Global, line: &LineTokens<'a>) -> Result<LineTokens<'a>, AllocError>
        ensures kinds { IfOk result (λ l. kinds_of (seen_line l) ≡ put_line (puts_of self.now) (kinds_of (seen_line line.now))) }
        ensures columns { IfOk result (λ l. columns_of (seen_line l) ≡ columns_of (seen_line line.now)) }
    {
        let mut put = Vec::new(alloc);
        let mut spot = Spot::begin();
        let mut rest = line.tokens();
        'lexemes: while let [placed, behind @ ..] = rest {
            rest = behind;
            put.push(PlacedLexeme {
                lexeme: self.lexeme_at(spot, placed.lexeme),
                column: placed.column,
            })?;
            spot = spot.behind(placed.lexeme, behind)?;
        }
        Ok(LineTokens::of(put))
    }

    fn terminal(
        &self,
        alloc: Global,
        other: Other<'_, 'a>,
        token: Token<'a, '_>,
    ) -> Result<WrittenTerminal<'a>, AllocError>
        ensures terminal { IfOk result (λ w. seen_held w ≡ put_terminal (puts_of self.now) (others_of other.entry) (seen_terminal token.entry.terminal)) }
        ensures columns { IfOk result (λ w. columns_held w ≡ columns_in token.entry.terminal) }
    {
        match token.terminal {
            Terminal::Name(name) => Ok(match self.find(name) {
                Some(Put::Name(other)) => WrittenTerminal::Name(other),
                Some(Put::Number(n)) => WrittenTerminal::Number(n),
                None => WrittenTerminal::Name(other.of(name)),
            }),
            Terminal::Line(line) => Ok(WrittenTerminal::Line(self.line(alloc, line)?)),
            _ => {
                let Written { terminal, .. } = Written::of(alloc, token)?;
                Ok(terminal)
            }
        }
    }

    /// Some tokens with what stands for their names are put behind others.
    pub fn put_all(
        &self,
        alloc: Global,
        other: Other<'_, 'a>,
        tokens: &[Token<'a, '_>],
        done: &mut Vec<Written<'a>>,
    ) -> Result<(), AllocError>
        ensures { OnOk result (written_all done.new.items ≡ written_all done.old.items ++ put_all (puts_of self.now) (others_of other.entry) (seen_all tokens.now)) }
    {
        'tokens: for token in tokens {
            let terminal = self.terminal(alloc, other, *token)?;
            done.push(Written {
                terminal,
                line: token.line,
                column: token.column,
            })?;
        }
        Ok(())
    }
}
