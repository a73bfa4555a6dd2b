// By which calls the place of a fault was reached: functions are read where they are called, with the places of their text.

use base::tree::Place;
use c_tokens::{Kind, Sign, Token, tokens};
use reasons::{Diagnosis, Note, Weight};
use std::alloc::{AllocError, Global};

/// No more calls than that are told of a fault.
const MOST_CALLS: usize = 8;

/// A function, with the braces around its body.
#[derive(Drop)]
struct Function<'a> {
    name: &'a [u8],
    from: Place,
    to: Place,
}

/// A name with a bracket behind it, in a body.
#[derive(Drop)]
struct Call<'a> {
    name: &'a [u8],
    place: Place,
}

/// What a text defines, and where it is called.
#[derive(Drop)]
pub struct Calls<'a> {
    functions: Vec<Function<'a>>,
    calls: Vec<Call<'a>>,
}

fn text_of<'a>(bytes: &'a [u8], token: Token) -> &'a [u8] {
    let start = token.first.min(bytes.len());
    let rest = &bytes[start..];
    let len = token.last.saturating_sub(token.first);
    if rest.len() <= len {
        return rest;
    }
    &rest[..len + 1]
}

fn place_of(token: Token) -> Place {
    Place {
        line: token.line,
        column: token.column,
    }
}

fn is_up_to(left: Place, right: Place) -> bool {
    left.line < right.line || (left.line == right.line && left.column <= right.column)
}

/// What stands before a token: how many braces are open, the name that heads what is declared outside of them, where its
/// body began, and the name just before.
#[derive(Drop)]
struct Before<'a> {
    depth: usize,
    heading: &'a [u8],
    from: Place,
    name: Option<Call<'a>>,
}

impl<'a> Before<'a> {
    // The bracket behind a name.
    fn open_bracket(&mut self, calls: &mut Vec<Call<'a>>) -> Result<(), AllocError> {
        if let Some(call) = self.name.take() {
            if self.depth == 0 {
                self.heading = call.name;
            } else {
                calls.push(call)?;
            }
        }
        Ok(())
    }

    fn open_brace(&mut self, token: Token) {
        if self.depth == 0 {
            self.from = place_of(token);
        }
        self.depth = self.depth.saturating_add(1);
    }

    fn close_brace(
        &mut self,
        token: Token,
        functions: &mut Vec<Function<'a>>,
    ) -> Result<(), AllocError> {
        self.depth = self.depth.saturating_sub(1);
        if self.depth == 0 {
            functions.push(Function {
                name: self.heading,
                from: self.from,
                to: place_of(token),
            })?;
            self.heading = b"";
        }
        Ok(())
    }

    // A sign, where it is one that counts.
    fn sign(&mut self, sign: Sign, token: Token, found: &mut Calls<'a>) -> Result<(), AllocError> {
        match sign {
            Sign::OpenParen => self.open_bracket(&mut found.calls)?,
            Sign::OpenBrace => self.open_brace(token),
            Sign::CloseBrace => self.close_brace(token, &mut found.functions)?,
            Sign::Semicolon | Sign::Equal if self.depth == 0 => self.heading = b"",
            _ => {}
        }
        self.name = None;
        Ok(())
    }
}

/// The functions of a text and what may be their calls. The error comes where an allocation fails.
pub fn calls_in<'a>(alloc: Global, bytes: &'a [u8]) -> Result<Calls<'a>, AllocError> {
    let mut found = Calls {
        functions: Vec::new(alloc),
        calls: Vec::new(alloc),
    };
    let mut before = Before {
        depth: 0,
        heading: b"",
        from: Place { line: 0, column: 0 },
        name: None,
    };
    let mut stream = tokens(bytes);
    'tokens: while let Some(token) = stream.next_token() {
        match token.kind {
            Kind::Name => {
                before.name = Some(Call {
                    name: text_of(bytes, token),
                    place: place_of(token),
                });
            }
            Kind::Sign(sign) => before.sign(sign, token, &mut found)?,
            _ => before.name = None,
        }
    }
    Ok(found)
}

impl<'a> Calls<'a> {
    // The function in whose body the place lies, but main, which nothing calls.
    fn around(&self, place: Place) -> Option<&Function<'a>> {
        'functions: for function in &self.functions {
            if is_up_to(function.from, place) && is_up_to(place, function.to) {
                return if function.name.is_empty() || function.name == b"main".as_slice() {
                    None
                } else {
                    Some(function)
                };
            }
        }
        None
    }

    // Adds the places where the function is called, outside of its own body.
    fn put_calls(
        &self,
        function: &Function<'a>,
        places: &mut Vec<Place>,
    ) -> Result<(), AllocError> {
        'calls: for call in &self.calls {
            let own = is_up_to(function.from, call.place) && is_up_to(call.place, function.to);
            if call.name == function.name && !own && places.len() <= MOST_CALLS {
                places.push(call.place)?;
            }
        }
        Ok(())
    }

    // The place, and behind it those of the calls that lead to it, the nearest first.
    fn ways_to(&self, alloc: Global, place: Place) -> Result<Vec<Place>, AllocError> {
        let mut places = Vec::new(alloc);
        places.push(place)?;
        'places: for k in 0..MOST_CALLS {
            if let Some(at) = places.get(k) {
                if let Some(function) = self.around(*at) {
                    self.put_calls(function, &mut places)?;
                }
            }
        }
        Ok(places)
    }

    /// Notes of a fault which calls lead to its place, before its other notes. The error comes where an allocation fails.
    pub fn note(&self, alloc: Global, diagnosis: &mut Diagnosis) -> Result<(), AllocError> {
        let places = self.ways_to(alloc, diagnosis.place)?;
        let mut notes = Vec::new(alloc);
        'places: for place in places.iter().skip(1) {
            notes.push(Note {
                weight: Weight::Note,
                place: *place,
                message: String::from_str(alloc, "called from here")?,
                loops: Vec::new(alloc),
            })?;
        }
        notes.append(&mut diagnosis.notes)?;
        diagnosis.notes = notes;
        Ok(())
    }
}
