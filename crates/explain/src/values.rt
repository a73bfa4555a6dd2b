// By which values what is declared by `int` is not read. Each of them would have to be seen to be small, so that one that is
// not leaves all as it is, wherever it stands.

use base::fault::{ReadFault, TextFault};
use base::tree::Place;
use c_read::read_program;
use c_tokens::{Kind, Sign, Token, Tokens};
use reasons::{Diagnosis, Note, Weight, text_diagnosis};
use std::alloc::{AllocError, Global};

/// So many values are told.
const MOST_TOLD: usize = 3;

/// So many texts are read at most, and so many bytes in all.
const MOST_READ: usize = 64;

const MOST_BYTES: usize = 16_777_216;

const MESSAGE: &str =
    "an `int` is read where each value is seen to be from 0 to 2147483647, and this one is not";

/// The bytes of a value, up to the last one, its place, and what stands for it where it is none: 0, or what makes none below 0.
#[derive(Clone, Copy)]
struct Value {
    first: usize,
    last: usize,
    place: Place,
    put: &'static [u8],
}

fn value_at(token: Token, put: &'static [u8]) -> Value {
    Value {
        first: token.first,
        last: token.last,
        place: Place {
            line: token.line,
            column: token.column,
        },
        put,
    }
}

/// What a token belongs to.
#[derive(Clone, Copy)]
enum Part {
    Nothing,
    /// What is given by `=` or `return`, in so many brackets; of a list in braces or not.
    Given(usize, bool),
    /// What is passed to a function, in so many brackets.
    Passed(usize),
}

/// What stands before a token, and the values up to there.
#[derive(Drop)]
struct Scan {
    values: Vec<Value>,
    part: Part,
    now: Option<Value>,
    /// Whether the value so far has an operator, or is a number.
    computes: bool,
    brackets: usize,
    braces: usize,
    /// In so many brackets the head of a loop stands.
    head: Option<usize>,
    /// The word just before is `for`, or another name.
    loops: bool,
    named: bool,
}

fn is_word(bytes: &[u8], token: Token, word: &[u8]) -> bool {
    match bytes.get(token.first..token.last.saturating_add(1)) {
        None => false,
        Some(text) => text == word,
    }
}

// Whether a bracket behind this name calls no function.
fn is_reserved(bytes: &[u8], token: Token) -> bool {
    is_word(bytes, token, b"if")
        || is_word(bytes, token, b"while")
        || is_word(bytes, token, b"print")
        || is_word(bytes, token, b"printf")
        || is_word(bytes, token, b"malloc")
        || is_word(bytes, token, b"calloc")
        || is_word(bytes, token, b"sizeof")
}

fn assigns(sign: Sign) -> bool {
    matches!(
        sign,
        Sign::Equal
            | Sign::PlusEqual
            | Sign::StarEqual
            | Sign::SlashEqual
            | Sign::PercentEqual
            | Sign::AmpersandEqual
            | Sign::BarEqual
            | Sign::CaretEqual
            | Sign::ShiftLeftEqual
            | Sign::ShiftRightEqual
    )
}

impl Scan {
    fn new(alloc: Global) -> Scan {
        Scan {
            values: Vec::new(alloc),
            part: Part::Nothing,
            now: None,
            computes: false,
            brackets: 0,
            braces: 0,
            head: None,
            loops: false,
            named: false,
        }
    }

    fn begin(&mut self, part: Part) {
        self.part = part;
        self.now = None;
        self.computes = false;
    }

    // The value has come to its end: one that is passed counts where it is more than a name.
    fn end(&mut self, next: Part) -> Result<(), AllocError> {
        if let Some(value) = self.now.take() {
            let counts = match self.part {
                Part::Nothing => false,
                Part::Given(_, _) => true,
                Part::Passed(_) => self.computes,
            };
            if counts {
                self.values.push(value)?;
            }
        }
        self.begin(next);
        Ok(())
    }

    // A token of a value.
    fn extend(&mut self, token: Token) {
        if let Part::Nothing = self.part {
            return;
        }
        let mut value = match self.now {
            None => value_at(token, b"0"),
            Some(value) => value,
        };
        value.last = token.last;
        self.now = Some(value);
        if !matches!(token.kind, Kind::Name) {
            self.computes = true;
        }
    }

    fn open(&mut self, sign: Sign, token: Token) {
        let calls = matches!(sign, Sign::OpenParen)
            && self.named
            && self.braces > 0
            && self.head.is_none();
        if self.loops && self.head.is_none() {
            self.head = Some(self.brackets);
        }
        self.brackets = self.brackets.saturating_add(1);
        match self.part {
            Part::Nothing => {
                if calls {
                    self.begin(Part::Passed(self.brackets));
                }
            }
            _ => self.extend(token),
        }
    }

    fn close(&mut self, token: Token) -> Result<(), AllocError> {
        let inside = self.brackets;
        self.brackets = inside.saturating_sub(1);
        if self.head == Some(self.brackets) {
            self.head = None;
        }
        match self.part {
            Part::Given(depth, _) | Part::Passed(depth) if inside <= depth && inside > 0 => {
                self.end(Part::Nothing)
            }
            _ => {
                self.extend(token);
                Ok(())
            }
        }
    }

    fn comma(&mut self, token: Token) -> Result<(), AllocError> {
        match self.part {
            Part::Given(depth, list) if self.brackets == depth => {
                let next = if list { self.part } else { Part::Nothing };
                self.end(next)
            }
            Part::Passed(depth) if self.brackets == depth => self.end(self.part),
            _ => {
                self.extend(token);
                Ok(())
            }
        }
    }

    // A brace: that of a list where a value begins, or one that ends what stands before it.
    fn open_brace(&mut self) -> Result<(), AllocError> {
        self.braces = self.braces.saturating_add(1);
        match (self.part, self.now) {
            (Part::Given(depth, _), None) => {
                self.begin(Part::Given(depth, true));
                Ok(())
            }
            _ => self.end(Part::Nothing),
        }
    }

    fn sign(&mut self, sign: Sign, token: Token) -> Result<(), AllocError> {
        match sign {
            Sign::OpenParen | Sign::OpenBracket => self.open(sign, token),
            Sign::CloseParen | Sign::CloseBracket => self.close(token)?,
            Sign::Comma => self.comma(token)?,
            Sign::OpenBrace => self.open_brace()?,
            Sign::CloseBrace => {
                self.braces = self.braces.saturating_sub(1);
                self.end(Part::Nothing)?;
            }
            Sign::Semicolon => self.end(Part::Nothing)?,
            Sign::MinusEqual if self.head.is_none() => {
                self.end(Part::Given(self.brackets, false))?;
                self.now = Some(value_at(token, b"=0"));
            }
            Sign::MinusMinus if self.head.is_none() => self.values.push(value_at(token, b"++"))?,
            sign if assigns(sign) && self.head.is_none() => {
                self.end(Part::Given(self.brackets, false))?;
            }
            _ => self.extend(token),
        }
        Ok(())
    }

    fn token(&mut self, bytes: &[u8], token: Token) -> Result<(), AllocError> {
        match token.kind {
            Kind::Sign(sign) => self.sign(sign, token)?,
            Kind::Line => self.end(Part::Nothing)?,
            Kind::Name if is_word(bytes, token, b"return") => {
                self.end(Part::Given(self.brackets, false))?;
            }
            _ => self.extend(token),
        }
        self.loops = is_word(bytes, token, b"for");
        self.named = matches!(token.kind, Kind::Name) && !self.loops && !is_reserved(bytes, token);
        Ok(())
    }
}

// What is given to names, and what functions are passed and give.
fn values_in(alloc: Global, bytes: &[u8]) -> Result<Vec<Value>, AllocError> {
    let mut scan = Scan::new(alloc);
    'tokens: for token in Tokens::new(bytes) {
        scan.token(bytes, token)?;
    }
    Ok(scan.values)
}

// What stands for a value in its place, and blanks up to its end.
fn put_in(text: &mut [u8], value: Value) {
    'bytes: for (number, byte) in text.iter_mut().skip(value.first).enumerate() {
        if number > value.last.saturating_sub(value.first) {
            break;
        }
        match value.put.get(number) {
            Some(put) => *byte = *put,
            None if *byte == b'\n' => {}
            None => *byte = b' ',
        }
    }
}

fn is_behind(fault: &TextFault, place: Place) -> bool {
    fault.line > place.line || (fault.line == place.line && fault.column > place.column)
}

/// What is known of a value: nothing; that it is one of those that are told next; that it was told, or need not be.
#[derive(Clone, Copy, PartialEq, Eq)]
enum Mark {
    Open,
    Kept,
    Gone,
}

/// A search for values by which a text is not read from a place on.
#[derive(Drop)]
struct Search<'a> {
    alloc: Global,
    bytes: &'a [u8],
    values: Vec<Value>,
    marks: Vec<Mark>,
    place: Place,
    /// How many texts may still be read.
    left: usize,
}

impl<'a> Search<'a> {
    fn new(alloc: Global, bytes: &'a [u8], place: Place) -> Result<Search<'a>, AllocError> {
        let values = values_in(alloc, bytes)?;
        let marks = vec![in alloc; Mark::Open; values.len()]?;
        Ok(Search {
            alloc,
            bytes,
            values,
            marks,
            place,
            left: MOST_READ,
        })
    }

    // The text with those values that are kept, and so many of the first ones that are open; what stands for them in the place
    // of the others.
    fn text(&self, front: usize) -> Result<Vec<u8>, AllocError> {
        let mut text = Vec::new(self.alloc);
        text.extend_from_slice(self.bytes)?;
        'values: for (number, value) in self.values.iter().enumerate() {
            let stays = match self.marks.get(number) {
                Some(Mark::Kept) => true,
                Some(Mark::Open) => number < front,
                _ => false,
            };
            if !stays {
                put_in(&mut text, *value);
            }
        }
        Ok(text)
    }

    // Whether that text is not read beyond the place; none where too many were read.
    fn fails(&mut self, front: usize) -> Result<Option<bool>, AllocError> {
        if self.left == 0 {
            return Ok(None);
        }
        self.left -= 1;
        let text = self.text(front)?;
        match read_program(self.alloc, &text) {
            Ok(_) => Ok(Some(false)),
            Err(ReadFault::Text(fault)) => Ok(Some(!is_behind(&fault, self.place))),
            Err(_) => Err(AllocError),
        }
    }

    // So many values of those up to a bound with which the text fails, where it does not with the last of them left out.
    fn last_needed(&mut self, bound: usize) -> Result<Option<usize>, AllocError> {
        let (mut low, mut high) = (0usize, bound);
        'halves: for _ in 0..usize::BITS {
            if high <= low.saturating_add(1) {
                break;
            }
            let middle = low.saturating_add((high - low) / 2);
            match self.fails(middle)? {
                None => return Ok(None),
                Some(true) => high = middle,
                Some(false) => low = middle,
            }
        }
        Ok(Some(high))
    }

    // Keeps values with which alone the text fails, but with none of them left out. False where that is not found.
    fn keep_some(&mut self) -> Result<bool, AllocError> {
        let mut bound = self.values.len();
        if self.fails(bound)? != Some(true) {
            return Ok(false);
        }
        'kept: for _ in 0..MOST_TOLD {
            if self.fails(0)? == Some(true) {
                return Ok(true);
            }
            let Some(needed) = self.last_needed(bound)? else {
                return Ok(false);
            };
            bound = needed.saturating_sub(1);
            if let Some(mark) = self.marks.get_mut(bound) {
                *mark = Mark::Kept;
            }
        }
        Ok(self.fails(0)? == Some(true))
    }

    // The places of the values that are kept, which are gone from now on.
    fn take(&mut self, places: &mut Vec<Place>) -> Result<(), AllocError> {
        'marks: for (number, mark) in self.marks.iter_mut().enumerate() {
            if *mark == Mark::Kept {
                *mark = Mark::Gone;
                if let Some(value) = self.values.get(number) {
                    places.push(value.place)?;
                }
            }
        }
        Ok(())
    }

    // The places of values by which the text is not read.
    fn culprits(&mut self) -> Result<Vec<Place>, AllocError> {
        let mut places = Vec::new(self.alloc);
        if self.fails(0)? != Some(false) {
            return Ok(places);
        }
        'sets: for _ in 0..MOST_TOLD {
            if places.len() >= MOST_TOLD || !self.keep_some()? {
                break;
            }
            self.take(&mut places)?;
        }
        places.truncate(MOST_TOLD);
        Ok(places)
    }
}

// Whether the word `int` stands at a place, or just before it.
fn is_of_int(bytes: &[u8], place: Place) -> bool {
    let mut behind = false;
    'tokens: for token in Tokens::new(bytes) {
        let is_int = is_word(bytes, token, b"int");
        if token.line == place.line && token.column == place.column {
            return is_int || behind;
        }
        behind = is_int;
    }
    false
}

// Notes of a text that is not read by which values an `int` in it is not, before its other notes, as far as few texts tell it.
fn note_values(alloc: Global, bytes: &[u8], diagnosis: &mut Diagnosis) -> Result<(), AllocError> {
    let place = diagnosis.place;
    if bytes.len().saturating_mul(MOST_READ) > MOST_BYTES || !is_of_int(bytes, place) {
        return Ok(());
    }
    let mut notes = Vec::new(alloc);
    let places = Search::new(alloc, bytes, place)?.culprits()?;
    'places: for place in places {
        notes.push(Note {
            weight: Weight::Note,
            place,
            message: String::from_str(alloc, MESSAGE)?,
            loops: Vec::new(alloc),
        })?;
    }
    notes.append(&mut diagnosis.notes)?;
    diagnosis.notes = notes;
    Ok(())
}

/// Why a text is not read. The error comes where an allocation fails.
pub fn text_told(alloc: Global, bytes: &[u8], fault: &TextFault) -> Result<Diagnosis, AllocError> {
    let mut diagnosis = text_diagnosis(alloc, bytes, fault)?;
    note_values(alloc, bytes, &mut diagnosis)?;
    Ok(diagnosis)
}
