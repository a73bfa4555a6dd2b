//! What the tokens of a line before one say, as far as a rule asks, and which rule that one breaks.

ghost use Rattle.std.specs.Prelude.{◌≡◌};
ghost use Rattle.std.specs.List.{list_any};
ghost use Rattle.std.specs.Str.{bytes_eq};
ghost use Rattle.directives.specs.Seen.{seen_lexeme};
ghost use Rattle.c_grammar.specs.LineRules.{is_no_amount, is_no_chunk, is_no_device, same_amount};
ghost use Rattle.directives.specs.Kinds.{seen_amount};
ghost use Rattle.directives.specs.Known.{own_code};

use crate::lexeme::Lexeme;
use crate::tree::{Amount, Modifier};
use base::fault::ReadCode;
use c_tokens::Sign;
use c_tokens::limits::{MAX_DEPENDS, MAX_NAME, MAX_TERMS};
use std::alloc::{AllocError, Global};

/// The highest number of a device.
const MAX_DEVICE: u64 = 3;

/// So many loops are collapsed at most.
const MAX_COLLAPSE: u64 = 4;

/// What stands once at most.
#[derive(Clone, Copy)]
pub enum Single {
    /// `nowait`.
    NoWaits,
    /// A device clause.
    OnDevice,
    /// A schedule.
    OnSchedule,
    /// The clause of an amount.
    OnAmount(Amount),
    /// A modifier, in its map clause.
    Modified(Modifier),
}

/// What a token is there for.
#[derive(Clone, Copy)]
pub enum Act {
    Plain,
    /// A word after which a map, to or from clause must come.
    Demands,
    /// Such a clause's word.
    Meets,
    /// The word of what stands once at most.
    Once(Single),
    /// The end of the line.
    Ends,
    /// An array's name in a map, to or from clause.
    Maps,
    /// An array's name in a depend clause.
    Depends,
    /// The number of a device.
    Numbers,
    /// The number of an amount.
    Amounts(Amount),
    /// The number of a chunk's turns.
    Chunks,
    /// A sign behind which a bound begins.
    Opens,
    /// The number that begins a term.
    Begins,
    /// The name that begins a term.
    BeginsNamed,
    /// A name behind a factor.
    Times,
}

/// What the tokens before say.
#[derive(Drop)]
pub struct Known<'a> {
    /// A map, to or from clause must still come.
    pub missing: bool,
    /// `nowait` was there.
    pub waits: bool,
    /// A device clause was there.
    pub device: bool,
    /// A schedule was there.
    pub schedule: bool,
    /// The amounts whose clauses were there.
    pub amounts: Vec<Amount>,
    /// `always` was there in the last map clause.
    pub always: bool,
    /// `present` was there in the last map clause.
    pub present: bool,
    /// The arrays of the map, to and from clauses.
    pub arrays: Vec<&'a [u8]>,
    pub depends: u32,
    /// The terms of the last bound.
    pub terms: u32,
}

/// The code that a token has wherever it stands.
pub fn own_code(lexeme: Lexeme<'_>) -> Option<ReadCode>
    ensures { result ≡ own_code (seen_lexeme lexeme.entry) }
{
    match lexeme {
        Lexeme::Strange | Lexeme::Sign(Sign::Question | Sign::Dot) => {
            Some(ReadCode::UnknownByte)
        }
        Lexeme::BadNumber => Some(ReadCode::BadNumber),
        Lexeme::Name(name) => {
            if name.len() > MAX_NAME {
                return Some(ReadCode::TooMany);
            }
            None
        }
        _ => None,
    }
}

/// Whether it is a number that no device has.
fn is_no_device(lexeme: Lexeme<'_>) -> bool
    ensures { result ≡ is_no_device (seen_lexeme lexeme.entry) }
{
    match lexeme {
        Lexeme::Number(number) => number > MAX_DEVICE,
        _ => false,
    }
}

/// Whether it is a number that the amount may not have.
fn is_no_amount(amount: Amount, lexeme: Lexeme<'_>) -> bool
    ensures { result ≡ is_no_amount (seen_amount amount) (seen_lexeme lexeme.entry) }
{
    match lexeme {
        Lexeme::Number(number) => { number == 0 || (amount.number() == 0 && number > MAX_COLLAPSE) }
        _ => false,
    }
}

/// Whether it is a number that no chunk has.
fn is_no_chunk(lexeme: Lexeme<'_>) -> bool
    ensures { result ≡ is_no_chunk (seen_lexeme lexeme.entry) }
{
    match lexeme {
        Lexeme::Number(number) => number == 0,
        _ => false,
    }
}

/// Whether the amount is one of those.
fn has_amount(amounts: &[Amount], amount: Amount) -> bool
    ensures { result ≡ list_any (λ x. same_amount (seen_amount amount) (seen_amount x)) amounts.now }
{
    amounts.iter().any(|one| amount.number() == one.number())
}

/// Whether the name is one of those.
fn is_among(names: &[&[u8]], name: &[u8]) -> bool
    ensures { result ≡ list_any (λ x. bytes_eq x.now name.now) names.now }
{
    names.iter().any(|one| *one == name)
}

impl<'a> Known<'a> {
    ghost use Rattle.std.specs.Prelude.{◌≡◌, OnOk, None};
    ghost use Rattle.c_grammar.specs.LineRules.{has_single, line_act, line_begin, is_name_among, with_single};
    ghost use Rattle.directives.specs.Seen.{seen_lexeme};
    ghost use Rattle.directives.specs.Known.{act_code, broken_by, known_of, names_onto, seen_act, seen_single};

    pub fn new(alloc: Global) -> Known<'a>
        ensures { known_of result ≡ line_begin }
    {
        Known {
            missing: false,
            waits: false,
            device: false,
            schedule: false,
            amounts: Vec::new(alloc),
            always: false,
            present: false,
            arrays: Vec::new(alloc),
            depends: 0,
            terms: 0,
        }
    }

    /// Whether the token is the name of an array that was there.
    #[tactic(auto, using(crate::proofs::Knowing::any_is_among))]
    fn has(&self, lexeme: Lexeme<'_>) -> bool
        ensures { result ≡ is_name_among (known_of self.now).arrays (seen_lexeme lexeme.entry) }
    {
        match lexeme {
            Lexeme::Name(name) => is_among(&self.arrays, name),
            _ => false,
        }
    }

    /// Whether that was there.
    #[tactic(auto, using(crate::proofs::Knowing::any_is_amount))]
    fn has_single(&self, what: Single) -> bool
        ensures { result ≡ has_single (seen_single what) (known_of self.now) }
    {
        match what {
            Single::NoWaits => self.waits,
            Single::OnDevice => self.device,
            Single::OnSchedule => self.schedule,
            Single::OnAmount(amount) => has_amount(&self.amounts, amount),
            Single::Modified(Modifier::Always) => self.always,
            Single::Modified(Modifier::Present) => self.present,
        }
    }

    /// Takes note that it was there.
    #[tactic(auto, using(crate::proofs::Knowing::amounts_one_more))]
    fn note_single(&mut self, what: Single) -> Result<(), AllocError>
        ensures { OnOk result (known_of self.new ≡ with_single (seen_single what) (known_of self.old)) }
    {
        match what {
            Single::NoWaits => self.waits = true,
            Single::OnDevice => self.device = true,
            Single::OnSchedule => self.schedule = true,
            Single::OnAmount(amount) => self.amounts.push(amount)?,
            Single::Modified(Modifier::Always) => self.always = true,
            Single::Modified(Modifier::Present) => self.present = true,
        }
        Ok(())
    }

    /// The code that the token has for what it does.
    fn act_code(&self, lexeme: Lexeme<'_>, act: Act) -> Option<ReadCode>
        ensures { result ≡ act_code (known_of self.now) (seen_lexeme lexeme.entry) (seen_act act) }
    {
        let (breaks, code) = match act {
            Act::Once(what) => (self.has_single(what), ReadCode::ClauseCount),
            Act::Ends => (self.missing, ReadCode::ClauseCount),
            Act::Maps => (self.has(lexeme), ReadCode::ArrayTwice),
            Act::Depends => (self.depends >= MAX_DEPENDS, ReadCode::TooMany),
            Act::Numbers => (is_no_device(lexeme), ReadCode::BadDevice),
            Act::Amounts(amount) => (is_no_amount(amount, lexeme), ReadCode::BadOperand),
            Act::Chunks => (is_no_chunk(lexeme), ReadCode::BadOperand),
            Act::Begins | Act::BeginsNamed => (self.terms >= MAX_TERMS, ReadCode::TooMany),
            _ => return None,
        };
        if breaks { Some(code) } else { None }
    }

    /// The lowest code of the rules that the token breaks.
    #[tactic(auto, unfolding(crate::specs::Known::broken_by))]
    pub fn broken(&self, lexeme: Lexeme<'_>, act: Act) -> Option<ReadCode>
        ensures { result ≡ broken_by (known_of self.now) (seen_lexeme lexeme.entry) (seen_act act) }
    {
        match own_code(lexeme) {
            Some(code) => Some(code),
            None => self.act_code(lexeme, act),
        }
    }

    /// Takes note of a token that breaks no rule.
    #[tactic(auto, using(crate::proofs::Knowing::names_one_more), unfolding(crate::specs::Known::broken_by))]
    pub fn note(&mut self, lexeme: Lexeme<'a>, act: Act) -> Result<(), AllocError>
        requires { broken_by (known_of self.old) (seen_lexeme lexeme) (seen_act act) ≡ None }
        ensures { OnOk result (known_of self.new ≡ line_act (known_of self.old) (seen_lexeme lexeme.entry) (seen_act act)) }
    {
        match act {
            Act::Plain | Act::Ends | Act::Numbers | Act::Amounts(_) | Act::Chunks | Act::Times => {}
            Act::Demands => self.missing = true,
            Act::Meets => {
                self.missing = false;
                self.always = false;
                self.present = false;
            }
            Act::Once(what) => self.note_single(what)?,
            Act::Maps => {
                if let Lexeme::Name(name) = lexeme {
                    self.arrays.push(name)?;
                }
            }
            Act::Depends => self.depends += 1,
            Act::Opens => self.terms = 0,
            Act::Begins | Act::BeginsNamed => self.terms += 1,
        }
        Ok(())
    }
}
