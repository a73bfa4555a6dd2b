// The search for a mend.

ghost use Rattle.std.specs.Prelude.{IfErr, IfOk, IfSome};
ghost use Rattle.mend.specs.Bare.{without_directives};
ghost use Rattle.mend.specs.Mends.{IsAcceptedOf, IsMend, IsOutcome, IsUnfit};

use crate::bare::without_directives;
use crate::candidates::candidates_for;
use crate::edits::{Edit, edits_of, line_before, line_edits};
use crate::judge::{Located, Rank, Verdict, judge};
use crate::lines::{changed, lines};
use crate::tidy::tidied;
use crate::view::View;
use base::fault::{ReadFault, SourceFault};
use c_read::read_program;
use mapcheck::check;
use outline::{Outlined, outline};
use std::alloc::{AllocError, Global};

/// The most texts whose changes are tried.
pub const MOST_STEPS: usize = 12;

/// The most texts that are checked.
pub const MOST_CHECKS: usize = 128;

/// A source whose program is accepted, and what was changed.
#[derive(Drop)]
pub struct Mended {
    pub text: Vec<u8>,
    pub edits: Vec<Edit>,
}

/// What was found for a source, and how much was tried for it.
#[derive(Drop)]
pub struct Sought {
    pub mended: Option<Mended>,
    /// The texts whose changes were tried.
    pub steps: usize,
    /// The texts that were checked.
    pub checks: usize,
    /// The latest of the first faults of texts that were tried, with its line in the source; none where no fault came
    /// later than that of the source.
    pub latest: Option<Located>,
}

// What comes of a step.
#[derive(Drop)]
enum Outcome {
    Accepted(Vec<u8>),
    Refused,
}

// A text that is refused.
#[derive(Drop)]
struct Refused {
    text: Vec<u8>,
    rank: Rank,
    /// How many steps led to it.
    steps: usize,
}

impl Refused {
    // Whether it is gone on with before another one that was found before it.
    fn is_better(&self, other: &(usize, Rank, usize)) -> bool {
        let (_, rank, steps) = other;
        if self.rank.is_beyond(rank) || rank.is_beyond(&self.rank) {
            return self.rank.is_beyond(rank);
        }
        self.steps > *steps
    }

    fn copied(&self) -> Result<Refused, AllocError> {
        Ok(Refused {
            text: self.text.clone()?,
            rank: self.rank,
            steps: self.steps,
        })
    }
}

// How much was tried, and what is still to be.
#[derive(Drop)]
struct Tried {
    most: usize,
    steps: usize,
    checks: usize,
    /// The texts whose first fault comes later than that of the text they were made of.
    open: Vec<Refused>,
    /// The digests of the texts that were checked.
    seen: Vec<u64>,
    /// The text whose first fault came last.
    latest: Option<Refused>,
}

// A number by which texts are told apart: where two different ones have the same, one of them is not tried.
fn digest(text: &[u8]) -> u64 {
    let mut number = 0xCBF2_9CE4_8422_2325u64;
    for byte in text {
        number = (number ^ u64::from(*byte)).wrapping_mul(0x0100_0000_01B3);
    }
    number
}

impl Tried {
    fn is_full(&self) -> bool {
        self.checks >= self.most
    }

    // Whether a text was not checked yet, which is noted.
    fn is_new(&mut self, text: &[u8]) -> Result<bool, AllocError> {
        let digest = digest(text);
        if self.seen.contains(&digest) {
            return Ok(false);
        }
        self.seen.push(digest)?;
        Ok(true)
    }

    // Adds a text whose first fault comes later than that of the text that it was made of.
    fn add(&mut self, refused: Refused) -> Result<(), AllocError> {
        let is_latest = match &self.latest {
            Some(latest) => refused.rank.is_beyond(&latest.rank),
            None => true,
        };
        if is_latest {
            self.latest = Some(refused.copied()?);
        }
        self.open.push(refused)?;
        Ok(())
    }

    // The text whose first fault is the latest; of several the one of the most steps, and of those the one found first.
    fn take_latest(&mut self) -> Option<Refused> {
        let mut best: Option<(usize, Rank, usize)> = None;
        for (number, refused) in self.open.as_slice().iter().enumerate() {
            let is_better = match &best {
                Some(other) => refused.is_better(other),
                None => true,
            };
            if is_better {
                best = Some((number, refused.rank, refused.steps));
            }
        }
        match best {
            Some((number, _, _)) if number < self.open.len() => Some(self.open.remove(number)),
            _ => None,
        }
    }
}

// The texts to try in the place of the one of a program, whatever the borrows that are in it outlive.
fn texts_of(
    alloc: Global,
    text: &[u8],
    outlined: &Outlined<'_>,
) -> Result<Vec<Vec<u8>>, AllocError> {
    let mut all = Vec::new(alloc);
    let fault = match check(alloc, outlined) {
        Ok(_) => return Ok(all),
        Err(fault) => fault,
    };
    let lines = lines(alloc, text)?;
    let view = View {
        alloc,
        text,
        lines: &lines,
        program: outlined.program(),
        outlined,
    };
    let found = candidates_for(&view, &fault)?;
    for candidate in found.all.as_slice() {
        all.push(changed(alloc, &lines, candidate.changes.as_slice())?)?;
    }
    Ok(all)
}

// The texts to try in the place of one.
fn texts(alloc: Global, text: &[u8]) -> Result<Vec<Vec<u8>>, AllocError> {
    let program = match read_program(alloc, text) {
        Ok(program) => program,
        Err(_) => return Ok(Vec::new(alloc)),
    };
    let outlined = match outline(alloc, &program) {
        Ok(outlined) => outlined,
        Err(_) => return Ok(Vec::new(alloc)),
    };
    texts_of(alloc, text, &outlined)
}

// Checks the texts that come of one up to the first that is accepted.
fn step(
    alloc: Global,
    bare: &[u8],
    from: &Refused,
    tried: &mut Tried,
) -> Result<Outcome, AllocError>
    ensures { IfOk result (IsOutcome bare.now) }
{
    tried.steps = tried.steps.saturating_add(1);
    for next in texts(alloc, &from.text)? {
        if tried.is_full() {
            return Ok(Outcome::Refused);
        }
        if !tried.is_new(&next)? {
            continue;
        }
        tried.checks = tried.checks.saturating_add(1);
        match judge(alloc, bare, &next)? {
            Verdict::Accepted => return Ok(Outcome::Accepted(next)),
            Verdict::Refused(rank) => {
                if rank.is_later(&from.rank) {
                    tried.add(Refused {
                        text: next,
                        rank,
                        steps: from.steps.saturating_add(1),
                    })?;
                }
            }
            Verdict::Unfit => {}
        }
    }
    Ok(Outcome::Refused)
}

// The text after steps that bring it to be accepted.
fn steps(alloc: Global, bare: &[u8], tried: &mut Tried) -> Result<Option<Vec<u8>>, AllocError>
    ensures { IfOk result (λ found. IfSome found (λ t. IsAcceptedOf bare.now t.items)) }
{
    for _ in 0..MOST_STEPS {
        let Some(next) = tried.take_latest() else {
            return Ok(None);
        };
        match step(alloc, bare, &next, tried)? {
            Outcome::Accepted(found) => return Ok(Some(found)),
            Outcome::Refused => {}
        }
    }
    Ok(None)
}

// The text after steps that bring it to be accepted, and that are all needed.
fn needed_steps(
    alloc: Global,
    bare: &[u8],
    bytes: &[u8],
    tried: &mut Tried,
) -> Result<Option<Vec<u8>>, AllocError>
    ensures { IfOk result (λ found. IfSome found (λ t. IsAcceptedOf bare.now t.items)) }
{
    match steps(alloc, bare, tried)? {
        Some(found) => {
            let left = tried.most.saturating_sub(tried.checks);
            Ok(Some(tidied(alloc, bare, bytes, found, left)?))
        }
        None => Ok(None),
    }
}

// The text of a mend.
fn mended_text(
    alloc: Global,
    bytes: &[u8],
    tried: &mut Tried,
) -> Result<Option<Vec<u8>>, AllocError>
    ensures { IfOk result (λ found. IfSome found (λ t. IsMend bytes.now t.items)) }
{
    let bare = without_directives(alloc, bytes)?;
    tried.checks = 1;
    match judge(alloc, &bare, bytes)? {
        Verdict::Accepted => Ok(Some(Vec::from_slice(alloc, bytes)?)),
        Verdict::Refused(rank) => {
            let text = Vec::from_slice(alloc, bytes)?;
            tried.open.push(Refused {
                text,
                rank,
                steps: 0,
            })?;
            needed_steps(alloc, &bare, bytes, tried)
        }
        Verdict::Unfit => Ok(None),
    }
}

fn search(alloc: Global, bytes: &[u8], tried: &mut Tried) -> Result<Option<Mended>, AllocError>
    ensures { IfOk result (λ found. IfSome found (λ m. IsMend bytes.now m.text.items)) }
{
    match mended_text(alloc, bytes, tried)? {
        Some(text) => {
            let edits = edits_of(alloc, bytes, &text)?;
            Ok(Some(Mended { text, edits }))
        }
        None => Ok(None),
    }
}

// The latest first fault of the texts that were tried, where it comes later than that of the source.
fn latest_of(alloc: Global, source: &[u8], tried: &Tried) -> Result<Option<Located>, AllocError> {
    let Some(latest) = &tried.latest else {
        return Ok(None);
    };
    let Located { code, line } = latest.rank.fault();
    let edits = line_edits(alloc, source, &latest.text)?;
    Ok(Some(Located {
        code,
        line: line_before(&edits, line),
    }))
}

// What was found, with how much was tried.
fn with_effort(alloc: Global, bytes: &[u8], tried: &mut Tried) -> Result<Sought, AllocError>
    ensures { IfOk result (λ s. IfSome s.mended (λ m. IsMend bytes.now m.text.items)) }
{
    let mended = search(alloc, bytes, tried)?;
    let latest = latest_of(alloc, bytes, tried)?;
    Ok(Sought {
        mended,
        steps: tried.steps,
        checks: tried.checks,
        latest,
    })
}

/// A source that has the same text without directives, and whose program is accepted; the source itself where its
/// program is. None is found in [`MOST_STEPS`] steps and [`MOST_CHECKS`] checks where there is a fault that no
/// directive mends, or one for which none of the changes that are tried helps. The fault is that of the text or of
/// the number of items; want of memory may come in place of any answer.
///
/// What is tried is what the first fault asks for: another type for a map item, the other direction or another device
/// for a directive, a section that is wider or narrower, a map or depend item more, an entry, an exit, an update or a
/// wait on a line of its own, an exit less, or a target fewer of whose loops are in any order. Of the texts of a step
/// the first that is accepted is taken; else the next step is from that text, of all whose first fault came later,
/// whose first fault comes last.
pub fn mend(alloc: Global, bytes: &[u8]) -> Result<Option<Mended>, SourceFault>
    ensures mended { IfOk result (λ found. IfSome found (λ m. IsMend bytes.now m.text.items)) }
    ensures fault { IfErr result (IsUnfit bytes.now) }
{
    mend_within(alloc, bytes, MOST_CHECKS)
}

/// The same, where at most so many texts are checked, the source among them.
pub fn mend_within(alloc: Global, bytes: &[u8], most: usize) -> Result<Option<Mended>, SourceFault>
    ensures mended { IfOk result (λ found. IfSome found (λ m. IsMend bytes.now m.text.items)) }
    ensures fault { IfErr result (IsUnfit bytes.now) }
{
    let sought = seek_within(alloc, bytes, most)?;
    Ok(sought.mended)
}

/// The same, with how much was tried.
#[tactic(auto, using(crate::proofs::Unfit::outline_unfit, crate::proofs::Unfit::read_unfit))]
pub fn seek_within(alloc: Global, bytes: &[u8], most: usize) -> Result<Sought, SourceFault>
    ensures mended { IfOk result (λ s. IfSome s.mended (λ m. IsMend bytes.now m.text.items)) }
    ensures fault { IfErr result (IsUnfit bytes.now) }
{
    let program = match read_program(alloc, bytes) {
        Ok(program) => program,
        Err(fault) => return Err(SourceFault::Read(fault)),
    };
    if let Err(fault) = outline(alloc, &program) {
        return Err(SourceFault::Outline(fault));
    }
    let mut tried = Tried {
        most,
        steps: 0,
        checks: 0,
        open: Vec::new(alloc),
        seen: Vec::new(alloc),
        latest: None,
    };
    match with_effort(alloc, bytes, &mut tried) {
        Ok(sought) => Ok(sought),
        Err(_) => Err(SourceFault::Read(ReadFault::OutOfMemory)),
    }
}
