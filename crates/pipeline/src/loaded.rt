//! A source that is read and checked once, and run as often as one likes.

ghost use Rattle.std.specs.Prelude.{◌≡◌, ◌≤◌, IfErr, IfOk, length};
ghost use Rattle.base.specs.Items.{plan};
ghost use Rattle.base.specs.Limits.{most_items};
ghost use Rattle.c_read.specs.Spells.{Spells};
ghost use Rattle.stepper.specs.Answering.{AreShown};
ghost use Rattle.pipeline.specs.Fine.{IsFineSourceAnswer, IsFineSourceFault};

use base::fault::SourceFault;
use base::item::Answer;
use base::tree::ArrayId;
use erased_meaning::erased_text_runs;
use outline::Outlined;
use std::alloc::Global;
use std::marker::Model;
use stepper::run_fine_shown;

/// A source, the program that it spells, and which arrays an answer shows. A contract sees its bytes.
#[derive(Drop)]
pub struct Loaded<'p> {
    alloc: Global,
    bytes: &'p [u8],
    outlined: &'p Outlined<'p>,
    arrays: &'p [ArrayId],
}

impl<'p> Model for Loaded<'p> {
    ghost use Rattle.std.specs.Prelude.{ℕ, List};
    ghost use Rattle.pipeline.specs.Loading.{IsLoaded};

    ghost Value = { List ℕ };

    ghost view = { λ l. l.bytes.now };

    ghost invariant = { λ l. IsLoaded l.bytes.now l.outlined.now l.arrays.now };
}

impl<'p> Loaded<'p> {
    /// A source with its program and the arrays that `stepper::shown_of` answers of it.
    pub fn new(
        alloc: Global,
        bytes: &'p [u8],
        outlined: &'p Outlined<'p>,
        arrays: &'p [ArrayId],
    ) -> Loaded<'p>
        requires spelled { Spells bytes.now outlined.now }
        requires few { length (plan outlined.now).items ≤ most_items }
        requires shown { AreShown outlined.now arrays.now }
        ensures { result ≡ bytes.now }
    {
        Loaded {
            alloc,
            bytes,
            outlined,
            arrays,
        }
    }

    /// Runs the source on the fine-grained machine, as `run_source_fine` does, which reads and checks it first.
    pub fn run_fine(
        &self,
        input: &[u64],
        choices: &[u32],
        turns: &[u32],
        capacity: u64,
    ) -> Result<Answer, SourceFault>
        ensures answer { IfOk result (IsFineSourceAnswer self.now input.now choices.now turns.now capacity) }
        ensures fault { IfErr result (IsFineSourceFault self.now input.now choices.now turns.now capacity) }
    {
        erased_text_runs();
        match run_fine_shown(
            self.alloc,
            self.outlined,
            self.arrays,
            input,
            choices,
            turns,
            capacity,
        ) {
            Ok(answer) => Ok(answer),
            Err(fault) => Err(SourceFault::Run(fault)),
        }
    }
}
