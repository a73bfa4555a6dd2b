// Where the turns of a kernel that may run in any order begin.

ghost use Rattle.std.specs.Prelude.{◌≡◌, ◌∷◌, ◌<◌, [], true, IfOk, OnOk, length};
ghost use Rattle.actions.specs.Control.{Begins, Begun, IsTurn, all_turns};
ghost use Rattle.actions.specs.Strand.{run_of};

use crate::frame::Frame;
use crate::nest::turn_at;
use crate::stack::Frames;
use crate::strand::Strand;
use crate::unordered::Unordered;
use base::tree::Stmt;
use std::alloc::{AllocError, Global};
use std::collections::VecDeque;

impl<'p> Strand<'p> {
    // A turn on the device that begins where the strand stands, and has done nothing.
    fn turn(&self, alloc: Global, body: &'p [Stmt], loops: &[u64]) -> Result<Strand<'p>, AllocError>
        ensures { IfOk result (IsTurn (run_of self.now) (record { loops = loops.now; body = body.now })) }
    {
        let mut frames = Frames::new(alloc);
        frames.push(Frame::Rest(body))?;
        Ok(Strand {
            on_host: false,
            frames,
            loops: Vec::from_slice(alloc, loops)?,
            number: 0,
            scalars: self.scalars.copy(alloc)?,
            input: self.input,
            printed: Vec::from_slice(alloc, &self.printed)?,
        })
    }
}

// A turn begins where a strand stands, and comes to its first action after the other turns; one without an action is
// done.
fn begin_turn<'p>(
    alloc: Global,
    turns: &mut VecDeque<Strand<'p>>,
    from: &Strand<'p>,
    body: &'p [Stmt],
    loops: &[u64],
) -> Result<(), AllocError>
    ensures { OnOk result (Begins (run_of from.now) (record { loops = loops.now; body = body.now } ∷ []) turns.old.items turns.new.items) }
{
    let mut turn = from.turn(alloc, body, loops)?;
    turn.advance()?;
    if !turn.is_acting() {
        return Ok(());
    }
    turns.push_back(turn)?;
    Ok(())
}

/// The turns of a kernel that have not begun begin where a strand stands, in the order of execution, each up to its
/// first action: all of them, or up to one that has an action to do. The answer is the number of the first that has
/// not begun.
pub fn begin_turns<'p>(
    alloc: Global,
    turns: &mut VecDeque<Strand<'p>>,
    from: &Strand<'p>,
    kernel: Unordered<'p>,
    count: u64,
    one: bool,
) -> Result<u64, AllocError>
    requires { length (all_turns kernel) ≡ count }
    ensures begun { IfOk result (λ n. Begun (run_of from.now) (all_turns kernel.entry) kernel.entry.next n turns.old.items turns.new.items) }
    ensures stops { IfOk result (λ n. n < count → (one ≡ true) × (turns.new.items ≡ [] → ⊥)) }
{
    let mut next = kernel.next;
    'turns: while next < count {
        if one && !turns.is_empty() {
            return Ok(next);
        }
        let (around, body) = turn_at(alloc, kernel.depth, kernel.body, kernel.loops, next)?;
        begin_turn(alloc, turns, from, body, &around)?;
        next += 1;
    }
    Ok(next)
}
