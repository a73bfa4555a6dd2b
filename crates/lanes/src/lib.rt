//! Loops whose turns are apart.
#![tactic(auto)]

ghost use Rattle.lanes.specs.Apart.{ByAssignments, TurnsApart};
ghost use Rattle.lanes.specs.Moved.{MovedPlaces, OwnValuePlaces};
ghost use Rattle.lanes.specs.Sums.{SumIsTurns};
ghost use Rattle.lanes.specs.Turned.{BlockIsTurns};

pub mod numbers;

/// The indices at which the turns of a loop store: the loop's own value, and its value added to a number that no turn
/// changes, modulo 2^64. In turns below 2^64 no two are the same.
pub fn places()
    ensures own_value { OwnValuePlaces }
    ensures moved { MovedPlaces }
{}

/// In a loop whose body names each array that it stores only at an index of the turn's own, and reads no scalar that
/// another turn assigns, each turn does what it does from where the first one begins.
pub fn turns_apart()
    ensures { TurnsApart }
{}

/// What such a body does assignment by assignment, each for all turns of a block, is what each turn does alone.
/// A choice is its first branch for the turns in which its condition is not 0, and then its second for the others.
pub fn by_assignments()
    ensures { ByAssignments }
{}

/// Some turns of such a loop, one after another, do what the block of them does assignment by assignment, and the block
/// has what it needs where the turns have.
pub fn block_is_turns()
    ensures { BlockIsTurns }
{}

/// Turns that also carry a scalar on, as a sum does, are the block of the turns that assign it what is added, with the
/// number that is carried on over their scalars.
pub fn sum_is_turns()
    ensures { SumIsTurns }
{}
