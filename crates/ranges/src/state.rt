// How far a walk over a region is.

ghost use Rattle.ranges.specs.Cells.{AreKnown, has};

use crate::cells::Footprint;
use base::tree::Place;

/// What was seen so far: the cells, and the least place of a subscript that can leave its array.
#[derive(Drop)]
pub struct Walk {
    pub found: Footprint,
    pub least: Option<Place>,
    ghost known: { AreKnown (has found.exposed) (has found.read) (has found.sure) },
}
