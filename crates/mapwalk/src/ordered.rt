// Blocks in order that are created, counted and removed.

ghost use Rattle.std.specs.Prelude.{◌≡◌, ◌<◌, [], ◌∷◌, ◌++◌, OnErr, OnOk, Some, length, map, remove, slice_get, slice_set};
ghost use Rattle.mapwalk.specs.declared.blocks.Block.{Block};
ghost use Rattle.mapwalk.specs.declared.spots.Spot.{Spot};
ghost use Rattle.mapwalk.specs.Spots.{AreOrdered, IsAbsentAt, IsSpot, lower};

use crate::blocks::Block;
use crate::spots::Spot;
use base::item::Section;
use std::alloc::AllocError;

/// A new block, entered once, whose spot is before this one.
pub fn create(
    blocks: &mut Vec<Block>,
    spots: &mut Vec<Spot>,
    at: usize,
    section: Section,
) -> Result<(), AllocError>
    requires ordered { AreOrdered blocks.old.items spots.old.items }
    requires absent { IsAbsentAt blocks.old.items spots.old.items section at }
    ensures created { OnOk result (blocks.new.items ≡ blocks.old.items ++ record { section = section; count = 1 } ∷ []) }
    ensures unchanged { OnErr result (blocks.new.items ≡ blocks.old.items) }
    ensures order { AreOrdered blocks.new.items spots.new.items }
{
    let number = blocks.len();
    spots.reserve(1)?;
    blocks.push(Block { section, count: 1 })?;
    if spots.insert(at, Spot { section, number }).is_err() {
        unreachable!()
    }
    Ok(())
}

/// Gives a block this count.
pub fn recount(blocks: &mut Vec<Block>, number: usize, count: u128)
    requires { number < length blocks.old.items }
    ensures { (b : Block) → slice_get blocks.old.items number ≡ Some b →
        blocks.new.items ≡ slice_set blocks.old.items number (record { section = b.section; count = count }) }
{
    let section = blocks[number].section;
    blocks[number] = Block { section, count };
}

// The spot when the block of this number is gone.
fn lowered(spot: Spot, number: usize) -> Spot
    ensures { result ≡ lower number spot }
{
    if number < spot.number {
        Spot {
            section: spot.section,
            number: spot.number - 1,
        }
    } else {
        spot
    }
}

fn lower_all(spots: &mut [Spot], number: usize)
    ensures { spots.new ≡ map (lower number) spots.old }
{
    'each: for spot in spots.iter_mut() {
        *spot = lowered(*spot, number);
    }
}

/// Removes the block of a spot.
pub fn remove(blocks: &mut Vec<Block>, spots: &mut Vec<Spot>, at: usize)
    requires ordered { AreOrdered blocks.old.items spots.old.items }
    requires inside { IsSpot spots.old.items at }
    ensures removed { (x : Spot) → slice_get spots.old.items at ≡ Some x → blocks.new.items ≡ remove blocks.old.items x.number }
    ensures order { AreOrdered blocks.new.items spots.new.items }
{
    let number = spots[at].number;
    blocks.remove(number);
    spots.remove(at);
    lower_all(spots, number);
}
