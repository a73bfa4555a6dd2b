// The places of blocks in order, by which a block that overlaps a section is found.

ghost use Rattle.std.specs.Prelude.{◌≡◌, ◌≤◌, ◌<◌, ◌^◌, length};
ghost use Rattle.mapwalk.specs.Spots.{AllAfter, AllBefore, AreInOrder, AreOrdered, IsFound, IsSmall, start_of, stop_of};

use crate::blocks::{Block, is_within};
use base::item::Section;

/// The section of a block, and the block's number in the order of creation.
#[derive(Clone, Copy)]
pub struct Spot {
    pub section: Section,
    pub number: usize,
}

/// Where a section lies.
#[derive(Clone, Copy)]
pub enum Found {
    /// In no block, and before this spot.
    Absent(usize),
    /// Inside the block of this spot.
    Inside(usize),
    InPart,
}

// More places than a section has behind the begin of its array.
const ARRAY: u128 = 36_893_488_147_419_103_232;

// What the numbers of every section are.
fn is_small(section: &Section)
    ensures { IsSmall section.now }
{
    let _first = section.first;
    let _length = section.length;
}

// Where a section begins, in one row of all arrays.
fn start(section: &Section) -> u128
    ensures value { result ≡ start_of section.now }
    ensures bound { result < 2 ^ 98 }
{
    let array = section.array.0;
    let first = section.first;
    u128::from(array) * ARRAY + u128::from(first)
}

// Where it ends.
fn stop(section: &Section) -> u128
    ensures { result ≡ stop_of section.now }
{
    let length = section.length;
    start(section) + u128::from(length)
}

// The first spot that ends after a place.
fn first_after(spots: &[Spot], place: u128) -> usize
    requires { AreInOrder spots.now }
    ensures bound { result ≤ length spots.now }
    ensures before { AllBefore spots.now result place }
    ensures after { AllAfter spots.now result place }
{
    let mut low = 0;
    let mut high = spots.len();
    while low < high {
        let middle = low + (high - low) / 2;
        if stop(&spots[middle].section) <= place {
            low = middle + 1;
        } else {
            high = middle;
        }
    }
    low
}

/// Where a section lies among blocks.
pub fn find(blocks: &[Block], spots: &[Spot], section: &Section) -> Found
    requires { AreOrdered blocks.now spots.now }
    ensures { IsFound blocks.now spots.now section.now result }
{
    let i = first_after(spots, start(section));
    if i == spots.len() {
        return Found::Absent(i);
    }
    let spot = &spots[i].section;
    is_small(section);
    is_small(spot);
    if stop(section) <= start(spot) {
        Found::Absent(i)
    } else if is_within(section, spot) {
        Found::Inside(i)
    } else {
        Found::InPart
    }
}
