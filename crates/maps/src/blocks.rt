// The table of one device: its blocks, in the order of their creation, and their counts.

ghost use Rattle.std.specs.Prelude.{◌≡◌, find, filter, map, not};
ghost use Rattle.base.specs.Map.{counted, entry_copies, exit_copies, exit_count, presence, without};
ghost use Rattle.base.specs.Memory.{is_inside, overlaps, same_section};
ghost use Rattle.maps.specs.Shown.{block_of, place_of};
ghost use Rattle.maps.specs.Maps.{count_in};

use base::depend::overlap;
use base::item::{MapItem, MapKind, Section};

/// A section with storage, and how often it was entered and not yet left.
#[derive(Clone, Copy)]
pub struct Block {
    pub section: Section,
    pub count: u64,
}

/// Where a section lies.
#[derive(Clone, Copy)]
pub enum Place {
    Absent,
    Inside(Block),
    InPart,
}

// Whether a section lies inside another.
fn is_inside(inner: &Section, outer: &Section) -> bool
    ensures { result ≡ is_inside inner.now outer.now }
{
    let inner_end = u128::from(inner.first) + u128::from(inner.length);
    let outer_end = u128::from(outer.first) + u128::from(outer.length);
    inner.array == outer.array && outer.first <= inner.first && inner_end <= outer_end
}

// Whether two sections are the same.
fn is_same(left: &Section, right: &Section) -> bool
    ensures { result ≡ same_section left.now right.now }
{
    left.array == right.array && left.first == right.first && left.length == right.length
}

// The first block that shares a cell with a section.
fn overlapping(blocks: &[Block], section: &Section) -> Option<Block>
    ensures { result ≡ find (λ b. overlaps b.section section.now) blocks.now }
{
    blocks
        .iter()
        .find(|block| overlap(&block.section, section))
        .copied()
}

/// Where a section lies among these blocks.
pub fn place_in(blocks: &[Block], section: &Section) -> Place
    ensures { place_of result ≡ presence (map block_of blocks.now) section.now }
{
    match overlapping(blocks, section) {
        None => Place::Absent,
        Some(block) if is_inside(section, &block.section) => Place::Inside(block),
        Some(_) => Place::InPart,
    }
}

// The block of this section.
fn of_section(blocks: &[Block], section: &Section) -> Option<Block>
    ensures { result ≡ find (λ b. same_section b.section section.now) blocks.now }
{
    blocks
        .iter()
        .find(|block| is_same(&block.section, section))
        .copied()
}

/// How often the block of this section was entered and not yet left: 0 where there is none.
pub fn count_in(blocks: &[Block], section: &Section) -> u64
    ensures { result ≡ count_in (map block_of blocks.now) section.now }
{
    match of_section(blocks, section) {
        None => 0,
        Some(block) => block.count,
    }
}

/// Gives a block this count.
pub fn recount(blocks: &mut [Block], section: &Section, count: u64)
    ensures { map block_of blocks.new ≡ map (counted section.now count) (map block_of blocks.old) }
{
    'each: for block in blocks.iter_mut() {
        *block = recounted(*block, section, count);
    }
}

// The block with this count, where it is of this section.
fn recounted(block: Block, section: &Section, count: u64) -> Block
    ensures { block_of result ≡ counted section.now count (block_of block) }
{
    if is_same(&block.section, section) {
        return Block {
            section: *section,
            count,
        };
    }
    block
}

/// Removes the block of this section.
pub fn remove(blocks: &mut Vec<Block>, section: &Section)
    ensures { map block_of blocks.new.items ≡ without (map block_of blocks.old.items) section.now }
{
    blocks.retain(|block| !is_same(&block.section, section));
}

/// Whether values are copied to the device.
pub fn copies_to(kind: MapKind) -> bool
    ensures { result ≡ Rattle.base.specs.Map.copies_to kind }
{
    match kind {
        MapKind::To | MapKind::ToFrom => true,
        MapKind::From | MapKind::Alloc | MapKind::Release | MapKind::Delete => false,
    }
}

/// Whether values are copied to the host.
pub fn copies_from(kind: MapKind) -> bool
    ensures { result ≡ Rattle.base.specs.Map.copies_from kind }
{
    match kind {
        MapKind::From | MapKind::ToFrom => true,
        MapKind::To | MapKind::Alloc | MapKind::Release | MapKind::Delete => false,
    }
}

/// Whether an entry copies, where the count is now `count`.
pub fn entry_copies(item: &MapItem, count: u64) -> bool
    ensures { result ≡ entry_copies item.now count }
{
    (count == 1 || item.always) && copies_to(item.kind)
}

/// Whether an exit copies, where the count is now `count`.
pub fn exit_copies(item: &MapItem, count: u64) -> bool
    ensures { result ≡ exit_copies item.now count }
{
    (count == 0 || item.always) && copies_from(item.kind)
}

/// The count after an exit.
pub fn exit_count(kind: MapKind, count: u64) -> u64
    ensures { result ≡ exit_count kind count }
{
    match kind {
        MapKind::Delete => 0,
        MapKind::To | MapKind::From | MapKind::ToFrom | MapKind::Alloc | MapKind::Release => {
            count.saturating_sub(1)
        }
    }
}
