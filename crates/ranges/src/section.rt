// Sections that are empty or leave their arrays.

ghost use Rattle.std.specs.Prelude.{◌≡◌, slice_index};
ghost use Rattle.base.specs.Meaning.{lengths_of};
ghost use Rattle.base.specs.Accepted.{section_fails};
ghost use Rattle.ranges.specs.Faults.{least_map, least_depend};

use crate::least::note_place;
use base::item::{Depend, MapItem, Section};
use base::tree::{ArrayId, Place, Program};

// An array's length, and 0 where there is no such array.
fn length_of(program: &Program, array: ArrayId) -> u32
    ensures { result ≡ slice_index (lengths_of program.now) array.0 }
{
    match program.arrays.as_slice().get_index(array.0 as usize) {
        None => 0,
        Some((_, info)) => info.length,
    }
}

fn fails(program: &Program, section: Section) -> bool
    ensures { result ≡ section_fails (lengths_of program.now) section }
{
    let length = u64::from(length_of(program, section.array));
    section.length == 0 || section.first > length || section.length > length - section.first
}

/// The least place of a map item whose section fails, and of what was found before.
pub fn note_maps(program: &Program, maps: &[MapItem], least: &mut Option<Place>)
    ensures { least.new ≡ least_map (lengths_of program.now) maps.now least.old }
{
    for m in maps {
        let place = Place {
            line: m.line,
            column: m.column,
        };
        note_place(fails(program, m.section), place, least);
    }
}

/// The least place of a depend item whose section fails, and of what was found before.
pub fn note_depends(program: &Program, depends: &[Depend], least: &mut Option<Place>)
    ensures { least.new ≡ least_depend (lengths_of program.now) depends.now least.old }
{
    for d in depends {
        let place = Place {
            line: d.line,
            column: d.column,
        };
        note_place(fails(program, d.section), place, least);
    }
}
