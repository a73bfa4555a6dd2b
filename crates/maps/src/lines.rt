// The lines of what is done with map items.

ghost use Rattle.std.specs.Prelude.{◌≡◌, if◌then◌else◌, [], OnOk};
ghost use Rattle.std.specs.Io.KnownBytes.{Appends};
ghost use Rattle.report.specs.Listing.{name_of};
ghost use Rattle.maps.specs.Maps.{act_line, act_line_if, count_line};

use base::item::Section;
use base::tree::{ArrayId, Program};
use std::io;
use std::io::Write;

/// Where a directive stands, and the device on which it works.
#[derive(Clone, Copy)]
pub struct Spot {
    pub line: usize,
    pub device: u8,
}

fn name_of(program: &Program, array: ArrayId) -> &str
    ensures { result.now ≡ name_of program.now array.0 }
{
    match program.arrays.get_index(array.0 as usize) {
        None => "",
        Some((name, _)) => name.as_str(),
    }
}

/// What is done with a section.
pub fn act_text<W: Write>(
    program: &Program,
    spot: Spot,
    act: &str,
    section: &Section,
    out: &mut W,
) -> io::Result<()>
    ensures { OnOk result (Appends (W.contents out.old) (W.contents out.new) (act_line program.now spot act.now section.now)) }
{
    let name = name_of(program, section.array);
    let (line, device) = (spot.line, spot.device);
    let (first, length) = (section.first, section.length);
    writeln!(
        out,
        "line {line} device {device} {act} {name}[{first}:{length}]"
    )
}

/// The same, where it is done.
pub fn act_text_if<W: Write>(
    does: bool,
    program: &Program,
    spot: Spot,
    act: &str,
    section: &Section,
    out: &mut W,
) -> io::Result<()>
    ensures { OnOk result (Appends (W.contents out.old) (W.contents out.new) (act_line_if does program.now spot act.now section.now)) }
{
    if !does {
        return Ok(());
    }
    act_text(program, spot, act, section, out)
}

/// The count of a block.
pub fn count_text<W: Write>(
    program: &Program,
    spot: Spot,
    section: &Section,
    count: u64,
    out: &mut W,
) -> io::Result<()>
    ensures { OnOk result (Appends (W.contents out.old) (W.contents out.new) (count_line program.now spot section.now count)) }
{
    let name = name_of(program, section.array);
    let (line, device) = (spot.line, spot.device);
    let (first, length) = (section.first, section.length);
    writeln!(
        out,
        "line {line} device {device} count {name}[{first}:{length}] {count}"
    )
}
