//! The head of a loop.

ghost use Rattle.std.specs.Prelude.{◌≡◌};
ghost use Rattle.std.specs.Option.{option_map};
ghost use Rattle.c_grammar.specs.Devices.{are_devices, loop_in, loop_of};
ghost use Rattle.c_grammar.specs.Initial.{value_of};
ghost use Rattle.c_grammar.specs.Triangles.{name_of};
ghost use Rattle.c_devices.specs.Blocks.{seen_block};
ghost use Rattle.c_terminals.specs.Seen.{seen_all, seen_terminal};

use c_terminals::{Terminal, Token};

/// The highest number of a device.
const MAX_DEVICE: u64 = 3;

fn name_of<'a>(terminal: Terminal<'a, '_>) -> Option<&'a [u8]>
    ensures { option_map (λ x. x.now) result ≡ name_of (seen_terminal terminal.entry) }
{
    match terminal {
        Terminal::Name(name) => Some(name),
        _ => None,
    }
}

fn value_of(terminal: Terminal<'_, '_>) -> Option<u64>
    ensures { result ≡ value_of (seen_terminal terminal.entry) }
{
    match terminal {
        Terminal::Number(value) => Some(value),
        _ => None,
    }
}

// Whether all values of the loop are devices.
fn are_devices(first: u64, end: u64, step: u64) -> bool
    ensures { result ≡ are_devices first end step }
{
    if end <= first {
        return true;
    }
    let last = end - 1;
    let beyond = if step == 0 {
        last - first
    } else {
        (last - first) % step
    };
    last - beyond <= MAX_DEVICE
}

// The name, where all values of the loop are devices.
fn loop_of<'a>(
    name: Option<&'a [u8]>,
    first: Option<u64>,
    end: Option<u64>,
    step: Option<u64>,
) -> Option<&'a [u8]>
    ensures { seen_block result ≡ loop_of (seen_block name.entry) first end step }
{
    let (name, first, end, step) = (name?, first?, end?, step?);
    if are_devices(first, end, step) {
        return Some(name);
    }
    None
}

/// The name of the loop whose head these tokens begin, behind the word `for`, where all its values are devices.
#[tactic(auto, using(crate::proofs::Heading::too_short))]
pub fn loop_in<'a>(rest: &[Token<'a, '_>]) -> Option<&'a [u8]>
    ensures { seen_block result ≡ loop_in (seen_all rest.now) }
{
    let [_, _, name, _, first, _, _, _, end, _, _, _, step, ..] = rest else {
        return None;
    };
    let name = name_of(name.terminal);
    let (first, end) = (value_of(first.terminal), value_of(end.terminal));
    loop_of(name, first, end, value_of(step.terminal))
}
