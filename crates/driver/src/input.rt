//! The input of a program.

ghost use Rattle.std.specs.Prelude.{◌≡◌, IfOk, IfSome};
ghost use Rattle.driver.specs.Printed.{IsInput};

use numbers::{NumbersFault, input_numbers};
use std::alloc::Global;
use std::io;
use std::io::Read;

/// So many bytes are read at once.
const PART: usize = 4_096;

fn fault_of(error: &io::Error) -> NumbersFault {
    match error.kind() {
        io::ErrorKind::OutOfMemory => NumbersFault::OutOfMemory,
        _ => NumbersFault::Malformed,
    }
}

/// How many times as many the bytes are when they are looked at again.
const MORE: usize = 8;

/// Reads to the end. Now and then the bytes so far are looked at: where they can be the beginning of no input, no more is
/// read.
fn read_bytes<R: Read>(alloc: Global, input: &mut R) -> Result<Vec<u8>, NumbersFault>
    ensures { IfOk result (λ v. IfSome (R.remaining input.old) (λ xs. v.items ≡ xs)) }
{
    let mut bytes = Vec::new(alloc);
    let mut part = [0u8; PART];
    let mut next = PART;
    'parts: for _ in 0..u64::MAX {
        let count = match input.read(&mut part) {
            Ok(count) => count,
            Err(error) => {
                if error.kind() == io::ErrorKind::Interrupted {
                    continue;
                }
                return Err(fault_of(&error));
            }
        };
        if count == 0 {
            return Ok(bytes);
        }
        bytes.extend_from_slice(&part[..count])?;
        if bytes.len() >= next {
            input_numbers(alloc, &bytes)?;
            next = bytes.len().saturating_mul(MORE);
        }
    }
    Err(NumbersFault::Malformed)
}

/// The numbers of an input, which is read to its end.
pub(crate) fn read_numbers<R: Read>(alloc: Global, input: &mut R) -> Result<Vec<u64>, NumbersFault>
    ensures { IfOk result (λ ns. IsInput (R.remaining input.old) ns.items) }
{
    let bytes = read_bytes(alloc, input)?;
    input_numbers(alloc, &bytes)
}
