// The arrays that an answer shows.

ghost use Rattle.std.specs.Prelude.{◌≡◌, [], IfErr, IfOk, map, slice_index};
ghost use Rattle.base.specs.Answer.{array_values};
ghost use Rattle.host_memory.specs.Arrays.{lengths_of, memory_of};
ghost use Rattle.device.specs.Answering.{final_of};
ghost use Rattle.stepper.specs.Answering.{AreShown, IsShownFault, row_in};

use base::fault::{CheckFault, RunFault};
use base::item::Section;
use base::tree::ArrayId;
use host_memory::Memory;
use mapcheck::check;
use outline::Outlined;
use std::alloc::{AllocError, Global};

/// The arrays that are marked current where the program is accepted, and none where it is refused. The error is
/// `RangeRefused` where it has a fault of range, or `OutOfMemory`.
pub fn shown_of(alloc: Global, outlined: &Outlined<'_>) -> Result<Vec<ArrayId>, RunFault>
    ensures shown { IfOk result (λ arrays. AreShown outlined.now arrays.items) }
    ensures fault { IfErr result (IsShownFault outlined.now) }
{
    match check(alloc, outlined) {
        Ok(accepted) => {
            accepted.is_accepted();
            match Vec::from_slice(alloc, accepted.current()) {
                Ok(arrays) => Ok(arrays),
                Err(_) => Err(RunFault::OutOfMemory),
            }
        }
        Err(CheckFault::Range { item: _, fault: _ }) => Err(RunFault::RangeRefused),
        Err(CheckFault::OutOfMemory) => Err(RunFault::OutOfMemory),
        Err(CheckFault::Order(_)) => Ok(Vec::new(alloc)),
        Err(CheckFault::Refused(_)) => Ok(Vec::new(alloc)),
    }
}

// The numbers of an array on the host.
fn values_of(alloc: Global, host: &Memory, array: ArrayId) -> Result<Vec<u64>, AllocError>
    ensures { IfOk result (λ values. values.items ≡ array_values (memory_of host.now) array.0 (slice_index (lengths_of host.now) array.0)) }
{
    let length = host.length(array);
    if length == 0 {
        return Ok(Vec::new(alloc));
    }
    let whole = Section {
        array,
        first: 0,
        length,
    };
    Vec::from_slice(alloc, host.section(&whole))
}

// The numbers of some arrays.
pub fn finals_of(
    alloc: Global,
    host: &Memory,
    arrays: &[ArrayId],
) -> Result<Vec<(ArrayId, Vec<u64>)>, AllocError>
    ensures { IfOk result (λ finals. map final_of finals.items ≡ map (row_in host.now) arrays.now) }
{
    let mut finals = Vec::new(alloc);
    'arrays: for array in arrays {
        let values = values_of(alloc, host, *array)?;
        finals.push((*array, values))?;
    }
    Ok(finals)
}
