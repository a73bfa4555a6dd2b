// Numbers with one owner or with several.

ghost use Rattle.std.specs.Prelude.{◌≡◌, [], false, true, IfErr, IfOk, IfSome, length};
ghost use Rattle.shared_row.specs.Rows.{IsRoom, is_sole, numbers_of};

use crate::several::Several;
use std::alloc::Global;
use std::mem::replace;
use std::sync::Arc;

/// Numbers with one owner, or with several.
#[derive(Drop)]
pub enum SharedRow {
    Sole(Vec<u64>),
    Shared(Several),
}

// Two rooms for as many numbers as the row has: its numbers' own, if they have no other owner, and a new one where there
// is memory for it.
fn rooms(alloc: Global, row: SharedRow) -> (Vec<u64>, Option<Vec<u64>>)
    ensures first { IsRoom (length (numbers_of row)) result.0 }
    ensures second { IfSome result.1 (IsRoom (length (numbers_of row))) }
{
    match row {
        SharedRow::Sole(mut numbers) => {
            let more = Vec::with_capacity(alloc, numbers.len());
            numbers.clear();
            (numbers, more.ok())
        }
        SharedRow::Shared(Several { row, room }) => match Arc::try_unwrap(row) {
            Ok(mut numbers) => {
                numbers.clear();
                (numbers, Some(room))
            }
            Err(row) => {
                let more = Vec::with_capacity(alloc, row.len());
                (room, more.ok())
            }
        },
    }
}

// The numbers, copied into room for them.
fn filled(mut room: Vec<u64>, numbers: &[u64]) -> Vec<u64>
    requires { IsRoom (length numbers.now) room }
    ensures { result.items ≡ numbers.now }
{
    if room.extend_from_slice(numbers).is_err() {
        unreachable!()
    }
    room
}

// The numbers with one owner.
fn alone(several: Several) -> Vec<u64>
    ensures { result.items ≡ several.row.value.items }
{
    let Several { row, room } = several;
    match Arc::try_unwrap(row) {
        Ok(numbers) => numbers,
        Err(row) => filled(room, &row),
    }
}

impl SharedRow {
    /// The numbers.
    pub fn numbers(&self) -> &[u64]
        ensures { result.now ≡ numbers_of self.now }
    {
        match self {
            SharedRow::Sole(numbers) => numbers,
            SharedRow::Shared(several) => &several.row,
        }
    }

    /// The same numbers, with this owner alone. It takes no memory.
    pub fn own(&mut self, alloc: Global)
        ensures same { numbers_of self.new ≡ numbers_of self.old }
        ensures sole { is_sole self.new ≡ true }
    {
        let was = replace(self, SharedRow::Sole(Vec::new(alloc)));
        *self = SharedRow::Sole(match was {
            SharedRow::Sole(numbers) => numbers,
            SharedRow::Shared(several) => alone(several),
        });
    }

    /// One more owner of the numbers, for which there is to be room for as many where they have had one. The room comes
    /// back where it is too small, or for want of memory.
    pub fn share(&mut self, alloc: Global, mut room: Vec<u64>) -> Result<Arc<Vec<u64>>, Vec<u64>>
        requires { room.items ≡ [] }
        ensures same { numbers_of self.new ≡ numbers_of self.old }
        ensures shared { IfOk result (λ row. row.value.items ≡ numbers_of self.old) }
        ensures refused { IfErr result (λ back. back ≡ room) }
    {
        match replace(self, SharedRow::Sole(Vec::new(alloc))) {
            SharedRow::Shared(several) => {
                let other: Result<_, _> = several.row.clone();
                *self = SharedRow::Shared(several);
                match other {
                    Ok(row) => Ok(row),
                    Err(_) => Err(room),
                }
            }
            SharedRow::Sole(numbers) => {
                if room.capacity() < numbers.len() {
                    *self = SharedRow::Sole(numbers);
                    return Err(room);
                }
                let row = match Arc::new(alloc, numbers) {
                    Ok(row) => row,
                    Err(failed) => {
                        *self = SharedRow::Sole(failed.value);
                        return Err(room);
                    }
                };
                let other: Result<_, _> = row.clone();
                match other {
                    Ok(other) => {
                        *self = SharedRow::Shared(Several { row, room });
                        Ok(other)
                    }
                    Err(_) => {
                        if room.extend_from_slice(&row).is_err() {
                            unreachable!()
                        }
                        *self = SharedRow::Sole(room);
                        Ok(row)
                    }
                }
            }
        }
    }

    /// The numbers become those of a row with other owners, which are as many. False for want of memory, and then they
    /// are as they were.
    pub fn adopt(&mut self, alloc: Global, row: &Arc<Vec<u64>>) -> bool
        requires { length row.now.value.items ≡ length (numbers_of self.old) }
        ensures adopted { result ≡ true → numbers_of self.new ≡ row.now.value.items }
        ensures unchanged { result ≡ false → numbers_of self.new ≡ numbers_of self.old }
    {
        let other: Result<_, _> = row.clone();
        let Ok(row) = other else {
            return false;
        };
        let room = match replace(self, SharedRow::Sole(Vec::new(alloc))) {
            SharedRow::Sole(mut numbers) => {
                numbers.clear();
                numbers
            }
            SharedRow::Shared(several) => several.room,
        };
        *self = SharedRow::Shared(Several { row, room });
        true
    }

    /// The numbers become those of another row, which are as many. From then on they are in memory once, unless there is
    /// no memory for that: then they are copied.
    pub fn copy_from(&mut self, alloc: Global, other: &mut SharedRow)
        requires { length (numbers_of self.old) ≡ length (numbers_of other.old) }
        ensures copied { numbers_of self.new ≡ numbers_of other.old }
        ensures same { numbers_of other.new ≡ numbers_of other.old }
    {
        if let SharedRow::Shared(several) = other {
            if self.adopt(alloc, &several.row) {
                return;
            }
        }
        let (first, second) = rooms(alloc, replace(self, SharedRow::Sole(Vec::new(alloc))));
        let Some(second) = second else {
            *self = SharedRow::Sole(filled(first, other.numbers()));
            return;
        };
        *self = match other.share(alloc, first) {
            Ok(row) => SharedRow::Shared(Several { row, room: second }),
            Err(first) => SharedRow::Sole(filled(first, other.numbers())),
        };
    }
}
