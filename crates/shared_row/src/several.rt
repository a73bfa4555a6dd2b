// Numbers that several owners have.

ghost use Rattle.std.specs.Prelude.{◌≡◌, ◌+◌, ◌≤◌, [], length, vec_capacity};

use std::sync::Arc;

/// Numbers that others have too, and room for as many: who changes them takes them there first, which takes no memory.
#[derive(Drop)]
pub struct Several {
    pub row: Arc<Vec<u64>>,
    pub room: Vec<u64>,
    ghost empty: { room.items ≡ [] },
    ghost fits: { length row.value.items ≤ vec_capacity room },
}

/// So many numbers of a row from a place on, for another owner.
#[derive(Drop)]
pub struct LentRow {
    pub row: Arc<Vec<u64>>,
    pub first: usize,
    pub count: usize,
    ghost inside: { first + count ≤ length row.value.items },
}
