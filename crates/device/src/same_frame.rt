// Whether two frames are the same by value.

ghost use Rattle.std.specs.Prelude.{◌≡◌, false, map, true};
ghost use Rattle.device.specs.Standing.{frame_parts, row_parts};

use kernel::{Frame, Row};

fn is_same_row(left: &Row, right: &Row) -> bool
    ensures yes { result ≡ true → row_parts left.now ≡ row_parts right.now }
    ensures no { result ≡ false → row_parts left.now ≡ row_parts right.now → ⊥ }
{
    left.first == right.first && left.cells.numbers() == right.cells.numbers()
}

fn are_same_rows(left: &[Row], right: &[Row]) -> bool
    ensures yes { result ≡ true → map row_parts left.now ≡ map row_parts right.now }
    ensures no { result ≡ false → map row_parts left.now ≡ map row_parts right.now → ⊥ }
{
    if left.len() != right.len() {
        return false;
    }
    'each: for i in 0..left.len() {
        if !is_same_row(&left[i], &right[i]) {
            return false;
        }
    }
    true
}

/// Whether two frames have the same item, loop values, scalars, rows and input.
pub fn is_same_frame(left: &Frame<'_>, right: &Frame<'_>) -> bool
    ensures yes { result ≡ true → frame_parts left.now ≡ frame_parts right.now }
    ensures no { result ≡ false → frame_parts left.now ≡ frame_parts right.now → ⊥ }
{
    if left.item != right.item || left.input != right.input {
        return false;
    }
    if left.scalars.numbers() != right.scalars.numbers() {
        return false;
    }
    let loops = left.loops.values.as_slice();
    if loops != right.loops.values.as_slice() {
        return false;
    }
    are_same_rows(&left.rows, &right.rows)
}
