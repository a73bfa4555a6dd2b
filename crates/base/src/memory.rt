// Numbers in a row.

ghost use Rattle.std.specs.Prelude.{◌≡◌, ◌+◌, ◌≤◌, length};
ghost use Rattle.base.specs.Arrays.{overwritten};

/// Writes these numbers over those from the place `at` on.
pub fn overwrite(row: &mut [u64], at: u64, numbers: &[u64])
    requires { at + length numbers.now ≤ length row.old }
    ensures { row.new ≡ overwritten row.old at numbers.now }
{
    let first = at as usize;
    row[first..first + numbers.len()].copy_from_slice(numbers);
}
