// Numbers of a row that another owner has too.

ghost use Rattle.std.specs.Prelude.{◌≡◌};
ghost use Rattle.shared_row.specs.Rows.{lent_numbers, numbers_in, room_in};

use crate::several::LentRow;

/// Numbers of its own, or lent ones.
#[derive(Drop)]
pub enum RowCells {
    Own(Vec<u64>),
    Lent(LentRow),
}

impl LentRow {
    /// The numbers.
    pub fn numbers(&self) -> &[u64]
        ensures { result.now ≡ lent_numbers self.now }
    {
        &self.row[self.first..self.first + self.count]
    }
}

impl RowCells {
    /// The numbers.
    pub fn numbers(&self) -> &[u64]
        ensures { result.now ≡ numbers_in self.now }
    {
        match self {
            RowCells::Own(numbers) => numbers,
            RowCells::Lent(lent) => lent.numbers(),
        }
    }

    /// For how many numbers it has room.
    pub fn room(&self) -> usize
        ensures { result ≡ room_in self.now }
    {
        match self {
            RowCells::Own(numbers) => numbers.capacity(),
            RowCells::Lent(lent) => lent.count,
        }
    }
}
