//! Choosing the part of a row.

ghost use Rattle.std.specs.Prelude.{◌≡◌, ◌<◌, ℕ, List, length, slice_index_or, []};
ghost use Rattle.rj_columns.specs.Contents.{Content};
ghost use Rattle.rj_columns.specs.declared.cell.ColumnType.{ColumnType};

use rj_columns::Table;

/// Chooses the part of a row. Parts count from 0.
pub trait Route {
    // The part of a row of these cells.
    ghost part: { Self → List Content → ℕ };

    // How many parts there are.
    ghost count: { Self → ℕ };

    // It can be used for rows of these types.
    ghost fits: { Self → List ColumnType → Type 0 };

    /// How many parts there are.
    fn parts(&self) -> u32
        ensures { result ≡ count self.now };

    /// The part of a row of a table.
    fn part_of(&self, table: &Table, row: u32) -> u32
        requires row { row < length table.now.rows }
        requires types { fits self.now table.now.types }
        ensures part { result ≡ part self.now (slice_index_or table.now.rows row []) }
        ensures below { result < count self.now };
}
