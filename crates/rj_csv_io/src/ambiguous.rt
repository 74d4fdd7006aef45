//! Cells whose text is the same as that of NULL.

ghost use Rattle.std.specs.Prelude.{◌≡◌, ◌<◌, ◌≤◌, ◌-◌, ◌+◌, ◌^◌, ℕ, false, IsTrue, IfOk, IfSome, MatchOption};
ghost use Rattle.rj_columns.specs.Contents.{content_of};
ghost use Rattle.rj_csv_io.specs.Ambiguous.{AreClear, IsClearRow, IsFirstAmbiguous, IsFirstInRow, is_ambiguous};
ghost use Rattle.rj_csv_io.specs.Internal.Blocks.{Holds};
ghost use Rattle.rj_csv_io.specs.Tables.{is_null_text};

use crate::block::{RowBlock, next_block, no_rows};
use rj_columns::{Cell, RowSource};
use std::alloc::{AllocError, Global};

// Whether a cell that isn't NULL has the NULL text. Only a text can: a number has a digit, and no
// NULL text has one.
fn has_null_text(cell: Cell<'_>, null: &str) -> bool
    requires { IsTrue (is_null_text null.now) }
    ensures { result ≡ is_ambiguous null.now (content_of cell.entry) }
{
    match cell {
        Cell::Text(text) => text.as_bytes() == null.as_bytes(),
        Cell::Null => false,
        Cell::Int(_) => false,
        Cell::Num { units: _, scale: _ } => false,
    }
}

// The first cell of a block's row that isn't NULL and has the NULL text.
fn first_in_row<S: RowSource>(block: &RowBlock<'_>, source: &S, row: u64, null: &str) -> Option<u64>
    requires null { IsTrue (is_null_text null.now) }
    requires holds { Holds (S.contents source.now) (S.width source.now) block.now }
    requires from { block.now.from ≤ row }
    requires to { row < block.now.to }
    ensures bound { IfSome result (λ col. col < 2 ^ 64 - 1) }
    ensures first { MatchOption result (IsClearRow null.now (S.contents source.now) row) (IsFirstInRow null.now (S.contents source.now) row) }
{
    let step = (block.to - block.from) as usize;
    let at = (row - block.from) as usize;
    let mut base = 0usize;
    for col in 0..source.columns() {
        if has_null_text(block.cells[base + at], null) {
            return Some(col as u64);
        }
        base += step;
    }
    None
}

// The first such cell of a block's rows.
fn first_in_block<S: RowSource>(block: &RowBlock<'_>, source: &S, null: &str) -> Option<(u64, u64)>
    requires null { IsTrue (is_null_text null.now) }
    requires holds { Holds (S.contents source.now) (S.width source.now) block.now }
    ensures { MatchOption result ((r : ℕ) → block.now.from ≤ r → r < block.now.to → IsClearRow null.now (S.contents source.now) r)
        (λ p. (p.0 < block.now.to) × (p.1 < 2 ^ 64 - 1) × IsFirstInRow null.now (S.contents source.now) p.0 p.1
        × ((r : ℕ) → block.now.from ≤ r → r < p.0 → IsClearRow null.now (S.contents source.now) r)) }
{
    for row in block.from..block.to {
        if let Some(col) = first_in_row(block, source, row, null) {
            return Some((row, col));
        }
    }
    None
}

/// The row and the column of the first cell of a source that isn't NULL and whose text is the NULL
/// text, so that it would be read as NULL. Rows come first, and both count from 1. `None` if there
/// is no such cell.
///
/// The rows are read in blocks, as they are when they are written.
///
/// # Errors
///
/// It fails only when memory runs out.
pub fn first_ambiguous<S: RowSource>(
    alloc: Global,
    source: &S,
    null: &str,
) -> Result<Option<(u64, u64)>, AllocError>
    requires { IsTrue (is_null_text null.now) }
    ensures { IfOk result (λ o. MatchOption o (AreClear null.now (S.contents source.now))
        (λ p. IsFirstAmbiguous null.now (S.contents source.now) p.0 p.1)) }
{
    let mut block = no_rows(alloc);
    let end = source.rows();
    let mut row = 0;
    while row < end {
        next_block(&mut block, source, row, end)?;
        if let Some((found, col)) = first_in_block(&block, source, null) {
            return Ok(Some((found + 1, col + 1)));
        }
        row = block.to;
    }
    Ok(None)
}
