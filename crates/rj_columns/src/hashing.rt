//! Hashes that take up the cells of a column at some rows.

ghost use Rattle.std.specs.Prelude.{◌≡◌, ◌<◌, ◌≤◌, ◌-◌, ℕ, All, Option, Some, length, map, slice_index_or};
ghost use Rattle.rj_columns.specs.Contents.{Content, IsInLimits, content_of, nothing};
ghost use Rattle.rj_columns.specs.Hashed.{AreRowsOf, HaveTaken};
ghost use Rattle.rj_columns.specs.Internal.Stores.{decimal_content, number_content, text_content};
ghost use Rattle.rj_columns.specs.Tables.{cell_of};
ghost use Rattle.rj_columns.specs.Internal.Widths.{numbers_lent};

use crate::cell::Cell;
use crate::column::{decimal_cell, int_cell, text_cell};
use crate::ints::Ints;
use crate::numbers::NumberSlice;
use crate::table::Table;
use crate::texts::Texts;

/// A hash that takes up cells one by one. `None` is the hash of what has none, for example after a
/// NULL.
pub trait CellHash {
    ghost added: { Self → Option ℕ → Content → Option ℕ };

    /// The hash after one more cell.
    fn add(&self, hash: Option<u64>, cell: Cell<'_>) -> Option<u64>
        requires { IsInLimits (content_of cell) }
        ensures { result ≡ added self.now hash (content_of cell.entry) };
}

// Adds the numbers of 4 bytes at these rows, where none is NULL.
fn hash_narrow<H: CellHash>(
    values: &[i32],
    from: usize,
    rows: &[u32],
    by: &H,
    hashes: &mut [Option<u64>],
)
    requires rows { AreRowsOf values.now from rows.now }
    requires len { length hashes.old ≡ length rows.now }
    ensures { HaveTaken (H.added by.now) (λ r. slice_index_or (map number_content (map Some values.now)) (r - from) nothing) rows.now hashes.old hashes.new }
{
    for i in 0..rows.len() {
        let cell = int_cell(Some(i64::from(values[rows[i] as usize - from])));
        hashes[i] = by.add(hashes[i], cell);
    }
}

// The same of numbers of 8 bytes.
fn hash_wide<H: CellHash>(
    values: &[i64],
    from: usize,
    rows: &[u32],
    by: &H,
    hashes: &mut [Option<u64>],
)
    requires rows { AreRowsOf values.now from rows.now }
    requires len { length hashes.old ≡ length rows.now }
    ensures { HaveTaken (H.added by.now) (λ r. slice_index_or (map number_content (map Some values.now)) (r - from) nothing) rows.now hashes.old hashes.new }
{
    for i in 0..rows.len() {
        let cell = int_cell(Some(values[rows[i] as usize - from]));
        hashes[i] = by.add(hashes[i], cell);
    }
}

// Adds the numbers at these rows, where none is NULL. Their width is asked once for all.
fn hash_present<H: CellHash>(
    numbers: NumberSlice<'_>,
    from: usize,
    rows: &[u32],
    by: &H,
    hashes: &mut [Option<u64>],
)
    requires rows { AreRowsOf (numbers_lent numbers) from rows.now }
    requires len { length hashes.old ≡ length rows.now }
    ensures { HaveTaken (H.added by.now) (λ r. slice_index_or (map number_content (map Some (numbers_lent numbers.entry))) (r - from) nothing) rows.now hashes.old hashes.new }
{
    match numbers {
        NumberSlice::Narrow(values) => hash_narrow(values, from, rows, by, hashes),
        NumberSlice::Wide(values) => hash_wide(values, from, rows, by, hashes),
    }
}

// Adds the whole numbers at these rows to the hashes at their places. Whether any is NULL is asked once for all.
pub(crate) fn hash_ints<H: CellHash>(
    numbers: &Ints,
    from: usize,
    rows: &[u32],
    by: &H,
    hashes: &mut [Option<u64>],
)
    requires rows { AreRowsOf numbers.now from rows.now }
    requires len { length hashes.old ≡ length rows.now }
    ensures { HaveTaken (H.added by.now) (λ r. slice_index_or (map number_content numbers.now) (r - from) nothing) rows.now hashes.old hashes.new }
{
    if let Some(present) = numbers.present() {
        hash_present(present, from, rows, by, hashes);
        return;
    }
    for i in 0..rows.len() {
        let cell = int_cell(numbers.get(rows[i] as usize - from));
        hashes[i] = by.add(hashes[i], cell);
    }
}

// Adds the units in a scale at these rows to the hashes at their places.
pub(crate) fn hash_decimals<H: CellHash>(
    numbers: &Ints,
    scale: u8,
    from: usize,
    rows: &[u32],
    by: &H,
    hashes: &mut [Option<u64>],
)
    requires rows { AreRowsOf numbers.now from rows.now }
    requires limits { All IsInLimits (map (decimal_content scale) numbers.now) }
    requires len { length hashes.old ≡ length rows.now }
    ensures { HaveTaken (H.added by.now) (λ r. slice_index_or (map (decimal_content scale) numbers.now) (r - from) nothing) rows.now hashes.old hashes.new }
{
    for i in 0..rows.len() {
        let cell = decimal_cell(numbers.get(rows[i] as usize - from), scale);
        hashes[i] = by.add(hashes[i], cell);
    }
}

// Adds the texts at these rows to the hashes at their places.
pub(crate) fn hash_texts<H: CellHash>(
    texts: &Texts,
    from: usize,
    rows: &[u32],
    by: &H,
    hashes: &mut [Option<u64>],
)
    requires rows { AreRowsOf texts.now from rows.now }
    requires len { length hashes.old ≡ length rows.now }
    ensures { HaveTaken (H.added by.now) (λ r. slice_index_or (map text_content texts.now) (r - from) nothing) rows.now hashes.old hashes.new }
{
    for i in 0..rows.len() {
        let cell = text_cell(texts.get(rows[i] as usize - from));
        hashes[i] = by.add(hashes[i], cell);
    }
}

// The place after the rows, from a place on, that are all in the segment of the rows from `start`
// up to `end`. The row at the place is in it.
fn run_end(rows: &[u32], place: usize, start: u64, end: u64) -> usize
    requires place { place < length rows.now }
    requires from { start ≤ slice_index_or rows.now place 0 }
    requires to { slice_index_or rows.now place 0 < end }
    ensures more { place < result }
    ensures inside { result ≤ length rows.now }
    ensures each { (k : ℕ) → place ≤ k → k < result → (start ≤ slice_index_or rows.now k 0) × (slice_index_or rows.now k 0 < end) }
{
    let mut next = place + 1;
    while next < rows.len() && u64::from(rows[next]) >= start && u64::from(rows[next]) < end {
        next += 1;
    }
    next
}

impl Table {
    /// Adds the cells of a column at these rows to the hashes at the rows' places. It allocates no
    /// memory. The type of the cells is looked at once for all rows in one segment, so that reads
    /// from memory overlap.
    pub fn hash_cells<H: CellHash>(
        &self,
        col: usize,
        rows: &[u32],
        by: &H,
        hashes: &mut [Option<u64>],
    )
        requires col { col < length self.now.types }
        requires rows { All (λ r. r < length self.now.rows) rows.now }
        requires len { length hashes.old ≡ length rows.now }
        ensures { HaveTaken (H.added by.now) (λ r. cell_of self.now r col) rows.now hashes.old hashes.new }
    {
        let mut done = 0;
        while done < rows.len() {
            let (start, segment) = self.find(u64::from(rows[done]));
            let end = run_end(rows, done, start, start + segment.rows());
            segment.column(col).hash_cells(
                start as usize,
                &rows[done..end],
                by,
                &mut hashes[done..end],
            );
            done = end;
        }
    }
}
