//! The texts of rows whose ends' texts are made before.

ghost use Rattle.std.specs.Prelude.{◌≡◌, ◌<◌, ◌≤◌, ◌+◌, ◌++◌, ℕ, List, [], All, drop, length, map, slice_index_or, IfOk, OnOk};
ghost use Rattle.std.specs.List.{concat};
ghost use Rattle.rj_columns.specs.Contents.{Content};
ghost use Rattle.rj_csv_io.specs.Ends.{AreEnded, but_last, end_at, end_text, nulls};
ghost use Rattle.rj_csv_io.specs.Shown.{range_text, rows_text, shown};

use crate::format::OutputFormat;
use crate::range::{TEXT_ROWS, text_of_header};
use crate::records::{RowTexts, add_texts};
use rj_columns::RowSource;
use std::alloc::{AllocError, Global};

/// The text of each row's end: which one of these texts it is, by its number.
#[derive(Drop)]
pub struct RowEnds<'a> {
    pub texts: &'a RowTexts,
    pub numbers: &'a [u32],
}

impl<'a> RowEnds<'a> {
    // The text of a row's end.
    fn get(&self, row: usize) -> &[u8]
        requires within { row < length self.now.numbers.now }
        requires there { All (λ n. n < length self.now.texts.now) self.now.numbers.now }
        ensures { result.now ≡ end_at self.now row }
    {
        self.texts.get(self.numbers[row] as usize)
    }
}

// How many bytes the records of rows have.
fn room_of(fronts: &RowTexts, from: usize, ends: &RowEnds<'_>) -> usize
    requires within { from + length fronts.now ≤ length ends.now.numbers.now }
    requires there { All (λ n. n < length ends.now.texts.now) ends.now.numbers.now }
{
    let mut room = 0usize;
    for k in 0..fronts.len() {
        let end = ends.get(from + k);
        room = room
            .saturating_add(fronts.get(k).len())
            .saturating_add(end.len());
    }
    room
}

// Adds the record of a row, by its front's record and the text of its end.
fn add_record(text: &mut Vec<u8>, front: &[u8], end: &[u8]) -> Result<(), AllocError>
    ensures { OnOk result (text.new.items ≡ text.old.items ++ (but_last front.now ++ end.now)) }
{
    text.extend_from_slice(&front[..front.len().saturating_sub(1)])?;
    text.extend_from_slice(end)
}

// The records of rows, of which the first has this number, by their fronts' records.
fn text_of_fronts(
    alloc: Global,
    fronts: &RowTexts,
    from: usize,
    ends: &RowEnds<'_>,
) -> Result<Vec<u8>, AllocError>
    requires within { from + length fronts.now ≤ length ends.now.numbers.now }
    requires there { All (λ n. n < length ends.now.texts.now) ends.now.numbers.now }
    ensures { (records : List (List ℕ)) → length records ≡ length fronts.now
        → ((k : ℕ) → k < length fronts.now → slice_index_or records k [] ≡ but_last (slice_index_or fronts.now k []) ++ end_at ends.now (from + k))
        → IfOk result (λ v. v.items ≡ concat records) }
{
    let mut text = Vec::with_capacity(alloc, room_of(fronts, from, ends))?;
    for k in 0..fronts.len() {
        let end = ends.get(from + k);
        add_record(&mut text, fronts.get(k), end)?;
    }
    Ok(text)
}

// The records of the rows from one to another.
fn text_with_ends<S: RowSource>(
    alloc: Global,
    fronts: &S,
    from: u64,
    to: u64,
    ends: &RowEnds<'_>,
    format: &OutputFormat<'_>,
) -> Result<Vec<u8>, AllocError>
    requires order { from ≤ to }
    requires within { to ≤ length (S.contents fronts.now) }
    requires numbers { length ends.now.numbers.now ≡ length (S.contents fronts.now) }
    requires there { All (λ n. n < length ends.now.texts.now) ends.now.numbers.now }
    ensures { (rows : List (List Content)) → AreEnded format.now.delimiter format.now.null.now (S.contents fronts.now) rows ends.now
        → IfOk result (λ v. v.items ≡ range_text format.now.delimiter format.now.null.now rows from to) }
{
    let mut texts = RowTexts::new(alloc);
    add_texts(alloc, &mut texts, fronts, from, to, format)?;
    text_of_fronts(alloc, &texts, from as usize, ends)
}

/// The records of rows, without a header, as [`write_rows`] writes them, in consecutive texts of up
/// to 4,096 rows. The source has each row's first cells, two at least, and its other cells are in
/// the text of its end: that of a record of an empty field and of them.
///
/// # Errors
///
/// It fails only when memory runs out.
///
/// [`write_rows`]: crate::write_rows
pub fn texts_with_ends<S: RowSource>(
    alloc: Global,
    fronts: &S,
    ends: &RowEnds<'_>,
    format: &OutputFormat<'_>,
) -> Result<Vec<Vec<u8>>, AllocError>
    requires numbers { length ends.now.numbers.now ≡ length (S.contents fronts.now) }
    requires there { All (λ n. n < length ends.now.texts.now) ends.now.numbers.now }
    ensures { (rows : List (List Content)) → AreEnded format.now.delimiter format.now.null.now (S.contents fronts.now) rows ends.now
        → IfOk result (λ v. concat (map (λ t. t.items) v.items) ≡ rows_text format.now.delimiter (map (map (shown format.now.null.now)) rows)) }
{
    let to = fronts.rows();
    let mut texts = Vec::new(alloc);
    let mut row = 0;
    while row < to {
        let end = row + (to - row).min(TEXT_ROWS);
        texts.push(text_with_ends(alloc, fronts, row, end, ends, format)?)?;
        row = end;
    }
    Ok(texts)
}

/// The text of an end of this many NULLs.
///
/// # Errors
///
/// It fails only when memory runs out.
pub fn null_end(
    alloc: Global,
    columns: usize,
    format: &OutputFormat<'_>,
) -> Result<Vec<u8>, AllocError>
    ensures { IfOk result (λ v. v.items ≡ end_text format.now.delimiter format.now.null.now (nulls columns)) }
{
    let mut fields = Vec::new(alloc);
    fields.push("")?;
    for _column in 0..columns {
        fields.push(format.null)?;
    }
    text_of_header(alloc, fields.as_slice(), format.delimiter)
}
