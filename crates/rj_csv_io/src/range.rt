//! The text of a header, and of the rows of a source from one to another.

ghost use Rattle.std.specs.Prelude.{◌≡◌, ◌<◌, ◌≤◌, ◌++◌, ◌-◌, List, ℕ, [], map, length, slice_index_or, OnOk, IfOk};
ghost use Rattle.std.specs.List.{concat};
ghost use Rattle.csv.specs.Writing.{row_text};
ghost use Rattle.rj_csv_io.specs.Internal.Blocks.{Holds};
ghost use Rattle.rj_csv_io.specs.Shown.{range_text, shown, writer_of};
ghost use Rattle.rj_csv_io.specs.Written.{HasWritten};

use crate::block::{BLOCK_ROWS, RowBlock, next_block, no_rows};
use crate::format::OutputFormat;
use crate::strict::Delimiter;
use crate::text::{close_text, end_record, open_text, write_cell, write_field};
use csv::Writer;
use rj_columns::RowSource;
use rj_columns::decimal::DecimalBuffer;
use std::alloc::{AllocError, Global};

/// The most bytes of room that a text reserves before it has grown to them.
const MOST_ROOM: u64 = 1 << 30;

/// The most rows whose records are in one text of several, so that such a text fits where the
/// join's own lists were before.
pub(crate) const TEXT_ROWS: u64 = 4096;

// The fewest rows whose room is reserved at once. For fewer, writing sample records to estimate it
// takes longer than the growth that it saves.
const LEAST_SAMPLED: u64 = 64 * BLOCK_ROWS;

// Writes the record of the names.
fn write_header(writer: &mut Writer<Vec<u8>>, header: &[&str]) -> Result<(), AllocError>
    ensures { (d : ℕ) (text : List ℕ) → HasWritten d writer.old text []
        → OnOk result (HasWritten d writer.new (text ++ row_text (writer_of d) (map (λ n. n.now) header.now)) []) }
{
    for i in 0..header.len() {
        write_field(writer, header[i].as_bytes())?;
    }
    end_record(writer)?;
    Ok(())
}

/// The text of a header, with this delimiter.
pub(crate) fn text_of_header(
    alloc: Global,
    header: &[&str],
    delimiter: Delimiter,
) -> Result<Vec<u8>, AllocError>
    ensures { IfOk result (λ v. v.items ≡ row_text (writer_of delimiter) (map (λ n. n.now) header.now)) }
{
    let mut writer = open_text(Vec::new(alloc), delimiter);
    write_header(&mut writer, header)?;
    close_text(writer)
}

/// Writes the record of a row whose cells are in a block.
pub(crate) fn write_row<S: RowSource>(
    writer: &mut Writer<Vec<u8>>,
    block: &RowBlock<'_>,
    source: &S,
    row: u64,
    null: &str,
    decimal: &mut DecimalBuffer,
) -> Result<(), AllocError>
    requires holds { Holds (S.contents source.now) (S.width source.now) block.now }
    requires from { block.now.from ≤ row }
    requires to { row < block.now.to }
    ensures { (d : ℕ) (text : List ℕ) → HasWritten d writer.old text []
        → OnOk result (HasWritten d writer.new (text ++ row_text (writer_of d) (map (shown null.now) (slice_index_or (S.contents source.now) row []))) []) }
{
    let step = (block.to - block.from) as usize;
    let at = (row - block.from) as usize;
    let mut base = 0usize;
    for _col in 0..source.columns() {
        write_cell(writer, block.cells[base + at], null, decimal)?;
        base += step;
    }
    end_record(writer)?;
    Ok(())
}

// Writes the records of a block's rows.
fn write_block<S: RowSource>(
    writer: &mut Writer<Vec<u8>>,
    block: &RowBlock<'_>,
    source: &S,
    null: &str,
    decimal: &mut DecimalBuffer,
) -> Result<(), AllocError>
    requires { Holds (S.contents source.now) (S.width source.now) block.now }
    ensures { (d : ℕ) (text : List ℕ) → HasWritten d writer.old text []
        → OnOk result (HasWritten d writer.new (text ++ range_text d null.now (S.contents source.now) block.now.from block.now.to) []) }
{
    for row in block.from..block.to {
        write_row(writer, block, source, row, null, decimal)?;
    }
    Ok(())
}

// A text with the records of rows added, block by block.
fn add_blocks<S: RowSource>(
    alloc: Global,
    text: Vec<u8>,
    source: &S,
    from: u64,
    to: u64,
    format: &OutputFormat<'_>,
) -> Result<Vec<u8>, AllocError>
    requires order { from ≤ to }
    requires within { to ≤ length (S.contents source.now) }
    ensures { IfOk result (λ v. v.items ≡ text.items ++ range_text format.now.delimiter format.now.null.now (S.contents source.now) from to) }
{
    let mut writer = open_text(text, format.delimiter);
    let mut block = no_rows(alloc);
    let mut decimal = DecimalBuffer::new();
    let mut row = from;
    while row < to {
        next_block(&mut block, source, row, to)?;
        write_block(&mut writer, &block, source, format.null, &mut decimal)?;
        row = block.to;
    }
    close_text(writer)
}

// About how many bytes the records of rows take, estimated from a block amid them. The answer is 0
// for few rows, and when memory runs out for the block.
fn likely_room<S: RowSource>(
    alloc: Global,
    source: &S,
    from: u64,
    to: u64,
    format: &OutputFormat<'_>,
) -> usize
    requires order { from ≤ to }
    requires within { to ≤ length (S.contents source.now) }
{
    let rows = to - from;
    if rows < LEAST_SAMPLED {
        return 0;
    }
    let middle = from + rows / 2;
    let end = middle + BLOCK_ROWS;
    match add_blocks(alloc, Vec::new(alloc), source, middle, end, format) {
        Ok(sample) => {
            let likely = (sample.len() as u64 / BLOCK_ROWS + 1).saturating_mul(rows);
            likely.min(MOST_ROOM) as usize
        }
        Err(_) => 0,
    }
}

/// A text with the records of a source's rows added, from one row to another.
pub(crate) fn add_range<S: RowSource>(
    alloc: Global,
    mut text: Vec<u8>,
    source: &S,
    from: u64,
    to: u64,
    format: &OutputFormat<'_>,
) -> Result<Vec<u8>, AllocError>
    requires order { from ≤ to }
    requires within { to ≤ length (S.contents source.now) }
    ensures { IfOk result (λ v. v.items ≡ text.items ++ range_text format.now.delimiter format.now.null.now (S.contents source.now) from to) }
{
    let room = likely_room(alloc, source, from, to, format);
    // If this room can't be had, the text still grows as it has to.
    let _ = text.reserve(room);
    add_blocks(alloc, text, source, from, to, format)
}

/// The records of a source's rows from one to another, in consecutive texts of at most this many
/// rows. There is at least one text, which is empty if there are no rows.
pub(crate) fn texts_of_range<S: RowSource>(
    alloc: Global,
    source: &S,
    from: u64,
    to: u64,
    format: &OutputFormat<'_>,
) -> Result<Vec<Vec<u8>>, AllocError>
    requires order { from ≤ to }
    requires within { to ≤ length (S.contents source.now) }
    ensures { IfOk result (λ v. concat (map (λ t. t.items) v.items) ≡ range_text format.now.delimiter format.now.null.now (S.contents source.now) from to) }
{
    let mut texts = Vec::new(alloc);
    let mut row = from;
    for _text in 0..(to - from).saturating_sub(1) / TEXT_ROWS + 1 {
        let end = row + (to - row).min(TEXT_ROWS);
        let text = add_range(alloc, Vec::new(alloc), source, row, end, format)?;
        texts.push(text)?;
        row = end;
    }
    Ok(texts)
}
