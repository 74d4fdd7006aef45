//! Rows and cells that can't be read.

ghost use Rattle.std.specs.Prelude.{◌≡◌, ◌-◌, ◌⊎◌, ℕ, IfOk, List, MatchOption, length, slice_get, string_bytes};
ghost use Rattle.rj_csv_io.specs.Pieces.{names_in};
ghost use Rattle.rj_settings.specs.Columns as columns;
ghost use Rattle.rj_explain.specs.Explained.{IsCellTold, IsRaggedTold, IsTextOf, file_read};
ghost use Rattle.rj_explain.specs.Lines as lines;
ghost use Rattle.rj_explain.specs.Lines.{cell_of_row};
ghost use Rattle.rj_explain.specs.Places.{HasNoRow, IsRow};

use crate::inputs::{TableFile, text_of};
use crate::row::{Row, field_at, find_row};
use crate::shown::{Wanted, WantedRule};
use rj_columns::ColumnType;
use rj_csv_io::strict::Delimiter;
use rj_line::shown::Shown;
use std::alloc::{AllocError, Global};

/// The type of a header's column, counted from 1.
///
/// # Errors
///
/// It fails only when memory runs out.
pub(crate) fn kind_at(
    alloc: Global,
    file: &TableFile<'_>,
    header: &Row,
    column: u64,
) -> Result<Option<ColumnType>, AllocError>
    ensures { IfOk result (λ o. o ≡ slice_get (columns.types_under file.now.types.now (names_in header.now.fields)) (column - 1)) }
{
    let kinds = file.kinds(alloc, &header.fields)?;
    match kinds.get((column as usize).saturating_sub(1)) {
        Some(kind) => Ok(Some(*kind)),
        None => Ok(None),
    }
}

// The line that shows a cell, and says that it isn't of its column's type.
fn cell_line(
    alloc: Global,
    line: u64,
    name: &[u8],
    value: &[u8],
    kind: ColumnType,
) -> Result<String, AllocError>
    ensures { IfOk result (λ s. string_bytes s ≡ lines.cell_line line name.now value.now kind) }
{
    let (name, value) = (Shown { bytes: name }, Shown { bytes: value });
    let (wanted, rule) = (Wanted { kind }, WantedRule { kind });
    format!(in alloc; "  line {line} of the file, column {name}: {value} is no {wanted}{rule}\n")
}

// The header of a text, and one of its rows.
pub(crate) struct HeaderAndRow {
    pub(crate) header: Row,
    pub(crate) row: Row,
}

// By hand, so that a drop is one call in the proofs of those who hold both.
impl Drop for HeaderAndRow {
    fn drop(self) {
        let HeaderAndRow {
            header: _header,
            row: _row,
        } = self;
    }
}

// Both, where the text has them.
fn header_and_row(
    alloc: Global,
    text: &[u8],
    delimiter: Delimiter,
    row: u64,
) -> Result<Option<HeaderAndRow>, AllocError>
    ensures { IfOk result (λ o. MatchOption o (HasNoRow delimiter text.now 0 ⊎ HasNoRow delimiter text.now row)
        (λ b. IsRow delimiter text.now 0 b.header.line (names_in b.header.fields) × IsRow delimiter text.now row b.row.line (names_in b.row.fields))) }
{
    let Some(header) = find_row(alloc, text, delimiter, 0)? else {
        return Ok(None);
    };
    match find_row(alloc, text, delimiter, row)? {
        Some(row) => Ok(Some(HeaderAndRow { header, row })),
        None => Ok(None),
    }
}

/// Both of a file, where it has them.
///
/// # Errors
///
/// It fails only where memory is refused.
pub(crate) fn find_both(
    alloc: Global,
    file: &TableFile<'_>,
    row: u64,
) -> Result<Option<HeaderAndRow>, AllocError>
    ensures { IfOk result (λ o. (text : List ℕ) × IsTextOf (file_read file.now) text
        × MatchOption o (HasNoRow file.now.delimiter text 0 ⊎ HasNoRow file.now.delimiter text row)
        (λ b. IsRow file.now.delimiter text 0 b.header.line (names_in b.header.fields)
        × IsRow file.now.delimiter text row b.row.line (names_in b.row.fields))) }
{
    let quoted = file.quoted_text(alloc)?;
    let text = text_of(&quoted, file.bytes);
    header_and_row(alloc, text, file.delimiter, row)
}

// What is told of a cell in a row at hand.
fn lines_of_cell(
    alloc: Global,
    file: &TableFile<'_>,
    found: &HeaderAndRow,
    column: u64,
) -> Result<String, AllocError>
    ensures { IfOk result (λ s. string_bytes s
        ≡ cell_of_row file.now.types.now column found.now.row.line (names_in found.now.header.fields) (names_in found.now.row.fields)) }
{
    let Some(kind) = kind_at(alloc, file, &found.header, column)? else {
        return Ok(String::new(alloc));
    };
    let Some(name) = field_at(alloc, &found.header.fields, column)? else {
        return Ok(String::new(alloc));
    };
    match field_at(alloc, &found.row.fields, column)? {
        Some(value) => cell_line(alloc, found.row.line, name, value, kind),
        None => Ok(String::new(alloc)),
    }
}

/// The lines for a cell that isn't of its column's type: the line of its row, the column's name,
/// the cell and the type.
///
/// # Errors
///
/// It fails only when memory runs out.
pub(crate) fn cell_lines(
    alloc: Global,
    file: &TableFile<'_>,
    row: u64,
    column: u64,
) -> Result<String, AllocError>
    ensures { IfOk result (λ s. IsCellTold (file_read file.now) row column (string_bytes s)) }
{
    match find_both(alloc, file, row)? {
        Some(found) => lines_of_cell(alloc, file, &found, column),
        None => Ok(String::new(alloc)),
    }
}

// The line that gives both lengths.
fn ragged_line(alloc: Global, found: &HeaderAndRow) -> Result<String, AllocError>
    ensures { IfOk result (λ s. string_bytes s
        ≡ lines.ragged_line found.now.row.line (length (names_in found.now.row.fields)) (length (names_in found.now.header.fields))) }
{
    let (line, names) = (found.row.line, found.header.fields.columns());
    let fields = found.row.fields.columns();
    format!(in alloc; "  line {line} of the file: {fields} fields under {names} names\n")
}

/// The lines for a row whose length isn't the header's: its line, and both lengths.
///
/// # Errors
///
/// It fails only when memory runs out.
pub(crate) fn ragged_lines(
    alloc: Global,
    file: &TableFile<'_>,
    row: u64,
) -> Result<String, AllocError>
    ensures { IfOk result (λ s. IsRaggedTold (file_read file.now) row (string_bytes s)) }
{
    match find_both(alloc, file, row)? {
        Some(found) => ragged_line(alloc, &found),
        None => Ok(String::new(alloc)),
    }
}
