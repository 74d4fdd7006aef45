//! The record of a row, with the line on which it begins.

ghost use Rattle.std.specs.Prelude.{◌≡◌, IfOk, MatchOption};
ghost use Rattle.std.specs.Option.{option_copied};
ghost use Rattle.rj_csv_io.specs.Pieces.{names_in};
ghost use Rattle.rj_explain.specs.Places.{HasNoRow, IsRow, at_column};

use crate::places::{line_from, place_of_row};
use rj_csv_io::Header;
use rj_csv_io::strict::Delimiter;
use std::alloc::{AllocError, Global};

/// The record of a row.
#[derive(Drop)]
pub struct Row {
    /// The line of the text, counted from 1, on which its first byte is.
    pub line: u64,
    /// Its fields, which are read as the names of a header are.
    pub fields: Header,
}

/// The record of a row in a text of CSV, as the library `csv` reads it by this delimiter. The
/// text's byte order mark was left out already. The header has row 0. `None` if the text has no
/// such record.
///
/// # Errors
///
/// It fails only when memory runs out.
pub fn find_row(
    alloc: Global,
    text: &[u8],
    delimiter: Delimiter,
    row: u64,
) -> Result<Option<Row>, AllocError>
    ensures { IfOk result (λ o. MatchOption o (HasNoRow delimiter text.now row) (λ r. IsRow delimiter text.now row r.line (names_in r.fields))) }
{
    let Some(at) = place_of_row(text, delimiter, row) else {
        return Ok(None);
    };
    match Header::of(alloc, &text[at..], delimiter)? {
        Some(fields) => Ok(Some(Row {
            line: line_from(text, at),
            fields,
        })),
        None => Ok(None),
    }
}

/// The field of a record at a column, counted from 1, if it has that many.
///
/// # Errors
///
/// It fails only when memory runs out.
pub fn field_at<'r>(
    alloc: Global,
    fields: &'r Header,
    column: u64,
) -> Result<Option<&'r [u8]>, AllocError>
    ensures { IfOk result (λ o. option_copied o ≡ at_column column (names_in fields.now)) }
{
    let fields = fields.names(alloc)?;
    if column == 0 || column > fields.len() as u64 {
        return Ok(None);
    }
    Ok(Some(fields[column as usize - 1]))
}
