//! The text of records, made in memory by the writer of `csv`.

ghost use Rattle.std.specs.Prelude.{◌≡◌, ◌<◌, ◌+◌, ◌++◌, ◌∷◌, ◌^◌, ◌-◌, List, ℕ, [], length, OnOk, IfOk};
ghost use Rattle.csv.specs.Writing.{row_text, writer_under};
ghost use Rattle.rj_columns.specs.Contents.{content_of};
ghost use Rattle.rj_csv_io.specs.Shown.{shown, writer_of};
ghost use Rattle.rj_csv_io.specs.Written.{HasWritten};

use crate::strict::Delimiter;
use csv::{Writer, WriterBuilder};
use itoa::Buffer;
use rj_columns::Cell;
use rj_columns::decimal::DecimalBuffer;
use std::alloc::AllocError;

/// A writer after a text, with this delimiter.
pub(crate) fn open_text(text: Vec<u8>, delimiter: Delimiter) -> Writer<Vec<u8>>
    ensures { HasWritten delimiter result text.items [] }
{
    WriterBuilder::new()
        .delimiter(delimiter.byte())
        .from_writer(text)
}

/// Writes one more field of a record.
pub(crate) fn write_field(writer: &mut Writer<Vec<u8>>, field: &[u8]) -> Result<(), AllocError>
    ensures { (d : ℕ) (text : List ℕ) → (fields : List (List ℕ)) → length fields < 2 ^ 64 - 1 → HasWritten d writer.old text fields
        → OnOk result (HasWritten d writer.new text (fields ++ field.now ∷ [])) }
{
    if writer.write_field(field).is_err() {
        return Err(AllocError);
    }
    Ok(())
}

/// Writes a cell's text as one more field of a record. A decimal's text is made in `decimal`.
pub(crate) fn write_cell(
    writer: &mut Writer<Vec<u8>>,
    cell: Cell<'_>,
    null: &str,
    decimal: &mut DecimalBuffer,
) -> Result<(), AllocError>
    ensures { (d : ℕ) (text : List ℕ) → (fields : List (List ℕ)) → length fields < 2 ^ 64 - 1 → HasWritten d writer.old text fields
        → OnOk result (HasWritten d writer.new text (fields ++ shown null.now (content_of cell.entry) ∷ [])) }
{
    match cell {
        Cell::Null => write_field(writer, null.as_bytes()),
        Cell::Text(text) => write_field(writer, text.as_bytes()),
        Cell::Int(n) => {
            let mut digits = Buffer::new();
            write_field(writer, digits.format(n).as_bytes())
        }
        Cell::Num { units, scale } => write_field(writer, decimal.format(units, scale)),
    }
}

/// Ends a record.
pub(crate) fn end_record(writer: &mut Writer<Vec<u8>>) -> Result<(), AllocError>
    ensures { (d : ℕ) (text : List ℕ) → (fields : List (List ℕ)) → HasWritten d writer.old text fields
        → OnOk result (HasWritten d writer.new (text ++ row_text (writer_of d) fields) []) }
{
    if writer.end_record().is_err() {
        return Err(AllocError);
    }
    Ok(())
}

/// Moves what was written into the text under the writer.
pub(crate) fn settle(writer: &mut Writer<Vec<u8>>) -> Result<(), AllocError>
    ensures written { (d : ℕ) (text : List ℕ) → HasWritten d writer.old text [] → OnOk result (HasWritten d writer.new text []) }
    ensures under { (d : ℕ) (text : List ℕ) → HasWritten d writer.old text [] → OnOk result ((writer_under writer.new).items ≡ text) }
{
    if writer.flush().is_err() {
        return Err(AllocError);
    }
    Ok(())
}

/// The text that was written.
pub(crate) fn close_text(writer: Writer<Vec<u8>>) -> Result<Vec<u8>, AllocError>
    ensures { (d : ℕ) (text : List ℕ) → HasWritten d writer text [] → IfOk result (λ v. v.items ≡ text) }
{
    match writer.into_inner() {
        Ok(text) => Ok(text),
        Err(_) => Err(AllocError),
    }
}
