//! Writing a header and the rows of a source.

ghost use Rattle.std.specs.Prelude.{◌≡◌, map, length, IsTrue, OnOk, IfOk};
ghost use Rattle.std.specs.Io.KnownBytes.{Appends};
ghost use Rattle.rj_csv_io.specs.Devices.{CountsFailure};
ghost use Rattle.rj_csv_io.specs.Shown.{table_text};
ghost use Rattle.rj_csv_io.specs.Tables.{is_null_text};

use crate::format::OutputFormat;
use crate::output::{Failed, Output};
use crate::range::{add_range, text_of_header};
use rj_columns::RowSource;
use std::alloc::{AllocError, Global};

/// Why rows were not written.
#[derive(Clone, Copy, Debug, PartialEq, Eq)]
pub enum WriteRefused {
    /// Memory ran out for the text. Nothing was put.
    Memory,
    /// The device failed. How much of the text it took is unknown.
    WriteDevice,
}

// The text of a header and of a source's rows.
fn text_of_rows<S: RowSource>(
    alloc: Global,
    header: &[&str],
    source: &S,
    format: &OutputFormat<'_>,
) -> Result<Vec<u8>, AllocError>
    ensures { IfOk result (λ v. v.items ≡ table_text format.now.delimiter format.now.null.now (map (λ n. n.now) header.now) (S.contents source.now)) }
{
    let text = text_of_header(alloc, header, format.delimiter)?;
    add_range(alloc, text, source, 0, source.rows(), format)
}

/// Writes a header and the rows of a source as CSV (RFC 4180, with the format's delimiter). A field
/// with the delimiter, a double quote, CR or LF is in double quotes. NULL is the NULL text. A
/// decimal has exactly its scale's digits after the point. Each record ends with LF.
///
/// The whole text is made before it is put, by one call of the device.
///
/// # Errors
///
/// `Memory` if memory ran out for the text: the device stays as it was. `WriteDevice` if the device
/// failed: how much it took is unknown.
pub fn write_rows<O: Output, S: RowSource>(
    alloc: Global,
    output: &mut O,
    header: &[&str],
    source: &S,
    format: &OutputFormat<'_>,
) -> Result<(), WriteRefused>
    requires header { length header.now ≡ S.width source.now }
    requires null { IsTrue (is_null_text format.now.null.now) }
    ensures ok { OnOk result (Appends (O.told output.old) (O.told output.new)
        (table_text format.now.delimiter format.now.null.now (map (λ n. n.now) header.now) (S.contents source.now))) }
    ensures memory { result ≡ Err WriteRefused.Memory → output.new ≡ output.old }
    ensures count { CountsFailure result WriteRefused.WriteDevice (O.count output.new) (O.count output.old) }
{
    let Ok(text) = text_of_rows(alloc, header, source, format) else {
        return Err(WriteRefused::Memory);
    };
    match output.put(text.as_slice()) {
        Ok(()) => Ok(()),
        Err(Failed) => Err(WriteRefused::WriteDevice),
    }
}
