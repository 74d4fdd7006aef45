//! Writing the rows of a source after others.

ghost use Rattle.std.specs.Prelude.{◌≡◌, map, IsTrue, OnOk, IfOk};
ghost use Rattle.std.specs.Io.KnownBytes.{Appends};
ghost use Rattle.rj_csv_io.specs.Devices.{CountsFailure};
ghost use Rattle.rj_csv_io.specs.Shown.{rows_text, shown};
ghost use Rattle.rj_csv_io.specs.Tables.{is_null_text};

use crate::format::OutputFormat;
use crate::output::{Failed, Output};
use crate::range::add_range;
use crate::write::WriteRefused;
use rj_columns::RowSource;
use std::alloc::{AllocError, Global};

// The text of a source's rows, without a header.
fn text_of_more<S: RowSource>(
    alloc: Global,
    source: &S,
    format: &OutputFormat<'_>,
) -> Result<Vec<u8>, AllocError>
    ensures { IfOk result (λ v. v.items ≡ rows_text format.now.delimiter (map (map (shown format.now.null.now)) (S.contents source.now))) }
{
    add_range(alloc, Vec::new(alloc), source, 0, source.rows(), format)
}

/// Writes the rows of a source as [`write_rows`] does, without a header: after others of the same
/// columns. No row puts nothing.
///
/// # Errors
///
/// Those of [`write_rows`].
///
/// [`write_rows`]: crate::write_rows
pub fn write_more_rows<O: Output, S: RowSource>(
    alloc: Global,
    output: &mut O,
    source: &S,
    format: &OutputFormat<'_>,
) -> Result<(), WriteRefused>
    requires null { IsTrue (is_null_text format.now.null.now) }
    ensures ok { OnOk result (Appends (O.told output.old) (O.told output.new)
        (rows_text format.now.delimiter (map (map (shown format.now.null.now)) (S.contents source.now)))) }
    ensures memory { result ≡ Err WriteRefused.Memory → output.new ≡ output.old }
    ensures count { CountsFailure result WriteRefused.WriteDevice (O.count output.new) (O.count output.old) }
{
    let Ok(text) = text_of_more(alloc, source, format) else {
        return Err(WriteRefused::Memory);
    };
    if text.is_empty() {
        return Ok(());
    }
    match output.put(text.as_slice()) {
        Ok(()) => Ok(()),
        Err(Failed) => Err(WriteRefused::WriteDevice),
    }
}
