//! Texts of rows that are made first, and written under a header later.

ghost use Rattle.std.specs.Prelude.{◌≡◌, ◌++◌, Err, map, IfOk, OnOk, OnErr};
ghost use Rattle.std.specs.Io.KnownBytes.{Appends};
ghost use Rattle.std.specs.List.{concat};
ghost use Rattle.csv.specs.Writing.{row_text};
ghost use Rattle.rj_csv_io.specs.Devices.{CountsFailure, after_failure};
ghost use Rattle.rj_csv_io.specs.Shown.{rows_text, shown, writer_of};

use crate::format::OutputFormat;
use crate::output::{Failed, Output};
use crate::range::{text_of_header, texts_of_range};
use crate::strict::Delimiter;
use crate::write::WriteRefused;
use rj_columns::RowSource;
use std::alloc::{AllocError, Global};

/// The records of a source's rows, without a header, as [`write_rows`] writes them, in consecutive
/// texts of up to 4,096 rows. No row makes one text, which is empty.
///
/// # Errors
///
/// It fails only when memory runs out.
///
/// [`write_rows`]: crate::write_rows
pub fn texts_of_rows<S: RowSource>(
    alloc: Global,
    source: &S,
    format: &OutputFormat<'_>,
) -> Result<Vec<Vec<u8>>, AllocError>
    ensures { IfOk result (λ v. concat (map (λ t. t.items) v.items)
        ≡ rows_text format.now.delimiter (map (map (shown format.now.null.now)) (S.contents source.now))) }
{
    texts_of_range(alloc, source, 0, source.rows(), format)
}

// Puts texts one after the other, up to the first that fails.
fn put_all<O: Output>(output: &mut O, texts: &[Vec<u8>]) -> Result<(), Failed>
    ensures ok { OnOk result (Appends (O.told output.old) (O.told output.new) (concat (map (λ t. t.items) texts.now))) }
    ensures kept { OnOk result (O.count output.new ≡ O.count output.old) }
    ensures failed { OnErr result (O.count output.new ≡ after_failure (O.count output.old)) }
{
    for i in 0..texts.len() {
        output.put(texts[i].as_slice())?;
    }
    Ok(())
}

// Puts a text and then others, up to the first that fails.
fn put_under<O: Output>(output: &mut O, header: &[u8], texts: &[Vec<u8>]) -> Result<(), Failed>
    ensures ok { OnOk result (Appends (O.told output.old) (O.told output.new) (header.now ++ concat (map (λ t. t.items) texts.now))) }
    ensures kept { OnOk result (O.count output.new ≡ O.count output.old) }
    ensures failed { OnErr result (O.count output.new ≡ after_failure (O.count output.old)) }
{
    output.put(header)?;
    put_all(output, texts)
}

/// Writes a header with this delimiter and then texts of rows as [`texts_of_rows`] makes them, one
/// after the other.
///
/// The header's text is made first. Then it and each of the texts are put in order, each by a call
/// of the device, up to the first call that fails.
///
/// # Errors
///
/// `Memory` if memory ran out for the header's text: the device stays as it was. `WriteDevice` if
/// the device failed: how much it took is unknown.
pub fn write_texts<O: Output>(
    alloc: Global,
    output: &mut O,
    header: &[&str],
    texts: &[Vec<u8>],
    delimiter: Delimiter,
) -> Result<(), WriteRefused>
    ensures ok { OnOk result (Appends (O.told output.old) (O.told output.new)
        (row_text (writer_of delimiter) (map (λ n. n.now) header.now) ++ concat (map (λ t. t.items) texts.now))) }
    ensures memory { result ≡ Err WriteRefused.Memory → output.new ≡ output.old }
    ensures count { CountsFailure result WriteRefused.WriteDevice (O.count output.new) (O.count output.old) }
{
    let Ok(text) = text_of_header(alloc, header, delimiter) else {
        return Err(WriteRefused::Memory);
    };
    match put_under(output, text.as_slice(), texts) {
        Ok(()) => Ok(()),
        Err(Failed) => Err(WriteRefused::WriteDevice),
    }
}
