//! How the reading of a table begins: its reader, its header, and the room for its rows.

ghost use Rattle.std.specs.Prelude.{◌≡◌, ◌≢◌, ◌≤◌, ◌*◌, [], length, map, IfOk, IfErr, IfSome, Ok, Err};
ghost use Rattle.csv.specs.Records.{fields_of};
ghost use Rattle.rj_csv_io.specs.Cuts.{records_in};
ghost use Rattle.rj_columns.specs.Names.{empty_table};
ghost use Rattle.rj_columns.specs.declared.refused.BuildRefused.{BuildRefused};
ghost use Rattle.rj_csv_io.specs.Remaining.{records_remaining, IsBetween};
ghost use Rattle.rj_csv_io.specs.Tables.{of_begun};

use crate::refused::ReadRefused;
use crate::strict::Delimiter;
use csv::{ByteRecord, Reader, ReaderBuilder};
use rj_columns::{BuildRefused, ColumnType, TableBuilder};
use std::alloc::{AllocError, Global};
use std::io::Read;

// How many of the first bytes are used to estimate the length of a line.
const SAMPLE: usize = 65536;

/// A reader of all records of a text, its header among them. A byte order mark at the start of the
/// text is left out.
pub fn open_reader<R: Read>(alloc: Global, text: R, delimiter: Delimiter) -> Reader<R>
    ensures between { IfSome (R.remaining text) (λ _. IsBetween R.remaining result) }
    ensures records { IfSome (R.remaining text) (λ bytes. records_remaining R.remaining result ≡ records_in delimiter bytes) }
{
    ReaderBuilder::new()
        .delimiter(delimiter.byte())
        .has_headers(false)
        .flexible(true)
        .from_reader(alloc, text)
}

/// The fields of a record, in order.
pub(crate) fn fields_of_record<'r>(
    alloc: Global,
    fields: &'r ByteRecord,
) -> Result<Vec<&'r [u8]>, AllocError>
    ensures { IfOk result (λ v. map (λ f. f.now) v.items ≡ fields_of fields.now) }
{
    let mut all = Vec::new(alloc);
    for i in 0..fields.len() {
        let Some(field) = fields.get(i) else {
            unreachable!()
        };
        all.push(field)?;
    }
    Ok(all)
}

fn refused_of(e: BuildRefused) -> ReadRefused
    ensures { result ≡ of_begun e }
{
    match e {
        BuildRefused::TooManyColumns => ReadRefused::TooManyColumns,
        BuildRefused::BadName(column) => ReadRefused::BadName(column),
        BuildRefused::RepeatedName(column) => ReadRefused::RepeatedName(column),
        BuildRefused::TypeCount => ReadRefused::TypeCount,
        BuildRefused::Memory => ReadRefused::Memory,
    }
}

/// About how many rows the bytes have, estimated from the lines of their first part. No more than
/// fit into the bytes.
pub(crate) fn likely_rows(bytes: &[u8], columns: usize) -> usize
    ensures { result * columns ≤ length bytes.now }
{
    if columns == 0 {
        return 0;
    }
    let head = match bytes.get(..SAMPLE) {
        Some(head) => head,
        None => bytes,
    };
    let lines = head.iter().filter(|b| **b == b'\n').count();
    let rows = lines
        .saturating_add(1)
        .saturating_mul((bytes.len() / SAMPLE).saturating_add(1));
    let most = bytes.len() / columns;
    if rows < most { rows } else { most }
}

/// A table with the header's columns and no rows.
pub(crate) fn begin_table(
    alloc: Global,
    header: &ByteRecord,
    types: &[ColumnType],
    rows: usize,
) -> Result<TableBuilder, ReadRefused>
    ensures table { IfOk result (λ b. (empty_table (fields_of header.now) types.now ≡ Ok b.table) × (b.row ≡ [])) }
    ensures fault { IfErr result (λ e. e ≢ ReadRefused.Memory
        → (f : BuildRefused) × (empty_table (fields_of header.now) types.now ≡ Err f) × (e ≡ of_begun f)) }
{
    let Ok(names) = fields_of_record(alloc, header) else {
        return Err(ReadRefused::Memory);
    };
    match TableBuilder::new(alloc, names.as_slice(), types) {
        Ok(mut builder) => {
            builder.reserve(rows);
            Ok(builder)
        }
        Err(e) => Err(refused_of(e)),
    }
}
