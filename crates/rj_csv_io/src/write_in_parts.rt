//! Writing a header and the rows of a source, with texts made by several threads.

ghost use Rattle.std.specs.Prelude.{◌≡◌, ◌<◌, ◌≤◌, ◌+◌, length, max, map, IfOk, OnOk, Err, IsTrue};
ghost use Rattle.std.specs.Io.KnownBytes.{Appends};
ghost use Rattle.std.specs.List.{concat};
ghost use Rattle.rj_csv_io.specs.Devices.{CountsFailure};
ghost use Rattle.rj_csv_io.specs.Internal.RowParts.{part_start, IsPartText, ArePartTexts};
ghost use Rattle.rj_csv_io.specs.Shown.{range_text, rows_text, shown, table_text};
ghost use Rattle.rj_csv_io.specs.Tables.{is_null_text};

use crate::format::OutputFormat;
use crate::output::Output;
use crate::range::texts_of_range;
use crate::texts::write_texts;
use crate::write::WriteRefused;
use rj_columns::RowSource;
use std::alloc::{AllocError, Global};
use std::thread::{self, Threads};

// Fewer rows than these aren't worth a thread of their own.
const LEAST_ROWS: u64 = 4096;

// How many parts the rows are divided into: no more than asked for, no more than can have
// `LEAST_ROWS` each, and at least one.
fn part_count(rows: u64, parts: usize) -> usize
    ensures some { 0 < result }
    ensures few { result ≤ max 1 parts }
{
    (rows / LEAST_ROWS).min(parts as u64).max(1) as usize
}

// The first row of a part, or the number of rows after the last part. The parts differ by one row
// at most.
fn first_row(rows: u64, parts: u64, part: u64) -> u64
    requires parts { 0 < parts }
    requires part { part ≤ parts }
    ensures { result ≡ part_start rows parts part }
{
    rows / parts * part + part.min(rows % parts)
}

// The texts of a part of the rows; none after the last part.
fn part_texts<S: RowSource>(
    alloc: Global,
    source: &S,
    format: &OutputFormat<'_>,
    parts: usize,
    part: usize,
) -> Result<Vec<Vec<u8>>, AllocError>
    requires { 0 < parts }
    ensures { IsPartText format.now.delimiter format.now.null.now (S.contents source.now) parts part result }
{
    if part >= parts {
        return Ok(Vec::new(alloc));
    }
    let rows = source.rows();
    let from = first_row(rows, parts as u64, part as u64);
    let to = first_row(rows, parts as u64, part as u64 + 1);
    texts_of_range(alloc, source, from, to, format)
}

// The texts of all parts, if each was made.
fn all_made<S: RowSource>(
    alloc: Global,
    mut made: Vec<Result<Vec<Vec<u8>>, AllocError>>,
    source: &S,
    format: &OutputFormat<'_>,
    parts: usize,
) -> Result<Vec<Vec<u8>>, AllocError>
    requires some { 0 < parts }
    requires enough { parts ≤ length made.items }
    requires parts { ArePartTexts format.now.delimiter format.now.null.now (S.contents source.now) parts made.items }
    ensures { IfOk result (λ v. concat (map (λ t. t.items) v.items)
        ≡ range_text format.now.delimiter format.now.null.now (S.contents source.now) 0 (length (S.contents source.now))) }
{
    let mut texts = Vec::new(alloc);
    for _part in 0..made.len() {
        let mut more = made.remove(0)?;
        texts.append(&mut more)?;
    }
    Ok(texts)
}

// How many jobs make this many parts of rows. The last job is the starting thread's own. If there
// are many rows, it has no part: later threads reuse the memory that ended ones gave back, and the
// starting thread has none of it.
fn job_count(rows: u64, parts: usize) -> usize
    ensures enough { parts ≤ result }
    ensures few { result ≤ parts + 1 }
{
    if rows < LEAST_ROWS {
        return parts;
    }
    parts.saturating_add(1)
}

// The texts of a source's rows in this many parts, each by its own thread.
fn texts_of_parts<R: Threads + Sync, S: RowSource + Sync>(
    rt: &R,
    alloc: Global,
    source: &S,
    format: &OutputFormat<'_>,
    parts: usize,
) -> Result<Vec<Vec<u8>>, AllocError>
    requires { 0 < parts }
    ensures { IfOk result (λ v. concat (map (λ t. t.items) v.items)
        ≡ rows_text format.now.delimiter (map (map (shown format.now.null.now)) (S.contents source.now))) }
{
    let made = thread::map_indices(
        rt,
        alloc,
        job_count(source.rows(), parts),
        &|part| part_texts(alloc, source, format, parts, part),
    )?;
    all_made(alloc, made, source, format, parts)
}

/// Writes a header and the rows of a source as `write_rows` does. Up to `parts` threads make the
/// texts of shares of the rows. Few rows take fewer threads.
///
/// The text of a share is made in texts of up to 4,096 rows, and all texts are made before the
/// first is put. Then the header's and each share's are put in order, each by a call of the device,
/// up to the first call that fails.
///
/// # Errors
///
/// `Memory` if memory ran out for a text: the device stays as it was. `WriteDevice` if the device
/// failed: how much it took is unknown.
pub fn write_rows_in_parts<R: Threads + Sync, O: Output, S: RowSource + Sync>(
    rt: &R,
    alloc: Global,
    output: &mut O,
    header: &[&str],
    source: &S,
    format: &OutputFormat<'_>,
    parts: usize,
) -> Result<(), WriteRefused>
    requires header { length header.now ≡ S.width source.now }
    requires null { IsTrue (is_null_text format.now.null.now) }
    ensures ok { OnOk result (Appends (O.told output.old) (O.told output.new)
        (table_text format.now.delimiter format.now.null.now (map (λ n. n.now) header.now) (S.contents source.now))) }
    ensures memory { result ≡ Err WriteRefused.Memory → output.new ≡ output.old }
    ensures count { CountsFailure result WriteRefused.WriteDevice (O.count output.new) (O.count output.old) }
{
    let parts = part_count(source.rows(), parts);
    let Ok(texts) = texts_of_parts(rt, alloc, source, format, parts) else {
        return Err(WriteRefused::Memory);
    };
    write_texts(alloc, output, header, texts.as_slice(), format.delimiter)
}
