//! The header of rows with their places.

ghost use Rattle.std.specs.Prelude.{◌≡◌, ◌≢◌, ℕ, [], Ok, Err, map, length, All, IfErr, IfOk, OnOk};
ghost use Rattle.csv.specs.Writing.{row_text};
ghost use Rattle.rj_columns.specs.Names.{empty_table};
ghost use Rattle.rj_columns.specs.Tables.{TableValue};
ghost use Rattle.rj_columns.specs.declared.refused.BuildRefused.{BuildRefused};
ghost use Rattle.rj_csv_io.specs.Shown.{writer_of};
ghost use Rattle.rj_csv_io.specs.Tables.{of_begun};
ghost use Rattle.rj_csv_io.specs.Grammar.{comma};
ghost use Rattle.rj_shards.specs.Divisions.{counts_after};
ghost use Rattle.rj_shards.specs.declared.division.refused.DivideRefused.{DivideRefused};
ghost use Rattle.rj_shards.specs.Headers.{HaveText, HaveTextBefore, IsHeaderFault, header_text, names_with, types_with};

use crate::division::refused::DivideRefused;
use rj_columns::{BuildRefused, ColumnType, Table, TableBuilder};
use rj_csv_io::strict::Delimiter;
use rj_csv_io::{CountedWriter, Failed, Output, OutputFormat, ReadRefused, write_rows};
use std::alloc::{AllocError, Global};

// The names of a table's columns, and one more.
fn widened_names<'a>(
    alloc: Global,
    table: &'a Table,
    name: &'a str,
) -> Result<Vec<&'a str>, AllocError>
    ensures { IfOk result (λ v. map (λ n. n.now) v.items ≡ names_with table.now name.now) }
{
    let mut names = Vec::new(alloc);
    for col in 0..table.columns() {
        names.push(table.name(col))?;
    }
    names.push(name)?;
    Ok(names)
}

// The types of a table's columns, and that of places.
fn widened_types(alloc: Global, table: &Table) -> Result<Vec<ColumnType>, AllocError>
    ensures { IfOk result (λ v. v.items ≡ types_with table.now) }
{
    let mut types = Vec::new(alloc);
    for col in 0..table.columns() {
        types.push(table.column_type(col))?;
    }
    types.push(ColumnType::Int)?;
    Ok(types)
}

// The bytes of names.
fn bytes_of<'a>(alloc: Global, names: &[&'a str]) -> Result<Vec<&'a [u8]>, AllocError>
    ensures { IfOk result (λ v. map (λ n. n.now) v.items ≡ map (λ n. n.now) names.now) }
{
    let mut all = Vec::new(alloc);
    for name in names {
        all.push(name.as_bytes())?;
    }
    Ok(all)
}

// Why columns don't make a table.
fn fault_of_columns(e: BuildRefused) -> DivideRefused
    ensures memory { e ≡ BuildRefused.Memory → result ≡ DivideRefused.Memory }
    ensures fault { e ≢ BuildRefused.Memory → result ≡ DivideRefused.Read (of_begun e) }
{
    match e {
        BuildRefused::TooManyColumns => DivideRefused::Read(ReadRefused::TooManyColumns),
        BuildRefused::BadName(column) => DivideRefused::Read(ReadRefused::BadName(column)),
        BuildRefused::RepeatedName(column) => {
            DivideRefused::Read(ReadRefused::RepeatedName(column))
        }
        BuildRefused::TypeCount => DivideRefused::Read(ReadRefused::TypeCount),
        BuildRefused::Memory => DivideRefused::Memory,
    }
}

// A table of a table's columns and of one more, without rows.
fn widened(alloc: Global, table: &Table, names: &[&str]) -> Result<Table, DivideRefused>
    ensures table { IfOk result (λ t. (empty_table (map (λ n. n.now) names.now) (types_with table.now) ≡ Ok t) × (t.rows ≡ [])) }
    ensures fault { IfErr result (λ e. e ≢ DivideRefused.Memory
        → (b : BuildRefused) × (empty_table (map (λ n. n.now) names.now) (types_with table.now) ≡ Err b) × (e ≡ DivideRefused.Read (of_begun b))) }
{
    let Ok(types) = widened_types(alloc, table) else {
        return Err(DivideRefused::Memory);
    };
    let Ok(bytes) = bytes_of(alloc, names) else {
        return Err(DivideRefused::Memory);
    };
    match TableBuilder::new(alloc, bytes.as_slice(), types.as_slice()) {
        Ok(builder) => Ok(builder.finish()),
        Err(e) => Err(fault_of_columns(e)),
    }
}

// The text of the header of a table of these names.
fn text_of_names(alloc: Global, table: &Table, names: &[&str]) -> Result<Vec<u8>, AllocError>
    requires names { length names.now ≡ length table.now.types }
    requires rows { table.now.rows ≡ [] }
    ensures { IfOk result (λ v. v.items ≡ row_text (writer_of comma) (map (λ n. n.now) names.now)) }
{
    let format = OutputFormat {
        delimiter: Delimiter::comma(),
        null: "",
    };
    let mut output = CountedWriter::new(Vec::new(alloc));
    match write_rows(alloc, &mut output, names, table, &format) {
        Ok(()) => Ok(output.into_inner()),
        Err(_) => Err(AllocError),
    }
}

// The record of a table's names and of one more.
fn header_of(alloc: Global, table: &Table, name: &str) -> Result<Vec<u8>, DivideRefused>
    ensures text { IfOk result (λ v. v.items ≡ header_text table.now name.now) }
    ensures lawful { OnOk result ((t : TableValue) × (empty_table (names_with table.now name.now) (types_with table.now) ≡ Ok t)) }
    ensures fault { IfErr result (IsHeaderFault table.now name.now 0) }
{
    let Ok(names) = widened_names(alloc, table, name) else {
        return Err(DivideRefused::Memory);
    };
    let wide = match widened(alloc, table, names.as_slice()) {
        Ok(wide) => wide,
        Err(e) => return Err(e),
    };
    match text_of_names(alloc, &wide, names.as_slice()) {
        Ok(text) => Ok(text),
        Err(_) => Err(DivideRefused::Memory),
    }
}

/// Puts a header to each output: the record of a table's names and of one more, which is the name
/// of the places. The answer is how many bytes the record has. The columns and that of the places
/// have to be those of a valid table.
///
/// # Errors
///
/// Why the columns don't make a table, as reading a file with this header would report it;
/// `Memory`; nothing is put then. Else `WriteDevice` if an output failed; those before it have got
/// the header, and those after it are as they were.
pub fn write_headers<O: Output>(
    alloc: Global,
    table: &Table,
    name: &str,
    outputs: &mut [O],
) -> Result<u64, DivideRefused>
    ensures told { OnOk result (HaveText (header_text table.now name.now) (map O.told outputs.old) (map O.told outputs.new)) }
    ensures size { IfOk result (λ n. n ≡ length (header_text table.now name.now)) }
    ensures lawful { OnOk result ((t : TableValue) × (empty_table (names_with table.now name.now) (types_with table.now) ≡ Ok t)) }
    ensures counts { map O.count outputs.new ≡ counts_after result (map O.count outputs.old) }
    ensures fault { IfErr result (IsHeaderFault table.now name.now (length outputs.old)) }
    ensures untouched { IfErr result (λ e. ((p : ℕ) → e ≢ DivideRefused.WriteDevice p) → outputs.new ≡ outputs.old) }
    ensures before { (p : ℕ) → result ≡ Err (DivideRefused.WriteDevice p) → HaveTextBefore p (header_text table.now name.now) (map O.told outputs.old) (map O.told outputs.new) }
{
    let text = match header_of(alloc, table, name) {
        Ok(text) => text,
        Err(e) => return Err(e),
    };
    for part in 0..outputs.len() {
        match outputs[part].put(text.as_slice()) {
            Ok(()) => {}
            Err(Failed) => return Err(DivideRefused::WriteDevice(part)),
        }
    }
    Ok(text.len() as u64)
}
