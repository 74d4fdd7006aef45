//! The types that the cells of a file suggest, lists of types that are in files, and the parts of a
//! text that writes a number.

ghost use Rattle.std.specs.Prelude.{◌≡◌, ◌≢◌, Err, IfOk, IfErr, replicate};
ghost use Rattle.csv.specs.Reading.{records, strip_bom};
ghost use Rattle.rj_columns.specs.Tables.{TableValue};
ghost use Rattle.rj_csv_io.specs.Typed.{null_texts};
ghost use Rattle.rj_csv_io.specs.StrictReading.{config_of};
ghost use Rattle.rj_line.specs.Keys.{IsListing};
ghost use Rattle.rj_line.specs.Misfits.{IsSuggestion};
ghost use Rattle.rj_line.specs.Suggested.{AreKindsOf, IsSuggestFault, read_as_texts, texts_for};

mod columns;
mod entries;
mod keys;
mod laws;
mod listed;
mod misfits;
mod number;
mod numeral;
mod strict;
mod suggestion;
mod writing;

use crate::fault::{Fault, Side, fault_of_read};
use crate::suggest::columns::kinds_of;
pub use crate::suggest::entries::list_of_entries;
use crate::suggest::keys::suggest_keys;
pub use crate::suggest::laws::lines_are_read_back;
pub use crate::suggest::listed::list_of_lines;
use crate::suggest::misfits::misfits_of;
pub use crate::suggest::numeral::{are_digits, is_unsigned_text, place_of_point, without_sign};
pub use crate::suggest::strict::{StrictlyRefused, suggest_listed_strictly};
pub use crate::suggest::suggestion::{ListedColumns, Misfit, Suggestion};
use crate::suggest::writing::lines_of;
use rj_columns::{ColumnType, Table};
use rj_csv_io::strict::Delimiter;
use rj_csv_io::{Header, InputFormat, ReadRefused, read_table, without_bom};
use std::alloc::{AllocError, Global};

// The type of texts, this many times.
fn texts(alloc: Global, count: usize) -> Result<Vec<ColumnType>, AllocError>
    ensures { IfOk result (λ types. types.items ≡ replicate count ColumnType.Text) }
{
    vec![in alloc; ColumnType::Text; count]
}

// The type of texts for each column of a file; none if it has no header.
fn texts_for(
    alloc: Global,
    bytes: &[u8],
    delimiter: Delimiter,
) -> Result<Vec<ColumnType>, AllocError>
    ensures { IfOk result (λ types. types.items ≡ texts_for (records (config_of delimiter) (strip_bom bytes.now))) }
{
    match Header::of(alloc, without_bom(bytes), delimiter)? {
        Some(header) => texts(alloc, header.columns()),
        None => Ok(Vec::new(alloc)),
    }
}

// The table of texts that a file reads as, and the types that its cells suggest.
fn read_columns(
    alloc: Global,
    bytes: &[u8],
    format: &InputFormat<'_>,
) -> Result<(Table, Vec<ColumnType>), ReadRefused>
    ensures kinds { IfOk result (λ read. AreKindsOf (records (config_of format.now.delimiter) (strip_bom bytes.now)) (null_texts format.now.nulls.now)
        read.0 read.1.items) }
    ensures refused { IfErr result (λ e. e ≢ ReadRefused.Memory
        → read_as_texts (records (config_of format.now.delimiter) (strip_bom bytes.now)) (null_texts format.now.nulls.now) ≡ Err e) }
{
    let Ok(types) = texts_for(alloc, bytes, format.delimiter) else {
        return Err(ReadRefused::Memory);
    };
    let table = match read_table(alloc, bytes, types.as_slice(), format) {
        Ok(table) => table,
        Err(refused) => return Err(refused),
    };
    match kinds_of(alloc, &table) {
        Ok(kinds) => Ok((table, kinds)),
        Err(_) => Err(ReadRefused::Memory),
    }
}

/// The types that the cells of a file suggest, one for each column, in order. NULLs play no part.
/// The type of a column is:
///
/// - `int` if each cell is an optional sign and digits, a number of 64 bits;
/// - else `num(P,S)` if each is an optional sign, digits, and perhaps a point and digits, where S
///   is the most digits after the point. S and the most digits before it are at most 18, and P is
///   two more than these, or 18, so that somewhat larger numbers fit, too;
/// - else `text`, also if all cells are NULL.
///
/// A number with a leading zero before other digits is a text. The file is read as a join reads it
/// in this format if every column is of texts. It reads with these types, too.
///
/// # Errors
///
/// The first error of that reading. `Memory` comes only when memory ran out.
pub fn suggested_kinds(
    alloc: Global,
    bytes: &[u8],
    format: &InputFormat<'_>,
) -> Result<Vec<ColumnType>, ReadRefused>
    ensures kinds { IfOk result (λ kinds. (t : TableValue)
        × AreKindsOf (records (config_of format.now.delimiter) (strip_bom bytes.now)) (null_texts format.now.nulls.now) t kinds.items) }
    ensures refused { IfErr result (λ e. e ≢ ReadRefused.Memory
        → read_as_texts (records (config_of format.now.delimiter) (strip_bom bytes.now)) (null_texts format.now.nulls.now) ≡ Err e) }
{
    match read_columns(alloc, bytes, format) {
        Ok((_table, kinds)) => Ok(kinds),
        Err(refused) => Err(refused),
    }
}

/// What the cells of a file suggest. The list is a text: a line `NAME=TYPE` for each column, in
/// order, with the type of [`suggested_kinds`]. A name is between double quotes unless it is an
/// identifier. A column's misfit is its first cell that isn't a number, NULLs aside, if another cell
/// of it is one.
///
/// It is a proposal: a join's types are declared.
///
/// # Errors
///
/// That of [`suggested_kinds`], reported of the left table. `Memory` comes only when memory ran
/// out.
pub fn suggest_types(
    alloc: Global,
    bytes: &[u8],
    format: &InputFormat<'_>,
) -> Result<Suggestion, Fault>
    ensures suggestion { IfOk result (IsSuggestion format.now.delimiter bytes.now (null_texts format.now.nulls.now)) }
    ensures fault { IfErr result (λ f. f ≢ Fault.Memory → IsSuggestFault format.now.delimiter bytes.now (null_texts format.now.nulls.now) f) }
{
    let (table, kinds) = match read_columns(alloc, bytes, format) {
        Ok(read) => read,
        Err(refused) => return Err(fault_of_read(Side::Left, refused)),
    };
    Ok(Suggestion {
        list: lines_of(alloc, &table, kinds.as_slice())?,
        misfits: misfits_of(alloc, &table)?,
    })
}

/// What the cells of a file suggest of these columns of it: of all, as [`suggest_types`], or of
/// those that can be a key of the table. Of the lines and misfits of all columns it has those of
/// the listed ones, in the same order. In a table without rows each column can be a key.
///
/// # Errors
///
/// Those of [`suggest_types`]. `Memory` comes only when memory ran out.
pub fn suggest_listed(
    alloc: Global,
    bytes: &[u8],
    format: &InputFormat<'_>,
    listed: ListedColumns,
) -> Result<Suggestion, Fault>
    ensures suggestion { IfOk result (IsListing listed format.now.delimiter bytes.now (null_texts format.now.nulls.now)) }
    ensures fault { IfErr result (λ f. f ≢ Fault.Memory → IsSuggestFault format.now.delimiter bytes.now (null_texts format.now.nulls.now) f) }
{
    match listed {
        ListedColumns::All => suggest_types(alloc, bytes, format),
        ListedColumns::Keys => suggest_keys(alloc, bytes, format),
    }
}
