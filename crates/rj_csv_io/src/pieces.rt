//! Reading a table piece by piece: its header, and the rows of each piece.

ghost use Rattle.std.specs.Prelude.{◌≡◌, ◌≢◌, ◌∷◌, [], List, ℕ, length, IfOk, IfErr, MatchOption, Ok, Err, Some, map};
ghost use Rattle.csv.specs.Reading.{records, strip_bom};
ghost use Rattle.rj_csv_io.specs.StrictReading.{config_of};
ghost use Rattle.rj_columns.specs.Names.{empty_table};
ghost use Rattle.rj_columns.specs.declared.refused.BuildRefused.{BuildRefused};
ghost use Rattle.rj_csv_io.specs.Cuts.{records_in};
ghost use Rattle.rj_csv_io.specs.Parts.{IsReading};
ghost use Rattle.rj_csv_io.specs.Pieces.{names_in, piece_records};
ghost use Rattle.rj_csv_io.specs.Tables.{of_begun};
ghost use Rattle.rj_csv_io.specs.Typed.{null_texts};

use crate::cut::starts_with_bom;
use crate::format::InputFormat;
use crate::header::{begin_table, fields_of_record};
use crate::part::{header_of, read_part};
use crate::refused::ReadRefused;
use crate::strict::Delimiter;
use csv::ByteRecord;
use rj_columns::{ColumnType, Table};
use std::alloc::{AllocError, Global};

/// The first record of a file, which names the columns of its rows.
#[derive(Drop)]
pub struct Header {
    record: ByteRecord,
}

// A text with a byte order mark before it.
fn with_mark(alloc: Global, text: &[u8]) -> Result<Vec<u8>, AllocError>
    ensures { IfOk result (λ v. strip_bom v.items ≡ text.now) }
{
    let mut marked = vec![in alloc; 0xEF, 0xBB, 0xBF]?;
    marked.extend_from_slice(text)?;
    Ok(marked)
}

impl Header {
    // The header of a text that begins with no byte order mark.
    fn of_unmarked(
        alloc: Global,
        text: &[u8],
        delimiter: Delimiter,
    ) -> Result<Option<Header>, AllocError>
        ensures { IfOk result (λ o. MatchOption o (records_in delimiter text.now ≡ [])
            (λ h. (rest : List (List (List ℕ))) × (records_in delimiter text.now ≡ names_in h ∷ rest))) }
    {
        match header_of(alloc, text, delimiter) {
            Ok(Some(record)) => Ok(Some(Header { record })),
            Ok(None) => Ok(None),
            Err(_) => Err(AllocError),
        }
    }

    /// The header of a text whose byte order mark was left out already: the first record, if there
    /// is one. The delimiter is that of the text.
    ///
    /// # Errors
    ///
    /// It fails only when memory runs out.
    pub fn of(
        alloc: Global,
        text: &[u8],
        delimiter: Delimiter,
    ) -> Result<Option<Header>, AllocError>
        ensures { IfOk result (λ o. MatchOption o (records (config_of delimiter) text.now ≡ [])
            (λ h. (rest : List (List (List ℕ))) × (records (config_of delimiter) text.now ≡ names_in h ∷ rest))) }
    {
        if starts_with_bom(text) {
            let marked = with_mark(alloc, text)?;
            return Header::of_unmarked(alloc, marked.as_slice(), delimiter);
        }
        Header::of_unmarked(alloc, text, delimiter)
    }

    /// The names in the header, from left to right.
    ///
    /// # Errors
    ///
    /// It fails only when memory runs out.
    pub fn names<'h>(&'h self, alloc: Global) -> Result<Vec<&'h [u8]>, AllocError>
        ensures { IfOk result (λ names. map (λ name. name.now) names.items ≡ names_in self.now) }
    {
        fields_of_record(alloc, &self.record)
    }

    /// How many columns it names.
    pub fn columns(&self) -> usize
        ensures { result ≡ length (names_in self.now) }
    {
        self.record.len()
    }

    /// The table without rows whose columns have these names and types.
    ///
    /// # Errors
    ///
    /// Why there is none, in the order of [`read_table`]: too many columns, the names from left to
    /// right, the count of types. `Memory` comes only when memory ran out.
    ///
    /// [`read_table`]: crate::read_table
    pub fn table(&self, alloc: Global, types: &[ColumnType]) -> Result<Table, ReadRefused>
        ensures table { IfOk result (λ t. empty_table (names_in self.now) types.now ≡ Ok t) }
        ensures fault { IfErr result (λ e. e ≢ ReadRefused.Memory
            → (f : BuildRefused) × (empty_table (names_in self.now) types.now ≡ Err f) × (e ≡ of_begun f)) }
    {
        match begin_table(alloc, &self.record, types, 0) {
            Ok(builder) => Ok(builder.finish()),
            Err(e) => Err(e),
        }
    }

    /// The rows of a piece of a text under this header, as a table. A piece begins and ends where a
    /// record does. The text's own byte order mark was left out already. The first piece has the
    /// header, which makes no row.
    ///
    /// # Errors
    ///
    /// The error of the header, as [`Header::table`] reports it, or the first error of the piece's
    /// records, whose row counts from the piece's first row. Or `Memory`: nothing is known of
    /// errors then.
    pub fn read_piece(
        &self,
        alloc: Global,
        text: &[u8],
        is_first: bool,
        types: &[ColumnType],
        format: &InputFormat<'_>,
    ) -> Result<Table, ReadRefused>
        ensures { IsReading (null_texts format.now.nulls.now) types.now (names_in self.now)
            (piece_records format.now.delimiter is_first text.now) result }
    {
        if starts_with_bom(text) {
            let Ok(marked) = with_mark(alloc, text) else {
                return Err(ReadRefused::Memory);
            };
            return read_part(
                alloc,
                marked.as_slice(),
                is_first,
                &self.record,
                types,
                format,
            );
        }
        read_part(alloc, text, is_first, &self.record, types, format)
    }
}
