//! What a run had read when its error was found.

ghost use Rattle.std.specs.Prelude.{◌≡◌, IfOk};
ghost use Rattle.csv.specs.Reading.{strip_bom};
ghost use Rattle.rj_csv_io.specs.Pieces.{names_in};
ghost use Rattle.rj_csv_io.specs.Typed.{null_texts};
ghost use Rattle.rj_settings.specs.Columns as columns;
ghost use Rattle.rj_explain.specs.Explained as explained;
ghost use Rattle.rj_explain.specs.Explained.{IsQuotedText, IsTextOf, delimiter_of, file_of, file_read, header_names, names_of, text_in, types_of};
ghost use Rattle.rj_explain.specs.Further.{nulls_of};

use rj_columns::ColumnType;
use rj_csv_io::strict::{Delimiter, HeaderPlace, above_fault, check, quote_empty_lines};
use rj_csv_io::{Header as Names, without_bom};
use rj_line::fault::Side;
use rj_line::{Request, Strictness};
use rj_settings::types::{TypeEntry, types_under};
use std::alloc::{AllocError, Global};

/// A file of a table, and how it is read.
#[derive(Clone, Copy)]
pub(crate) struct TableFile<'a> {
    /// Its bytes.
    pub(crate) bytes: &'a [u8],
    /// Its delimiter.
    pub(crate) delimiter: Delimiter,
    /// What is known of the types of its columns.
    pub(crate) types: &'a [TypeEntry],
    /// How strictly it is read.
    pub(crate) strict: Strictness,
}

/// The first record of a text, which is its header, if it has one.
///
/// # Errors
///
/// It fails only when memory runs out.
pub(crate) fn header_of(
    alloc: Global,
    bytes: &[u8],
    delimiter: Delimiter,
) -> Result<Option<Names>, AllocError>
    ensures { IfOk result (λ o. names_of o ≡ header_names delimiter bytes.now) }
{
    Names::of(alloc, without_bom(bytes), delimiter)
}

impl TableFile<'_> {
    /// Whether its last line needs its line end.
    pub(crate) fn is_full(&self) -> bool
        ensures { result ≡ explained.is_full self.now.strict }
    {
        match self.strict {
            Strictness::Full => true,
            Strictness::Off | Strictness::On => false,
        }
    }

    /// Its header, if it has one.
    ///
    /// # Errors
    ///
    /// It fails only when memory runs out.
    pub(crate) fn header(&self, alloc: Global) -> Result<Option<Names>, AllocError>
        ensures { IfOk result (λ o. names_of o ≡ header_names self.now.delimiter self.now.bytes.now) }
    {
        header_of(alloc, self.bytes, self.delimiter)
    }

    /// The types of its columns under this header.
    ///
    /// # Errors
    ///
    /// It fails only where memory is refused.
    pub(crate) fn kinds(&self, alloc: Global, header: &Names) -> Result<Vec<ColumnType>, AllocError>
        ensures { IfOk result (λ v. v.items ≡ columns.types_under self.now.types.now (names_in header.now)) }
    {
        let names = header.names(alloc)?;
        types_under(alloc, self.types, names.as_slice())
    }

    /// The text of which its records are read, where that isn't its own: read strictly, an empty
    /// line is a record.
    ///
    /// # Errors
    ///
    /// It fails only when memory runs out.
    pub(crate) fn quoted_text(&self, alloc: Global) -> Result<Option<Vec<u8>>, AllocError>
        ensures { IfOk result (λ o. IsTextOf (file_read self.now) (text_in o self.now.bytes.now)) }
    {
        match self.strict {
            Strictness::Off => Ok(None),
            Strictness::On | Strictness::Full => {
                Ok(Some(quoted_lines(alloc, self.bytes, self.delimiter)?))
            }
        }
    }
}

/// What a run had read when its error was found.
#[derive(Clone, Copy)]
pub struct Inputs<'a, 'r> {
    /// The bytes of the left table's file.
    pub left: &'a [u8],
    /// The bytes of the right table's file.
    pub right: &'a [u8],
    /// What was asked of the two.
    pub request: &'a Request<'r>,
}

impl<'a, 'r> Inputs<'a, 'r> {
    /// A side's file.
    pub(crate) fn table(&self, side: Side) -> TableFile<'a>
        ensures bytes { result.bytes.now ≡ file_of side self.now }
        ensures delimiter { result.delimiter ≡ delimiter_of side self.now }
        ensures types { result.types.now ≡ types_of side self.now }
        ensures strict { result.strict ≡ self.now.request.now.strict }
    {
        let request = self.request;
        match side {
            Side::Left => TableFile {
                bytes: self.left,
                delimiter: request.left_delimiter,
                types: request.left_types.as_slice(),
                strict: request.strict,
            },
            Side::Right => TableFile {
                bytes: self.right,
                delimiter: request.right_delimiter,
                types: request.right_types.as_slice(),
                strict: request.strict,
            },
        }
    }

    /// The texts that stand for NULL in a side's file.
    pub(crate) fn nulls(&self, side: Side) -> &'a [&'r str]
        ensures { null_texts result.now ≡ nulls_of side self.now }
    {
        match side {
            Side::Left => self.request.left_nulls.as_slice(),
            Side::Right => self.request.right_nulls.as_slice(),
        }
    }
}

// The lines of a text above the place where it stops being of the grammar, with `""` in each empty
// one.
fn quoted_lines(alloc: Global, text: &[u8], delimiter: Delimiter) -> Result<Vec<u8>, AllocError>
    ensures { IfOk result (λ v. IsQuotedText delimiter text.now (strip_bom v.items)) }
{
    match check(text, delimiter, HeaderPlace::First, false) {
        Ok(()) => quote_empty_lines(alloc, text, delimiter),
        Err(fault) => {
            let above = above_fault(text, delimiter, HeaderPlace::First, fault);
            quote_empty_lines(alloc, above, delimiter)
        }
    }
}

/// The text of a file's records: the one with its empty lines quoted, if there is one, or the
/// file's own.
pub(crate) fn text_of<'t>(quoted: &'t Option<Vec<u8>>, file: &'t [u8]) -> &'t [u8]
    ensures { result.now ≡ text_in quoted.now file.now }
{
    match quoted {
        Some(text) => without_bom(text.as_slice()),
        None => without_bom(file),
    }
}
