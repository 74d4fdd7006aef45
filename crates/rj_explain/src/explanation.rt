//! The lines that explain an error.

ghost use Rattle.std.specs.Prelude.{◌≡◌, IfOk, string_bytes};
ghost use Rattle.rj_explain.specs.Explained as explained;
ghost use Rattle.rj_explain.specs.Explained.{IsExplained, IsExplainedAlone, IsPlaceInFile, IsPlaceInSide, IsPlaceTold, IsStrictExplained, file_of_texts, file_read, file_told, only_file_told, place_side};

use crate::cells::{cell_lines, ragged_lines};
use crate::clause::name_lines;
use crate::headers::{
    bad_name_lines, repeated_name_lines, too_many_lines, type_count_lines, type_name_lines,
};
use crate::hints::{file_side, table_line};
use crate::inputs::{Inputs, TableFile};
use crate::joined::null_text_lines;
use crate::mismatch::mismatch_lines;
use crate::selected::selected_lines;
use crate::shared::shared_name_lines;
use crate::strict::grammar_lines;
use crate::syntax::syntax_lines;
use rj_csv_io::strict::Delimiter;
use rj_line::Strictness;
use rj_line::fault::{Fault, Side};
use rj_settings::types::{TypeEntry, with_texts};
use std::alloc::{AllocError, Global};

// Why a text isn't of RFC 4180's grammar.
const NOT_CLOSED: &str = "no quote closes the field that one opens here";

const BEHIND_QUOTE: &str = "more than a comma or a line end stands behind the closing quote";

const BEHIND_QUOTE_DELIMITED: &str =
    "more than a delimiter or a line end stands behind the closing quote";

const QUOTE_WITHIN: &str = "a quote stands within a field that doesn't begin with one";

const NO_LINE_FEED: &str = "no line feed follows the carriage return behind the field";

const EMPTY: &str = "it is empty, under more than one name";

const CUT_SHORT: &str = "it has no line end";

// Which texts may stand for NULL.
const NULL_RULE: &str =
    "  a text for null has at most 16 printable ASCII bytes, and no digit, comma, double quote or space\n";

// Why a closing quote doesn't end its field.
fn behind_quote(delimiter: Delimiter) -> &'static str
    ensures { result.now ≡ explained.behind_quote delimiter }
{
    if delimiter.byte() == b',' {
        return BEHIND_QUOTE;
    }
    BEHIND_QUOTE_DELIMITED
}

// The lines for an error of RFC 4180's grammar; for other errors there are none.
fn explain_grammar(alloc: Global, fault: &Fault, file: &TableFile<'_>) -> Result<String, AllocError>
    ensures { IfOk result (λ s. IsStrictExplained fault.now (file_read file.now) (string_bytes s)) }
{
    match *fault {
        Fault::OpenQuote(_, row, column) => grammar_lines(alloc, file, row, column, NOT_CLOSED),
        Fault::AfterQuote(_, row, column) => {
            let why = behind_quote(file.delimiter);
            grammar_lines(alloc, file, row, column, why)
        }
        Fault::BareQuote(_, row, column) => grammar_lines(alloc, file, row, column, QUOTE_WITHIN),
        Fault::BareReturn(_, row, column) => grammar_lines(alloc, file, row, column, NO_LINE_FEED),
        Fault::EmptyLine(_, row) => grammar_lines(alloc, file, row, 0, EMPTY),
        Fault::CutShort(_, row) => grammar_lines(alloc, file, row, 0, CUT_SHORT),
        _ => Ok(String::new(alloc)),
    }
}

// The lines for the place of an error in a file.
fn explain_in_file(alloc: Global, fault: &Fault, file: &TableFile<'_>) -> Result<String, AllocError>
    ensures { IfOk result (λ s. IsPlaceInFile fault.now (file_read file.now) (string_bytes s)) }
{
    match *fault {
        Fault::BadName(_, column) => bad_name_lines(alloc, file, column),
        Fault::RepeatedName(_, column) => repeated_name_lines(alloc, file, column),
        Fault::TypeCount(_) => type_count_lines(alloc, file),
        Fault::TypeName(_, _) => type_name_lines(alloc, file),
        Fault::TooManyColumns(_) => too_many_lines(alloc, file),
        Fault::BadNull => String::from_str(alloc, NULL_RULE),
        Fault::RaggedRow(_, row) => ragged_lines(alloc, file, row),
        Fault::BadInteger(_, row, column) => cell_lines(alloc, file, row, column),
        Fault::BadText(_, row, column) => cell_lines(alloc, file, row, column),
        _ => explain_grammar(alloc, fault, file),
    }
}

// The side in whose file the place of an error is.
fn place_side(fault: &Fault) -> Option<Side>
    ensures { result ≡ place_side fault.now }
{
    match *fault {
        Fault::CutShort(side, _) => Some(side),
        _ => file_side(fault),
    }
}

// The lines for the place of an error in a side's file.
fn explain_in_side(
    alloc: Global,
    fault: &Fault,
    inputs: &Inputs<'_, '_>,
) -> Result<String, AllocError>
    ensures { IfOk result (λ s. IsPlaceInSide fault.now inputs.now (string_bytes s)) }
{
    match place_side(fault) {
        Some(side) => explain_in_file(alloc, fault, &inputs.table(side)),
        None => Ok(String::new(alloc)),
    }
}

// The lines for the place of an error.
fn explain_place(
    alloc: Global,
    fault: &Fault,
    inputs: &Inputs<'_, '_>,
) -> Result<String, AllocError>
    ensures { IfOk result (λ s. IsPlaceTold fault.now inputs.now (string_bytes s)) }
{
    match *fault {
        Fault::SharedTypeName(_) => shared_name_lines(alloc, inputs),
        Fault::Syntax(byte) => syntax_lines(alloc, inputs, byte),
        Fault::UnknownColumn | Fault::AmbiguousColumn | Fault::RepeatedUsing => {
            name_lines(alloc, inputs)
        }
        Fault::TypeMismatch => mismatch_lines(alloc, inputs),
        Fault::AmbiguousNull(row, column) => null_text_lines(alloc, inputs, row, column),
        Fault::SelectedName(number) => selected_lines(alloc, inputs, number),
        Fault::BadNull => String::from_str(alloc, NULL_RULE),
        _ => explain_in_side(alloc, fault, inputs),
    }
}

// The line for the whole file in which an error is.
fn file_lines(alloc: Global, fault: &Fault, inputs: &Inputs<'_, '_>) -> Result<String, AllocError>
    ensures { IfOk result (λ s. string_bytes s ≡ file_told fault.now inputs.now) }
{
    match file_side(fault) {
        Some(side) => table_line(alloc, fault, &inputs.table(side), Some(side)),
        None => Ok(String::new(alloc)),
    }
}

/// The lines that say more about an error than its own line does: where the error is, and what is
/// there, and what the whole file seems to be. Each has two blanks in front and its line end. There
/// are none for an error of which there is no more to say.
///
/// # Errors
///
/// It fails only when memory runs out.
pub fn explain(alloc: Global, fault: &Fault, inputs: &Inputs<'_, '_>) -> Result<String, AllocError>
    ensures { IfOk result (λ s. IsExplained fault.now inputs.now (string_bytes s)) }
{
    let mut lines = explain_place(alloc, fault, inputs)?;
    let more = file_lines(alloc, fault, inputs)?;
    lines.push_str(more.as_str())?;
    Ok(lines)
}

// The line for the only file, if an error is in it.
fn only_file_lines(alloc: Global, fault: &Fault, file: &TableFile<'_>) -> Result<String, AllocError>
    ensures { IfOk result (λ s. string_bytes s ≡ only_file_told fault.now (file_read file.now)) }
{
    match file_side(fault) {
        Some(_) => table_line(alloc, fault, file, None),
        None => Ok(String::new(alloc)),
    }
}

// The lines for an error of the only file.
fn explain_only_file(
    alloc: Global,
    fault: &Fault,
    file: &TableFile<'_>,
) -> Result<String, AllocError>
    ensures { IfOk result (λ s. IsExplainedAlone fault.now (file_read file.now) (string_bytes s)) }
{
    let mut told = explain_in_file(alloc, fault, file)?;
    let whole = only_file_lines(alloc, fault, file)?;
    told.push_str(whole.as_str())?;
    Ok(told)
}

// A file of these bytes, read so.
fn table_file<'a>(
    bytes: &'a [u8],
    delimiter: Delimiter,
    types: &'a [TypeEntry],
    strict: Strictness,
) -> TableFile<'a>
    ensures bytes { result.bytes.now ≡ bytes.entry.now }
    ensures delimiter { result.delimiter ≡ delimiter }
    ensures types { result.types.now ≡ types.entry.now }
    ensures strict { result.strict ≡ strict }
{
    TableFile {
        bytes,
        delimiter,
        types,
        strict,
    }
}

/// The same for an error of the only file of a run, whose columns are read as texts. The lines don't
/// say which file it is.
///
/// # Errors
///
/// It fails only when memory runs out.
pub fn explain_alone(
    alloc: Global,
    fault: &Fault,
    bytes: &[u8],
    delimiter: Delimiter,
    strict: Strictness,
) -> Result<String, AllocError>
    ensures { IfOk result (λ s. IsExplainedAlone fault.now (file_of_texts delimiter strict bytes.now) (string_bytes s)) }
{
    let types = with_texts(Vec::new(alloc))?;
    let file = table_file(bytes, delimiter, types.as_slice(), strict);
    explain_only_file(alloc, fault, &file)
}
