//! Reading a table whose text has to be of RFC 4180's grammar.

ghost use Rattle.std.specs.Prelude.{◌≡◌, ◌≢◌, ◌∷◌, Bool, Err, IfErr, IfOk, IsTrue, OnOk, true};
ghost use Rattle.csv.specs.Reading.{records, strip_bom};
ghost use Rattle.rj_csv_io.specs.Tables.{is_null_text};
ghost use Rattle.rj_csv_io.specs.Grammar.{Derives, File, records_of};
ghost use Rattle.rj_csv_io.specs.StrictReading.{body_of, config_of};
ghost use Rattle.rj_csv_io.specs.declared.strict.header.HeaderPlace.TheVariants.{Above, First};
ghost use Rattle.rj_command.specs.Sides.{IsReading, IsStrictFault, IsStrictTable, delimiter_of, fault_below, strict_fault};
ghost use Rattle.rj_command.specs.Sides as sides;

use crate::join::nulls::{delimiter_of, has_lawful_nulls, nulls_of};
use crate::join::types::types_of_text;
use rj_columns::Table;
use rj_csv_io::strict::{
    Delimiter, HeaderPlace, StrictFault, above_fault, check, is_derived_in_parts, quote_empty_lines,
};
use rj_csv_io::{InputFormat, read_table_in_parts, without_bom};
use rj_line::Request;
use rj_line::fault::{Fault, Side, fault_of_read};
use std::alloc::Global;
use std::thread::Threads;

// How a text is looked at: by this delimiter, in at most so many parts, and whether its last record
// needs its line end.
#[derive(Drop)]
struct Look {
    delimiter: Delimiter,
    parts: usize,
    full: bool,
}

/// The error of a side's file whose text isn't of the grammar.
pub fn fault_of_text(side: Side, fault: StrictFault) -> Fault
    ensures { result ≡ strict_fault side fault }
{
    match fault {
        StrictFault::OpenQuote(row, column) => Fault::OpenQuote(side, row, column),
        StrictFault::AfterQuote(row, column) => Fault::AfterQuote(side, row, column),
        StrictFault::BareQuote(row, column) => Fault::BareQuote(side, row, column),
        StrictFault::BareReturn(row, column) => Fault::BareReturn(side, row, column),
        StrictFault::EmptyLine(row) => Fault::EmptyLine(side, row),
        StrictFault::CutShort(row) => Fault::CutShort(side, row),
    }
}

fn is_no_header(fault: &Fault) -> bool
    ensures { result ≡ sides.is_no_header fault.now }
{
    match fault {
        Fault::NoHeader(_) => true,
        _ => false,
    }
}

// The error of a text that isn't of the grammar, given the result of reading the records above it.
fn first_fault(side: Side, fault: StrictFault, above: Result<Table, Fault>) -> Fault
    ensures { result ≡ fault_below side fault above }
{
    match above {
        Ok(_) => fault_of_text(side, fault),
        Err(found) => {
            if is_no_header(&found) {
                fault_of_text(side, fault)
            } else {
                found
            }
        }
    }
}

/// The table of one side, read by as many threads as the request has workers, as the library `csv` reads its text by the
/// side's delimiter.
pub(crate) fn read_text<R: Threads + Sync>(
    rt: &R,
    alloc: Global,
    text: &[u8],
    request: &Request<'_>,
    side: Side,
) -> Result<Table, Fault>
    ensures reading { IsReading request.now side (records (config_of (delimiter_of request.now side)) (strip_bom text.now)) result }
    ensures lawful { OnOk result (IsTrue (is_null_text request.now.out_null.now)) }
{
    if !has_lawful_nulls(request) {
        return Err(Fault::BadNull);
    }
    let types = types_of_text(alloc, text, request, side)?;
    let parts = request.settings.workers as usize;
    let format = InputFormat {
        delimiter: delimiter_of(request, side),
        nulls: nulls_of(request, side),
    };
    match read_table_in_parts(rt, alloc, text, types.as_slice(), &format, parts) {
        Ok(table) => Ok(table),
        Err(refused) => Err(fault_of_read(side, refused)),
    }
}

// The table of all records of a text that is derived. `""` is written into each of its empty lines
// first.
fn read_quoted<R: Threads + Sync>(
    rt: &R,
    alloc: Global,
    text: &[u8],
    request: &Request<'_>,
    side: Side,
) -> Result<Table, Fault>
    requires { (full : Bool) × (file : File) × Derives (delimiter_of request.now side) First full (body_of First text.now) file }
    ensures reading { (full : Bool) (file : File) → Derives (delimiter_of request.now side) First full (body_of First text.now) file
        → IsReading request.now side (records_of file) result }
    ensures lawful { OnOk result (IsTrue (is_null_text request.now.out_null.now)) }
{
    let Ok(quoted) = quote_empty_lines(alloc, text, delimiter_of(request, side)) else {
        return Err(Fault::Memory);
    };
    read_text(rt, alloc, quoted.as_slice(), request, side)
}

// Whether a text is derived and has no empty line: by a fast look at its parts, or, if that doesn't
// say so, by a check of the whole text.
fn has_full_lines<R: Threads + Sync>(rt: &R, alloc: Global, text: &[u8], look: &Look) -> bool
    ensures { result ≡ true → (file : File) × Derives look.now.delimiter (Above 2) look.now.full (strip_bom text.now) file }
{
    let body = without_bom(text);
    let (delimiter, parts, full) = (look.delimiter, look.parts, look.full);
    if parts > 1 && is_derived_in_parts(rt, alloc, body, delimiter, full, parts) {
        return true;
    }
    check(body, delimiter, HeaderPlace::Above(2), full).is_ok()
}

// The table of all records of a text of whole lines.
fn read_lines<R: Threads + Sync>(
    rt: &R,
    alloc: Global,
    text: &[u8],
    request: &Request<'_>,
    side: Side,
) -> Result<Table, Fault>
    requires { (file : File) × Derives (delimiter_of request.now side) First true (body_of First text.now) file }
    ensures { (file : File) → Derives (delimiter_of request.now side) First true (body_of First text.now) file
        → IsReading request.now side (records_of file) result }
{
    let look = Look {
        delimiter: delimiter_of(request, side),
        parts: request.settings.workers as usize,
        full: true,
    };
    if has_full_lines(rt, alloc, text, &look) {
        return read_text(rt, alloc, text, request, side);
    }
    read_quoted(rt, alloc, text, request, side)
}

/// The table of one side, whose text has to be of RFC 4180's grammar, with the side's delimiter in
/// place of the comma. It has exactly the records of the text's one derivation. If `full` is set,
/// the last record needs its line end. It is read by as many threads as the request has workers.
///
/// # Errors
///
/// Errors come in the order of the file: those of the records above the place where the text stops
/// being of the grammar, and then that one. A NULL text that isn't valid comes first. `Memory`
/// comes only when memory ran out.
pub fn read_strictly<R: Threads + Sync>(
    rt: &R,
    alloc: Global,
    text: &[u8],
    request: &Request<'_>,
    side: Side,
    full: bool,
) -> Result<Table, Fault>
    ensures table { IfOk result (IsStrictTable full request.now side text.now) }
    ensures fault { IfErr result (λ f. f ≢ Fault.Memory → IsStrictFault full request.now side text.now f) }
    ensures lawful { OnOk result (IsTrue (is_null_text request.now.out_null.now)) }
{
    let delimiter = delimiter_of(request, side);
    let look = Look {
        delimiter,
        parts: request.settings.workers as usize,
        full,
    };
    if has_full_lines(rt, alloc, text, &look) {
        return read_text(rt, alloc, text, request, side);
    }
    match check(text, delimiter, HeaderPlace::First, full) {
        Ok(()) => read_quoted(rt, alloc, text, request, side),
        Err(fault) => {
            let above = above_fault(text, delimiter, HeaderPlace::First, fault);
            Err(first_fault(side, fault, read_lines(rt, alloc, above, request, side)))
        }
    }
}
