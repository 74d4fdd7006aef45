//! `--explain`: the lines that are added after the line of an error.

ghost use Rattle.std.specs.Prelude.{◌≡◌, ◌≢◌, ◌↔◌, ◌<◌, IfErr, IfOk, IsTrue, None, Ok, codes, false, map, option_map, string_bytes, true, unwrap_or};
ghost use Rattle.std.specs.IoError.{error_kind};
ghost use Rattle.std.specs.Option.{IsSomeAnd};
ghost use Rattle.rj_command.specs.Sides.{delimiter_of, nulls_of};
ghost use Rattle.rj_csv_io.specs.Typed.{null_texts};
ghost use Rattle.rj_explain.specs.Explained.{file_of};
ghost use Rattle.rj_explain.specs.Listed.{AreWordsTold};
ghost use Rattle.rj_line.specs.Line.{IsLineFault, IsLineOf};
ghost use Rattle.rj_files.specs.Asking.{ask_for_lines};
ghost use Rattle.rj_files.specs.Entries.{entry_for, is_entry_for};
ghost use Rattle.rj_files.specs.Explained.{IsPlaceExplained, IsToldOf, IsUndeclaredTold, IsUnexpectedTold, IsViolationTold, undeclared_line};
ghost use Rattle.rj_files.specs.FaultFiles.{output_name};
ghost use Rattle.rj_files.specs.Texts.{IsSystemLine, unkept_lines};
ghost use Rattle.rj_files.specs.Told.{IsThere};

use crate::asking::ask_for_lines;
use crate::explained::ExplainedFault;
use crate::memory::memory_lines;
use crate::named::told_by_system;
use crate::outputs::output_of;
use rj_command::{Line, OpenGate, UnkeptRows, Violation, first_violation, read_line};
use rj_csv_io::InputFormat;
use rj_explain::{Inputs, explain, explain_further, explain_row, explain_words};
use rj_line::Request;
use rj_line::fault::{Fault, Side};
use rj_line::suggest::suggest_types;
use std::alloc::{AllocError, Global};
use std::io::{self, ErrorKind};
use std::str;
use std::sync::Wait;
use std::thread::{self, Threads};
use std::time::Clock;

// The lines that explain an error of the command line, if it can be explained and the words ask for
// it.
fn explain_line(alloc: Global, words: &[&str], fault: &Fault) -> Result<Option<String>, AllocError>
    ensures unasked { ask_for_lines (map (λ w. w.now) words.now) ≡ false → result ≡ Ok None }
    ensures asked { ask_for_lines (map (λ w. w.now) words.now) ≡ true → IfOk result (λ o. AreWordsTold fault.now (map (λ w. w.now) words.now) (option_map string_bytes o)) }
{
    if !ask_for_lines(words) {
        return Ok(None);
    }
    explain_words(alloc, words, fault)
}

/// How many processors there are, or one if that can't be known.
pub fn processors<R: Threads>(rt: &R) -> usize
    ensures { 0 < result }
{
    match thread::available_parallelism(rt) {
        Ok(count) => count.get(),
        Err(_) => 1,
    }
}

/// What the words of the command line say, on a machine with this many processors.
///
/// # Errors
///
/// Those of `read_line`. An invalid list or delimiter is explained if the words ask for that, unless
/// memory runs out for the lines.
pub fn read_words_of_line<'a>(
    alloc: Global,
    words: &'a [&'a str],
    processors: usize,
) -> Result<Line<'a>, ExplainedFault>
    ensures line { IfOk result (IsLineOf processors (map (λ w. w.now) words.entry.now)) }
    ensures fault { IfErr result (λ e. IsLineFault (map (λ w. w.now) words.entry.now) e.fault) }
    ensures file { IfErr result (λ e. e.file ≡ Ok None) }
    ensures told { IfErr result (λ e. e.is_told ≡ true) }
    ensures unasked { ask_for_lines (map (λ w. w.now) words.entry.now) ≡ false → IfErr result (λ e. e.lines ≡ Ok None) }
    ensures asked { ask_for_lines (map (λ w. w.now) words.entry.now) ≡ true
        → IfErr result (λ e. IfOk e.lines (λ o. AreWordsTold e.fault (map (λ w. w.now) words.entry.now) (option_map string_bytes o))) }
{
    match read_line(alloc, words, processors) {
        Ok(line) => Ok(line),
        Err(fault) => {
            let lines = explain_line(alloc, words, &fault);
            Err(ExplainedFault::with_lines(fault, lines))
        }
    }
}

// The lines that say how a joined table isn't as expected.
fn lines_of_violation(
    alloc: Global,
    inputs: &Inputs<'_, '_>,
    violation: &Violation,
) -> Result<String, AllocError>
    ensures { IfOk result (λ s. IsViolationTold inputs.now violation.now (string_bytes s)) }
{
    match *violation {
        Violation::Rows(rows) => format!(in alloc; "  the joined table has {rows} rows\n"),
        Violation::LeftRow(row, pairs) => {
            explain_row(alloc, inputs, Side::Left, u64::from(row) + 1, pairs)
        }
        Violation::RightRow(row, pairs) => {
            explain_row(alloc, inputs, Side::Right, u64::from(row) + 1, pairs)
        }
        Violation::LoneLeft(row) => explain_row(alloc, inputs, Side::Left, u64::from(row) + 1, 0),
    }
}

// The lines of a joined table that isn't as expected. It is joined once more, since nothing was
// kept of it.
fn violation_lines<R: AllocGlobal + Threads + Wait + Clock + Sync>(
    rt: &R,
    inputs: &Inputs<'_, '_>,
) -> Result<String, AllocError>
    ensures { IfOk result (λ s. IsUnexpectedTold inputs.now (string_bytes s)) }
{
    let alloc = rt.alloc();
    let (left, right, request) = (inputs.left, inputs.right, inputs.request);
    match first_violation(rt, alloc, left, right, request, &OpenGate) {
        Ok(Some(violation)) => lines_of_violation(alloc, inputs, &violation),
        Ok(None) => Ok(String::new(alloc)),
        Err(Fault::Memory) => Err(AllocError),
        Err(_) => Ok(String::new(alloc)),
    }
}

// Whether an entry begins with a name and `=`.
fn is_entry_for(entry: &[u8], name: &[u8]) -> bool
    ensures { result ≡ is_entry_for name.now entry.now }
{
    entry.starts_with(name) && name.len() < entry.len() && entry[name.len()] == b'='
}

// The entry of a list of suggested types, one a line, for a column of this name.
fn entry_for<'t>(list: &'t str, name: &str) -> Option<&'t str>
    ensures { option_map (λ entry. entry.now) result ≡ entry_for name.now list.now }
{
    list.split('\n')
        .find(|entry| is_entry_for(entry.as_bytes(), name.as_bytes()))
}

// The bytes of a side's table.
fn file_of<'a>(inputs: &Inputs<'a, '_>, side: Side) -> &'a [u8]
    ensures { result.now ≡ file_of side inputs.now }
{
    match side {
        Side::Left => inputs.left,
        Side::Right => inputs.right,
    }
}

// How the file of a side's table is read.
fn format_of<'a>(request: &'a Request<'_>, side: Side) -> InputFormat<'a>
    ensures delimiter { result.delimiter ≡ delimiter_of request.now side }
    ensures nulls { null_texts result.nulls.now ≡ nulls_of request.now side }
{
    match side {
        Side::Left => InputFormat {
            delimiter: request.left_delimiter,
            nulls: request.left_nulls.as_slice(),
        },
        Side::Right => InputFormat {
            delimiter: request.right_delimiter,
            nulls: request.right_nulls.as_slice(),
        },
    }
}

// The line for a column whose type isn't declared, with the entry that its cells suggest.
fn undeclared_line(alloc: Global, side: Side, found: Option<&str>) -> Result<String, AllocError>
    ensures { IfOk result (λ s. string_bytes s ≡ undeclared_line side (option_map (λ entry. entry.now) found.entry)) }
{
    match found {
        Some(entry) => {
            format!(in alloc; "  declare its type; its cells suggest --{side}-types '{entry}'\n")
        }
        None => format!(in alloc; "  declare its type by --{side}-types\n"),
    }
}

// That line for a column of this name, by what the cells of its file suggest.
fn undeclared_lines(
    alloc: Global,
    side: Side,
    name: &str,
    inputs: &Inputs<'_, '_>,
) -> Result<String, AllocError>
    ensures { IfOk result (λ s. IsUndeclaredTold side name.now inputs.now (string_bytes s)) }
{
    let format = format_of(inputs.request, side);
    let suggestion = match suggest_types(alloc, file_of(inputs, side), &format) {
        Ok(suggestion) => suggestion,
        Err(Fault::Memory) => return Err(AllocError),
        Err(_) => return Ok(String::new(alloc)),
    };
    match str::from_utf8(suggestion.list.as_slice()) {
        Ok(list) => undeclared_line(alloc, side, entry_for(list, name)),
        Err(_) => unreachable!(),
    }
}

// The line for a join that keeps no unmatched rows of a table.
fn unkept_lines(alloc: Global, side: Side) -> Result<String, AllocError>
    ensures { IfOk result (λ text. string_bytes text ≡ unkept_lines side) }
{
    let rows = UnkeptRows { side };
    format!(in alloc; "  {rows}\n")
}

// The lines for the place of an error, with those for further cells if all is asked for.
fn place_lines(
    alloc: Global,
    all: bool,
    fault: &Fault,
    inputs: &Inputs<'_, '_>,
) -> Result<String, AllocError>
    ensures { IfOk result (λ text. IsPlaceExplained all fault.now inputs.now (string_bytes text)) }
{
    let mut lines = explain(alloc, fault, inputs)?;
    if !all {
        return Ok(lines);
    }
    let further = explain_further(alloc, fault, inputs)?;
    lines.push_str(further.as_str())?;
    Ok(lines)
}

// The lines that explain an error of what a line asks for of two tables.
fn lines_of<R: AllocGlobal + Threads + Wait + Clock + Sync>(
    rt: &R,
    line: &Line<'_>,
    fault: &Fault,
    inputs: &Inputs<'_, '_>,
) -> Result<String, AllocError>
    ensures { IfOk result (λ text. IsToldOf line.now fault.now inputs.now (string_bytes text)) }
{
    match fault {
        Fault::Memory => memory_lines(rt, line, inputs),
        Fault::NotAsExpected => violation_lines(rt, inputs),
        Fault::UndeclaredType(side, name) => {
            undeclared_lines(rt.alloc(), *side, name.as_str(), inputs)
        }
        Fault::NoSuchRows(side) => unkept_lines(rt.alloc(), *side),
        _ => place_lines(rt.alloc(), line.explain_all, fault, inputs),
    }
}

/// An error of what a line asks for of two tables, explained.
pub(crate) fn explained<R: AllocGlobal + Threads + Wait + Clock + Sync>(
    rt: &R,
    line: &Line<'_>,
    fault: Fault,
    inputs: &Inputs<'_, '_>,
) -> ExplainedFault
    ensures fault { result.fault ≡ fault }
    ensures lines { IsThere result.lines (IsToldOf line.now fault inputs.now) }
    ensures told { result.is_told ≡ true }
{
    let lines = lines_of(rt, line, &fault, inputs);
    ExplainedFault::new(fault, lines)
}

// Whether the output is a pipe that nobody reads any more, as behind `| head`.
fn has_no_reader(error: &Option<io::Error>) -> bool
    ensures { IsTrue result ↔ IsSomeAnd error.now (λ e. error_kind e ≡ ErrorKind.BrokenPipe) }
{
    match error {
        Some(error) => error.kind() == ErrorKind::BrokenPipe,
        None => false,
    }
}

/// The error of a result that can't be written to this file, or to standard output, explained if
/// that is asked for, with the output's name and the system's words. If whoever reads the output has
/// gone, it isn't told.
pub(crate) fn unwritten(
    alloc: Global,
    file: Option<&str>,
    explain: bool,
    fault: Fault,
    error: &Option<io::Error>,
) -> ExplainedFault
    ensures fault { result.fault ≡ fault }
    ensures unheard { (result.is_told ≡ false) ↔ ((fault ≡ Fault.WriteDevice) × IsSomeAnd error.now (λ e. error_kind e ≡ ErrorKind.BrokenPipe)) }
    ensures told { fault ≢ Fault.WriteDevice → result.is_told ≡ true }
    ensures asked { explain ≡ true → fault ≡ Fault.WriteDevice → result.is_told ≡ true
        → IsThere result.lines (IsSystemLine (unwrap_or (option_map (λ name. name.now) file.entry) (codes "standard output"))) }
    ensures other { fault ≢ Fault.WriteDevice → result.lines ≡ Ok None }
    ensures unasked { explain ≡ false → result.lines ≡ Ok None }
{
    if is_unwritten(&fault) && has_no_reader(error) {
        return ExplainedFault::unheard(fault);
    }
    if !explain || !is_unwritten(&fault) {
        return ExplainedFault::from(fault);
    }
    let name = file.unwrap_or("standard output");
    ExplainedFault::new(fault, told_by_system(alloc, name, error))
}

/// Whether an error is that of a failed write.
pub(crate) fn is_unwritten(fault: &Fault) -> bool
    ensures { IsTrue result ↔ (fault.now ≡ Fault.WriteDevice) }
{
    match fault {
        Fault::WriteDevice => true,
        _ => false,
    }
}

/// The same for an end that may have another error, which then stays as it was.
pub(crate) fn with_write_error(
    alloc: Global,
    line: &Line<'_>,
    e: ExplainedFault,
    error: &Option<io::Error>,
) -> ExplainedFault
    ensures fault { result.fault ≡ e.fault }
    ensures other { e.fault ≢ Fault.WriteDevice → result ≡ e }
    ensures unasked { e.fault ≡ Fault.WriteDevice → line.now.explain ≡ false → result.lines ≡ Ok None }
    ensures asked { line.now.explain ≡ true → e.fault ≡ Fault.WriteDevice → result.is_told ≡ true
        → IsThere result.lines (IsSystemLine (output_name (option_map (λ name. name.now) line.now.output))) }
{
    if !is_unwritten(e.fault()) {
        return e;
    }
    unwritten(alloc, output_of(line), line.explain, e.into_fault(), error)
}
