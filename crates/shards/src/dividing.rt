//! Dividing a range of a file.

ghost use Rattle.std.specs.Prelude.{◌≡◌, ◌⊎◌, ◌<◌, ◌≤◌, ◌^◌, [], All, IfErr, IfOk, IfSome, IsTrue, Ok, OnOk, Some, length, map, string_bytes, true};
ghost use Rattle.rj_columns.specs.Tables.{TableValue};
ghost use Rattle.rj_csv_io.specs.Tables.{is_null_text};
ghost use Rattle.rj_csv_io.specs.Typed.{null_texts};
ghost use Rattle.rj_shards.specs.Divisions.{counts_after, written_null};
ghost use Rattle.rj_shards.specs.Headers.{HaveText};
ghost use Rattle.rj_shards.specs.Texts.{HaveFirstRows, IsDivisionFault, IsTextDivided};
ghost use Rattle.shards.specs.Plans.{HasSideHead, IsDivision, IsOwnFailure, IsRangeFailure, IsToldAfter, has_lawful_nulls, header_table, is_after_rows};
ghost use Rattle.shards.specs.Lines.{operand_of};
ghost use Rattle.shards.specs.Outputs.{IsPrinted, printed_in};
ghost use Rattle.shards.specs.Ranges.{AreAllRows, AreCounted, AreDivided, AreParted, IsOfFolder, IsOfHeader, IsOfPartRows, IsOfParts, IsOfReading, IsOfRows, IsOfWriting, counts_line, division_fault, mixed_shard, place_name, range_begin, range_begun, range_bytes, range_dividing, range_file, range_header, range_reading, unlawful_null};

use crate::failure::Failure;
use crate::head::Head;
use crate::line::{Bounds, Line};
use crate::outputs::{NullSink, OnePart, print_text};
use crate::planning::{empty_table, other_side, plan};
use crate::storage::{Storage, open_range, read_head};
use rj_columns::{ColumnType, Table};
use rj_command::{Strictness, fault_of_text};
use rj_csv_io::strict::Delimiter;
use rj_csv_io::{Input, Output};
use rj_line::fault::{Fault, Side, fault_of_read};
use rj_radix::Mixed;
use rj_shards::division::{
    DivideRefused, Division, Reading, Route, divide, have_lawful_nulls, write_headers,
};
use rj_shards::{ShardRoute, Shards};
use std::alloc::{AllocError, Global};

/// How many bytes of a file are read at once. With the rows in them and the texts that are made of
/// these, the program takes less than 256 MiB, whatever the file's size.
pub(crate) const BLOCK: usize = 8 << 20;

/// The last byte at which a range may begin, 2^62.
const MOST: u64 = 1 << 62;

// The range of a side's file that is divided, under its header. It begins at a byte up to 2^62.
#[derive(Clone, Copy)]
struct Range<'a> {
    line: &'a Line<'a>,
    head: &'a Head,
    own: &'a Table,
    types: &'a [ColumnType],
    nulls: &'a [&'a str],
    delimiter: Delimiter,
    from: u64,
    to: Option<u64>,
}

// The name of the column with the places of a side's rows.
fn place_name(side: Side) -> &'static str
    ensures { result.now ≡ place_name side }
{
    match side {
        Side::Left => "left_place",
        Side::Right => "right_place",
    }
}

// The types of a table's columns.
fn types_of(alloc: Global, table: &Table) -> Result<Vec<ColumnType>, AllocError>
    ensures { IfOk result (λ v. v.items ≡ table.now.types) }
{
    let mut types = Vec::new(alloc);
    for column in 0..table.columns() {
        types.push(table.column_type(column))?;
    }
    Ok(types)
}

/// The error of a side's file that wasn't divided.
pub(crate) fn fault_of_division(side: Side, refused: DivideRefused) -> Fault
    ensures { result ≡ division_fault side refused }
{
    match refused {
        DivideRefused::Read(refused) => fault_of_read(side, refused),
        DivideRefused::TooLong => Fault::TooManyRows(side),
        DivideRefused::ReadDevice => Fault::ReadDevice(side),
        DivideRefused::Broken(fault) => fault_of_text(side, fault),
        DivideRefused::WriteDevice(_) => Fault::WriteDevice,
        DivideRefused::Memory => Fault::Memory,
    }
}

// How a range that begins at this byte is read.
fn reading_of(strict: Strictness, from: u64) -> Reading
    ensures { result ≡ range_reading strict from }
{
    match strict {
        Strictness::Off => Reading::Lenient(from == 0),
        Strictness::On => Reading::Strict(false),
        Strictness::Full => Reading::Strict(true),
    }
}

// The byte from which a range is read.
fn begin_of(range: &Range<'_>) -> u64
    ensures { result ≡ range_begin range.now }
{
    if range.from == 0 {
        range.head.begin
    } else {
        range.from
    }
}

// Divides the bytes that a device tells of a range, as strictly as is asked for. Places count from
// the range's first byte.
fn divide_input<I: Input, W: Route, O: Output>(
    alloc: Global,
    range: &Range<'_>,
    route: &W,
    input: &mut I,
    outputs: &mut [O],
) -> Result<u64, DivideRefused>
    requires types { W.fits route.now range.now.types.now }
    requires outputs { length outputs.old ≡ W.count route.now }
    requires from { range.now.from ≤ 2 ^ 62 }
    requires null { IsTrue (is_null_text (written_null (null_texts range.now.nulls.now))) }
    ensures divided { IfOk result (λ n. IfSome (I.tells input.old) (λ text. IsTextDivided (range_dividing (W.part route.now) range.now)
        (range_reading range.now.line.now.strict range.now.from) text (map O.told outputs.old) (map O.told outputs.new) n)) }
    ensures writes { map O.count outputs.new ≡ counts_after result (map O.count outputs.old) }
    ensures begins { OnOk result ((t : TableValue) × (range_begun range.now ≡ Ok t)) }

    // where the header and the types go together, an error comes for this alone
    ensures fault { IfErr result (λ e. (t : TableValue) → range_begun range.now ≡ Ok t → IfSome (I.tells input.old) (λ text. IsDivisionFault
        (range_dividing (W.part route.now) range.now) BLOCK (range_reading range.now.line.now.strict range.now.from) text (length outputs.old) e)) }

    // and each output but one that failed has its rows among the first ones
    ensures partly { IfErr result (λ e. IfSome (I.tells input.old) (λ text. HaveFirstRows (range_dividing (W.part route.now) range.now)
        (range_reading range.now.line.now.strict range.now.from) text (map O.told outputs.old) (map O.told outputs.new) e)) }
{
    let division = Division {
        delimiter: range.delimiter,
        header: &range.head.header,
        types: range.types,
        nulls: range.nulls,
        route,
        first: range.from,
    };
    let reading = reading_of(range.line.strict, range.from);
    divide(alloc, input, &division, reading, BLOCK, outputs)
}

// Puts each row of a range to the output of its part. The answer is how many rows there are.
fn divide_rows<S: Storage, W: Route, O: Output>(
    alloc: Global,
    storage: &S,
    range: &Range<'_>,
    route: &W,
    outputs: &mut [O],
) -> Result<u64, Failure>
    requires types { W.fits route.now range.now.types.now }
    requires outputs { length outputs.old ≡ W.count route.now }
    requires from { range.now.from ≤ 2 ^ 62 }
    requires null { IsTrue (is_null_text (written_null (null_texts range.now.nulls.now))) }
    requires table { range_begun range.now ≡ Ok range.now.own.now }
    ensures divided { IfOk result (λ n. IfSome (range_file (S.holds storage.now) range.now) (λ text. IsTextDivided (range_dividing (W.part route.now) range.now)
        (range_reading range.now.line.now.strict range.now.from) (range_bytes range.now text) (map O.told outputs.old) (map O.told outputs.new) n)) }
    ensures fault { IfErr result (IsOfPartRows (W.part route.now) (range_file (S.holds storage.now) range.now) range.now (map O.told outputs.old) (map O.told outputs.new)) }

    // outputs that never fail are no reason for an error
    ensures unwritten { ((o : O) → O.count o ≡ 0) → IfErr result (IsOfRows (W.part route.now) (range_file (S.holds storage.now) range.now) range.now 0) }
{
    let side = range.line.side;
    let file = range.line.operand(side).file;
    let mut input = match open_range(storage, file, side, begin_of(range), range.to) {
        Ok(input) => input,
        Err(fault) => return Err(Failure::Told(fault)),
    };
    match divide_input(alloc, range, route, &mut input, outputs) {
        Ok(rows) => Ok(rows),
        Err(refused) => Err(Failure::Told(fault_of_division(side, refused))),
    }
}

// The line that says how many rows a range has, and how many bytes the header of each part has.
fn counts_line(alloc: Global, rows: u64, header: u64) -> Result<String, AllocError>
    ensures { IfOk result (λ s. string_bytes s ≡ counts_line rows header) }
{
    format!(in alloc; "rows {rows} header {header}\n")
}

// Prints this line.
fn print_counts<O: Output>(
    alloc: Global,
    rows: u64,
    header: u64,
    output: &mut O,
) -> Result<(), Failure>
    ensures printed { OnOk result (IsPrinted (printed_in O.told O.count output.old) (printed_in O.told O.count output.new) (counts_line rows header)) }
    ensures fault { IfErr result (IsOfWriting (printed_in O.told O.count output.old) (printed_in O.told O.count output.new)) }
{
    let Ok(text) = counts_line(alloc, rows, header) else {
        return Err(Failure::Told(Fault::Memory));
    };
    print_text(output, text.as_str())
}

// Puts the header of a range's parts to each output. The answer is how many bytes it has.
fn put_headers<O: Output>(
    alloc: Global,
    range: &Range<'_>,
    outputs: &mut [O],
) -> Result<u64, Failure>
    ensures told { OnOk result (HaveText (range_header range.now) (map O.told outputs.old) (map O.told outputs.new)) }
    ensures size { IfOk result (λ n. n ≡ length (range_header range.now)) }
    ensures fault { IfErr result (IsOfHeader range.now (map O.told outputs.old) (map O.told outputs.new)) }
{
    let side = range.line.side;
    match write_headers(alloc, range.own, place_name(side), outputs) {
        Ok(header) => Ok(header),
        Err(refused) => Err(Failure::Told(fault_of_division(side, refused))),
    }
}

// Puts the header of a range's parts to each output, and then each row to the output of its part.
// The answer is how many rows there are, and how many bytes the header has.
fn fill_parts<S: Storage, W: Route, O: Output>(
    alloc: Global,
    storage: &S,
    range: &Range<'_>,
    route: &W,
    outputs: &mut [O],
) -> Result<(u64, u64), Failure>
    requires types { W.fits route.now range.now.types.now }
    requires outputs { length outputs.old ≡ W.count route.now }
    requires from { range.now.from ≤ 2 ^ 62 }
    requires null { IsTrue (is_null_text (written_null (null_texts range.now.nulls.now))) }
    requires table { range_begun range.now ≡ Ok range.now.own.now }
    ensures parted { IfOk result (λ p. All (λ o. O.told o ≡ Some []) outputs.old
        → AreParted (range_file (S.holds storage.now) range.now) (W.part route.now) range.now (map O.told outputs.new) p.0) }
    ensures counted { IfOk result (λ p. AreAllRows (range_file (S.holds storage.now) range.now) range.now p.0) }
    ensures header { IfOk result (λ p. p.1 ≡ length (range_header range.now)) }
    ensures fault { IfErr result (IsOfParts (W.part route.now) (range_file (S.holds storage.now) range.now) range.now (map O.told outputs.old) (map O.told outputs.new)) }
{
    let header = match put_headers(alloc, range, outputs) {
        Ok(header) => header,
        Err(failure) => return Err(failure),
    };
    match divide_rows(alloc, storage, range, route, outputs) {
        Ok(rows) => Ok((rows, header)),
        Err(failure) => Err(failure),
    }
}

// Divides a range among the parts of a folder, and prints how many rows it has. The answer is
// whether all this was done, and the parts, which are none if they couldn't be made.
fn divide_among_parts<S: Storage, O: Output>(
    alloc: Global,
    storage: &S,
    range: &Range<'_>,
    plan: &(Shards, Vec<usize>),
    folder: &str,
    output: &mut O,
) -> (Result<(), Failure>, Vec<S::Part>)
    requires keys { All (λ c. c < length range.now.types.now) plan.now.1.items }
    requires from { range.now.from ≤ 2 ^ 62 }
    requires null { IsTrue (is_null_text (written_null (null_texts range.now.nulls.now))) }
    requires table { range_begun range.now ≡ Ok range.now.own.now }
    ensures count { OnOk result.0 (length result.1.items ≡ plan.now.0.parts) }
    ensures divided { OnOk result.0 (AreDivided (S.tells_parts storage.now folder.now) (range_file (S.holds storage.now) range.now) (mixed_shard plan.now.0.parts plan.now.1.items) range.now
        (map S.Part.told result.1.items) (printed_in O.told O.count output.old) (printed_in O.told O.count output.new)) }
    ensures fault { IfErr result.0 (IsOfFolder (S.tells_parts storage.now folder.now) (range_file (S.holds storage.now) range.now) (mixed_shard plan.now.0.parts plan.now.1.items) range.now
        plan.now.0.parts (map S.Part.told result.1.items) (printed_in O.told O.count output.old) (printed_in O.told O.count output.new)) }
{
    let (shards, columns) = plan;
    let route = ShardRoute {
        shards: *shards,
        columns: columns.as_slice(),
        hash: &Mixed,
    };
    let Ok(mut parts) = storage.parts(folder, shards.parts) else {
        return (Err(Failure::Told(Fault::Memory)), Vec::new(alloc));
    };
    match fill_parts(alloc, storage, range, &route, parts.as_mut_slice()) {
        Ok(counts) => {
            let printed = print_counts(alloc, counts.0, counts.1, output);
            (printed, parts)
        }
        Err(failure) => (Err(failure), parts),
    }
}

// Reads a range's rows though they can't be divided, because of a failure. The answer is the first
// error of theirs, or else this failure.
fn look_at_rows<S: Storage, O: Output>(
    alloc: Global,
    storage: &S,
    range: &Range<'_>,
    failure: Failure,
    output: &mut O,
) -> Failure
    requires from { range.now.from ≤ 2 ^ 62 }
    requires null { IsTrue (is_null_text (written_null (null_texts range.now.nulls.now))) }
    requires table { range_begun range.now ≡ Ok range.now.own.now }
    ensures { ((result ≡ failure) × AreCounted (range_file (S.holds storage.now) range.now) range.now (printed_in O.told O.count output.old) (printed_in O.told O.count output.new))
        ⊎ IsOfReading (range_file (S.holds storage.now) range.now) range.now (printed_in O.told O.count output.old) (printed_in O.told O.count output.new) result }
{
    let mut sink = [NullSink];
    match divide_rows(alloc, storage, range, &OnePart, sink.as_mut_slice()) {
        Ok(rows) => match print_counts(alloc, rows, 0, output) {
            Ok(()) => failure,
            Err(failed) => failed,
        },
        Err(failed) => failed,
    }
}

// Whether a failure is reported only after the rows were read: all but that there is no key, and
// that memory ran out.
fn is_after_rows(failure: &Failure) -> bool
    ensures { result ≡ is_after_rows failure.now }
{
    match failure {
        Failure::NoKey | Failure::Told(Fault::Memory) => false,
        _ => true,
    }
}

// The failure of a range whose keys aren't known because of this failure: that of its rows, if they
// are to be read before.
fn failure_of_range<S: Storage, O: Output>(
    alloc: Global,
    storage: &S,
    range: &Range<'_>,
    failure: Failure,
    output: &mut O,
) -> Failure
    requires from { range.now.from ≤ 2 ^ 62 }
    requires null { IsTrue (is_null_text (written_null (null_texts range.now.nulls.now))) }
    requires table { range_begun range.now ≡ Ok range.now.own.now }
    ensures { ((result ≡ failure) × IsToldAfter (range_file (S.holds storage.now) range.now) range.now (printed_in O.told O.count output.old) (printed_in O.told O.count output.new) failure)
        ⊎ IsOfReading (range_file (S.holds storage.now) range.now) range.now (printed_in O.told O.count output.old) (printed_in O.told O.count output.new) result }
{
    if !is_after_rows(&failure) {
        return failure;
    }
    look_at_rows(alloc, storage, range, failure, output)
}

// The failure of an invalid NULL text, unless the file can't be read at all.
fn unlawful_null(head: Result<Head, Fault>) -> Failure
    ensures { result ≡ unlawful_null head }
{
    match head {
        Err(Fault::ReadDevice(side)) => Failure::Told(Fault::ReadDevice(side)),
        Err(Fault::Memory) => Failure::Told(Fault::Memory),
        _ => Failure::Told(Fault::BadNull),
    }
}

// What is read of the side's file before its rows: the header, the table without rows that it
// begins, and the types of that.
fn read_own<S: Storage>(
    alloc: Global,
    storage: &S,
    line: &Line<'_>,
) -> Result<(Head, Table, Vec<ColumnType>), Failure>
    ensures lawful { OnOk result (has_lawful_nulls line.now ≡ true) }
    ensures head { IfOk result (λ p. HasSideHead (S.holds storage.now) line.now line.now.side p.0) }
    ensures table { IfOk result (λ p. header_table p.0 (operand_of line.now line.now.side) ≡ Ok p.1) }
    ensures types { IfOk result (λ p. p.2.items ≡ p.1.types) }
    ensures failure { IfErr result (IsOwnFailure (S.holds storage.now) line.now) }
{
    let own = line.operand(line.side);
    let other = line.operand(other_side(line.side));
    let head = read_head(
        alloc,
        storage,
        own.file,
        line.side,
        own.delimiter,
        line.strict,
    );
    let nulls = own.nulls.as_slice();
    if !have_lawful_nulls(nulls, other.nulls.as_slice()) {
        return Err(unlawful_null(head));
    }
    let head = head?;
    let table = empty_table(alloc, &head, own, line.side)?;
    let types = types_of(alloc, &table)?;
    Ok((head, table, types))
}

/// Divides the bytes of a side's file between two places among the parts of a folder, and prints
/// how many rows they have. The answer is whether all this was done, and the parts, which are none
/// if they weren't made.
///
/// # Errors
///
/// `BadNull`; the first error of the side's file; then one of the other file's header, or of the
/// clause, after the rows were read all the same. Parts that were made have the header then, and
/// their rows among the first ones, but for one that failed.
pub(crate) fn divide_range<S: Storage, O: Output>(
    alloc: Global,
    storage: &S,
    line: &Line<'_>,
    bounds: Bounds,
    folder: &str,
    output: &mut O,
) -> (Result<(), Failure>, Vec<S::Part>)
    ensures division { OnOk result.0 (IsDivision (S.holds storage.now) (S.tells_parts storage.now folder.now) line.now bounds (map S.Part.told result.1.items) (printed_in O.told O.count output.old) (printed_in O.told O.count output.new)) }
    ensures failure { IfErr result.0 (IsRangeFailure (S.holds storage.now) (S.tells_parts storage.now folder.now) line.now bounds (map S.Part.told result.1.items)
        (printed_in O.told O.count output.old) (printed_in O.told O.count output.new)) }
{
    let (head, table, kinds) = match read_own(alloc, storage, line) {
        Ok(own) => own,
        Err(failure) => return (Err(failure), Vec::new(alloc)),
    };
    let own = line.operand(line.side);
    let types = kinds.as_slice();
    let nulls = own.nulls.as_slice();
    let from = bounds.from.min(MOST);
    let range = Range {
        line,
        head: &head,
        own: &table,
        types,
        nulls,
        delimiter: own.delimiter,
        from,
        to: bounds.to,
    };
    match plan(alloc, storage, line, &table) {
        Ok(plan) => divide_among_parts(alloc, storage, &range, &plan, folder, output),
        Err(failure) => {
            let failure = failure_of_range(alloc, storage, &range, failure, output);
            (Err(failure), Vec::new(alloc))
        }
    }
}
