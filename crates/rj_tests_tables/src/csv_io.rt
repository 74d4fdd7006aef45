//! What is read from files, how many texts and parts are made of rows, and that calls succeed with
//! ample memory. A helper answers the place of the first case with another result, counted from 0.

mod devices;

ghost use Rattle.std.specs.Prelude.{IsTrue};
ghost use Rattle.rj_csv_io.specs.Tables.{is_null_text};

use rj_columns::{ColumnType, NumericType, Table};
use rj_csv_io::strict::Delimiter;
use rj_csv_io::{
    CountedWriter, Failed, Header, InputFormat, Output, OutputFormat, ReadRefused, first_ambiguous,
    is_lawful_null, read_table, read_table_in_parts, texts_of_rows, write_more_rows, write_rows,
    write_rows_in_parts, write_texts,
};
use std::alloc::{AllocError, Global};
use std::test::Fail;
use std::thread::Threads;

const INT: ColumnType = ColumnType::Int;

const TEXT: ColumnType = ColumnType::Text;

const SHORT: ColumnType = ColumnType::Num(NumericType {
    precision: 4,
    scale: 1,
});

// How a file is read that has commas, and in which these texts stand for NULL.
pub(crate) fn by_comma<'a>(nulls: &'a [&'a str]) -> InputFormat<'a> {
    InputFormat {
        delimiter: Delimiter::comma(),
        nulls,
    }
}

// How rows are written with this delimiter, and NULL as no bytes.
pub(crate) fn with_delimiter(delimiter: Delimiter) -> OutputFormat<'static>
    ensures { IsTrue (is_null_text result.null.now) }
{
    OutputFormat {
        delimiter,
        null: "",
    }
}

// The same with commas.
pub(crate) fn with_comma() -> OutputFormat<'static>
    ensures { IsTrue (is_null_text result.null.now) }
{
    with_delimiter(Delimiter::comma())
}

// The rows of a file as they are written, without the header, or the file's error.
type Reading<'a> = Result<&'a [u8], ReadRefused>;

// Whether a table's rows are written as these.
fn has_rows(alloc: Global, table: &Table, want: &[u8]) -> bool {
    let mut output = CountedWriter::new(Vec::new(alloc));
    match write_more_rows(alloc, &mut output, table, &with_comma()) {
        Ok(()) => output.into_inner().as_slice() == want,
        Err(_) => false,
    }
}

fn reads_as(alloc: Global, file: &[u8], want: Reading<'_>) -> bool {
    match read_table(alloc, file, &[INT, TEXT], &by_comma(&[""])) {
        Ok(table) => match want {
            Ok(want) => has_rows(alloc, &table, want),
            Err(_) => false,
        },
        Err(e) => want == Err(e),
    }
}

const MARKED: &[u8] = b"\xEF\xBB\xBFid,t\r\n1,\"a,b\"\r\n2,\"say \"\"hi\"\"\"\r\n";

// What each beginning of the marked file reads as, from the one without a byte on.
const BEGINNINGS: [Reading<'static>; 35] = [
    Err(ReadRefused::NoHeader),
    Err(ReadRefused::BadName(1)),
    Err(ReadRefused::BadName(1)),
    Err(ReadRefused::NoHeader),
    Err(ReadRefused::TypeCount),
    Err(ReadRefused::TypeCount),
    Err(ReadRefused::BadName(2)),
    Ok(b""),
    Ok(b""),
    Ok(b""),
    Err(ReadRefused::RaggedRow(1)),
    Ok(b"1,\n"),
    Ok(b"1,\n"),
    Ok(b"1,a\n"),
    Ok(b"1,\"a,\"\n"),
    Ok(b"1,\"a,b\"\n"),
    Ok(b"1,\"a,b\"\n"),
    Ok(b"1,\"a,b\"\n"),
    Ok(b"1,\"a,b\"\n"),
    Err(ReadRefused::RaggedRow(2)),
    Ok(b"1,\"a,b\"\n2,\n"),
    Ok(b"1,\"a,b\"\n2,\n"),
    Ok(b"1,\"a,b\"\n2,s\n"),
    Ok(b"1,\"a,b\"\n2,sa\n"),
    Ok(b"1,\"a,b\"\n2,say\n"),
    Ok(b"1,\"a,b\"\n2,say \n"),
    Ok(b"1,\"a,b\"\n2,say \n"),
    Ok(b"1,\"a,b\"\n2,\"say \"\"\"\n"),
    Ok(b"1,\"a,b\"\n2,\"say \"\"h\"\n"),
    Ok(b"1,\"a,b\"\n2,\"say \"\"hi\"\n"),
    Ok(b"1,\"a,b\"\n2,\"say \"\"hi\"\n"),
    Ok(b"1,\"a,b\"\n2,\"say \"\"hi\"\"\"\n"),
    Ok(b"1,\"a,b\"\n2,\"say \"\"hi\"\"\"\n"),
    Ok(b"1,\"a,b\"\n2,\"say \"\"hi\"\"\"\n"),
    Ok(b"1,\"a,b\"\n2,\"say \"\"hi\"\"\"\n"),
];

// How many bytes the first beginning has that reads otherwise.
fn wrong_beginning(alloc: Global, cases: &[Reading<'_>]) -> Option<usize> {
    for (size, want) in cases.iter().enumerate() {
        if size > MARKED.len() || !reads_as(alloc, &MARKED[..size], *want) {
            return Some(size);
        }
    }
    None
}

#[test]
fn beginnings(rt: HostRuntime) {
    assert_eq!(rt; wrong_beginning(rt.alloc(), BEGINNINGS.as_slice()), None);
}

// Files of a column of whole numbers and one of numbers with a digit after the point, and the
// column of the cell that is no such number: incomplete numbers, a sign or a point too many,
// blanks, and numbers out of range.
const NO_NUMBERS: [(&[u8], u64); 15] = [
    (b"i,s\n-9223372036854775809,\n", 1),
    (b"i,s\n+,\n", 1),
    (b"i,s\n-,\n", 1),
    (b"i,s\n 1,\n", 1),
    (b"i,s\n1 ,\n", 1),
    (b"i,s\n1.0,\n", 1),
    (b"i,s\n+-1,\n", 1),
    (b"i,s\n0x1,\n", 1),
    (b"i,s\n,-1000\n", 2),
    (b"i,s\n,+\n", 2),
    (b"i,s\n,-\n", 2),
    (b"i,s\n,1.0.0\n", 2),
    (b"i,s\n,+-1\n", 2),
    (b"i,s\n, 1\n", 2),
    (b"i,s\n,1 \n", 2),
];

fn is_no_number(alloc: Global, file: &[u8], column: u64) -> bool {
    match read_table(alloc, file, &[INT, SHORT], &by_comma(&[""])) {
        Ok(_) => false,
        Err(e) => e == ReadRefused::BadInteger(1, column),
    }
}

fn wrong_number(alloc: Global, cases: &[(&[u8], u64)]) -> Option<usize> {
    for (place, case) in cases.iter().enumerate() {
        if !is_no_number(alloc, case.0, case.1) {
            return Some(place);
        }
    }
    None
}

#[test]
fn no_numbers(rt: HostRuntime) {
    assert_eq!(rt; wrong_number(rt.alloc(), NO_NUMBERS.as_slice()), None);
}

// A head, bytes that are repeated after it, how often they are, and a tail; and how many rows that reads as in parts, or its
// error. A part has at least 262,144 bytes.
type PartsCase<'a> = (
    &'a [u8],
    &'a [u8],
    usize,
    &'a [u8],
    Result<u64, ReadRefused>,
);

const IN_PARTS: [PartsCase<'static>; 6] = [
    (b"k,v\n", b"1,\"a\nb\"\n2,\"\n\"\n", 40_000, b"", Ok(80_000)),
    (b"k,v\n1,\"no end\n", b"2,b\n", 150_000, b"", Ok(1)),
    (b"k,v\n1,", b"a long text ", 50_000, b"\n", Ok(1)),
    (b"", b"\n", 600_000, b"k,v\n1,a\n", Ok(1)),
    (
        b"k,v\n",
        b"1,a\n",
        150_000,
        b"6\n",
        Err(ReadRefused::RaggedRow(150_001)),
    ),
    (b"", b"\n", 600_000, b"", Err(ReadRefused::NoHeader)),
];

// A text of a head, of the same bytes this many times, and of a tail.
pub(crate) fn repeated(
    alloc: Global,
    head: &[u8],
    again: &[u8],
    times: usize,
    tail: &[u8],
) -> Result<Vec<u8>, AllocError> {
    let mut text = Vec::from_slice(alloc, head)?;
    for _ in 0..times {
        text.extend_from_slice(again)?;
    }
    text.extend_from_slice(tail)?;
    Ok(text)
}

// How many rows a text has that is read in two parts, or its error.
fn rows_in_parts<R: Threads + Sync>(
    rt: &R,
    alloc: Global,
    text: &[u8],
) -> Result<u64, ReadRefused> {
    match read_table_in_parts(rt, alloc, text, &[INT, TEXT], &by_comma(&[""]), 2) {
        Ok(table) => Ok(table.rows()),
        Err(e) => Err(e),
    }
}

fn wrong_in_parts<R: Threads + Sync>(
    rt: &R,
    alloc: Global,
    cases: &[PartsCase<'_>],
) -> Result<Option<usize>, AllocError> {
    for (place, case) in cases.iter().enumerate() {
        let (head, again, times, tail, want) = *case;
        let text = repeated(alloc, head, again, times, tail)?;
        if rows_in_parts(rt, alloc, &text) != want {
            return Ok(Some(place));
        }
    }
    Ok(None)
}

// That memory isn't reported to be short, whatever is at the cut.
#[test]
fn texts_in_two_parts(rt: HostRuntime) -> Result<(), Fail> {
    assert_eq!(rt; wrong_in_parts(&rt, rt.alloc(), IN_PARTS.as_slice())?, None);
    Ok(())
}

// A device that takes everything, and counts the calls.
#[derive(Drop)]
struct Calls {
    calls: u64,
}

impl Output for Calls {
    ghost count = { λ _. 0 };

    fn put(&mut self, _bytes: &[u8]) -> Result<(), Failed> {
        self.calls = self.calls.saturating_add(1);
        Ok(())
    }

    fn failures(&self) -> u64 {
        0
    }
}

// A table of this many rows.
fn sevens(alloc: Global, rows: usize) -> Option<Table> {
    let Ok(file) = repeated(alloc, b"k\n", b"7\n", rows, b"") else {
        return None;
    };
    match read_table(alloc, &file, &[INT], &by_comma(&[""])) {
        Ok(table) => Some(table),
        Err(_) => None,
    }
}

// The calls that write a table in at most this many parts.
fn calls_in_parts<R: Threads + Sync>(
    rt: &R,
    alloc: Global,
    table: &Table,
    parts: usize,
) -> Option<u64> {
    if table.columns() != 1 {
        return None;
    }
    let format = with_comma();
    let mut device = Calls { calls: 0 };
    match write_rows_in_parts(rt, alloc, &mut device, &["k"], table, &format, parts) {
        Ok(()) => Some(device.calls),
        Err(_) => None,
    }
}

// The calls that write a header and the texts of a table's rows.
fn calls_of_texts(alloc: Global, table: &Table) -> Option<u64> {
    let Ok(texts) = texts_of_rows(alloc, table, &with_comma()) else {
        return None;
    };
    let mut device = Calls { calls: 0 };
    match write_texts(
        alloc,
        &mut device,
        &["k"],
        texts.as_slice(),
        Delimiter::comma(),
    ) {
        Ok(()) => Some(device.calls),
        Err(_) => None,
    }
}

// Rows, parts, and the calls that write them so; and the calls if their texts are made first, in
// one part: one for the header, and one for each text of up to 4,096 rows of a part. A part has at
// least 4,096 rows.
type CallsCase = (usize, usize, u64, u64);

const CALLS: [CallsCase; 9] = [
    (0, 4, 1 + 1, 1 + 1),
    (3, 7, 1 + 1, 1 + 1),
    (4_096, 0, 1 + 1, 1 + 1),
    (4_097, 0, 1 + 2, 1 + 2),
    (8_191, 4, 1 + 2, 1 + 2),
    (8_192, 4, 1 + 2, 1 + 2),
    (12_288, 7, 1 + 3, 1 + 3),
    (16_384, 0, 1 + 4, 1 + 4),
    (60_000, 4, 1 + 16, 1 + 15),
];

fn takes_calls<R: Threads + Sync>(rt: &R, alloc: Global, case: CallsCase) -> bool {
    let (rows, parts, calls, calls_of_one) = case;
    match sevens(alloc, rows) {
        Some(table) => {
            calls_in_parts(rt, alloc, &table, parts) == Some(calls)
                && calls_of_texts(alloc, &table) == Some(calls_of_one)
        }
        None => false,
    }
}

fn wrong_calls<R: Threads + Sync>(rt: &R, alloc: Global, cases: &[CallsCase]) -> Option<usize> {
    for (place, case) in cases.iter().enumerate() {
        if !takes_calls(rt, alloc, *case) {
            return Some(place);
        }
    }
    None
}

#[test]
fn few_rows_take_few_parts(rt: HostRuntime) {
    assert_eq!(rt; wrong_calls(&rt, rt.alloc(), CALLS.as_slice()), None);
}

// What is written of a table of one column.
fn text_of(alloc: Global, table: &Table) -> Option<Vec<u8>> {
    if table.columns() != 1 {
        return None;
    }
    let mut output = CountedWriter::new(Vec::new(alloc));
    match write_rows(alloc, &mut output, &["a\"b"], table, &with_comma()) {
        Ok(()) => Some(output.into_inner()),
        Err(_) => None,
    }
}

// The first cell of a table that would be read as NULL.
fn cell_like_null(alloc: Global, table: &Table) -> Result<Option<(u64, u64)>, AllocError> {
    if !is_lawful_null("-") {
        return Ok(None);
    }
    first_ambiguous(alloc, table, "-")
}

const QUOTED: &[u8] = b"t\n\"a\rb\"\n\"a\nb\"\n'\n a \n-\n\"\"\n";

const WRITTEN: &[u8] = b"\"a\"\"b\"\n\"a\rb\"\n\"a\nb\"\n'\n a \n-\n\"\"\n";

fn is_written(alloc: Global, table: &Table) -> bool {
    match text_of(alloc, table) {
        Some(text) => text.as_slice() == WRITTEN,
        None => false,
    }
}

fn is_read_and_written(alloc: Global) -> bool {
    match read_table(alloc, QUOTED, &[TEXT], &by_comma(&[""])) {
        Ok(table) => {
            is_written(alloc, &table) && cell_like_null(alloc, &table) == Ok(Some((5, 1)))
        }
        Err(_) => false,
    }
}

// Fields that are quoted, and fields that need no quotes.
#[test]
fn texts_are_written(rt: HostRuntime) {
    assert!(rt; is_read_and_written(rt.alloc()));
}

// How many rows a piece has after a header of two names.
fn rows_of_piece(alloc: Global, header: &Header, piece: &[u8]) -> Option<u64> {
    match header.read_piece(alloc, piece, false, &[INT, TEXT], &by_comma(&[""])) {
        Ok(table) => Some(table.rows()),
        Err(_) => None,
    }
}

fn has_names(alloc: Global, header: &Header) -> bool {
    match header.names(alloc) {
        Ok(names) => names.len() == 2,
        Err(_) => false,
    }
}

fn is_piece_read(alloc: Global, start: &[u8], piece: &[u8], rows: u64) -> bool {
    match Header::of(alloc, start, Delimiter::comma()) {
        Ok(Some(header)) => {
            has_names(alloc, &header) && rows_of_piece(alloc, &header, piece) == Some(rows)
        }
        _ => false,
    }
}

#[test]
fn pieces_are_read(rt: HostRuntime) {
    assert!(rt; is_piece_read(rt.alloc(), b"k,v\n1,a\n", b"2,\"b\nc\"\n3,\n", 2));
}

// What is written of a table of two columns with this delimiter.
fn text_with(alloc: Global, table: &Table, delimiter: Delimiter) -> Option<Vec<u8>> {
    if table.columns() != 2 {
        return None;
    }
    let format = with_delimiter(delimiter);
    let mut output = CountedWriter::new(Vec::new(alloc));
    match write_rows(alloc, &mut output, &["k", "a;b"], table, &format) {
        Ok(()) => Some(output.into_inner()),
        Err(_) => None,
    }
}

// Whether a file that is read and written with this delimiter becomes another one.
fn becomes(alloc: Global, file: &[u8], delimiter: Delimiter, want: &[u8]) -> bool {
    let format = InputFormat {
        delimiter,
        nulls: &[""],
    };
    match read_table(alloc, file, &[INT, TEXT], &format) {
        Ok(table) => match text_with(alloc, &table, delimiter) {
            Some(text) => text.as_slice() == want,
            None => false,
        },
        Err(_) => false,
    }
}

// A delimiter, a file with it, and what is written of the file.
type DelimitedCase<'a> = (u8, &'a [u8], &'a [u8]);

const DELIMITED: [DelimitedCase<'static>; 2] = [
    (
        b';',
        b"k;\"a;b\"\r\n1;\"x;y\"\r\n2;x,y\r\n;",
        b"k;\"a;b\"\n1;\"x;y\"\n2;x,y\n;\n",
    ),
    (
        b'\t',
        b"\xEF\xBB\xBFk\ta;b\n\n1\t\"x\ty\"\n2\tx,y;z",
        b"k\ta;b\n1\t\"x\ty\"\n2\tx,y;z\n",
    ),
];

// Whether what is written of the file is this, and reads back as the same.
fn is_delimited(alloc: Global, case: DelimitedCase<'_>) -> bool {
    let (byte, file, want) = case;
    match Delimiter::of(byte) {
        Some(delimiter) => {
            delimiter.byte() == byte
                && becomes(alloc, file, delimiter, want)
                && becomes(alloc, want, delimiter, want)
        }
        None => false,
    }
}

fn wrong_delimited(alloc: Global, cases: &[DelimitedCase<'_>]) -> Option<usize> {
    for (place, case) in cases.iter().enumerate() {
        if !is_delimited(alloc, *case) {
            return Some(place);
        }
    }
    None
}

#[test]
fn other_delimiters(rt: HostRuntime) {
    assert_eq!(rt; wrong_delimited(rt.alloc(), DELIMITED.as_slice()), None);
}
