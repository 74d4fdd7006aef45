//! Opening the texts that are merged.

ghost use Rattle.std.specs.Prelude.{◌≡◌, ◌<◌, ◌^◌, ◌∷◌, [], true, false, List, ℕ, None, Some, All, Contains, IfOk, IfErr, map, vec_len};
ghost use Rattle.csv.specs.Records.{fields_of};
ghost use Rattle.rj_csv_io.specs.Cuts.{records_in};
ghost use Rattle.rj_csv_io.specs.Remaining.{IsBetween, records_remaining};
ghost use Rattle.rj_csv_io.specs.Grammar.{comma};
ghost use Rattle.rj_shards.specs.MergeHeaders.{place_columns};
ghost use Rattle.rj_shards.specs.Inputs.{ForTexts, copies_of, faults_of_readings, first_header, first_record, header_fault, header_fault_of, input_reading, input_tells, is_input, own_copies, own_number, reading_of, readings};
ghost use Rattle.rj_shards.specs.Sources.{TellsAmong, TellsOf, is_outside};

use crate::merge::copies::MergeInput;
use crate::merge::header::{SharedHeader, are_same, columns_of};
use crate::merge::input::{TextSource, next_record};
use crate::merge::options::MergeOptions;
use crate::merge::refused::MergeRefused;
use csv::{ByteRecord, Reader};
use rj_csv_io::open_reader;
use rj_csv_io::strict::Delimiter;
use std::alloc::Global;
use std::io::Read;

// A text whose header was read.
#[derive(Drop)]
struct Begun<R: Read + Drop> {
    header: ByteRecord,
    reader: Box<Reader<R>>,
}

// Reads the header of a text.
fn begin<R: Read + Drop>(alloc: Global, input: u32, source: R) -> Result<Begun<R>, MergeRefused>
    ensures header { IfOk result (λ b. (text : List ℕ) → R.remaining source ≡ Some text
        → IsBetween R.remaining b.reader.value × (records_in comma text ≡ fields_of b.header ∷ records_remaining R.remaining b.reader.value)) }
    ensures fault { IfErr result (λ e. is_outside e ≡ false → (text : List ℕ) → R.remaining source ≡ Some text
        → (e ≡ MergeRefused.NoHeader input) × (records_in comma text ≡ [])) }
    ensures input { IfErr result (TellsOf input) }
{
    let mut reader = open_reader(alloc, source, Delimiter::comma());
    let mut header = ByteRecord::new(alloc);
    match next_record(input, &mut reader, &mut header) {
        Ok(true) => {}
        Ok(false) => return Err(MergeRefused::NoHeader(input)),
        Err(e) => return Err(e),
    }
    match Box::new(alloc, reader) {
        Ok(reader) => Ok(Begun { header, reader }),
        Err(_) => Err(MergeRefused::Memory),
    }
}

// An input, and the header that each further one needs.
#[derive(Drop)]
struct First<'n, R: Read + Drop> {
    header: SharedHeader,
    source: TextSource<'n, R>,
}

// Opens the first input.
fn open_first<'n, R: Read + Drop>(
    alloc: Global,
    first: MergeInput<R>,
    how: &'n MergeOptions<'n>,
) -> Result<First<'n, R>, MergeRefused>
    ensures copies { IfOk result (λ f. f.source.copies ≡ first.copies) }
    ensures places { IfOk result (λ f. place_columns (fields_of f.header.names) ≡ Some f.header.columns) }
    ensures header { IfOk result (λ f. (text : List ℕ) → R.remaining first.reader ≡ Some text
        → fields_of f.header.names ≡ first_record (records_in comma text)) }
    ensures input { IfOk result (λ f. (text : List ℕ) → R.remaining first.reader ≡ Some text → input_tells R.remaining f.source
        × (input_reading R.remaining f.source ≡ reading_of how.now (first_record (records_in comma text)) 1 text)) }
    ensures fault { IfErr result (λ e. is_outside e ≡ false → (text : List ℕ) → R.remaining first.reader ≡ Some text
        → (reading_of how.now (first_record (records_in comma text)) 1 text).fault ≡ Some e) }
    ensures headed { IfOk result (λ _. (text : List ℕ) → R.remaining first.reader ≡ Some text
        → header_fault_of (first_record (records_in comma text)) 1 text ≡ None) }
    ensures unheaded { IfErr result (λ e. is_outside e ≡ false → (text : List ℕ) → R.remaining first.reader ≡ Some text
        → header_fault_of (first_record (records_in comma text)) 1 text ≡ Some e) }
    ensures number { IfOk result (λ f. f.source.input ≡ 1) }
    ensures told { IfErr result (TellsOf 1) }
{
    let MergeInput {
        reader: text,
        copies,
    } = first;
    let Begun { header, reader } = match begin(alloc, 1, text) {
        Ok(begun) => begun,
        Err(e) => return Err(e),
    };
    let Some(columns) = columns_of(&header) else {
        return Err(MergeRefused::NoPlaces(1));
    };
    let header = SharedHeader {
        names: header,
        columns,
    };
    let source = TextSource::new(alloc, reader, columns, how, 1, copies);
    Ok(First { header, source })
}

// Opens a further input, which needs this header.
fn open_next<'n, R: Read + Drop>(
    alloc: Global,
    input: u32,
    next: MergeInput<R>,
    first: &SharedHeader,
    how: &'n MergeOptions<'n>,
) -> Result<TextSource<'n, R>, MergeRefused>
    requires { place_columns (fields_of first.now.names) ≡ Some first.now.columns }
    ensures copies { IfOk result (λ s. s.copies ≡ next.copies) }
    ensures input { IfOk result (λ s. (text : List ℕ) → R.remaining next.reader ≡ Some text → input_tells R.remaining s
        × (input_reading R.remaining s ≡ reading_of how.now (fields_of first.now.names) input text)) }
    ensures fault { IfErr result (λ e. is_outside e ≡ false → (text : List ℕ) → R.remaining next.reader ≡ Some text
        → (reading_of how.now (fields_of first.now.names) input text).fault ≡ Some e) }
    ensures headed { IfOk result (λ _. (text : List ℕ) → R.remaining next.reader ≡ Some text
        → header_fault_of (fields_of first.now.names) input text ≡ None) }
    ensures unheaded { IfErr result (λ e. is_outside e ≡ false → (text : List ℕ) → R.remaining next.reader ≡ Some text
        → header_fault_of (fields_of first.now.names) input text ≡ Some e) }
    ensures number { IfOk result (λ s. s.input ≡ input) }
    ensures told { IfErr result (TellsOf input) }
{
    let MergeInput {
        reader: text,
        copies,
    } = next;
    let Begun { header, reader } = match begin(alloc, input, text) {
        Ok(begun) => begun,
        Err(e) => return Err(e),
    };
    if !are_same(&header, &first.names) {
        return Err(MergeRefused::OtherHeader(input));
    }
    Ok(TextSource::new(alloc, reader, first.columns, how, input, copies))
}

/// Inputs whose headers were read, and the header that all of them have.
#[derive(Drop)]
pub(crate) struct Opened<'n, R: Read + Drop> {
    pub(crate) header: SharedHeader,
    pub(crate) sources: Vec<TextSource<'n, R>>,
}

/// Opens all inputs, in order.
///
/// # Errors
///
/// The first error of a header. `Memory` and `ReadDevice` come only from the machine.
pub(crate) fn open_all<'n, R: Read + Drop>(
    alloc: Global,
    inputs: Vec<MergeInput<R>>,
    how: &'n MergeOptions<'n>,
) -> Result<Opened<'n, R>, MergeRefused>
    requires some { 0 < vec_len inputs }
    requires count { vec_len inputs < 2 ^ 32 }
    ensures places { IfOk result (λ o. place_columns (fields_of o.header.names) ≡ Some o.header.columns) }
    ensures header { IfOk result (λ o. ForTexts R.remaining inputs.items (λ texts. fields_of o.header.names ≡ first_header texts)) }
    ensures copies { IfOk result (λ o. map own_copies o.sources.items ≡ copies_of inputs.items) }
    ensures tells { IfOk result (λ o. ForTexts R.remaining inputs.items (λ _. All (input_tells R.remaining) o.sources.items)) }
    ensures readings { IfOk result (λ o. ForTexts R.remaining inputs.items (λ texts. readings how.now texts ≡ map (input_reading R.remaining) o.sources.items)) }
    ensures fault { IfErr result (λ e. is_outside e ≡ false
        → ForTexts R.remaining inputs.items (λ texts. Contains (faults_of_readings (readings how.now texts)) e)) }
    ensures headers { IfOk result (λ _. ForTexts R.remaining inputs.items (λ texts. header_fault texts ≡ None)) }
    ensures first { IfErr result (λ e. is_outside e ≡ false → ForTexts R.remaining inputs.items (λ texts. header_fault texts ≡ Some e)) }
    ensures numbers { IfOk result (λ o. All (λ s. is_input (vec_len inputs) (own_number s) ≡ true) o.sources.items) }
    ensures told { IfErr result (TellsAmong (is_input (vec_len inputs))) }
{
    let mut left = inputs.into_iter();
    let Some(first) = left.next() else {
        unreachable!()
    };
    let First { header, source } = match open_first(alloc, first, how) {
        Ok(first) => first,
        Err(e) => return Err(e),
    };
    let mut sources = Vec::new(alloc);
    if sources.push(source).is_err() {
        return Err(MergeRefused::Memory);
    }
    let mut input = 1;
    'inputs: while let Some(next) = left.next() {
        input += 1;
        let source = match open_next(alloc, input, next, &header, how) {
            Ok(source) => source,
            Err(e) => return Err(e),
        };
        if sources.push(source).is_err() {
            return Err(MergeRefused::Memory);
        }
    }
    Ok(Opened { header, sources })
}
