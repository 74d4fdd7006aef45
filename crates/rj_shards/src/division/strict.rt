//! A piece of a text, divided among parts. A piece that is read strictly is checked, and then
//! divided.

ghost use Rattle.std.specs.Prelude.{◌≡◌, ◌<◌, ◌≤◌, ◌+◌, ◌^◌, ℕ, Bool, true, Ok, Err, All, IfErr, IfOk, IsTrue, OnOk, length, map};
ghost use Rattle.csv.specs.Reading.{strip_bom};
ghost use Rattle.rj_columns.specs.declared.refused.BuildRefused.{BuildRefused};
ghost use Rattle.rj_columns.specs.Tables.{TableValue};
ghost use Rattle.rj_csv_io.specs.Pieces.{piece_records};
ghost use Rattle.rj_csv_io.specs.Tables.{is_null_text};
ghost use Rattle.rj_csv_io.specs.Typed.{null_texts};
ghost use Rattle.rj_shards.specs.Blocks.{strict_behind};
ghost use Rattle.rj_shards.specs.Divisions.{IsDivided, IsPartlyDivided, after_rows, counts_after, dividing, table_begun, written_null};
ghost use Rattle.rj_shards.specs.Readings.{IsAfterReading, IsFaultBehind, IsHeaderRefusal};
ghost use Rattle.rj_shards.specs.Texts.{HaveFirstRows, IsPieceFault, IsTextDivided};
ghost use Rattle.rj_csv_io.specs.StrictFaults.{row_at};
ghost use Rattle.rj_csv_io.specs.Grammar.{Derives, File, records_of};
ghost use Rattle.rj_csv_io.specs.declared.strict.header.HeaderPlace.TheVariants.{Above};

use crate::division::piece::{Division, divide_records};
use crate::division::reading::Reading;
use crate::division::refused::DivideRefused;
use crate::division::route::Route;
use rj_csv_io::strict::{
    Delimiter, HeaderPlace, StrictFault, above_fault, check, quote_empty_lines,
};
use rj_csv_io::{Output, without_bom};
use std::alloc::{AllocError, Global};

// An error of a block that has this many rows before it.
fn strict_behind(before: u64, fault: StrictFault) -> StrictFault
    requires { before + row_at fault < 2 ^ 64 }
    ensures { result ≡ strict_behind before fault }
{
    match fault {
        StrictFault::OpenQuote(row, column) => StrictFault::OpenQuote(before + row, column),
        StrictFault::AfterQuote(row, column) => StrictFault::AfterQuote(before + row, column),
        StrictFault::BareQuote(row, column) => StrictFault::BareQuote(before + row, column),
        StrictFault::BareReturn(row, column) => StrictFault::BareReturn(before + row, column),
        StrictFault::EmptyLine(row) => StrictFault::EmptyLine(before + row),
        StrictFault::CutShort(row) => StrictFault::CutShort(before + row),
    }
}

// A text under a header of one name, with a name above it and `""` in each of its empty lines.
fn quote_below_name(alloc: Global, text: &[u8], delimiter: Delimiter) -> Result<Vec<u8>, AllocError>
    requires { (names : ℕ) × (full : Bool) × (file : File) × (names ≤ 1) × Derives delimiter (Above names) full text.now file }
    ensures { IfOk result (λ v. (names : ℕ) (full : Bool) (file : File) → names ≤ 1 → Derives delimiter (Above names) full text.now file
        → piece_records delimiter true (strip_bom v.items) ≡ records_of file) }
{
    let _byte = delimiter.byte();
    let mut named = Vec::new(alloc);
    named.extend_from_slice(b"x\n")?;
    named.extend_from_slice(text)?;
    quote_empty_lines(alloc, named.as_slice(), delimiter)
}

// Divides the rows of a text that is derived under the header.
fn divide_derived<W: Route, O: Output>(
    alloc: Global,
    division: &Division<'_, W>,
    text: &[u8],
    before: u64,
    outputs: &mut [O],
) -> Result<u64, DivideRefused>
    requires types { W.fits division.now.route.now division.now.types.now }
    requires outputs { length outputs.old ≡ W.count division.now.route.now }
    requires first { division.now.first ≤ 2 ^ 62 }
    requires null { IsTrue (is_null_text (written_null (null_texts division.now.nulls.now))) }
    requires derived { (full : Bool) × (file : File) × Derives division.now.delimiter (Above (length division.now.types.now)) full text.now file }
    ensures divided { IfOk result (λ n. (full : Bool) (file : File) → Derives division.now.delimiter (Above (length division.now.types.now)) full text.now file
        → IsDivided (after_rows before (dividing W.part division.now)) (records_of file) (map O.told outputs.old) (map O.told outputs.new) n) }
    ensures fault { IfErr result (λ e. (t : TableValue) (full : Bool) (file : File) → table_begun division.now ≡ Ok t
        → Derives division.now.delimiter (Above (length division.now.types.now)) full text.now file
        → IsFaultBehind (dividing W.part division.now) before (length outputs.old) (records_of file) e) }
    ensures partly { IfErr result (λ e. (full : Bool) (file : File) → Derives division.now.delimiter (Above (length division.now.types.now)) full text.now file
        → IsPartlyDivided (after_rows before (dividing W.part division.now)) (records_of file) (map O.told outputs.old) (map O.told outputs.new) e) }
    ensures few { IfOk result (λ n. before + n < 2 ^ 62) }
    ensures counts { map O.count outputs.new ≡ counts_after result (map O.count outputs.old) }
    ensures read { IfErr result IsAfterReading }
    ensures begins { OnOk result ((t : TableValue) × (table_begun division.now ≡ Ok t)) }
    ensures refusal { IfErr result (λ e. (b : BuildRefused) → table_begun division.now ≡ Err b → before ≡ 0 → IsHeaderRefusal b e) }
    ensures untouched { (b : BuildRefused) → table_begun division.now ≡ Err b → outputs.new ≡ outputs.old }
{
    let _byte = division.delimiter.byte();
    if division.types.len() > 1 {
        return divide_records(alloc, division, text, false, before, outputs);
    }
    let Ok(quoted) = quote_below_name(alloc, text, division.delimiter) else {
        return Err(DivideRefused::Memory);
    };
    divide_records(
        alloc,
        division,
        without_bom(quoted.as_slice()),
        true,
        before,
        outputs,
    )
}

/// Puts each row of a piece of a text, with its place, to the output of its part. The answer is how
/// many rows it has. `before` rows come before it. A piece begins and ends where a record does. If
/// it is read strictly, the rows are the records of its one derivation below the header.
///
/// # Errors
///
/// If no rows come before, the reason why the header and the types don't make a table, as
/// `Header::table` reports it; the outputs are unchanged then. Else the first error of the piece:
/// of its rows, or the place where it stops being of the grammar, below rows without an error; its
/// row counts from the text's first one. Or `TooLong`; or `WriteDevice` if an output failed.
/// `Memory` may come in place of each of these. Each output but the one that failed has its rows
/// among the first rows of the piece.
pub fn divide_piece<W: Route, O: Output>(
    alloc: Global,
    division: &Division<'_, W>,
    text: &[u8],
    reading: Reading,
    before: u64,
    outputs: &mut [O],
) -> Result<u64, DivideRefused>
    requires types { W.fits division.now.route.now division.now.types.now }
    requires outputs { length outputs.old ≡ W.count division.now.route.now }
    requires first { division.now.first ≤ 2 ^ 62 }
    requires null { IsTrue (is_null_text (written_null (null_texts division.now.nulls.now))) }
    ensures divided { IfOk result (IsTextDivided (after_rows before (dividing W.part division.now)) reading text.now (map O.told outputs.old) (map O.told outputs.new)) }
    ensures fault { IfErr result (λ e. (t : TableValue) → table_begun division.now ≡ Ok t
        → IsPieceFault (dividing W.part division.now) reading text.now before (length outputs.old) e) }
    ensures partly { IfErr result (HaveFirstRows (after_rows before (dividing W.part division.now)) reading text.now (map O.told outputs.old) (map O.told outputs.new)) }
    ensures few { IfOk result (λ n. before + n < 2 ^ 62) }
    ensures counts { map O.count outputs.new ≡ counts_after result (map O.count outputs.old) }
    ensures read { IfErr result IsAfterReading }
    ensures begins { OnOk result ((t : TableValue) × (table_begun division.now ≡ Ok t)) }
    ensures refusal { IfErr result (λ e. (b : BuildRefused) → table_begun division.now ≡ Err b → before ≡ 0 → IsHeaderRefusal b e) }
    ensures untouched { (b : BuildRefused) → table_begun division.now ≡ Err b → outputs.new ≡ outputs.old }
{
    let full = match reading {
        Reading::Lenient(is_first) => {
            return divide_records(alloc, division, text, is_first, before, outputs);
        }
        Reading::Strict(full) => full,
    };
    let delimiter = division.delimiter;
    let header = HeaderPlace::Above(division.types.len() as u64);
    match check(text, delimiter, header, full) {
        Ok(()) => divide_derived(alloc, division, text, before, outputs),
        Err(fault) => {
            let above = above_fault(text, delimiter, header, fault);
            match divide_derived(alloc, division, above, before, outputs) {
                Ok(_) => Err(DivideRefused::Broken(strict_behind(before, fault))),
                Err(earlier) => Err(earlier),
            }
        }
    }
}
