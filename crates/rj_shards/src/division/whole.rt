//! A text, divided among parts piece by piece.

ghost use Rattle.std.specs.Prelude.{◌≡◌, ◌≤◌, ◌+◌, ◌^◌, ℕ, false, true, Ok, Err, length, map, All, IsTrue, IfErr, IfOk, IfSome, OnOk};
ghost use Rattle.std.specs.Io.KnownBytes.{IsAtEnd};
ghost use Rattle.rj_columns.specs.declared.refused.BuildRefused.{BuildRefused};
ghost use Rattle.rj_columns.specs.Tables.{TableValue};
ghost use Rattle.rj_csv_io.specs.Tables.{is_null_text};
ghost use Rattle.rj_csv_io.specs.Typed.{null_texts};
ghost use Rattle.rj_shards.specs.Divisions.{counts_after, dividing, table_begun, written_null};
ghost use Rattle.rj_shards.specs.Readings.{IsHeaderRefusal, reads_after};
ghost use Rattle.rj_shards.specs.Texts.{HaveFirstRows, IsDivisionFault, IsTextDivided};
ghost use Rattle.rj_shards.specs.Internal.Underway.{Beginning, IsUnderway};
ghost use Rattle.rj_shards.specs.declared.division.reading.Reading.{Reading};

use crate::division::next::{drop_front, next_piece};
use crate::division::piece::Division;
use crate::division::reading::Reading;
use crate::division::refused::DivideRefused;
use crate::division::route::Route;
use crate::division::strict::divide_piece;
use rj_csv_io::{Input, Output};
use std::alloc::Global;

/// The state of a text that is being divided.
#[derive(Drop)]
pub(crate) struct Rest {
    /// The bytes that were read and aren't divided yet.
    pub(crate) bytes: Vec<u8>,
    /// How many rows were divided.
    pub(crate) rows: u64,
    /// How the text is read from these bytes on.
    pub(crate) reading: Reading,
}

// Divides the next piece of a text. The answer is whether it was the last one.
fn divide_next<I: Input, O: Output, R: Route>(
    alloc: Global,
    input: &mut I,
    division: &Division<'_, R>,
    block: usize,
    rest: &mut Rest,
    outputs: &mut [O],
) -> Result<bool, DivideRefused>
    requires types { R.fits division.now.route.now division.now.types.now }
    requires outputs { length outputs.old ≡ R.count division.now.route.now }
    requires first { division.now.first ≤ 2 ^ 62 }
    requires null { IsTrue (is_null_text (written_null (null_texts division.now.nulls.now))) }
    ensures more { let underway = IsUnderway (dividing R.part division.now) in result ≡ Ok false → (reading : Reading) (begin : Beginning) (n : ℕ)
        → underway reading begin (I.tells input.old) rest.old (map O.told outputs.old) n
        → underway reading begin (I.tells input.new) rest.new (map O.told outputs.new) (n + 1) }
    ensures last { let d = dividing R.part division.now in result ≡ Ok true → (reading : Reading) (begin : Beginning) (n : ℕ)
        → IsUnderway d reading begin (I.tells input.old) rest.old (map O.told outputs.old) n
        → IsTextDivided d reading begin.text begin.told (map O.told outputs.new) rest.new.rows }
    ensures end { result ≡ Ok true → IsAtEnd (I.tells input.new) }
    ensures reads { I.count input.new ≡ reads_after result (I.count input.old) }
    ensures writes { map O.count outputs.new ≡ counts_after result (map O.count outputs.old) }
    ensures fault { let d = dividing R.part division.now in IfErr result (λ e. (t : TableValue) (reading : Reading) (begin : Beginning) (n : ℕ)
        → table_begun division.now ≡ Ok t → IsUnderway d reading begin (I.tells input.old) rest.old (map O.told outputs.old) n
        → IsDivisionFault d block reading begin.text (length outputs.old) e) }
    ensures partly { let d = dividing R.part division.now in IfErr result (λ e. (reading : Reading) (begin : Beginning) (n : ℕ)
        → IsUnderway d reading begin (I.tells input.old) rest.old (map O.told outputs.old) n → HaveFirstRows d reading begin.text begin.told (map O.told outputs.new) e) }
    ensures begins { OnOk result ((t : TableValue) × (table_begun division.now ≡ Ok t)) }
    ensures refusal { IfErr result (λ e. (b : BuildRefused) → table_begun division.now ≡ Err b → rest.old.rows ≡ 0 → IsHeaderRefusal b e) }
    ensures untouched { (b : BuildRefused) → table_begun division.now ≡ Err b → outputs.new ≡ outputs.old }
{
    let delimiter = division.delimiter;
    let _byte = delimiter.byte();
    let piece = match next_piece(input, &mut rest.bytes, delimiter, block) {
        Ok(piece) => piece,
        Err(refused) => return Err(refused),
    };
    let text = &rest.bytes[..piece.end];
    let reading = rest.reading.of_piece(piece.is_last);
    let Ok(after) = rest.reading.after(alloc, text, delimiter) else {
        return Err(DivideRefused::Memory);
    };
    let rows = match divide_piece(alloc, division, text, reading, rest.rows, outputs) {
        Ok(rows) => rows,
        Err(refused) => return Err(refused),
    };
    rest.rows += rows;
    rest.reading = after;
    drop_front(&mut rest.bytes, piece.end);
    Ok(piece.is_last)
}

/// Divides the rows of a text, or of a range of one that begins and ends where a record does, among
/// the outputs of their parts. Each output gets its rows in order, as CSV, with the row's place as
/// one more whole number. The answer is how many rows there are.
///
/// The text is read in pieces of about `block` bytes, or more if a record is longer. Each is divided
/// as by [`divide_piece`].
///
/// # Errors
///
/// The reason why the header and the types don't make a table, as [`rj_csv_io::Header::table`]
/// reports it; the outputs are unchanged then. Else the first error of the text, whatever its pieces
/// are: of its rows, or, if it is read strictly, the place where it stops being of the grammar; its
/// row counts from the text's first one. Or `TooLong`; or `WriteDevice` if an output failed.
/// `ReadDevice` (the device that gives bytes failed) and `Memory` may come in place of each of
/// these. Each output but the one that failed has its rows among the first rows of the text.
pub fn divide<I: Input, O: Output, R: Route>(
    alloc: Global,
    input: &mut I,
    division: &Division<'_, R>,
    reading: Reading,
    block: usize,
    outputs: &mut [O],
) -> Result<u64, DivideRefused>
    requires types { R.fits division.now.route.now division.now.types.now }
    requires outputs { length outputs.old ≡ R.count division.now.route.now }
    requires first { division.now.first ≤ 2 ^ 62 }
    requires null { IsTrue (is_null_text (written_null (null_texts division.now.nulls.now))) }
    ensures divided { IfOk result (λ n. IfSome (I.tells input.old) (λ text.
        IsTextDivided (dividing R.part division.now) reading text (map O.told outputs.old) (map O.told outputs.new) n)) }
    ensures end { OnOk result (IsAtEnd (I.tells input.new)) }
    ensures reads { I.count input.new ≡ reads_after result (I.count input.old) }
    ensures writes { map O.count outputs.new ≡ counts_after result (map O.count outputs.old) }

    // if the header and the types go together, as `Header::table` says, an error comes only for
    // this
    ensures fault { IfErr result (λ e. (t : TableValue) → table_begun division.now ≡ Ok t
        → IfSome (I.tells input.old) (λ text. IsDivisionFault (dividing R.part division.now) block reading text (length outputs.old) e)) }

    // and each output but the one that failed has its rows among the first ones
    ensures partly { IfErr result (λ e. IfSome (I.tells input.old) (λ text.
        HaveFirstRows (dividing R.part division.now) reading text (map O.told outputs.old) (map O.told outputs.new) e)) }

    // if they don't, nothing is divided, and the reason is reported
    ensures begins { OnOk result ((t : TableValue) × (table_begun division.now ≡ Ok t)) }
    ensures refusal { IfErr result (λ e. (b : BuildRefused) → table_begun division.now ≡ Err b → IsHeaderRefusal b e) }
    ensures untouched { (b : BuildRefused) → table_begun division.now ≡ Err b → outputs.new ≡ outputs.old }
{
    let mut rest = Rest {
        bytes: Vec::new(alloc),
        rows: 0,
        reading,
    };
    for _turn in 0..u64::MAX {
        match divide_next(alloc, input, division, block, &mut rest, outputs) {
            Ok(true) => return Ok(rest.rows),
            Ok(false) => {}
            Err(refused) => return Err(refused),
        }
    }
    Err(DivideRefused::TooLong)
}
