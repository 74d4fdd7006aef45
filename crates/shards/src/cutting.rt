//! Where a file can be cut.

ghost use Rattle.std.specs.Prelude.{◌≡◌, IfErr, IfOk, IfSome, OnOk, string_bytes};
ghost use Rattle.shards.specs.Cuts.{HasCutFailure, HasCutLines, IsCutting, IsCutsFailure, place_lines};
ghost use Rattle.shards.specs.Outputs.{printed_in};

use crate::dividing::fault_of_division;
use crate::failure::Failure;
use crate::line::Line;
use crate::outputs::print_text;
use crate::storage::{Storage, file_size, open_range, read_head};
use rj_command::{Fault, Side, Strictness};
use rj_csv_io::strict::Delimiter;
use rj_csv_io::{Input, Output};
use rj_shards::division::find_cuts;
use std::alloc::{AllocError, Global};

// The most bytes that are read before a place is looked for.
const BLOCK: u64 = 1 << 20;

// The text of a side's file from its header on, which is to be cut into this many ranges, or fewer.
#[derive(Clone, Copy)]
struct CutText {
    side: Side,
    delimiter: Delimiter,
    ranges: u32,
    // The byte of the file at which the text begins.
    begin: u64,
    // The number of the file's bytes.
    end: u64,
}

// The lines of places that count from a byte of the file, without one at its end.
fn lines_of(alloc: Global, begin: u64, cuts: &[u64], end: u64) -> Result<String, AllocError>
    ensures { IfOk result (λ s. string_bytes s ≡ place_lines begin end cuts.now) }
{
    let mut text = String::new(alloc);
    for cut in cuts {
        let place = begin.saturating_add(*cut);
        if place < end {
            text.push_str(format!(in alloc; "{place}\n")?.as_str())?;
        }
    }
    Ok(text)
}

// The lines of the places where the text that a device tells can be cut into ranges of about one
// size.
fn cut_lines<I: Input>(alloc: Global, input: &mut I, cut: &CutText) -> Result<String, Failure>
    ensures lines { IfOk result (λ s. IfSome (I.tells input.old) (λ text. HasCutLines cut.now text (string_bytes s))) }
    ensures failure { IfErr result (λ e. IfSome (I.tells input.old) (λ text. HasCutFailure cut.now.side text e)) }
{
    let least = (cut.end / u64::from(cut.ranges.max(1))).saturating_add(1);
    let block = least.min(BLOCK) as usize;
    let cuts = match find_cuts(alloc, input, cut.delimiter, least, block) {
        Ok(cuts) => cuts,
        Err(refused) => return Err(Failure::Told(fault_of_division(cut.side, refused))),
    };
    match lines_of(alloc, cut.begin, cuts.as_slice(), cut.end) {
        Ok(lines) => Ok(lines),
        Err(_) => Err(Failure::Told(Fault::Memory)),
    }
}

/// Prints the bytes at which the file of the side can be cut into this many ranges of about one
/// size, or fewer. A file below 64 KiB isn't cut. Only the file's records matter, as the library
/// `csv` reads them. Its errors are reported when it is divided.
///
/// # Errors
///
/// The file can't be read, or memory ran out; nothing is printed then. Or the output failed.
pub(crate) fn print_cuts<S: Storage, O: Output>(
    alloc: Global,
    storage: &S,
    line: &Line<'_>,
    ranges: u32,
    output: &mut O,
) -> Result<(), Failure>
    ensures cutting { OnOk result (IsCutting (S.holds storage.now) line.now ranges (printed_in O.told O.count output.old) (printed_in O.told O.count output.new)) }
    ensures failure { IfErr result (IsCutsFailure (S.holds storage.now) line.now ranges (printed_in O.told O.count output.old) (printed_in O.told O.count output.new)) }
{
    let side = line.side;
    let own = line.operand(side);
    let head = match read_head(
        alloc,
        storage,
        own.file,
        side,
        own.delimiter,
        Strictness::Off,
    ) {
        Ok(head) => head,
        Err(Fault::NoHeader(_)) => return Ok(()),
        Err(fault) => return Err(Failure::Told(fault)),
    };
    let end = file_size(storage, own.file, side)?;
    let mut input = open_range(storage, own.file, side, head.begin, None)?;
    let cut = CutText {
        side,
        delimiter: own.delimiter,
        ranges,
        begin: head.begin,
        end,
    };
    let text = cut_lines(alloc, &mut input, &cut)?;
    print_text(output, text.as_str())
}
