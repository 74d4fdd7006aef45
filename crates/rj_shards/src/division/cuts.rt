//! Places where a text can be cut.

ghost use Rattle.std.specs.Io.KnownBytes.{IsAtEnd};
ghost use Rattle.std.specs.Prelude.{◌≡◌, ◌+◌, ℕ, List, true, false, Ok, IfErr, IfOk, IfSome, OnOk};
ghost use Rattle.rj_shards.specs.Ranges.{AreCuts, IsCutFault, IsCutting};
ghost use Rattle.rj_shards.specs.Readings.{reads_after};

use crate::division::next::{drop_front, next_piece};
use crate::division::reading::is_header_ahead;
use crate::division::refused::DivideRefused;
use rj_csv_io::Input;
use rj_csv_io::strict::Delimiter;
use std::alloc::Global;

/// How far a text was looked at.
#[derive(Drop)]
pub(crate) struct Cutting {
    /// The bytes that were read and not looked at yet.
    pub(crate) bytes: Vec<u8>,
    /// The place where they begin in the text.
    pub(crate) place: u64,
    /// Whether no record was seen yet.
    pub(crate) is_first: bool,
    /// The places where the text can be cut.
    pub(crate) cuts: Vec<u64>,
    /// The last of them, or 0.
    pub(crate) last: u64,
}

// Reads to the end of the next piece, and cuts the text there if that is far enough after the last
// cut. The answer is whether the piece was the last one, after which there is nothing to cut.
fn cut_next<I: Input>(
    alloc: Global,
    input: &mut I,
    delimiter: Delimiter,
    size: u64,
    block: usize,
    cutting: &mut Cutting,
) -> Result<bool, DivideRefused>
    ensures more { result ≡ Ok false → (text : List ℕ) (n : ℕ) → IsCutting delimiter size block text (I.tells input.old) cutting.old n
        → IsCutting delimiter size block text (I.tells input.new) cutting.new (n + 1) }
    ensures last { result ≡ Ok true → (text : List ℕ) (n : ℕ) → IsCutting delimiter size block text (I.tells input.old) cutting.old n
        → AreCuts delimiter size block text cutting.new.cuts.items }
    ensures end { result ≡ Ok true → IsAtEnd (I.tells input.new) }
    ensures reads { I.count input.new ≡ reads_after result (I.count input.old) }
    ensures fault { IfErr result (λ e. (text : List ℕ) (n : ℕ) → IsCutting delimiter size block text (I.tells input.old) cutting.old n → IsCutFault text e) }
{
    let piece = match next_piece(input, &mut cutting.bytes, delimiter, block) {
        Ok(piece) => piece,
        Err(e) => return Err(e),
    };
    if piece.is_last {
        return Ok(true);
    }
    let Ok(is_first) = is_header_ahead(
        alloc,
        &cutting.bytes[..piece.end],
        delimiter,
        cutting.is_first,
    ) else {
        return Err(DivideRefused::Memory);
    };
    let place = match cutting.place.checked_add(piece.end as u64) {
        Some(place) => place,
        None => return Err(DivideRefused::TooLong),
    };
    drop_front(&mut cutting.bytes, piece.end);
    cutting.place = place;
    cutting.is_first = is_first;
    if !is_first && place.saturating_sub(cutting.last) >= size {
        if cutting.cuts.push(place).is_err() {
            return Err(DivideRefused::Memory);
        }
        cutting.last = place;
    }
    Ok(false)
}

/// Finds places where a text with a header can be cut into ranges, so that the records of the
/// ranges are those of the text, by this delimiter. Each place is after a line feed that ends a record, and at least
/// `size` bytes after the one before. The first is after the header. The text's own byte order mark
/// was left out already.
///
/// The text is read to its end, in pieces of about `block` bytes, or more if a record is longer.
/// Only the ends of pieces are places. Take the first place in a range, `size` bytes or more from
/// its beginning, where it could end. If a record ends in each run of n bytes, the range ends at
/// most `block` + 2n bytes and 64 KiB after that place. This holds for the last range too.
///
/// # Errors
///
/// `ReadDevice` if the device failed; `TooLong` if the text has 2^64 - 1 bytes or more; `Memory`.
pub fn find_cuts<I: Input>(
    alloc: Global,
    input: &mut I,
    delimiter: Delimiter,
    size: u64,
    block: usize,
) -> Result<Vec<u64>, DivideRefused>
    ensures cuts { IfOk result (λ v. IfSome (I.tells input.old) (λ text. AreCuts delimiter size block text v.items)) }
    ensures end { OnOk result (IsAtEnd (I.tells input.new)) }
    ensures reads { I.count input.new ≡ reads_after result (I.count input.old) }
    ensures fault { IfErr result (λ e. IfSome (I.tells input.old) (λ text. IsCutFault text e)) }
{
    let mut cutting = Cutting {
        bytes: Vec::new(alloc),
        place: 0,
        is_first: true,
        cuts: Vec::new(alloc),
        last: 0,
    };
    for _turn in 0..u64::MAX {
        match cut_next(alloc, input, delimiter, size, block, &mut cutting) {
            Ok(true) => return Ok(cutting.cuts),
            Ok(false) => {}
            Err(e) => return Err(e),
        }
    }
    Err(DivideRefused::TooLong)
}
