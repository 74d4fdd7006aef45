//! The next piece of a device's bytes, which ends where a record does.

ghost use Rattle.std.specs.Prelude.{◌≡◌, ◌<◌, ◌≤◌, ◌++◌, ℕ, List, [], Option, true, false, length, vec_len, take, drop, IfOk, IfErr, OnOk};
ghost use Rattle.std.specs.Io.KnownBytes.{Consumes, IsAtEnd};
ghost use Rattle.csv.specs.Reading.{records};
ghost use Rattle.rj_csv_io.specs.Pieces.{IsLineEnd};
ghost use Rattle.rj_csv_io.specs.StrictReading.{config_of};
ghost use Rattle.rj_shards.specs.Ranges.{IsReadFor};
ghost use Rattle.rj_shards.specs.Readings.{IsInputFault, reads_after};

use crate::division::refused::DivideRefused;
use rj_csv_io::strict::Delimiter;
use rj_csv_io::{Input, ReadRefused, last_cut, read_up_to};

/// A piece of a text, at the start of the bytes that were read.
#[derive(Clone, Copy)]
pub struct Piece {
    /// How many bytes it has, from the first of those that were read.
    pub end: usize,
    /// Whether the text ends there too.
    pub is_last: bool,
}

/// Reads the next bytes of a device and appends them, until there is a line feed that ends a record,
/// by this delimiter, or the device is at its end. The answer is the piece up to the last such line
/// feed, or all bytes if the device is at its end. It reads at least a block. If no record ends in
/// that, it reads up to twice as many bytes as it had, and so on. It reads less than 64 KiB more
/// than needed.
///
/// # Errors
///
/// `ReadDevice` if the device failed, `Memory` if memory ran out. How much was read is unknown
/// then.
pub fn next_piece<I: Input>(
    input: &mut I,
    bytes: &mut Vec<u8>,
    delimiter: Delimiter,
    block: usize,
) -> Result<Piece, DivideRefused>
    ensures bytes { OnOk result ((start : Option (List ℕ)) → Consumes start (I.tells input.old) bytes.old.items
        → Consumes start (I.tells input.new) bytes.new.items) }
    ensures within { IfOk result (λ p. p.end ≤ vec_len bytes.new) }
    ensures read { OnOk result (IsReadFor delimiter block bytes.old.items bytes.new.items) }
    ensures block { IfOk result (λ p. p.is_last ≡ false → block ≤ vec_len bytes.new) }
    ensures last { IfOk result (λ p. p.is_last ≡ true → (p.end ≡ vec_len bytes.new) × IsAtEnd (I.tells input.new)) }
    ensures records { IfOk result (λ p. (more : List ℕ) → (p.is_last ≡ true → more ≡ []) → records (config_of delimiter) (bytes.new.items ++ more)
        ≡ records (config_of delimiter) (take p.end bytes.new.items) ++ records (config_of delimiter) (drop p.end bytes.new.items ++ more)) }
    ensures line { IfOk result (λ p. p.is_last ≡ false → IsLineEnd delimiter bytes.new.items p.end) }
    ensures rest { IfOk result (λ p. p.is_last ≡ false → (at : ℕ) → p.end < at → at ≤ length bytes.new.items
        → IsLineEnd delimiter bytes.new.items at → ⊥) }
    ensures count { I.count input.new ≡ reads_after result (I.count input.old) }
    ensures fault { IfErr result IsInputFault }
{
    let mut size = block.max(1);
    'reading: loop {
        match read_up_to(input, bytes, size) {
            Ok(true) => {
                return Ok(Piece {
                    end: bytes.len(),
                    is_last: true,
                });
            }
            Ok(false) => {}
            Err(ReadRefused::ReadDevice) => return Err(DivideRefused::ReadDevice),
            Err(_) => return Err(DivideRefused::Memory),
        }
        let end = last_cut(bytes.as_slice(), delimiter);
        if end > 0 {
            return Ok(Piece {
                end,
                is_last: false,
            });
        }
        size = size.saturating_mul(2);
    }
}

/// Removes the first bytes.
pub(crate) fn drop_front(bytes: &mut Vec<u8>, end: usize)
    requires { end ≤ vec_len bytes.old }
    ensures { bytes.new.items ≡ drop end bytes.old.items }
{
    bytes.drain(..end);
}
