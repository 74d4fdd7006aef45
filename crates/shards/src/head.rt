//! The header of a file, of which a device tells the bytes.

ghost use Rattle.std.specs.Prelude.{◌≡◌, ◌++◌, ◌≢◌, ℕ, List, None, Some, IfErr, IfOk, IfSome, false, true};
ghost use Rattle.rj_line.specs.declared.request.Strictness.TheVariants.{Off};
ghost use Rattle.shards.specs.Heads.{Continues, HasHead, HasHeadFault, IsFirstRecord, IsHeadFault, IsHeadOf};

use crate::first_line::head_of_lines;
use rj_command::{Fault, Side, Strictness, fault_of_read};
use rj_csv_io::strict::Delimiter;
use rj_csv_io::{Header, Input, last_cut, read_up_to, without_bom};
use std::alloc::Global;

// The bytes that are read from a file for its header at first.
const HEADER_BYTES: usize = 1 << 16;

/// The header of a file, and where the file's first range begins.
#[derive(Drop)]
pub(crate) struct Head {
    /// The header.
    pub(crate) header: Header,
    /// Where the first range begins: after the byte order mark, at the header. If the file is read
    /// strictly, it is at the line below the header.
    pub(crate) begin: u64,
}

// The header of a text that may continue, if the text has a whole record.
fn head_of(
    alloc: Global,
    bytes: &[u8],
    is_whole: bool,
    side: Side,
    delimiter: Delimiter,
) -> Result<Option<Head>, Fault>
    ensures head { IfOk result (λ o. IfSome o (λ h. (more : List ℕ) → Continues is_whole bytes.now more → IsFirstRecord delimiter (bytes.now ++ more) h)) }
    ensures none { IfOk result (λ o. o ≡ None → is_whole ≡ false) }
    ensures fault { IfErr result (λ f. (more : List ℕ) → Continues is_whole bytes.now more → IsHeadFault Off delimiter side (bytes.now ++ more) f) }
{
    let text = without_bom(bytes);
    let end = if is_whole {
        text.len()
    } else {
        last_cut(text, delimiter)
    };
    let begin = bytes.len().saturating_sub(text.len()) as u64;
    match Header::of(alloc, &text[..end], delimiter) {
        Ok(Some(header)) => Ok(Some(Head { header, begin })),
        Ok(None) if is_whole => Err(Fault::NoHeader(side)),
        Ok(None) => Ok(None),
        Err(_) => Err(Fault::Memory),
    }
}

// The same, as strictly as is asked for.
fn head_in(
    alloc: Global,
    bytes: &[u8],
    is_whole: bool,
    side: Side,
    delimiter: Delimiter,
    strict: Strictness,
) -> Result<Option<Head>, Fault>
    ensures head { IfOk result (λ o. IfSome o (λ h. (more : List ℕ) → Continues is_whole bytes.now more → IsHeadOf strict delimiter (bytes.now ++ more) h)) }
    ensures none { IfOk result (λ o. o ≡ None → is_whole ≡ false) }
    ensures fault { IfErr result (λ f. (more : List ℕ) → Continues is_whole bytes.now more → IsHeadFault strict delimiter side (bytes.now ++ more) f) }
{
    match strict {
        Strictness::Off => head_of(alloc, bytes, is_whole, side, delimiter),
        Strictness::On => head_of_lines(alloc, bytes, is_whole, side, delimiter, false),
        Strictness::Full => head_of_lines(alloc, bytes, is_whole, side, delimiter, true),
    }
}

/// Reads the header of the text that a device tells, with this delimiter, as strictly as is asked
/// for.
///
/// # Errors
///
/// `NoHeader` if it has no record, `ReadDevice`, or `Memory`. If it is read strictly, the place in
/// its first line where it stops being of RFC 4180's grammar.
pub(crate) fn read_head_of<I: Input>(
    alloc: Global,
    input: &mut I,
    side: Side,
    delimiter: Delimiter,
    strict: Strictness,
) -> Result<Head, Fault>
    ensures head { IfOk result (HasHead strict delimiter (I.tells input.old)) }
    ensures fault { IfErr result (HasHeadFault strict delimiter side (I.tells input.old)) }
{
    let mut bytes = Vec::new(alloc);
    let mut size = HEADER_BYTES;
    for _turn in 0..64 {
        let is_whole = match read_up_to(input, &mut bytes, size) {
            Ok(is_whole) => is_whole,
            Err(refused) => return Err(fault_of_read(side, refused)),
        };
        match head_in(alloc, bytes.as_slice(), is_whole, side, delimiter, strict) {
            Ok(Some(head)) => return Ok(head),
            Ok(None) => {}
            Err(fault) => return Err(fault),
        }
        size = size.saturating_mul(2);
    }
    Err(Fault::Memory)
}
