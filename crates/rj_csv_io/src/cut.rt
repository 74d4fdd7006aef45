//! Cuts of a text after the ends of records.

ghost use Rattle.std.specs.Prelude.{◌≡◌, ◌<◌, ◌≤◌, IfSome, IfOk, true, false, length, max, take, drop, map};
ghost use Rattle.csv.specs.Reading.{strip_bom};
ghost use Rattle.csv.specs.declared.parser.State.TheVariants as st;
ghost use Rattle.rj_csv_io.specs.Cuts.{has_bom, records_in, records_in_all, state_after};

use crate::place::{ReaderPlace, is_open, scan};
use crate::strict::Delimiter;
use memchr::memchr;
use std::alloc::{AllocError, Global};

/// Whether a text begins with a byte order mark.
pub(crate) fn starts_with_bom(text: &[u8]) -> bool
    ensures value { result ≡ has_bom text.now }
    ensures long { result ≡ true → 3 ≤ length text.now }
{
    if text.len() < 3 {
        return false;
    }
    (text[0] == 0xEF) & (text[1] == 0xBB) & (text[2] == 0xBF)
}

/// A text without the byte order mark that it may begin with. It allocates no memory.
pub fn without_bom(text: &[u8]) -> &[u8]
    ensures { result.now ≡ strip_bom text.now }
{
    if starts_with_bom(text) {
        return &text[3..];
    }
    text
}

// The first place after this one where a record ends and no byte order mark begins.
fn cut_after(text: &[u8], target: usize, delimiter: Delimiter) -> Option<usize>
    requires { target ≤ length text.now }
    ensures within { IfSome result (λ c. c ≤ length text.now) }
    ensures ends { IfSome result (λ c. state_after delimiter st.StartRecord (take c text.now) ≡ st.StartRecord) }
    ensures unmarked { IfSome result (λ c. strip_bom (drop c text.now) ≡ drop c text.now) }
{
    let byte = delimiter.byte();
    let mut place = scan(ReaderPlace::Fresh, &text[..target], byte);
    let mut at = target;
    for _turn in target..text.len() {
        let Some(k) = memchr(b'\n', &text[at..]) else {
            return None;
        };
        let next = at + k + 1;
        place = scan(place, &text[at..next], byte);
        at = next;
        if !is_open(place) && !starts_with_bom(&text[at..]) {
            return Some(at);
        }
    }
    None
}

/// Cuts a text into at most `count` texts, of about one size, whose records are those of the text.
pub(crate) fn cut_text<'a>(
    alloc: Global,
    text: &'a [u8],
    count: usize,
    delimiter: Delimiter,
) -> Result<Vec<&'a [u8]>, AllocError>
    ensures few { IfOk result (λ v. length v.items ≤ max 1 count) }
    ensures records { IfOk result (λ v. records_in_all delimiter (map (λ p. p.now) v.items) ≡ records_in delimiter text.now) }
{
    let mut parts = Vec::new(alloc);
    let mut rest = without_bom(text);
    if starts_with_bom(rest) {
        parts.push(text)?;
        return Ok(parts);
    }
    let size = rest.len() / count.max(1) + 1;
    for _k in 1..count {
        if rest.len() <= size {
            break;
        }
        let Some(cut) = cut_after(rest, size, delimiter) else {
            break;
        };
        let (part, more) = rest.split_at(cut);
        parts.push(part)?;
        rest = more;
    }
    parts.push(rest)?;
    Ok(parts)
}
