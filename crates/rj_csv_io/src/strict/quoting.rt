//! Empty lines, written as csv writes a record of one empty field.

ghost use Rattle.std.specs.Prelude.{◌≡◌, ◌<◌, ◌-◌, ◌^◌, Bool, IfOk};
ghost use Rattle.csv.specs.Reading.{strip_bom};
ghost use Rattle.rj_csv_io.specs.Grammar.{Derives, File, file_text};
ghost use Rattle.rj_csv_io.specs.StrictReading.{begins_empty, body_of, quoted};
ghost use Rattle.rj_csv_io.specs.declared.strict.header.HeaderPlace.TheVariants.{First};

use crate::strict::delimiter::Delimiter;
use crate::strict::header::HeaderPlace;
use crate::strict::mark::body;
use crate::strict::standing::{Place, Standing, begin, step};
use std::alloc::{AllocError, Global};

// Whether an empty line begins with this byte.
fn begins_empty_line(place: Place, byte: u8) -> bool
    ensures { result ≡ begins_empty place byte }
{
    match place {
        Place::Start => (byte == b'\n') | (byte == b'\r'),
        _ => false,
    }
}

/// A text that is derived, with `""` in each of its empty lines. The result begins with a byte
/// order mark, so that nothing else at its start is taken for one.
///
/// # Errors
/// It fails only when memory runs out.
pub fn quote_empty_lines(
    alloc: Global,
    text: &[u8],
    delimiter: Delimiter,
) -> Result<Vec<u8>, AllocError>
    requires { (full : Bool) × (file : File) × Derives delimiter First full (body_of First text.now) file }
    ensures { IfOk result (λ v. (full : Bool) (file : File) → Derives delimiter First full (body_of First text.now) file
        → strip_bom v.items ≡ file_text delimiter (quoted file)) }
{
    let separator = delimiter.byte();
    let text = body(text, HeaderPlace::First);
    let mut quoted = Vec::with_capacity(alloc, text.len())?;
    quoted.extend_from_slice(&[0xEF, 0xBB, 0xBF])?;
    let mut standing = begin(HeaderPlace::First);
    for i in 0..text.len() {
        if begins_empty_line(standing.place, text[i]) {
            quoted.extend_from_slice(b"\"\"")?;
        }
        quoted.push(text[i])?;
        match step(standing, separator, text[i]) {
            Ok(next) => standing = next,
            Err(_) => return Ok(quoted), // not reached in a text that is derived
        }
    }
    Ok(quoted)
}
