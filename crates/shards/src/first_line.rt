//! The header of a file that is read strictly: its first line.

ghost use Rattle.std.specs.Prelude.{◌≡◌, ◌≢◌, ◌≤◌, ◌+◌, ◌++◌, ◌∷◌, [], ℕ, List, Bool, None, IfErr, IfOk, IfSome, MatchOption, false, length, true};
ghost use Rattle.csv.specs.Reading.{strip_bom};
ghost use Rattle.rj_csv_io.specs.Pieces.{names_in};
ghost use Rattle.rj_csv_io.specs.Grammar.{Derives, File, records_of};
ghost use Rattle.rj_csv_io.specs.StrictReading.{body_of};
ghost use Rattle.rj_csv_io.specs.declared.strict.header.HeaderPlace.TheVariants.{First};
ghost use Rattle.shards.specs.Heads.{Continues, HasNoFeed, IsFeed, IsFirstLine, IsOfFirstLine, HasNoLine};

use crate::head::Head;
use rj_command::{Fault, Side, fault_of_text};
use rj_csv_io::strict::{Delimiter, check, quote_empty_lines};
use rj_csv_io::{Header, without_bom};
use std::alloc::{AllocError, Global};

// Where the first line of a text ends, if it does: after the first line feed outside quotes. Each
// quote opens or closes if the text is of the grammar.
fn first_end(text: &[u8]) -> Option<usize>
    ensures { MatchOption result (HasNoFeed text.now (length text.now)) (λ n. (at : ℕ) × IsFeed text.now at × HasNoFeed text.now at × (n ≡ at + 1)) }
{
    let mut is_open = false;
    for at in 0..text.len() {
        if text[at] == b'"' {
            is_open = !is_open;
        }
        if text[at] == b'\n' && !is_open {
            return Some(at + 1);
        }
    }
    None
}

// The length of the first line of a text that may continue, if the line is whole.
fn line_length(text: &[u8], is_whole: bool) -> Option<usize>
    ensures line { IfSome result (λ n. (more : List ℕ) → (is_whole ≡ true → more ≡ []) → IsFirstLine (text.now ++ more) n) }
    ensures within { IfSome result (λ n. n ≤ length text.now) }
    ensures none { result ≡ None → is_whole ≡ false }
{
    match first_end(text) {
        Some(end) => Some(end),
        None if is_whole => Some(text.len()),
        None => None,
    }
}

// The header that a first line is, which is of the grammar. An empty line is one empty name, which
// `csv` would skip.
fn header_of(alloc: Global, line: &[u8], side: Side, delimiter: Delimiter) -> Result<Header, Fault>
    requires { (full : Bool) × (file : File) × Derives delimiter First full (body_of First line.now) file }
    ensures names { IfOk result (λ h. (full : Bool) (file : File) → Derives delimiter First full (body_of First line.now) file
        → (rest : List (List (List ℕ))) × (records_of file ≡ names_in h ∷ rest)) }
    ensures fault { IfErr result (λ f. f ≢ Fault.Memory → (f ≡ Fault.NoHeader side) × ((full : Bool) (file : File)
        → Derives delimiter First full (body_of First line.now) file → records_of file ≡ [])) }
{
    let _byte = delimiter.byte();
    let Ok(quoted) = quote_empty_lines(alloc, line, delimiter) else {
        return Err(Fault::Memory);
    };
    match Header::of(alloc, without_bom(quoted.as_slice()), delimiter) {
        Ok(Some(header)) => Ok(header),
        Ok(None) => Err(Fault::NoHeader(side)),
        Err(_) => Err(Fault::Memory),
    }
}

/// The header of a text that may continue and has to be of RFC 4180's grammar, if its first line is
/// whole. The rows begin where that ends. In a full text the last line has its line end.
///
/// # Errors
///
/// The place in the first line where the text stops being of the grammar, `NoHeader` if the text is
/// empty, or `Memory`.
pub(crate) fn head_of_lines(
    alloc: Global,
    bytes: &[u8],
    is_whole: bool,
    side: Side,
    delimiter: Delimiter,
    full: bool,
) -> Result<Option<Head>, Fault>
    ensures head { IfOk result (λ o. IfSome o (λ h. (more : List ℕ) → Continues is_whole bytes.now more → IsOfFirstLine full delimiter (bytes.now ++ more) h)) }
    ensures none { IfOk result (λ o. o ≡ None → is_whole ≡ false) }
    ensures fault { IfErr result (λ f. f ≢ Fault.Memory → (more : List ℕ) → Continues is_whole bytes.now more → HasNoLine full delimiter side (bytes.now ++ more) f) }
{
    let text = without_bom(bytes);
    let mark = bytes.len().saturating_sub(text.len());
    let Some(length) = line_length(text, is_whole) else {
        return Ok(None);
    };
    // (with its byte order mark, since another one after it is part of a name)
    let line = &bytes[..mark.saturating_add(length).min(bytes.len())];
    if let Err(fault) = check(line, delimiter, rj_csv_io::strict::HeaderPlace::First, full) {
        return Err(fault_of_text(side, fault));
    }
    let header = header_of(alloc, line, side, delimiter)?;
    let begin = line.len() as u64;
    Ok(Some(Head { header, begin }))
}
