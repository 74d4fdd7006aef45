//! Where the record of a row is in a text of CSV by its delimiter, and on which line.

ghost use Rattle.std.specs.Prelude.{◌≡◌, ◌<◌, ◌≤◌, ◌==◌, [], length, drop, take, IfSome, IfNone, MatchOption};
ghost use Rattle.std.specs.List.{count_by, list_all, prefix_len};
ghost use Rattle.csv.specs.Machine.{next_record};
ghost use Rattle.csv.specs.declared.parser.State.TheVariants as st;
ghost use Rattle.rj_csv_io.specs.StrictReading.{config_of};
ghost use Rattle.rj_explain.specs.Places.{EndsFirst, HasNoRow, StandsAt};
ghost use Rattle.rj_explain.specs.Places as places;

use rj_csv_io::names::first_end;
use rj_csv_io::strict::Delimiter;

fn is_line_end(byte: u8) -> bool
    ensures { result ≡ places.is_line_end byte }
{
    (byte == b'\r') | (byte == b'\n')
}

// Whether a text is line ends alone.
fn is_blank(text: &[u8]) -> bool
    ensures { result ≡ list_all places.is_line_end text.now }
{
    text.iter().all(|b| is_line_end(*b))
}

/// How many bytes the first record of a text takes, with the line ends before it; none if there is
/// no record.
pub(crate) fn first_record(text: &[u8], delimiter: Delimiter) -> Option<usize>
    ensures within { IfSome result (λ end. end ≤ length text.now) }
    ensures size { IfSome result (λ end. 0 < end) }
    ensures record { MatchOption result (next_record (config_of delimiter) st.StartRecord [] [] text.now ≡ None) (EndsFirst delimiter text.now) }
{
    if is_blank(text) {
        return None;
    }
    let end = first_end(text, delimiter);
    Some((end + 1).min(text.len()))
}

/// The place in a text after the records that come before the one of this row. The header has row
/// 0. The text's byte order mark was left out already. `None` if the text has fewer records.
pub(crate) fn place_of_row(text: &[u8], delimiter: Delimiter, row: u64) -> Option<usize>
    ensures within { IfSome result (λ at. at ≤ length text.now) }
    ensures rows { IfSome result (λ at. row ≤ at) }
    ensures place { MatchOption result (HasNoRow delimiter text.now row) (StandsAt delimiter text.now row) }
{
    let mut at = 0;
    for _above in 0..row {
        match first_record(&text[at..], delimiter) {
            Some(size) => at += size,
            None => return None,
        }
    }
    Some(at)
}

// How many line ends are at the start of a text.
fn line_ends(text: &[u8]) -> usize
    ensures count { result ≡ prefix_len places.is_line_end text.now }
    ensures within { result ≤ length text.now }
{
    text.iter().take_while(|b| is_line_end(**b)).count()
}

/// How many line feeds a text has.
pub(crate) fn line_feeds(text: &[u8]) -> usize
    ensures { result ≡ count_by (λ c. c == 10) text.now }
{
    text.iter().filter(|b| **b == b'\n').count()
}

/// The line, counted from 1, of the first byte from a place on that isn't part of a line end.
pub(crate) fn line_from(text: &[u8], at: usize) -> u64
    requires { at ≤ length text.now }
    ensures { result ≡ places.line_of text.now (places.first_byte text.now at) }
{
    let first = at + line_ends(&text[at..]);
    line_feeds(&text[..first]) as u64 + 1
}
