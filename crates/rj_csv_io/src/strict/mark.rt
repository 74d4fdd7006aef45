//! The byte order mark that a text may begin with.

ghost use Rattle.std.specs.Prelude.{◌≡◌, ◌≤◌, true, length};
ghost use Rattle.csv.specs.Reading.{strip_bom};
ghost use Rattle.rj_csv_io.specs.StrictReading.{body_of, has_mark};

use crate::strict::header::HeaderPlace;

// Whether a text begins with a byte order mark.
fn starts_with_mark(text: &[u8]) -> bool
    ensures value { result ≡ has_mark text.now }
    ensures long { result ≡ true → 3 ≤ length text.now }
{
    if text.len() < 3 {
        return false;
    }
    (text[0] == 0xEF) & (text[1] == 0xBB) & (text[2] == 0xBF)
}

// A text without the byte order mark at its start.
fn without_mark(text: &[u8]) -> &[u8]
    ensures { result.now ≡ strip_bom text.now }
{
    if starts_with_mark(text) {
        return &text[3..];
    }
    text
}

/// A text without the byte order mark at its start, if the header is in the text.
pub(crate) fn body(text: &[u8], header: HeaderPlace) -> &[u8]
    ensures { result.now ≡ body_of header text.now }
{
    match header {
        HeaderPlace::First => without_mark(text),
        HeaderPlace::Above(_) => text,
    }
}
