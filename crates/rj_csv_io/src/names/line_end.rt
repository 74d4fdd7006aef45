//! Where the first record of a text ends.

ghost use Rattle.std.specs.Prelude.{◌≡◌, ◌≤◌, length, drop};
ghost use Rattle.csv.specs.Machine.{in_field, start_field, step};
ghost use Rattle.rj_csv_io.specs.StrictReading.{config_of};
ghost use Rattle.rj_csv_io.specs.NameEnds.{GoesTo, behind_first, state_of};

use crate::strict::Delimiter;

/// A place in the first record of a text: before it, at the start of a field, in one, between
/// quotes, after the closing quote.
#[derive(Clone, Copy)]
pub(crate) enum Place {
    Start,
    Fresh,
    Inside,
    Open,
    Closed,
}

// The place after a byte in a field outside quotes. None if the byte ends the record.
fn behind_plain(byte: u8, delimiter: u8) -> Option<Place>
    ensures { GoesTo (in_field (config_of delimiter) byte) result }
{
    if byte == delimiter {
        return Some(Place::Fresh);
    }
    if byte == b'\r' || byte == b'\n' {
        return None;
    }
    Some(Place::Inside)
}

// The place after the first byte of a field.
fn behind_start(byte: u8, delimiter: u8) -> Option<Place>
    ensures { GoesTo (start_field (config_of delimiter) byte) result }
{
    if byte == b'"' {
        return Some(Place::Open);
    }
    behind_plain(byte, delimiter)
}

// The place after one more byte. None if the byte ends the record.
fn behind(place: Place, byte: u8, delimiter: u8) -> Option<Place>
    ensures { GoesTo (step (config_of delimiter) (state_of place) byte) result }
{
    match place {
        Place::Start if byte == b'\r' || byte == b'\n' => Some(Place::Start),
        Place::Start | Place::Fresh => behind_start(byte, delimiter),
        Place::Inside => behind_plain(byte, delimiter),
        Place::Open if byte == b'"' => Some(Place::Closed),
        Place::Open => Some(Place::Open),
        Place::Closed if byte == b'"' => Some(Place::Open),
        Place::Closed => behind_plain(byte, delimiter),
    }
}

/// Where the first record of a text ends: before its line end, or at the end of the text.
pub fn first_end(text: &[u8], delimiter: Delimiter) -> usize
    ensures within { result ≤ length text.now }
    ensures rest { drop result text.now ≡ behind_first delimiter text.now }
{
    let byte = delimiter.byte();
    let mut place = Place::Start;
    for i in 0..text.len() {
        match behind(place, text[i], byte) {
            Some(next) => place = next,
            None => return i,
        }
    }
    text.len()
}
