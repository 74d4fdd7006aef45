//! Where a text of CSV is after its bytes, as far as quotes go.

ghost use Rattle.std.specs.Prelude.{◌≡◌, ◌<◌, ◌≤◌, ◌==◌, ℕ, false, length, take, slice_index};
ghost use Rattle.rj_csv_io.specs.Cuts.{after_quote, after_run, is_open_place, place_after};

use memchr::memchr;

/// A place in a text: at the start of a field, in one, between quotes, after the closing quote.
#[derive(Clone, Copy, Debug, PartialEq, Eq)]
pub(crate) enum ReaderPlace {
    Fresh,
    Inside,
    Open,
    Closed,
}

/// Whether a place is between quotes.
pub(crate) fn is_open(place: ReaderPlace) -> bool
    ensures { result ≡ is_open_place place }
{
    match place {
        ReaderPlace::Open => true,
        ReaderPlace::Fresh | ReaderPlace::Inside | ReaderPlace::Closed => false,
    }
}

// The place after a quote.
fn quoted(place: ReaderPlace) -> ReaderPlace
    ensures { result ≡ after_quote place }
{
    match place {
        ReaderPlace::Fresh => ReaderPlace::Open,
        ReaderPlace::Inside => ReaderPlace::Inside,
        ReaderPlace::Open => ReaderPlace::Closed,
        ReaderPlace::Closed => ReaderPlace::Open,
    }
}

// The place after bytes without a quote, of which this is the last.
fn plain(place: ReaderPlace, byte: u8, delimiter: u8) -> ReaderPlace
    ensures { result ≡ after_run delimiter place byte }
{
    if place == ReaderPlace::Open {
        return ReaderPlace::Open;
    }
    if byte == delimiter || byte == b'\r' || byte == b'\n' {
        return ReaderPlace::Fresh;
    }
    ReaderPlace::Inside
}

// The place after more bytes, of which none is a quote.
fn run(place: ReaderPlace, text: &[u8], from: usize, to: usize, delimiter: u8) -> ReaderPlace
    requires order { from ≤ to }
    requires within { to ≤ length text.now }
    requires plain { (i : ℕ) → from ≤ i → i < to → (slice_index text.now i == 34) ≡ false }
    ensures { (p : ReaderPlace) → place ≡ place_after delimiter p (take from text.now)
        → result ≡ place_after delimiter p (take to text.now) }
{
    if from == to {
        return place;
    }
    plain(place, text[to - 1], delimiter)
}

/// The place after a text that begins at this place. The delimiter is given by its byte.
pub(crate) fn scan(start: ReaderPlace, text: &[u8], delimiter: u8) -> ReaderPlace
    ensures { result ≡ place_after delimiter start text.now }
{
    let mut place = start;
    let mut at = 0usize;
    for _turn in 0..text.len() {
        match memchr(b'"', &text[at..]) {
            None => return run(place, text, at, text.len(), delimiter),
            Some(k) => {
                place = quoted(run(place, text, at, at + k, delimiter));
                at += k + 1;
            }
        }
    }
    place
}
