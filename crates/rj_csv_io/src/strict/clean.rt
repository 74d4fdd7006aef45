//! A fast look at a text that has neither an error nor an empty line.

ghost use Rattle.std.specs.Prelude.{◌≡◌, ◌<◌, ◌==◌, ℕ, true, false, Bool, Ok, Some, IfSome, length, slice_index};
ghost use Rattle.rj_csv_io.specs.Grammar.{may_delimit};
ghost use Rattle.rj_csv_io.specs.Internal.StrictSteps.{initial_standing, verdict};
ghost use Rattle.rj_csv_io.specs.Internal.StrictWalk.{all_follow, may_end, may_not_follow, over_quote, place_after, walk};
ghost use Rattle.rj_csv_io.specs.declared.strict.header.HeaderPlace.{HeaderPlace as Heading};
ghost use Rattle.rj_csv_io.specs.declared.strict.standing.Place.TheVariants.{Start};

use crate::strict::delimiter::Delimiter;
use crate::strict::standing::Place;
use memchr::memchr;

// How many bytes are scanned for quotes, and then once more: so few that they are still in the
// cache.
const NEAR: usize = 32_768;

// Whether a byte may not follow another outside quotes.
fn is_bad(before: u8, byte: u8) -> bool
    ensures { result ≡ may_not_follow before byte }
{
    (byte == b'"')
        | ((before == b'\n') & ((byte == b'\n') | (byte == b'\r')))
        | ((before == b'\r') & (byte != b'\n'))
}

// The place after a byte that is no quote, outside quotes.
fn place_behind(delimiter: u8, byte: u8) -> Place
    ensures { result ≡ place_after delimiter byte }
{
    match byte {
        b'\n' => Place::Start,
        b'\r' => Place::Return,
        _ if byte == delimiter => Place::Fresh,
        _ => Place::Inside,
    }
}

// Whether each byte may follow the one before it.
fn all_may_follow(before: u8, text: &[u8]) -> bool
    ensures { result ≡ true → all_follow before text.now ≡ true }
{
    if text.is_empty() {
        return true;
    }
    let mut bad = is_bad(before, text[0]);
    for i in 1..text.len() {
        bad |= is_bad(text[i - 1], text[i]);
    }
    !bad
}

// Whether each byte may follow the one before it, in a text without CR.
fn follow_without_returns(before: u8, text: &[u8]) -> bool
    requires quotes { (i : ℕ) → i < length text.now → (slice_index text.now i == 34) ≡ false }
    requires returns { (i : ℕ) → i < length text.now → (slice_index text.now i == 13) ≡ false }
    ensures { result ≡ true → all_follow before text.now ≡ true }
{
    if text.is_empty() {
        return true;
    }
    let mut bad = is_bad(before, text[0]);
    for i in 1..text.len() {
        bad |= (text[i - 1] == b'\n') & (text[i] == b'\n');
    }
    !bad
}

// Whether each byte may follow the one before it, in a text without a quote.
fn follow_without_quotes(before: u8, text: &[u8]) -> bool
    requires { (i : ℕ) → i < length text.now → (slice_index text.now i == 34) ≡ false }
    ensures { result ≡ true → all_follow before text.now ≡ true }
{
    match memchr(b'\r', text) {
        Some(_) => all_may_follow(before, text),
        None => follow_without_returns(before, text),
    }
}

// The place after a text outside quotes that has none, after this byte.
fn follow(delimiter: u8, before: u8, text: &[u8]) -> Option<Place>
    requires some { 0 < length text.now }
    requires quotes { (i : ℕ) → i < length text.now → (slice_index text.now i == 34) ≡ false }
    ensures { IfSome result (λ p. walk delimiter (place_after delimiter before) text.now ≡ Some p) }
{
    if follow_without_quotes(before, text) {
        return Some(place_behind(delimiter, text[text.len() - 1]));
    }
    None
}

// The place after a text without a quote.
fn stretch(delimiter: u8, place: Place, text: &[u8]) -> Option<Place>
    requires lawful { may_delimit delimiter ≡ true }
    requires quotes { (i : ℕ) → i < length text.now → (slice_index text.now i == 34) ≡ false }
    ensures { IfSome result (λ p. walk delimiter place text.now ≡ Some p) }
{
    if text.is_empty() {
        return Some(place);
    }
    match place {
        Place::Open => Some(Place::Open),
        Place::Start => follow(delimiter, b'\n', text),
        Place::Fresh => follow(delimiter, delimiter, text),
        Place::Inside => follow(delimiter, b'a', text),
        Place::Return => follow(delimiter, b'\r', text),
        Place::Closed => {
            let byte = text[0];
            if (byte == delimiter) | (byte == b'\n') | (byte == b'\r') {
                return follow(delimiter, b'a', text);
            }
            None
        }
        Place::Blank => None,
    }
}

// The place after a quote.
fn behind_quote(place: Place) -> Option<Place>
    ensures { result ≡ over_quote place }
{
    match place {
        Place::Start | Place::Fresh | Place::Closed => Some(Place::Open),
        Place::Open => Some(Place::Closed),
        Place::Inside | Place::Blank | Place::Return => None,
    }
}

// The place after a text that has neither an error nor an empty line, from quote to quote.
fn place_behind_text(delimiter: u8, start: Place, text: &[u8]) -> Option<Place>
    requires { may_delimit delimiter ≡ true }
    ensures { IfSome result (λ p. walk delimiter start text.now ≡ Some p) }
{
    let mut place = start;
    let mut at = 0usize;
    for _turn in 0..text.len() {
        match memchr(b'"', &text[at..]) {
            None => return stretch(delimiter, place, &text[at..]),
            Some(k) => {
                place = behind_quote(stretch(delimiter, place, &text[at..at + k])?)?;
                at += k + 1;
            }
        }
    }
    Some(place)
}

/// The place after a text that has neither an error nor an empty line, if the fast look sees that
/// it has none.
pub(crate) fn place_at_end(text: &[u8], delimiter: Delimiter) -> Option<Place>
    ensures { IfSome result (λ p. walk delimiter Start text.now ≡ Some p) }
{
    let byte = delimiter.byte();
    let mut place = Place::Start;
    for part in text.chunks(NEAR) {
        place = place_behind_text(byte, place, part)?;
    }
    Some(place)
}

/// Whether a text may end at a place.
pub(crate) fn ends_well(place: Place, full: bool) -> bool
    ensures { result ≡ may_end full place }
{
    match place {
        Place::Start => true,
        Place::Fresh | Place::Inside | Place::Closed => !full,
        Place::Open | Place::Blank | Place::Return => false,
    }
}

/// Whether a text is derived whatever its header is, as far as a look can tell that is much faster
/// than [`crate::strict::check`] byte by byte. A text with an empty line isn't.
pub(crate) fn is_clean(text: &[u8], delimiter: Delimiter, full: bool) -> bool
    ensures { result ≡ true → (h : Heading) → verdict delimiter full (initial_standing h) text.now ≡ Ok tt }
{
    match place_at_end(text, delimiter) {
        Some(place) => ends_well(place, full),
        None => false,
    }
}
