//! The last place to cut a text that more bytes follow.

ghost use Rattle.std.specs.Prelude.{◌≡◌, ◌==◌, ◌<◌, ◌≤◌, ◌-◌, ◌++◌, ℕ, List, true, false, length, take, drop, slice_index};
ghost use Rattle.csv.specs.Reading.{records};
ghost use Rattle.rj_csv_io.specs.Grammar.{may_delimit};
ghost use Rattle.rj_csv_io.specs.StrictReading.{config_of};
ghost use Rattle.rj_csv_io.specs.declared.place.ReaderPlace.TheVariants as from;
ghost use Rattle.rj_csv_io.specs.Cuts.{place_after};
ghost use Rattle.rj_csv_io.specs.Pieces.{IsLastEnd};

use crate::place::{ReaderPlace, is_open, scan};
use crate::strict::Delimiter;
use memchr::{memchr, memrchr};

// The end of the stretch that begins here: after its first double quote, or the text's end.
fn stretch_end(text: &[u8], at: usize) -> usize
    requires { at < length text.now }
    ensures from { at < result }
    ensures within { result ≤ length text.now }
    ensures plain { (i : ℕ) → at ≤ i → i < result - 1 → (slice_index text.now i == 34) ≡ false }
{
    match memchr(b'"', &text[at..]) {
        Some(k) => at + k + 1,
        None => text.len(),
    }
}

// The last line end up to the end of a stretch, given the last one up to its start.
fn later_end(text: &[u8], at: usize, next: usize, place: ReaderPlace, last: usize) -> usize
    requires order { at < next }
    requires within { next ≤ length text.now }
    requires plain { (i : ℕ) → at ≤ i → i < next - 1 → (slice_index text.now i == 34) ≡ false }
    ensures { (d : ℕ) → may_delimit d ≡ true → place ≡ place_after d from.Fresh (take at text.now)
        → IsLastEnd d text.now at last → IsLastEnd d text.now next result }
{
    if is_open(place) {
        return last;
    }
    match memrchr(b'\n', &text[at..next]) {
        Some(feed) => at + feed + 1,
        None => last,
    }
}

/// The last place of a text after a line feed that ends a record, or 0 if there is none. The text
/// has this delimiter, and begins where a record does, without its byte order mark. Whatever bytes
/// follow the text, the records of both are those before the place and those from the place on.
/// Only line feeds count, so a text whose lines end in lone carriage returns has no such place. It
/// allocates no memory.
pub fn last_cut(text: &[u8], delimiter: Delimiter) -> usize
    ensures last { IsLastEnd delimiter text.now (length text.now) result }
    ensures only { (at : ℕ) → IsLastEnd delimiter text.now (length text.now) at → at ≡ result }
    ensures records { (more : List ℕ) → records (config_of delimiter) (text.now ++ more)
        ≡ records (config_of delimiter) (take result text.now) ++ records (config_of delimiter) (drop result text.now ++ more) }
{
    let byte = delimiter.byte();
    let mut place = ReaderPlace::Fresh;
    let mut at = 0usize;
    let mut last = 0usize;
    while at < text.len() {
        let next = stretch_end(text, at);
        last = later_end(text, at, next, place, last);
        place = scan(place, &text[at..next], byte);
        at = next;
    }
    last
}
