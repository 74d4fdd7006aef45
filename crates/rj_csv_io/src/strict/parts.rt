//! The fast look at a text in parts, each by its own thread.

ghost use Rattle.std.specs.Prelude.{◌≡◌, ℕ, true, IfOk, IfSome, length, map};
ghost use Rattle.std.specs.List.{concat};
ghost use Rattle.rj_csv_io.specs.Grammar.{Derives, File};
ghost use Rattle.rj_csv_io.specs.Internal.StrictWalk.{AreWalked, walk};
ghost use Rattle.rj_csv_io.specs.declared.strict.header.HeaderPlace.{HeaderPlace as Heading};
ghost use Rattle.rj_csv_io.specs.declared.strict.standing.Place.TheVariants.{Start};

use crate::strict::clean::{ends_well, place_at_end};
use crate::strict::delimiter::Delimiter;
use crate::strict::standing::Place;
use memchr::memchr;
use std::alloc::{AllocError, Global};
use std::thread::{self, Threads};

// The least bytes of a part: fewer take less time than starting a thread.
const LEAST_PART: usize = 262_144;

// Cuts a text after line feeds into at most `parts` texts of about one size.
fn cut_at_lines<'a>(
    alloc: Global,
    text: &'a [u8],
    count: usize,
) -> Result<Vec<&'a [u8]>, AllocError>
    ensures { IfOk result (λ v. concat (map (λ p. p.now) v.items) ≡ text.now) }
{
    let mut parts = Vec::new(alloc);
    let mut rest = text;
    let size = text.len() / count.max(1) + 1;
    for _k in 1..count {
        if rest.len() <= size {
            break;
        }
        let Some(feed) = memchr(b'\n', &rest[size..]) else {
            break;
        };
        let (part, more) = rest.split_at(size + feed + 1);
        parts.push(part)?;
        rest = more;
    }
    parts.push(rest)?;
    Ok(parts)
}

// The place after consecutive texts, from the places after each of them alone. All but the last
// have to end with a line end.
fn place_after_all(texts: &[&[u8]], places: &[Option<Place>]) -> Option<Place>
    requires { length places.now ≡ length texts.now }
    ensures { IfSome result (λ p. (d : ℕ) → AreWalked d (map (λ t. t.now) texts.now) places.now → walk d Start (concat (map (λ t. t.now) texts.now)) ≡ Some p) }
{
    let mut place = Place::Start;
    for i in 0..texts.len() {
        match place {
            Place::Start => place = places[i]?,
            _ => return None,
        }
    }
    Some(place)
}

// The place after a text, looked at in at most `parts` parts.
fn place_in_parts<R: Threads + Sync>(
    rt: &R,
    alloc: Global,
    text: &[u8],
    delimiter: Delimiter,
    parts: usize,
) -> Option<Place>
    ensures { IfSome result (λ p. walk delimiter Start text.now ≡ Some p) }
{
    let Ok(texts) = cut_at_lines(alloc, text, parts) else {
        return None;
    };
    let texts = texts.as_slice();
    let looked = thread::map_indices(
        rt,
        alloc,
        texts.len(),
        &|i| place_at_end(texts[i], delimiter),
    );
    let Ok(places) = looked else {
        return None;
    };
    place_after_all(texts, places.as_slice())
}

/// Whether a text is derived under more than one name, so that it has no empty line. A fast look at
/// up to `parts` parts at a time finds out, each in its own thread, one of them the calling thread.
/// A part has at least 256 KiB. The text must not begin with a byte order mark: pass the text after
/// the mark.
///
/// If the answer is false, nothing is known of the text, and [`crate::strict::check`] decides. Perhaps a
/// quoted field has a line feed where the text was cut, or memory ran out.
pub fn is_derived_in_parts<R: Threads + Sync>(
    rt: &R,
    alloc: Global,
    text: &[u8],
    delimiter: Delimiter,
    full: bool,
    parts: usize,
) -> bool
    ensures { result ≡ true → (header : Heading) → (file : File) × Derives delimiter header full text.now file }
{
    let parts = parts.min(text.len() / LEAST_PART);
    match place_in_parts(rt, alloc, text, delimiter, parts) {
        Some(place) => ends_well(place, full),
        None => false,
    }
}
