//! The entries of a text that isn't a type list.

ghost use Rattle.std.specs.Prelude.{◌≡◌, ◌==◌, ◌&&◌, ◌||◌, ◌∷◌, [], All, IfOk, List, MatchBool, MatchOption, not, ℕ};
ghost use Rattle.rj_settings.specs.Words as words;
ghost use Rattle.rj_settings.specs.Words.{text_of};
ghost use Rattle.rj_explain.specs.Entries.{IsBehind, split_entries, entry_length, further};
ghost use Rattle.rj_explain.specs.Listed.{IsFirstBad, IsList, IsNoList};

use rj_settings::types::read_list;
use std::alloc::{AllocError, Global};

// Whether a place in a list is in double quotes, and whether it is in parentheses.
#[derive(Clone, Copy)]
struct Enclosed {
    quoted: bool,
    nested: bool,
}

impl Enclosed {
    // Whether this byte at the place separates two entries.
    fn separates(self, byte: u8) -> bool
        ensures { result ≡ (byte == 44 && not (self.quoted || self.nested)) }
    {
        byte == b',' && !(self.quoted || self.nested)
    }

    // The place behind this byte.
    fn behind(self, byte: u8) -> Enclosed
        ensures { (before : List ℕ) → IsBehind before self → IsBehind (byte ∷ before) result }
    {
        match byte {
            b'"' => Enclosed {
                quoted: !self.quoted,
                nested: self.nested,
            },
            b'(' | b')' if !self.quoted => Enclosed {
                quoted: false,
                nested: byte == b'(',
            },
            _ => self,
        }
    }
}

// How many bytes the first entry has.
fn entry_len(list: &[u8]) -> usize
    ensures { result ≡ entry_length [] list.now }
{
    let mut place = Enclosed {
        quoted: false,
        nested: false,
    };
    for i in 0..list.len() {
        if place.separates(list[i]) {
            return i;
        }
        place = place.behind(list[i]);
    }
    list.len()
}

// The first entry, and what is left behind its comma.
fn next_entry(list: &str) -> (&str, Option<&str>)
    ensures whole { list.now ≡ words.before result.0.now (text_of result.1) }
    ensures first { split_entries list.now ≡ result.0.now ∷ further (text_of result.1) }
{
    let (entry, behind) = list.split_at(entry_len(list.as_bytes()));
    (entry, behind.strip_prefix(','))
}

/// Whether a text is a type list.
///
/// # Errors
///
/// It fails only when memory runs out.
pub(crate) fn is_list(alloc: Global, text: &str) -> Result<bool, AllocError>
    ensures { IfOk result (λ b. MatchBool b (IsList text.now) (IsNoList text.now)) }
{
    Ok(read_list(alloc, text)?.is_some())
}

/// The first entry of a text that is invalid by itself, if there is one.
///
/// # Errors
///
/// It fails only when memory runs out.
pub(crate) fn bad_entry(alloc: Global, list: &str) -> Result<Option<&str>, AllocError>
    ensures { IfOk result (λ o. MatchOption o (All IsList (split_entries list.now)) (λ entry. IsFirstBad list.now entry.now)) }
{
    let mut left = list;
    loop {
        let (entry, rest) = next_entry(left);
        if !is_list(alloc, entry)? {
            return Ok(Some(entry));
        }
        match rest {
            Some(more) => left = more,
            None => return Ok(None),
        }
    }
}
