//! A line of a script read as a parcel.

ghost use Rattle.std.specs.Prelude.{◌≡◌, ◌^◌, IfOk, ◌++◌, ◌∷◌, Some, None};
ghost use Rattle.std.specs.Char.{is_ascii_digit};
ghost use Rattle.std.specs.List.{list_all};
ghost use Rattle.std.specs.Str.{bytes_eq};
ghost use Rattle.rj_line.specs.Script.{is_numeral, number_of, rows_of, body_of, reading, words_of};

use crate::script::lines::split_once;
use rj_exchange::ledger::{Block, Body, Parcel};
use std::alloc::{AllocError, Global};

fn are_digits(word: &[u8]) -> bool
    ensures { result ≡ list_all is_ascii_digit word.now }
{
    word.iter().all(|b| b.is_ascii_digit())
}

fn is_numeral(word: &[u8]) -> bool
    ensures { result ≡ is_numeral word.now }
{
    !word.is_empty() && are_digits(word)
}

fn is_text(word: &[u8], text: &str) -> bool
    ensures { result ≡ bytes_eq word.now text.now }
{
    word == text.as_bytes()
}

fn number_of(word: &[u8]) -> Option<u64>
    ensures { result ≡ number_of (2 ^ 64) word.now }
{
    if !is_numeral(word) {
        return None;
    }
    match str::from_utf8(word) {
        Ok(digits) => digits.parse::<u64>().ok(),
        Err(_) => None,
    }
}

fn small_number_of(word: &[u8]) -> Option<u32>
    ensures { result ≡ number_of (2 ^ 32) word.now }
{
    u32::try_from(number_of(word)?).ok()
}

// The row numbers of the words, if each word is one.
fn read_rows(alloc: Global, words: &[u8]) -> Result<Option<Block>, AllocError>
    ensures { IfOk result (λ o. o ≡ rows_of (words_of words.now)) }
{
    let mut rows = Vec::new(alloc);
    let mut rest = words;
    while let Some((word, more)) = split_once(rest, b' ') {
        let Some(row) = small_number_of(word) else {
            return Ok(None)
        };
        rows.push(row)?;
        rest = more;
    }
    let Some(row) = small_number_of(rest) else {
        return Ok(None)
    };
    rows.push(row)?;
    Ok(Some(Block::new(rows)))
}

fn read_body(alloc: Global, words: &[u8]) -> Result<Option<Body>, AllocError>
    ensures { IfOk result (λ o. o ≡ body_of (words_of words.now)) }
{
    match split_once(words, b' ') {
        Some((kind, rows)) => {
            if !is_text(kind, "rows") {
                return Ok(None);
            }
            match read_rows(alloc, rows)? {
                Some(rows) => Ok(Some(Body::Rows(rows))),
                None => Ok(None),
            }
        }
        None => {
            if is_text(words, "rows") {
                Ok(Some(Body::Rows(Block::new(Vec::new(alloc)))))
            } else if is_text(words, "close") {
                Ok(Some(Body::Close))
            } else {
                Ok(None)
            }
        }
    }
}

// The parcel that a line reads as, if it has one of the two forms.
pub(crate) fn read_parcel(alloc: Global, line: &[u8]) -> Result<Option<Parcel>, AllocError>
    ensures { IfOk result (λ o. o ≡ reading line.now) }
{
    let Some((sender, rest)) = split_once(line, b' ') else {
        return Ok(None)
    };
    let Some((partition, rest)) = split_once(rest, b' ') else {
        return Ok(None)
    };
    let Some((number, rest)) = split_once(rest, b' ') else {
        return Ok(None)
    };
    let Some(sender) = small_number_of(sender) else {
        return Ok(None)
    };
    let Some(partition) = small_number_of(partition) else {
        return Ok(None)
    };
    let Some(number) = number_of(number) else {
        return Ok(None)
    };
    let Some(body) = read_body(alloc, rest)? else {
        return Ok(None)
    };
    Ok(Some(Parcel {
        sender,
        partition,
        number,
        body,
    }))
}
