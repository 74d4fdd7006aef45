//! The name at the front of a text.

ghost use Rattle.std.specs.Prelude.{◌≡◌, ◌<◌, IfOk};
ghost use Rattle.std.specs.List.{list_all, prefix_len};
ghost use Rattle.rj_condition.specs.Internal.Scanning.{quoted, view};
ghost use Rattle.rj_condition.specs.Tokens.{is_name_byte};
ghost use Rattle.rj_settings.specs.Labels as labels;
ghost use Rattle.rj_settings.specs.Internal.Scanning as scanning;
ghost use Rattle.rj_settings.specs.Words.{text_of};

use rj_condition::{Name, Word, quoted};
use std::alloc::{AllocError, Global};

/// What comes after the sign that the text begins with.
pub(crate) fn behind(sign: u8, text: &str) -> Option<&str>
    requires { sign < 128 }
    ensures { text_of result ≡ scanning.behind sign text.now }
{
    text.strip_prefix(sign as char)
}

fn name_byte(byte: u8) -> bool
    ensures { result ≡ is_name_byte byte }
{
    byte.is_ascii_alphanumeric() || byte == b'_'
}

// How many bytes of a name the text begins with.
fn word_len(text: &[u8]) -> usize
    ensures { result ≡ prefix_len is_name_byte text.now }
{
    text.iter().take_while(|b| name_byte(**b)).count()
}

fn are_name_bytes(word: &[u8]) -> bool
    ensures { result ≡ list_all is_name_byte word.now }
{
    word.iter().all(|b| name_byte(*b))
}

// Whether a word is a regular name. Unlike an identifier of a clause, it may begin with an
// underscore.
fn is_regular(word: &[u8]) -> bool
    ensures { result ≡ labels.is_regular word.now }
{
    match word {
        [] => false,
        [first, ..] => !first.is_ascii_digit() && are_name_bytes(word),
    }
}

// The delimited name in front of a text whose first quote was left out.
fn delimited_at<'t>(alloc: Global, text: &'t str) -> Result<Option<(Name, &'t str)>, AllocError>
    ensures { IfOk result (λ o. view o ≡ scanning.delimited_at (quoted 34 text.now)) }
{
    let Some((name, after)) = quoted(alloc, b'"', text)? else {
        return Ok(None);
    };
    if name.as_str().is_empty() {
        return Ok(None);
    }
    Ok(Some((
        Name {
            text: name,
            delimited: true,
        },
        after,
    )))
}

// The regular name in front of a text.
fn regular_at<'t>(alloc: Global, text: &'t str) -> Result<Option<(Name, &'t str)>, AllocError>
    ensures { IfOk result (λ o. view o ≡ scanning.regular_in text.now) }
{
    let (front, after) = text.split_at(word_len(text.as_bytes()));
    if !is_regular(front.as_bytes()) {
        return Ok(None);
    }
    Ok(Some((
        Name {
            text: Word::new(alloc, front)?,
            delimited: false,
        },
        after,
    )))
}

/// The name with which the text begins, and what comes after it.
pub(crate) fn name_at<'t>(
    alloc: Global,
    text: &'t str,
) -> Result<Option<(Name, &'t str)>, AllocError>
    ensures { IfOk result (λ o. view o ≡ scanning.name_in text.now) }
{
    match behind(b'"', text) {
        Some(quoting) => delimited_at(alloc, quoting),
        None => regular_at(alloc, text),
    }
}
